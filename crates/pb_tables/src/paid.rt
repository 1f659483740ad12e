//! Whether actions pay for what they lower.
ghost use Rattle.std.specs.Prelude.{◌≡◌, ℕ, ◌+◌, ◌-◌, ◌*◌, ◌^◌, ◌<◌, ◌≤◌, All, IfSome, max, nat_le, not, length, slice_index};
ghost use Rattle.pb_task.specs.Strips.{action_at, IsStrips};
ghost use Rattle.pb_tables.specs.Tables.{IsTable, drop_of, drops_of, value_at, value_in};
ghost use Rattle.pb_tables.specs.Order.{IsWritten, AreWritten};
ghost use Rattle.pb_tables.specs.Looking.{IsEffect, IsFirst};
ghost use Rattle.pb_tables.specs.Suits.{is_unpaid, sums_unpaid};

use crate::effect::{Effect, effect_of, may_act, place_after, touches};
use crate::fault::TablesFault;
use crate::sums::{SUMS, no_sums};
use crate::table::Table;
use pb_task::StripsParts;

// The value, in a sum, of the image in a place; 0 if there is none.
fn value_in(sums: usize, values: &[u64], sum: usize, place: Option<usize>) -> u64
    requires sum { sum < sums }
    requires place { IfSome place (λ place. place * sums + sums ≤ length values.now) }
    ensures { result ≡ value_in sums values.now sum place }
{
    match place {
        Some(place) => values[place * sums + sum],
        None => 0,
    }
}

// Raises what an action lowers each sum to what it lowers by a step from one place to another.
fn raise(drops: &mut [u64; SUMS], sums: usize, values: &[u64], from: usize, to: Option<usize>)
    requires sums { sums ≤ 64 }
    requires from { from * sums + sums ≤ length values.now }
    requires to { IfSome to (λ to. to * sums + sums ≤ length values.now) }
    ensures { (sum : ℕ) → sum < sums → slice_index drops.new sum
        ≡ max (slice_index drops.old sum) (value_at sums values.now sum from
        - value_in sums values.now sum to) }
{
    for sum in 0..sums {
        let value = values[from * sums + sum];
        // A step that raises the value lowers it by nothing: 0.
        let drop = value.saturating_sub(value_in(sums, values, sum, to));
        drops[sum] = drops[sum].max(drop);
    }
}

// By how much an action lowers the values of a table at most, for each sum.
fn drops_of_table(
    strips: &StripsParts,
    sums: usize,
    table: &Table,
    action: usize,
    effect: &Effect,
) -> [u64; SUMS]
    requires strips { IsStrips strips.now }
    requires sums { sums ≤ 64 }
    requires table { IsTable sums table.now }
    requires written { IsWritten strips.now.atoms table.now.tracked table.now.listed }
    requires effect { IsEffect strips.now.atoms table.now.tracked
        (action_at strips.now.actions action) effect.now }
    ensures { (sum : ℕ) → sum < sums → slice_index result sum
        ≡ drop_of strips.now.atoms sums (action_at strips.now.actions action) table.now sum }
{
    let tracked = table.tracked();
    let listed = table.listed();
    let mut drops = no_sums();
    let mut near = 0;
    for place in 0..listed.len() {
        let image = listed.words_at(place);
        if may_act(strips, tracked, action, effect, image) {
            let to = place_after(strips, tracked, listed, action, effect, image, near);
            raise(&mut drops, sums, table.values(), place, to);
            near = to.unwrap_or(near);
        }
    }
    drops
}

// Adds what an action lowers one table to what it lowers others.
fn add_drops(totals: &mut [u64; SUMS], sums: usize, drops: &[u64; SUMS])
    requires sums { sums ≤ 64 }
    requires small { (sum : ℕ) → sum < sums → slice_index drops.now sum ≤ 2 ^ 40 }
    requires room { (sum : ℕ) → sum < sums → slice_index totals.old sum ≤ 2 ^ 52 }
    ensures { (sum : ℕ) → sum < sums → slice_index totals.new sum
        ≡ slice_index totals.old sum + slice_index drops.now sum }
{
    for sum in 0..sums {
        totals[sum] += drops[sum];
    }
}

// By how much an action lowers each sum over tables at most. A table of which it touches no tracked
// atom is passed over.
fn drops_of(strips: &StripsParts, sums: usize, tables: &[Table], action: usize) -> [u64; SUMS]
    requires strips { IsStrips strips.now }
    requires sums { sums ≤ 64 }
    requires few { length tables.now ≤ 4096 }
    requires tables { All (IsTable sums) tables.now }
    requires written { AreWritten strips.now.atoms tables.now }
    requires action { action < length strips.now.actions }
    ensures { (sum : ℕ) → sum < sums → slice_index result sum
        ≡ drops_of strips.now.atoms (action_at strips.now.actions action) sums tables.now
        (length tables.now) sum }
{
    // At most 4,096 tables, each lowered by at most 2^40: no sum exceeds 2^52.
    let mut totals = no_sums();
    for number in 0..tables.len() {
        let table = &tables[number];
        let effect = effect_of(strips, table.tracked(), action);
        if touches(&effect) {
            let drops = drops_of_table(strips, sums, table, action, &effect);
            add_drops(&mut totals, sums, &drops);
        }
    }
    totals
}

// The first sum below a limit that is more than a cost, and the limit if there is none.
fn first_dear(totals: &[u64; SUMS], limit: usize, cost: u64) -> usize
    requires { limit ≤ 64 }
    ensures { IsFirst limit (λ sum. not (nat_le (slice_index totals.now sum) cost)) result }
{
    for sum in 0..limit {
        if totals[sum] > cost {
            return sum;
        }
    }
    limit
}

// The first sum below a limit that an action lowers by more than its cost, and the limit if there is
// none.
fn first_unpaid_by(
    strips: &StripsParts,
    sums: usize,
    tables: &[Table],
    action: usize,
    limit: usize,
) -> usize
    requires strips { IsStrips strips.now }
    requires sums { sums ≤ 64 }
    requires few { length tables.now ≤ 4096 }
    requires tables { All (IsTable sums) tables.now }
    requires written { AreWritten strips.now.atoms tables.now }
    requires action { action < length strips.now.actions }
    requires limit { limit ≤ sums }
    ensures { IsFirst limit (λ sum. is_unpaid strips.now sums tables.now sum action) result }
{
    let totals = drops_of(strips, sums, tables, action);
    first_dear(&totals, limit, strips.actions.cost(action))
}

/// The least sum that some action lowers by more than its cost, and the least such action. An action
/// is looked at once for all sums that are below the least one found.
pub fn first_unpaid(strips: &StripsParts, sums: usize, tables: &[Table]) -> Option<TablesFault>
    requires strips { IsStrips strips.now }
    requires sums { sums ≤ 64 }
    requires few { length tables.now ≤ 4096 }
    requires tables { All (IsTable sums) tables.now }
    requires written { AreWritten strips.now.atoms tables.now }
    ensures { result ≡ sums_unpaid strips.now sums tables.now }
{
    let mut least = sums;
    let mut by = 0;
    for action in 0..strips.actions.len() {
        let sum = first_unpaid_by(strips, sums, tables, action, least);
        if sum < least {
            least = sum;
            by = action;
        }
    }
    if least < sums {
        Some(TablesFault::Unpaid {
            sum: least,
            action: by,
        })
    } else {
        None
    }
}
