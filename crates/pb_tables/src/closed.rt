//! Whether steps lead from listed images to listed ones, and goals are as they should be.
ghost use Rattle.std.specs.Prelude.{◌≡◌, ◌+◌, ◌*◌, ◌^◌, ◌<◌, ◌≤◌, ◌==◌, not, All, length, slice_index};
ghost use Rattle.pb_task.specs.Strips.{action_at, IsStrips};
ghost use Rattle.pb_tables.specs.Below.{any_below};
ghost use Rattle.pb_tables.specs.Images.{has_goal, leads_out, is_open};
ghost use Rattle.pb_tables.specs.Tables.{IsTable, value_at};
ghost use Rattle.pb_tables.specs.Order.{IsWritten, AreWritten, AreTrapsWritten};
ghost use Rattle.pb_tables.specs.Looking.{IsEffect, IsFirst};
ghost use Rattle.pb_tables.specs.Suits.{is_dear_goal, table_fault, trap_fault, tables_step_fault, traps_step_fault};

use crate::effect::{Effect, effect_of, may_act, place_after, touches};
use crate::fault::TablesFault;
use crate::images::ImageList;
use crate::sets::{both, is_within};
use crate::table::Table;
use crate::trap::Trap;
use pb_packed::Packed;
use pb_task::StripsParts;

// ---- where steps lead

// The first place below a limit from whose image an action leads out, and the limit if there is
// none.
fn first_out(
    strips: &StripsParts,
    tracked: &Packed,
    listed: &ImageList,
    action: usize,
    effect: &Effect,
    limit: usize,
) -> usize
    requires strips { IsStrips strips.now }
    requires effect { IsEffect strips.now.atoms tracked.now (action_at strips.now.actions action)
        effect.now }
    requires written { IsWritten strips.now.atoms tracked.now listed.now }
    requires limit { limit ≤ length listed.now }
    ensures { IsFirst limit (λ place. leads_out strips.now.atoms tracked.now listed.now
        (action_at strips.now.actions action) (slice_index listed.now place)) result }
{
    // Images rise, and mostly so do the images that steps lead to. So each look begins at the place
    // that the last one found.
    let mut near = 0;
    for place in 0..limit {
        let image = listed.words_at(place);
        if may_act(strips, tracked, action, effect, image) {
            let to = place_after(strips, tracked, listed, action, effect, image, near);
            match to {
                Some(to) => near = to,
                None => return place,
            }
        }
    }
    limit
}

// The same by an action that may change no tracked atom: then it leads from each image to itself.
fn first_out_if_touched(
    strips: &StripsParts,
    tracked: &Packed,
    listed: &ImageList,
    action: usize,
    limit: usize,
) -> usize
    requires strips { IsStrips strips.now }
    requires action { action < length strips.now.actions }
    requires written { IsWritten strips.now.atoms tracked.now listed.now }
    requires limit { limit ≤ length listed.now }
    ensures { IsFirst limit (λ place. leads_out strips.now.atoms tracked.now listed.now
        (action_at strips.now.actions action) (slice_index listed.now place)) result }
{
    let effect = effect_of(strips, tracked, action);
    if touches(&effect) {
        first_out(strips, tracked, listed, action, &effect, limit)
    } else {
        limit
    }
}

// The first place below a limit from whose image some action leads out, and the limit if there is
// none. One action after another is looked at, so that its sets are cut once.
fn first_open(strips: &StripsParts, tracked: &Packed, listed: &ImageList, limit: usize) -> usize
    requires strips { IsStrips strips.now }
    requires written { IsWritten strips.now.atoms tracked.now listed.now }
    requires limit { limit ≤ length listed.now }
    ensures { IsFirst limit (λ place. is_open strips.now tracked.now listed.now
        (slice_index listed.now place)) result }
{
    let mut first = limit;
    for action in 0..strips.actions.len() {
        // The least place counts, so each action is tried only below the least one found so far.
        first = first_out_if_touched(strips, tracked, listed, action, first);
    }
    first
}

// ---- goals

// Whether the image in a place has a value other than 0 in some sum.
fn has_value(sums: usize, values: &[u64], place: usize) -> bool
    requires { place * sums + sums ≤ length values.now }
    ensures { result ≡ any_below sums (λ sum. not (value_at sums values.now sum place == 0)) }
{
    for sum in 0..sums {
        if values[place * sums + sum] != 0 {
            return true;
        }
    }
    false
}

// The first place of a table whose image has all tracked atoms of the goal and a value other than
// 0, and the number of places if there is none.
fn first_dear_goal(strips: &StripsParts, sums: usize, table: &Table) -> usize
    requires strips { IsStrips strips.now }
    requires table { IsTable sums table.now }
    requires tracked { table.now.tracked < 2 ^ strips.now.atoms }
    ensures { IsFirst (length table.now.listed) (is_dear_goal strips.now sums table.now) result }
{
    let goal = both(strips.atoms, &strips.goal, table.tracked());
    let listed = table.listed();
    let values = table.values();
    for place in 0..listed.len() {
        let is_goal = is_within(strips.atoms, &goal, &listed.at(place));
        if is_goal && has_value(sums, values, place) {
            return place;
        }
    }
    listed.len()
}

// The first place of a trap whose image has all tracked atoms of the goal, and the number of places
// if there is none.
fn first_goal(strips: &StripsParts, trap: &Trap) -> usize
    requires strips { IsStrips strips.now }
    requires tracked { trap.now.tracked < 2 ^ strips.now.atoms }
    ensures { IsFirst (length trap.now.listed) (λ place. has_goal strips.now trap.now.tracked
        (slice_index trap.now.listed place)) result }
{
    let goal = both(strips.atoms, &strips.goal, trap.tracked());
    let listed = trap.listed();
    for place in 0..listed.len() {
        if is_within(strips.atoms, &goal, &listed.at(place)) {
            return place;
        }
    }
    listed.len()
}

// ---- lists

// The first line of a table from which a step leads out, or with a dear goal.
fn table_fault(strips: &StripsParts, sums: usize, table: &Table) -> Option<usize>
    requires strips { IsStrips strips.now }
    requires table { IsTable sums table.now }
    requires written { IsWritten strips.now.atoms table.now.tracked table.now.listed }
    ensures { result ≡ table_fault strips.now sums table.now }
{
    let goal = first_dear_goal(strips, sums, table);
    // The first line counts, so steps are tried only below the first dear goal.
    let place = first_open(strips, table.tracked(), table.listed(), goal);
    if place < table.listed().len() {
        Some(place + 1)
    } else {
        None
    }
}

// The first line of a trap from which a step leads out, or with a goal.
fn trap_fault(strips: &StripsParts, trap: &Trap) -> Option<usize>
    requires strips { IsStrips strips.now }
    requires written { IsWritten strips.now.atoms trap.now.tracked trap.now.listed }
    ensures { result ≡ trap_fault strips.now trap.now }
{
    let goal = first_goal(strips, trap);
    let place = first_open(strips, trap.tracked(), trap.listed(), goal);
    if place < trap.listed().len() {
        Some(place + 1)
    } else {
        None
    }
}

/// The first line of tables from which a step leads out, or with a dear goal.
pub fn tables_step_fault(strips: &StripsParts, sums: usize, tables: &[Table]) -> Option<TablesFault>
    requires strips { IsStrips strips.now }
    requires tables { All (IsTable sums) tables.now }
    requires written { AreWritten strips.now.atoms tables.now }
    ensures { result ≡ tables_step_fault strips.now sums tables.now }
{
    for list in 0..tables.len() {
        if let Some(line) = table_fault(strips, sums, &tables[list]) {
            return Some(TablesFault::Line { list, line });
        }
    }
    None
}

/// The first line of traps from which a step leads out, or with a goal. The first trap has the
/// number `before`.
pub fn traps_step_fault(strips: &StripsParts, before: usize, traps: &[Trap]) -> Option<TablesFault>
    requires strips { IsStrips strips.now }
    requires before { before ≤ 4096 }
    requires few { length traps.now ≤ 4096 }
    requires written { AreTrapsWritten strips.now.atoms traps.now }
    ensures { result ≡ traps_step_fault strips.now before traps.now }
{
    for number in 0..traps.len() {
        if let Some(line) = trap_fault(strips, &traps[number]) {
            let list = before + number;
            return Some(TablesFault::Line { list, line });
        }
    }
    None
}
