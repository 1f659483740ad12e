//! Rounds, until the search ends.
ghost use Rattle.std.specs.Prelude.{◌≡◌, ◌≤◌, ◌<◌, ◌^◌, ◌++◌, [], ℕ, true, false, All, IfOk, length, map, option_copied, vec_len, vec_capacity};
ghost use Rattle.std.specs.Option.{option_map};
ghost use Rattle.std.specs.Arc.{arc_value};
ghost use Rattle.pb_estimate.specs.Tables.{HasTable};
ghost use Rattle.pb_owner.specs.declared.share.Share.{Share};
ghost use Rattle.pb_owner.specs.Plans.{space_in, guide_in, weight_in};
ghost use Rattle.pb_owners.specs.Plans.{IsPlan, HasTools};
ghost use Rattle.pb_owners.specs.Seats.{Each};
ghost use Rattle.pb_owners.specs.Between.{opening_mailed, IsBetween, IsSearched, AnyOpened};
ghost use Rattle.pb_owners.specs.Shares.{share_of, share_at, seat_at, IsEnd};
ghost use Rattle.pb_owners.specs.Rounds.{HasSearched};
ghost use Rattle.pb_owners.specs.Owners.{IsOpening, IsSameSearch, OwnersEnd};

use crate::owners::Owners;
use crate::round::run_round;
use crate::seat::Seat;
use pb_abstract::AbsGraph;
use pb_machine::{End, Settings};
use pb_mail::LetterRule;
use pb_outside::Gate;
use pb_owner::{Plan, Share};
use pb_pattern::Table;
use pb_task::Task;
use std::alloc::{AllocError, Global};
use std::marker::Brand;
use std::mem;
use std::sync::{Arc, Wait};
use std::thread::Threads;

// Whether a row of some owner is Opened.
fn any_opened(seats: &[Seat]) -> bool
    ensures opened { result ≡ true → AnyOpened (seat_at seats.now) }
    ensures none { result ≡ false → AnyOpened (seat_at seats.now) → ⊥ }
{
    for at in 0..seats.len() {
        if seats[at].has_opened() {
            return true;
        }
    }
    false
}

// Rounds until no row is Opened, or the budget is used up. Answers how the search ended, and how
// many rows were expanded.
fn run_rounds<K: LetterRule + Send + Sync, R: Threads + Wait + Sync, G: Gate>(
    rt: &R,
    alloc: Global,
    plan: &Plan,
    gate: &G,
    seats: &mut [Seat],
    lot: u64,
    budget: u64,
) -> Result<(End, u64), AllocError>
    requires plan { IsPlan plan.now }
    requires rule { (state : ℕ) → K.fits state ≡ (space_in plan.now).is_state state }
    requires opening { IsBetween plan.now.owners (weight_in plan.now) (seat_at seats.old)
        (opening_mailed (space_in plan.now) (guide_in plan.now) (weight_in plan.now)) }
    requires many { length seats.old ≡ plan.now.owners }
    requires tools { Each (λ i. HasTools plan.now) seats.old }
    requires budget { (0 < budget) × (budget ≤ 2 ^ 40) }
    ensures searched { IfOk result (λ r. HasSearched plan.now lot budget r.1 seats.new) }
    ensures end { IfOk result (λ r. IsEnd budget r.1 (seat_at seats.new) r.0) }
{
    let mut spent = 0u64;
    for _ in rt.forever() {
        spent += run_round::<K, R, G>(rt, alloc, plan, gate, seats, lot, budget - spent)?;
        // Tested before the budget: a search that ends with it may still be quiet.
        if !any_opened(seats) {
            return Ok((End::Quiet, spent));
        }
        if spent == budget {
            return Ok((End::Budget, spent));
        }
    }
    unreachable!()
}

// A seat for each share.
fn seats_for(
    alloc: Global,
    plan: &Plan,
    mut shares: Vec<Share>,
    table: Option<&Arc<Table>>,
) -> Result<Vec<Seat>, AllocError>
    requires table { HasTable plan.now.task.now plan.now.choice.now
        (option_map arc_value (option_copied table)) }
    requires of_weight { All (λ share. share.bundle.weight ≡ weight_in plan.now) shares.items }
    ensures shares { IfOk result (λ seats. map share_of seats.items ≡ shares.items) }
    ensures tools { IfOk result (λ seats. Each (λ i. HasTools plan.now) seats.items) }
{
    let mut seats = Vec::with_capacity(alloc, shares.len())?;
    while let Some(share) = shares.pop() {
        match Seat::new(alloc, plan, share, table) {
            Ok(seat) => seats.push_reserved(seat),
            Err(error) => return Err(error),
        }
    }
    // The shares were taken from the back.
    seats.reverse();
    Ok(seats)
}

// The share of each seat.
fn shares_of(mut seats: Vec<Seat>, mut shares: Vec<Share>) -> Vec<Share>
    requires empty { shares.items ≡ [] }
    requires room { vec_len seats ≤ vec_capacity shares }
    ensures { result.items ≡ map share_of seats.items }
{
    while let Some(seat) = seats.pop() {
        shares.push_reserved(seat.share);
    }
    shares.reverse();
    shares
}

// A whole search, from the owners' first shares to their last ones.
fn search<K: LetterRule + Send + Sync, R: Threads + Wait + Sync, G: Gate>(
    rt: &R,
    alloc: Global,
    plan: &Plan,
    gate: &G,
    settings: &Settings,
    shares: Vec<Share>,
    table: Option<&Arc<Table>>,
) -> Result<(End, u64, Vec<Share>), AllocError>
    requires table { HasTable plan.now.task.now plan.now.choice.now
        (option_map arc_value (option_copied table)) }
    requires plan { IsPlan plan.now }
    requires rule { (state : ℕ) → K.fits state ≡ (space_in plan.now).is_state state }
    requires opening { IsBetween plan.now.owners (weight_in plan.now) (share_at shares.items)
        (opening_mailed (space_in plan.now) (guide_in plan.now) (weight_in plan.now)) }
    requires many { vec_len shares ≡ plan.now.owners }
    requires of_weight { All (λ share. share.bundle.weight ≡ weight_in plan.now) shares.items }
    requires budget { (0 < settings.now.budget) × (settings.now.budget ≤ 2 ^ 40) }
    ensures searched { IfOk result (λ r. IsSearched (space_in plan.now) (guide_in plan.now)
        (weight_in plan.now) plan.now.owners settings.now.lot settings.now.budget r.1
        (share_at r.2.items)) }
    ensures within { IfOk result (λ r. r.1 ≤ settings.now.budget) }
    ensures many { IfOk result (λ r. vec_len r.2 ≡ plan.now.owners) }
    ensures end { IfOk result (λ r. IsEnd settings.now.budget r.1 (share_at r.2.items) r.0) }
{
    // Room for the last shares is taken first, so that no rows are lost at the end for want of it.
    let kept = Vec::with_capacity(alloc, shares.len())?;
    let mut seats = seats_for(alloc, plan, shares, table)?;
    let (end, spent) = run_rounds::<K, R, G>(
        rt,
        alloc,
        plan,
        gate,
        seats.as_mut_slice(),
        settings.lot,
        settings.budget,
    )?;
    Ok((end, spent, shares_of(seats, kept)))
}

/// Searches in rounds, until no row is Opened or the budget is used up. The gate is called for
/// each owner's part in each round, as if the owner had leased its own block: before it works and
/// after it took its letters in. An error is out of memory: then the owners have nothing left.
pub fn run_owners<R: Threads + Wait + Sync, G: Gate>(
    rt: &R,
    alloc: Global,
    task: &Task,
    abstraction: &AbsGraph,
    owners: &mut Owners,
    gate: &G,
    table: Option<&Arc<Table>>,
) -> Result<End, AllocError>
    requires task { owners.old.task ≡ task.now }
    requires abstraction { owners.old.abstraction ≡ abstraction.now }
    requires opening { IsOpening owners.old }
    requires table { HasTable task.now owners.old.choice
        (option_map arc_value (option_copied table)) }
    ensures same { IsSameSearch owners.old owners.new }
    ensures end { IfOk result (λ end. OwnersEnd end owners.new) }
{
    // The call shows that the task is lawful.
    let _lawful = task.parts();
    let settings = owners.settings;
    let choice = owners.choice.clone()?;
    let plan = Plan {
        task,
        abstraction: abstraction,
        choice: &choice,
        weight: (settings.num, settings.den),
        owners: settings.workers,
    };
    // The seats own the shares during the search, and give them back after it.
    let shares = mem::replace(&mut owners.shares, Vec::new(alloc));
    let (end, spent, shares) = search::<Brand, R, G>(
        rt, alloc, &plan, gate, &settings, shares, table,
    )?;
    owners.spent = spent;
    owners.shares = shares;
    Ok(end)
}
