//! What is found for small tasks.
ghost use Rattle.std.specs.Prelude.{◌<◌, ◌≤◌, IfOk};
ghost use Rattle.pb_task.specs.Strips.{IsGroundAction, IsStrips};

use crate::find_tables;
use pb_model::Estimate;
use pb_packed::Packed;
use pb_tables::{ImageList, Table, Tables};
use pb_task::{ActionName, Actions, GroundAction, Grounding, StripsParts};
use std::alloc::{AllocError, Global};
use std::process::Abort;
use std::test::Fail;

// An action over three atoms that deletes what it needs.
fn action(alloc: Global, needs: u64, adds: u64, cost: u64) -> Result<GroundAction, AllocError>
    requires sets { (needs < 8) × (adds < 8) }
    requires cost { (1 ≤ cost) × (cost ≤ 9) }
    ensures { IfOk result (IsGroundAction 3) }
{
    Ok(GroundAction {
        name: ActionName::of(String::new(alloc)),
        needs: Packed::of_word(needs),
        adds: Packed::of_word(adds),
        deletes: Packed::of_word(needs),
        cost,
    })
}

// Atom 2 can be spent on atom 0 at cost 3 or on atom 1 at cost 5. A third action adds it again at
// cost 2, or adds nothing.
fn spending(alloc: Global, start: u64, goal: u64, again: u64) -> Result<StripsParts, AllocError>
    requires states { (start < 8) × (goal < 8) }
    requires again { again < 8 }
    ensures { IfOk result IsStrips }
{
    let first = action(alloc, 4, 1, 3)?;
    let second = action(alloc, 4, 2, 5)?;
    let third = action(alloc, 0, again, 2)?;
    let actions = vec![in alloc; first, second, third]?;
    Ok(StripsParts {
        atoms: 3,
        actions: Actions::of(alloc, actions)?,
        start: Packed::of_word(start),
        goal: Packed::of_word(goal),
        never: false,
        grounding: Grounding::All,
    })
}

// What the tables that are found for a task estimate for its start: a cost, 0 if it is Dead, and 1
// if none are found.
fn start(alloc: Global, strips: &StripsParts, effort: u32) -> Result<u64, AllocError>
    requires { IsStrips strips.now }
{
    let Some(tables) = find_tables(alloc, strips, effort)? else {
        return Ok(1);
    };
    match tables.estimate(strips, &strips.start) {
        Estimate::Cost(cost) => Ok(cost),
        Estimate::Dead => Ok(0),
    }
}

// The same for a task in which atom 2 is spent.
fn start_of(alloc: Global, goal: u64, again: u64) -> Result<u64, AllocError>
    requires { (goal < 8) × (again < 8) }
{
    let strips = spending(alloc, 4, goal, again)?;
    start(alloc, &strips, 10)
}

// If one atom is wanted, the estimate of the start is the cost of the one action. If both are, it
// is the cost of the plan, and the start of the task without a plan is Dead.
#[test]
fn starts_have_the_costs_of_plans(rt: HostRuntime) -> Result<(), AllocError> {
    let one = start_of(rt.alloc(), 1, 0)?;
    assert_eq!(rt; one, 3);
    let both = start_of(rt.alloc(), 3, 4)?;
    assert_eq!(rt; both, 10);
    let never = start_of(rt.alloc(), 3, 0)?;
    assert_eq!(rt; never, 0);
    Ok(())
}

fn has_same_images(one: &ImageList, other: &ImageList) -> bool {
    if one.len() != other.len() {
        return false;
    }
    for place in 0..one.len() {
        if place < other.len() && one.at(place) != other.at(place) {
            return false;
        }
    }
    true
}

fn is_same(one: &Table, other: &Table) -> bool {
    one.tracked() == other.tracked()
        && has_same_images(one.listed(), other.listed())
        && one.values() == other.values()
}

fn are_same(one: &Tables, other: &Tables) -> bool {
    let (first, second) = (one.tables(), other.tables());
    if one.sums() != other.sums() || first.len() != second.len() {
        return false;
    }
    for number in 0..first.len() {
        if number < second.len() && !is_same(&first[number], &second[number]) {
            return false;
        }
    }
    true
}

// Whether two searches for tables of a task find the same.
fn finds_the_same(alloc: Global, strips: &StripsParts) -> Result<bool, AllocError>
    requires { IsStrips strips.now }
{
    let Some(once) = find_tables(alloc, strips, 10)? else {
        return Ok(false);
    };
    match find_tables(alloc, strips, 10)? {
        Some(again) => Ok(are_same(&once, &again)),
        None => Ok(false),
    }
}

#[test]
fn the_same_tables_are_found_again(rt: HostRuntime) -> Result<(), AllocError> {
    let strips = spending(rt.alloc(), 4, 3, 4)?;
    let is_same = finds_the_same(rt.alloc(), &strips)?;
    assert!(rt; is_same);
    Ok(())
}

// How many sums, tables and traps are found.
fn has_counts(found: &Tables, sums: usize, tables: usize, traps: usize) -> bool {
    found.sums() == sums && found.tables().len() == tables && found.traps().len() == traps
}

// Whether one sum and so many tables and traps are found for a task in which atom 2 is spent on
// atom 0 or on atom 1, and is never added again.
fn finds(
    alloc: Global,
    start: u64,
    goal: u64,
    tables: usize,
    traps: usize,
) -> Result<bool, AllocError>
    requires { (start < 8) × (goal < 8) }
{
    let strips = spending(alloc, start, goal, 0)?;
    match find_tables(alloc, &strips, 10)? {
        Some(found) => Ok(has_counts(&found, 1, tables, traps)),
        None => Ok(false),
    }
}

// There are three patterns: each group by itself, and both. The third is a pair and is grown too.
#[test]
fn a_pattern_is_listed_once(rt: HostRuntime) -> Result<(), AllocError> {
    let is_once = finds(rt.alloc(), 4, 3, 2, 3)?;
    assert!(rt; is_once);
    Ok(())
}

// Atom 1 holds and atom 0 is wanted, so no action of a pattern is applicable, and no image has a
// value.
#[test]
fn traps_are_found_without_tables(rt: HostRuntime) -> Result<(), AllocError> {
    let is_alone = finds(rt.alloc(), 2, 1, 0, 2)?;
    assert!(rt; is_alone);
    Ok(())
}

// An action over 13 atoms that deletes nothing and costs 1.
fn adding(alloc: Global, needs: u64, adds: u64) -> Result<GroundAction, AllocError>
    requires { (needs < 8192) × (adds < 8192) }
    ensures { IfOk result (IsGroundAction 13) }
{
    Ok(GroundAction {
        name: ActionName::of(String::new(alloc)),
        needs: Packed::of_word(needs),
        adds: Packed::of_word(adds),
        deletes: Packed::zero(),
        cost: 1,
    })
}

// Four actions in a row lead from no atom to atom 0, then to atoms 1 to 5, to atoms 6 to 11, and to
// atom 12, which is wanted.
fn chain(alloc: Global) -> Result<StripsParts, AllocError>
    ensures { IfOk result IsStrips }
{
    let first = adding(alloc, 0, 1)?;
    let second = adding(alloc, 1, 62)?;
    let third = adding(alloc, 62, 4032)?;
    let fourth = adding(alloc, 4032, 4096)?;
    let actions = vec![in alloc; first, second, third, fourth]?;
    Ok(StripsParts {
        atoms: 13,
        actions: Actions::of(alloc, actions)?,
        start: Packed::zero(),
        goal: Packed::of_word(4096),
        never: false,
        grounding: Grounding::All,
    })
}

// With the least effort a pattern has up to 12 of these atoms, and so not atom 0. With the next one
// it has all of them.
#[test]
fn more_effort_finds_other_tables(rt: HostRuntime) -> Result<(), AllocError> {
    let strips = chain(rt.alloc())?;
    let least = start(rt.alloc(), &strips, 1)?;
    assert_eq!(rt; least, 3);
    let more = start(rt.alloc(), &strips, 2)?;
    assert_eq!(rt; more, 4);
    Ok(())
}
