//! Worked rows: leases of blocks by two workers, on maps whose cells are blocks.
ghost use Rattle.std.specs.Prelude.{◌≤◌};
ghost use Rattle.pb_machine.specs.Settings.{AreInRange};

use pb_abstract::AbsGraph;
use pb_lease::{MachineTables, ROOM};
use pb_machine::{End, STANDARD, Settings};
use pb_test_examples::{corridor, open_square};
use std::alloc::{AllocError, Global};
use std::sync::Arc;

// The settings of a search by so many workers, with this budget and this lot, or with the nearest
// that are in range.
pub(crate) fn settings_of(workers: u32, budget: u64, lot: u64) -> Settings
    requires { (1 ≤ workers) × (workers ≤ 64) }
    ensures range { AreInRange result }
{
    Settings {
        workers,
        budget: budget.max(1).min(1 << 40),
        lot: lot.max(1).min(1 << 20),
        ..STANDARD
    }
}

// A call, by the worker if one makes it, or a look at the tables.
enum Call {
    Lease(u32, u32),
    Renew(u32, u64),
    Renewals(u32, u32),
    Release(u32, u64, bool),
    Hot(u32, u32, bool),
    Cold(u32, u32),
    Off(u32, bool),
    Quiet,
    Budget,
    FreeBlocks,
    LeasedNear(u32),
    HotNear(u32),
    Spent,
    Events,
}

// Makes a call if it may be made: its quota or number, or 1 for true and for what answers nothing,
// and 0 for false. None if it may not be made.
fn play(tables: &mut MachineTables, call: &Call) -> Option<u64> {
    match *call {
        Call::Lease(worker, block) => lease(tables, worker, block),
        Call::Renew(worker, used) => renew(tables, worker, used),
        Call::Renewals(worker, times) => Some(renewals(tables, worker, times)),
        Call::Release(worker, used, memory) => release(tables, worker, used, memory),
        Call::Hot(worker, block, outranked) => mark(tables, worker, block, Some(outranked)),
        Call::Cold(worker, block) => mark(tables, worker, block, None),
        Call::Off(worker, memory) => sign_off(tables, worker, memory),
        Call::Quiet => end(tables, false),
        Call::Budget => end(tables, true),
        Call::FreeBlocks => Some(free_blocks(tables)),
        Call::LeasedNear(block) => near(tables, block, false),
        Call::HotNear(block) => near(tables, block, true),
        Call::Spent => Some(tables.spent()),
        Call::Events => Some(tables.journal().len() as u64),
    }
}

// The quota of the lease. It is greater than all that are wanted if memory runs out.
fn lease(tables: &mut MachineTables, worker: u32, block: u32) -> Option<u64> {
    if worker >= tables.settings().workers || block >= tables.abstraction().count() {
        return None;
    }
    let seat = tables.seat(worker);
    if seat.grant.is_some() || seat.signed_off || !tables.can_be_leased(block) {
        return None;
    }
    Some(tables.lease(worker, block).unwrap_or(u64::MAX))
}

fn renew(tables: &mut MachineTables, worker: u32, used: u64) -> Option<u64> {
    if worker >= tables.settings().workers {
        return None;
    }
    let seat = tables.seat(worker);
    let own = seat.grant?;
    if used > own.quota || own.block >= tables.abstraction().count() || seat.room == 0 {
        return None;
    }
    if !tables.can_be_leased_after(worker, used, own.block) {
        return None;
    }
    Some(tables.renew(worker, used))
}

// How many renewals are made of so many, up to the first that isn't. Each settles one expansion,
// and its quota is 1.
fn renewals(tables: &mut MachineTables, worker: u32, times: u32) -> u64 {
    for made in 0..times {
        if renew(tables, worker, 1) != Some(1) {
            return u64::from(made);
        }
    }
    u64::from(times)
}

fn release(tables: &mut MachineTables, worker: u32, used: u64, memory: bool) -> Option<u64> {
    if worker >= tables.settings().workers {
        return None;
    }
    let own = tables.seat(worker).grant?;
    if used > own.quota {
        return None;
    }
    tables.release(worker, used, memory);
    Some(1)
}

// A mark, with whether the block is outranked, or else one that is taken away.
fn mark(
    tables: &mut MachineTables,
    worker: u32,
    block: u32,
    outranked: Option<bool>,
) -> Option<u64> {
    if worker >= tables.settings().workers || block >= tables.abstraction().count() {
        return None;
    }
    if tables.seat(worker).grant.is_none() {
        return None;
    }
    let answer = match outranked {
        Some(outranked) => tables.mark_hot(worker, block, outranked),
        None => tables.cool(worker, block),
    };
    Some(u64::from(answer))
}

fn sign_off(tables: &mut MachineTables, worker: u32, memory: bool) -> Option<u64> {
    if worker >= tables.settings().workers || (!memory && tables.end().is_none()) {
        return None;
    }
    let seat = tables.seat(worker);
    if seat.grant.is_some() || seat.signed_off {
        return None;
    }
    tables.sign_off(worker, memory);
    Some(1)
}

fn end(tables: &mut MachineTables, budget: bool) -> Option<u64> {
    if tables.end().is_some() || tables.is_any_out() {
        return None;
    }
    if !budget {
        tables.end_quiet();
        return Some(1);
    }
    if tables.left() > 0 {
        return None;
    }
    tables.end_budget();
    Some(1)
}

// The blocks that can be leased, as a bit each.
fn free_blocks(tables: &MachineTables) -> u64 {
    let mut bits = 0;
    for block in 0..tables.abstraction().count().min(64) {
        if tables.can_be_leased(block) {
            bits |= 1 << block;
        }
    }
    bits
}

// How many leased or hot blocks interfere with the block.
fn near(tables: &MachineTables, block: u32, hot: bool) -> Option<u64> {
    if block >= tables.abstraction().count() {
        return None;
    }
    if hot {
        Some(u64::from(tables.hot_near(block)))
    } else {
        Some(u64::from(tables.leased_near(block)))
    }
}

// How many of the first calls answer as they are to, up to the first that doesn't.
fn play_all(tables: &mut MachineTables, calls: &[(Call, Option<u64>)]) -> usize {
    for (played, (call, wanted)) in calls.iter().enumerate() {
        if play(tables, call) != *wanted {
            return played;
        }
    }
    calls.len()
}

// The blocks of the corridor, or else of the open square.
fn blocks(alloc: Global, of_corridor: bool) -> Result<AbsGraph, AllocError> {
    let task = if of_corridor {
        corridor(alloc)?
    } else {
        open_square(alloc)?
    };
    AbsGraph::of(alloc, &task, 256)
}

// What a test sees of a search by two workers whose first calls are these: how many of them answer
// as they are to, and the end.
fn played(
    alloc: Global,
    in_corridor: bool,
    budget: u64,
    lot: u64,
    calls: &[(Call, Option<u64>)],
) -> Result<(usize, Option<End>), AllocError> {
    let abstraction = Arc::new(alloc, blocks(alloc, in_corridor)?)?;
    let mut tables = MachineTables::new(alloc, abstraction, settings_of(2, budget, lot))?;
    let agreed = play_all(&mut tables, calls);
    Ok((agreed, tables.end()))
}

// On the open square: a hot block waits for its neighbours.
const MARKS: [(Call, Option<u64>); 14] = [
    (Call::Lease(0, 0), Some(256)),
    (Call::Lease(1, 1), None),
    (Call::Hot(0, 1, false), Some(1)),
    (Call::Hot(0, 1, false), Some(0)),
    (Call::Hot(0, 8, false), Some(0)),
    (Call::Hot(0, 3, true), Some(0)),
    (Call::Cold(0, 1), Some(1)),
    (Call::Cold(0, 1), Some(0)),
    (Call::Hot(0, 1, false), Some(1)),
    (Call::Hot(0, 3, false), Some(1)),
    (Call::Renew(0, 4), None),
    (Call::FreeBlocks, Some(0b1_0000_0000)),
    (Call::Release(0, 4, false), Some(1)),
    (Call::FreeBlocks, Some(0b1_1111_1111)),
];

// In the corridor: a lease takes its whole scope.
const SCOPES: [(Call, Option<u64>); 17] = [
    (Call::Lease(0, 22), Some(256)),
    (Call::Lease(1, 20), None),
    (Call::Lease(1, 22), None),
    (Call::Lease(1, 24), None),
    (Call::Release(0, 1, false), Some(1)),
    (Call::Lease(0, 20), Some(256)),
    (Call::Lease(1, 24), Some(256)),
    (Call::Renew(1, 256), Some(256)),
    (Call::Hot(1, 22, false), Some(1)),
    (Call::Release(0, 0, false), Some(1)),
    (Call::Lease(0, 20), None),
    (Call::Quiet, None),
    (Call::Release(1, 2, true), Some(1)),
    (Call::Off(0, false), Some(1)),
    (Call::Off(1, true), Some(1)),
    (Call::Spent, Some(259)),
    (Call::Events, Some(11)),
];

// In the corridor: leased and hot blocks are counted near each block. Of the last row's blocks, 18
// to 26, those interfere that lie at most two apart.
const COUNTERS: [(Call, Option<u64>); 13] = [
    (Call::Lease(0, 20), Some(256)),
    (Call::Lease(1, 24), Some(256)),
    (Call::Hot(1, 22, false), Some(1)),
    (Call::LeasedNear(18), Some(1)),
    (Call::HotNear(18), Some(0)),
    (Call::LeasedNear(20), Some(0)),
    (Call::HotNear(20), Some(1)),
    (Call::LeasedNear(21), Some(1)),
    (Call::HotNear(21), Some(1)),
    (Call::LeasedNear(22), Some(2)),
    (Call::HotNear(22), Some(0)),
    (Call::LeasedNear(26), Some(1)),
    (Call::HotNear(26), Some(0)),
];

// In the corridor: the last quota is what is left of a budget of 5.
const LAST_QUOTA: [(Call, Option<u64>); 11] = [
    (Call::Lease(0, 22), Some(2)),
    (Call::Renew(0, 2), Some(2)),
    (Call::Renew(0, 2), Some(1)),
    (Call::Renew(0, 1), None),
    (Call::Off(1, false), None),
    (Call::Release(0, 1, false), Some(1)),
    (Call::Lease(0, 22), None),
    (Call::Budget, Some(1)),
    (Call::Off(0, true), Some(1)),
    (Call::Off(1, false), Some(1)),
    (Call::Events, Some(7)),
];

// In the corridor: the room of a lease is used up.
const USED_ROOM: [(Call, Option<u64>); 7] = [
    (Call::Lease(0, 22), Some(1)),
    (Call::Renewals(0, ROOM), Some(63)),
    (Call::Renew(0, 1), None),
    (Call::Hot(0, 20, false), Some(0)),
    (Call::Release(0, 0, false), Some(1)),
    (Call::Quiet, Some(1)),
    (Call::Events, Some(66)),
];

#[test]
fn leases_marks_and_ends_are_answered(rt: HostRuntime) {
    for (in_corridor, budget, lot, calls, end) in [
        (false, 1000, 256, MARKS.as_slice(), None),
        (true, 1000, 256, SCOPES.as_slice(), Some(End::Memory)),
        (true, 1000, 256, COUNTERS.as_slice(), None),
        (true, 5, 2, LAST_QUOTA.as_slice(), Some(End::Budget)),
        (true, 1000, 1, USED_ROOM.as_slice(), Some(End::Quiet)),
    ] {
        let seen = played(rt.alloc(), in_corridor, budget, lot, calls);
        assert_eq!(rt; seen, Ok((calls.len(), end)));
    }
}
