//! The order of the rows and their states, tested by several workers at once.
ghost use Rattle.std.specs.Thread.{IsSync};
ghost use Rattle.std.specs.Prelude.{◌≡◌, ◌≤◌, ◌+◌, ◌-◌, ◌*◌, ◌<◌, ◌^◌, None, length};
ghost use Rattle.pb_task.specs.Parts.{space_of};
ghost use Rattle.pb_check.specs.declared.row_tests.RowTest.TheVariants.{Order, State};
ghost use Rattle.pb_check.specs.Judging.{unless, rows_order_fault, first_fault_by, state_fault, Rise};
ghost use Rattle.pb_check.specs.Pieces.{IsFirstIn, order_fault_at, state_fault_at, tested_at, first_tested, found_of, IsBetween, rows_a_thread};

use crate::fault::CertificateFault;
use crate::found::{Found, earlier};
use crate::passing::unless;
use crate::rows::StatedRows;
use crate::sharing::{ROWS_A_THREAD, last_share, workers_for};
use pb_task::Task;
use std::thread::{Threads, join};

/// What each row is tested for, before any is judged.
#[derive(Clone, Copy)]
pub enum RowTest {
    /// Its state is above that of the row before it.
    Order,
    /// Its state is one of the task.
    State,
}

// The fault of the row in a place if its state is not above that of the row before it.
fn order_fault_at(rows: &StatedRows, line: u64, place: u64) -> Option<CertificateFault>
    requires inside { place < length rows.now }
    requires lines { line + length rows.now < 2 ^ 64 }
    ensures { result ≡ order_fault_at line rows.now place }
{
    if place == 0 {
        return None;
    }
    unless(
        rows.rises_at(place as usize),
        CertificateFault::RowOrder { line: line + place },
    )
}

// The fault of the row in a place if its state is none of the task.
fn state_fault_at(task: &Task, rows: &StatedRows, line: u64, place: u64) -> Option<CertificateFault>
    requires inside { place < length rows.now }
    requires lines { line + length rows.now < 2 ^ 64 }
    ensures { result ≡ state_fault_at task.now line rows.now place }
{
    let row = rows.at(place as usize);
    unless(
        task.is_state(&row.state),
        CertificateFault::BadState { line: line + place },
    )
}

// The fault of the row in a place by this test.
fn tested_at(
    test: RowTest,
    task: &Task,
    rows: &StatedRows,
    line: u64,
    place: u64,
) -> Option<CertificateFault>
    requires inside { place < length rows.now }
    requires lines { line + length rows.now < 2 ^ 64 }
    ensures { result ≡ tested_at test task.now line rows.now place }
{
    match test {
        RowTest::Order => order_fault_at(rows, line, place),
        RowTest::State => state_fault_at(task, rows, line, place),
    }
}

// The first fault by this test of the rows from one place on and before another.
fn test_share(
    test: RowTest,
    task: &Task,
    rows: &StatedRows,
    line: u64,
    from: u64,
    to: u64,
) -> Option<Found>
    requires range { from ≤ to }
    requires inside { to ≤ length rows.now }
    requires lines { line + length rows.now < 2 ^ 64 }
    ensures { IsFirstIn (tested_at test task.now line rows.now) (length rows.now)
        (IsBetween from to) (found_of result) }
{
    for place in from..to {
        if let Some(fault) = tested_at(test, task, rows, line, place) {
            return Some(Found { place, fault });
        }
    }
    None
}

// The same of the rows before a place, by so many workers, each in a thread of its own. Each has one
// share of the rows, and the earliest place decides. A share has rows enough for a thread.
fn test_shares<R: Threads + Sync>(
    rt: &R,
    test: RowTest,
    task: &Task,
    rows: &StatedRows,
    line: u64,
    to: u64,
    shares: u64,
) -> Option<Found>
    requires inside { to ≤ length rows.now }
    requires lines { line + length rows.now < 2 ^ 64 }
    requires worth { 2 ≤ shares → shares * rows_a_thread ≤ to }
    ensures { IsFirstIn (tested_at test task.now line rows.now) (length rows.now)
        (IsBetween 0 to) (found_of result) }
{
    if shares < 2 {
        return test_share(test, task, rows, line, 0, to);
    }
    let middle = last_share(0, to, shares);
    let (one, other) = join(
        rt,
        || -> Option<Found>
            requires { IsSync R.row × (middle ≤ length rows.now)
                × (line + length rows.now < 2 ^ 64) × (2 ≤ shares)
                × ((shares - 1) * rows_a_thread ≤ middle) }
            ensures { IsFirstIn (tested_at test task.entry.now line rows.entry.now)
                (length rows.entry.now) (IsBetween 0 middle) (found_of result) }
        { test_shares(rt, test, task, rows, line, middle, shares - 1) },
        || -> Option<Found>
            requires { (middle ≤ to) × (to ≤ length rows.now)
                × (line + length rows.now < 2 ^ 64) × (rows_a_thread ≤ to - middle) }
            ensures { IsFirstIn (tested_at test task.entry.now line rows.entry.now)
                (length rows.entry.now) (IsBetween middle to) (found_of result) }
        { test_share(test, task, rows, line, middle, to) },
    );
    earlier(one, other)
}

// The first fault by this test of all rows, by so many workers, but by fewer if there are few rows.
fn first_by_shares<R: Threads + Sync>(
    rt: &R,
    test: RowTest,
    task: &Task,
    line: u64,
    rows: &StatedRows,
    workers: u64,
) -> Option<CertificateFault>
    requires { line + length rows.now < 2 ^ 64 }
    ensures { result ≡ first_tested test task.now line rows.now }
{
    let count = rows.len() as u64;
    let shares = workers_for(count, ROWS_A_THREAD, workers);
    match test_shares(rt, test, task, rows, line, count, shares) {
        Some(found) => Some(found.fault),
        None => None,
    }
}

/// The first row whose state is not above that of the row before it. The rows are tested by so many
/// workers.
pub fn order_fault_by_shares<R: Threads + Sync>(
    rt: &R,
    task: &Task,
    line: u64,
    rows: &StatedRows,
    workers: u64,
) -> Option<CertificateFault>
    requires { line + length rows.now < 2 ^ 64 }
    ensures fault { result ≡ rows_order_fault line rows.now }
    ensures rises { result ≡ None → Rise rows.now }
{
    first_by_shares(rt, RowTest::Order, task, line, rows, workers)
}

/// The first row whose state is no state of the task. The rows are tested by so many workers.
pub fn states_fault_by_shares<R: Threads + Sync>(
    rt: &R,
    task: &Task,
    line: u64,
    rows: &StatedRows,
    workers: u64,
) -> Option<CertificateFault>
    requires { line + length rows.now < 2 ^ 64 }
    ensures { result ≡ first_fault_by (state_fault (space_of task.now)) line rows.now }
{
    first_by_shares(rt, RowTest::State, task, line, rows, workers)
}
