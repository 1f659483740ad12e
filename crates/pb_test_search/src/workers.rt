//! Workers of one yard: two passes on one thread, whose journal is known, and two threads that sign
//! off.
ghost use Rattle.std.specs.Prelude.{◌≡◌, ◌+◌, [], None, IsFalse, IfOk};
ghost use Rattle.pb_machine.specs.History.{AreFinished};
ghost use Rattle.pb_lease.specs.GraphValue.{counts_in};
ghost use Rattle.pb_lease.specs.Begins.{IsBegin};
ghost use Rattle.pb_lease.specs.Choices.{is_out_in};
ghost use Rattle.pb_yard.specs.Passes.{view_of, parts_of, all_parts, IsOf, IsFirstPass};
ghost use Rattle.pb_yard.specs.Calls.{IsReady, IsAlone, HasSignedOff, KeepsWorkers};

use crate::graphs::start_estimate;
use pb_abstract::AbsGraph;
use pb_estimate::Choice;
use pb_lease::{LeaseGraph, LeaseReply};
use pb_machine::{End, Event, STANDARD, Settings};
use pb_task::{Board, Task, TilesParts};
use pb_yard::{Pass, Yard};
use std::alloc::{AllocError, Global};
use std::process::Abort;
use std::sync::{Arc, Wait};
use std::test::Fail;
use std::thread::{Threads, join, yield_now};

// The graph of a search of a board of 2 by 2 cells by two workers.
fn graph(alloc: Global) -> Result<LeaseGraph, AllocError>
    ensures { IfOk result (λ g. IsBegin g × (g.table.settings.workers ≡ 2)) }
{
    let task = Task::of_tiles(TilesParts {
        rows: 2,
        cols: 2,
        start: Board::of(vec![in alloc; 1, 3, 2, 0]?),
        goal: Board::of(vec![in alloc; 0, 1, 2, 3]?),
    });
    let abstraction = AbsGraph::of(alloc, &task, 256)?;
    let estimate = start_estimate(alloc, &task)?;
    let settings = Settings {
        workers: 2,
        budget: 1000,
        ..STANDARD
    };
    let task = Arc::new(alloc, task)?;
    let abstraction = Arc::new(alloc, abstraction)?;
    let choice = Choice::plain();
    let graph = LeaseGraph::new(alloc, task, abstraction, choice, estimate, settings)?;
    Ok(graph)
}

// A yard over it, and its first pass.
fn open<R: Abort>(rt: &R, alloc: Global) -> (Yard, Pass)
    ensures pass { IsFirstPass result.0 result.1 }
    ensures ready { IsReady (view_of result.1) }
    ensures view { IsAlone (view_of result.1) 2 }
{
    let Ok(opening) = graph(alloc) else {
        panic!(rt; "no memory")
    };
    match Yard::new(alloc, opening) {
        Ok(made) => made,
        Err((_, graph)) => {
            drop(graph);
            panic!(rt; "no memory")
        }
    }
}

// One worker: it gives each lease back as it was, with a report that memory ran out, until it is
// told of an end. Then it signs off.
fn work<W: Wait>(rt: &W, yard: &Yard, mut pass: Pass) -> Pass
    requires own { IsOf yard.now pass }
    requires ready { IsReady (view_of pass) }
    ensures own { IsOf yard.now result }
    ensures parts { parts_of result ≡ parts_of pass }
    ensures workers { KeepsWorkers (view_of pass) (view_of result) }
    ensures free { (view_of result).lent ≡ None }
    ensures off { HasSignedOff (view_of result) }
{
    for _ in rt.forever() {
        match yard.lease(rt, &mut pass) {
            LeaseReply::Leased(lease) => yard.release(rt, &mut pass, lease, true),
            LeaseReply::NotYet => yield_now(),
            LeaseReply::Over(_) => {
                yard.sign_off(rt, &mut pass, false);
                return pass;
            }
            LeaseReply::Memory => {
                yard.sign_off(rt, &mut pass, true);
                return pass;
            }
        }
    }
    unreachable!()
}

// Whether the pass is told to wait when it asks for a lease. If it gets one, the lease comes back
// at once, with a report that memory ran out.
pub(crate) fn is_told_to_wait<W: Wait>(rt: &W, yard: &Yard, pass: &mut Pass) -> bool
    requires own { IsOf yard.now pass.old }
    requires ready { IsReady (view_of pass.old) }
    ensures own { IsOf yard.now pass.new }
    ensures parts { parts_of pass.new ≡ parts_of pass.old }
    ensures workers { KeepsWorkers (view_of pass.old) (view_of pass.new) }
    ensures ready { IsReady (view_of pass.new) }
{
    match yard.lease(rt, pass) {
        LeaseReply::NotYet => true,
        LeaseReply::Leased(lease) => {
            yard.release(rt, pass, lease, true);
            false
        }
        LeaseReply::Over(_) => false,
        LeaseReply::Memory => false,
    }
}

// Whether the second pass is told to wait while the first one has a lease, and how many events the
// second one had seen then. The lease comes back with a report that memory ran out.
fn wait_beside<W: Wait>(
    rt: &W,
    yard: &Yard,
    first: &mut Pass,
    second: &mut Pass,
) -> Option<(bool, u64)>
    requires own { IsOf yard.now first.old × IsOf yard.now second.old }
    requires ready { IsReady (view_of first.old) × IsReady (view_of second.old) }
    ensures own { IsOf yard.now first.new × IsOf yard.now second.new }
    ensures first { parts_of first.new ≡ parts_of first.old }
    ensures second { parts_of second.new ≡ parts_of second.old }
    ensures workers { KeepsWorkers (view_of first.old) (view_of first.new) }
    ensures others { KeepsWorkers (view_of second.old) (view_of second.new) }
    ensures ready { IsReady (view_of first.new) × IsReady (view_of second.new) }
{
    match yard.lease(rt, first) {
        LeaseReply::Leased(lease) => {
            let waits = is_told_to_wait(rt, yard, second);
            yard.release(rt, first, lease, true);
            Some((waits, second.seen()))
        }
        LeaseReply::NotYet => None,
        LeaseReply::Over(_) => None,
        LeaseReply::Memory => None,
    }
}

// The second pass is taken in, and the yard closed.
fn finish(yard: Yard, mut first: Pass, second: Pass) -> LeaseGraph
    requires own { IsOf yard first × IsOf yard second }
    requires free { (view_of second).lent ≡ None }
    requires parts { parts_of first + parts_of second ≡ all_parts }
    requires second { (view_of second).journal.made ≡ 0 }
    requires all { ((view_of first).journal.made ≡ 2) × ((view_of first).settings.workers ≡ 2) }
    requires alone { ((view_of first).journal.taken_in ≡ [])
        × ((view_of second).journal.taken_in ≡ []) }
    requires off { HasSignedOff (view_of first) × HasSignedOff (view_of second) }
    ensures finished { AreFinished result.table.settings (counts_in result) }
    ensures home { IsFalse (is_out_in result) }
{
    yard.meet(&mut first, second);
    yard.close(first)
}

// Two workers, one after the other on one thread, after the first one had a lease beside the
// second.
fn on_one_thread<W: Wait>(
    rt: &W,
    yard: Yard,
    mut first: Pass,
) -> (Option<(bool, u64)>, [u64; 2], LeaseGraph)
    requires own { IsFirstPass yard first }
    requires ready { IsReady (view_of first) }
    requires view { IsAlone (view_of first) 2 }
    ensures finished { AreFinished result.2.table.settings (counts_in result.2) }
    ensures home { IsFalse (is_out_in result.2) }
{
    let mut second = yard.split(&mut first);
    let beside = wait_beside(rt, &yard, &mut first, &mut second);
    let first = work(rt, &yard, first);
    let second = work(rt, &yard, second);
    let seen = [first.seen(), second.seen()];
    (beside, seen, finish(yard, first, second))
}

// Two workers in two threads.
fn in_two_threads<R: Threads + Wait + Sync>(rt: &R, yard: Yard, mut first: Pass) -> LeaseGraph
    requires own { IsFirstPass yard first }
    requires ready { IsReady (view_of first) }
    requires view { IsAlone (view_of first) 2 }
    ensures finished { AreFinished result.table.settings (counts_in result) }
    ensures home { IsFalse (is_out_in result) }
{
    let second = yard.split(&mut first);
    let shared = &yard;
    let (first, second) = join(
        rt,
        || -> Pass
            requires { IsOf shared.now first × IsReady (view_of first) }
            ensures own { IsOf shared.entry.now result }
            ensures parts { parts_of result ≡ parts_of first }
            ensures workers { KeepsWorkers (view_of first) (view_of result) }
            ensures off { ((view_of result).lent ≡ None) × HasSignedOff (view_of result) }
        { work(rt, shared, first) },
        || -> Pass
            requires { IsOf shared.now second × IsReady (view_of second) }
            ensures own { IsOf shared.entry.now result }
            ensures parts { parts_of result ≡ parts_of second }
            ensures workers { KeepsWorkers (view_of second) (view_of result) }
            ensures off { ((view_of result).lent ≡ None) × HasSignedOff (view_of result) }
        { work(rt, shared, second) },
    );
    finish(yard, first, second)
}

fn is_off(event: &Event) -> bool {
    matches!(
        event,
        Event::Off {
            worker: _,
            memory: _
        }
    )
}

// The journal of two workers, the first of whom had a lease.
const ONE_JOURNAL: [Event; 5] = [
    Event::Lease {
        worker: 0,
        block: 19,
        quota: 256,
    },
    Event::Release {
        worker: 0,
        used: 0,
        memory: true,
    },
    Event::Ended(End::Memory),
    Event::Off {
        worker: 0,
        memory: false,
    },
    Event::Off {
        worker: 1,
        memory: false,
    },
];

#[test]
fn two_passes_on_one_thread_make_one_journal(rt: HostRuntime) -> Result<(), Fail> {
    let (yard, first) = open(&rt, rt.alloc());
    let (beside, seen, graph) = on_one_thread(&rt, yard, first);
    assert_eq!(rt; beside, Some((true, 1)));
    assert_eq!(rt; seen, [4, 5]);
    // the blank is in the last of 4 cells, tile 1 in the first of the 3 others, and tile 2 in the
    // second of the 2 that are left
    assert!(rt; graph.journal() == ONE_JOURNAL.as_slice());
    Ok(())
}

#[test]
fn two_threads_sign_off(rt: HostRuntime) -> Result<(), Fail> {
    let (yard, first) = open(&rt, rt.alloc());
    let graph = in_two_threads(&rt, yard, first);
    assert_eq!(rt; graph.end(), Some(End::Memory));
    let journal = graph.journal();
    let offs = journal.iter().filter(|event| is_off(event)).count();
    assert_eq!(rt; offs, 2);
    Ok(())
}
