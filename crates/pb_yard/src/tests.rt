//! Worked rows. A worker goes on to another block in one call, which never waits. While another pass
//! holds the turn nothing is done, and the lease is as it was. A worker that left the order brings a
//! lease back before its work has stopped.
ghost use Rattle.std.specs.Prelude.{◌≡◌, ◌+◌, false, [], None};
ghost use Rattle.std.specs.Arc.{arc_value};
ghost use Rattle.pb_task.specs.Parts.{space_of};
ghost use Rattle.pb_estimate.specs.Estimates.{estimate_of};
ghost use Rattle.pb_abstract.specs.Graph.{IsGraphOf};
ghost use Rattle.pb_lease.specs.declared.answer.LeaseReply.TheVariants.{Leased};
ghost use Rattle.pb_lease.specs.declared.answer.SwitchReply.TheVariants as reply;
ghost use Rattle.pb_yard.specs.declared.switch.Switch.TheVariants.{Switched, Busy};
ghost use Rattle.pb_yard.specs.Views.{KeepsOrder};
ghost use Rattle.pb_yard.specs.Passes.{view_of, parts_of, misses_of, all_parts, IsOf, IsFirstPass, KeepsPass};
ghost use Rattle.pb_yard.specs.Order.{HasStopped};
ghost use Rattle.pb_yard.specs.Returning.{IsBrought};
ghost use Rattle.pb_yard.specs.Calls.{IsReady, IsActive, IsAlone, HasSignedOff, KeepsWorkers, Switches};

use crate::by_hand::expand_only;
use crate::{Pass, Switch, Yard, YardRule};
use pb_abstract::AbsGraph;
use pb_estimate::{Choice, Estimator};
use pb_lease::{Lease, LeaseGraph, LeaseReply};
use pb_machine::{End, Event, STANDARD, Settings};
use pb_model::Estimate;
use pb_task::{Cells, Class, GridParts, Swamp, Task};
use pb_turn::Leaving;
use std::alloc::{AllocError, Global};
use std::process::Abort;
use std::sync::atomic::{AtomicU64, Ordering};
use std::sync::{Arc, Wait};
use std::test::Fail;
use std::thread::{Threads, join, yield_now};

// How often a thread looks, at most, at how far the other one came.
const TURNS: u32 = 10_000_000;

// How far both came: the worker has worked on its lease; the other pass holds the turn; the worker
// was answered; the other pass left.
const WORKED: u64 = 1;

const HELD: u64 = 2;

const ANSWERED: u64 = 3;

const LEFT: u64 = 4;

// Looks until both came this far, but not for ever.
fn look_for(stage: &AtomicU64, wanted: u64) {
    for _ in 0..TURNS {
        if stage.load(Ordering::SeqCst) >= wanted {
            return;
        }
        yield_now();
    }
}

/// Leaving with the view as it was.
struct AsBefore;

impl Leaving<YardRule> for AsBefore {
    type Said = ();

    ghost after = { λ _ _ _ v. v };
}

// Holds the turn, by the lock's own calls, until the worker was answered.
fn hold<W: Wait>(rt: &W, yard: &Yard, mut pass: Pass, stage: &AtomicU64) -> Pass
    requires own { IsOf yard.now pass }
    ensures same { KeepsPass pass result }
    ensures view { view_of result ≡ view_of pass }
{
    look_for(stage, WORKED);
    let held = yard.lock.enter(rt, &mut pass.turn);
    stage.store(HELD, Ordering::SeqCst);
    look_for(stage, ANSWERED);
    yard.lock.leave::<AsBefore>(&mut pass.turn, held, &());
    stage.store(LEFT, Ordering::SeqCst);
    pass
}

// The lease of an answer.
fn leased<R: Abort>(rt: &R, reply: LeaseReply) -> Lease
    ensures { reply ≡ Leased result }
{
    match reply {
        LeaseReply::Leased(lease) => lease,
        LeaseReply::NotYet | LeaseReply::Over(_) | LeaseReply::Memory => { panic!(rt; "no lease") }
    }
}

// The lease that a pass still has, since another pass holds the turn.
fn busy<R: Abort>(rt: &R, answer: Switch) -> Lease
    ensures { answer ≡ Busy result }
{
    match answer {
        Switch::Busy(lease) => lease,
        Switch::Kept(_lease) => panic!(rt; "the turn was held"),
        Switch::Switched(_next) => panic!(rt; "the turn was held"),
        Switch::Given => panic!(rt; "the turn was held"),
    }
}

// The next lease of a pass that went on with another block.
fn switched<R: Abort>(rt: &R, answer: Switch) -> Lease
    ensures { answer ≡ Switched result }
{
    match answer {
        Switch::Switched(next) => next,
        Switch::Kept(_lease) => panic!(rt; "the lease went on"),
        Switch::Given => panic!(rt; "the lease came back"),
        Switch::Busy(_lease) => panic!(rt; "nobody held the turn"),
    }
}

// The worker leases a block and expands its only row. No row of it is Opened then.
fn lease_and_work<R: Wait + Abort>(
    rt: &R,
    alloc: Global,
    yard: &Yard,
    pass: &mut Pass,
    task: &Task,
    abstraction: &AbsGraph,
) -> Lease
    requires own { IsOf yard.now pass.old }
    requires ready { IsReady (view_of pass.old) }
    requires task { (view_of pass.old).task ≡ task.now }
    requires abstraction { (view_of pass.old).abstraction ≡ abstraction.now }
    requires of_task { IsGraphOf task.now abstraction.now }
    ensures same { KeepsPass pass.old pass.new }
    ensures workers { KeepsWorkers (view_of pass.old) (view_of pass.new) }
    ensures active { IsActive (view_of pass.new) }
    ensures brought { IsBrought (view_of pass.new) 0 result }
    ensures cause { HasStopped result }
{
    let reply = yard.lease(rt, pass);
    let mut lease = leased(rt, reply);
    expand_only(rt, alloc, task, abstraction, &mut lease);
    lease
}

// Tries to go on while another pass holds the turn: the lease and what the pass knows are as they
// were, and the pass counts the step.
fn try_beside<R: Abort>(rt: &R, yard: &Yard, pass: &mut Pass, lease: Lease) -> Lease
    requires own { IsOf yard.now pass.old }
    requires brought { IsBrought (view_of pass.old) 0 lease }
    requires cause { HasStopped lease }
    ensures same { KeepsPass pass.old pass.new }
    ensures lease { result ≡ lease }
    ensures view { view_of pass.new ≡ view_of pass.old }
    ensures held { misses_of pass.new ≡ misses_of pass.old + 1 }
{
    let answer = yard.try_switch(pass, lease);
    busy(rt, answer)
}

// Tries to go on while nobody holds the turn: the worker goes on with another block.
fn go_over<R: Abort>(rt: &R, yard: &Yard, pass: &mut Pass, lease: Lease) -> Lease
    requires own { IsOf yard.now pass.old }
    requires brought { IsBrought (view_of pass.old) 0 lease }
    requires cause { HasStopped lease }
    ensures same { KeepsPass pass.old pass.new }
    ensures switched { Switches lease (view_of pass.old) (reply.Switched result)
        (view_of pass.new) }
{
    let answer = yard.try_switch(pass, lease);
    switched(rt, answer)
}

// The block of a lease, its quota, and how much of that is used.
fn numbers(lease: &Lease) -> (u32, u64, u64) {
    (lease.block(), lease.quota(), lease.used())
}

// The pass's worker signs off.
fn sign_off<W: Wait>(rt: &W, yard: &Yard, mut pass: Pass) -> Pass
    requires own { IsOf yard.now pass }
    requires ready { IsReady (view_of pass) }
    ensures own { IsOf yard.now result }
    ensures parts { parts_of result ≡ parts_of pass }
    ensures workers { KeepsWorkers (view_of pass) (view_of result) }
    ensures free { (view_of result).lent ≡ None }
    ensures off { HasSignedOff (view_of result) }
{
    yard.sign_off(rt, &mut pass, true);
    pass
}

// The worker: its first lease after the work and after the try beside the other pass, and its next
// lease. The next lease comes back with a report that memory ran out, and the worker signs off.
fn switch_twice<R: Wait + Abort>(
    rt: &R,
    alloc: Global,
    yard: &Yard,
    mut pass: Pass,
    task: &Task,
    abstraction: &AbsGraph,
    stage: &AtomicU64,
) -> (Pass, [(u32, u64, u64); 3])
    requires own { IsOf yard.now pass }
    requires ready { IsReady (view_of pass) }
    requires task { (view_of pass).task ≡ task.now }
    requires abstraction { (view_of pass).abstraction ≡ abstraction.now }
    requires of_task { IsGraphOf task.now abstraction.now }
    ensures own { IsOf yard.now result.0 }
    ensures parts { parts_of result.0 ≡ parts_of pass }
    ensures workers { KeepsWorkers (view_of pass) (view_of result.0) }
    ensures off { HasSignedOff (view_of result.0) }
{
    let lease = lease_and_work(rt, alloc, yard, &mut pass, task, abstraction);
    let worked = numbers(&lease);
    stage.store(WORKED, Ordering::SeqCst);
    look_for(stage, HELD);
    let lease = try_beside(rt, yard, &mut pass, lease);
    stage.store(ANSWERED, Ordering::SeqCst);
    let kept = numbers(&lease);
    look_for(stage, LEFT);
    let next = go_over(rt, yard, &mut pass, lease);
    let other = numbers(&next);
    yard.release(rt, &mut pass, next, true);
    (sign_off(rt, yard, pass), [worked, kept, other])
}

// The worker in one thread, and the pass that holds the turn in another one.
fn in_two_threads<R: Threads + Wait + Abort + Sync>(
    rt: &R,
    alloc: Global,
    yard: &Yard,
    first: Pass,
    second: Pass,
    task: &Task,
    abstraction: &AbsGraph,
) -> (Pass, [(u32, u64, u64); 3], Pass)
    requires own { IsOf yard.now first × IsOf yard.now second }
    requires ready { IsReady (view_of first) }
    requires task { (view_of first).task ≡ task.now }
    requires abstraction { (view_of first).abstraction ≡ abstraction.now }
    requires of_task { IsGraphOf task.now abstraction.now }
    ensures own { IsOf yard.now result.0 }
    ensures parts { parts_of result.0 ≡ parts_of first }
    ensures workers { KeepsWorkers (view_of first) (view_of result.0) }
    ensures off { HasSignedOff (view_of result.0) }
    ensures same { KeepsPass second result.2 }
    ensures view { view_of result.2 ≡ view_of second }
{
    let stage = AtomicU64::new(0);
    let (worked, second) = join(
        rt,
        || -> (Pass, [(u32, u64, u64); 3])
            requires { IsOf yard.now first × IsReady (view_of first)
                × ((view_of first).task ≡ task.now) × ((view_of first).abstraction ≡
                abstraction.now)
                × IsGraphOf task.now abstraction.now }
            ensures own { IsOf yard.entry.now result.0 }
            ensures parts { parts_of result.0 ≡ parts_of first }
            ensures workers { KeepsWorkers (view_of first) (view_of result.0) }
            ensures off { HasSignedOff (view_of result.0) }
        { switch_twice(rt, alloc, yard, first, task, abstraction, &stage) },
        || -> Pass
            requires { IsOf yard.now second }
            ensures same { KeepsPass second result }
            ensures view { view_of result ≡ view_of second }
        { hold(rt, yard, second, &stage) },
    );
    let (first, seen) = worked;
    (first, seen, second)
}

// The second pass is taken in, and the yard closed.
fn finish(yard: Yard, mut first: Pass, second: Pass) -> LeaseGraph
    requires own { IsOf yard first × IsOf yard second }
    requires free { (view_of second).lent ≡ None }
    requires parts { parts_of first + parts_of second ≡ all_parts }
    requires second { (view_of second).journal.made ≡ 0 }
    requires all { ((view_of first).journal.made ≡ 2) × ((view_of first).settings.workers ≡ 2) }
    requires alone { ((view_of first).journal.taken_in ≡ [])
        × ((view_of second).journal.taken_in ≡ []) }
    requires off { HasSignedOff (view_of first) × HasSignedOff (view_of second) }
{
    yard.meet(&mut first, second);
    yard.close(first)
}

// The same run by the two passes of a new yard, which is closed after it.
fn search_by_two<R: Threads + Wait + Abort + Sync>(
    rt: &R,
    alloc: Global,
    yard: Yard,
    mut first: Pass,
    task: &Task,
    abstraction: &AbsGraph,
) -> ([(u32, u64, u64); 3], LeaseGraph)
    requires own { IsFirstPass yard first }
    requires ready { IsReady (view_of first) }
    requires view { IsAlone (view_of first) 2 }
    requires task { (view_of first).task ≡ task.now }
    requires abstraction { (view_of first).abstraction ≡ abstraction.now }
    requires of_task { IsGraphOf task.now abstraction.now }
{
    let second = yard.split(&mut first);
    let (first, seen, second) = in_two_threads(rt, alloc, &yard, first, second, task, abstraction);
    let second = sign_off(rt, &yard, second);
    (seen, finish(yard, first, second))
}

// A map of 3 by 3 cells, from its upper left to its lower right cell. One step alone leads away
// from the start, since the cell below it is blocked.
fn square(alloc: Global) -> Result<Task, AllocError> {
    let (land, rock) = (Class::Land, Class::Blocked);
    let task = Task::of_grid(GridParts {
        width: 3,
        height: 3,
        cells: Cells::of(vec![in alloc; land, land, land, rock, land, land, land, land, land]?),
        swamp: Swamp::of(vec![in alloc; false; 9]?),
        start: (0, 0),
        goal: (2, 2),
    });
    Ok(task)
}

// The estimate of the start.
fn start_estimate<R: Abort>(rt: &R, alloc: Global, task: &Task) -> Estimate
    ensures { result ≡ estimate_of task.now (space_of task.now).start }
{
    let start = task.initial();
    if !task.is_state(&start) {
        panic!(rt; "no state");
    }
    let mut estimator = Estimator::of(alloc, task, &Choice::plain()).expect(rt, "memory");
    estimator.estimate(task, &start)
}

// A yard over a new graph for two workers, and its first pass.
fn open<R: Abort>(
    rt: &R,
    alloc: Global,
    task: &Arc<Task>,
    abstraction: &Arc<AbsGraph>,
) -> (Yard, Pass)
    requires { IsGraphOf (arc_value task.now) (arc_value abstraction.now) }
    ensures pass { IsFirstPass result.0 result.1 }
    ensures ready { IsReady (view_of result.1) }
    ensures view { IsAlone (view_of result.1) 2 }
    ensures task { (view_of result.1).task ≡ arc_value task.now }
    ensures abstraction { (view_of result.1).abstraction ≡ arc_value abstraction.now }
{
    let estimate = start_estimate(rt, alloc, task);
    let settings = Settings {
        workers: 2,
        budget: 1000,
        ..STANDARD
    };
    let task = Arc::clone(task).expect(rt, "memory");
    let abstraction = Arc::clone(abstraction).expect(rt, "memory");
    let graph = LeaseGraph::new(
        alloc,
        task,
        abstraction,
        Choice::plain(),
        estimate,
        settings,
    )
    .expect(rt, "memory");
    match Yard::new(alloc, graph) {
        Ok(made) => made,
        Err((_, graph)) => {
            drop(graph);
            panic!(rt; "no memory")
        }
    }
}

// Worker 0's events.
fn lease(block: u32) -> Event {
    Event::Lease {
        worker: 0,
        block,
        quota: 256,
    }
}

fn release(used: u64, memory: bool) -> Event {
    Event::Release {
        worker: 0,
        used,
        memory,
    }
}

#[test]
fn a_worker_goes_on_without_waiting(rt: HostRuntime) -> Result<(), Fail> {
    let alloc = rt.alloc();
    let task = Arc::new(alloc, square(alloc)?)?;
    let abstraction = Arc::new(alloc, AbsGraph::of(alloc, &task, 256)?)?;
    let (yard, first) = open(&rt, alloc, &task, &abstraction);
    let (seen, graph) = search_by_two(&rt, alloc, yard, first, &task, &abstraction);
    assert_eq!(rt; seen, [(0, 256, 1), (0, 256, 1), (1, 256, 0)]);
    let journal = graph.journal();
    assert_eq!(rt; journal.len(), 7);
    assert!(rt; journal[0] == lease(0));
    assert!(rt; journal[1] == release(1, false));
    assert!(rt; journal[2] == lease(1));
    assert!(rt; journal[3] == release(0, true));
    assert!(rt; journal[4] == Event::Ended(End::Memory));
    Ok(())
}

// The worker, which left the order, leases a block and brings the lease back at once: a row of the
// block is Opened, and it reports nothing.
fn return_early<R: Wait + Abort>(rt: &R, yard: &Yard, pass: &mut Pass) -> (u32, u64, u64)
    requires own { IsOf yard.now pass.old }
    requires ready { IsReady (view_of pass.old) }
    requires left { KeepsOrder (view_of pass.old) → ⊥ }
    ensures same { KeepsPass pass.old pass.new }
    ensures workers { KeepsWorkers (view_of pass.old) (view_of pass.new) }
    ensures ready { IsReady (view_of pass.new) }
{
    let reply = yard.lease(rt, pass);
    let lease = leased(rt, reply);
    let seen = numbers(&lease);
    yard.release(rt, pass, lease, false);
    seen
}

// The first worker leaves the order and returns early. Then both sign off, and the yard is closed.
fn leave_order<R: Wait + Abort>(
    rt: &R,
    yard: Yard,
    mut first: Pass,
) -> ((u32, u64, u64), LeaseGraph)
    requires own { IsFirstPass yard first }
    requires ready { IsReady (view_of first) }
    requires view { IsAlone (view_of first) 2 }
{
    let second = yard.split(&mut first);
    yard.leave_order(rt, &mut first);
    let seen = return_early(rt, &yard, &mut first);
    let first = sign_off(rt, &yard, first);
    let second = sign_off(rt, &yard, second);
    (seen, finish(yard, first, second))
}

#[test]
fn a_worker_out_of_order_returns_early(rt: HostRuntime) -> Result<(), Fail> {
    let alloc = rt.alloc();
    let task = Arc::new(alloc, square(alloc)?)?;
    let abstraction = Arc::new(alloc, AbsGraph::of(alloc, &task, 256)?)?;
    let (yard, first) = open(&rt, alloc, &task, &abstraction);
    let (seen, graph) = leave_order(&rt, yard, first);
    assert_eq!(rt; seen, (0, 256, 0));
    let journal = graph.journal();
    assert_eq!(rt; journal.len(), 5);
    assert!(rt; journal[0] == lease(0));
    assert!(rt; journal[1] == release(0, false));
    assert!(rt; journal[3] == Event::Ended(End::Memory));
    Ok(())
}
