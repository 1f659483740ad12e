//! What a lease graph answers, on small maps whose cells are blocks: to two workers, and to one
//! that goes on to another block in one call.
ghost use Rattle.std.specs.Prelude.{◌≡◌, ◌==◌, ◌≤◌, IfOk, IfSome, IsFalse, None, vec_capacity};
ghost use Rattle.std.specs.Arc.{arc_value};
ghost use Rattle.pb_machine.specs.Settings.{AreInRange};
ghost use Rattle.pb_task.specs.Parts.{space_of, max_degree_of};
ghost use Rattle.pb_estimate.specs.Estimates.{estimate_of};
ghost use Rattle.pb_estimate.specs.Tables.{IsOfTask};
ghost use Rattle.pb_abstract.specs.Graph.{IsGraphOf};
ghost use Rattle.pb_lease.specs.LeaseValue.{LeaseValue};
ghost use Rattle.pb_lease.specs.GraphValue.{counts_in, IsOfGraph};
ghost use Rattle.pb_lease.specs.Steps.{IsLeased};
ghost use Rattle.pb_expand.specs.Turned.{IsAtWork};
ghost use Rattle.pb_test_search.specs.NewGraph.{IsNewGraph};

use crate::tables::settings_of;
use pb_abstract::AbsGraph;
use pb_estimate::{Choice, Estimator};
use pb_expand::{Worked, work};
use pb_lease::{Lease, LeaseGraph, LeaseReply, Renewed, SwitchReply};
use pb_machine::{End, Event, STANDARD, Settings};
use pb_model::{Estimate, Succ};
use pb_task::{Task, tasks_are_proper};
use pb_test_examples::{corridor, open_square};
use std::alloc::{AllocError, Global};
use std::sync::Arc;

// Small functions make the calls, and tests see plain values. So a test's proof stays short.

// The estimate of the start, which is a state since tasks are proper.
pub(crate) fn start_estimate(alloc: Global, task: &Task) -> Result<Estimate, AllocError>
    ensures { IfOk result (λ e. e ≡ estimate_of task.now (space_of task.now).start) }
{
    tasks_are_proper();
    let mut estimator = Estimator::of(alloc, task, &Choice::plain())?;
    let start = task.initial();
    Ok(estimator.estimate(task, &start))
}

// The start's estimate, and the blocks.
fn beginning(alloc: Global, task: &Task) -> Result<(Estimate, Arc<AbsGraph>), AllocError>
    ensures estimate { IfOk result (λ found. found.0
        ≡ estimate_of task.now (space_of task.now).start) }
    ensures abstraction { IfOk result (λ found. IsGraphOf task.now (arc_value found.1)) }
{
    let estimate = start_estimate(alloc, task)?;
    let blocks = AbsGraph::of(alloc, task, 256)?;
    let abstraction = Arc::new(alloc, blocks)?;
    Ok((estimate, abstraction))
}

// The graph of a search that opens.
fn open(alloc: Global, task: Arc<Task>, settings: Settings) -> Result<LeaseGraph, AllocError>
    requires { AreInRange settings }
    ensures task { IfOk result (λ g. g.task ≡ arc_value task) }
    ensures opening { IfOk result IsNewGraph }
{
    let (estimate, blocks) = beginning(alloc, &task)?;
    let graph = LeaseGraph::new(alloc, task, blocks, Choice::plain(), estimate, settings)?;
    Ok(graph)
}

// The first lease, which worker 0 gets.
fn lease_first(graph: &mut LeaseGraph) -> Option<Lease>
    requires { IsNewGraph graph.old }
    ensures leased { IfSome result (λ lease. IsLeased graph.old 0 lease graph.new) }
    ensures at_work { IfSome result (λ lease. IsAtWork graph.new.task graph.new.table.abstraction
        lease.choice lease) }
{
    let _ = graph.settings();
    match graph.lease(0) {
        LeaseReply::Leased(lease) => {
            let _ = graph.abstraction();
            Some(lease)
        }
        LeaseReply::NotYet | LeaseReply::Over(_) | LeaseReply::Memory => None,
    }
}

// Whether worker 1 is told to wait when it asks for a lease. If it gets one, the lease comes back
// at once. Without a worker 1 nobody is told to wait.
fn is_told_to_wait(graph: &mut LeaseGraph) -> bool
    requires vacant { (counts_in graph.old).leases 1 ≡ None }
    requires stays { IsFalse ((counts_in graph.old).signed_off 1) }
    ensures others { (lease : LeaseValue) → IsFalse (lease.worker == 1) → IsOfGraph graph.old lease
        → IsOfGraph graph.new lease }
{
    if graph.settings().workers < 2 {
        return false;
    }
    match graph.lease(1) {
        LeaseReply::NotYet => true,
        LeaseReply::Leased(lease) => {
            graph.release(lease, false);
            false
        }
        LeaseReply::Over(_) => false,
        LeaseReply::Memory => false,
    }
}

// What is seen while worker 0 has a lease: its block, whether worker 1 is told to wait, and how
// many events the journal has. The lease comes back.
fn ask_beside(graph: &mut LeaseGraph) -> Option<(u32, bool, usize)>
    requires { IsNewGraph graph.old }
{
    let lease = lease_first(graph)?;
    let waits = is_told_to_wait(graph);
    let seen = (lease.block(), waits, graph.journal().len());
    graph.release(lease, false);
    Some(seen)
}

// What is seen in the corridor while worker 0 has a lease; then the settings, and how many events
// the journal has.
fn waiting(alloc: Global) -> Result<(Option<(u32, bool, usize)>, Settings, usize), AllocError> {
    let task = Arc::new(alloc, corridor(alloc)?)?;
    let mut graph = open(alloc, task, settings_of(2, 1000, 256))?;
    let seen = ask_beside(&mut graph);
    Ok((seen, *graph.settings(), graph.journal().len()))
}

// What the lease's worker is answered that marks the block hot, or takes its mark away. It is false
// too if there is no such block.
fn mark_one(graph: &mut LeaseGraph, lease: &Lease, block: u32, hot: bool) -> bool
    requires { IsOfGraph graph.old lease.now }
    ensures { IsOfGraph graph.new lease.now }
{
    if block >= graph.abstraction().count() {
        return false;
    }
    let worker = lease.worker();
    if hot {
        graph.mark_hot(worker, block)
    } else {
        graph.cool(worker, block)
    }
}

// What the lease's worker is answered: marks of the blocks 1, 1, 8 and 3, and the mark of block 1
// taken away twice.
fn mark(graph: &mut LeaseGraph, lease: &Lease) -> [bool; 6]
    requires { IsOfGraph graph.old lease.now }
    ensures { IsOfGraph graph.new lease.now }
{
    [
        mark_one(graph, lease, 1, true),
        mark_one(graph, lease, 1, true),
        mark_one(graph, lease, 8, true),
        mark_one(graph, lease, 3, true),
        mark_one(graph, lease, 1, false),
        mark_one(graph, lease, 1, false),
    ]
}

// Block 1 is marked hot and the mark is taken away, as many times as this. The answer is whether all
// was done.
fn mark_often(graph: &mut LeaseGraph, lease: &Lease, times: u32) -> bool
    requires { IsOfGraph graph.old lease.now }
    ensures { IsOfGraph graph.new lease.now }
{
    let mut done = true;
    for _ in 0..times {
        let marked = mark_one(graph, lease, 1, true);
        let cooled = mark_one(graph, lease, 1, false);
        done = done & marked & cooled;
    }
    done
}

// How many blocks there are, the block of worker 0's lease, its rival, what the worker's marks are
// answered, and the room that is left.
type Marked = (u32, u32, Option<u32>, [bool; 6], u32);

fn mark_with_lease(graph: &mut LeaseGraph) -> Option<Marked>
    requires { IsNewGraph graph.old }
{
    let lease = lease_first(graph)?;
    let rival = graph.rival(&lease);
    let answers = mark(graph, &lease);
    let room = graph.room(lease.worker());
    let seen = (
        graph.abstraction().count(),
        lease.block(),
        rival,
        answers,
        room,
    );
    graph.release(lease, false);
    Some(seen)
}

// What is seen of worker 0's marks on the open square; then how many events the journal has, and
// the end.
fn marking(alloc: Global) -> Result<(Option<Marked>, usize, Option<End>), AllocError> {
    let task = Arc::new(alloc, open_square(alloc)?)?;
    let mut graph = open(alloc, task, settings_of(2, 1000, 256))?;
    let seen = mark_with_lease(&mut graph);
    Ok((seen, graph.journal().len(), graph.end()))
}

// An expansion of the lease is counted. The lease goes on if it may, and comes back after that. The
// answer is whether it went on.
fn spend_one(graph: &mut LeaseGraph, lease: Lease) -> bool
    requires { IsOfGraph graph.old lease }
{
    let mut lease = lease;
    if lease.used() < lease.quota() {
        lease.spend();
    }
    match graph.renew(lease) {
        Renewed::Kept(lease) => {
            graph.release(lease, false);
            true
        }
        Renewed::Given => false,
    }
}

// Whether the first lease goes on after one expansion. None if there is no lease.
fn spend_one_of_the_first(graph: &mut LeaseGraph) -> Option<bool>
    requires { IsNewGraph graph.old }
{
    match lease_first(graph) {
        Some(lease) => Some(spend_one(graph, lease)),
        None => None,
    }
}

// Whether a lease of the open square goes on at this budget, and the end.
fn going_on(alloc: Global, budget: u64) -> Result<(Option<bool>, Option<End>), AllocError> {
    let task = Arc::new(alloc, open_square(alloc)?)?;
    let mut graph = open(alloc, task, settings_of(2, budget, 1))?;
    let seen = spend_one_of_the_first(&mut graph);
    Ok((seen, graph.end()))
}

// Why the work on a lease stopped, and after how many expansions.
fn work_with(
    graph: &LeaseGraph,
    task: &Task,
    estimator: &mut Estimator,
    lease: &mut Lease,
    succs: &mut Vec<Succ>,
) -> (Worked, u64)
    requires task { graph.now.task ≡ task.now }
    requires of_graph { IsOfGraph graph.now lease.old }
    requires at_work { IsAtWork graph.now.task graph.now.table.abstraction lease.old.choice
        lease.old }
    requires tools { IsOfTask estimator.old task.now lease.old.choice }
    requires room { max_degree_of task.now ≤ vec_capacity succs.old }
    ensures { IsOfGraph graph.now lease.new }
{
    let blocks = graph.abstraction();
    let worked = work(task, estimator, blocks, lease, succs);
    (worked, lease.used())
}

fn work_on(
    alloc: Global,
    graph: &LeaseGraph,
    task: &Task,
    lease: &mut Lease,
) -> Result<(Worked, u64), AllocError>
    requires task { graph.now.task ≡ task.now }
    requires of_graph { IsOfGraph graph.now lease.old }
    requires at_work { IsAtWork graph.now.task graph.now.table.abstraction lease.old.choice
        lease.old }
    ensures { IsOfGraph graph.now lease.new }
{
    let mut succs = Vec::with_capacity(alloc, task.max_degree() as usize)?;
    let mut estimator = Estimator::of(alloc, task, graph.choice())?;
    Ok(work_with(graph, task, &mut estimator, lease, &mut succs))
}

// The room that is left after the lease is renewed, which then comes back. None if it isn't renewed.
fn renewed_room(graph: &mut LeaseGraph, lease: Lease) -> Option<u32>
    requires { IsOfGraph graph.old lease }
{
    match graph.renew(lease) {
        Renewed::Kept(kept) => {
            let room = graph.room(kept.worker());
            graph.release(kept, false);
            Some(room)
        }
        Renewed::Given => None,
    }
}

// The block and the quota of the lease that a worker goes on to, and the room that is left then and
// after that lease is renewed.
type Next = (u32, u64, u32, Option<u32>);

// Asks to go on with a lease, or else with another block. The next lease comes back after it is
// renewed. None if there is no next lease.
fn switch(graph: &mut LeaseGraph, lease: Lease) -> Option<Next>
    requires { IsOfGraph graph.old lease }
{
    match graph.try_switch(lease) {
        SwitchReply::Switched(next) => {
            let (block, quota) = (next.block(), next.quota());
            let room = graph.room(next.worker());
            Some((block, quota, room, renewed_room(graph, next)))
        }
        SwitchReply::Kept(kept) => {
            graph.release(kept, false);
            None
        }
        SwitchReply::Given => None,
    }
}

// Why worker 0's work on a lease stopped, and after how many expansions. Then whether all marks were
// made, and what is seen of the next lease.
type Went = (Option<(Worked, u64)>, bool, Option<Next>);

// Worker 0 leases a block, works on it, marks block 1 as many times as this, and asks to go on. The
// next lease comes back.
fn go_over(alloc: Global, graph: &mut LeaseGraph, task: &Task, marks: u32) -> Option<Went>
    requires opening { IsNewGraph graph.old }
    requires task { graph.old.task ≡ task.now }
{
    let mut lease = lease_first(graph)?;
    let worked = work_on(alloc, graph, task, &mut lease);
    let marked = mark_often(graph, &lease, marks);
    let next = switch(graph, lease);
    Some((worked.ok(), marked, next))
}

// What is seen as the one worker goes on from the start of the open square, and whether the journal
// is this one.
fn switched(alloc: Global, journal: &[Event]) -> Result<(Option<Went>, bool), AllocError> {
    let task = Arc::new(alloc, open_square(alloc)?)?;
    let mut graph = open(alloc, Arc::clone(&task)?, settings_of(1, 1000, 256))?;
    let seen = go_over(alloc, &mut graph, &task, 0);
    Ok((seen, graph.journal() == journal))
}

// What is seen as one of two workers goes on there after so many marks, and how many events the
// journal has.
fn marked_before(alloc: Global, marks: u32) -> Result<(Option<Went>, usize), AllocError> {
    let task = Arc::new(alloc, open_square(alloc)?)?;
    let mut graph = open(alloc, Arc::clone(&task)?, settings_of(2, 1000, 256))?;
    let seen = go_over(alloc, &mut graph, &task, marks);
    Ok((seen, graph.journal().len()))
}

// The journal of a worker that goes over to another block.
const GOING_OVER: [Event; 5] = [
    Event::Lease {
        worker: 0,
        block: 0,
        quota: 256,
    },
    Event::Release {
        worker: 0,
        used: 1,
        memory: false,
    },
    Event::Lease {
        worker: 0,
        block: 1,
        quota: 256,
    },
    Event::Renew {
        worker: 0,
        used: 0,
        quota: 256,
    },
    Event::Release {
        worker: 0,
        used: 0,
        memory: false,
    },
];

// A second worker waits. A mark is refused if a better block is hot. A lease goes on while
// something is left of the budget. A worker goes on to another block, if its room is enough.
#[test]
fn graphs_lease_mark_renew_and_switch(rt: HostRuntime) {
    let settings = Settings {
        workers: 2,
        budget: 1000,
        ..STANDARD
    };
    assert!(rt; waiting(rt.alloc()) == Ok((Some((22, true, 1)), settings, 2)));
    let answers = [true, false, false, false, true, false];
    let marked = Some((9, 0, None, answers, 61));
    assert_eq!(rt; marking(rt.alloc()), Ok((marked, 4, None)));
    for (budget, goes_on) in [(1, false), (2, true)] {
        assert_eq!(rt; going_on(rt.alloc(), budget), Ok((Some(goes_on), None)));
    }
    let worked = Some((Worked::Empty, 1));
    let went = Some((worked, true, Some((1, 256, 61, Some(60)))));
    assert_eq!(rt;
        switched(rt.alloc(), GOING_OVER.as_slice()),
        Ok((went, true))
    );
    // Each mark takes one of the room, and so does its end. The next lease takes two.
    for (marks, next, events) in [(30, Some((1, 256, 1, Some(0))), 65), (31, None, 64)] {
        let went = Some((worked, true, next));
        assert_eq!(rt; marked_before(rt.alloc(), marks), Ok((went, events)));
    }
}
