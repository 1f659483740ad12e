//! The incumbent as two passes of one yard see it on one thread: a better plan is known before the
//! lease that has it comes back.
ghost use Rattle.std.specs.Prelude.{◌≡◌, ◌≤◌, vec_capacity};
ghost use Rattle.pb_task.specs.Parts.{max_degree_of};
ghost use Rattle.pb_estimate.specs.Tables.{IsOfTask};
ghost use Rattle.pb_yard.specs.Passes.{view_of, IsOf};
ghost use Rattle.pb_yard.specs.Calls.{IsReady, KeepsWorkers};
ghost use Rattle.pb_workers.specs.Shared.{IsIdle, IsLeased};
ghost use Rattle.pb_workers.specs.Watching.{IsWatchOf};

use crate::graphs::start_estimate;
use crate::workers::is_told_to_wait;
use pb_abstract::AbsGraph;
use pb_estimate::{Choice, Estimator};
use pb_expand::{Worked, work_watched};
use pb_lease::{Lease, LeaseGraph, LeaseReply};
use pb_machine::{STANDARD, Settings};
use pb_model::Succ;
use pb_task::Task;
use pb_test_examples::two_cells;
use pb_workers::YardWatch;
use pb_yard::{Pass, Yard};
use std::alloc::{AllocError, Global};
use std::sync::{Arc, Wait};
use std::test::Fail;

// What another pass sees while a lease is out: the incumbent before the work and after it, whether
// it has to wait for a lease, and how many events it has seen then.
#[derive(Clone, Copy, PartialEq, Eq, Debug)]
struct Seen {
    before: Option<u64>,
    after: Option<u64>,
    waits: bool,
    events: u64,
}

// What work on leases needs memory for: an estimator, and a list for successors.
#[derive(Drop)]
struct Tools {
    estimator: Estimator,
    succs: Vec<Succ>,
}

// Works on a lease, and brings it back after the other pass has looked.
fn work_beside<W: Wait>(
    rt: &W,
    task: &Task,
    abstraction: &AbsGraph,
    tools: &mut Tools,
    watch: &mut YardWatch,
    mut lease: Lease,
    other: &mut Pass,
) -> Seen
    requires own { IsWatchOf watch.old }
    requires other { IsOf watch.old.yard.now other.old }
    requires leased { IsLeased task.now abstraction.now (view_of watch.old.pass) lease }
    requires ready { IsReady (view_of other.old) }
    requires tools { IsOfTask tools.old.estimator task.now (view_of watch.old.pass).choice }
    requires room { max_degree_of task.now ≤ vec_capacity tools.old.succs }
    ensures yard { watch.new.yard.now ≡ watch.old.yard.now }
    ensures own { IsWatchOf watch.new }
    ensures other { IsOf watch.old.yard.now other.new }
    ensures ready { IsReady (view_of watch.new.pass) × IsReady (view_of other.new) }
    ensures workers { KeepsWorkers (view_of other.old) (view_of other.new) }
    ensures tools { IsOfTask tools.new.estimator task.now (view_of watch.old.pass).choice }
    ensures room { max_degree_of task.now ≤ vec_capacity tools.new.succs }
{
    let before = watch.yard.glance(other);
    let worked = work_watched(
        task,
        &mut tools.estimator,
        abstraction,
        &mut lease,
        &mut tools.succs,
        watch,
    );
    let after = watch.yard.glance(other);
    let waits = is_told_to_wait(rt, watch.yard, other);
    match worked {
        // The lot is larger than the task, so the quota isn't used up. A lease whose quota is used
        // up could come back by a report alone, or by asking to go on.
        Worked::Spent => watch.yard.release(rt, &mut watch.pass, lease, true),
        Worked::Empty => watch.yard.release(rt, &mut watch.pass, lease, false),
        Worked::Memory => watch.yard.release(rt, &mut watch.pass, lease, true),
    }
    Seen {
        before,
        after,
        waits,
        events: other.seen(),
    }
}

// A lease that is worked on beside the other pass, or None if the first pass gets none.
fn lease_beside<W: Wait>(
    rt: &W,
    task: &Task,
    abstraction: &AbsGraph,
    tools: &mut Tools,
    watch: &mut YardWatch,
    other: &mut Pass,
) -> Option<Seen>
    requires own { IsWatchOf watch.old }
    requires other { IsOf watch.old.yard.now other.old }
    requires idle { IsIdle task.now abstraction.now (view_of watch.old.pass) }
    requires ready { IsReady (view_of other.old) }
    requires tools { IsOfTask tools.old.estimator task.now (view_of watch.old.pass).choice }
    requires room { max_degree_of task.now ≤ vec_capacity tools.old.succs }
    ensures yard { watch.new.yard.now ≡ watch.old.yard.now }
    ensures own { IsWatchOf watch.new }
    ensures other { IsOf watch.old.yard.now other.new }
    ensures ready { IsReady (view_of watch.new.pass) × IsReady (view_of other.new) }
    ensures workers { KeepsWorkers (view_of other.old) (view_of other.new) }
    ensures tools { IsOfTask tools.new.estimator task.now (view_of watch.old.pass).choice }
    ensures room { max_degree_of task.now ≤ vec_capacity tools.new.succs }
{
    match watch.yard.lease(rt, &mut watch.pass) {
        LeaseReply::Leased(lease) => {
            Some(work_beside(rt, task, abstraction, tools, watch, lease, other))
        }
        LeaseReply::NotYet => None,
        LeaseReply::Over(_) => None,
        LeaseReply::Memory => None,
    }
}

// The first pass leases a block and works beside the second, and then the second beside the first.
fn both<W: Wait>(
    rt: &W,
    alloc: Global,
    task: Task,
) -> Result<(Option<Seen>, Option<Seen>), AllocError> {
    let abstraction = AbsGraph::of(alloc, &task, 256)?;
    let estimate = start_estimate(alloc, &task)?;
    let succs = Vec::with_capacity(alloc, task.max_degree() as usize)?;
    let settings = Settings {
        workers: 2,
        budget: 1000,
        ..STANDARD
    };
    let task = Arc::new(alloc, task)?;
    let abstraction = Arc::new(alloc, abstraction)?;
    let graph = LeaseGraph::new(
        alloc,
        Arc::clone(&task)?,
        Arc::clone(&abstraction)?,
        Choice::plain(),
        estimate,
        settings,
    )?;
    let Ok((yard, mut first)) = Yard::new(alloc, graph) else {
        return Err(AllocError);
    };
    let mut second = yard.split(&mut first);
    let mut tools = Tools {
        estimator: Estimator::of(alloc, &task, &Choice::plain())?,
        succs,
    };
    let mut watch = YardWatch {
        yard: &yard,
        pass: first,
    };
    let one = lease_beside(rt, &task, &abstraction, &mut tools, &mut watch, &mut second);
    let YardWatch {
        yard: _,
        pass: mut first,
    } = watch;
    let mut watch = YardWatch {
        yard: &yard,
        pass: second,
    };
    let two = lease_beside(rt, &task, &abstraction, &mut tools, &mut watch, &mut first);
    Ok((one, two))
}

#[test]
fn a_plan_is_known_before_its_lease_comes_back(rt: HostRuntime) -> Result<(), Fail> {
    let task = two_cells(rt.alloc())?;
    let seen = both(&rt, rt.alloc(), task)?;
    let one = Seen {
        before: None,
        after: None,
        waits: true,
        events: 1,
    };
    let two = Seen {
        before: None,
        after: Some(1),
        waits: true,
        events: 3,
    };
    assert_eq!(rt; seen, (Some(one), Some(two)));
    Ok(())
}
