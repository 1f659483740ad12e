//! Workers that search together, each in a thread of its own.
ghost use Rattle.std.specs.Prelude.{◌≡◌, ◌+◌, [], None, IsTrue, vec_len, IfOk, IfErr, option_map, option_copied};
ghost use Rattle.std.specs.Arc.{arc_value};
ghost use Rattle.std.specs.List.{list_any};
ghost use Rattle.std.specs.Thread.{IsSync};
ghost use Rattle.pb_machine.specs.History.{is_off};
ghost use Rattle.pb_estimate.specs.Tables.{HasTable};
ghost use Rattle.pb_abstract.specs.Graph.{IsGraphOf};
ghost use Rattle.pb_yard.specs.Passes.{view_of, worker_of, parts_of, IsOf};
ghost use Rattle.pb_yard.specs.Calls.{IsActive, AllSignedOff};
ghost use Rattle.pb_workers.specs.Shared.{IsSameHolder, IsIdle};
ghost use Rattle.pb_workers.specs.Teams.{IsToSplit, KeepsSearch};
ghost use Rattle.pb_workers.specs.Tools.{AreFor, AllAreFor};
ghost use Rattle.pb_workers.specs.Turns.{IsBetweenTurns, AllMarkInTurn};

use crate::event_count::EventCount;
use crate::team::Team;
use crate::worker::Tools;
use crate::yard_search::run_worker;
use pb_abstract::AbsGraph;
use pb_estimate::Choice;
use pb_outside::Gate;
use pb_pattern::Table;
use pb_task::Task;
use pb_yard::{Pass, Yard};
use std::alloc::{AllocError, Global};
use std::sync::{Arc, Wait};
use std::thread::{Threads, join};

// Tools for so many workers.
fn tools_for(
    alloc: Global,
    task: &Task,
    choice: &Choice,
    workers: u32,
    table: Option<&Arc<Table>>,
) -> Result<Vec<Tools>, AllocError>
    requires { HasTable task.now choice.now (option_map arc_value (option_copied table)) }
    ensures tools { IfOk result (λ v. AllAreFor task.now choice.now v.items) }
    ensures count { IfOk result (λ v. vec_len v ≡ workers) }
{
    let mut tools = Vec::with_capacity(alloc, workers as usize)?;
    for _i in 0..workers {
        tools.push_reserved(Tools::new(alloc, task, choice, table)?);
    }
    Ok(tools)
}

// Each worker in a thread of its own, until all have signed off. The passes of the others are split
// from the first one's, which takes them in again.
fn run_all<R: Threads + Wait + Sync, G: Gate>(
    rt: &R,
    team: &Team<G>,
    first: Tools,
    mut others: Vec<Tools>,
    mut pass: Pass,
) -> Pass
    requires own { IsOf team.now.yard.now pass }
    requires first { worker_of pass ≡ 0 }
    requires tools { AreFor team.now.task.now (view_of pass).choice first
        × AllAreFor team.now.task.now (view_of pass).choice others.items }
    requires to_split { IsToSplit team.now.task.now team.now.abstraction.now (vec_len others)
        (view_of pass) }
    ensures own { IsOf team.now.yard.now result }
    ensures first { worker_of result ≡ 0 }
    ensures met { parts_of result ≡ parts_of pass }
    ensures signed_off { AllSignedOff (view_of result) }
    ensures marks { IsBetweenTurns (view_of pass) → AllMarkInTurn (view_of result) }
    ensures search { KeepsSearch (view_of pass) (view_of result) }
{
    let Some(tools) = others.pop() else {
        return run_worker(rt, team, first, pass);
    };
    let other = team.yard.split(&mut pass);
    // The closures take the parts, since a caller learns nothing of one that captures a lifetime.
    let (yard, count, gate) = (team.yard, team.count, team.gate);
    let (task, abstraction) = (team.task, team.abstraction);
    let (mut all, other) = join(
        rt,
        || -> Pass
            requires { IsSync R.row × IsOf yard.now pass × (worker_of pass ≡ 0)
                × AreFor task.now (view_of pass).choice first
                × AllAreFor task.now (view_of pass).choice others.items
                × IsToSplit task.now abstraction.now (vec_len others) (view_of pass) }
            ensures { IsOf yard.entry.now result × (worker_of result ≡ 0)
                × (parts_of result ≡ parts_of pass) × AllSignedOff (view_of result)
                × KeepsSearch (view_of pass) (view_of result)
                × (IsBetweenTurns (view_of pass) → AllMarkInTurn (view_of result)) }
        {
            let team = Team {
                task,
                abstraction,
                yard,
                count,
                gate,
            };
            run_all(rt, &team, first, others, pass)
        },
        || -> Pass
            requires { IsOf yard.now other × AreFor task.now (view_of other).choice tools
                × IsIdle task.now abstraction.now (view_of other) }
            ensures { IsOf yard.entry.now result × (parts_of result ≡ parts_of other)
                × IsSameHolder (view_of other) (view_of result)
                × ((view_of result).lent ≡ None)
                × IsTrue (list_any is_off (view_of result).journal.own.events)
                × (IsBetweenTurns (view_of other) → IsBetweenTurns (view_of result)) }
        {
            let team = Team {
                task,
                abstraction,
                yard,
                count,
                gate,
            };
            run_worker(rt, &team, tools, other)
        },
    );
    team.yard.meet(&mut all, other);
    all
}

/// Searches with as many workers as the yard's settings have, each in a thread of its own, until
/// all have signed off. A worker leases blocks, works on each and brings it back; if it gets none,
/// it sleeps until a lease came back or a worker signed off. The gate is called each time that a
/// block was leased, and each time before a lease is renewed or comes back. The workers share the
/// table that the estimate looks up, if it looks up any. An error is out of memory, before any pass
/// was split: nothing was leased.
pub fn run_workers<R: Threads + Wait + Sync, G: Gate>(
    rt: &R,
    alloc: Global,
    task: &Task,
    abstraction: &AbsGraph,
    choice: &Choice,
    yard: &Yard,
    gate: &G,
    pass: Pass,
    workers: u32,
    table: Option<&Arc<Table>>,
) -> Result<Pass, (AllocError, Pass)>
    requires own { IsOf yard.now pass }
    requires first { worker_of pass ≡ 0 }
    requires alone { ((view_of pass).journal.made ≡ 1) × ((view_of pass).journal.taken_in ≡ []) }
    requires workers { workers ≡ (view_of pass).settings.workers }
    requires of_task { IsGraphOf task.now abstraction.now }
    requires task { (view_of pass).task ≡ task.now }
    requires abstraction { (view_of pass).abstraction ≡ abstraction.now }
    requires choice { (view_of pass).choice ≡ choice.now }
    requires vacant { (view_of pass).lent ≡ None }
    requires stays { IsActive (view_of pass) }
    requires table { HasTable task.now choice.now (option_map arc_value (option_copied table)) }

    // So the yard may be closed with this pass if it had all parts.
    ensures own { IfOk result (IsOf yard.now) }
    ensures first { IfOk result (λ p. worker_of p ≡ 0) }
    ensures met { IfOk result (λ p. parts_of p ≡ parts_of pass) }
    ensures signed_off { IfOk result (λ p. AllSignedOff (view_of p)) }

    // If worker 0's marks were in turn so far, every worker's are in turn to the end.
    ensures marks { IsBetweenTurns (view_of pass) → IfOk result (λ p. AllMarkInTurn (view_of p)) }

    ensures search { IfOk result (λ p. KeepsSearch (view_of pass) (view_of p)) }

    ensures err { IfErr result (λ e. e.1 ≡ pass) }
{
    let Ok(first) = Tools::new(alloc, task, choice, table) else {
        return Err((AllocError, pass));
    };
    // The settings have at least one worker, so this never wraps.
    let Ok(others) = tools_for(alloc, task, choice, workers.wrapping_sub(1), table) else {
        return Err((AllocError, pass));
    };
    let team = Team {
        task,
        abstraction,
        yard,
        count: &EventCount::new(),
        gate,
    };
    Ok(run_all(rt, &team, first, others, pass))
}
