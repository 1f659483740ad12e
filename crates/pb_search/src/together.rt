//! The search of several workers.
ghost use Rattle.std.specs.Prelude.{◌≡◌, ◌<◌, IfOk, option_map, option_copied};
ghost use Rattle.std.specs.Arc.{arc_value};
ghost use Rattle.pb_estimate.specs.Tables.{HasTable};
ghost use Rattle.pb_abstract.specs.Graph.{IsGraphOf};
ghost use Rattle.pb_lease.specs.Begins.{IsBegin};
ghost use Rattle.pb_search.specs.Searched.{HasRun};

use pb_abstract::AbsGraph;
use pb_lease::LeaseGraph;
use pb_machine::End;
use pb_outside::Gate;
use pb_pattern::Table;
use pb_task::Task;
use pb_workers::run_workers;
use pb_yard::Yard;
use std::alloc::{AllocError, Global};
use std::sync::{Arc, Wait};
use std::thread::Threads;

/// Searches with several workers, each in a thread of its own, until all have signed off. They share
/// the table that the estimate looks up. An error is out of memory, at the start or of a worker.
pub fn search_together<R: Threads + Wait + Sync, G: Gate>(
    rt: &R,
    alloc: Global,
    task: &Task,
    abstraction: &AbsGraph,
    opening: LeaseGraph,
    gate: &G,
    table: Option<&Arc<Table>>,
) -> Result<LeaseGraph, AllocError>
    requires task { opening.task ≡ task.now }
    requires abstraction { opening.table.abstraction ≡ abstraction.now }
    requires begin { IsBegin opening }
    requires of_task { IsGraphOf task.now abstraction.now }
    requires several { 1 < opening.table.settings.workers }
    requires table { HasTable task.now opening.choice
        (option_map arc_value (option_copied table)) }
    ensures { IfOk result (HasRun opening) }
{
    let workers = opening.settings().workers;
    let choice = opening.choice().clone()?;
    let Ok((yard, pass)) = Yard::new(alloc, opening) else {
        return Err(AllocError);
    };
    let Ok(pass) = run_workers(
        rt,
        alloc,
        task,
        abstraction,
        &choice,
        &yard,
        gate,
        pass,
        workers,
        table,
    ) else {
        return Err(AllocError);
    };
    let graph = yard.close(pass);
    let _lawful = graph.abstraction();
    let _events = graph.journal();
    match graph.end() {
        Some(End::Quiet) => Ok(graph),
        Some(End::Budget) => Ok(graph),
        Some(End::Memory) | None => Err(AllocError),
    }
}
