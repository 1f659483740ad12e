//! The search of one worker.
ghost use Rattle.std.specs.Prelude.{◌≡◌, IfOk, option_map, option_copied};
ghost use Rattle.std.specs.Arc.{arc_value};
ghost use Rattle.pb_estimate.specs.Tables.{HasTable};
ghost use Rattle.pb_lease.specs.Begins.{IsFirstMoment};
ghost use Rattle.pb_search.specs.Searched.{HasRun};

use pb_abstract::AbsGraph;
use pb_lease::LeaseGraph;
use pb_outside::Gate;
use pb_pattern::Table;
use pb_task::Task;
use pb_workers::run_alone;
use std::alloc::{AllocError, Global};
use std::sync::Arc;

/// Searches with one worker, who waits for nobody, by the table that the estimate looks up. An error
/// is out of memory.
pub fn search_alone<G: Gate>(
    alloc: Global,
    task: &Task,
    abstraction: &AbsGraph,
    opening: LeaseGraph,
    gate: &G,
    table: Option<&Arc<Table>>,
) -> Result<LeaseGraph, AllocError>
    requires task { opening.task ≡ task.now }
    requires abstraction { opening.table.abstraction ≡ abstraction.now }
    requires begin { IsFirstMoment opening }
    requires alone { opening.table.settings.workers ≡ 1 }
    requires table { HasTable task.now opening.choice
        (option_map arc_value (option_copied table)) }
    ensures { IfOk result (HasRun opening) }
{
    let mut graph = opening;
    // The call shows that no lease has room in the journal yet.
    let _begins = graph.abstraction();
    run_alone(alloc, task, abstraction, &mut graph, gate, table)?;
    let _lawful = graph.abstraction();
    let _events = graph.journal();
    Ok(graph)
}
