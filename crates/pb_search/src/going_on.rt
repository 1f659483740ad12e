//! A run that goes on with the rows of an earlier one.
ghost use Rattle.std.specs.Prelude.{◌≡◌, ◌<◌, ◌⊎◌, IfOk, IsFalse, Some, option_map, option_copied};
ghost use Rattle.std.specs.Arc.{arc_value};
ghost use Rattle.pb_machine.specs.declared.event.End.TheVariants.{Quiet, Budget};
ghost use Rattle.pb_estimate.specs.Tables.{HasTable};
ghost use Rattle.pb_lease.specs.Choices.{is_out_in};
ghost use Rattle.pb_lease.specs.Begins.{IsOfRun, FitsWord, IsFirstMoment};
ghost use Rattle.pb_workers.specs.Ends.{IsBestEnd};
ghost use Rattle.pb_search.specs.Ends.{HasSmallCosts, IsLeftByRun};

use crate::alone::search_alone;
use crate::together::search_together;
use pb_lease::LeaseGraph;
use pb_outside::Gate;
use pb_pattern::Table;
use pb_task::Task;
use std::alloc::{AllocError, Global};
use std::sync::{Arc, Wait};
use std::thread::Threads;

/// Searches on with a graph that was opened again, and hands it back at the end of this run. The run
/// has the graph's settings, and what the earlier runs left of the budget. The workers share the
/// table that the estimate looks up, if it looks up any. The gate is told as in `search`. An error is
/// out of memory.
pub fn search_on<R: Threads + Wait + Sync, G: Gate>(
    rt: &R,
    alloc: Global,
    task: &Arc<Task>,
    graph: LeaseGraph,
    gate: &G,
    table: Option<&Arc<Table>>,
) -> Result<LeaseGraph, AllocError>
    requires task { graph.task ≡ arc_value task.now }
    requires begin { IsFirstMoment graph }
    requires fits { 1 < graph.table.settings.workers → FitsWord graph.incumbent }
    requires table { HasTable (arc_value task.now) graph.choice
        (option_map arc_value (option_copied table)) }

    // It is the same search, with the same runs before.
    ensures of_run { IfOk result (IsOfRun graph) }

    // How it ended, and what the rows are then.
    ensures ended { IfOk result (λ last.
        (last.table.end ≡ Some Quiet) ⊎ (last.table.end ≡ Some Budget)) }
    ensures home { IfOk result (λ last. IsFalse (is_out_in last)) }
    ensures quiet { IfOk result (λ last. last.table.end ≡ Some Quiet
        → IsBestEnd last × HasSmallCosts last) }

    // The run that led there, with one budget for it and the earlier ones.
    ensures left { IfOk result (IsLeftByRun graph) }

    // What a further run needs.
    ensures fits { IfOk result (λ last. 1 < graph.table.settings.workers
        → FitsWord last.incumbent) }
{
    let abstraction = graph.shared_abstraction()?;
    let _lawful = graph.abstraction();
    if graph.settings().workers == 1 {
        search_alone(alloc, task, &abstraction, graph, gate, table)
    } else {
        search_together(rt, alloc, task, &abstraction, graph, gate, table)
    }
}
