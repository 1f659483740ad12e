//! A search from a task, an estimate and settings to its end.
ghost use Rattle.std.specs.Prelude.{◌≡◌, ◌<◌, ◌⊎◌, IfOk, IsTrue, true, Some};
ghost use Rattle.std.specs.Arc.{arc_value};
ghost use Rattle.pb_machine.specs.declared.event.End.TheVariants.{Quiet, Budget};
ghost use Rattle.pb_machine.specs.Settings.{AreInRange};
ghost use Rattle.pb_estimate.specs.Estimates.{suits};
ghost use Rattle.pb_abstract.specs.Projection.{IsFinest};
ghost use Rattle.pb_abstract.specs.Graph.{IsGraphOf};
ghost use Rattle.pb_lease.specs.Tables.{no_past};
ghost use Rattle.pb_lease.specs.Begins.{FitsWord};
ghost use Rattle.pb_search.specs.Ends.{IsBestOf, EndsQuietly, StopsWith, IsLeftBySearch, MarksNothing};

use crate::alone::search_alone;
use crate::opening::opening;
use crate::together::search_together;
use pb_abstract::AbsGraph;
use pb_estimate::Choice;
use pb_lease::LeaseGraph;
use pb_machine::Settings;
use pb_outside::Gate;
use pb_task::Task;
use std::alloc::{AllocError, Global};
use std::sync::{Arc, Wait};
use std::thread::Threads;

/// Searches a task by leases, by this choice of an estimate and with these settings, and hands back
/// the graph at the search's end.
/// Every lease came back, and every worker signed off. Its blocks are the finest that are no more
/// than the settings wish for. The table of a pattern is made once, and all workers share it, as
/// they share tables. One worker searches alone and waits for nobody; several share a yard, each in a thread
/// of its own. The gate is told of each lease, and each time before one is renewed or comes back. An
/// error is out of memory.
pub fn search<R: Threads + Wait + Sync, G: Gate>(
    rt: &R,
    alloc: Global,
    task: &Arc<Task>,
    choice: Choice,
    settings: Settings,
    gate: &G,
) -> Result<LeaseGraph, AllocError>
    requires range { AreInRange settings }
    requires suits { suits (arc_value task.now) choice ≡ true }

    // What was searched, by which blocks, and with what.
    ensures task { IfOk result (λ graph. graph.task ≡ arc_value task.now) }
    ensures blocks { IfOk result (λ graph. IsGraphOf (arc_value task.now) graph.table.abstraction) }
    ensures finest { IfOk result (λ graph.
        IsFinest (arc_value task.now) settings.wish graph.table.abstraction.projection) }
    ensures settings { IfOk result (λ graph. graph.table.settings ≡ settings) }
    ensures choice { IfOk result (λ graph. graph.choice ≡ choice) }
    ensures past { IfOk result (λ graph. graph.table.past ≡ no_past) }

    // How it ended, and what the rows are then.
    ensures ended { IfOk result (λ graph.
        (graph.table.end ≡ Some Quiet) ⊎ (graph.table.end ≡ Some Budget)) }
    ensures quiet { IfOk result (λ graph. graph.table.end ≡ Some Quiet
        → IsBestOf (arc_value task.now) choice settings graph) }

    // The journal is that of a search that ended this way.
    ensures quiet_run { IfOk result (λ graph. graph.table.end ≡ Some Quiet
        → EndsQuietly (arc_value task.now) choice settings graph.table.journal graph) }
    ensures budget { IfOk result (λ graph. graph.table.end ≡ Some Budget
        → StopsWith (arc_value task.now) choice settings graph.table.journal) }
    ensures plain { IfOk result (λ graph. IsTrue settings.plain
        → MarksNothing graph.table.journal) }

    // What another run needs that goes on with the graph, once it was opened again.
    ensures left { IfOk result (IsLeftBySearch (arc_value task.now) choice settings) }
    ensures fits { IfOk result (λ graph. 1 < settings.workers → FitsWord graph.incumbent) }
{
    let abstraction = Arc::new(alloc, AbsGraph::of(alloc, task, settings.wish)?)?;
    let _few = abstraction.count();
    let made = choice.table(alloc, task)?;
    let table = made.as_ref();
    let graph = opening(alloc, task, &abstraction, choice, table, settings)?;
    if settings.workers == 1 {
        search_alone(alloc, task, &abstraction, graph, gate, table)
    } else {
        search_together(rt, alloc, task, &abstraction, graph, gate, table)
    }
}
