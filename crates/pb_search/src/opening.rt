//! The graph that a search begins with.
ghost use Rattle.std.specs.Prelude.{◌≡◌, IfOk, true, option_map, option_copied};
ghost use Rattle.std.specs.Arc.{arc_value};
ghost use Rattle.pb_machine.specs.Settings.{AreInRange};
ghost use Rattle.pb_estimate.specs.Estimates.{suits};
ghost use Rattle.pb_estimate.specs.Tables.{HasTable};
ghost use Rattle.pb_abstract.specs.Graph.{IsGraphOf};
ghost use Rattle.pb_search.specs.Searched.{Opens};

use pb_abstract::AbsGraph;
use pb_estimate::{Choice, Estimator};
use pb_lease::LeaseGraph;
use pb_machine::Settings;
use pb_pattern::Table;
use pb_task::Task;
use std::alloc::{AllocError, Global};
use std::sync::Arc;

/// The graph of a search that begins: the start alone has a row, with its estimate by the choice
/// and the table that the choice looks up. An error is out of memory.
pub fn opening(
    alloc: Global,
    task: &Arc<Task>,
    abstraction: &Arc<AbsGraph>,
    choice: Choice,
    table: Option<&Arc<Table>>,
    settings: Settings,
) -> Result<LeaseGraph, AllocError>
    requires of_task { IsGraphOf (arc_value task.now) (arc_value abstraction.now) }
    requires range { AreInRange settings }
    requires suits { suits (arc_value task.now) choice ≡ true }
    requires table { HasTable (arc_value task.now) choice
        (option_map arc_value (option_copied table)) }
    ensures { IfOk result (Opens (arc_value task.now) (arc_value abstraction.now) choice
        settings) }
{
    let start = task.initial();
    let mut estimator = Estimator::by(alloc, task, &choice, table)?;
    let estimate = estimator.estimate(task, &start);
    let shared_task = Arc::clone(task)?;
    let shared_abstraction = Arc::clone(abstraction)?;
    let graph = LeaseGraph::new(
        alloc,
        shared_task,
        shared_abstraction,
        choice,
        estimate,
        settings,
    )?;
    Ok(graph)
}
