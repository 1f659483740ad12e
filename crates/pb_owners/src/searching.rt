//! A search from a task, an estimate and settings to its end.
ghost use Rattle.std.specs.Prelude.{◌≡◌, ◌⊎◌, true, IfOk, option_copied};
ghost use Rattle.std.specs.Option.{option_map};
ghost use Rattle.std.specs.Arc.{arc_value};
ghost use Rattle.pb_machine.specs.declared.event.End.TheVariants.{Quiet, Budget};
ghost use Rattle.pb_machine.specs.Settings.{AreInRange};
ghost use Rattle.pb_task.specs.Parts.{IsTask};
ghost use Rattle.pb_estimate.specs.Estimates.{suits};
ghost use Rattle.pb_estimate.specs.Tables.{HasTable};
ghost use Rattle.pb_abstract.specs.Graph.{IsGraphOf};
ghost use Rattle.pb_owners.specs.Owners.{IsOpening};
ghost use Rattle.pb_owners.specs.Leaves.{LeavesOwners};

use crate::owners::Owners;
use crate::rounds::run_owners;
use pb_abstract::AbsGraph;
use pb_estimate::{Choice, Estimator};
use pb_machine::{End, Settings};
use pb_outside::Gate;
use pb_pattern::Table;
use pb_task::Task;
use std::alloc::{AllocError, Global};
use std::sync::{Arc, Wait};
use std::thread::Threads;

// The owners of a search that begins: the start alone has a row, with its estimate by the choice
// and the table that the choice looks up.
fn opening(
    alloc: Global,
    task: &Arc<Task>,
    abstraction: &Arc<AbsGraph>,
    choice: Choice,
    table: Option<&Arc<Table>>,
    settings: Settings,
) -> Result<Owners, AllocError>
    requires of_task { IsGraphOf (arc_value task.now) (arc_value abstraction.now) }
    requires range { AreInRange settings }
    requires suits { suits (arc_value task.now) choice ≡ true }
    requires table { HasTable (arc_value task.now) choice
        (option_map arc_value (option_copied table)) }
    ensures lawful { IsTask (arc_value task.now) }
    ensures task { IfOk result (λ owners. owners.task ≡ arc_value task.now) }
    ensures abstraction { IfOk result (λ owners. owners.abstraction ≡ arc_value abstraction.now) }
    ensures choice { IfOk result (λ owners. owners.choice ≡ choice) }
    ensures settings { IfOk result (λ owners. owners.settings ≡ settings) }
    ensures opening { IfOk result IsOpening }
{
    let start = task.initial();
    let mut estimator = Estimator::by(alloc, task, &choice, table)?;
    let estimate = estimator.estimate(task, &start);
    let shared_task = Arc::clone(task)?;
    let shared_abstraction = Arc::clone(abstraction)?;
    Owners::new(
        alloc,
        shared_task,
        shared_abstraction,
        choice,
        estimate,
        settings,
    )
}

/// Searches a task by owners, by this choice of an estimate and with these settings, in a thread for
/// each owner that has work. The result is how the search ended, and the owners with their rows. The
/// blocks are the finest that are no more than the settings wish for. The table of a pattern is made
/// once, and all owners share it, as they share tables. The gate is called as by `run_owners`. An error means out of memory.
pub fn search_by_owners<R: Threads + Wait + Sync, G: Gate>(
    rt: &R,
    alloc: Global,
    task: &Arc<Task>,
    choice: Choice,
    settings: Settings,
    gate: &G,
) -> Result<(End, Owners), AllocError>
    requires range { AreInRange settings }
    requires suits { suits (arc_value task.now) choice ≡ true }
    ensures left { IfOk result (λ r. LeavesOwners (arc_value task.now) choice settings r.0 r.1) }
    ensures ended { IfOk result (λ r. (r.0 ≡ Quiet) ⊎ (r.0 ≡ Budget)) }
{
    let abstraction = Arc::new(alloc, AbsGraph::of(alloc, task, settings.wish)?)?;
    let made = choice.table(alloc, task)?;
    let table = made.as_ref();
    let mut owners = opening(alloc, task, &abstraction, choice, table, settings)?;
    let end = run_owners(rt, alloc, task, &abstraction, &mut owners, gate, table)?;
    Ok((end, owners))
}
