//! The task of a domain and a problem in which all ground atoms have numbers.
ghost use Rattle.std.specs.Prelude.{◌≡◌, ◌≤◌, length, None, OnOk, IfOk, IfErr};
ghost use Rattle.pb_packed.specs.Sizes.{most_atoms};
ghost use Rattle.pb_task.specs.declared.grounding.Grounding.TheVariants.{All};
ghost use Rattle.pb_task.specs.declared.parts.TaskParts.TheVariants.{Strips};
ghost use Rattle.pb_strips.specs.Grounding.{strips_of};
ghost use Rattle.pb_lifted.specs.Lifted.{lifted_of};
ghost use Rattle.pb_lifted.specs.Refusals.{first_refusal};
ghost use Rattle.pb_lifted.specs.Typing.{IsWellTyped};
ghost use Rattle.pb_ground.specs.Atoms.{ground_atoms};
ghost use Rattle.pb_strips.specs.Refusals.{first_fault, Tells, TellsStop, IsNoFault, IsWithinLimits};

use crate::error::StripsError;
use crate::parts::{GroundTask, parts_of};
use pb_ground::{Atoms, Looks, ground_actions, ground_atoms, is_never};
use pb_lifted::{Lifted, resolve};
use pb_pddl::{Domain, Problem};
use pb_task::{Grounding, Task};
use std::alloc::Global;

// The task of a lifted task and its ground atoms.
fn task_by(
    alloc: Global,
    domain: &Domain,
    problem: &Problem,
    lifted: &Lifted,
    atoms: &Atoms,
    looks: &mut Looks,
) -> Result<Task, StripsError>
    requires resolved { first_refusal domain.now problem.now ≡ None }
    requires lifted { lifted.now ≡ lifted_of domain.now problem.now }
    requires atoms { atoms.now ≡ ground_atoms lifted.now }
    requires few { length (ground_atoms lifted.now) ≤ most_atoms }
    ensures accepted { OnOk result (first_fault domain.now problem.now ≡ None) }
    ensures task { IfOk result (λ task. task ≡ Strips (strips_of domain.now problem.now)) }
    ensures refused { IfErr result (Tells (first_fault domain.now problem.now)) }
    ensures stopped { IfErr result (TellsStop All domain.now problem.now looks.new) }
    ensures since { looks.new.since ≡ looks.old.since }
    ensures rising { looks.old.taken ≤ looks.new.taken }
{
    let actions = ground_actions(alloc, lifted, atoms, looks)?;
    let never = is_never(alloc, lifted)?;
    let ground = GroundTask {
        lifted,
        grounding: Grounding::All,
        atoms,
        actions: actions.as_slice(),
        never,
    };
    let parts = parts_of(alloc, domain, problem, &ground)?;
    Ok(Task::of_strips(parts))
}

fn task_of(
    alloc: Global,
    domain: &Domain,
    problem: &Problem,
    looks: &mut Looks,
) -> Result<Task, StripsError>
    ensures accepted { OnOk result (first_fault domain.now problem.now ≡ None) }
    ensures task { IfOk result (λ task. task ≡ Strips (strips_of domain.now problem.now)) }
    ensures refused { IfErr result (Tells (first_fault domain.now problem.now)) }
    ensures stopped { IfErr result (TellsStop All domain.now problem.now looks.new) }
    ensures since { looks.new.since ≡ looks.old.since }
    ensures rising { looks.old.taken ≤ looks.new.taken }
{
    // These calls are in the order of the faults: names and costs, then atoms, then actions.
    let lifted = resolve(alloc, domain, problem)?;
    let atoms = ground_atoms(alloc, &lifted)?;
    task_by(alloc, domain, problem, &lifted, &atoms, looks)
}

/// The task of a domain and a problem. Its atoms are the ground atoms in their order. Its actions
/// are the ground actions in theirs, under the names that plans print and at their costs.
///
/// Else the error is the first fault: a fault of a name, of a cost or of too many objects, then too
/// many atoms, then too many actions. Atoms are counted before any is built, and actions before any
/// is packed. `Memory` says nothing of the texts. `Stopped` comes if no look is left; it is in the
/// place of too many actions.
pub fn ground(
    alloc: Global,
    domain: &Domain,
    problem: &Problem,
    looks: &mut Looks,
) -> Result<Task, StripsError>
    // The domain and the problem are a task.
    ensures accepted { OnOk result (first_fault domain.now problem.now ≡ None) }
    // It is this task.
    ensures task { IfOk result (λ task. task ≡ Strips (strips_of domain.now problem.now)) }
    // The error is the first fault, unless memory or looks ran out.
    ensures refused { IfErr result (Tells (first_fault domain.now problem.now)) }
    // A well-typed task within the numbers of atoms and actions is never refused, unless memory or
    // looks run out.
    ensures never { IsWellTyped domain.now problem.now → IsWithinLimits domain.now problem.now
        → IfErr result IsNoFault }
    // A stop comes only if no look is left, and no fault comes before it.
    ensures stopped { IfErr result (TellsStop All domain.now problem.now looks.new) }
    // The looks that were taken stay taken, in the same count.
    ensures since { looks.new.since ≡ looks.old.since }
    ensures rising { looks.old.taken ≤ looks.new.taken }
{
    // A call of its own: `never` is proved from its clauses.
    task_of(alloc, domain, problem, looks)
}
