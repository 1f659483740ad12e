//! The task of a domain and a problem by the grounding that is asked for.
ghost use Rattle.std.specs.Prelude.{◌≡◌, ◌≤◌, None, OnOk, IfOk, IfErr};
ghost use Rattle.pb_task.specs.declared.grounding.Grounding.TheVariants.{Reachable};
ghost use Rattle.pb_task.specs.declared.parts.TaskParts.TheVariants.{Strips};
ghost use Rattle.pb_lifted.specs.Typing.{IsWellTyped};
ghost use Rattle.pb_strips.specs.Grounding.{strips_with};
ghost use Rattle.pb_strips.specs.Refusals.{fault_with, IsNoFault, IsWithinLimitsWith, Tells, TellsStop};

use crate::error::StripsError;
use crate::grounding::ground;
use crate::reaching::ground_reached;
use pb_ground::Looks;
use pb_pddl::{Domain, Problem};
use pb_task::{Grounding, Task};
use std::alloc::Global;

// `ground_reached`, by the definitions that take the grounding.
fn reached(
    alloc: Global,
    domain: &Domain,
    problem: &Problem,
    looks: &mut Looks,
) -> Result<Task, StripsError>
    ensures accepted { OnOk result (fault_with Reachable domain.now problem.now ≡ None) }
    ensures task { IfOk result (λ task. task
        ≡ Strips (strips_with Reachable domain.now problem.now)) }
    ensures refused { IfErr result (Tells (fault_with Reachable domain.now problem.now)) }
    ensures never { IsWellTyped domain.now problem.now
        → IsWithinLimitsWith Reachable domain.now problem.now → IfErr result IsNoFault }
    ensures stopped { IfErr result (TellsStop Reachable domain.now problem.now looks.new) }
    ensures since { looks.new.since ≡ looks.old.since }
    ensures rising { looks.old.taken ≤ looks.new.taken }
{
    ground_reached(alloc, domain, problem, looks)
}

/// The task of a domain and a problem of this grounding: that of `ground` or of `ground_reached`.
/// Else the error is the first fault, in the order of that call. `Memory` says nothing of the texts.
/// `Stopped` comes if no look is left; it is in the place of the faults of actions and of rounds.
pub fn ground_with(
    alloc: Global,
    grounding: Grounding,
    domain: &Domain,
    problem: &Problem,
    looks: &mut Looks,
) -> Result<Task, StripsError>
    // The domain and the problem are a task of this grounding.
    ensures accepted { OnOk result (fault_with grounding domain.now problem.now ≡ None) }
    // It is this task.
    ensures task { IfOk result (λ task. task
        ≡ Strips (strips_with grounding domain.now problem.now)) }
    // The error is the first fault, unless memory or looks ran out.
    ensures refused { IfErr result (Tells (fault_with grounding domain.now problem.now)) }
    // A well-typed task within the limits is never refused, unless memory or looks run out.
    ensures never { IsWellTyped domain.now problem.now
        → IsWithinLimitsWith grounding domain.now problem.now → IfErr result IsNoFault }
    // A stop comes only if no look is left, and no fault comes before it.
    ensures stopped { IfErr result (TellsStop grounding domain.now problem.now looks.new) }
    // The looks that were taken stay taken, in the same count.
    ensures since { looks.new.since ≡ looks.old.since }
    ensures rising { looks.old.taken ≤ looks.new.taken }
{
    match grounding {
        Grounding::All => ground(alloc, domain, problem, looks),
        Grounding::Reachable => reached(alloc, domain, problem, looks),
    }
}
