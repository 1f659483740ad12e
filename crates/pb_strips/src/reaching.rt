//! The task of a domain and a problem in which only what is reached has a number.
ghost use Rattle.std.specs.Prelude.{◌≡◌, ◌≤◌, length, None, OnOk, IfOk, IfErr};
ghost use Rattle.pb_packed.specs.Sizes.{most_atoms};
ghost use Rattle.pb_task.specs.declared.grounding.Grounding.TheVariants.{Reachable};
ghost use Rattle.pb_task.specs.declared.parts.TaskParts.TheVariants.{Strips};
ghost use Rattle.pb_lifted.specs.Lifted.{lifted_of};
ghost use Rattle.pb_lifted.specs.Refusals.{first_refusal};
ghost use Rattle.pb_lifted.specs.Typing.{IsWellTyped};
ghost use Rattle.pb_ground.specs.Actions.{kept_actions, kept_never};
ghost use Rattle.pb_ground.specs.Keeping.{AreKept};
ghost use Rattle.pb_reach.specs.Limits.{IsWithin};
ghost use Rattle.pb_reach.specs.Rounds.{is_reached};
ghost use Rattle.pb_strips.specs.Grounding.{reached_strips};
ghost use Rattle.pb_strips.specs.Refusals.{TellsReached, TellsStop, IsNoFault};

use crate::error::StripsError;
use crate::parts::{GroundTask, parts_of};
use pb_ground::Looks;
use pb_lifted::{Lifted, resolve};
use pb_pddl::{Domain, Problem};
use pb_reach::{Reached, reach};
use pb_task::{Grounding, Task};
use std::alloc::{AllocError, Global};

// The task of a lifted task and what it reaches.
fn task_by(
    alloc: Global,
    domain: &Domain,
    problem: &Problem,
    lifted: &Lifted,
    reached: &Reached,
) -> Result<Task, AllocError>
    requires resolved { first_refusal domain.now problem.now ≡ None }
    requires lifted { lifted.now ≡ lifted_of domain.now problem.now }
    requires atoms { AreKept lifted.now (is_reached lifted.now) reached.now.atoms }
    requires few { length reached.now.atoms ≤ most_atoms }
    requires actions { reached.now.actions
        ≡ kept_actions lifted.now (is_reached lifted.now) reached.now.atoms }
    requires few_actions { length reached.now.actions ≤ 65536 }
    requires never { reached.now.never ≡ kept_never lifted.now (is_reached lifted.now) }
    ensures { IfOk result (λ task. task ≡ Strips (reached_strips domain.now problem.now)) }
{
    let ground = GroundTask {
        lifted,
        grounding: Grounding::Reachable,
        atoms: &reached.atoms,
        actions: reached.actions.as_slice(),
        never: reached.never,
    };
    let parts = parts_of(alloc, domain, problem, &ground)?;
    Ok(Task::of_strips(parts))
}

fn task_of(
    alloc: Global,
    domain: &Domain,
    problem: &Problem,
    looks: &mut Looks,
) -> Result<Task, StripsError>
    ensures accepted { OnOk result (first_refusal domain.now problem.now ≡ None) }
    ensures within { OnOk result (IsWithin (lifted_of domain.now problem.now)) }
    ensures task { IfOk result (λ task. task ≡ Strips (reached_strips domain.now problem.now)) }
    ensures refused { IfErr result (TellsReached domain.now problem.now) }
    ensures stopped { IfErr result (TellsStop Reachable domain.now problem.now looks.new) }
    ensures since { looks.new.since ≡ looks.old.since }
    ensures rising { looks.old.taken ≤ looks.new.taken }
{
    // These calls are in the order of the faults: names and costs first, then rounds.
    let lifted = resolve(alloc, domain, problem)?;
    let reached = reach(alloc, &lifted, looks)?;
    let task = task_by(alloc, domain, problem, &lifted, &reached)?;
    Ok(task)
}

/// The task of a domain and a problem in which only what is reached has a number. Its atoms are the
/// ground atoms that the delete relaxation reaches, in their order. Its actions are the ground
/// actions whose preconditions are all reached, in theirs. What isn't reached never holds, so an
/// action that deletes it leaves it out, and with it in the goal there is no goal state.
///
/// Else the error is the first fault: a fault of a name, of a cost or of too many objects, then the
/// first round with too many actions, or too many atoms after it. `Memory` says nothing of the
/// texts. `Stopped` comes if no look is left, in whichever round.
pub fn ground_reached(
    alloc: Global,
    domain: &Domain,
    problem: &Problem,
    looks: &mut Looks,
) -> Result<Task, StripsError>
    // Nothing of the domain and the problem is refused.
    ensures accepted { OnOk result (first_refusal domain.now problem.now ≡ None) }
    // No round has too many actions or atoms.
    ensures within { OnOk result (IsWithin (lifted_of domain.now problem.now)) }
    // It is this task.
    ensures task { IfOk result (λ task. task ≡ Strips (reached_strips domain.now problem.now)) }
    // The error is the first fault, unless memory or looks ran out.
    ensures refused { IfErr result (TellsReached domain.now problem.now) }
    // A well-typed task within the limits is never refused, unless memory or looks run out.
    ensures never { IsWellTyped domain.now problem.now
        → IsWithin (lifted_of domain.now problem.now) → IfErr result IsNoFault }
    // A stop comes only if no look is left, and no fault comes before it.
    ensures stopped { IfErr result (TellsStop Reachable domain.now problem.now looks.new) }
    // The looks that were taken stay taken, in the same count.
    ensures since { looks.new.since ≡ looks.old.since }
    ensures rising { looks.old.taken ≤ looks.new.taken }
{
    // A call of its own: `never` is proved from its clauses.
    task_of(alloc, domain, problem, looks)
}
