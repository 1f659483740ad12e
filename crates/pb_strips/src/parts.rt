//! Packing ground atoms and actions into the parts of a STRIPS task.
ghost use Rattle.std.specs.Prelude.{◌≡◌, ◌≤◌, ℕ, All, map, length, IfOk};
ghost use Rattle.pb_packed.specs.Sizes.{most_atoms};
ghost use Rattle.pb_lifted.specs.Lifted.{lifted_of};
ghost use Rattle.pb_ground.specs.Actions.{kept_actions, kept_never};
ghost use Rattle.pb_ground.specs.Steps.{Facts};
ghost use Rattle.pb_strips.specs.Grounding.{packed_action, strips_by};
ghost use Rattle.pb_strips.specs.Packing.{HasAtoms};

use crate::names::name_of;
use crate::sets::set_of;
use pb_ground::{ActionInstance, Atoms, goal, start};
use pb_lifted::Lifted;
use pb_pddl::{Domain, Problem};
use pb_task::{Actions, Grounding, StripsParts};
use std::alloc::{AllocError, Global};

// A ground action with its name and its sets.
fn packed_action(
    alloc: Global,
    domain: &Domain,
    problem: &Problem,
    action: &ActionInstance,
) -> Result<pb_task::GroundAction, AllocError>
    requires { HasAtoms most_atoms action.now }
    ensures { IfOk result (λ packed. (count : ℕ) → count ≤ most_atoms
        → HasAtoms count action.now
        → packed ≡ packed_action domain.now problem.now count action.now) }
{
    let name = name_of(
        alloc,
        domain,
        problem,
        action.schema,
        action.objects.as_slice(),
    )?;
    Ok(pb_task::GroundAction {
        name,
        needs: set_of(action.needs.as_slice()),
        adds: set_of(action.adds.as_slice()),
        deletes: set_of(action.deletes.as_slice()),
        cost: action.cost,
    })
}

// The ground actions with their names and their sets.
fn packed_actions(
    alloc: Global,
    domain: &Domain,
    problem: &Problem,
    actions: &[ActionInstance],
) -> Result<Actions, AllocError>
    requires { All (HasAtoms most_atoms) actions.now }
    ensures { IfOk result (λ all. (count : ℕ) → count ≤ most_atoms
        → All (HasAtoms count) actions.now
        → all ≡ map (packed_action domain.now problem.now count) actions.now) }
{
    let mut all = Actions::new(alloc);
    for action in actions {
        all = all.with(packed_action(alloc, domain, problem, action)?)?;
    }
    Ok(all)
}

/// A lifted task that is grounded.
#[derive(Clone, Copy)]
pub(crate) struct GroundTask<'a> {
    /// The task before it is grounded.
    pub(crate) lifted: &'a Lifted,
    /// By which rule there are these atoms and actions.
    pub(crate) grounding: Grounding,
    /// The atoms that have numbers.
    pub(crate) atoms: &'a Atoms,
    /// The ground actions.
    pub(crate) actions: &'a [ActionInstance],
    /// Whether it has no goal state, whichever of the atoms hold.
    pub(crate) never: bool,
}

/// The task of a domain and a problem, from its ground task: whichever atoms these are the task for.
pub(crate) fn parts_of(
    alloc: Global,
    domain: &Domain,
    problem: &Problem,
    task: &GroundTask,
) -> Result<StripsParts, AllocError>
    requires lifted { task.now.lifted.now ≡ lifted_of domain.now problem.now }
    requires few { length task.now.atoms.now ≤ most_atoms }
    requires actions { All (HasAtoms most_atoms) task.now.actions.now }
    ensures { IfOk result (λ parts. (kept : Facts)
        → task.now.actions.now ≡ kept_actions task.now.lifted.now kept task.now.atoms.now
        → task.now.never ≡ kept_never task.now.lifted.now kept
        → parts ≡ strips_by domain.now problem.now task.now.grounding kept task.now.atoms.now) }
{
    let first = start(alloc, task.lifted, task.atoms)?;
    let wanted = goal(alloc, task.lifted, task.atoms)?;
    let actions = packed_actions(alloc, domain, problem, task.actions)?;
    Ok(StripsParts {
        // Nothing is cut off: by `few` there are at most `MOST_ATOMS`.
        atoms: task.atoms.as_slice().len() as u32,
        actions,
        start: set_of(first.as_slice()),
        goal: set_of(wanted.as_slice()),
        never: task.never,
        grounding: task.grounding,
    })
}
