//! The numbers of the atoms of `:init`, of the goal and of instances, and whether a static atom
//! is missing.
ghost use Rattle.std.specs.Prelude.{◌≡◌, [], ℕ, List, true, not, nat_eq, map, IfOk, OnOk};
ghost use Rattle.std.specs.List.{list_any};
ghost use Rattle.pb_lifted.specs.Facts.{value_of};
ghost use Rattle.pb_ground.specs.Actions.{with_number, numbers_of, is_never};
ghost use Rattle.pb_ground.specs.Atoms.{grounded, number_in};
ghost use Rattle.pb_ground.specs.Pruning.{AreFluent};
ghost use Rattle.pb_ground.specs.Statics.{statics_hold};

use crate::atoms::Atoms;
use crate::statics::{Statics, fluent_of, statics_hold, value_of};
use pb_lifted::{Argument, Lifted, LiftedAtom};
use pb_pddl::Listed;
use std::alloc::{AllocError, Global};
use std::collections::BTreeSet;

// The objects that arguments mean, if these objects are given to the parameters.
fn values_of(
    alloc: Global,
    given: &[usize],
    arguments: &[Argument],
) -> Result<Listed<usize>, AllocError>
    ensures { IfOk result (λ values. values ≡ map (λ a. value_of given.now a) arguments.now) }
{
    let mut values = Listed::new(alloc);
    for argument in arguments {
        values.push(value_of(given, *argument))?;
    }
    Ok(values)
}

// The number of what an atom of a schema becomes, or None if that is no ground atom.
fn number_of(
    alloc: Global,
    atoms: &Atoms,
    given: &[usize],
    atom: &LiftedAtom,
) -> Result<Option<usize>, AllocError>
    ensures { IfOk result (λ number. number ≡ number_in (grounded given.now atom.now) atoms.now) }
{
    let objects = values_of(alloc, given, atom.arguments.as_slice())?;
    Ok(atoms.number(atom.predicate, objects.as_slice()))
}

// Whether a number is one of these.
fn is_among(number: usize, numbers: &[usize]) -> bool
    ensures { result ≡ list_any (nat_eq number) numbers.now }
{
    for n in numbers {
        if number == *n {
            return true;
        }
    }
    false
}

// Adds a number, unless it is there, so that a list never gets longer than there are atoms. The
// call fails if memory runs out.
fn add_number(numbers: &mut Listed<usize>, number: usize) -> Result<(), AllocError>
    ensures { OnOk result (numbers.new ≡ with_number numbers.old number) }
{
    if !is_among(number, numbers.as_slice()) {
        numbers.push(number)?;
    }
    Ok(())
}

/// The numbers of those of a schema's atoms that are ground atoms, each once. The call fails if
/// memory runs out.
pub(crate) fn numbers_of(
    alloc: Global,
    atoms: &Atoms,
    given: &[usize],
    list: &[LiftedAtom],
) -> Result<Listed<usize>, AllocError>
    ensures { IfOk result (λ numbers. numbers ≡ numbers_of atoms.now given.now list.now) }
{
    let mut numbers = Listed::new(alloc);
    for atom in list {
        if let Some(number) = number_of(alloc, atoms, given, atom)? {
            add_number(&mut numbers, number)?;
        }
    }
    Ok(numbers)
}

/// The numbers of the ground atoms that hold at first, each once, in order of the text. The call
/// fails if memory runs out.
pub fn start(alloc: Global, lifted: &Lifted, atoms: &Atoms) -> Result<Listed<usize>, AllocError>
    ensures { IfOk result (λ numbers. numbers ≡ numbers_of atoms.now [] lifted.now.init) }
{
    numbers_of(alloc, atoms, &[], lifted.init.as_slice())
}

/// The numbers of the ground atoms of the goal, each once, in order of the text. The call fails if
/// memory runs out.
pub fn goal(alloc: Global, lifted: &Lifted, atoms: &Atoms) -> Result<Listed<usize>, AllocError>
    ensures { IfOk result (λ numbers. numbers ≡ numbers_of atoms.now [] lifted.now.goal) }
{
    numbers_of(alloc, atoms, &[], lifted.goal.as_slice())
}

// Whether the predicates of some atoms are all fluent.
fn all_fluent(fluent: &BTreeSet<usize>, lifted: &Lifted, atoms: &[LiftedAtom]) -> bool
    requires { AreFluent fluent.now lifted.now }
    ensures { result ≡ true → (given : List ℕ) → statics_hold lifted.now atoms.now given ≡ true }
{
    for atom in atoms {
        if !fluent.contains(&atom.predicate) {
            return false;
        }
    }
    true
}

/// Whether one of these atoms without parameters has a static predicate and does not hold at first
/// in a task. The call fails if memory runs out.
pub fn is_missing(alloc: Global, task: &Lifted, atoms: &[LiftedAtom]) -> Result<bool, AllocError>
    ensures { IfOk result (λ missing. missing ≡ not (statics_hold task.now atoms.now [])) }
{
    let fluent = fluent_of(alloc, task.actions.as_slice())?;
    // Without a static atom the atoms of `:init` need not be gathered.
    if all_fluent(&fluent, task, atoms) {
        return Ok(false);
    }
    let statics = Statics::of(alloc, task)?;
    let holds = statics_hold(&statics, task, atoms, &[])?;
    Ok(!holds)
}

/// Whether no state is a goal state, since a static atom of the goal does not hold at first. The
/// call fails if memory runs out.
pub fn is_never(alloc: Global, lifted: &Lifted) -> Result<bool, AllocError>
    ensures { IfOk result (λ never. never ≡ is_never lifted.now) }
{
    is_missing(alloc, lifted, lifted.goal.as_slice())
}
