//! The names of ground actions, as plans print them.
ghost use Rattle.std.specs.Prelude.{◌≡◌, ◌++◌, map, option_copied, slice_get, OnOk, IfOk};
ghost use Rattle.pb_lifted.specs.Objects.{objects_of};
ghost use Rattle.pb_lifted.specs.Facts.{name_at};
ghost use Rattle.pb_lifted.specs.Typing.{object_names, named};
ghost use Rattle.pb_strips.specs.Names.{action_word, spaced, action_text};

use pb_pddl::{Domain, Problem, Typed};
use pb_task::ActionName;
use std::alloc::{AllocError, Global};

// The element at a place, or None after the end.
fn item<T>(items: &[T], place: usize) -> Option<&T>
    ensures { option_copied result ≡ slice_get items.now place }
{
    items.get(place)
}

// The object of a number: the constants come first. None after the last.
fn object<'a>(domain: &'a Domain, problem: &'a Problem, i: usize) -> Option<&'a Typed>
    ensures { option_copied result ≡ slice_get (objects_of domain.now problem.now) i }
{
    let constants = domain.constants.as_slice();
    if i < constants.len() {
        item(constants, i)
    } else {
        item(problem.objects.as_slice(), i - constants.len())
    }
}

// The name of an action of the domain, or no bytes after the last.
#[tactic(auto, using(crate::proofs::Words::some_name, crate::proofs::Words::no_name))]
fn action_word(domain: &Domain, i: usize) -> &[u8]
    ensures { result.now ≡ name_at (map action_word domain.now.actions) i }
{
    match item(domain.actions.as_slice(), i) {
        Some(action) => action.name.text.as_slice(),
        None => &[],
    }
}

// The name of an object, or no bytes after the last.
#[tactic(auto, using(crate::proofs::Words::some_name, crate::proofs::Words::no_name))]
fn object_word<'a>(domain: &'a Domain, problem: &'a Problem, i: usize) -> &'a [u8]
    ensures { result.now ≡ name_at (object_names domain.now problem.now) i }
{
    match object(domain, problem, i) {
        Some(object) => object.name.text.as_slice(),
        None => &[],
    }
}

// Adds the names of objects, each with a space before it.
fn add_objects(
    domain: &Domain,
    problem: &Problem,
    objects: &[usize],
    bytes: &mut Vec<u8>,
) -> Result<(), AllocError>
    ensures { OnOk result (bytes.new.items ≡ bytes.old.items
        ++ spaced (named domain.now problem.now objects.now)) }
{
    for object in objects {
        bytes.push(b' ')?;
        bytes.extend_from_slice(object_word(domain, problem, *object))?;
    }
    Ok(())
}

/// The name in a plan of an action of these objects.
pub(crate) fn name_of(
    alloc: Global,
    domain: &Domain,
    problem: &Problem,
    schema: usize,
    objects: &[usize],
) -> Result<ActionName, AllocError>
    ensures { IfOk result (λ name. name ≡ action_text domain.now
        (schema, named domain.now problem.now objects.now)) }
{
    let mut bytes = Vec::new(alloc);
    bytes.push(b'(')?;
    bytes.extend_from_slice(action_word(domain, schema))?;
    add_objects(domain, problem, objects, &mut bytes)?;
    bytes.push(b')')?;
    // The names of a tree are any bytes; those of a text that was read are ASCII.
    let text = String::from_utf8_lossy(alloc, bytes.as_slice())?;
    Ok(ActionName::of(text))
}
