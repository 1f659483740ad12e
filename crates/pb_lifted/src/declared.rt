//! What is declared under a name, and entering these names, with the first that is there twice.
ghost use Rattle.std.specs.Prelude.{◌≡◌, [], ◌++◌, map, OnOk, IfOk};
ghost use Rattle.pb_lifted.specs.Names.{fault_if, repeated, earliest};
ghost use Rattle.pb_lifted.specs.Types.{declared_types, kinds_of, is_idle, is_object, kind_text};
ghost use Rattle.pb_lifted.specs.Refusals.{typed_name};

use crate::names::Names;
use pb_pddl::{Action, Name, Predicate, Typed};
use std::alloc::{AllocError, Global};

/// What is declared under a name.
pub(crate) trait Declared {
    ghost use Rattle.pb_pddl.specs.declared.tree.Name.{Name};

    /// Its name.
    ghost name_of: { Self → Name };

    /// Its name, lent.
    fn name(&self) -> &Name
        ensures { result.now ≡ name_of self.now };
}

impl Declared for Typed {
    ghost name_of = { λ t. t.name };

    fn name(&self) -> &Name {
        &self.name
    }
}

impl Declared for Predicate {
    ghost name_of = { λ p. p.name };

    fn name(&self) -> &Name {
        &self.name
    }
}

impl Declared for Action {
    ghost name_of = { λ a. a.name };

    fn name(&self) -> &Name {
        &self.name
    }
}

/// The earlier of the first place and this one, if there is a fault.
pub(crate) fn note(first: Option<u64>, fault: bool, at: u64) -> Option<u64>
    ensures { result ≡ earliest first (fault_if fault at) }
{
    if !fault {
        return first;
    }
    match first {
        Some(place) => Some(place.min(at)),
        None => Some(at),
    }
}

/// Whether the text is `object`.
pub(crate) fn is_object(text: &[u8]) -> bool
    ensures { result ≡ is_object text.now }
{
    text == b"object".as_slice()
}

/// The type after the `-`, or `object`.
pub(crate) fn kind_text(typed: &Typed) -> &[u8]
    ensures { result.now ≡ kind_text typed.now }
{
    match &typed.kind {
        Some(kind) => kind.text.as_slice(),
        None => b"object",
    }
}

/// Whether an entry of the types says only that `object` is a type.
pub(crate) fn is_idle(typed: &Typed) -> bool
    ensures { result ≡ is_idle typed.now }
{
    is_object(typed.name.text.as_slice()) && is_object(kind_text(typed))
}

/// Adds the names of what is declared, and finds the earlier of the first place and that of a name
/// that was there before.
#[tactic(auto, using(crate::proofs::Earliest::earliest_append))]
pub(crate) fn enter_all<T: Declared>(
    names: &mut Names,
    items: &[T],
    first: Option<u64>,
) -> Result<Option<u64>, AllocError>
    ensures added { OnOk result (names.new ≡ names.old ++ map (λ i. (T.name_of i).text) items.now) }
    ensures twice { IfOk result (λ found. found ≡ earliest first
        (repeated names.old (map T.name_of items.now))) }
{
    let mut found = first;
    for item in items {
        let name = item.name();
        let fresh = names.enter(&name.text)?;
        found = note(found, !fresh, name.at);
    }
    Ok(found)
}

/// The names of what is declared, and the earlier of the first place and that of a name that is
/// there twice.
pub(crate) fn names_of<T: Declared>(
    alloc: Global,
    items: &[T],
    first: Option<u64>,
) -> Result<(Names, Option<u64>), AllocError>
    ensures names { IfOk result (λ r. r.0 ≡ map (λ i. (T.name_of i).text) items.now) }
    ensures twice { IfOk result (λ r. r.1 ≡ earliest first
        (repeated [] (map T.name_of items.now))) }
{
    let mut names = Names::new(alloc);
    let found = enter_all(&mut names, items, first)?;
    Ok((names, found))
}

/// The same for the types that are declared.
#[tactic(auto, using(crate::proofs::Earliest::earliest_append))]
pub(crate) fn enter_types(
    names: &mut Names,
    types: &[Typed],
    first: Option<u64>,
) -> Result<Option<u64>, AllocError>
    ensures { IfOk result (λ found. found ≡ earliest first
        (repeated names.old (map typed_name (declared_types types.now)))) }
{
    let mut found = first;
    for typed in types {
        if !is_idle(typed) {
            let fresh = names.enter(&typed.name.text)?;
            found = note(found, !fresh, typed.name.at);
        }
    }
    Ok(found)
}

/// Adds the names after a `-`.
pub(crate) fn enter_kinds(names: &mut Names, types: &[Typed]) -> Result<(), AllocError>
    ensures { OnOk result (names.new ≡ names.old ++ kinds_of types.now) }
{
    for typed in types {
        if let Some(kind) = &typed.kind {
            // Many types may have the same type above them, so a repeated name is no fault.
            let _fresh = names.enter(&kind.text)?;
        }
    }
    Ok(())
}
