//! The tree of types: types in a circle, unknown types, and which type is below which.
ghost use Rattle.std.specs.Prelude.{◌≡◌, ◌++◌, ◌∷◌, [], OnOk, IfOk, option_copied, unwrap_or};
ghost use Rattle.pb_lifted.specs.Names.{earliest, number_of, is_among};
ghost use Rattle.pb_lifted.specs.Types.{object, type_names, is_object, kind_text, name_text, cyclic_types, is_below, unknown_kind, unknown_kinds};
ghost use Rattle.pb_lifted.specs.Tree.{IsTree, parent_numbers, does_not_lead};

use crate::climb::{at, climbs, far_up};
use crate::declared::{enter_all, enter_kinds, is_object, kind_text, note};
use crate::names::Names;
use pb_pddl::{Text, Typed};
use std::alloc::{AllocError, Global};

/// The tree of types: the names of the types, `object` first, and the number of the type above
/// `object` and above each declared type. Above a type that has no number there is `object`.
#[derive(Drop)]
pub(crate) struct Tree {
    pub(crate) names: Names,
    pub(crate) parents: Vec<usize>,
}

/// The number of a name, or 0 if it isn't there.
pub(crate) fn number(names: &Names, text: &[u8]) -> usize
    ensures { result ≡ unwrap_or (number_of text.now names.now) 0 }
{
    names.find(text).unwrap_or(0)
}

// For `object` and each declared type the number of the type above it.
fn parents_of(alloc: Global, names: &Names, types: &[Typed]) -> Result<Vec<usize>, AllocError>
    ensures { IfOk result (λ parents. parents.items ≡ parent_numbers names.now types.now) }
{
    let mut parents = Vec::new(alloc);
    parents.push(0)?;
    for typed in types {
        parents.push(number(names, kind_text(typed)))?;
    }
    Ok(parents)
}

// Adds the name `object`.
fn enter_object(alloc: Global, names: &mut Names) -> Result<(), AllocError>
    ensures { OnOk result (names.new ≡ names.old ++ object ∷ []) }
{
    let object = Text::new(alloc, b"object")?;
    let _fresh = names.enter(&object)?;
    Ok(())
}

// Enters the names of the types, `object` first.
fn enter_types(alloc: Global, names: &mut Names, types: &[Typed]) -> Result<(), AllocError>
    requires { names.old ≡ [] }
    ensures { OnOk result (names.new ≡ type_names types.now) }
{
    enter_object(alloc, names)?;
    // `object` is there already, so a mere entry `object` would count as repeated here.
    // `twice_in_types` finds the repeated declarations.
    let _twice = enter_all(names, types, None)?;
    enter_kinds(names, types)
}

/// The tree of the types. The call fails if memory runs out.
pub(crate) fn tree_of(alloc: Global, types: &[Typed]) -> Result<Tree, AllocError>
    ensures { IfOk result (λ tree. IsTree tree types.now) }
{
    let mut names = Names::new(alloc);
    enter_types(alloc, &mut names, types)?;
    let parents = parents_of(alloc, &names, types)?;
    Ok(Tree { names, parents })
}

// Whether the way up from a declared type does not come to `object`, or `object` is declared below
// another type. `far` has the number that each type's whole way comes to.
fn is_cyclic(tree: &Tree, far: &[usize], typed: &Typed) -> bool
    ensures { result ≡ does_not_lead tree.now.names far.now typed.now }
{
    let name = typed.name.text.as_slice();
    if is_object(name) {
        return !is_object(kind_text(typed));
    }
    at(far, number(&tree.names, name)) != 0
}

/// The first place of a type whose way up does not come to `object`. The call fails if memory runs
/// out.
pub(crate) fn first_cycle(
    alloc: Global,
    tree: &Tree,
    types: &[Typed],
) -> Result<Option<u64>, AllocError>
    requires { IsTree tree.now types.now }
    ensures { IfOk result (λ found. found ≡ earliest None (cyclic_types types.now)) }
{
    let far = far_up(alloc, tree.parents.as_slice())?;
    let mut found = None;
    for typed in types {
        found = note(found, is_cyclic(tree, far.as_slice(), typed), typed.name.at);
    }
    Ok(found)
}

// The earlier of the first place and that of the name after a `-`, if that name is no type.
#[tactic(auto, using(crate::proofs::Numbering::among_number))]
fn unknown_kind(tree: &Tree, types: &[Typed], typed: &Typed, first: Option<u64>) -> Option<u64>
    requires { IsTree tree.now types.now }
    ensures { result ≡ earliest first (unknown_kind types.now typed.now.kind) }
{
    match &typed.kind {
        Some(kind) => {
            let known = tree.names.find(kind.text.as_slice()).is_some();
            note(first, !known, kind.at)
        }
        None => first,
    }
}

/// The earlier of the first place and those of names after a `-` that are no types.
#[tactic(auto, using(crate::proofs::Earliest::earliest_append))]
pub(crate) fn first_unknown(
    tree: &Tree,
    types: &[Typed],
    list: &[Typed],
    first: Option<u64>,
) -> Option<u64>
    requires { IsTree tree.now types.now }
    ensures { result ≡ earliest first (unknown_kinds types.now list.now) }
{
    let mut found = first;
    for typed in list {
        found = unknown_kind(tree, types, typed, found);
    }
    found
}

/// Whether the first type is the second or below it.
pub(crate) fn is_below(tree: &Tree, types: &[Typed], low: &[u8], high: &[u8]) -> bool
    requires { IsTree tree.now types.now }
    ensures { result ≡ is_below types.now low.now high.now }
{
    if low == high {
        return true;
    }
    match tree.names.find(low) {
        None => is_object(high),
        Some(from) => match tree.names.find(high) {
            None => false,
            Some(to) => climbs(tree.parents.as_slice(), from, to),
        },
    }
}
