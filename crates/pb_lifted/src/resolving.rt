//! Writing the trees of a domain and a problem as a lifted task, in numbers.
ghost use Rattle.std.specs.Prelude.{◌≡◌, [], ◌++◌, map, OnOk, IfOk};
ghost use Rattle.pb_lifted.specs.Types.{name_text};
ghost use Rattle.pb_lifted.specs.Lifted.{kind_numbers, argument_of, arguments_of, atom_of, atoms_of, atom_if, effect_of, schema_of, schemas_of, predicate_kinds, lifted_of};
ghost use Rattle.pb_lifted.specs.Objects.{objects_of};
ghost use Rattle.pb_lifted.specs.Tables.{AreTables, names_of_params};
ghost use Rattle.pb_lifted.specs.Tree.{parent_numbers};

use crate::costs::cost_of;
use crate::declared::kind_text;
use crate::lifted::{Argument, Lifted, LiftedAtom, Schema};
use crate::names::Names;
use crate::tables::NameTables;
use crate::tree::number;
use pb_pddl::{Action, Atom, Domain, Listed, Literal, Predicate, Problem, Term, Typed};
use std::alloc::{AllocError, Global};

// Adds the numbers of the types of objects or parameters.
fn add_kinds(out: &mut Listed<usize>, types: &Names, list: &[Typed]) -> Result<(), AllocError>
    ensures { OnOk result (out.new ≡ out.old ++ kind_numbers types.now list.now) }
{
    for typed in list {
        out.push(number(types, kind_text(typed)))?;
    }
    Ok(())
}

// The numbers of the types of objects or parameters.
fn kinds_of(alloc: Global, types: &Names, list: &[Typed]) -> Result<Listed<usize>, AllocError>
    ensures { IfOk result (λ kinds. kinds ≡ kind_numbers types.now list.now) }
{
    let mut kinds = Listed::new(alloc);
    add_kinds(&mut kinds, types, list)?;
    Ok(kinds)
}

// An argument by its number.
fn argument_of(objects: &Names, params: &Names, term: &Term) -> Argument
    ensures { result ≡ argument_of objects.now params.now term.now }
{
    match term {
        Term::Object(name) => Argument::Object(number(objects, name.text.as_slice())),
        Term::Variable(name) => Argument::Parameter(number(params, name.text.as_slice())),
    }
}

// Arguments by their numbers.
fn arguments_of(
    alloc: Global,
    objects: &Names,
    params: &Names,
    terms: &[Term],
) -> Result<Listed<Argument>, AllocError>
    ensures { IfOk result (λ list. list ≡ arguments_of objects.now params.now terms.now) }
{
    let mut list = Listed::new(alloc);
    for term in terms {
        list.push(argument_of(objects, params, term))?;
    }
    Ok(list)
}

// An atom by numbers.
fn atom_of(
    alloc: Global,
    predicates: &Names,
    objects: &Names,
    params: &Names,
    atom: &Atom,
) -> Result<LiftedAtom, AllocError>
    ensures { IfOk result (λ a. a ≡ atom_of predicates.now objects.now params.now atom.now) }
{
    let predicate = number(predicates, atom.predicate.text.as_slice());
    let arguments = arguments_of(alloc, objects, params, atom.terms.as_slice())?;
    Ok(LiftedAtom {
        predicate,
        arguments,
    })
}

// Atoms by numbers.
fn atoms_of(
    alloc: Global,
    predicates: &Names,
    objects: &Names,
    params: &Names,
    atoms: &[Atom],
) -> Result<Listed<LiftedAtom>, AllocError>
    ensures { IfOk result (λ list. list ≡ atoms_of predicates.now objects.now params.now
        atoms.now) }
{
    let mut list = Listed::new(alloc);
    for atom in atoms {
        list.push(atom_of(alloc, predicates, objects, params, atom)?)?;
    }
    Ok(list)
}

// The atoms of an effect that are negated, or those that are not, by numbers.
fn effect_of(
    alloc: Global,
    negated: bool,
    predicates: &Names,
    objects: &Names,
    params: &Names,
    effect: &[Literal],
) -> Result<Listed<LiftedAtom>, AllocError>
    ensures { IfOk result (λ list. list ≡ effect_of negated predicates.now objects.now params.now
        effect.now) }
{
    let mut list = Listed::new(alloc);
    for literal in effect {
        if literal.negated == negated {
            list.push(atom_of(alloc, predicates, objects, params, &literal.atom)?)?;
        }
    }
    Ok(list)
}

// A schema by numbers.
fn schema_of(
    alloc: Global,
    tables: &NameTables,
    names: &Names,
    problem: &Problem,
    action: &Action,
) -> Result<Schema, AllocError>
    requires { names.now ≡ map name_text action.now.params }
    ensures { IfOk result (λ s. s ≡ schema_of problem.now tables.now.types.names
        tables.now.predicates tables.now.objects action.now) }
{
    let predicates = &tables.predicates;
    let objects = &tables.objects;
    let effect = action.effect.as_slice();
    let params = kinds_of(alloc, &tables.types.names, action.params.as_slice())?;
    let pre = atoms_of(alloc, predicates, objects, names, action.pre.as_slice())?;
    let adds = effect_of(alloc, false, predicates, objects, names, effect)?;
    let deletes = effect_of(alloc, true, predicates, objects, names, effect)?;
    Ok(Schema {
        params,
        pre,
        adds,
        deletes,
        cost: cost_of(problem, action),
    })
}

// Schemas by numbers.
fn schemas_of(
    alloc: Global,
    tables: &NameTables,
    problem: &Problem,
    actions: &[Action],
) -> Result<Listed<Schema>, AllocError>
    requires { tables.now.params.items ≡ names_of_params actions.now }
    ensures { IfOk result (λ list. list ≡ schemas_of problem.now tables.now.types.names
        tables.now.predicates tables.now.objects actions.now) }
{
    let mut list = Listed::new(alloc);
    for (i, action) in actions.iter().enumerate() {
        list.push(schema_of(alloc, tables, &tables.params[i], problem, action)?)?;
    }
    Ok(list)
}

// For each predicate the numbers of the types of its parameters.
fn predicate_kinds(
    alloc: Global,
    types: &Names,
    predicates: &[Predicate],
) -> Result<Listed<Listed<usize>>, AllocError>
    ensures { IfOk result (λ list. list ≡ predicate_kinds types.now predicates.now) }
{
    let mut list = Listed::new(alloc);
    for predicate in predicates {
        list.push(kinds_of(alloc, types, predicate.params.as_slice())?)?;
    }
    Ok(list)
}

// The numbers of the types above `object` and above each declared type.
fn parents_of(alloc: Global, types: &Names, list: &[Typed]) -> Result<Listed<usize>, AllocError>
    ensures { IfOk result (λ kinds. kinds ≡ parent_numbers types.now list.now) }
{
    let mut kinds = Listed::new(alloc);
    kinds.push(0)?;
    add_kinds(&mut kinds, types, list)?;
    Ok(kinds)
}

// The numbers of the types of the constants, and then of the objects of the problem.
fn kinds_of_objects(
    alloc: Global,
    types: &Names,
    domain: &Domain,
    problem: &Problem,
) -> Result<Listed<usize>, AllocError>
    ensures { IfOk result (λ kinds. kinds ≡ kind_numbers types.now
        (objects_of domain.now problem.now)) }
{
    let mut kinds = kinds_of(alloc, types, domain.constants.as_slice())?;
    add_kinds(&mut kinds, types, problem.objects.as_slice())?;
    Ok(kinds)
}

// Atoms without variables by numbers.
fn ground_atoms(
    alloc: Global,
    tables: &NameTables,
    atoms: &[Atom],
) -> Result<Listed<LiftedAtom>, AllocError>
    ensures { IfOk result (λ list. list ≡ atoms_of tables.now.predicates tables.now.objects []
        atoms.now) }
{
    let none = Names::new(alloc);
    atoms_of(alloc, &tables.predicates, &tables.objects, &none, atoms)
}

/// A domain and a problem by numbers. The call fails if memory runs out.
pub(crate) fn lifted_of(
    alloc: Global,
    tables: &NameTables,
    domain: &Domain,
    problem: &Problem,
) -> Result<Lifted, AllocError>
    requires { AreTables tables.now domain.now problem.now }
    ensures { IfOk result (λ lifted. lifted ≡ lifted_of domain.now problem.now) }
{
    let names = &tables.types.names;
    Ok(Lifted {
        types: parents_of(alloc, names, domain.types.as_slice())?,
        objects: kinds_of_objects(alloc, names, domain, problem)?,
        predicates: predicate_kinds(alloc, names, domain.predicates.as_slice())?,
        actions: schemas_of(alloc, tables, problem, domain.actions.as_slice())?,
        init: ground_atoms(alloc, tables, problem.init.as_slice())?,
        goal: ground_atoms(alloc, tables, problem.goal.as_slice())?,
    })
}
