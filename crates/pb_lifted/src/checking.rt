//! Resolving a domain and a problem: the first refusal in the stated order, or the lifted task.
ghost use Rattle.std.specs.Prelude.{◌≡◌, [], length, None, OnOk, IfOk, IfErr};
ghost use Rattle.pb_lifted.specs.Objects.{objects_of};
ghost use Rattle.pb_lifted.specs.Tables.{AreTables};
ghost use Rattle.pb_lifted.specs.Lifted.{lifted_of};
ghost use Rattle.pb_lifted.specs.Refusals.{first_place, first_refusal, too_many, Tells};

use crate::lifted::Lifted;
use crate::names::Names;
use crate::places::{first_in_domain, first_in_problem};
use crate::refusal::{Cause, File, LiftedError, Place, TypingRefusal};
use crate::resolving::lifted_of;
use crate::tables::{NameTables, tables_of};
use pb_pddl::{Domain, Problem};
use std::alloc::Global;

/// The causes that have a place, in the order in which they are reported.
const ORDER: [Cause; 13] = [
    Cause::DomainName,
    Cause::Twice,
    Cause::UnknownType,
    Cause::TypeCycle,
    Cause::UnknownPredicate,
    Cause::Arity,
    Cause::UnknownObject,
    Cause::WrongType,
    Cause::TooWide,
    Cause::NoFunction,
    Cause::CostTwice,
    Cause::CostRange,
    Cause::ZeroCost,
];

/// How many objects there may be.
const MOST_OBJECTS: u64 = 1000;

// The first place of this cause. `names` has no names.
fn first_place(
    cause: Cause,
    tables: &NameTables,
    domain: &Domain,
    problem: &Problem,
    names: &Names,
) -> Option<Place>
    requires tables { AreTables tables.now domain.now problem.now }
    requires none { names.now ≡ [] }
    ensures { result ≡ first_place cause domain.now problem.now }
{
    match first_in_domain(cause, tables, domain, problem) {
        Some(at) => Some(Place {
            file: File::Domain,
            at,
        }),
        None => match first_in_problem(cause, tables, domain, problem, names) {
            Some(at) => Some(Place {
                file: File::Problem,
                at,
            }),
            None => None,
        },
    }
}

// The refusal of too many objects, if there are too many.
fn too_many_objects(domain: &Domain, problem: &Problem) -> Option<TypingRefusal>
    ensures { result ≡ too_many (length (objects_of domain.now problem.now)) }
{
    let n = domain.constants.as_slice().len() as u64 + problem.objects.as_slice().len() as u64;
    if n > MOST_OBJECTS {
        Some(TypingRefusal::TooManyObjects { n })
    } else {
        None
    }
}

// The first refusal, from the tables. `names` has no names.
fn find_refusal(
    tables: &NameTables,
    domain: &Domain,
    problem: &Problem,
    names: &Names,
) -> Option<TypingRefusal>
    requires tables { AreTables tables.now domain.now problem.now }
    requires none { names.now ≡ [] }
    ensures { result ≡ first_refusal domain.now problem.now }
{
    for cause in ORDER {
        if let Some(place) = first_place(cause, tables, domain, problem, names) {
            return Some(TypingRefusal::Named { cause, place });
        }
    }
    too_many_objects(domain, problem)
}

// The lifted task, or the first refusal, from the tables. Memory may run out.
fn resolve_by(
    alloc: Global,
    tables: &NameTables,
    domain: &Domain,
    problem: &Problem,
) -> Result<Lifted, LiftedError>
    requires tables { AreTables tables.now domain.now problem.now }
    ensures task { OnOk result (first_refusal domain.now problem.now ≡ None) }
    ensures lifted { IfOk result (λ lifted. lifted ≡ lifted_of domain.now problem.now) }
    ensures refused { IfErr result (Tells (first_refusal domain.now problem.now)) }
{
    let none = Names::new(alloc);
    if let Some(refusal) = find_refusal(tables, domain, problem, &none) {
        return Err(LiftedError::Refused(refusal));
    }
    let lifted = lifted_of(alloc, tables, domain, problem)?;
    Ok(lifted)
}

/// The lifted task of a domain and a problem: the names are resolved to numbers. At `Refused` the
/// two are no task, for the first cause in the stated order (that of `Cause`, then too many
/// objects). The place is the cause's first: in the domain before the problem, and in one file the
/// least byte. `Memory` says nothing of the two.
pub fn resolve(alloc: Global, domain: &Domain, problem: &Problem) -> Result<Lifted, LiftedError>
    // Nothing is refused.
    ensures task { OnOk result (first_refusal domain.now problem.now ≡ None) }
    // The lifted task is the two trees in numbers.
    ensures lifted { IfOk result (λ lifted. lifted ≡ lifted_of domain.now problem.now) }
    // The refusal is the first, unless memory ran out.
    ensures refused { IfErr result (Tells (first_refusal domain.now problem.now)) }
{
    let tables = tables_of(alloc, domain, problem)?;
    resolve_by(alloc, &tables, domain, problem)
}
