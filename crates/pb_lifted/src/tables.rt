//! The names of a domain and a problem, and the first of them that is declared twice.
ghost use Rattle.std.specs.Prelude.{◌≡◌, [], map, None, OnOk, IfOk};
ghost use Rattle.pb_lifted.specs.Names.{earliest, repeated};
ghost use Rattle.pb_lifted.specs.declared.refusal.Cause.TheVariants.{Twice};
ghost use Rattle.pb_lifted.specs.Objects.{objects_of};
ghost use Rattle.pb_lifted.specs.Types.{declared_types, name_text};
ghost use Rattle.pb_lifted.specs.Tables.{AreTables, names_of_params, predicate_text};
ghost use Rattle.pb_lifted.specs.Refusals.{in_domain, in_problem, repeated_params, typed_name, action_name};

use crate::declared::{enter_all, enter_types, names_of};
use crate::names::Names;
use crate::tree::{Tree, first_cycle, tree_of};
use pb_pddl::{Action, Domain, Problem, Typed};
use std::alloc::{AllocError, Global};

/// The names of a domain and a problem, to look them up. For each file also the first place of a
/// name that is declared twice.
#[derive(Drop)]
pub(crate) struct NameTables {
    pub(crate) types: Tree,
    pub(crate) objects: Names,
    pub(crate) predicates: Names,
    // of each action the names of its parameters
    pub(crate) params: Vec<Names>,
    pub(crate) twice_in_domain: Option<u64>,
    pub(crate) twice_in_problem: Option<u64>,
    // the first place of a type whose way up does not come to object
    pub(crate) cycle: Option<u64>,
}

// Adds the names of the parameters of each action, and finds the earlier of the first place and
// that of a name that is there twice.
#[tactic(auto, using(crate::proofs::Earliest::earliest_append))]
fn enter_params(
    alloc: Global,
    actions: &[Action],
    first: Option<u64>,
    all: &mut Vec<Names>,
) -> Result<Option<u64>, AllocError>
    requires { all.old.items ≡ [] }
    ensures names { OnOk result (all.new.items ≡ names_of_params actions.now) }
    ensures twice { IfOk result (λ found. found ≡ earliest first (repeated_params actions.now)) }
{
    let mut found = first;
    for action in actions {
        let (names, next) = names_of(alloc, action.params.as_slice(), found)?;
        found = next;
        all.push(names)?;
    }
    Ok(found)
}

// The first place of a type that is declared twice. The call fails if memory runs out.
fn twice_in_types(alloc: Global, types: &[Typed]) -> Result<Option<u64>, AllocError>
    ensures { IfOk result (λ found. found ≡ earliest None
        (repeated [] (map typed_name (declared_types types.now)))) }
{
    let mut declared = Names::new(alloc);
    enter_types(&mut declared, types, None)
}

// The earlier of the first place and that of an action that is declared twice.
fn twice_in_actions(
    alloc: Global,
    actions: &[Action],
    first: Option<u64>,
) -> Result<Option<u64>, AllocError>
    ensures { IfOk result (λ found. found ≡ earliest first
        (repeated [] (map action_name actions.now))) }
{
    let mut names = Names::new(alloc);
    enter_all(&mut names, actions, first)
}

// Enters the names of objects, of predicates and of each action's parameters. It gives the first
// place of a name that is declared twice in the domain, and that in the problem.
fn enter_names(
    alloc: Global,
    domain: &Domain,
    problem: &Problem,
    objects: &mut Names,
    predicates: &mut Names,
    params: &mut Vec<Names>,
) -> Result<(Option<u64>, Option<u64>), AllocError>
    requires objects { objects.old ≡ [] }
    requires predicates { predicates.old ≡ [] }
    requires params { params.old.items ≡ [] }
    ensures objects { OnOk result (objects.new
        ≡ map name_text (objects_of domain.now problem.now)) }
    ensures predicates { OnOk result (predicates.new
        ≡ map predicate_text domain.now.predicates) }
    ensures params { OnOk result (params.new.items ≡ names_of_params domain.now.actions) }
    ensures domain { IfOk result (λ twice. twice.0
        ≡ earliest None (in_domain Twice domain.now problem.now)) }
    ensures problem { IfOk result (λ twice. twice.1
        ≡ earliest None (in_problem Twice domain.now problem.now)) }
{
    let found = twice_in_types(alloc, domain.types.as_slice())?;
    let found = enter_all(objects, domain.constants.as_slice(), found)?;
    let twice_in_problem = enter_all(objects, problem.objects.as_slice(), None)?;
    let found = enter_all(predicates, domain.predicates.as_slice(), found)?;
    let found = twice_in_actions(alloc, domain.actions.as_slice(), found)?;
    let twice_in_domain = enter_params(alloc, domain.actions.as_slice(), found, params)?;
    Ok((twice_in_domain, twice_in_problem))
}

/// The names of a domain and a problem. The call fails if memory runs out.
pub(crate) fn tables_of(
    alloc: Global,
    domain: &Domain,
    problem: &Problem,
) -> Result<NameTables, AllocError>
    ensures { IfOk result (λ tables. AreTables tables domain.now problem.now) }
{
    let types = tree_of(alloc, domain.types.as_slice())?;
    let cycle = first_cycle(alloc, &types, domain.types.as_slice())?;
    let mut objects = Names::new(alloc);
    let mut predicates = Names::new(alloc);
    let mut params = Vec::new(alloc);
    let (twice_in_domain, twice_in_problem) = enter_names(
        alloc,
        domain,
        problem,
        &mut objects,
        &mut predicates,
        &mut params,
    )?;
    Ok(NameTables {
        types,
        objects,
        predicates,
        params,
        twice_in_domain,
        twice_in_problem,
        cycle,
    })
}
