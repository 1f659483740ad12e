//! The first place of each cause in the domain and in the problem.
ghost use Rattle.std.specs.Prelude.{◌≡◌, [], map, None};
ghost use Rattle.pb_lifted.specs.Names.{earliest};
ghost use Rattle.pb_lifted.specs.Types.{name_text};
ghost use Rattle.pb_lifted.specs.Tree.{IsTree};
ghost use Rattle.pb_lifted.specs.Tables.{AreTables};
ghost use Rattle.pb_lifted.specs.Refusals.{too_wide, in_predicate, in_predicates, in_action, in_actions, in_domain, in_problem};

use crate::atoms::{first_in_atoms, first_in_effect};
use crate::costs::{
    MOST_COST, first_again, first_too_great, first_undeclared, note_metric, note_zero_cost,
};
use crate::declared::note;
use crate::names::Names;
use crate::refusal::Cause;
use crate::scope::Scope;
use crate::tables::NameTables;
use crate::tree::{Tree, first_unknown};
use pb_pddl::{Action, Domain, Name, Predicate, Problem, Typed};

/// How many parameters a predicate or an action may have.
const MOST_PARAMETERS: usize = 16;

// The earlier of the first place and that of a name with too many parameters.
fn note_width(name: &Name, params: &[Typed], first: Option<u64>) -> Option<u64>
    ensures { result ≡ earliest first (too_wide name.now params.now) }
{
    note(first, params.len() > MOST_PARAMETERS, name.at)
}

// The earlier of the first place and those of this cause in the declaration of a predicate.
fn first_in_predicate(
    cause: Cause,
    tree: &Tree,
    types: &[Typed],
    predicate: &Predicate,
    first: Option<u64>,
) -> Option<u64>
    requires { IsTree tree.now types.now }
    ensures { result ≡ earliest first (in_predicate cause types.now predicate.now) }
{
    let params = predicate.params.as_slice();
    match cause {
        Cause::UnknownType => first_unknown(tree, types, params, first),
        Cause::TooWide => note_width(&predicate.name, params, first),
        _ => first,
    }
}

// The earlier of the first place and those of this cause in the declarations of predicates.
fn first_in_predicates(
    cause: Cause,
    tree: &Tree,
    types: &[Typed],
    predicates: &[Predicate],
    first: Option<u64>,
) -> Option<u64>
    requires { IsTree tree.now types.now }
    ensures { result ≡ earliest first (in_predicates cause types.now predicates.now) }
{
    let mut found = first;
    for predicate in predicates {
        found = first_in_predicate(cause, tree, types, predicate, found);
    }
    found
}

// The earlier of the first place and those of this cause in an action. The names are those of its
// parameters.
#[tactic(auto, using(crate::proofs::Earliest::earliest_append))]
fn first_in_action(
    cause: Cause,
    tables: &NameTables,
    domain: &Domain,
    problem: &Problem,
    action: &Action,
    names: &Names,
    first: Option<u64>,
) -> Option<u64>
    requires tables { AreTables tables.now domain.now problem.now }
    requires names { names.now ≡ map name_text action.now.params }
    ensures { result ≡ earliest first (in_action cause domain.now problem.now action.now) }
{
    let params = action.params.as_slice();
    let costs = action.costs.as_slice();
    let scope = Scope {
        tables,
        domain,
        problem,
        params,
        names,
    };
    match cause {
        Cause::UnknownType => {
            first_unknown(&tables.types, domain.types.as_slice(), params, first)
        }
        Cause::TooWide => note_width(&action.name, params, first),
        Cause::NoFunction => first_undeclared(domain.has_cost, costs, first),
        Cause::CostTwice => first_again(costs, first),
        Cause::CostRange => first_too_great(MOST_COST, costs, first),
        Cause::ZeroCost => note_zero_cost(problem.metric, action, first),
        _ => {
            let found = first_in_atoms(cause, &scope, action.pre.as_slice(), first);
            first_in_effect(cause, &scope, action.effect.as_slice(), found)
        }
    }
}

// The earlier of the first place and those of this cause in the actions.
fn first_in_actions(
    cause: Cause,
    tables: &NameTables,
    domain: &Domain,
    problem: &Problem,
    first: Option<u64>,
) -> Option<u64>
    requires { AreTables tables.now domain.now problem.now }
    ensures { result ≡ earliest first (in_actions cause domain.now problem.now) }
{
    let mut found = first;
    for (i, action) in domain.actions.as_slice().iter().enumerate() {
        // The tables have one list of parameter names for each action, in this order.
        let names = &tables.params[i];
        found = first_in_action(cause, tables, domain, problem, action, names, found);
    }
    found
}

/// The first place of this cause in the domain.
#[tactic(auto, using(crate::proofs::Earliest::earliest_append))]
pub(crate) fn first_in_domain(
    cause: Cause,
    tables: &NameTables,
    domain: &Domain,
    problem: &Problem,
) -> Option<u64>
    requires { AreTables tables.now domain.now problem.now }
    ensures { result ≡ earliest None (in_domain cause domain.now problem.now) }
{
    let tree = &tables.types;
    let types = domain.types.as_slice();
    let predicates = domain.predicates.as_slice();
    match cause {
        Cause::DomainName => None,
        Cause::Twice => tables.twice_in_domain,
        Cause::UnknownType => {
            let found = first_unknown(tree, types, domain.constants.as_slice(), None);
            let found = first_in_predicates(cause, tree, types, predicates, found);
            first_in_actions(cause, tables, domain, problem, found)
        }
        Cause::TypeCycle => tables.cycle,
        Cause::TooWide => {
            let found = first_in_predicates(cause, tree, types, predicates, None);
            first_in_actions(cause, tables, domain, problem, found)
        }
        _ => first_in_actions(cause, tables, domain, problem, None),
    }
}

/// The first place of this cause in the problem. `names` has no names.
#[tactic(auto, using(crate::proofs::Earliest::earliest_append))]
pub(crate) fn first_in_problem(
    cause: Cause,
    tables: &NameTables,
    domain: &Domain,
    problem: &Problem,
    names: &Names,
) -> Option<u64>
    requires tables { AreTables tables.now domain.now problem.now }
    requires none { names.now ≡ [] }
    ensures { result ≡ earliest None (in_problem cause domain.now problem.now) }
{
    let scope = Scope {
        tables,
        domain,
        problem,
        params: &[],
        names,
    };
    let costs = problem.costs.as_slice();
    match cause {
        Cause::DomainName => {
            let same = problem.domain.text.as_slice() == domain.name.text.as_slice();
            note(None, !same, problem.domain.at)
        }
        Cause::Twice => tables.twice_in_problem,
        Cause::UnknownType => first_unknown(
            &tables.types,
            domain.types.as_slice(),
            problem.objects.as_slice(),
            None,
        ),
        Cause::TypeCycle => None,
        Cause::TooWide => None,
        Cause::NoFunction => {
            let found = first_undeclared(domain.has_cost, costs, None);
            note_metric(domain.has_cost, problem.metric, found)
        }
        Cause::CostTwice => first_again(costs, None),
        // `:init` may set the cost to 0 alone.
        Cause::CostRange => first_too_great(0, costs, None),
        Cause::ZeroCost => None,
        _ => {
            let found = first_in_atoms(cause, &scope, problem.init.as_slice(), None);
            first_in_atoms(cause, &scope, problem.goal.as_slice(), found)
        }
    }
}
