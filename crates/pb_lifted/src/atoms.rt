//! The first place of each cause in the atoms of preconditions, effects, `:init` and the goal.
ghost use Rattle.std.specs.Prelude.{◌≡◌, option_copied};
ghost use Rattle.pb_lifted.specs.Names.{earliest};
ghost use Rattle.pb_lifted.specs.Scope.{IsScope};
ghost use Rattle.pb_lifted.specs.Refusals.{unknown_terms, wrong_types, in_atom, in_atoms, in_effect, fits_arity, params_of, is_misfit};

use crate::declared::{kind_text, note};
use crate::refusal::Cause;
use crate::scope::{Scope, entry_of_term, predicate_of, term_name};
use crate::tree::is_below;
use pb_pddl::{Atom, Literal, Predicate, Term, Typed};

// The earlier of the first place and those of arguments that are neither objects nor parameters.
#[tactic(auto, using(crate::proofs::Earliest::earliest_append))]
fn first_unknown_term(scope: &Scope<'_>, terms: &[Term], first: Option<u64>) -> Option<u64>
    requires { IsScope scope.now }
    ensures { result ≡ earliest first (unknown_terms scope.now.domain.now scope.now.problem.now
        scope.now.params.now terms.now) }
{
    let mut found = first;
    for term in terms {
        let fault = entry_of_term(scope, term).is_none();
        found = note(found, fault, term_name(term).at);
    }
    found
}

// Whether the type of an argument is neither a parameter's nor below it.
fn is_misfit(scope: &Scope<'_>, term: &Term, wanted: &Typed) -> bool
    requires { IsScope scope.now }
    ensures { result ≡ is_misfit scope.now.domain.now scope.now.problem.now scope.now.params.now
        term.now wanted.now }
{
    match entry_of_term(scope, term) {
        Some(entry) => !is_below(
            &scope.tables.types,
            scope.domain.types.as_slice(),
            kind_text(entry),
            kind_text(wanted),
        ),
        // Such an argument has the cause `UnknownObject`, and no type to compare.
        None => false,
    }
}

// The earlier of the first place and those of arguments whose types are neither the parameters'
// nor below them.
#[tactic(auto, using(crate::proofs::Earliest::earliest_append))]
fn first_wrong_type(
    scope: &Scope<'_>,
    terms: &[Term],
    wanted: &[Typed],
    first: Option<u64>,
) -> Option<u64>
    requires { IsScope scope.now }
    ensures { result ≡ earliest first (wrong_types scope.now.domain.now scope.now.problem.now
        scope.now.params.now terms.now wanted.now) }
{
    let mut found = first;
    for (i, term) in terms.iter().enumerate() {
        // Arguments beyond the last parameter have the cause `Arity`, and no type to fit.
        if i >= wanted.len() {
            return found;
        }
        let fault = is_misfit(scope, term, &wanted[i]);
        found = note(found, fault, term_name(term).at);
    }
    found
}

// Whether there are as many arguments as the predicate has parameters, if it is declared.
fn fits_arity(terms: &[Term], predicate: Option<&Predicate>) -> bool
    ensures { result ≡ fits_arity terms.now (option_copied predicate.entry) }
{
    match predicate {
        Some(predicate) => terms.len() == predicate.params.as_slice().len(),
        None => true,
    }
}

// The earlier of the first place and those of this cause in an atom.
fn first_in_atom(cause: Cause, scope: &Scope<'_>, atom: &Atom, first: Option<u64>) -> Option<u64>
    requires { IsScope scope.now }
    ensures { result ≡ earliest first (in_atom cause scope.now.domain.now scope.now.problem.now
        scope.now.params.now atom.now) }
{
    let terms = atom.terms.as_slice();
    let predicate = predicate_of(scope, &atom.predicate);
    match cause {
        Cause::UnknownPredicate => note(first, predicate.is_none(), atom.predicate.at),
        Cause::Arity => note(first, !fits_arity(terms, predicate), atom.predicate.at),
        Cause::UnknownObject => first_unknown_term(scope, terms, first),
        Cause::WrongType => match predicate {
            Some(predicate) => first_wrong_type(scope, terms, predicate.params.as_slice(), first),
            // The cause is `UnknownPredicate`: there are no parameters to compare with.
            None => first_wrong_type(scope, terms, &[], first),
        },
        _ => first,
    }
}

/// The earlier of the first place and those of this cause in atoms.
#[tactic(auto, using(crate::proofs::Earliest::earliest_append))]
pub(crate) fn first_in_atoms(
    cause: Cause,
    scope: &Scope<'_>,
    atoms: &[Atom],
    first: Option<u64>,
) -> Option<u64>
    requires { IsScope scope.now }
    ensures { result ≡ earliest first (in_atoms cause scope.now.domain.now scope.now.problem.now
        scope.now.params.now atoms.now) }
{
    let mut found = first;
    for atom in atoms {
        found = first_in_atom(cause, scope, atom, found);
    }
    found
}

/// The earlier of the first place and those of this cause in an effect.
#[tactic(auto, using(crate::proofs::Earliest::earliest_append))]
pub(crate) fn first_in_effect(
    cause: Cause,
    scope: &Scope<'_>,
    literals: &[Literal],
    first: Option<u64>,
) -> Option<u64>
    requires { IsScope scope.now }
    ensures { result ≡ earliest first (in_effect cause scope.now.domain.now scope.now.problem.now
        scope.now.params.now literals.now) }
{
    let mut found = first;
    for literal in literals {
        found = first_in_atom(cause, scope, &literal.atom, found);
    }
    found
}
