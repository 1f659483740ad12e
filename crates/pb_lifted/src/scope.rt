//! What the names in an atom refer to: objects, parameters and predicates.
ghost use Rattle.std.specs.Prelude.{◌≡◌, [], option_copied};
ghost use Rattle.pb_lifted.specs.Objects.{entry_of_term, term_name, objects_of, predicate_of};
ghost use Rattle.pb_lifted.specs.Scope.{IsScope};

use crate::entries::{entry, object};
use crate::names::Names;
use crate::tables::NameTables;
use pb_pddl::{Domain, Name, Predicate, Problem, Term, Typed};

/// The surroundings of an atom: its domain and problem with their tables, and the parameters of its
/// action with their names.
#[derive(Clone, Copy)]
pub(crate) struct Scope<'a> {
    pub(crate) tables: &'a NameTables,
    pub(crate) domain: &'a Domain,
    pub(crate) problem: &'a Problem,
    pub(crate) params: &'a [Typed],
    pub(crate) names: &'a Names,
}

/// The name of an argument.
pub(crate) fn term_name(term: &Term) -> &Name
    ensures { result.now ≡ term_name term.now }
{
    match term {
        Term::Object(name) => name,
        Term::Variable(name) => name,
    }
}

/// The entry of an object, or of a parameter, that an argument names.
pub(crate) fn entry_of_term<'a>(scope: &Scope<'a>, term: &Term) -> Option<&'a Typed>
    requires { IsScope scope.now }
    ensures { option_copied result ≡ entry_of_term
        (objects_of scope.now.domain.now scope.now.problem.now) scope.now.params.now term.now }
{
    match term {
        Term::Object(name) => object(
            &scope.tables.objects,
            scope.domain.constants.as_slice(),
            scope.problem.objects.as_slice(),
            name.text.as_slice(),
        ),
        Term::Variable(name) => entry(scope.names, scope.params, name.text.as_slice()),
    }
}

/// The predicate of a name.
pub(crate) fn predicate_of<'a>(scope: &Scope<'a>, name: &Name) -> Option<&'a Predicate>
    requires { IsScope scope.now }
    ensures { option_copied result ≡ predicate_of scope.now.domain.now.predicates name.now.text }
{
    entry(
        &scope.tables.predicates,
        scope.domain.predicates.as_slice(),
        name.text.as_slice(),
    )
}
