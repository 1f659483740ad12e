//! The trees. Lists are in order of the text. Nested conditions and effects are flattened into one
//! list. A section or part that is missing is an empty list.

use crate::text::Text;
use pb_listed::Listed;

/// A word or a variable: its bytes in lower case, a variable's with its `?`, and the place of its
/// first byte.
#[derive(Drop)]
pub struct Name {
    pub text: Text,
    pub at: u64,
}

/// A name or variable and the type after its `-`, if there is one.
#[derive(Drop)]
pub struct Typed {
    pub name: Name,
    pub kind: Option<Name>,
}

/// An argument of an atom.
#[derive(Drop)]
pub enum Term {
    Object(Name),
    Variable(Name),
}

/// A predicate with its arguments.
#[derive(Drop)]
pub struct Atom {
    pub predicate: Name,
    pub terms: Listed<Term>,
}

/// An atom that an effect adds, or deletes if it is negated.
#[derive(Drop)]
pub struct Literal {
    pub atom: Atom,
    pub negated: bool,
}

/// The `increase` of the total cost in an effect, or its `=` in `:init`.
#[derive(Clone, Copy)]
pub struct Cost {
    /// The place of the word `increase` or `=`.
    pub at: u64,
    /// The place of its `total-cost`.
    pub function: u64,
    /// Its number, below 10^9.
    pub number: u64,
    /// The place of its number.
    pub number_at: u64,
}

/// A predicate as it is declared.
#[derive(Drop)]
pub struct Predicate {
    pub name: Name,
    pub params: Listed<Typed>,
}

/// An action schema: its parameters, the atoms of its precondition, and the literals and costs of
/// its effect.
#[derive(Drop)]
pub struct Action {
    pub name: Name,
    pub params: Listed<Typed>,
    pub pre: Listed<Atom>,
    pub effect: Listed<Literal>,
    pub costs: Listed<Cost>,
}

/// A domain. Each name in `types` has the type above it as its `kind`. `has_cost` says whether
/// `:functions` declares `total-cost`.
#[derive(Drop)]
pub struct Domain {
    pub name: Name,
    pub types: Listed<Typed>,
    pub constants: Listed<Typed>,
    pub predicates: Listed<Predicate>,
    pub actions: Listed<Action>,
    pub has_cost: bool,
}

/// A problem. `domain` is the name that it gives to its domain, and `costs` are those of `:init`.
/// `metric` is the place of the metric's `total-cost`, if there is a metric.
#[derive(Drop)]
pub struct Problem {
    pub name: Name,
    pub domain: Name,
    pub objects: Listed<Typed>,
    pub init: Listed<Atom>,
    pub goal: Listed<Atom>,
    pub costs: Listed<Cost>,
    pub metric: Option<u64>,
}
