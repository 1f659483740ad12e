//! What a reader has gathered while a list, an action or a whole form is still open.

use crate::tree::{Action, Atom, Cost, Literal, Name, Predicate, Typed};
use pb_listed::Listed;

/// The names of a list that have their type, and those that wait for a type.
#[derive(Drop)]
pub struct Group {
    pub done: Listed<Typed>,
    pub waiting: Listed<Name>,
}

/// What an effect said so far.
#[derive(Drop)]
pub struct EffectParts {
    pub literals: Listed<Literal>,
    pub costs: Listed<Cost>,
}

/// What `:init` said so far.
#[derive(Drop)]
pub struct InitParts {
    pub atoms: Listed<Atom>,
    pub costs: Listed<Cost>,
}

/// The parts of an action so far; `costs` are those of its effect.
#[derive(Drop)]
pub struct ActionParts {
    pub params: Option<Listed<Typed>>,
    pub pre: Option<Listed<Atom>>,
    pub effect: Option<Listed<Literal>>,
    pub costs: Listed<Cost>,
}

/// The sections of a domain so far: whether `:functions` came, and whether it declared
/// `total-cost`.
#[derive(Drop)]
pub struct DomainParts {
    pub requirements: bool,
    pub types: Option<Listed<Typed>>,
    pub constants: Option<Listed<Typed>>,
    pub predicates: Option<Listed<Predicate>>,
    pub functions: bool,
    pub has_cost: bool,
    pub actions: Listed<Action>,
}

/// The sections of a problem so far; `costs` are those of `:init`, and `metric` is the place of its
/// `total-cost`.
#[derive(Drop)]
pub struct ProblemParts {
    pub requirements: bool,
    pub domain: Option<Name>,
    pub objects: Option<Listed<Typed>>,
    pub init: Option<Listed<Atom>>,
    pub goal: Option<Listed<Atom>>,
    pub costs: Listed<Cost>,
    pub metric: Option<u64>,
}
