//! A lifted task: its types, objects, predicates and schemas, in numbers.

use pb_pddl::Listed;

/// An argument of an atom.
#[derive(Clone, Copy)]
pub enum Argument {
    /// The object of this number.
    Object(usize),
    /// What the instance gives to the parameter of this number.
    Parameter(usize),
}

/// A predicate, by its number, with its arguments.
#[derive(Drop)]
pub struct LiftedAtom {
    pub predicate: usize,
    pub arguments: Listed<Argument>,
}

/// An action schema.
#[derive(Drop)]
pub struct Schema {
    /// For each parameter the number of its type.
    pub params: Listed<usize>,
    /// The atoms that must hold.
    pub pre: Listed<LiftedAtom>,
    /// The atoms that hold afterwards.
    pub adds: Listed<LiftedAtom>,
    /// The atoms that the action deletes; those that it also adds hold after it.
    pub deletes: Listed<LiftedAtom>,
    /// What each instance costs.
    pub cost: u64,
}

/// A lifted task. Predicates and actions have the numbers that they have in the domain. Objects are
/// the constants and then the objects of the problem. Type 0 is `object`.
#[derive(Drop)]
pub struct Lifted {
    /// The number of the type above each type. Above a type after the end there is `object`.
    pub types: Listed<usize>,
    /// For each object the number of its type.
    pub objects: Listed<usize>,
    /// For each predicate the numbers of the types of its parameters.
    pub predicates: Listed<Listed<usize>>,
    pub actions: Listed<Schema>,
    /// The atoms that hold at first.
    pub init: Listed<LiftedAtom>,
    /// The atoms of the goal.
    pub goal: Listed<LiftedAtom>,
}
