//! Reads the STRIPS and typing part of PDDL, and costs of actions, into trees. Everything else is
//! refused by name and place.
#![tactic(auto)]

mod action;
mod atoms;
mod conditions;
mod costs;
mod domain;
mod lists;
mod pieces;
mod problem;
mod reader;

pub use pb_pddl::{
    Action, Atom, Cost, Domain, LeftOut, Listed, Literal, Name, Predicate, Problem, SyntaxError,
    Term, Text, Typed, Want,
};
pub use reader::{read_domain, read_problem};
