//! The meaning of a PDDL domain and problem before they are grounded: resolved names, and why two
//! trees are no task.
#![tactic(auto)]

mod atoms;
mod checking;
mod climb;
mod costs;
mod declared;
mod entries;
mod laws;
mod lifted;
mod names;
mod places;
mod refusal;
mod resolving;
mod scope;
mod tables;
mod tree;

pub use checking::resolve;
pub use laws::{
    accepted_is_well_typed, instances_are_typed, numbers_keep_costs, numbers_keep_facts,
    numbers_keep_plans, numbers_keep_steps, ways_up_are_far_enough, well_typed_is_accepted,
    worked_rows,
};
pub use lifted::{Argument, Lifted, LiftedAtom, Schema};
pub use refusal::{Cause, File, LiftedError, Place, TypingRefusal};
