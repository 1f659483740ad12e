//! The ground atoms and ground actions of a lifted task.
#![tactic(auto)]

mod actions;
mod atoms;
mod count;
mod error;
mod fitting;
mod index;
mod instances;
mod join;
mod known;
mod laws;
mod looks;
mod numbers;
mod plan;
mod search;
mod statics;

pub use actions::{ActionInstance, actions_in, ground_actions};
pub use atoms::{Atoms, GroundAtom, ground_atoms};
pub use error::GroundError;
pub use laws::{
    all_atoms_are_a_case, atoms_are_all, instances_are_all, kept_atoms_are_all, kept_atoms_suffice,
    kept_steps_correspond, statics_are_kept, steps_correspond, worked_rows,
};
pub use looks::{Looks, MOST_LOOKS};
pub use numbers::{goal, is_missing, is_never, start};
