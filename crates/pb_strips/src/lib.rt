//! STRIPS tasks from PDDL trees: a domain and a problem are typed, grounded and packed, and the
//! result is the task by names.
#![tactic(auto)]

mod error;
mod grounding;
mod laws;
mod names;
mod parts;
mod reaching;
mod sets;
mod task;

pub use error::StripsError;
pub use grounding::ground;
pub use laws::{
    groundings_are_by_names, kept_atoms_are_enough, names_are_printed, names_tell_actions,
    plans_are_lifted, reached_is_accepted, steps_are_lifted, texts_keep_names,
};
pub use pb_ground::{Looks, MOST_LOOKS};
pub use reaching::ground_reached;
pub use task::ground_with;
