//! Planning tasks: their states, the steps that their actions make, and their goals.
//!
//! Contracts see a task as its parts. The definition `space_of` in `specs` gives the parts' meaning
//! as a state space.
#![tactic(auto)]

mod actions;
mod atom_sets;
mod atoms;
mod grid;
mod grounding;
mod kind;
mod laws;
mod marks;
mod parts;
mod plan;
mod sets;
mod steps;
mod strips;
mod task;
mod tiles;

pub use actions::Actions;
pub use atoms::next_atom;
pub use grid::{are_connected, cell_beside};
pub use grounding::Grounding;
pub use kind::Kind;
pub use laws::{
    boards_are_packed, degrees_are_bounded, faults_are_unique, faults_keep_from_plans,
    grids_are_proper, sets_are_of_atoms, states_fit_their_width, strips_act, strips_are_proper,
    tasks_are_proper, tiles_are_proper, tiles_slide,
};
pub use parts::{
    ActionName, Board, Cells, Class, GridParts, GroundAction, StripsParts, Swamp, TaskParts,
    TilesParts,
};
pub use plan::PlanFault;
pub use task::Task;
