//! Lower bounds on the cost of every way from a state to a goal: what guides a search, and what a
//! certificate is judged by.
//!
//! The estimate of a state by a choice is the definition `estimate_by` in `specs`. By the plain
//! choice it is `estimate_of`. For grids that is the Manhattan distance to the goal. For tiles it
//! is the sum of the Manhattan distances of all tiles from their cells on the goal board. For
//! STRIPS tasks it is hmax: the cost of the dearest atom of the goal if nothing is deleted. By a
//! pattern it is the greater of the plain estimate and the pattern value. By tables it is Dead
//! for a state in one of their traps, and for every state if the goal asks for a fact that never
//! holds. Else it is the greatest of their sums, or 0 if a table doesn't list the state's image.
#![tactic(auto)]

mod action_index;
mod atom_sets;
mod buckets;
mod choice;
mod distance;
mod estimator;
mod exploration;
mod flat_lists;
mod grid;
mod laws;
mod layers;
mod marks;
mod merging;
mod relaxed;
mod spelling;
mod strips;
mod tiles;

pub use action_index::ActionIndex;
pub use buckets::Buckets;
pub use choice::{Choice, ChoiceCase};
pub use estimator::{Estimator, PlainTables};
pub use exploration::{AtomCost, CostWord, Exploration};
pub use flat_lists::FlatLists;
pub use laws::{
    estimates_are_admissible, estimates_count_tiles, hmax_is_fixed, stated_lines_have_their_numbers,
};
pub use layers::Layers;
pub use relaxed::{RelaxedActions, RelaxedTask};
pub use spelling::{Spelling, Stated, Version};
pub use strips::Counters;
