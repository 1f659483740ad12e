//! The rows at home, by block, and the bundles of a duplicate-detection scope (Zhou, Hansen 2004)
//! that are away from home. Also the choice among blocks, best first, by the keys of their rows
//! (Burns, Lemons, Ruml, Zhou 2010).
#![tactic(auto)]

mod choice;
mod homes;
mod laws;
mod moves;
mod parts;
mod reopening;
mod rooms;
mod tree;
mod winner;

pub use homes::Homes;
pub use laws::{
    away_rows_are_of_blocks, betters_are_by_key, brought_rows_are_merged, changes_are_apart,
    first_choices_are_by_key, home_keys_are_best, increasing_scopes_are_distinct,
    keys_at_home_are_best, moves_bring_rows, moves_take_rows, moves_turn_back, noted_keys_are_best,
    opened_is_by_key, opening_rows_are_home, rivals_are_by_key, taken_places_are_vacant,
    taken_rows_are_restricted,
};
pub use parts::{BundleRoom, LentBundles};
pub use rooms::KeptRooms;
pub use tree::KeyTree;

#[cfg(test)]
mod tree_tests;
