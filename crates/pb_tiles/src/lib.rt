//! Sliding tiles from the text of a start board and, if it differs from the usual one, of a goal
//! board.
//!
//! The definition `SpellsTiles` in `specs` says which texts spell which tiles, `tiles_reading` which
//! refusal comes first, and `IsCaseOf` what the case of each refusal is.
#![tactic(auto)]

mod boards;
mod error;
mod laws;
mod reader;
mod said;
mod words;

pub use error::TilesError;
pub use laws::{
    cases_are_refused, readings_are_spelled, refusals_have_their_case, spelled_tiles_are_unique,
};
pub use reader::read_tiles;
