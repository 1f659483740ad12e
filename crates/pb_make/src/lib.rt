//! Tasks from a seed and a size: the texts of a map and its scenario, of a board of tiles, and of a
//! problem of blocks.
#![tactic(auto)]

mod boards;
mod domain;
mod draws;
mod maps;
mod problems;

pub use boards::make_tiles;
pub use domain::blocks_domain;
pub use maps::{make_map, make_scen};
pub use problems::make_problem;
