//! Laws of made texts: each spells a task of its kind and size, so the readers take it.
#![tactic(auto)]

mod laws;

pub use laws::{
    blocks_domain_is_read, made_boards_are_spelled, made_maps_are_spelled, made_problems_are_tasks,
};
