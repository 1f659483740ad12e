//! A search that is repeated on the same rows with falling weights, and what it claims after each
//! run.
#![tactic(auto)]

mod laws;

pub use laws::{claims_hold, weights_fall, worked_weights};
