//! A search by leases with these settings, from a task to the graph at its end. One worker searches
//! alone and waits for nobody. Several share a yard, each in a thread of its own.
#![tactic(auto)]

mod alone;
mod going_on;
mod laws;
mod opening;
mod searching;
mod together;

pub use going_on::search_on;
pub use laws::closed_yards_have_ended;
pub use searching::search;
