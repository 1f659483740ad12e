//! The workers of a parallel best-first search by blocks: one that searches alone, or any number
//! that share a yard. The search is that of Burns, Lemons, Ruml and Zhou, "Best-First Heuristic
//! Search for Multicore Machines", Journal of Artificial Intelligence Research 39, 2010.
#![tactic(auto)]

mod alone;
mod closing;
mod event_count;
mod graph_lessor;
mod holding;
mod lessor;
mod marking;
mod team;
mod turning;
mod worker;
mod workers;
mod yard_lessor;
mod yard_search;
mod yard_watch;

pub use alone::run_alone;
pub use workers::run_workers;
pub use yard_watch::YardWatch;
