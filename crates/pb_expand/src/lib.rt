//! The expansion of rows in a lease: what a worker of a parallel best-first search does with the
//! block that it has leased. The search is that of Burns, Lemons, Ruml and Zhou, "Best-First
//! Heuristic Search for Multicore Machines", Journal of Artificial Intelligence Research 39, 2010.
//!
//! The contracts cite `specs`: `IsAtWork` says which leases may be worked on, and `HasTurned` says
//! what was done. `Watching` says what a worker knows while it watches the incumbent.
#![tactic(auto)]

mod bundles;
mod offers;
mod turns;
mod watch;
mod watching;
mod working;

pub use watch::{NoWatch, Watch};
pub use watching::work_watched;
pub use working::{Worked, work};
