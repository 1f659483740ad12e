//! The yard of a parallel best-first search by blocks: one graph of leases that any number of
//! workers share. The search is that of Burns, Lemons, Ruml and Zhou, "Best-First Heuristic Search
//! for Multicore Machines", Journal of Artificial Intelligence Research 39, 2010.
//!
//! Each worker carries a pass. One pass at a time holds the graph; workers change the rows of their
//! leases without holding it. What a pass knows is its view, which exists in proofs alone.
//!
//! The yard's rule ties the graph to the views of all passes. The graph is a lawful moment of the
//! lease machine, and its journal is one legal history. Each worker's events are those that its own
//! calls made.
#![tactic(auto)]

mod bounds;
mod laws;
mod leases;
mod length;
mod lifecycle;
mod marks;
mod pass;
mod passes;
mod rule;
mod switch;
mod switching;
mod view;
mod word;
mod yard;

pub use laws::{
    active_stay, ends_are_seen, lent_leases_are_out, lent_leases_may_come_back,
    other_ends_have_no_report, runs_in_time_are_in_order, signing_off_is_seen,
    views_begin_the_history, yards_are_lawful,
};
pub use length::{leases_are_few, runs_are_short};
pub use pass::Pass;
pub use rule::YardRule;
pub use switch::Switch;
pub use view::{JournalView, View};
pub use yard::Yard;

#[cfg(test)]
mod by_hand;
#[cfg(test)]
mod tests;
