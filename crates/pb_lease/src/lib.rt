//! The graph of a parallel best-first search, which gives out leases of its blocks (Burns, Lemons,
//! Ruml and Zhou, 2010). It has the rows at home, the bundles that leave with a lease and come
//! back, the numbers of the lease machine, and its journal. Beside these are kept the counters.
#![tactic(auto)]

mod answer;
mod begins;
mod graph;
mod laws;
mod lease;
mod past;
mod seat;
mod tables;

pub use answer::{LeaseReply, Renewed, SwitchReply};
pub use begins::{lawful_moments_begin, reopened_graphs_begin};
pub use graph::LeaseGraph;
pub use graph::store::home_rows_are_whole;
pub use laws::{
    events_leave_others, leases_stay_out, none_out_can_be_leased, none_out_is_moment,
    opened_blocks_may_be_leased, tells_keep_moments, worked_leases_are_out,
};
pub use lease::Lease;
pub use past::Past;
pub use seat::Seat;
pub use tables::MachineTables;
pub use tables::leasing::ROOM;
