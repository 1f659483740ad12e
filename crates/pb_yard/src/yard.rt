//! The yard: what workers share.
use crate::rule::YardRule;
use pb_turn::TurnLock;

/// A graph of leases that any number of workers share by reference. Each call is made with the
/// worker's own pass. A call that takes `rt` waits while another worker holds the graph.
#[derive(Drop)]
pub struct Yard {
    pub(crate) lock: TurnLock<YardRule>,
}
