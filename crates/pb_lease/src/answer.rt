//! The replies to a worker that asks for a lease, or for more work on the lease that it has.
use crate::lease::Lease;
use pb_machine::End;

/// The reply to a worker that asks for a lease.
pub enum LeaseReply {
    /// It has this lease, of the first choice.
    Leased(Lease),
    /// The search has not ended, some lease is out, and no block may be leased now. The worker asks
    /// again after a change.
    NotYet,
    /// The search is over, with this end.
    Over(End),
    /// Out of memory: nothing was leased.
    Memory,
}

/// The reply to a worker that asks for more work on the lease that it has.
pub enum Renewed {
    /// The lease goes on: with it home its block would be the first choice.
    Kept(Lease),
    /// The lease came back.
    Given,
}

/// The reply to a worker that asks to go on with its lease, or else with another one.
pub enum SwitchReply {
    /// The lease came back, and the worker has this one: with the lease home its block was the
    /// first choice.
    Switched(Lease),
    /// The lease goes on: with it home its block would be the first choice.
    Kept(Lease),
    /// The lease came back: with it home no block may be leased, or its room is too small.
    Given,
}
