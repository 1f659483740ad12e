//! The answer to a pass that tries to go on, with its lease or with another block.
use pb_lease::Lease;

/// The answer to a pass that tries to go on, with its lease or with another block.
pub enum Switch {
    /// The lease came back, and the worker has this lease of another block: with the old lease home,
    /// that block is the first choice.
    Switched(Lease),
    /// The lease goes on: if it were home, its block would be the first choice.
    Kept(Lease),
    /// The lease came back: no block may be leased with it home, or its room is too small.
    Given,
    /// This call's one step found the turn held by another pass. The lease is unchanged.
    Busy(Lease),
}
