//! A letter: the offer of a state to the owner of its row.

use pb_packed::Packed;

/// An offer of a state to its owner.
#[derive(Clone, Copy, Drop)]
pub struct Letter {
    /// The state that is offered.
    pub state: Packed,
    /// The cost of a walk from the start to it, by its parent.
    pub g: u64,
    /// The state before it on that walk.
    pub parent: Packed,
    /// The number of the action that leads from the parent to it.
    pub action: u32,
}

/// A letter with its sender, as it lies in a queue.
#[derive(Clone, Copy, Drop)]
pub struct Sent {
    pub from: u32,
    pub letter: Letter,
}
