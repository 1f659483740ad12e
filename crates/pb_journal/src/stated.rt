//! An event as a line of a journal states it, before it is judged.

use pb_machine::End;

/// An event as a line of a journal states it, with numbers of any size below 2^63. The fields are
/// those of the event.
#[derive(Clone, Copy)]
pub enum StatedEvent {
    Lease {
        worker: u64,
        block: u64,
        quota: u64,
    },
    Renew {
        worker: u64,
        used: u64,
        quota: u64,
    },
    Hot {
        worker: u64,
        block: u64,
    },
    Cold {
        worker: u64,
        block: u64,
    },
    Release {
        worker: u64,
        used: u64,
        memory: bool,
    },
    Off {
        worker: u64,
        memory: bool,
    },
    Ended(End),
}
