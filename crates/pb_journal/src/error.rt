//! The errors of reading a journal: the line that is refused, and why.
ghost use Rattle.std.specs.Prelude.{◌≡◌};
ghost use Rattle.pb_machine.specs.declared.event.EventRefusal.{EventRefusal};
ghost use Rattle.pb_journal.specs.declared.error.JournalError.TheVariants.{Memory, At};
ghost use Rattle.pb_journal.specs.Faults.{why_of};

use pb_machine::EventRefusal;
use std::alloc::AllocError;

/// Why a line of a journal is refused. If several of these are true of a line, the first in the
/// order that the formats state decides.
#[derive(Clone, Copy, PartialEq, Eq)]
pub enum Why {
    /// The line is not spelled as a line at that place must be, or the text ends within it.
    Spelling,
    /// A number of the header is out of the range that the planner takes.
    Settings,
    /// The search has already ended.
    Ended,
    /// There is no such worker, or it has signed off.
    Worker,
    /// The worker has a lease and should have none, or has none and should have one. Or a lease is
    /// out at a quiet end or at the budget's.
    Holds,
    /// There is no such block.
    Block,
    /// The block's scope has a block in common with a leased one.
    Scope,
    /// A hot block interferes with the block; or the block may not be marked hot, or is not hot.
    Hot,
    /// The quota is 0, or is neither a whole lot nor all that is left. Or more expansions were made
    /// than the quota allows. Or something is left of the budget at its end.
    Quota,
    /// The search has not ended, and the worker doesn't report out of memory, so it may not sign
    /// off.
    NoEnd,
    /// A worker reported in the line before that it is out of memory, and this is not the end that
    /// follows. Or that end comes without such a report.
    Trouble,
    /// The text ends before the history is finished.
    Short,
}

/// The first line that is refused, and why. Lines are counted from 1; a line that is missing is the
/// one after the last.
#[derive(Clone, Copy)]
pub(crate) struct Fault {
    pub(crate) line: u64,
    pub(crate) why: Why,
}

/// Why a journal is not accepted.
#[derive(Clone, Copy, PartialEq, Eq)]
pub enum JournalError {
    /// This line is the first that is refused. Lines are counted from 1; a line that is missing is
    /// the one after the last.
    At {
        /// The number of the line.
        line: u64,
        /// Why it is refused.
        why: Why,
    },
    /// Memory ran out.
    Memory,
}

impl From<Fault> for JournalError {
    ghost from_gives = { λ fault e. e ≡ At fault.line fault.why };

    fn from(fault: Fault) -> JournalError {
        JournalError::At {
            line: fault.line,
            why: fault.why,
        }
    }
}

impl From<AllocError> for JournalError {
    ghost from_gives = { λ _ e. e ≡ Memory };

    fn from(_: AllocError) -> JournalError {
        JournalError::Memory
    }
}

/// The reason of a line whose event may not come next.
pub(crate) fn why_of(refusal: EventRefusal) -> Why
    ensures { result ≡ why_of refusal }
{
    match refusal {
        EventRefusal::Ended => Why::Ended,
        EventRefusal::Worker => Why::Worker,
        EventRefusal::Holds => Why::Holds,
        EventRefusal::Block => Why::Block,
        EventRefusal::Scope => Why::Scope,
        EventRefusal::Hot => Why::Hot,
        EventRefusal::Quota => Why::Quota,
        EventRefusal::NoEnd => Why::NoEnd,
        EventRefusal::Trouble => Why::Trouble,
    }
}
