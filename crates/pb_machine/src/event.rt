//! Events, grants and ends of the lease machine, and the reasons to refuse an event.

/// How a search ends.
#[derive(Clone, Copy, Debug, PartialEq, Eq)]
pub enum End {
    /// No lease is out, and no row is Opened: the search is complete.
    Quiet,
    /// No lease is out, a row is Opened, and nothing is left of the budget.
    Budget,
    /// A worker reported out of memory.
    Memory,
}

/// An event of the lease machine of Parallel Best-NBlock-First search (Burns, Lemons, Ruml and
/// Zhou, 2010), as a line of a journal. Workers and blocks are numbered from 0. Quotas and used
/// numbers are in expansions.
#[derive(Clone, Copy, PartialEq, Eq)]
pub enum Event {
    /// The worker takes the rows of the block's scope, and may make so many expansions of the
    /// block's rows.
    Lease {
        /// The worker that takes the lease.
        worker: u32,
        /// The block whose rows may be expanded.
        block: u32,
        /// How many expansions the worker may make, taken from what is left of the budget.
        quota: u64,
    },
    /// The worker's lease is settled, and goes on with another quota.
    Renew {
        /// Whose lease it is.
        worker: u32,
        /// How many expansions the worker made since its lease was given or last renewed.
        used: u64,
        /// How many expansions the worker may make from now on.
        quota: u64,
    },
    /// The worker marks a block hot, so that no block that interferes with it is leased or renewed.
    /// Hot blocks that interfere with it become cold.
    Hot {
        /// The worker that marks the block.
        worker: u32,
        /// The block that becomes hot.
        block: u32,
    },
    /// The worker takes a block's mark away.
    Cold {
        /// The worker that takes the mark away.
        worker: u32,
        /// The block that is hot no longer.
        block: u32,
    },
    /// The worker's lease is settled and its rows go home. Hot blocks that are no longer busy
    /// become cold.
    Release {
        /// Whose lease it is.
        worker: u32,
        /// How many expansions the worker made since its lease was given or last renewed.
        used: u64,
        /// Whether the worker reports out of memory.
        memory: bool,
    },
    /// The worker signs off: it takes no further part.
    Off {
        /// The worker that signs off.
        worker: u32,
        /// Whether the worker reports out of memory.
        memory: bool,
    },
    /// The search ends. Leases that are out may still come back, and workers sign off.
    Ended(End),
}

/// What a lease grants.
#[derive(Clone, Copy, Debug, PartialEq, Eq)]
pub struct Grant {
    /// The block whose rows may be expanded.
    pub block: u32,
    /// How many expansions of these rows may be made until the lease is settled.
    pub quota: u64,
}

/// Why an event may not come next.
#[derive(Clone, Copy, PartialEq, Eq)]
pub enum EventRefusal {
    /// The search has already ended.
    Ended,
    /// There is no such worker, or it has signed off.
    Worker,
    /// The worker has a lease and should have none, or has none and should have one; or a lease is
    /// out at a quiet end or at the budget's.
    Holds,
    /// There is no such block.
    Block,
    /// The block's scope has a block in common with a leased one.
    Scope,
    /// A hot block interferes with the block; or the block may not be marked hot, or is not hot.
    Hot,
    /// The quota is 0, or is neither a whole lot nor all that is left; or more expansions were made
    /// than the quota allows; or something is left of the budget at its end.
    Quota,
    /// The search has not ended, and the worker doesn't report out of memory, so it may not sign
    /// off.
    NoEnd,
    /// The event before reported out of memory, and this is not the end that follows from the
    /// report; or that end comes without a report.
    Trouble,
}
