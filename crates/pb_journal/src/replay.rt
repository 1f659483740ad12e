//! The counts of the lease machine, while a journal is replayed.
ghost use Rattle.std.specs.Prelude.{◌≡◌, ◌==◌, ◌<◌, ◌≤◌, ◌&&◌, ◌||◌, ℕ, None, IfOk, length, get_or, not, nat_lt, is_some, min};
ghost use Rattle.pb_machine.specs.Blocks.{Blocks};
ghost use Rattle.pb_machine.specs.Tables.{any_below};
ghost use Rattle.pb_machine.specs.Counts.{opening_counts, is_any_out, is_busy, is_taken, is_near_hot, is_lease_of};
ghost use Rattle.pb_machine.specs.Legality.{is_stranger, is_wrong_quota};
ghost use Rattle.pb_abstract.specs.Graph.{blocks_of, has, IsGraph};
ghost use Rattle.pb_journal.specs.Replaying.{counts_of, is_busy_by, HasPlaces};
ghost use Rattle.pb_journal.specs.Judging.{are_finished};

use pb_abstract::AbsGraph;
use pb_machine::{End, Grant, Settings};
use std::alloc::{AllocError, Global};

/// Who has which lease and who has signed off, by worker; which blocks are hot; and what was spent
/// and is left of the budget. Also the search's end, if it has ended, and whether the event before
/// reported out of memory while it had not.
#[derive(Drop)]
pub struct Replay {
    pub leases: Vec<Option<Grant>>,
    pub hot: Vec<bool>,
    pub signed_off: Vec<bool>,
    pub spent: u64,
    pub left: u64,
    pub end: Option<End>,
    pub trouble: bool,
}

impl Replay {
    /// The counts when a search over so many blocks begins.
    pub fn new(alloc: Global, blocks: u32, settings: &Settings) -> Result<Replay, AllocError>
        ensures counts { IfOk result (λ replay. counts_of replay ≡ opening_counts settings.now 0) }
        ensures places { IfOk result
            (λ replay. (of : Blocks) → of.count ≡ blocks → HasPlaces of settings.now replay) }
    {
        let workers = settings.workers as usize;
        Ok(Replay {
            leases: vec![in alloc; None; workers]?,
            hot: vec![in alloc; false; blocks as usize]?,
            signed_off: vec![in alloc; false; workers]?,
            spent: 0,
            left: settings.budget,
            end: None,
            trouble: false,
        })
    }

    /// The lease of the worker. A worker that doesn't exist has none.
    pub fn lease_of(&self, worker: u64) -> Option<Grant>
        ensures { result ≡ (counts_of self.now).leases worker }
    {
        if worker < self.leases.len() as u64 {
            self.leases[worker as usize]
        } else {
            None
        }
    }

    /// Whether there is no such worker, or it has signed off.
    pub fn is_stranger(&self, settings: &Settings, worker: u64) -> bool
        requires { length self.now.signed_off.items ≡ settings.now.workers }
        ensures { result ≡ is_stranger settings.now (counts_of self.now) worker }
    {
        worker >= u64::from(settings.workers) || self.signed_off[worker as usize]
    }

    /// Whether some worker has a lease.
    pub fn is_any_out(&self) -> bool
        ensures { result ≡ is_any_out (length self.now.leases.items) (counts_of self.now).leases }
    {
        for lease in &self.leases {
            if lease.is_some() {
                return true;
            }
        }
        false
    }

    /// Whether a leased scope has a block in common with the block's.
    pub fn is_taken(&self, graph: &AbsGraph, block: u32) -> bool
        requires block { block < (blocks_of graph.now).count }
        requires graph { IsGraph graph.now }
        ensures { result
            ≡ is_taken (blocks_of graph.now) (length self.now.leases.items)
            (counts_of self.now).leases block }
    {
        let near = graph.interference(block);
        for lease in &self.leases {
            if is_at_or_near(block, near, lease) {
                return true;
            }
        }
        false
    }

    /// Whether a hot block is in the interference of the block.
    pub fn is_near_hot(&self, graph: &AbsGraph, block: u32) -> bool
        requires block { block < (blocks_of graph.now).count }
        requires places { length self.now.hot.items ≡ (blocks_of graph.now).count }
        ensures { result ≡ is_near_hot (blocks_of graph.now) (counts_of self.now).hot block }
    {
        for other in graph.interference(block) {
            if self.hot[*other as usize] {
                return true;
            }
        }
        false
    }

    /// Whether the block is hot. A block that doesn't exist is not hot.
    pub fn is_hot(&self, block: u64) -> bool
        ensures { result ≡ (counts_of self.now).hot block }
    {
        block < self.hot.len() as u64 && self.hot[block as usize]
    }

    /// Whether the search has ended, and every worker has signed off.
    pub fn is_finished(&self, settings: &Settings) -> bool
        requires { length self.now.signed_off.items ≡ settings.now.workers }
        ensures { result ≡ are_finished settings.now (counts_of self.now) }
    {
        for off in &self.signed_off {
            if !*off {
                return false;
            }
        }
        self.end.is_some()
    }
}

/// Whether a leased block is in the interference of the block.
pub fn is_busy(leases: &[Option<Grant>], graph: &AbsGraph, block: u32) -> bool
    requires { block < (blocks_of graph.now).count }
    ensures { result ≡ is_busy_by (blocks_of graph.now) leases.now block }
{
    let near = graph.interference(block);
    for lease in leases {
        if is_near(near, lease) {
            return true;
        }
    }
    false
}

// Whether it is a lease of one of these blocks.
fn is_near(near: &[u32], lease: &Option<Grant>) -> bool
    ensures { result ≡ is_lease_of (has near.now) lease.now }
{
    match lease {
        None => false,
        Some(grant) => near.contains(&grant.block),
    }
}

// Whether it is a lease of this block, or of one of these.
fn is_at_or_near(block: u32, near: &[u32], lease: &Option<Grant>) -> bool
    ensures { result
        ≡ (is_lease_of (λ other. other == block) lease.now
        || is_lease_of (has near.now) lease.now) }
{
    match lease {
        None => false,
        Some(grant) => grant.block == block || near.contains(&grant.block),
    }
}

/// Whether the quota is 0, or is neither a whole lot nor all that is left.
pub fn is_wrong_quota(settings: &Settings, left: u64, quota: u64) -> bool
    ensures { result ≡ is_wrong_quota settings.now left quota }
{
    !(quota > 0 && quota == settings.lot.min(left))
}
