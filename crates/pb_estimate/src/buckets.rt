//! The atoms that were reached, by the remainders of their costs: where hmax looks for the next
//! level.
ghost use Rattle.std.specs.Prelude.{◌≡◌, ℕ, ◌+◌, ◌-◌, ◌*◌, ◌%◌, ◌<◌, ◌≤◌, ◌↔◌, All, IfOk, List, length, slice_index, slice_set, true, false, not};
ghost use Rattle.pb_packed.specs.Sizes.{most_atoms};
ghost use Rattle.pb_estimate.specs.declared.exploration.AtomCost.{AtomCost};
ghost use Rattle.pb_estimate.specs.declared.exploration.AtomCost.TheVariants.{Unreached, Open};
ghost use Rattle.pb_estimate.specs.Exploring.{known_in, ArePassed, AreBuckets};

use crate::exploration::CostWord;
use crate::relaxed::RelaxedTask;
use std::alloc::{AllocError, Global};

// How many buckets there are. Open costs within so many have a bucket each.
pub(crate) const BUCKETS: usize = 64;

/// Atoms in 64 buckets, by the remainders of their open costs. An atom whose cost fell or is final
/// may stay in a bucket of an earlier cost.
#[derive(Drop)]
pub struct Buckets {
    /// The atom that came as the `k`-th into the bucket `b` is at `64 * k + b`.
    pub places: Vec<u16>,
    /// How many atoms each bucket has.
    pub filled: Vec<u16>,
    /// Whether an atom whose cost is open may be in no bucket of its cost.
    pub is_lost: bool,
    /// Whether buckets are of use: whether each action costs less than 64.
    pub is_useful: bool,
}

impl Buckets {
    /// Whether buckets are of use for a task: whether each action costs less than there are buckets.
    pub(crate) fn suit(task: &RelaxedTask) -> bool
        requires many { length task.now.needs.items ≡ length task.now.actions }
        ensures { (result ≡ true) ↔ All (λ action. action.cost < 64) task.now.actions }
    {
        for action in 0..task.needs.len() {
            if task.actions.cost(action) >= 64 {
                return false;
            }
        }
        true
    }

    /// Empty buckets, with room for `count` atoms each.
    pub(crate) fn of(alloc: Global, count: usize, is_useful: bool) -> Result<Buckets, AllocError>
        requires { count ≤ most_atoms }
        ensures are { IfOk result (λ made. (costs : List AtomCost) → length costs ≡ count
            → ((atom : ℕ) → known_in costs atom ≡ Unreached) → AreBuckets costs made) }
        ensures used { IfOk result (λ made. made.is_lost ≡ not is_useful) }
    {
        Ok(Buckets {
            places: vec![in alloc; 0; BUCKETS * count]?,
            filled: vec![in alloc; 0; BUCKETS]?,
            is_lost: !is_useful,
            is_useful,
        })
    }

    // Takes all atoms out.
    pub(crate) fn clear(&mut self)
        ensures are { (before after : List AtomCost) → AreBuckets before self.old
            → length after ≡ length before
            → ((atom : ℕ) → known_in after atom ≡ Unreached) → AreBuckets after self.new }
        ensures used { self.new.is_lost ≡ not self.old.is_useful }
    {
        self.filled.fill(0);
        self.is_lost = !self.is_useful;
    }

    // Puts an atom into the bucket of a cost, which becomes its cost.
    #[inline]
    pub(crate) fn enter(&mut self, costs: &[CostWord], atom: u16, cost: u32)
        requires are { AreBuckets costs.now self.old }
        requires few { length costs.now ≤ most_atoms }
        requires inside { atom < length costs.now }
        ensures { AreBuckets (slice_set costs.now atom (Open cost)) self.new }
    {
        if self.is_lost {
            return;
        }
        let bucket = (cost % 64) as usize;
        let filled = self.filled[bucket];
        if (filled as usize) < costs.len() {
            self.places[filled as usize * BUCKETS + bucket] = atom;
            self.filled[bucket] = filled + 1;
        } else {
            self.is_lost = true;
        }
    }

    // How many atoms a cost's bucket has up to the last one whose cost is open, and in this bucket.
    #[inline]
    pub(crate) fn left_in(&self, costs: &[CostWord], cost: u32) -> u16
        requires are { AreBuckets costs.now self.now }
        ensures few { result ≤ slice_index self.now.filled.items (cost % 64) }
        ensures passed { ArePassed costs.now self.now.places.items (cost % 64) result
            (slice_index self.now.filled.items (cost % 64)) }
    {
        let bucket = (cost % 64) as usize;
        let places = self.places.as_slice();
        let mut left = self.filled[bucket];
        while left > 0 {
            let atom = places[(left - 1) as usize * BUCKETS + bucket];
            if costs[atom as usize].is_open_beside(cost) {
                return left;
            }
            left -= 1;
        }
        left
    }
}
