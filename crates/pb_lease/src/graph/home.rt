//! The first choice with a lease home. The best of the clear blocks is known, and only the lease's own
//! block and those of its interference become clear with it.
ghost use Rattle.std.specs.Prelude.{◌≡◌, ◌↔◌, ◌<◌, ◌||◌, ◌==◌, ℕ, Bool, None, Some, is_some, IsTrue};
ghost use Rattle.pb_bundles.specs.Homes.{key_at};
ghost use Rattle.pb_bundles.specs.Choosing.{IsBetterBy, IsFirstBy};
ghost use Rattle.pb_lease.specs.Tables.{blocks};
ghost use Rattle.pb_lease.specs.Leased.{grant_of};
ghost use Rattle.pb_lease.specs.GraphValue.{counts_in};
ghost use Rattle.pb_lease.specs.Choices.{IsChoiceWithHome, can_be_leased_home, is_clear_in, IsBestWithHome};

use crate::graph::LeaseGraph;
use crate::lease::Lease;

impl LeaseGraph {
    // The first choice with the lease home, whose keys are noted. None if no block may be leased
    // then.
    pub(crate) fn choice_with_home(&self, lease: &Lease) -> Option<u32>
        requires { (counts_in self.now).leases lease.now.worker ≡ Some (grant_of lease.now) }
        ensures { IsChoiceWithHome self.now lease.now self.now result }
    {
        let near = self.tables.abstraction().interference(lease.block);
        let mut best = self.better_with_home(lease, self.clear_with_home(lease), lease.block);
        for other in near {
            best = self.better_with_home(lease, best, *other);
        }
        best
    }

    // The best of the blocks that are clear while the lease is out. The return of the lease keeps
    // them clear, so all of them may be leased then, or none.
    fn clear_with_home(&self, lease: &Lease) -> Option<u32>
        requires { (counts_in self.now).leases lease.now.worker ≡ Some (grant_of lease.now) }
        ensures { IsBestWithHome self.now lease.now (is_clear_in self.now) result }
    {
        match self.first_clear() {
            None => None,
            Some(block) => {
                if self.can_be_leased_home(lease, block) {
                    Some(block)
                } else {
                    None
                }
            }
        }
    }

    // The best of the clear blocks.
    fn first_clear(&self) -> Option<u32>
        ensures first { IsFirstBy (is_clear_in self.now) (key_at self.now.homes) result }
        ensures known { (block : ℕ) → result ≡ Some block → block < (blocks self.now.table).count }
    {
        self.free.first(&|block| self.tables.is_clear(block))
    }

    // The better of the best block so far and another one, if that may be leased with the lease
    // home. Keys are compared first, since that takes no walk.
    fn better_with_home(&self, lease: &Lease, best: Option<u32>, other: u32) -> Option<u32>
        requires leased { (counts_in self.now).leases lease.now.worker ≡ Some (grant_of lease.now) }
        requires other { other < (blocks self.now.table).count }
        ensures { (listed : ℕ → Bool) → IsBestWithHome self.now lease.now listed best
            → IsBestWithHome self.now lease.now (λ block. listed block || (block == other)) result }
    {
        if !self.improves(best, other) {
            return best;
        }
        if self.can_be_leased_home(lease, other) {
            Some(other)
        } else {
            best
        }
    }

    // Whether the block has an Opened row and is better than the best one so far, if there is one.
    fn improves(&self, best: Option<u32>, other: u32) -> bool
        ensures alone { best ≡ None → result ≡ is_some (key_at self.now.homes other) }
        ensures better { (block : ℕ) → best ≡ Some block
            → IsTrue result ↔ IsBetterBy (key_at self.now.homes) other block }
    {
        match best {
            None => self.homes.key(other).is_some(),
            Some(best) => self.homes.is_better(other, best),
        }
    }

    // Whether the block may be leased with the lease home, if it has an Opened row.
    fn can_be_leased_home(&self, lease: &Lease, block: u32) -> bool
        requires leased { (counts_in self.now).leases lease.now.worker ≡ Some (grant_of lease.now) }
        requires block { block < (blocks self.now.table).count }
        ensures { result ≡ can_be_leased_home self.now lease.now block }
    {
        self.tables
            .can_be_leased_after(lease.worker, lease.used, block)
    }
}
