//! Rivals of leased blocks, and hot marks.
ghost use Rattle.std.specs.Prelude.{◌≡◌, ◌↔◌, ◌<◌, ◌∷◌, [], ℕ, Some, IsTrue, IsFalse, IsSome};
ghost use Rattle.pb_model.specs.Store.{Rows};
ghost use Rattle.pb_machine.specs.declared.event.Event.TheVariants.{Hot, Cold};
ghost use Rattle.pb_machine.specs.Tables.{with_entry};
ghost use Rattle.pb_machine.specs.Blocks.{interferes};
ghost use Rattle.pb_machine.specs.Machine.{Machine};
ghost use Rattle.pb_machine.specs.Choice.{IsRival};
ghost use Rattle.pb_bundles.specs.Homes.{key_at};
ghost use Rattle.pb_bundles.specs.Choosing.{IsRivalBy};
ghost use Rattle.pb_lease.specs.Tables.{blocks, rooms};
ghost use Rattle.pb_lease.specs.Leased.{grant_of};
ghost use Rattle.pb_lease.specs.GraphValue.{counts_in};
ghost use Rattle.pb_lease.specs.Choices.{MayMark, MayCool, IsOutranked};
ghost use Rattle.pb_lease.specs.Moments.{IsMomentAt};
ghost use Rattle.pb_lease.specs.Steps.{IsMarked, KeepsLeases};

use crate::graph::LeaseGraph;
use crate::graph::free::{prune, show_all, show_beside_hot};
use crate::lease::Lease;

impl LeaseGraph {
    /// The rival of the lease's block: the best block of its interference that is better. It goes
    /// by the keys that were noted when each block was last home, leased or renewed. None if and
    /// only if no such block is better.
    pub fn rival(&self, lease: &Lease) -> Option<u32>
        requires { (counts_in self.now).leases lease.now.worker ≡ Some (grant_of lease.now) }
        ensures rival { IsRivalBy (interferes (blocks self.now.table) lease.now.block)
            (key_at self.now.homes) lease.now.block result }
        ensures moment { (recorded : (worker : ℕ) → Rows) (machine : Machine)
            → IsMomentAt self.now recorded machine
            → IsRival (blocks self.now.table) machine.store lease.now.block result }
    {
        self.homes.rival(
            lease.block,
            self.tables.abstraction().interference(lease.block),
        )
    }

    /// The worker marks the block hot, so that it becomes free, and the hot blocks of its
    /// interference become cold. The answer is false, and nothing changes, if and only if one of
    /// these holds:
    ///
    /// - The search has ended, or blocks are never hot.
    /// - The block is hot, or isn't busy.
    /// - A better block of its interference is hot.
    /// - The worker's room is used up.
    pub fn mark_hot(&mut self, worker: u32, block: u32) -> bool
        requires leased { IsSome ((counts_in self.old).leases worker) }
        requires block { block < (blocks self.old.table).count }
        ensures answer { IsTrue result ↔ MayMark self.old worker block }
        ensures marked { IsTrue result → IsMarked self.old worker (Hot worker block) self.new }
        ensures refused { IsFalse result → self.new ≡ self.old }
        ensures moment { IsTrue result → KeepsLeases self.old (Hot worker block ∷ []) self.new }
    {
        let outranked = self.is_outranked(block);
        // Hot blocks become cold, and others with them clear.
        show_beside_hot(&mut self.free, &self.homes, &self.tables, block);
        let marked = self.tables.mark_hot(worker, block, outranked);
        prune(&mut self.free, &self.tables);
        marked
    }

    /// The worker takes the block's mark away. The answer is false, and nothing changes, if and
    /// only if the search has ended, the block isn't hot, or the worker's room is used up.
    pub fn cool(&mut self, worker: u32, block: u32) -> bool
        requires leased { IsSome ((counts_in self.old).leases worker) }
        requires block { block < (blocks self.old.table).count }
        ensures answer { IsTrue result ↔ MayCool self.old worker block }
        ensures cooled { IsTrue result → IsMarked self.old worker (Cold worker block) self.new }
        ensures refused { IsFalse result → self.new ≡ self.old }
        ensures moment { IsTrue result → KeepsLeases self.old (Cold worker block ∷ []) self.new }
    {
        let near = self.tables.abstraction().interference(block);
        show_all(&mut self.free, &self.homes, near);
        let cooled = self.tables.cool(worker, block);
        prune(&mut self.free, &self.tables);
        cooled
    }

    // Whether a better block of its interference is hot.
    fn is_outranked(&self, block: u32) -> bool
        requires { block < (blocks self.now.table).count }
        ensures { IsTrue result ↔ IsOutranked self.now block }
    {
        self.tables.abstraction().interference(block).iter().any(|other| self.tables.is_hot(*other)
            && self.homes.is_better(*other, block))
    }
}
