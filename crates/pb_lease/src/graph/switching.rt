//! Workers that go on to another block.
ghost use Rattle.std.specs.Prelude.{◌≡◌, ◌↔◌, Some, false};
ghost use Rattle.pb_lease.specs.declared.answer.SwitchReply.TheVariants.{Switched, Kept, Given};
ghost use Rattle.pb_lease.specs.declared.graph.switching.Going.TheVariants.{On, Over, Back};
ghost use Rattle.pb_lease.specs.LeaseValue.{LeaseValue};
ghost use Rattle.pb_lease.specs.Leased.{grant_of};
ghost use Rattle.pb_lease.specs.GraphValue.{counts_in, IsOfGraph};
ghost use Rattle.pb_lease.specs.Steps.{IsReleased, ReleasesNext, IsRenewed, RenewsNext, GoesOn, GoesOver, ComesBack, ChoosesAnyByRows, IsSwitched, SwitchesNext};

use crate::answer::SwitchReply;
use crate::graph::LeaseGraph;
use crate::graph::free::{prune, show, show_beside_hot, show_clear};
use crate::graph::returning::least;
use crate::lease::Lease;

// How a worker goes on that has a lease.
pub(crate) enum Going {
    // with the lease that it has
    On,
    // with this other block
    Over(u32),
    // the lease comes back
    Back,
}

impl LeaseGraph {
    /// The worker asks to go on with its lease, or else with another block. It goes by the first
    /// choice with the lease home, while the hot blocks are as before the call. It takes no memory.
    ///
    /// - If the first choice is the lease's own block and room is left, the lease goes on. That
    ///   takes one of the room.
    /// - If it is another block and at least 2 of the room are left, the lease comes back and the
    ///   worker has a lease of that block. That takes 2 of the room, and the next lease has the
    ///   rest of it.
    /// - Otherwise the lease comes back: no block may be leased with the lease home, or the room is
    ///   too small.
    pub fn try_switch(&mut self, lease: Lease) -> SwitchReply
        requires { IsOfGraph self.old lease }
        ensures kept { (kept : LeaseValue) → result ≡ Kept kept
            → GoesOn self.old lease self.new × IsRenewed self.old lease kept self.new }
        ensures switched { (next : LeaseValue) → result ≡ Switched next
            → GoesOver self.old lease self.new next.block
            × IsSwitched self.old lease next self.new }
        ensures given { (result ≡ Given) ↔ ComesBack self.old lease self.new }
        ensures came_back { result ≡ Given → IsReleased self.old lease false self.new }
        ensures first { ChoosesAnyByRows self.old lease self.new }
        ensures kept_moment { (kept : LeaseValue) → result ≡ Kept kept
            → RenewsNext self.old lease kept self.new }
        ensures switched_moment { (next : LeaseValue) → result ≡ Switched next
            → SwitchesNext self.old lease next self.new }
        ensures given_moment { result ≡ Given → ReleasesNext self.old lease false self.new }
    {
        self.homes.note(&lease.parts);
        match self.going(&lease) {
            Going::On => SwitchReply::Kept(self.go_on(lease)),
            Going::Over(block) => SwitchReply::Switched(self.go_over(lease, block)),
            Going::Back => {
                self.release(lease, false);
                SwitchReply::Given
            }
        }
    }

    // How the worker goes on with a lease whose keys are noted.
    fn going(&self, lease: &Lease) -> Going
        requires { (counts_in self.now).leases lease.now.worker ≡ Some (grant_of lease.now) }
        ensures on { result ≡ On → GoesOn self.now lease.now self.now }
        ensures over { (block : _) → result ≡ Over block
            → GoesOver self.now lease.now self.now block }
        ensures back { result ≡ Back → ComesBack self.now lease.now self.now }
    {
        let room = self.tables.room(lease.worker);
        let Some(block) = self.choice_with_home(lease) else {
            return Going::Back;
        };
        let stays = block == lease.block;
        if stays & (room > 0) {
            Going::On
        } else if !stays & (room > 1) {
            Going::Over(block)
        } else {
            Going::Back
        }
    }

    // The lease, whose keys are noted, comes back, and its worker leases the block.
    fn go_over(&mut self, lease: Lease, block: u32) -> Lease
        requires of_graph { IsOfGraph self.old lease }
        requires over { GoesOver self.old lease self.old block }
        ensures block { result.block ≡ block }
        ensures switched { IsSwitched self.old lease result self.new }
    {
        // A lease can't be dropped, so it is taken apart.
        let Lease {
            worker,
            block: own,
            quota: _,
            used,
            incumbent,
            num,
            den,
            choice,
            parts,
        } = lease;
        // Hot blocks become cold, and others with them clear.
        show_beside_hot(&mut self.free, &self.homes, &self.tables, own);
        let quota = self.tables.switch(worker, used, block);
        let room = self.homes.bring_back(parts);
        let near = self.tables.abstraction().interference(own);
        show_clear(&mut self.free, &self.homes, &self.tables, near);
        show(&mut self.free, &self.homes, own);
        let parts = self
            .homes
            .take_out(self.tables.abstraction().scope(block), room);
        prune(&mut self.free, &self.tables);
        let incumbent = least(self.incumbent, incumbent);
        self.incumbent = incumbent;
        Lease {
            worker,
            block,
            quota,
            used: 0,
            incumbent,
            num,
            den,
            choice,
            parts,
        }
    }
}
