//! Leases that come back to their graph, or go on.
ghost use Rattle.std.specs.Prelude.{◌≡◌, ◌↔◌, ◌∷◌, [], ◌-◌, Some, false, IsTrue};
ghost use Rattle.pb_model.specs.Store.{lesser};
ghost use Rattle.pb_machine.specs.declared.event.Event.TheVariants.{Renew};
ghost use Rattle.pb_machine.specs.Tables.{with_entry};
ghost use Rattle.pb_lease.specs.declared.answer.Renewed.TheVariants.{Kept, Given};
ghost use Rattle.pb_lease.specs.LeaseValue.{LeaseValue};
ghost use Rattle.pb_lease.specs.Leased.{grant_of};
ghost use Rattle.pb_lease.specs.GraphValue.{counts_in, IsOfGraph};
ghost use Rattle.pb_lease.specs.Choices.{IsChoiceWithHome};
ghost use Rattle.pb_lease.specs.Tables.{rooms};
ghost use Rattle.pb_lease.specs.Events.{Adds};
ghost use Rattle.pb_lease.specs.Steps.{IsReleased, ReleasesNext, IsRenewed, RenewsNext, GoesOn, ChoosesByRows, renewed_quota};

use crate::answer::Renewed;
use crate::graph::LeaseGraph;
use crate::graph::free::{prune, show, show_beside_hot, show_clear};
use crate::lease::Lease;

impl LeaseGraph {
    /// The worker's lease comes back: its bundles go home. With an out-of-memory report the search
    /// ends by that report, if it has not ended.
    pub fn release(&mut self, lease: Lease, memory: bool)
        requires { IsOfGraph self.old lease }
        ensures released { IsReleased self.old lease memory self.new }
        ensures moment { ReleasesNext self.old lease memory self.new }
    {
        // A lease can't be dropped, so it is taken apart.
        let Lease {
            worker,
            block,
            quota: _,
            used,
            incumbent,
            num: _,
            den: _,
            choice: _,
            parts,
        } = lease;
        // Hot blocks become cold, and others with them clear.
        show_beside_hot(&mut self.free, &self.homes, &self.tables, block);
        self.tables.release(worker, used, memory);
        self.rooms.keep(self.homes.bring_back(parts));
        let near = self.tables.abstraction().interference(block);
        show_clear(&mut self.free, &self.homes, &self.tables, near);
        show(&mut self.free, &self.homes, block);
        prune(&mut self.free, &self.tables);
        self.incumbent = least(self.incumbent, incumbent);
    }

    /// The worker asks to go on with its lease. The lease goes on if and only if, with it home, its
    /// block is the first choice and its room isn't used up. Going on takes one of the room. Else
    /// the lease comes back.
    pub fn renew(&mut self, lease: Lease) -> Renewed
        requires { IsOfGraph self.old lease }
        ensures kept { (kept : LeaseValue) → result ≡ Kept kept
            → GoesOn self.old lease self.new × IsRenewed self.old lease kept self.new }
        ensures given { result ≡ Given → (GoesOn self.old lease self.new → ⊥)
            × IsReleased self.old lease false self.new }
        ensures first { ChoosesByRows self.old lease self.new }
        ensures kept_moment { (kept : LeaseValue) → result ≡ Kept kept
            → RenewsNext self.old lease kept self.new }
        ensures given_moment { result ≡ Given → ReleasesNext self.old lease false self.new }
    {
        self.homes.note(&lease.parts);
        if self.may_go_on(&lease) {
            Renewed::Kept(self.go_on(lease))
        } else {
            self.release(lease, false);
            Renewed::Given
        }
    }

    // Whether the lease, whose keys are noted, may go on.
    fn may_go_on(&self, lease: &Lease) -> bool
        requires { (counts_in self.now).leases lease.now.worker ≡ Some (grant_of lease.now) }
        ensures { IsTrue result ↔ GoesOn self.now lease.now self.now }
    {
        let has_room = self.tables.room(lease.worker) > 0;
        self.is_choice_with_home(lease) & has_room
    }

    // Whether, with the lease home, its block is the first choice.
    fn is_choice_with_home(&self, lease: &Lease) -> bool
        requires { (counts_in self.now).leases lease.now.worker ≡ Some (grant_of lease.now) }
        ensures { IsTrue result ↔ IsChoiceWithHome self.now lease.now self.now
            (Some lease.now.block) }
    {
        self.choice_with_home(lease) == Some(lease.block)
    }

    // The lease, whose keys are noted, goes on.
    pub(crate) fn go_on(&mut self, lease: Lease) -> Lease
        requires of_graph { IsOfGraph self.old lease }
        requires first { GoesOn self.old lease self.old }
        ensures quota { result ≡ record lease {
          quota = renewed_quota self.old lease;
          used = 0;
          incumbent = lesser self.old.incumbent lease.incumbent;
        } }
        ensures of_graph { IsOfGraph self.new result }
        ensures events { Adds self.old.table self.new.table
            (Renew lease.worker lease.used (renewed_quota self.old lease) ∷ []) }
        ensures room { rooms self.new.table ≡ with_entry (rooms self.old.table) lease.worker
            (rooms self.old.table lease.worker - 1) }
        ensures rest { self.new ≡ record self.old {
          table = self.new.table;
          incumbent = lesser self.old.incumbent lease.incumbent;
        } }
    {
        let quota = self.tables.renew(lease.worker, lease.used);
        let incumbent = least(self.incumbent, lease.incumbent);
        self.incumbent = incumbent;
        let Lease {
            worker,
            block,
            quota: _,
            used: _,
            incumbent: _,
            num,
            den,
            choice,
            parts,
        } = lease;
        Lease {
            worker,
            block,
            quota,
            used: 0,
            incumbent,
            num,
            den,
            choice,
            parts,
        }
    }
}

/// The lesser of two costs, of which one or both may be unknown.
pub(crate) fn least(first: Option<u64>, second: Option<u64>) -> Option<u64>
    ensures { result ≡ lesser first second }
{
    match (first, second) {
        (None, second) => second,
        (Some(first), None) => Some(first),
        (Some(first), Some(second)) => Some(first.min(second)),
    }
}
