//! Workers that go on to another block.
ghost use Rattle.std.specs.Prelude.{◌≡◌, ◌+◌, ◌-◌, ◌<◌, ◌≤◌, min, [], ◌∷◌, false, IsTrue, IsSome};
ghost use Rattle.pb_machine.specs.declared.event.Event.TheVariants.{Lease, Release};
ghost use Rattle.pb_machine.specs.Tables.{with_entry};
ghost use Rattle.pb_machine.specs.Counts.{quota_of};
ghost use Rattle.pb_machine.specs.Choice.{counts_with_lease_home};
ghost use Rattle.pb_lease.specs.Tables.{blocks, counts_of, rooms};
ghost use Rattle.pb_lease.specs.Events.{Adds};
ghost use Rattle.pb_lease.specs.Leasing.{can_be_leased};

use crate::seat::Seat;
use crate::tables::MachineTables;
use crate::tables::counters::{lower, raise};
use pb_machine::{Event, Grant};

impl MachineTables {
    /// The worker's lease is settled and comes back, and the worker leases the block, which can be
    /// leased with the lease home. The next lease has a lot, or all that is left of the budget, and
    /// the answer is that quota. Both events are within the room of the lease, and the next lease
    /// has the rest of it.
    pub fn switch(&mut self, worker: u32, used: u64, block: u32) -> u64
        requires leased { IsSome ((counts_of self.old).leases worker) }
        requires used { used ≤ quota_of ((counts_of self.old).leases worker) }
        requires block { block < (blocks self.old).count }
        requires free { IsTrue (can_be_leased (blocks self.old) self.old.settings
            (counts_with_lease_home (counts_of self.old) worker used) block) }
        requires room { 1 < rooms self.old worker }
        ensures quota { result ≡ min self.old.settings.lot
            (self.old.left + (quota_of ((counts_of self.old).leases worker) - used)) }
        ensures events { Adds self.old self.new (Release worker used false
            ∷ Lease worker block (min self.old.settings.lot
            (self.old.left + (quota_of ((counts_of self.old).leases worker) - used))) ∷ []) }
        ensures room { rooms self.new ≡ with_entry (rooms self.old) worker
            (rooms self.old worker - 2) }
    {
        let seat = self.seats[worker as usize];
        let Some(own) = seat.grant else {
            unreachable!();
        };
        let near = self.abstraction.interference(own.block);
        lower(&mut self.busy, near);
        self.marks.cool_idle(&self.abstraction, near, &self.busy);
        raise(&mut self.busy, self.abstraction.interference(block));
        let left = self.left + (own.quota - used);
        let quota = self.settings.lot.min(left);
        self.seats[worker as usize] = Seat {
            grant: Some(Grant { block, quota }),
            room: seat.room - 2,
            signed_off: false,
        };
        self.spent += used;
        self.left = left - quota;
        self.promised -= 2;
        self.journal.push_reserved(Event::Release {
            worker,
            used,
            memory: false,
        });
        self.journal.push_reserved(Event::Lease {
            worker,
            block,
            quota,
        });
        quota
    }
}
