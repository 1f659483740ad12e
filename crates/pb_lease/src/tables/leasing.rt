//! Leases, their renewals and their returns.
ghost use Rattle.std.specs.Prelude.{◌≡◌, ◌==◌, ◌&&◌, nat_lt, is_none, ◌+◌, ◌-◌, ◌<◌, ◌≤◌, ℕ, min, [], ◌∷◌, IsTrue, IsFalse, IsSome, None, OnOk, OnErr, IfOk};
ghost use Rattle.pb_machine.specs.declared.event.Event.TheVariants.{Lease, Renew, Release};
ghost use Rattle.pb_machine.specs.Tables.{with_entry, one_if};
ghost use Rattle.pb_machine.specs.Blocks.{interferes};
ghost use Rattle.pb_machine.specs.Counters.{busy_count};
ghost use Rattle.pb_machine.specs.Counts.{is_lease_of, quota_of, is_any_out};
ghost use Rattle.pb_machine.specs.Choice.{counts_with_lease_home};
ghost use Rattle.pb_lease.specs.Tables.{blocks, counts_of, rooms};
ghost use Rattle.pb_lease.specs.Events.{Adds, ending};
ghost use Rattle.pb_lease.specs.Leasing.{can_be_leased, is_clear};

use crate::seat::Seat;
use crate::tables::MachineTables;
use crate::tables::counters::{count_of, lower, raise};
use crate::tables::ending::end_by_report;
use crate::tables::seats::{is_any_out, is_leased};
use pb_machine::{Event, Grant};
use std::alloc::AllocError;

/// For how many renewals, hot marks and marks taken away a lease takes room in the journal.
pub const ROOM: u32 = 63;

impl MachineTables {
    /// Whether some worker has a lease.
    pub fn is_any_out(&self) -> bool
        ensures { result ≡ is_any_out self.now.settings.workers (counts_of self.now).leases }
    {
        is_any_out(&self.seats)
    }

    /// Whether the block may be leased if it has an Opened row.
    pub fn can_be_leased(&self, block: u32) -> bool
        requires { block < (blocks self.now).count }
        ensures { result ≡ can_be_leased (blocks self.now) self.now.settings (counts_of self.now)
            block }
    {
        let is_open = self.end.is_none() & (self.left > 0);
        let is_clear = (self.marks.near[block as usize] == 0) & (self.busy[block as usize] == 0);
        if !(is_open & is_clear) {
            return false;
        }
        !is_leased(&self.seats, block)
    }

    /// Whether the search has not ended, and something is left of the budget.
    pub(crate) fn is_open(&self) -> bool
        ensures { result ≡ (is_none self.now.end && nat_lt 0 self.now.left) }
    {
        self.end.is_none() & (self.left > 0)
    }

    /// Whether no hot block and no leased one forbids a lease of the block.
    pub(crate) fn is_clear(&self, block: u32) -> bool
        requires { block < (blocks self.now).count }
        ensures { result ≡ is_clear (blocks self.now) self.now.settings.workers (counts_of self.now)
            block }
    {
        let is_idle = (self.marks.near[block as usize] == 0) & (self.busy[block as usize] == 0);
        is_idle && !is_leased(&self.seats, block)
    }

    /// Whether the block, with an Opened row, could be leased if the worker's lease were home after
    /// so many expansions.
    pub fn can_be_leased_after(&self, worker: u32, used: u64, block: u32) -> bool
        requires block { block < (blocks self.now).count }
        requires leased { IsSome ((counts_of self.now).leases worker) }
        requires used { used ≤ quota_of ((counts_of self.now).leases worker) }
        ensures { result ≡ can_be_leased (blocks self.now) self.now.settings
            (counts_with_lease_home (counts_of self.now) worker used) block }
    {
        let own = self.grant_of(worker);
        let has_left = self.left + (own.quota - used) > 0;
        let is_open = self.end.is_none() & has_left & (self.marks.near[block as usize] == 0);
        if !is_open {
            return false;
        }
        if block == own.block {
            return true;
        }
        self.is_clear_without(own.block, block) && !is_leased(&self.seats, block)
    }

    // Whether no leased block except perhaps the worker's own one is in the interference of the
    // block. The interference is looked at only if the counter doesn't decide.
    fn is_clear_without(&self, own: u32, block: u32) -> bool
        requires own { own < (blocks self.now).count }
        requires block { block < (blocks self.now).count }
        ensures { result ≡ (busy_count (blocks self.now) self.now.settings.workers
            (counts_of self.now).leases block - one_if (interferes (blocks self.now) own block)
            == 0) }
    {
        let busy = self.busy[block as usize];
        if busy != 1 {
            return busy == 0;
        }
        count_of(self.abstraction.interference(own), block) == 1
    }

    /// What the worker's lease grants.
    pub fn grant_of(&self, worker: u32) -> Grant
        requires { IsSome ((counts_of self.now).leases worker) }
        ensures { (counts_of self.now).leases worker ≡ Some result }
    {
        match self.seats[worker as usize].grant {
            Some(grant) => grant,
            None => unreachable!(),
        }
    }

    /// The worker leases the block, with a lot or with all that is left of the budget. The answer
    /// is that quota. The journal takes room for 65 events first: this one, the return of the
    /// lease, and 63 between them. An error means out of memory.
    pub fn lease(&mut self, worker: u32, block: u32) -> Result<u64, AllocError>
        requires worker { worker < self.old.settings.workers }
        requires vacant { (counts_of self.old).leases worker ≡ None }
        requires stays { IsFalse ((counts_of self.old).signed_off worker) }
        requires block { block < (blocks self.old).count }
        requires free { IsTrue (can_be_leased (blocks self.old) self.old.settings
            (counts_of self.old) block) }
        ensures quota { IfOk result (λ quota. quota ≡ min self.old.settings.lot self.old.left) }
        ensures events { OnOk result (Adds self.old self.new
            (Lease worker block (min self.old.settings.lot self.old.left) ∷ [])) }
        ensures room { OnOk result (rooms self.new ≡ with_entry (rooms self.old) worker 63) }
        ensures err { OnErr result (self.new ≡ self.old) }
    {
        self.journal.reserve(self.promised + 65)?;
        let quota = self.settings.lot.min(self.left);
        raise(&mut self.busy, self.abstraction.interference(block));
        self.seats[worker as usize] = Seat {
            grant: Some(Grant { block, quota }),
            room: ROOM,
            signed_off: false,
        };
        self.left -= quota;
        self.promised += 64;
        self.journal.push_reserved(Event::Lease {
            worker,
            block,
            quota,
        });
        Ok(quota)
    }

    /// The worker's lease is settled and goes on, with a lot or with all that is left of the
    /// budget. The answer is that quota.
    pub fn renew(&mut self, worker: u32, used: u64) -> u64
        requires free { IsTrue (is_lease_of (can_be_leased (blocks self.old) self.old.settings
            (counts_with_lease_home (counts_of self.old) worker used))
            ((counts_of self.old).leases worker)) }
        requires used { used ≤ quota_of ((counts_of self.old).leases worker) }
        requires room { 0 < rooms self.old worker }
        ensures quota { result ≡ min self.old.settings.lot
            (self.old.left + (quota_of ((counts_of self.old).leases worker) - used)) }
        ensures events { Adds self.old self.new
            (Renew worker used (min self.old.settings.lot
            (self.old.left + (quota_of ((counts_of self.old).leases worker) - used))) ∷ []) }
        ensures room { rooms self.new ≡ with_entry (rooms self.old) worker
            (rooms self.old worker - 1) }
    {
        let seat = self.seats[worker as usize];
        let Some(own) = seat.grant else {
            unreachable!();
        };
        let left = self.left + (own.quota - used);
        let quota = self.settings.lot.min(left);
        self.seats[worker as usize] = Seat {
            grant: Some(Grant { quota, ..own }),
            room: seat.room - 1,
            signed_off: seat.signed_off,
        };
        self.spent += used;
        self.left = left - quota;
        self.promised -= 1;
        self.journal.push_reserved(Event::Renew {
            worker,
            used,
            quota,
        });
        quota
    }

    /// The worker's lease is settled and comes back, and hot blocks that are no longer busy become
    /// cold. If the worker reports out of memory and the search has not ended, the search ends by
    /// that report.
    pub fn release(&mut self, worker: u32, used: u64, memory: bool)
        requires leased { IsSome ((counts_of self.old).leases worker) }
        requires used { used ≤ quota_of ((counts_of self.old).leases worker) }
        ensures events { Adds self.old self.new
            (Release worker used memory ∷ ending memory self.old.end) }
        ensures room { rooms self.new ≡ with_entry (rooms self.old) worker 0 }
    {
        let seat = self.seats[worker as usize];
        let Some(own) = seat.grant else {
            unreachable!();
        };
        self.seats[worker as usize] = Seat {
            grant: None,
            room: 0,
            signed_off: seat.signed_off,
        };
        let near = self.abstraction.interference(own.block);
        lower(&mut self.busy, near);
        self.marks.cool_idle(&self.abstraction, near, &self.busy);
        self.spent += used;
        self.left += own.quota - used;
        self.journal.push_reserved(Event::Release {
            worker,
            used,
            memory,
        });
        self.promised -= seat.room as usize
            + 1
            + end_by_report(memory, &mut self.end, &mut self.journal);
    }
}
