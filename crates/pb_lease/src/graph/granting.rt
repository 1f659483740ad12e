//! Leases that a graph gives out.
ghost use Rattle.std.specs.Prelude.{◌≡◌, ◌↔◌, ◌<◌, ◌⊎◌, ◌∷◌, [], ℕ, None, Some, IsFalse, IfOk, OnErr};
ghost use Rattle.pb_model.specs.Store.{Rows};
ghost use Rattle.pb_machine.specs.Machine.{Machine};
ghost use Rattle.pb_machine.specs.Choice.{MayBeLeased};
ghost use Rattle.pb_lease.specs.declared.answer.LeaseReply.TheVariants.{Leased, NotYet, Over, Memory};
ghost use Rattle.pb_lease.specs.Tables.{blocks};
ghost use Rattle.pb_lease.specs.LeaseValue.{LeaseValue};
ghost use Rattle.pb_lease.specs.GraphValue.{counts_in};
ghost use Rattle.pb_lease.specs.Choices.{IsChoice, is_out_in, IsOver, IsToWait, IsDone};
ghost use Rattle.pb_lease.specs.Moments.{IsMomentAt};
ghost use Rattle.pb_lease.specs.Steps.{IsLeased, LeasesNext, IsEnded, KeepsLeases, end_events};

use crate::answer::LeaseReply;
use crate::graph::LeaseGraph;
use crate::graph::free::prune;
use crate::lease::Lease;
use pb_machine::End;
use std::alloc::AllocError;

impl LeaseGraph {
    /// The worker asks for a lease. If it gets one, the lease is of the first choice.
    ///
    /// - The search is over if and only if it had ended, or no lease is out and either no row is
    ///   Opened or nothing is left of the budget. If it had not ended, the end comes now.
    /// - The worker is to wait if and only if the search has not ended, some lease is out, and no
    ///   block may be leased. Nothing changes then.
    /// - All memory is taken first: for a list of the bundles of the greatest scope, and in the
    ///   journal for 65 events.
    ///   If it runs out, nothing changes either.
    pub fn lease(&mut self, worker: u32) -> LeaseReply
        requires worker { worker < self.old.table.settings.workers }
        requires vacant { (counts_in self.old).leases worker ≡ None }
        requires stays { IsFalse ((counts_in self.old).signed_off worker) }
        ensures leased { (lease : LeaseValue) → result ≡ Leased lease
            → IsLeased self.old worker lease self.new }
        ensures not_yet { (result ≡ NotYet) ↔ IsToWait self.old }
        ensures over { (end : _) → (result ≡ Over end) ↔ IsOver self.old end }
        ensures ended { (end : _) → result ≡ Over end → IsEnded self.old end self.new }
        ensures same { (result ≡ NotYet) ⊎ (result ≡ Memory) → self.new ≡ self.old }
        ensures leased_moment { (lease : LeaseValue) → result ≡ Leased lease
            → LeasesNext self.old lease self.new }
        ensures ended_moment { (end : _) → result ≡ Over end
            → KeepsLeases self.old (end_events self.old.table.end end) self.new }
        ensures not_yet_moment { result ≡ NotYet
            → (recorded : (worker : ℕ) → Rows) (machine : Machine)
            → IsMomentAt self.old recorded machine
            → (block : ℕ) → MayBeLeased (blocks self.old.table) self.old.table.settings
            machine.counts machine.store block → ⊥ }
    {
        if let Some(end) = self.tables.end() {
            return LeaseReply::Over(end);
        }
        match self.first_choice() {
            Some(block) => match self.lease_block(worker, block) {
                Ok(lease) => LeaseReply::Leased(lease),
                Err(_) => LeaseReply::Memory,
            },
            None => {
                if self.tables.is_any_out() {
                    LeaseReply::NotYet
                } else {
                    LeaseReply::Over(self.end_now())
                }
            }
        }
    }

    // The first choice, or None if no block may be leased.
    pub(crate) fn first_choice(&self) -> Option<u32>
        ensures { IsChoice self.now result }
    {
        if !self.tables.is_open() {
            return None;
        }
        self.free.first(&|block| self.tables.can_be_leased(block))
    }

    // Leases the first choice to the worker.
    pub(crate) fn lease_block(&mut self, worker: u32, block: u32) -> Result<Lease, AllocError>
        requires worker { worker < self.old.table.settings.workers }
        requires vacant { (counts_in self.old).leases worker ≡ None }
        requires stays { IsFalse ((counts_in self.old).signed_off worker) }
        requires first { IsChoice self.old (Some block) }
        ensures leased { IfOk result (λ lease. IsLeased self.old worker lease self.new) }
        ensures moment { IfOk result (λ lease. LeasesNext self.old lease self.new) }
        ensures err { OnErr result (self.new ≡ self.old) }
    {
        // Room for the greatest scope: the worker may go on to any block without more memory.
        let room = self.rooms.take(self.alloc, self.greatest)?;
        let choice = self.choice.clone()?;
        // The last step that can fail: after an error no block is leased.
        let quota = self.tables.lease(worker, block)?;
        let parts = self
            .homes
            .take_out(self.tables.abstraction().scope(block), room);
        prune(&mut self.free, &self.tables);
        let settings = self.tables.settings();
        Ok(Lease {
            worker,
            block,
            quota,
            used: 0,
            incumbent: self.incumbent,
            num: settings.num,
            den: settings.den,
            choice,
            parts,
        })
    }

    // The search ends now: no lease is out, and no block may be leased.
    fn end_now(&mut self) -> End
        requires no_end { self.old.table.end ≡ None }
        requires home { IsFalse (is_out_in self.old) }
        requires none_free { IsChoice self.old None }
        ensures done { IsDone self.old result }
        ensures ended { IsEnded self.old result self.new }
        ensures moment { KeepsLeases self.old (end_events self.old.table.end result) self.new }
    {
        if self.homes.is_any_opened() {
            self.tables.end_budget();
            End::Budget
        } else {
            self.tables.end_quiet();
            End::Quiet
        }
    }
}
