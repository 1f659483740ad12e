//! Tables of a search that is opened again with another weight.
ghost use Rattle.std.specs.Prelude.{◌≡◌, ◌≤◌, ◌<◌, ℕ, [], IsFalse, OnOk, OnErr, vec_len, vec_capacity};
ghost use Rattle.pb_model.specs.Weight.{IsWeight};
ghost use Rattle.pb_machine.specs.Settings.{settings_with};
ghost use Rattle.pb_machine.specs.Counts.{opening_counts, is_any_out};
ghost use Rattle.pb_lease.specs.Tables.{counts_of, rooms, past_after};

use crate::past::Past;
use crate::seat::Seat;
use crate::tables::MachineTables;
use pb_machine::Event;
use std::alloc::AllocError;

impl MachineTables {
    /// Another run begins, at the weight num / den, while no lease is out. Nobody has signed off in
    /// it, no end stands, and the journal is empty. The spent expansions and those that are left
    /// stay, so all runs have one budget. The journal needs room for every worker's signing off and
    /// for one end. An error means out of memory, and all is as before.
    pub fn reopen(&mut self, num: u64, den: u64) -> Result<(), AllocError>
        requires home { IsFalse (is_any_out self.old.settings.workers (counts_of self.old).leases) }
        requires weight { IsWeight (record { num = num; den = den }) }
        requires few { self.old.past.reopenings < 4294967295 }
        ensures settings { OnOk result (self.new.settings ≡ settings_with self.old.settings
            (record { num = num; den = den }) self.old.settings.pattern) }
        ensures past { OnOk result (self.new.past ≡ past_after self.old) }
        ensures counts { OnOk result (counts_of self.new
            ≡ opening_counts self.new.settings self.old.spent) }
        ensures left { OnOk result (self.new.left ≡ self.old.left) }
        ensures journal { OnOk result (self.new.journal ≡ []) }
        ensures abstraction { OnOk result (self.new.abstraction ≡ self.old.abstraction) }
        ensures rooms { OnOk result ((worker : ℕ) → rooms self.new worker ≡ 0) }
        ensures err { OnErr result (self.new ≡ self.old) }
    {
        let promised = self.seats.len() + 1;
        make_room(&mut self.journal, promised)?;
        self.settings.num = num;
        self.settings.den = den;
        self.past = Past {
            reopenings: self.past.reopenings + 1,
            spent: self.spent,
        };
        self.seats.fill(Seat::VACANT);
        self.end = None;
        self.journal.clear();
        self.promised = promised;
        Ok(())
    }
}

// The journal has room for so many events, once it is cleared. It needs memory for it only if it
// never had so much room.
fn make_room(journal: &mut Vec<Event>, events: usize) -> Result<(), AllocError>
    ensures items { journal.new.items ≡ journal.old.items }
    ensures len { vec_len journal.new ≡ vec_len journal.old }
    ensures capacity { vec_capacity journal.old ≤ vec_capacity journal.new }
    ensures room { OnOk result (events ≤ vec_capacity journal.new) }
{
    if journal.capacity() < events {
        journal.reserve(events)?;
    }
    Ok(())
}
