//! Ends of a search, and workers that sign off.
ghost use Rattle.std.specs.Prelude.{◌≡◌, ◌+◌, ◌<◌, ℕ, [], ◌∷◌, ◌++◌, ◌&&◌, ◌||◌, true, IsTrue, IsFalse, None, is_some, is_none, vec_len, vec_capacity};
ghost use Rattle.pb_machine.specs.declared.event.End.TheVariants.{Quiet, Budget};
ghost use Rattle.pb_machine.specs.declared.event.Event.TheVariants.{Off, Ended};
ghost use Rattle.pb_machine.specs.Tables.{one_if};
ghost use Rattle.pb_machine.specs.Counts.{is_any_out};
ghost use Rattle.pb_lease.specs.Tables.{counts_of, rooms};
ghost use Rattle.pb_lease.specs.Events.{Adds, ending, end_after};

use crate::seat::Seat;
use crate::tables::MachineTables;
use pb_machine::{End, Event};

impl MachineTables {
    /// The worker signs off. If it reports out of memory and the search has not ended, the search
    /// ends by that report.
    pub fn sign_off(&mut self, worker: u32, memory: bool)
        requires worker { worker < self.old.settings.workers }
        requires vacant { (counts_of self.old).leases worker ≡ None }
        requires stays { IsFalse ((counts_of self.old).signed_off worker) }
        requires cause { IsTrue (memory || is_some self.old.end) }
        ensures events { Adds self.old self.new (Off worker memory ∷ ending memory self.old.end) }
        ensures room { rooms self.new ≡ rooms self.old }
    {
        let seat = self.seats[worker as usize];
        self.seats[worker as usize] = Seat {
            signed_off: true,
            ..seat
        };
        self.journal.push_reserved(Event::Off { worker, memory });
        self.promised -= 1 + end_by_report(memory, &mut self.end, &mut self.journal);
    }

    /// The search ends quietly: the caller knows that no row is Opened.
    pub fn end_quiet(&mut self)
        requires none { self.old.end ≡ None }
        requires home { IsFalse (is_any_out self.old.settings.workers (counts_of self.old).leases) }
        ensures events { Adds self.old self.new (Ended Quiet ∷ []) }
        ensures room { rooms self.new ≡ rooms self.old }
    {
        self.end = Some(End::Quiet);
        self.promised -= 1;
        self.journal.push_reserved(Event::Ended(End::Quiet));
    }

    /// The search ends by its budget: the caller knows that some row is Opened.
    pub fn end_budget(&mut self)
        requires none { self.old.end ≡ None }
        requires home { IsFalse (is_any_out self.old.settings.workers (counts_of self.old).leases) }
        requires spent { self.old.left ≡ 0 }
        ensures events { Adds self.old self.new (Ended Budget ∷ []) }
        ensures room { rooms self.new ≡ rooms self.old }
    {
        self.end = Some(End::Budget);
        self.promised -= 1;
        self.journal.push_reserved(Event::Ended(End::Budget));
    }
}

/// If a worker reports out of memory and the search has not ended, the search ends by that report.
/// The answer is how many events this added.
pub fn end_by_report(memory: bool, end: &mut Option<End>, journal: &mut Vec<Event>) -> usize
    requires room { (memory && is_none end.old) ≡ true
        → vec_len journal.old < vec_capacity journal.old }
    ensures end { end.new ≡ end_after memory end.old }
    ensures journal { journal.new.items ≡ journal.old.items ++ ending memory end.old }
    ensures count { result ≡ one_if (memory && is_none end.old) }
    ensures len { vec_len journal.new ≡ vec_len journal.old + result }
    ensures capacity { vec_capacity journal.new ≡ vec_capacity journal.old }
{
    if !memory || end.is_some() {
        return 0;
    }
    *end = Some(End::Memory);
    journal.push_reserved(Event::Ended(End::Memory));
    1
}
