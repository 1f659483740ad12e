//! Hot marks.
ghost use Rattle.std.specs.Prelude.{◌≡◌, ◌-◌, ◌<◌, ℕ, [], ◌∷◌, IsTrue, IsFalse, IsSome};
ghost use Rattle.pb_machine.specs.declared.event.Event.TheVariants.{Hot, Cold};
ghost use Rattle.pb_machine.specs.Tables.{with_entry};
ghost use Rattle.pb_lease.specs.Tables.{blocks, counts_of, rooms};
ghost use Rattle.pb_lease.specs.Events.{Adds};
ghost use Rattle.pb_lease.specs.Marking.{may_be_marked, may_be_cooled};

use crate::seat::Seat;
use crate::tables::MachineTables;
use pb_machine::Event;

impl MachineTables {
    /// Whether the worker may mark the block hot. The caller says whether a better block of its
    /// interference is hot.
    pub fn may_be_marked(&self, worker: u32, block: u32, outranked: bool) -> bool
        requires leased { IsSome ((counts_of self.now).leases worker) }
        requires block { block < (blocks self.now).count }
        ensures { result ≡ may_be_marked self.now worker block outranked }
    {
        let allowed = self.end.is_none() & !self.settings.plain;
        let is_cold = !self.marks.hot[block as usize];
        let is_busy = self.busy[block as usize] > 0;
        let has_room = self.seats[worker as usize].room > 0;
        allowed & is_cold & is_busy & !outranked & has_room
    }

    /// Whether the worker may take the block's mark away.
    pub fn may_be_cooled(&self, worker: u32, block: u32) -> bool
        requires leased { IsSome ((counts_of self.now).leases worker) }
        requires block { block < (blocks self.now).count }
        ensures { result ≡ may_be_cooled self.now worker block }
    {
        let no_end = self.end.is_none();
        let is_hot = self.marks.hot[block as usize];
        let has_room = self.seats[worker as usize].room > 0;
        no_end & is_hot & has_room
    }

    /// The worker marks the block hot, and the hot blocks of its interference become cold. The
    /// answer is false, and nothing changes, if and only if one of these holds:
    ///
    /// - The search has ended, or blocks are never hot.
    /// - The block is hot, or isn't busy.
    /// - A better block of its interference is hot, which the caller says.
    /// - The worker's room is used up.
    pub fn mark_hot(&mut self, worker: u32, block: u32, outranked: bool) -> bool
        requires leased { IsSome ((counts_of self.old).leases worker) }
        requires block { block < (blocks self.old).count }
        ensures answer { result ≡ may_be_marked self.old worker block outranked }
        ensures events { IsTrue result → Adds self.old self.new (Hot worker block ∷ []) }
        ensures room { IsTrue result → rooms self.new
            ≡ with_entry (rooms self.old) worker (rooms self.old worker - 1) }
        ensures refused { IsFalse result → self.new ≡ self.old }
    {
        if !self.may_be_marked(worker, block, outranked) {
            return false;
        }
        // No two hot blocks interfere, so those near this block become cold first.
        self.marks
            .cool_all(&self.abstraction, self.abstraction.interference(block));
        self.marks.mark(&self.abstraction, block);
        let seat = self.seats[worker as usize];
        self.seats[worker as usize] = Seat {
            room: seat.room - 1,
            ..seat
        };
        self.promised -= 1;
        self.journal.push_reserved(Event::Hot { worker, block });
        true
    }

    /// The worker takes the block's mark away. The answer is false, and nothing changes, if and
    /// only if the search has ended, the block isn't hot, or the worker's room is used up.
    pub fn cool(&mut self, worker: u32, block: u32) -> bool
        requires leased { IsSome ((counts_of self.old).leases worker) }
        requires block { block < (blocks self.old).count }
        ensures answer { result ≡ may_be_cooled self.old worker block }
        ensures events { IsTrue result → Adds self.old self.new (Cold worker block ∷ []) }
        ensures room { IsTrue result → rooms self.new
            ≡ with_entry (rooms self.old) worker (rooms self.old worker - 1) }
        ensures refused { IsFalse result → self.new ≡ self.old }
    {
        if !self.may_be_cooled(worker, block) {
            return false;
        }
        self.marks.cool(&self.abstraction, block);
        let seat = self.seats[worker as usize];
        self.seats[worker as usize] = Seat {
            room: seat.room - 1,
            ..seat
        };
        self.promised -= 1;
        self.journal.push_reserved(Event::Cold { worker, block });
        true
    }
}
