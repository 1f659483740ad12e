//! A graph as what its only worker has its leases from.
use crate::lessor::{Lessor, Switched};
use crate::worker::Worker;
use pb_expand::Worked;
use pb_lease::{Lease, LeaseGraph, Renewed};

impl Lessor for LeaseGraph {
    ghost use Rattle.std.specs.Prelude.{refl};
    ghost use Rattle.std.proofs.Common.{inl};
    ghost use Rattle.pb_lease.specs.Tables.{rooms};
    ghost use Rattle.pb_yard.specs.Marking.{turn_with};
    ghost use Rattle.pb_workers.specs.Serving.{searched_in};
    ghost use Rattle.pb_workers.specs.Holding.{GoesOnTo, HasWorkedOn, IsToReturn, IsBack, IsToldRival, MarksRival};

    ghost searched = { searched_in };

    ghost turns_left = { λ g lease. rooms g.table lease.worker };

    ghost holds = { GoesOnTo };

    ghost worked = { HasWorkedOn };

    ghost may_return = { IsToReturn };

    ghost returned = { IsBack };

    ghost told = { IsToldRival };

    ghost marked = { MarksRival };

    ghost unmarked = { λ begin given now lease broken w. record {
      first = now;
      held = w.held;
      on = w.on;
      work = w.work;
      mark = inl refl;
      turn = λ before. (turn_with w.held.quota, w.on.turn before, inl refl);
    } };

    fn work_on(&mut self, worker: &mut Worker, lease: &mut Lease) -> Worked {
        // The call shows that the graph is lawful.
        let _ = self.abstraction();
        worker.work(lease)
    }

    fn rival_of(&mut self, lease: &Lease) -> Option<u32> {
        self.rival(lease)
    }

    fn mark(&mut self, lease: &Lease, rival: u32) {
        self.mark_hot(lease.worker(), rival);
    }

    fn switch(&mut self, lease: Lease) -> Switched {
        Switched::Busy(lease)
    }

    fn go_on(&mut self, lease: Lease) -> Renewed {
        // The call shows that the graph is lawful.
        let _ = self.abstraction();
        self.renew(lease)
    }

    fn give_back(&mut self, lease: Lease, memory: bool) {
        // The call shows that the graph is lawful.
        let _ = self.abstraction();
        self.release(lease, memory);
    }

    fn tell_return(&self) {}
}
