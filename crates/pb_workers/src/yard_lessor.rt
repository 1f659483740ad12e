//! A yard as what one of its workers has its leases from.
use crate::event_count::EventCount;
use crate::lessor::{Lessor, Switched};
use crate::worker::Worker;
use crate::yard_watch::YardWatch;
use pb_expand::Worked;
use pb_lease::{Lease, Renewed};
use pb_yard::Switch;
use std::sync::{Forever, Wait};

/// A yard with the pass of a worker, and the count of events on which others sleep. A worker that
/// shares a yard may have any number of turns with its leases, so their end isn't proved: the last
/// field stands for it, as in a loop that may not end.
#[derive(Drop)]
pub struct YardLessor<'a, W: Wait> {
    pub(crate) rt: &'a W,
    pub(crate) count: &'a EventCount,
    pub(crate) watch: YardWatch<'a>,
    pub(crate) turns: Forever<'a, W>,
}

impl<'a, W: Wait> Lessor for YardLessor<'a, W> {
    ghost use Rattle.std.specs.Prelude.{refl};
    ghost use Rattle.std.proofs.Common.{inl};
    ghost use Rattle.std.specs.Sync.Forever.{forever_left};
    ghost use Rattle.pb_yard.specs.Marking.{turn_with};
    ghost use Rattle.pb_yard.specs.Passes.{view_of, worker_of};
    ghost use Rattle.pb_workers.specs.Serving.{searched_by};
    ghost use Rattle.pb_workers.specs.Shared.{MarksRivalTold};
    ghost use Rattle.pb_workers.specs.Sharing.{HasLease, HasUnmarkedWork, HasWorkToReturn, HasNone, IsToldRivalIn};

    ghost searched = { λ l. searched_by (view_of l.watch.pass) };

    ghost turns_left = { λ l lease. forever_left l.turns };

    ghost holds = { λ begin given now lease. HasLease begin.watch now.watch lease };

    ghost worked = { λ begin given now lease broken.
        HasUnmarkedWork begin.watch now.watch lease broken };

    ghost may_return = { λ begin given now lease broken.
        HasWorkToReturn begin.watch now.watch lease broken };

    ghost returned = { λ begin given now. HasNone begin.watch now.watch };

    ghost told = { λ asked lease rival now. IsToldRivalIn asked.watch lease rival now.watch };

    ghost marked = { λ asked lease now. MarksRivalTold (worker_of asked.watch.pass) lease
        (view_of asked.watch.pass) (view_of now.watch.pass) };

    ghost unmarked = { λ begin given now lease broken w. record {
      work = w.work;
      turn = λ before. (turn_with lease.quota, w.turn before, inl refl);
    } };

    fn work_on(&mut self, worker: &mut Worker, lease: &mut Lease) -> Worked {
        worker.work_watched(lease, &mut self.watch)
    }

    fn rival_of(&mut self, lease: &Lease) -> Option<u32> {
        self.watch.yard.rival(self.rt, &mut self.watch.pass, lease)
    }

    fn mark(&mut self, _lease: &Lease, rival: u32) {
        self.watch
            .yard
            .mark_hot(self.rt, &mut self.watch.pass, rival);
    }

    fn switch(&mut self, lease: Lease) -> Switched {
        match self.watch.yard.try_switch(&mut self.watch.pass, lease) {
            Switch::Kept(kept) => {
                self.turns.next();
                Switched::Kept(kept)
            }
            Switch::Switched(next) => {
                self.turns.next();
                Switched::Next(next)
            }
            Switch::Given => Switched::Home,
            Switch::Busy(lease) => Switched::Busy(lease),
        }
    }

    fn go_on(&mut self, lease: Lease) -> Renewed {
        match self.watch.yard.renew(self.rt, &mut self.watch.pass, lease) {
            Renewed::Kept(kept) => {
                self.turns.next();
                Renewed::Kept(kept)
            }
            Renewed::Given => Renewed::Given,
        }
    }

    fn give_back(&mut self, lease: Lease, memory: bool) {
        let yard = self.watch.yard;
        yard.release(self.rt, &mut self.watch.pass, lease, memory);
    }

    fn tell_return(&self) {
        self.count.advance(self.rt);
    }
}
