//! Rivals and hot marks, and workers that sign off.
ghost use Rattle.std.specs.Prelude.{◌≡◌, ◌<◌, ◌||◌, None, IsTrue, IsSome, is_some};
ghost use Rattle.pb_machine.specs.History.{end_in};
ghost use Rattle.pb_abstract.specs.Graph.{blocks_of};
ghost use Rattle.pb_yard.specs.Passes.{view_of, worker_of, IsOf, KeepsPass, TakesTurnOnce};
ghost use Rattle.pb_yard.specs.Returning.{IsLeaseOf};
ghost use Rattle.pb_yard.specs.Replies.{reported};
ghost use Rattle.pb_yard.specs.Calls.{IsActive, AsksRival, Marks, Cools, SignsOff};

use crate::pass::Pass;
use crate::rule::AfterLook;
use crate::yard::Yard;
use pb_lease::Lease;
use pb_machine::End;
use std::sync::Wait;

// Whether a worker's sign-off has its report.
fn is_reported(memory: bool, end: Option<End>) -> bool
    ensures { result ≡ reported memory end }
{
    memory && end.is_none()
}

impl Yard {
    /// The rival of the block of the pass's lease, as the graph answers. Nothing changes.
    pub fn rival<W: Wait>(&self, rt: &W, pass: &mut Pass, lease: &Lease) -> Option<u32>
        requires own { IsOf self.now pass.old }
        requires leased { IsLeaseOf (view_of pass.old) lease.now }
        ensures same { KeepsPass pass.old pass.new }
        ensures one_turn { TakesTurnOnce pass.old pass.new }
        ensures rival { AsksRival lease.now (view_of pass.old) result (view_of pass.new) }
    {
        let held = self.lock.enter(rt, &mut pass.turn);
        let rival = held.state().rival(lease);
        pass.seen = held.state().journal().len() as u64;
        self.lock.leave::<AfterLook>(&mut pass.turn, held, &());
        rival
    }

    /// The pass's worker, which has a lease, asks that the block be hot, and is answered as the
    /// graph answers.
    pub fn mark_hot<W: Wait>(&self, rt: &W, pass: &mut Pass, block: u32) -> bool
        requires own { IsOf self.now pass.old }
        requires leased { IsSome (view_of pass.old).lent }
        requires block { block < (blocks_of (view_of pass.old).abstraction).count }
        ensures same { KeepsPass pass.old pass.new }
        ensures one_turn { TakesTurnOnce pass.old pass.new }
        ensures marked { Marks (worker_of pass.old) block (view_of pass.old) result
            (view_of pass.new) }
    {
        let mut held = self.lock.enter(rt, &mut pass.turn);
        let done = held.state_mut().mark_hot(pass.worker, block);
        pass.seen = held.state().journal().len() as u64;
        self.lock.leave::<AfterLook>(&mut pass.turn, held, &());
        done
    }

    /// The pass's worker, which has a lease, asks that the block be hot no longer, and is answered
    /// as the graph answers.
    pub fn cool<W: Wait>(&self, rt: &W, pass: &mut Pass, block: u32) -> bool
        requires own { IsOf self.now pass.old }
        requires leased { IsSome (view_of pass.old).lent }
        requires block { block < (blocks_of (view_of pass.old).abstraction).count }
        ensures same { KeepsPass pass.old pass.new }
        ensures one_turn { TakesTurnOnce pass.old pass.new }
        ensures cooled { Cools (worker_of pass.old) block (view_of pass.old) result
            (view_of pass.new) }
    {
        let mut held = self.lock.enter(rt, &mut pass.turn);
        let done = held.state_mut().cool(pass.worker, block);
        pass.seen = held.state().journal().len() as u64;
        self.lock.leave::<AfterLook>(&mut pass.turn, held, &());
        done
    }

    /// The pass's worker signs off, and has no lease. It saw the end of the search, or reports that
    /// it is out of memory. The sign-off has the report only if no end stands: later the report
    /// would change nothing.
    pub fn sign_off<W: Wait>(&self, rt: &W, pass: &mut Pass, memory: bool)
        requires own { IsOf self.now pass.old }
        requires vacant { (view_of pass.old).lent ≡ None }
        requires stays { IsActive (view_of pass.old) }
        requires cause { IsTrue (memory || is_some (end_in (view_of pass.old).journal.seen)) }
        ensures same { KeepsPass pass.old pass.new }
        ensures one_turn { TakesTurnOnce pass.old pass.new }
        ensures signed_off { SignsOff (worker_of pass.old) memory (view_of pass.old)
            (view_of pass.new) }
    {
        let mut held = self.lock.enter(rt, &mut pass.turn);
        let graph = held.state_mut();
        let report = is_reported(memory, graph.end());
        graph.sign_off(pass.worker, report);
        pass.seen = held.state().journal().len() as u64;
        self.lock.leave::<AfterLook>(&mut pass.turn, held, &());
    }
}
