//! Leases that a worker takes, goes on with, and brings back.
ghost use Rattle.std.specs.Prelude.{◌≡◌, None};
ghost use Rattle.pb_machine.specs.Tables.{one_if};
ghost use Rattle.pb_lease.specs.declared.answer.LeaseReply.TheVariants.{Leased};
ghost use Rattle.pb_lease.specs.declared.answer.Renewed.TheVariants.{Kept};
ghost use Rattle.pb_lease.specs.LeaseValue.{LeaseValue};
ghost use Rattle.pb_yard.specs.Views.{KeepsOrder, view_leaving_order};
ghost use Rattle.pb_yard.specs.Passes.{view_of, worker_of, IsOf, KeepsPass, TakesTurnOnce};
ghost use Rattle.pb_yard.specs.Order.{HasCause};
ghost use Rattle.pb_yard.specs.Returning.{IsBrought};
ghost use Rattle.pb_yard.specs.Calls.{IsActive, Leases, Renews, Releases};

use crate::pass::Pass;
use crate::rule::{AfterLease, AfterLeavingOrder, AfterRelease, AfterRenewal};
use crate::yard::Yard;
use pb_lease::{Lease, LeaseReply, Renewed};
use std::sync::Wait;

impl Yard {
    /// The pass's worker asks for a lease. It is answered as the graph answers at some moment that
    /// isn't before what the pass had seen.
    pub fn lease<W: Wait>(&self, rt: &W, pass: &mut Pass) -> LeaseReply
        requires own { IsOf self.now pass.old }
        requires vacant { (view_of pass.old).lent ≡ None }
        requires stays { IsActive (view_of pass.old) }
        ensures same { KeepsPass pass.old pass.new }
        ensures one_turn { TakesTurnOnce pass.old pass.new }
        ensures leased { Leases (worker_of pass.old) (view_of pass.old) result (view_of pass.new) }
        ensures copy { (given : LeaseValue) → result ≡ Leased given
            → given.incumbent ≡ (view_of pass.new).last }
    {
        let (mut held, incumbent) = self.enter_reading(rt, &mut pass.turn);
        pass.last = incumbent;
        let reply = held.state_mut().lease(pass.worker);
        pass.seen = held.state().journal().len() as u64;
        self.lock.leave::<AfterLease>(&mut pass.turn, held, &reply);
        reply
    }

    /// The pass's worker leaves the order, for good. From now on it may expand the rows of its lease
    /// in any order, and bring the lease back at any time. No call takes it back into the order, and
    /// no other call lets it leave. What is claimed of the other workers' moves stays.
    pub fn leave_order<W: Wait>(&self, rt: &W, pass: &mut Pass)
        requires own { IsOf self.now pass.old }
        ensures same { KeepsPass pass.old pass.new }
        ensures one_turn { TakesTurnOnce pass.old pass.new }
        ensures left { view_of pass.new ≡ view_leaving_order (view_of pass.old) }
    {
        let held = self.lock.enter(rt, &mut pass.turn);
        self.lock
            .leave::<AfterLeavingOrder>(&mut pass.turn, held, &());
    }

    /// The pass's worker asks to go on with its lease. Only its work made this lease from the one
    /// that it was lent. A worker that keeps the order worked in turns, and used up the quota.
    pub fn renew<W: Wait>(&self, rt: &W, pass: &mut Pass, lease: Lease) -> Renewed
        requires own { IsOf self.now pass.old }
        requires brought { IsBrought (view_of pass.old) 0 lease }
        requires spent { KeepsOrder (view_of pass.old) → lease.used ≡ lease.quota }
        ensures same { KeepsPass pass.old pass.new }
        ensures one_turn { TakesTurnOnce pass.old pass.new }
        ensures renewed { Renews lease (view_of pass.old) result (view_of pass.new) }
        ensures copy { (kept : LeaseValue) → result ≡ Kept kept
            → kept.incumbent ≡ (view_of pass.new).last }
    {
        let (mut held, incumbent) = self.enter_reading(rt, &mut pass.turn);
        pass.last = incumbent;
        let graph = held.state_mut();
        // The call shows that the graph is lawful.
        let _ = graph.abstraction();
        let reply = graph.renew(lease);
        pass.seen = held.state().journal().len() as u64;
        self.lock
            .leave::<AfterRenewal>(&mut pass.turn, held, &reply);
        reply
    }

    /// The pass's worker brings its lease back. Only its work made this lease from the one that it
    /// was lent. Only with a report that it is out of memory an expansion may have been broken off.
    ///
    /// If the worker keeps the order, it worked in turns, and the return has a cause: such a report,
    /// or that no row of the lease's block is Opened. With a used-up quota it asks to go on: `renew`
    /// and `try_switch` tell it whether it may.
    pub fn release<W: Wait>(&self, rt: &W, pass: &mut Pass, lease: Lease, memory: bool)
        requires own { IsOf self.now pass.old }
        requires brought { IsBrought (view_of pass.old) (one_if memory) lease }
        requires cause { KeepsOrder (view_of pass.old) → HasCause lease memory }
        ensures same { KeepsPass pass.old pass.new }
        ensures one_turn { TakesTurnOnce pass.old pass.new }
        ensures released { Releases lease memory (view_of pass.old) (view_of pass.new) }
    {
        let (mut held, incumbent) = self.enter_reading(rt, &mut pass.turn);
        pass.last = incumbent;
        held.state_mut().release(lease, memory);
        pass.seen = held.state().journal().len() as u64;
        self.lock.leave::<AfterRelease>(&mut pass.turn, held, &());
    }
}
