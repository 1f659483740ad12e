//! Going on without waiting, with the lease or with another block.
ghost use Rattle.std.specs.Prelude.{◌≡◌, ◌≢◌, ◌+◌, ◌⊎◌};
ghost use Rattle.pb_lease.specs.declared.answer.SwitchReply.TheVariants as reply;
ghost use Rattle.pb_lease.specs.LeaseValue.{LeaseValue};
ghost use Rattle.pb_yard.specs.declared.switch.Switch.TheVariants.{Switched, Kept, Given, Busy};
ghost use Rattle.pb_yard.specs.Views.{KeepsOrder};
ghost use Rattle.pb_yard.specs.Passes.{view_of, parts_of, tries_of, misses_of, all_parts, IsOf, KeepsPass};
ghost use Rattle.pb_yard.specs.Order.{HasStopped};
ghost use Rattle.pb_yard.specs.Returning.{IsBrought};
ghost use Rattle.pb_yard.specs.Calls.{Switches};

use crate::pass::Pass;
use crate::rule::AfterSwitch;
use crate::switch::Switch;
use crate::yard::Yard;
use pb_lease::{Lease, SwitchReply};

impl Yard {
    /// The pass's worker tries to go on, in one holding of the turn, and never waits. Only its work
    /// made its lease from the one that it was lent. If the worker keeps the order, it worked in
    /// turns, and the lease's quota is used up, or no row of its block is Opened.
    ///
    /// It is answered as the graph answers: it goes on with its lease, or with another block, or
    /// its lease comes back. Whatever the answer, all takes effect at one step. The pass tries for
    /// the turn once. The answer is Busy only if that one step found the turn held; then the lease
    /// is unchanged.
    pub fn try_switch(&self, pass: &mut Pass, lease: Lease) -> Switch
        requires own { IsOf self.now pass.old }
        requires brought { IsBrought (view_of pass.old) 0 lease }
        requires cause { KeepsOrder (view_of pass.old) → HasStopped lease }
        ensures same { KeepsPass pass.old pass.new }
        ensures one_step { tries_of pass.new ≡ tries_of pass.old + 1 }
        ensures kept { (kept : LeaseValue) → result ≡ Kept kept
            → Switches lease (view_of pass.old) (reply.Kept kept) (view_of pass.new) }
        ensures switched { (next : LeaseValue) → result ≡ Switched next
            → Switches lease (view_of pass.old) (reply.Switched next) (view_of pass.new) }
        ensures given { result ≡ Given
            → Switches lease (view_of pass.old) reply.Given (view_of pass.new) }
        ensures copy { (has : LeaseValue) → (result ≡ Kept has) ⊎ (result ≡ Switched has)
            → has.incumbent ≡ (view_of pass.new).last }
        ensures busy { (back : LeaseValue) → result ≡ Busy back
            → (back ≡ lease) × (view_of pass.new ≡ view_of pass.old) }
        ensures held { (back : LeaseValue) → result ≡ Busy back
            → (misses_of pass.new ≡ misses_of pass.old + 1) × (parts_of pass.old ≢ all_parts) }
    {
        let Some((mut held, incumbent)) = self.try_enter_reading(&mut pass.turn) else {
            return Switch::Busy(lease);
        };
        pass.last = incumbent;
        let graph = held.state_mut();
        // The call shows that the graph is lawful.
        let _ = graph.abstraction();
        let reply = graph.try_switch(lease);
        pass.seen = held.state().journal().len() as u64;
        self.lock.leave::<AfterSwitch>(&mut pass.turn, held, &reply);
        match reply {
            SwitchReply::Switched(next) => Switch::Switched(next),
            SwitchReply::Kept(kept) => Switch::Kept(kept),
            SwitchReply::Given => Switch::Given,
        }
    }
}
