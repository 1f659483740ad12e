//! What a worker has its leases from.
ghost use Rattle.std.specs.Prelude.{◌≡◌, ◌<◌, ◌≤◌, ℕ, IfSome, IfNone};
ghost use Rattle.pb_model.specs.Store.{HasOpened};
ghost use Rattle.pb_machine.specs.Tables.{one_if};
ghost use Rattle.pb_lease.specs.LeaseValue.{LeaseValue};
ghost use Rattle.pb_expand.specs.Turned.{own_rows};
ghost use Rattle.pb_expand.specs.Worked.{broken_by};
ghost use Rattle.pb_expand.specs.declared.working.Worked.TheVariants.{Spent, Empty};
ghost use Rattle.pb_yard.specs.Order.{HasCause, HasStopped};
ghost use Rattle.pb_workers.specs.Serving.{Search, Serves};
ghost use Rattle.pb_workers.specs.Switched.{IfGoing, IfHome, IfBusy, IfKept, IfGiven};

use crate::worker::Worker;
use pb_expand::Worked;
use pb_lease::{Lease, Renewed};

/// The answer to a worker that tries to go on without waiting.
pub enum Switched {
    /// The lease goes on: if it were home, its block would be the first choice.
    Kept(Lease),
    /// The lease came back, and the worker has this other one.
    Next(Lease),
    /// The lease came back, and the worker has none.
    Home,
    /// Nothing was tried, or another worker was in the way. The lease is unchanged.
    Busy(Lease),
}

/// A worker has its leases from a graph that it searches alone, or from a yard that it shares. The
/// calls are those that the rule of a worker makes while it has a lease. Each says what became of
/// the lease since it was given, whatever was true of it then.
pub trait Lessor {
    // What is searched.
    ghost searched: { Self → Search };

    // How many turns there may still be with this lease.
    ghost turns_left: { Self → LeaseValue → ℕ };

    // The lease that was given at the first moment went on, or others in its place, until it is
    // this one now, as it was given or last renewed.
    ghost holds: { (begin : Self) → (given : LeaseValue) → (now : Self) → LeaseValue → Type 0 };

    // It went on, and was worked on, with at most so many expansions that were broken off.
    ghost worked: { (begin : Self) → (given : LeaseValue) → (now : Self) → LeaseValue
        → (broken : ℕ) → Type 0 };

    // It went on, was worked on, and a rival was marked or none.
    ghost may_return: { (begin : Self) → (given : LeaseValue) → (now : Self) → LeaseValue
        → (broken : ℕ) → Type 0 };

    // It came back.
    ghost returned: { (begin : Self) → (given : LeaseValue) → (now : Self) → Type 0 };

    // The worker asked for the rival of its lease's block, and the reply was this one.
    ghost told: { (asked : Self) → LeaseValue → (rival : ℕ) → (now : Self) → Type 0 };

    // The worker asked for the rival, and asked that it be hot if there is one. It asked that of no
    // other block.
    ghost marked: { (asked : Self) → LeaseValue → (now : Self) → Type 0 };

    // No rival has to be marked.
    ghost unmarked: { (begin : Self) (given : LeaseValue) (now : Self) (lease : LeaseValue)
        (broken : ℕ) → worked begin given now lease broken
        → may_return begin given now lease broken };

    /// The worker works on its lease until its quota is used up, no row of its block is Opened, or
    /// memory runs out.
    fn work_on(&mut self, worker: &mut Worker, lease: &mut Lease) -> Worked
        requires serves { Serves worker.old (searched self.old) }
        requires holds { (begin : Self) × (given : LeaseValue)
            × holds begin given self.old lease.old }
        ensures worked { (begin : Self) (given : LeaseValue) → holds begin given self.old lease.old
            → worked begin given self.new lease.new (broken_by result) }
        ensures spent { result ≡ Spent → lease.new.used ≡ lease.new.quota }
        ensures empty { result ≡ Empty → HasOpened (own_rows lease.new) → ⊥ }
        ensures left { turns_left self.new lease.new ≤ turns_left self.old lease.old }
        ensures searched { searched self.new ≡ searched self.old }
        ensures serves { Serves worker.new (searched self.new) };

    /// The rival of the lease's block: the best block of its interference that is better. None if
    /// there is no such block.
    fn rival_of(&mut self, lease: &Lease) -> Option<u32>
        requires worked { (begin : Self) × (given : LeaseValue)
            × worked begin given self.old lease.now 0 }
        ensures worked { (begin : Self) (given : LeaseValue)
            → worked begin given self.old lease.now 0 → worked begin given self.new lease.now 0 }
        ensures told { IfSome result (λ rival. told self.old lease.now rival self.new) }
        ensures none { IfNone result (marked self.old lease.now self.new) }
        ensures left { turns_left self.new lease.now ≤ turns_left self.old lease.now }
        ensures searched { searched self.new ≡ searched self.old };

    /// The worker asks that the rival that was reported to it be hot. Its lease's quota is used up.
    fn mark(&mut self, lease: &Lease, rival: u32)
        requires worked { (begin : Self) × (given : LeaseValue)
            × worked begin given self.old lease.now 0 }
        requires told { (asked : Self) × told asked lease.now rival self.old }
        requires spent { lease.now.used ≡ lease.now.quota }
        ensures may_return { (begin : Self) (given : LeaseValue)
            → worked begin given self.old lease.now 0
            → may_return begin given self.new lease.now 0 }
        ensures marked { (asked : Self) → told asked lease.now rival self.old
            → marked asked lease.now self.new }
        ensures left { turns_left self.new lease.now ≤ turns_left self.old lease.now }
        ensures searched { searched self.new ≡ searched self.old };

    /// The worker tries to go on without waiting, with its lease or with another one. Its lease's
    /// quota is used up, or no row of its block is Opened.
    fn switch(&mut self, lease: Lease) -> Switched
        requires may_return { (begin : Self) × (given : LeaseValue)
            × may_return begin given self.old lease 0 }
        requires stopped { HasStopped lease }
        ensures going { (begin : Self) (given : LeaseValue)
            → may_return begin given self.old lease 0
            → IfGoing result (holds begin given self.new) }
        ensures left { IfGoing result (λ lent. turns_left self.new lent
            < turns_left self.old lease) }
        ensures home { (begin : Self) (given : LeaseValue)
            → may_return begin given self.old lease 0
            → IfHome result (returned begin given self.new) }
        ensures busy { IfBusy result (λ back. back ≡ lease) }
        ensures still { (begin : Self) (given : LeaseValue)
            → may_return begin given self.old lease 0
            → IfBusy result (λ back. may_return begin given self.new back 0) }
        ensures left_still { IfBusy result (λ back. turns_left self.new back
            ≤ turns_left self.old lease) }
        ensures searched { searched self.new ≡ searched self.old };

    /// The worker asks to go on with its lease, whose quota is used up.
    fn go_on(&mut self, lease: Lease) -> Renewed
        requires may_return { (begin : Self) × (given : LeaseValue)
            × may_return begin given self.old lease 0 }
        requires spent { lease.used ≡ lease.quota }
        ensures kept { (begin : Self) (given : LeaseValue)
            → may_return begin given self.old lease 0
            → IfKept result (holds begin given self.new) }
        ensures left { IfKept result (λ kept. turns_left self.new kept
            < turns_left self.old lease) }
        ensures home { (begin : Self) (given : LeaseValue)
            → may_return begin given self.old lease 0
            → IfGiven result (returned begin given self.new) }
        ensures searched { searched self.new ≡ searched self.old };

    /// The worker brings its lease back without asking to go on with it: no row of its block is
    /// Opened, or the worker is out of memory.
    fn give_back(&mut self, lease: Lease, memory: bool)
        requires may_return { (begin : Self) × (given : LeaseValue)
            × may_return begin given self.old lease (one_if memory) }
        requires cause { HasCause lease memory }
        ensures home { (begin : Self) (given : LeaseValue)
            → may_return begin given self.old lease (one_if memory)
            → returned begin given self.new }
        ensures searched { searched self.new ≡ searched self.old };

    /// Tells those that wait for a block that a lease came back.
    fn tell_return(&self);
}
