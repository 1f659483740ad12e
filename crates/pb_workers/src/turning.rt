//! The rule of a worker that has a lease, whatever it has it from.
ghost use Rattle.std.specs.Prelude.{◌≡◌, ◌<◌, false, IfSome, IfNone, IsTrue, IsFalse};
ghost use Rattle.pb_lease.specs.LeaseValue.{LeaseValue};
ghost use Rattle.pb_yard.specs.Order.{HasCause};
ghost use Rattle.pb_workers.specs.Serving.{Serves};

use crate::lessor::{Lessor, Switched};
use crate::marking::mark_rival;
use crate::worker::Worker;
use pb_expand::Worked;
use pb_lease::{Lease, Renewed};
use pb_outside::Gate;

// Goes on without waiting, if that can be tried, with the lease or with another one. Else a lease
// whose quota is used up is renewed or comes back, and any other comes back: it has no Opened row.
fn settle<L: Lessor, G: Gate>(
    lessor: &mut L,
    gate: &G,
    lease: Lease,
    is_spent: bool,
) -> Option<Lease>
    requires may_return { (begin : L) × (given : LeaseValue)
        × L.may_return begin given lessor.old lease 0 }
    requires spent { IsTrue is_spent → lease.used ≡ lease.quota }
    requires empty { IsFalse is_spent → HasCause lease false }
    ensures holds { (begin : L) (given : LeaseValue) → L.may_return begin given lessor.old lease 0
        → IfSome result (L.holds begin given lessor.new) }
    ensures left { IfSome result (λ kept. L.turns_left lessor.new kept
        < L.turns_left lessor.old lease) }
    ensures home { (begin : L) (given : LeaseValue) → L.may_return begin given lessor.old lease 0
        → IfNone result (L.returned begin given lessor.new) }
    ensures searched { L.searched lessor.new ≡ L.searched lessor.old }
{
    match lessor.switch(lease) {
        Switched::Kept(kept) => Some(kept),
        Switched::Next(next) => {
            // The lease before came back, which can make a block free for a sleeper.
            lessor.tell_return();
            gate.leased(next.worker(), next.block());
            Some(next)
        }
        Switched::Home => None,
        Switched::Busy(lease) => {
            if is_spent {
                match lessor.go_on(lease) {
                    Renewed::Kept(kept) => Some(kept),
                    Renewed::Given => None,
                }
            } else {
                lessor.give_back(lease, false);
                None
            }
        }
    }
}

/// Works on a lease until its quota is used up, no row of its block is Opened, or memory runs out.
/// Then the worker goes on, with the lease or with another one, or its lease comes back.
pub fn turn<L: Lessor, G: Gate>(
    worker: &mut Worker,
    lessor: &mut L,
    gate: &G,
    mut lease: Lease,
) -> Option<Lease>
    requires serves { Serves worker.old (L.searched lessor.old) }
    requires holds { (begin : L) × (given : LeaseValue) × L.holds begin given lessor.old lease }
    ensures holds { (begin : L) (given : LeaseValue) → L.holds begin given lessor.old lease
        → IfSome result (L.holds begin given lessor.new) }
    ensures left { IfSome result (λ kept. L.turns_left lessor.new kept
        < L.turns_left lessor.old lease) }
    ensures home { (begin : L) (given : LeaseValue) → L.holds begin given lessor.old lease
        → IfNone result (L.returned begin given lessor.new) }
    ensures searched { L.searched lessor.new ≡ L.searched lessor.old }
    ensures serves { Serves worker.new (L.searched lessor.new) }
{
    let worked = lessor.work_on(worker, &mut lease);
    gate.giving(lease.worker(), lease.block());
    match worked {
        Worked::Spent => {
            mark_rival(lessor, &lease);
            settle(lessor, gate, lease, true)
        }
        Worked::Empty => settle(lessor, gate, lease, false),
        Worked::Memory => {
            lessor.give_back(lease, true);
            None
        }
    }
}
