//! The work on a lease, turn by turn, until it comes back.
ghost use Rattle.std.specs.Prelude.{◌≡◌};
ghost use Rattle.pb_lease.specs.LeaseValue.{LeaseValue};
ghost use Rattle.pb_workers.specs.Serving.{Serves};

use crate::lessor::Lessor;
use crate::turning::turn;
use crate::worker::Worker;
use pb_lease::Lease;
use pb_outside::Gate;

/// Works on a lease for as long as it goes on, or others in its place, until it comes back. Those
/// that wait for a block are notified.
pub fn hold<L: Lessor, G: Gate>(worker: &mut Worker, lessor: &mut L, gate: &G, lease: Lease)
    requires serves { Serves worker.old (L.searched lessor.old) }
    requires holds { (begin : L) × (given : LeaseValue) × L.holds begin given lessor.old lease }
    ensures home { (begin : L) (given : LeaseValue) → L.holds begin given lessor.old lease
        → L.returned begin given lessor.new }
    ensures searched { L.searched lessor.new ≡ L.searched lessor.old }
    ensures serves { Serves worker.new (L.searched lessor.new) }
{
    let mut held = lease;
    'turns: loop {
        match turn(worker, lessor, gate, held) {
            Some(kept) => held = kept,
            None => {
                lessor.tell_return();
                return;
            }
        }
    }
}
