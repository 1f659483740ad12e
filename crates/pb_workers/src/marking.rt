//! The hot mark of a lease's rival.
ghost use Rattle.std.specs.Prelude.{◌≡◌, ◌≤◌};
ghost use Rattle.pb_lease.specs.LeaseValue.{LeaseValue};

use crate::lessor::Lessor;
use pb_lease::Lease;

/// Marks the rival of the lease's block hot, if there is one and it may be marked: in a plain
/// search it never may. The lease's quota is used up.
pub fn mark_rival<L: Lessor>(lessor: &mut L, lease: &Lease)
    requires worked { (begin : L) × (given : LeaseValue)
        × L.worked begin given lessor.old lease.now 0 }
    requires spent { lease.now.used ≡ lease.now.quota }
    ensures may_return { (begin : L) (given : LeaseValue)
        → L.worked begin given lessor.old lease.now 0
        → L.may_return begin given lessor.new lease.now 0 }
    ensures marked { L.marked lessor.old lease.now lessor.new }
    ensures left { L.turns_left lessor.new lease.now ≤ L.turns_left lessor.old lease.now }
    ensures searched { L.searched lessor.new ≡ L.searched lessor.old }
{
    if let Some(rival) = lessor.rival_of(lease) {
        lessor.mark(lease, rival);
    }
}
