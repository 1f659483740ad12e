//! The incumbent as a worker sees it while it works.
ghost use Rattle.std.specs.Prelude.{◌≡◌, ⊤, IfSome, Option, None, refl};
ghost use mathlib.Core.Path.{◌∙◌};
ghost use Rattle.pb_expand.specs.Watching.{WatchView, MayTell, Reads, Tells};

use pb_lease::Lease;

/// From its watch a worker reads the least cost that any worker has found. It tells the watch each
/// cost of its own. Costs are in the unit of the task's action costs. Neither call waits or takes
/// memory.
pub trait Watch {
    // What the watch knows, or None if it reads none and keeps nothing that is reported.
    ghost seen: { Self → Option WatchView };

    // What both calls need, and keep.
    ghost can: { Self → Type 0 };

    // The second value is the first watch, after any number of these calls.
    ghost stays: { Self → Self → Type 0 };

    ghost stays_none: { (watch : Self) → stays watch watch };

    ghost stays_on: { (old mid new : Self) → stays old mid → stays mid new → stays old new };

    /// The least cost that this worker knows now, or None if it knows none. It never rises.
    fn read(&mut self) -> Option<u64>
        requires { can self.old }
        ensures can { can self.new }
        ensures stays { stays self.old self.new }
        ensures read { Reads (seen self.old) result (seen self.new) };

    /// Tells the watch the cost of a goal's row of the lease. The lease must not have that cost as
    /// its incumbent yet.
    fn tell(&mut self, lease: &Lease, cost: u64)
        requires can { can self.old }
        requires may { IfSome (seen self.old) (λ view. MayTell view lease.now cost) }
        ensures can { can self.new }
        ensures stays { stays self.old self.new }
        ensures told { Tells (seen self.old) cost (seen self.new) };
}

/// The watch of a worker that has nobody to hear of: it reads none, and what is reported to it is
/// lost.
#[derive(Drop)]
pub struct NoWatch;

impl Watch for NoWatch {
    ghost seen = { λ watch. None };

    ghost can = { λ watch. ⊤ };

    ghost stays = { λ old new. new ≡ old };

    ghost stays_none = { λ watch. refl };

    ghost stays_on = { λ old mid new one two. two ∙ one };

    fn read(&mut self) -> Option<u64> {
        None
    }

    fn tell(&mut self, _lease: &Lease, _cost: u64) {}
}
