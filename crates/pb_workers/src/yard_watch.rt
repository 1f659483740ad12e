//! The incumbent of a yard, as a worker watches it while it works.
use pb_expand::Watch;
use pb_lease::Lease;
use pb_yard::{Pass, Yard};

/// A yard and the pass of a worker, by which work on a lease reads the yard's incumbent and lowers
/// it. It takes no memory and never waits.
#[derive(Drop)]
pub struct YardWatch<'a> {
    /// The yard.
    pub yard: &'a Yard,
    /// One of its passes.
    pub pass: Pass,
}

impl<'a> Watch for YardWatch<'a> {
    ghost use Rattle.pb_workers.specs.Watching.{watch_view, IsWatchOf, IsSameWatch, same_watch, same_watch_on};
    ghost use Rattle.std.specs.Prelude.{Some};
    ghost use Rattle.pb_yard.specs.Passes.{view_of};

    ghost seen = { λ watch. Some (watch_view (view_of watch.pass)) };

    ghost can = { IsWatchOf };

    ghost stays = { IsSameWatch };

    ghost stays_none = { same_watch };

    ghost stays_on = { same_watch_on };

    fn read(&mut self) -> Option<u64> {
        self.yard.glance(&mut self.pass)
    }

    fn tell(&mut self, lease: &Lease, cost: u64) {
        self.yard.lower(&mut self.pass, lease, cost);
    }
}
