//! What a pass reports to its worker.
ghost use Rattle.std.specs.Prelude.{◌≡◌, length};
ghost use Rattle.pb_yard.specs.Passes.{view_of, worker_of};

use crate::pass::Pass;

impl Pass {
    /// The number of its worker: 0 for the first pass.
    pub fn worker(&self) -> u32
        ensures worker { result ≡ worker_of self.now }
        ensures own { (view_of self.now).journal.own.worker ≡ result }
    {
        self.worker
    }

    /// How many events the journal had when this pass last held the graph. If a pass that this one
    /// was split from or took in held it later, it is the number at that time. It never falls.
    pub fn seen(&self) -> u64
        ensures { result ≡ length (view_of self.now).journal.seen }
    {
        self.seen
    }

    /// The least cost that this pass has read or reported as the incumbent; None if it has none. It
    /// never rises.
    pub fn last(&self) -> Option<u64>
        ensures { result ≡ (view_of self.now).last }
    {
        self.last
    }
}
