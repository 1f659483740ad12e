//! Workers that sign off.
ghost use Rattle.std.specs.Prelude.{◌≡◌, ◌<◌, ◌||◌, ◌∷◌, IsTrue, IsFalse, None, is_some};
ghost use Rattle.pb_machine.specs.declared.event.Event.TheVariants.{Off};
ghost use Rattle.pb_lease.specs.Events.{ending};
ghost use Rattle.pb_lease.specs.GraphValue.{counts_in};
ghost use Rattle.pb_lease.specs.Steps.{IsSignedOff, KeepsLeases};

use crate::graph::LeaseGraph;

impl LeaseGraph {
    /// The worker signs off: it takes no further part. If it reports out of memory and the search
    /// has not ended, the search ends by that report.
    pub fn sign_off(&mut self, worker: u32, memory: bool)
        requires worker { worker < self.old.table.settings.workers }
        requires vacant { (counts_in self.old).leases worker ≡ None }
        requires stays { IsFalse ((counts_in self.old).signed_off worker) }
        requires cause { IsTrue (memory || is_some self.old.table.end) }
        ensures signed_off { IsSignedOff self.old worker memory self.new }
        ensures moment { KeepsLeases self.old
            (Off worker memory ∷ ending memory self.old.table.end) self.new }
    {
        self.tables.sign_off(worker, memory);
    }
}
