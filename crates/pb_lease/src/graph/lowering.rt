//! Costs that are known before their leases come back.
ghost use Rattle.std.specs.Prelude.{◌≡◌, Some};
ghost use Rattle.pb_model.specs.Store.{lesser};
ghost use Rattle.pb_lease.specs.Steps.{LowersIncumbent};

use crate::graph::LeaseGraph;
use crate::graph::returning::least;

impl LeaseGraph {
    /// Takes a cost at which a goal is known to be reached, in the unit of the task's action costs:
    /// the incumbent becomes the lesser of both. All else stays, the journal too.
    pub fn lower_incumbent(&mut self, cost: u64)
        ensures lowered { self.new ≡ record self.old
            { incumbent = lesser self.old.incumbent (Some cost) } }
        ensures moment { LowersIncumbent self.old cost self.new }
    {
        self.incumbent = least(self.incumbent, Some(cost));
    }
}
