//! The offers of an expansion.
ghost use Rattle.std.specs.Prelude.{◌≡◌, ◌<◌, ◌^◌, OnOk, OnErr};
ghost use Rattle.pb_model.specs.Space.{steps, IsProper};
ghost use Rattle.pb_task.specs.Parts.{space_of, greatest_cost};
ghost use Rattle.pb_estimate.specs.Tables.{IsOfTask};
ghost use Rattle.pb_abstract.specs.Graph.{IsGraphOf};
ghost use Rattle.pb_lease.specs.Leased.{guide_of};
ghost use Rattle.pb_lease.specs.Rows.{ChangesRows, HasOffers, IsBrokenOff, LeadsInto};

use crate::bundles::offer;
use pb_abstract::AbsGraph;
use pb_estimate::Estimator;
use pb_lease::Lease;
use pb_model::Succ;
use pb_packed::Packed;
use pb_task::Task;
use std::alloc::AllocError;

/// Offers the successors of a row with this g, one after another, each to the bundle of its own
/// block. If memory runs out, only the first of them were offered.
pub fn offer_all(
    task: &Task,
    estimator: &mut Estimator,
    abstraction: &AbsGraph,
    lease: &mut Lease,
    succs: &[Succ],
    parent: &Packed,
    g: u64,
) -> Result<(), AllocError>
    requires tables { IsOfTask estimator.old task.now lease.old.choice }
    requires of_task { IsGraphOf task.now abstraction.now }
    requires proper { IsProper (space_of task.now) greatest_cost }
    requires succs { succs.now ≡ steps (space_of task.now) parent.now }
    requires there { LeadsInto (space_of task.now) (guide_of task.now abstraction.now
        lease.old.choice) parent.now
        lease.old.parts }
    requires cheap { g < 2 ^ 61 }
    ensures offers { OnOk result (HasOffers (guide_of task.now abstraction.now lease.old.choice)
        parent.now g succs.now
        lease.old lease.new) }
    ensures broken { OnErr result (IsBrokenOff (guide_of task.now abstraction.now lease.old.choice)
        parent.now g succs.now
        lease.old lease.new) }
    ensures changes { ChangesRows lease.old lease.new }
    ensures tables { IsOfTask estimator.new task.now lease.old.choice }
{
    for succ in succs {
        let cost = g + succ.cost;
        let block = abstraction.block(task, &succ.state);
        offer(task, estimator, lease, block, succ, parent, cost)?;
    }
    Ok(())
}
