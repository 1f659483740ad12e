//! The expansion of a row, which is one turn of a worker.
ghost use Rattle.std.specs.Prelude.{◌≡◌, ◌+◌, ◌<◌, ◌≤◌, OnOk, OnErr, vec_capacity};
ghost use Rattle.pb_model.specs.Store.{HasOpened};
ghost use Rattle.pb_task.specs.Parts.{space_of, max_degree_of};
ghost use Rattle.pb_estimate.specs.Tables.{IsOfTask};
ghost use Rattle.pb_abstract.specs.Graph.{IsGraphOf};
ghost use Rattle.pb_lease.specs.LeaseValue.{leased_store, HasWeights, IsSameLease};
ghost use Rattle.pb_lease.specs.Leased.{guide_of};
ghost use Rattle.pb_expand.specs.Turned.{own_rows, IsAtWork, IsDue, reads_none, HasTurnedOnce};

use crate::bundles::close;
use crate::offers::offer_all;
use pb_abstract::AbsGraph;
use pb_estimate::Estimator;
use pb_lease::Lease;
use pb_lists::FirstRow;
use pb_model::Succ;
use pb_task::Task;
use std::alloc::AllocError;

/// Expands the first Opened row: offers its successors, closes it, and counts the expansion. If
/// memory runs out, only the first successors were offered, the row is still Opened, and the
/// expansion isn't counted. The list is for the successors alone.
pub fn expand(
    task: &Task,
    estimator: &mut Estimator,
    abstraction: &AbsGraph,
    lease: &mut Lease,
    succs: &mut Vec<Succ>,
    row: &FirstRow,
) -> Result<(), AllocError>
    requires tables { IsOfTask estimator.old task.now lease.old.choice }
    requires of_task { IsGraphOf task.now abstraction.now }
    requires room { max_degree_of task.now ≤ vec_capacity succs.old }
    requires at_work { IsAtWork task.now abstraction.now lease.old.choice lease.old }
    requires next { IsDue (space_of task.now) lease.old row.now }
    requires left { lease.old.used < lease.old.quota }
    ensures turned { OnOk result (HasTurnedOnce (space_of task.now)
        (guide_of task.now abstraction.now lease.old.choice)
        reads_none lease.old.block 1 0 (leased_store lease.old) (leased_store lease.new)) }
    ensures used { OnOk result (lease.new.used ≡ lease.old.used + 1) }
    ensures broken { OnErr result (HasTurnedOnce (space_of task.now)
        (guide_of task.now abstraction.now lease.old.choice)
        reads_none lease.old.block 0 1 (leased_store lease.old) (leased_store lease.new)) }
    ensures unused { OnErr result (lease.new.used ≡ lease.old.used) }
    ensures opened { OnErr result (HasOpened (own_rows lease.new)) }
    ensures incumbent { lease.new.incumbent ≡ lease.old.incumbent }
    ensures same { IsSameLease lease.old lease.new }
    ensures weights { HasWeights lease.new }
    ensures tables { IsOfTask estimator.new task.now lease.old.choice }
    ensures room { vec_capacity succs.old ≤ vec_capacity succs.new }
{
    let state = &row.state;
    estimator.successors(task, state, succs);
    offer_all(task, estimator, abstraction, lease, succs, state, row.g)?;
    // Only now: a row whose successors weren't all offered must be expanded again.
    close(lease, state);
    lease.spend();
    Ok(())
}
