//! What a worker does to the bundles of its lease.
ghost use Rattle.std.specs.Prelude.{◌≡◌, ◌<◌, Some, IsTrue, IsSome, IfSome, IfNone, OnOk, OnErr};
ghost use Rattle.pb_model.specs.Store.{HasOpened};
ghost use Rattle.pb_model.specs.declared.row.Status.TheVariants.{Closed, Cut};
ghost use Rattle.pb_task.specs.Parts.{space_of};
ghost use Rattle.pb_estimate.specs.Estimates.{estimate_by};
ghost use Rattle.pb_estimate.specs.Tables.{IsOfTask};
ghost use Rattle.pb_lists.specs.Bundle.{IsOpened};
ghost use Rattle.pb_bundles.specs.Parts.{content_in};
ghost use Rattle.pb_lease.specs.LeaseValue.{HasWeights};
ghost use Rattle.pb_expand.specs.Turned.{own_rows, IsFirst};
ghost use Rattle.pb_lease.specs.Rows.{ChangesRows, SetsStatusAt, OffersAt, own_opened};

use pb_estimate::Estimator;
use pb_lease::Lease;
use pb_lists::FirstRow;
use pb_model::Succ;
use pb_packed::Packed;
use pb_task::Task;
use std::alloc::AllocError;

/// The state of the first Opened row of the lease's block, with the row's g and estimate.
pub fn first(lease: &Lease) -> Option<FirstRow>
    requires own { IsSome (content_in lease.now.parts lease.now.block) }
    requires weights { HasWeights lease.now }
    ensures some { IfSome result (λ found. IsFirst lease.now found) }
    ensures none { IfNone result (HasOpened (own_rows lease.now) → ⊥) }
{
    lease.bundle(lease.block()).first_row()
}

/// Cuts an Opened row of the lease's block.
pub fn cut(lease: &mut Lease, state: &Packed)
    requires { IsOpened (own_rows lease.old state.now) }
    ensures rows { SetsStatusAt lease.old lease.new lease.old.block state.now Cut }
    ensures changes { ChangesRows lease.old lease.new }
    ensures fewer { own_opened lease.new < own_opened lease.old }
{
    let block = lease.block();
    lease.bundle_mut(block).cut_row(state);
}

/// Closes an Opened row of the lease's block.
pub fn close(lease: &mut Lease, state: &Packed)
    requires { IsOpened (own_rows lease.old state.now) }
    ensures rows { SetsStatusAt lease.old lease.new lease.old.block state.now Closed }
    ensures changes { ChangesRows lease.old lease.new }
{
    let block = lease.block();
    lease.bundle_mut(block).close_row(state);
}

/// Offers a successor to the bundle of a block, with this g: that of the walk to it by its parent.
/// A state that has a row there keeps that row's estimate; any other state gets the estimate
/// of the lease's choice. If memory runs out, the lease is as it was.
pub fn offer(
    task: &Task,
    estimator: &mut Estimator,
    lease: &mut Lease,
    block: u32,
    succ: &Succ,
    parent: &Packed,
    g: u64,
) -> Result<(), AllocError>
    requires tables { IsOfTask estimator.old task.now lease.old.choice }
    requires state { IsTrue ((space_of task.now).is_state succ.now.state) }
    requires there { IsSome (content_in lease.old.parts block) }
    ensures rows { OnOk result (OffersAt lease.old lease.new block succ.now.state g
        (estimate_by task.now lease.old.choice succ.now.state) (Some parent.now) succ.now.action) }
    ensures changes { ChangesRows lease.old lease.new }
    ensures err { OnErr result (lease.new ≡ lease.old) }
    ensures tables { IsOfTask estimator.new task.now lease.old.choice }
{
    let bundle = lease.bundle_mut(block);
    match bundle.place_of(&succ.state) {
        Some(place) => {
            // The row keeps its estimate, which need not be computed again.
            bundle.offer_at(place, g, Some(parent), succ.action)?;
            Ok(())
        }
        None => {
            let estimate = estimator.estimate(task, &succ.state);
            bundle.offer_new(&succ.state, g, estimate, Some(parent), succ.action)
        }
    }
}
