//! One expansion by hand: by the calls of a lease and of its bundles, without the crate that works
//! on leases. So that crate needn't stand below this one.
ghost use Rattle.std.specs.Prelude.{◌≡◌, ◌+◌, ◌<◌, ℕ, Bool, Option, Some, None, [], ◌∷◌, IsTrue, IsFalse, IsSome};
ghost use Rattle.pb_model.specs.Space.{steps};
ghost use Rattle.pb_model.specs.Store.{HasOpened, MayBeCut};
ghost use Rattle.pb_model.specs.Key.{IsFirstRow};
ghost use Rattle.pb_model.specs.declared.row.Status.TheVariants.{Closed};
ghost use Rattle.pb_machine.specs.Machine.{IsWorked};
ghost use Rattle.pb_machine.specs.Turns.{AreLeaseTurns};
ghost use Rattle.pb_task.specs.Parts.{space_of};
ghost use Rattle.pb_estimate.specs.Estimates.{estimate_by};
ghost use Rattle.pb_abstract.specs.Graph.{IsGraphOf};
ghost use Rattle.pb_bundles.specs.Parts.{content_in, away_rows};
ghost use Rattle.pb_lease.specs.LeaseValue.{leased_store, HasWeights};
ghost use Rattle.pb_lease.specs.Leased.{guide_of};
ghost use Rattle.pb_lease.specs.Rows.{ChangesRows, SetsStatusAt, OffersAt, LeadsInto};

use pb_abstract::AbsGraph;
use pb_estimate::Estimator;
use pb_lease::Lease;
use pb_model::{Estimate, Row, Status, Succ};
use pb_packed::Packed;
use pb_task::Task;
use std::alloc::Global;
use std::process::Abort;

// The first Opened row of the lease's block, and its state.
fn first_row<R: Abort>(rt: &R, lease: &Lease) -> (Packed, Row)
    requires own { IsSome (content_in lease.now.parts lease.now.block) }
    requires weights { HasWeights lease.now }
    ensures { IsFirstRow lease.now.weight (away_rows lease.now.parts lease.now.block) result.0
        result.1 }
{
    let bundle = lease.bundle(lease.block());
    let state = bundle.first().expect(rt, "an Opened row");
    let row = bundle.row(&state).expect(rt, "a row");
    (state, row)
}

// The row is neither a goal's nor to be cut.
fn see_that_it_is_expanded<R: Abort>(
    rt: &R,
    task: &Task,
    abstraction: &AbsGraph,
    lease: &Lease,
    state: &Packed,
    row: &Row,
)
    requires of_task { IsGraphOf task.now abstraction.now }
    ensures state { IsTrue ((space_of task.now).is_state state.now) }
    ensures home { (guide_of task.now abstraction.now lease.now.choice).home state.now ≡ lease.now.block }
    ensures no_goal { IsFalse ((space_of task.now).is_goal state.now) }
    ensures start { row.now.g ≡ 0 }
    ensures kept { ¬ MayBeCut lease.now.weight lease.now.incumbent row.now.g row.now.estimate }
    ensures none { lease.now.incumbent ≡ None }
{
    if !task.is_state(state) || task.is_goal(state) || row.g != 0 {
        panic!(rt; "not the start's row");
    }
    if abstraction.block(task, state) != lease.block() {
        panic!(rt; "not at home");
    }
    match (lease.incumbent(), row.estimate) {
        (None, Estimate::Cost(_)) => {}
        _ => panic!(rt; "to be cut"),
    }
}

// The only successor of a state.
fn only_successor<R: Abort>(rt: &R, alloc: Global, task: &Task, state: &Packed) -> Succ
    requires { IsTrue ((space_of task.now).is_state state.now) }
    ensures only { steps (space_of task.now) state.now ≡ result ∷ [] }
    ensures state { IsTrue ((space_of task.now).is_state result.state) }
{
    let mut succs = Vec::with_capacity(alloc, task.max_degree() as usize).expect(rt, "memory");
    task.successors(state, &mut succs);
    let found = succs.as_slice();
    if found.len() != 1 {
        panic!(rt; "one successor");
    }
    let succ = found[0];
    if !task.is_state(&succ.state) {
        panic!(rt; "a state");
    }
    succ
}

// The estimate of a state, by the lease's choice.
fn estimate<R: Abort>(rt: &R, alloc: Global, task: &Task, lease: &Lease, state: &Packed) -> Estimate
    requires { IsTrue ((space_of task.now).is_state state.now) }
    ensures { result ≡ estimate_by task.now lease.now.choice state.now }
{
    if !lease.choice().suits(task) {
        panic!(rt; "a choice that suits the task");
    }
    let mut estimator = Estimator::of(alloc, task, lease.choice()).expect(rt, "memory");
    estimator.estimate(task, state)
}

// Offers a successor to the bundle of a block.
fn offer<R: Abort>(
    rt: &R,
    lease: &mut Lease,
    block: u32,
    succ: &Succ,
    parent: &Packed,
    g: u64,
    estimate: Estimate,
)
    requires { IsSome (content_in lease.old.parts block) }
    ensures rows { OffersAt lease.old lease.new block succ.now.state g
        estimate (Some parent.now) succ.now.action }
    ensures changes { ChangesRows lease.old lease.new }
{
    let bundle = lease.bundle_mut(block);
    bundle
        .offer(succ.state, g, estimate, Some(*parent), succ.action)
        .expect(rt, "memory");
}

// Closes a row of the lease's block.
fn close<R: Abort>(rt: &R, lease: &mut Lease, state: &Packed)
    requires { IsSome (content_in lease.old.parts lease.old.block) }
    ensures rows { SetsStatusAt lease.old lease.new lease.old.block state.now Closed }
    ensures changes { ChangesRows lease.old lease.new }
{
    let block = lease.block();
    let bundle = lease.bundle_mut(block);
    let row = bundle.row(state).expect(rt, "a row");
    if row.status != Status::Opened {
        panic!(rt; "an Opened row");
    }
    bundle.close_row(state);
}

// Expands the first row of the lease's block: offers its only successor, closes the row, and counts
// the expansion.
fn expand_first<R: Abort>(
    rt: &R,
    alloc: Global,
    task: &Task,
    abstraction: &AbsGraph,
    lease: &mut Lease,
)
    requires of_task { IsGraphOf task.now abstraction.now }
    requires own { IsSome (content_in lease.old.parts lease.old.block) }
    requires weights { HasWeights lease.old }
    requires there { (state : ℕ)
        → (guide_of task.now abstraction.now lease.old.choice).home state ≡ lease.old.block
        → LeadsInto (space_of task.now) (guide_of task.now abstraction.now lease.old.choice) state
        lease.old.parts }
    requires left { lease.old.used < lease.old.quota }
    ensures worked { (known : Option ℕ → Bool)
        → (work : IsWorked (space_of task.now) (guide_of task.now abstraction.now lease.old.choice)
        lease.old.block 1 0 known (leased_store lease.old) (leased_store lease.new))
        × AreLeaseTurns (space_of task.now) (guide_of task.now abstraction.now lease.old.choice) work.works
        (leased_store lease.old) }
    ensures changes { ChangesRows (record lease.old { used = lease.old.used + 1 }) lease.new }
    ensures none { lease.new.incumbent ≡ None }
{
    let (state, row) = first_row(rt, lease);
    see_that_it_is_expanded(rt, task, abstraction, lease, &state, &row);
    let succ = only_successor(rt, alloc, task, &state);
    let block = abstraction.block(task, &succ.state);
    let expected = estimate(rt, alloc, task, lease, &succ.state);
    offer(rt, lease, block, &succ, &state, row.g + succ.cost, expected);
    close(rt, lease, &state);
    lease.spend();
}

// No row of the lease's block is left to expand.
fn see_that_none_is_left<R: Abort>(rt: &R, lease: &Lease)
    requires { IsSome (content_in lease.now.parts lease.now.block) }
    ensures { HasOpened (away_rows lease.now.parts lease.now.block) → ⊥ }
{
    match lease.bundle(lease.block()).first() {
        None => {}
        Some(_) => panic!(rt; "an Opened row is left"),
    }
}

/// Expands the only Opened row of the lease's block, by its only step. Its state is the start and
/// no goal.
pub(crate) fn expand_only<R: Abort>(
    rt: &R,
    alloc: Global,
    task: &Task,
    abstraction: &AbsGraph,
    lease: &mut Lease,
)
    requires of_task { IsGraphOf task.now abstraction.now }
    requires own { IsSome (content_in lease.old.parts lease.old.block) }
    requires weights { HasWeights lease.old }
    requires there { (state : ℕ)
        → (guide_of task.now abstraction.now lease.old.choice).home state ≡ lease.old.block
        → LeadsInto (space_of task.now) (guide_of task.now abstraction.now lease.old.choice) state
        lease.old.parts }
    ensures worked { (known : Option ℕ → Bool)
        → (work : IsWorked (space_of task.now) (guide_of task.now abstraction.now lease.old.choice)
        lease.old.block 1 0 known (leased_store lease.old) (leased_store lease.new))
        × AreLeaseTurns (space_of task.now) (guide_of task.now abstraction.now lease.old.choice) work.works
        (leased_store lease.old) }
    ensures changes { ChangesRows (record lease.old { used = lease.old.used + 1 }) lease.new }
    ensures none { lease.new.incumbent ≡ None }
    ensures empty { HasOpened (away_rows lease.new.parts lease.new.block) → ⊥ }
{
    if lease.used() == lease.quota() {
        panic!(rt; "the quota is used up");
    }
    expand_first(rt, alloc, task, abstraction, lease);
    see_that_none_is_left(rt, lease);
}
