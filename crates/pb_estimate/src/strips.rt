//! The plain estimate of a STRIPS task: hmax, computed with a counter for each action.
ghost use Rattle.std.specs.Prelude.{◌⊎◌, ◌↔◌, ◌≡◌, ℕ, ◌+◌, ◌-◌, ◌<◌, ◌≤◌, ◌^◌, All, Contains, IfOk, length, slice_index, slice_set, None, true};
ghost use Rattle.pb_task.specs.Strips.{IsStrips};
ghost use Rattle.pb_estimate.specs.Hmax.{IsAtMost, goal_cost, hmax};
ghost use Rattle.pb_estimate.specs.Exploring.{cost_in, final_in, AreNoLess, HaveSameFinals, FinalsAreWithin, IsExploration};
ghost use Rattle.pb_estimate.specs.Layers.{IsLayered};
ghost use Rattle.pb_estimate.specs.Relaxed.{relaxed_at};
ghost use Rattle.pb_estimate.specs.Tables.{AddsAt, AddsAtMost, IsAddedBy, IsRelaxation, IsWanted, IsRelaxed, AreCounters};

use crate::buckets::Buckets;
use crate::exploration::Exploration;
use crate::layers;
use crate::layers::Layers;
use crate::relaxed::{RelaxedActions, RelaxedTask, cost_one, relaxed_task};
use pb_model::Estimate;
use pb_packed::Packed;
use pb_task::StripsParts;
use std::alloc::{AllocError, Global};

/// What an estimator keeps for a STRIPS task.
#[derive(Drop)]
pub struct Counters {
    /// The task without what its actions delete.
    pub task: RelaxedTask,
    /// How many of the atoms that each action needs have no final cost.
    pub counts: Vec<u16>,
    /// What the atoms cost.
    pub exploration: Exploration,
    /// Whether each action costs 1 and needs an atom, so that layers give the costs.
    pub is_layered: bool,
    /// The layers of the atoms.
    pub layers: Layers,
}

// Whether layers give the costs: whether each action costs 1 and needs an atom.
fn is_layered(task: &RelaxedTask) -> bool
    requires many { length task.now.needs.items ≡ length task.now.actions }
    ensures { (result ≡ true) ↔ IsLayered task.now }
{
    cost_one(task) && task.free.as_slice().is_empty()
}

/// The counters of a task. All the memory that estimates need is taken here.
pub fn counters_of(alloc: Global, strips: &StripsParts) -> Result<Counters, AllocError>
    requires { IsStrips strips.now }
    ensures { IfOk result (AreCounters strips.now) }
{
    let task = relaxed_task(alloc, strips)?;
    let counts = task.needs.clone()?;
    let has_buckets = Buckets::suit(&task);
    let exploration = Exploration::of(alloc, strips.atoms as usize, has_buckets)?;
    let is_layered = is_layered(&task);
    let layers = Layers::of(alloc, strips.atoms as usize)?;
    Ok(Counters {
        task,
        counts,
        exploration,
        is_layered,
        layers,
    })
}

// Counts that one more of the atoms that an action needs has a final cost, `level`. After the last
// of them, what the action adds costs at most `level` plus the action's cost.
fn count_down(
    exploration: &mut Exploration,
    counts: &mut [u16],
    actions: &RelaxedActions,
    user: u16,
    level: u32,
)
    requires is { IsExploration exploration.old }
    requires actions { All (IsRelaxed (length exploration.old.costs.items)) actions.now }
    requires counts { length counts.old ≡ length actions.now }
    requires user { user < length actions.now }
    requires some { 1 ≤ slice_index counts.old user }
    requires level { level ≤ 2 ^ 30 }
    requires finals { FinalsAreWithin level exploration.old.costs.items }
    ensures is { IsExploration exploration.new }
    ensures long { length exploration.new.costs.items ≡ length exploration.old.costs.items }
    ensures counts { counts.new ≡ slice_set counts.old user (slice_index counts.old user - 1) }
    ensures finals { HaveSameFinals exploration.old.costs.items exploration.new.costs.items }
    ensures falls { AreNoLess (cost_in exploration.old.costs.items)
        (cost_in exploration.new.costs.items) }
    ensures reaches { slice_index counts.new user ≡ 0
        → AddsAtMost (relaxed_at actions.now user) level exploration.new.costs.items }
    ensures only { (atom cost : ℕ) → IsAtMost (cost_in exploration.new.costs.items atom) cost
        → IsAtMost (cost_in exploration.old.costs.items atom) cost
        ⊎ IsAddedBy actions.now level counts.new user atom cost }
{
    let left = counts[user as usize] - 1;
    counts[user as usize] = left;
    if left == 0 {
        let cost = level + actions.cost(user as usize);
        exploration.lower_each(actions.adds(user as usize), cost);
    }
}

// Counts for each of some actions that one more of the atoms that it needs has a final cost,
// `level`.
fn count_down_each(
    exploration: &mut Exploration,
    counts: &mut [u16],
    actions: &RelaxedActions,
    users: &[u16],
    level: u32,
)
    requires is { IsExploration exploration.old }
    requires actions { All (IsRelaxed (length exploration.old.costs.items)) actions.now }
    requires counts { length counts.old ≡ length actions.now }
    requires users { All (λ user. (user < length actions.now)
        × (1 ≤ slice_index counts.old user)) users.now }
    requires ascend { (j k : ℕ) → j < k → k < length users.now
        → slice_index users.now j < slice_index users.now k }
    requires level { level ≤ 2 ^ 30 }
    requires finals { FinalsAreWithin level exploration.old.costs.items }
    ensures is { IsExploration exploration.new }
    ensures long { length exploration.new.costs.items ≡ length exploration.old.costs.items }
    ensures counted { All (λ user. slice_index counts.new user + 1
        ≡ slice_index counts.old user) users.now }
    ensures others { (user : ℕ) → (Contains users.now user → ⊥) → slice_index counts.new user
        ≡ slice_index counts.old user }
    ensures finals { HaveSameFinals exploration.old.costs.items exploration.new.costs.items }
    ensures falls { AreNoLess (cost_in exploration.old.costs.items)
        (cost_in exploration.new.costs.items) }
    ensures reaches { All (λ user. slice_index counts.new user ≡ 0
        → AddsAtMost (relaxed_at actions.now user) level exploration.new.costs.items) users.now }
    ensures only { (atom cost : ℕ) → IsAtMost (cost_in exploration.new.costs.items atom) cost
        → IsAtMost (cost_in exploration.old.costs.items atom) cost
        ⊎ ((user : ℕ) × Contains users.now user
        × IsAddedBy actions.now level counts.new user atom cost) }
{
    for user in users {
        count_down(exploration, counts, actions, *user, level);
    }
}

// Lowers the costs of the atoms that some actions add to at most the costs of the actions.
fn lower_free(exploration: &mut Exploration, actions: &RelaxedActions, free: &[u16])
    requires is { IsExploration exploration.old }
    requires actions { All (IsRelaxed (length exploration.old.costs.items)) actions.now }
    requires free { All (λ user. user < length actions.now) free.now }
    requires finals { (atom : ℕ) → final_in exploration.old.costs.items atom ≡ None }
    ensures is { IsExploration exploration.new }
    ensures long { length exploration.new.costs.items ≡ length exploration.old.costs.items }
    ensures finals { HaveSameFinals exploration.old.costs.items exploration.new.costs.items }
    ensures falls { AreNoLess (cost_in exploration.old.costs.items)
        (cost_in exploration.new.costs.items) }
    ensures reaches { All (λ user. All (λ atom. IsAtMost
        (cost_in exploration.new.costs.items atom) (relaxed_at actions.now user).cost)
        (relaxed_at actions.now user).adds) free.now }
    ensures only { (atom cost : ℕ) → IsAtMost (cost_in exploration.new.costs.items atom) cost
        → IsAtMost (cost_in exploration.old.costs.items atom) cost
        ⊎ ((user : ℕ) × Contains free.now user × AddsAt (relaxed_at actions.now user) 0 atom cost) }
{
    for user in free {
        let action = *user as usize;
        exploration.lower_each(actions.adds(action), actions.cost(action));
    }
}

// What the dearest atom of the goal costs.
fn goal_cost(
    strips: &StripsParts,
    task: &RelaxedTask,
    counts: &mut [u16],
    exploration: &mut Exploration,
    state: &Packed,
) -> Option<u32>
    requires strips { IsStrips strips.now }
    requires actions { IsRelaxation strips.now.atoms strips.now.actions task.now }
    requires goal { IsWanted strips.now.goal strips.now.atoms task.now }
    requires counts { counts.old ≡ task.now.needs.items }
    requires some { 1 ≤ task.now.wanted }
    requires is { IsExploration exploration.old }
    requires costs { length exploration.old.costs.items ≡ strips.now.atoms }
    ensures cost { result ≡ goal_cost strips.now state.now }
    ensures is { IsExploration exploration.new }
    ensures costs { length exploration.new.costs.items ≡ strips.now.atoms }
{
    exploration.begin(strips.atoms, state);
    lower_free(exploration, &task.actions, task.free.as_slice());
    let mut wanted = task.wanted;
    let mut level = 0;
    while let Some((atom, cost)) = exploration.next(level) {
        // Costs become final in ascending order, so no open cost is below this one.
        level = cost;
        if task.goal[atom as usize] {
            wanted -= 1;
            if wanted == 0 {
                // Of the goal's atoms this one became final last, so it is the dearest.
                return Some(cost);
            }
        }
        count_down_each(
            exploration,
            counts,
            &task.actions,
            task.users.at(atom as usize),
            cost,
        );
    }
    None
}

// What the dearest atom of the goal costs, by layers if they give it.
fn goal_cost_by(strips: &StripsParts, counters: &mut Counters, state: &Packed) -> Option<u32>
    requires strips { IsStrips strips.now }
    requires counters { AreCounters strips.now counters.old }
    requires counts { counters.old.counts.items ≡ counters.old.task.needs.items }
    requires some { 1 ≤ counters.old.task.wanted }
    ensures cost { result ≡ goal_cost strips.now state.now }
    ensures counters { AreCounters strips.now counters.new }
{
    let task = &counters.task;
    let counts = counters.counts.as_mut_slice();
    if counters.is_layered {
        layers::goal_cost(strips, task, counts, &mut counters.layers, state)
    } else {
        goal_cost(strips, task, counts, &mut counters.exploration, state)
    }
}

/// The estimate hmax of a state. `counters` are those of the task.
pub fn estimate(strips: &StripsParts, counters: &mut Counters, state: &Packed) -> Estimate
    requires strips { IsStrips strips.now }
    requires counters { AreCounters strips.now counters.old }
    ensures estimate { result ≡ hmax strips.now state.now }
    ensures counters { AreCounters strips.now counters.new }
{
    if strips.never {
        return Estimate::Dead;
    }
    if counters.task.wanted == 0 {
        return Estimate::Cost(0);
    }
    // The estimate of the state before has counted them down.
    counters
        .counts
        .copy_from_slice(counters.task.needs.as_slice());
    match goal_cost_by(strips, counters, state) {
        None => Estimate::Dead,
        Some(cost) => Estimate::Cost(u64::from(cost)),
    }
}
