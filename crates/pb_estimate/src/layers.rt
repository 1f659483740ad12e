//! hmax of tasks whose actions each cost 1 and need an atom: an atom costs as much as the number of
//! its layer. No cost is kept, and no atom is looked for.
ghost use Rattle.std.specs.Prelude.{◌≡◌, ℕ, ◌+◌, ◌-◌, ◌<◌, ◌≤◌, ◌⊎◌, [], ◌∷◌, All, Contains, IfOk, length, slice_index, slice_set, true, false};
ghost use Rattle.pb_packed.specs.Sizes.{most_atoms};
ghost use Rattle.pb_task.specs.Strips.{has_atom, IsStrips};
ghost use Rattle.pb_estimate.specs.Exploring.{count};
ghost use Rattle.pb_estimate.specs.Hmax.{goal_cost};
ghost use Rattle.pb_estimate.specs.Layers.{is_in, is_reached, AreAdded, AreLayers, HaveRoom, IsLayered, KeepPlaces};
ghost use Rattle.pb_estimate.specs.Relaxed.{relaxed_at};
ghost use Rattle.pb_estimate.specs.Tables.{IsRelaxation, IsRelaxed, IsWanted};

use crate::relaxed::{RelaxedActions, RelaxedTask};
use pb_packed::Packed;
use pb_task::{StripsParts, next_atom};
use std::alloc::{AllocError, Global};

/// The atoms that were reached if nothing is deleted, layer by layer.
#[derive(Drop)]
pub struct Layers {
    /// Whether each atom was reached.
    pub marks: Vec<bool>,
    /// The atoms that were reached, in the order in which they were. Later places are unused.
    pub queue: Vec<u16>,
    /// How many atoms were reached.
    pub reached: usize,
    /// How many atoms of the goal weren't.
    pub wanted: u32,
}

impl Layers {
    /// Room for the layers of `count` atoms.
    pub fn of(alloc: Global, count: usize) -> Result<Layers, AllocError>
        ensures { IfOk result (HaveRoom count) }
    {
        Ok(Layers {
            marks: vec![in alloc; false; count]?,
            queue: vec![in alloc; 0; count]?,
            reached: 0,
            wanted: 0,
        })
    }

    // Forgets all atoms. The goal has so many.
    fn clear(&mut self, goal: &[bool], wanted: u32)
        requires few { length goal.now ≤ most_atoms }
        requires room { HaveRoom (length goal.now) self.old }
        requires wanted { wanted ≡ count (is_in goal.now) (length goal.now) }
        ensures is { AreLayers goal.now self.new }
        ensures none { (atom : ℕ) → is_reached self.new atom ≡ false }
        ensures empty { self.new.reached ≡ 0 }
    {
        self.marks.fill(false);
        self.reached = 0;
        self.wanted = wanted;
    }

    // An atom is reached, if it wasn't before.
    #[inline]
    fn reach(&mut self, goal: &[bool], atom: u16)
        requires is { AreLayers goal.now self.old }
        requires inside { atom < length goal.now }
        ensures is { AreLayers goal.now self.new }
        ensures kept { KeepPlaces self.old self.new }
        ensures added { AreAdded (atom ∷ []) self.old self.new }
    {
        if self.marks[atom as usize] {
            return;
        }
        self.marks[atom as usize] = true;
        self.queue[self.reached] = atom;
        self.reached += 1;
        if goal[atom as usize] {
            self.wanted -= 1;
        }
    }

    // Some atoms are reached.
    fn reach_each(&mut self, goal: &[bool], atoms: &[u16])
        requires is { AreLayers goal.now self.old }
        requires inside { All (λ atom. atom < length goal.now) atoms.now }
        ensures is { AreLayers goal.now self.new }
        ensures kept { KeepPlaces self.old self.new }
        ensures added { AreAdded atoms.now self.old self.new }
    {
        for atom in atoms {
            self.reach(goal, *atom);
        }
    }

    // Begins anew at a state: exactly the atoms that hold are reached.
    fn begin(&mut self, goal: &[bool], wanted: u32, atoms: u32, state: &Packed)
        requires few { atoms ≤ most_atoms }
        requires atoms { length goal.now ≡ atoms }
        requires room { HaveRoom atoms self.old }
        requires wanted { wanted ≡ count (is_in goal.now) (length goal.now) }
        ensures is { AreLayers goal.now self.new }
        ensures holds { (atom : ℕ) → atom < atoms → has_atom state.now atom ≡ true
            → is_reached self.new atom ≡ true }
        ensures only { (atom : ℕ) → is_reached self.new atom ≡ true
            → has_atom state.now atom ≡ true }
    {
        self.clear(goal, wanted);
        let mut atom = next_atom(state, 0, atoms);
        while atom < atoms {
            self.reach(goal, atom as u16);
            atom = next_atom(state, atom + 1, atoms);
        }
    }
}

// Counts that one more of the atoms that an action needs was passed. After the last of them, what
// the action adds is reached.
#[inline]
fn count_down(
    layers: &mut Layers,
    goal: &[bool],
    counts: &mut [u16],
    actions: &RelaxedActions,
    user: u16,
)
    requires is { AreLayers goal.now layers.old }
    requires actions { All (IsRelaxed (length goal.now)) actions.now }
    requires counts { length counts.old ≡ length actions.now }
    requires user { user < length actions.now }
    requires some { 1 ≤ slice_index counts.old user }
    ensures is { AreLayers goal.now layers.new }
    ensures counts { counts.new ≡ slice_set counts.old user (slice_index counts.old user - 1) }
    ensures kept { KeepPlaces layers.old layers.new }
    ensures stays { (atom : ℕ) → is_reached layers.old atom ≡ true
        → is_reached layers.new atom ≡ true }
    ensures reaches { slice_index counts.new user ≡ 0
        → All (λ atom. is_reached layers.new atom ≡ true) (relaxed_at actions.now user).adds }
    ensures only { (atom : ℕ) → is_reached layers.new atom ≡ true
        → (is_reached layers.old atom ≡ true) ⊎ ((slice_index counts.new user ≡ 0)
        × Contains (relaxed_at actions.now user).adds atom) }
{
    let left = counts[user as usize] - 1;
    counts[user as usize] = left;
    if left == 0 {
        layers.reach_each(goal, actions.adds(user as usize));
    }
}

// Counts for each of some actions that one more of the atoms that it needs was passed.
fn count_down_each(
    layers: &mut Layers,
    goal: &[bool],
    counts: &mut [u16],
    actions: &RelaxedActions,
    users: &[u16],
)
    requires is { AreLayers goal.now layers.old }
    requires actions { All (IsRelaxed (length goal.now)) actions.now }
    requires counts { length counts.old ≡ length actions.now }
    requires users { All (λ user. (user < length actions.now)
        × (1 ≤ slice_index counts.old user)) users.now }
    requires ascend { (j k : ℕ) → j < k → k < length users.now
        → slice_index users.now j < slice_index users.now k }
    ensures is { AreLayers goal.now layers.new }
    ensures counted { All (λ user. slice_index counts.new user + 1
        ≡ slice_index counts.old user) users.now }
    ensures others { (user : ℕ) → (Contains users.now user → ⊥) → slice_index counts.new user
        ≡ slice_index counts.old user }
    ensures kept { KeepPlaces layers.old layers.new }
    ensures stays { (atom : ℕ) → is_reached layers.old atom ≡ true
        → is_reached layers.new atom ≡ true }
    ensures reaches { All (λ user. slice_index counts.new user ≡ 0
        → All (λ atom. is_reached layers.new atom ≡ true) (relaxed_at actions.now user).adds)
        users.now }
    ensures only { (atom : ℕ) → is_reached layers.new atom ≡ true
        → (is_reached layers.old atom ≡ true) ⊎ ((user : ℕ) × Contains users.now user
        × (slice_index counts.new user ≡ 0) × Contains (relaxed_at actions.now user).adds atom) }
{
    for user in users {
        count_down(layers, goal, counts, actions, *user);
    }
}

/// What the dearest atom of the goal costs, if each action costs 1 and needs an atom.
pub fn goal_cost(
    strips: &StripsParts,
    task: &RelaxedTask,
    counts: &mut [u16],
    layers: &mut Layers,
    state: &Packed,
) -> Option<u32>
    requires strips { IsStrips strips.now }
    requires actions { IsRelaxation strips.now.atoms strips.now.actions task.now }
    requires goal { IsWanted strips.now.goal strips.now.atoms task.now }
    requires layered { IsLayered task.now }
    requires counts { counts.old ≡ task.now.needs.items }
    requires room { HaveRoom strips.now.atoms layers.old }
    ensures cost { result ≡ goal_cost strips.now state.now }
    ensures room { HaveRoom strips.now.atoms layers.new }
{
    let goal = task.goal.as_slice();
    layers.begin(goal, task.wanted, strips.atoms, state);
    let mut first = 0;
    let mut end = 0;
    let mut level = 0;
    while layers.wanted > 0 {
        if first == layers.reached {
            return None;
        }
        // The atoms before `end` cost less than `level`, and those from there on cost `level`.
        if first == end {
            end = layers.reached;
            level += 1;
        }
        let users = task.users.at(layers.queue[first] as usize);
        first += 1;
        count_down_each(layers, goal, counts, &task.actions, users);
    }
    // An atom of the goal wasn't reached before this level.
    Some(level)
}
