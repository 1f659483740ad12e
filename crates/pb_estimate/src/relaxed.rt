//! The delete relaxation of a STRIPS task: its merged actions without what they delete.
ghost use Rattle.std.specs.Prelude.{[], ◌∷◌, ◌≡◌, ℕ, ◌<◌, ◌≤◌, ◌↔◌, ◌++◌, All, Contains, IfOk, List, OnOk, length, replicate, true, false, slice_index, slice_index_or, slice_set, if◌then◌else◌, ◌==◌};
ghost use Rattle.pb_packed.specs.Sizes.{most_atoms};
ghost use Rattle.pb_task.specs.Strips.{has_atom, IsStrips};
ghost use Rattle.pb_estimate.specs.declared.merging.MergedAction.{MergedAction};
ghost use Rattle.pb_estimate.specs.Layers.{CostOne};
ghost use Rattle.pb_estimate.specs.Relaxed.{relaxed_at};
ghost use Rattle.pb_estimate.specs.Tables.{AreRelaxed, IsRelaxation, IsWanted};

use crate::atom_sets::atoms_in;
use crate::flat_lists::FlatLists;
use crate::merging::{MergedAction, merged_actions};
use pb_listed::Listed;
use pb_packed::Packed;
use pb_task::StripsParts;
use std::alloc::{AllocError, Global};
use std::marker::Model;

// What a relaxed action adds, as the place of a list in an array, and its cost.
#[derive(Clone, Copy)]
struct Entry {
    from: usize,
    to: usize,
    cost: u32,
}

/// Actions without what they delete. What they add lies in one array.
#[derive(Drop)]
pub struct RelaxedActions {
    atoms: Vec<u16>,
    entries: Vec<Entry>,
}

impl Model for RelaxedActions {
    ghost use Rattle.std.specs.Prelude.{ℕ, List, All, length, map};
    ghost use Rattle.pb_estimate.specs.declared.relaxed.Entry.{Entry};
    ghost use Rattle.pb_estimate.specs.Relaxed.{RelaxedAction, action_of, IsPiece};

    ghost Value = { List RelaxedAction };

    ghost view = { λ a. map (λ (e : Entry). action_of a.atoms.items e.from e.to e.cost)
        a.entries.items };

    ghost invariant = { λ a. All (λ (e : Entry). IsPiece (length a.atoms.items) e.from e.to)
        a.entries.items };
}

impl RelaxedActions {
    // No actions.
    fn new(alloc: Global) -> RelaxedActions
        ensures { result ≡ [] }
    {
        RelaxedActions {
            atoms: Vec::new(alloc),
            entries: Vec::new(alloc),
        }
    }

    // Adds an action after the others.
    fn push(&mut self, adds: &[u16], cost: u32) -> Result<(), AllocError>
        ensures { OnOk result (self.new
            ≡ self.old ++ record { adds = adds.now; cost = cost } ∷ []) }
    {
        let from = self.atoms.len();
        self.atoms.extend_from_slice(adds)?;
        let to = self.atoms.len();
        self.entries.push(Entry { from, to, cost })?;
        Ok(())
    }

    /// What an action adds.
    #[inline]
    pub fn adds(&self, number: usize) -> &[u16]
        requires { number < length self.now }
        ensures { result.now ≡ (relaxed_at self.now number).adds }
    {
        let entry = self.entries[number];
        &self.atoms.as_slice()[entry.from..entry.to]
    }

    /// The cost of an action.
    #[inline]
    pub fn cost(&self, number: usize) -> u32
        requires { number < length self.now }
        ensures { result ≡ (relaxed_at self.now number).cost }
    {
        self.entries[number].cost
    }
}

// Adds an action at the end of the list of one atom.
fn push_at(lists: &mut Vec<Listed<u16>>, atom: u16, action: u16) -> Result<(), AllocError>
    requires { atom < length lists.old.items }
    ensures { OnOk result (lists.new.items
        ≡ slice_set lists.old.items atom (slice_index_or lists.old.items atom [] ++ action ∷ [])) }
{
    lists[atom as usize].push(action)?;
    Ok(())
}

// Adds an action at the end of the lists of some atoms.
fn push_each(lists: &mut Vec<Listed<u16>>, atoms: &[u16], action: u16) -> Result<(), AllocError>
    requires inside { All (λ atom. atom < length lists.old.items) atoms.now }
    requires ascend { (j k : ℕ) → j < k → k < length atoms.now
        → slice_index atoms.now j < slice_index atoms.now k }
    ensures many { OnOk result (length lists.new.items ≡ length lists.old.items) }
    ensures pushed { OnOk result (All (λ atom. slice_index_or lists.new.items atom []
        ≡ slice_index_or lists.old.items atom [] ++ action ∷ []) atoms.now) }
    ensures others { OnOk result ((atom : ℕ) → (Contains atoms.now atom → ⊥)
        → slice_index_or lists.new.items atom [] ≡ slice_index_or lists.old.items atom []) }
{
    for atom in atoms {
        push_at(lists, *atom, action)?;
    }
    Ok(())
}

// Some lists in one array.
fn flat_lists(alloc: Global, lists: &[Listed<u16>]) -> Result<FlatLists, AllocError>
    ensures { IfOk result (λ flat. flat ≡ lists.now) }
{
    let mut flat = FlatLists::new(alloc);
    for list in lists {
        flat.push(list.as_slice())?;
    }
    Ok(flat)
}

// For each atom the actions that need it, while more are added.
#[derive(Drop)]
pub(crate) struct Users {
    lists: Vec<Listed<u16>>,
}

impl Model for Users {
    ghost use Rattle.std.specs.Prelude.{ℕ, List};

    ghost Value = { List (List ℕ) };

    ghost view = { λ u. u.lists.items };
}

impl Users {
    // No action needs any of `count` atoms.
    pub(crate) fn none(alloc: Global, count: u32) -> Result<Users, AllocError>
        ensures { IfOk result (λ users. users ≡ replicate count []) }
    {
        let mut lists = Vec::new(alloc);
        for _atom in 0..count {
            lists.push(Listed::new(alloc))?;
        }
        Ok(Users { lists })
    }

    // An action needs these atoms too.
    fn push(&mut self, atoms: &[u16], action: u16) -> Result<(), AllocError>
        requires inside { All (λ atom. atom < length self.old) atoms.now }
        requires ascend { (j k : ℕ) → j < k → k < length atoms.now
            → slice_index atoms.now j < slice_index atoms.now k }
        ensures many { OnOk result (length self.new ≡ length self.old) }
        ensures pushed { OnOk result (All (λ atom. slice_index_or self.new atom []
            ≡ slice_index_or self.old atom [] ++ action ∷ []) atoms.now) }
        ensures others { OnOk result ((atom : ℕ) → (Contains atoms.now atom → ⊥)
            → slice_index_or self.new atom [] ≡ slice_index_or self.old atom []) }
    {
        push_each(&mut self.lists, atoms, action)
    }

    // An action needs this atom too.
    pub(crate) fn push_one(&mut self, atom: u16, action: u16) -> Result<(), AllocError>
        requires { atom < length self.old }
        ensures { OnOk result (self.new
            ≡ slice_set self.old atom (slice_index_or self.old atom [] ++ action ∷ [])) }
    {
        push_at(&mut self.lists, atom, action)
    }

    // The same lists in one array.
    pub(crate) fn flat(&self, alloc: Global) -> Result<FlatLists, AllocError>
        ensures { IfOk result (λ flat. flat ≡ self.now) }
    {
        flat_lists(alloc, self.lists.as_slice())
    }
}

/// The delete relaxation of a STRIPS task: an atom that held once goes on holding. Actions that
/// need the same and cost the same are merged into one, and no action adds what it needs.
#[derive(Drop)]
pub struct RelaxedTask {
    /// The task's actions, merged, without what they delete.
    pub actions: RelaxedActions,
    /// How many atoms each action needs.
    pub needs: Vec<u16>,
    /// For each atom the actions that need it.
    pub users: FlatLists,
    /// The actions that need nothing.
    pub free: Listed<u16>,
    /// Whether each atom is in the goal.
    pub goal: Vec<bool>,
    /// How many atoms the goal has.
    pub wanted: u32,
}

// Adds an action at the end of a task's, and to the users of what it needs.
fn add_action(
    task: &mut RelaxedTask,
    users: &mut Users,
    needs: &[u16],
    adds: &[u16],
    cost: u32,
) -> Result<(), AllocError>
    requires inside { All (λ atom. atom < length users.old) needs.now }
    requires ascend { (j k : ℕ) → j < k → k < length needs.now
        → slice_index needs.now j < slice_index needs.now k }
    requires many { length task.old.needs.items < 65536 }
    requires few { length needs.now ≤ most_atoms }
    ensures actions { OnOk result (task.new.actions ≡ task.old.actions
        ++ record { adds = adds.now; cost = cost } ∷ []) }
    ensures needs { OnOk result (task.new.needs.items ≡ task.old.needs.items
        ++ length needs.now ∷ []) }
    ensures many { OnOk result (length users.new ≡ length users.old) }
    ensures pushed { OnOk result (All (λ atom. slice_index_or users.new atom []
        ≡ slice_index_or users.old atom [] ++ length task.old.needs.items ∷ []) needs.now) }
    ensures others { OnOk result ((atom : ℕ) → (Contains needs.now atom → ⊥)
        → slice_index_or users.new atom [] ≡ slice_index_or users.old atom []) }
    ensures free { OnOk result (task.new.free ≡ (if length needs.now == 0 then task.old.free
        ++ length task.old.needs.items ∷ [] else task.old.free)) }
    ensures goal { (task.new.goal ≡ task.old.goal) × (task.new.wanted ≡ task.old.wanted) }
{
    let number = task.needs.len() as u16;
    users.push(needs, number)?;
    if needs.is_empty() {
        task.free.push(number)?;
    }
    task.needs.push(needs.len() as u16)?;
    task.actions.push(adds, cost)?;
    Ok(())
}

// Adds a merged action at the end of a task's actions.
fn add_merged(
    alloc: Global,
    count: u32,
    task: &mut RelaxedTask,
    users: &mut Users,
    action: &MergedAction,
) -> Result<(), AllocError>
    requires count { count ≤ most_atoms }
    requires users { length users.old ≡ count }
    requires many { length task.old.needs.items < 65536 }
    ensures users { OnOk result (length users.new ≡ count) }
    ensures relaxed { OnOk result ((before : List MergedAction)
        → AreRelaxed count before users.old task.old
        → AreRelaxed count (before ++ action.now ∷ []) users.new task.new) }
    ensures goal { (task.new.goal ≡ task.old.goal) × (task.new.wanted ≡ task.old.wanted) }
{
    let needs = atoms_in(alloc, &action.needs, count)?;
    let adds = atoms_in(alloc, &action.adds, count)?;
    add_action(task, users, needs.as_slice(), adds.as_slice(), action.cost)?;
    Ok(())
}

// Whether each atom is in the set.
fn flags(alloc: Global, set: &Packed, count: u32) -> Result<Vec<bool>, AllocError>
    requires { count ≤ most_atoms }
    ensures long { IfOk result (λ flags. length flags.items ≡ count) }
    ensures flags { IfOk result (λ flags. (atom : ℕ) → atom < count
        → slice_index_or flags.items atom false ≡ has_atom set.now atom) }
{
    let mut flags = Vec::new(alloc);
    for atom in 0..count {
        flags.push(set.has(atom))?;
    }
    Ok(flags)
}

// A task without actions.
fn empty_task(alloc: Global, strips: &StripsParts) -> Result<RelaxedTask, AllocError>
    requires { IsStrips strips.now }
    ensures actions { IfOk result (AreRelaxed strips.now.atoms []
        (replicate strips.now.atoms [])) }
    ensures goal { IfOk result (IsWanted strips.now.goal strips.now.atoms) }
{
    Ok(RelaxedTask {
        actions: RelaxedActions::new(alloc),
        needs: Vec::new(alloc),
        users: FlatLists::new(alloc),
        free: Listed::new(alloc),
        goal: flags(alloc, &strips.goal, strips.atoms)?,
        wanted: atoms_in(alloc, &strips.goal, strips.atoms)?
            .as_slice()
            .len() as u32,
    })
}

/// A task without what its actions delete.
pub fn relaxed_task(alloc: Global, strips: &StripsParts) -> Result<RelaxedTask, AllocError>
    requires { IsStrips strips.now }
    ensures actions { IfOk result (IsRelaxation strips.now.atoms strips.now.actions) }
    ensures goal { IfOk result (IsWanted strips.now.goal strips.now.atoms) }
{
    let merged = merged_actions(alloc, strips)?;
    let mut task = empty_task(alloc, strips)?;
    let mut users = Users::none(alloc, strips.atoms)?;
    for at in 0..merged.len() {
        add_merged(alloc, strips.atoms, &mut task, &mut users, &merged[at])?;
    }
    task.users = users.flat(alloc)?;
    Ok(task)
}

/// Whether each action costs 1.
pub fn cost_one(task: &RelaxedTask) -> bool
    requires many { length task.now.needs.items ≡ length task.now.actions }
    ensures { (result ≡ true) ↔ CostOne task.now.actions }
{
    for action in 0..task.needs.len() {
        if task.actions.cost(action) != 1 {
            return false;
        }
    }
    true
}
