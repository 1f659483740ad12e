//! The successors of a state of a STRIPS task with many actions. An action is looked at only if the
//! state has the atom that it is listed under, or if it needs none.
ghost use Rattle.std.specs.Prelude.{◌≡◌, ℕ, ◌+◌, ◌*◌, ◌<◌, ◌≤◌, All, IfOk, IsTrue, length, true, [], slice_index, slice_index_or, vec_capacity};
ghost use Rattle.pb_packed.specs.Sizes.{most_atoms};
ghost use Rattle.pb_model.specs.Space.{steps};
ghost use Rattle.pb_task.specs.Parts.{space_of, max_degree_of};
ghost use Rattle.pb_task.specs.Strips.{has_atom, IsStrips};
ghost use Rattle.pb_task.specs.declared.parts.TaskParts.TheVariants.{Strips};
ghost use Rattle.pb_task.specs.Marks.{is_marked};
ghost use Rattle.pb_estimate.specs.Indexed.{AreListed, IsIndex};

use crate::flat_lists::FlatLists;
use crate::marks::mark_each;
use crate::relaxed::Users;
use pb_model::Succ;
use pb_packed::Packed;
use pb_task::{StripsParts, Task, next_atom};
use std::alloc::{AllocError, Global};

/// From so many actions on, a task has an index.
pub const MANY_ACTIONS: usize = 100;

/// The actions of a STRIPS task by the rarest atom that each needs.
#[derive(Drop)]
pub struct ActionIndex {
    /// For each atom the actions that are listed under it. Behind them are those that need none.
    pub lists: FlatLists,
    /// A bit for each action: the candidates in a state.
    pub marks: Vec<u64>,
}

// Counts one more use of each atom of a set. No count comes to its greatest value.
fn count_uses(uses: &mut [u32], set: &Packed, count: u32)
    requires count { count ≤ most_atoms }
    requires uses { length uses.old ≡ count }
{
    let mut atom = next_atom(set, 0, count);
    while atom < count {
        let at = atom as usize;
        // Saturating needs no proof that the count stays small.
        uses[at] = uses[at].saturating_add(1);
        atom = next_atom(set, atom + 1, count);
    }
}

// How many actions need each atom.
fn uses_of(alloc: Global, strips: &StripsParts) -> Result<Vec<u32>, AllocError>
    requires { IsStrips strips.now }
    ensures { IfOk result (λ uses. length uses.items ≡ strips.now.atoms) }
{
    let mut uses = Vec::from_elem(alloc, 0u32, strips.atoms as usize)?;
    for action in 0..strips.actions.len() {
        count_uses(&mut uses, &strips.actions.needs(action), strips.atoms);
    }
    Ok(uses)
}

// The rarest of the atoms in a set, and `count` if none is in it.
fn rarest(set: &Packed, count: u32, uses: &[u32]) -> u32
    requires count { count ≤ most_atoms }
    requires uses { length uses.now ≡ count }
    ensures most { result ≤ count }
    ensures has { result < count → has_atom set.now result ≡ true }
    ensures least { (atom : ℕ) → atom < count → has_atom set.now atom ≡ true
        → (result < count) × (slice_index uses.now result ≤ slice_index uses.now atom) }
{
    let mut best = count;
    let mut atom = next_atom(set, 0, count);
    while atom < count {
        if best == count || uses[atom as usize] < uses[best as usize] {
            best = atom;
        }
        atom = next_atom(set, atom + 1, count);
    }
    best
}

// Lists each action under the rarest atom that it needs, and behind these lists those that need
// none.
fn lists_of(alloc: Global, strips: &StripsParts, uses: &[u32]) -> Result<FlatLists, AllocError>
    requires strips { IsStrips strips.now }
    requires uses { length uses.now ≡ strips.now.atoms }
    ensures { IfOk result (AreListed strips.now (length strips.now.actions)) }
{
    let mut lists = Users::none(alloc, strips.atoms + 1)?;
    for action in 0..strips.actions.len() {
        let atom = rarest(&strips.actions.needs(action), strips.atoms, uses);
        lists.push_one(atom as u16, action as u16)?;
    }
    lists.flat(alloc)
}

// Marks the candidates in a state: the actions listed under its atoms, and those that need none.
fn mark_candidates(lists: &FlatLists, marks: &mut [u64], atoms: u32, state: &Packed)
    requires atoms { atoms ≤ most_atoms }
    requires many { length lists.now ≡ atoms + 1 }
    requires inside { (atom : ℕ) → All (λ action. action < 64 * length marks.old)
        (slice_index_or lists.now atom []) }
    ensures marked { (atom : ℕ) → atom ≤ atoms → (atom < atoms → has_atom state.now atom ≡ true)
        → All (λ action. is_marked marks.new action ≡ true) (slice_index_or lists.now atom []) }
{
    marks.fill(0);
    let mut atom = next_atom(state, 0, atoms);
    while atom < atoms {
        mark_each(marks, lists.at(atom as usize));
        atom = next_atom(state, atom + 1, atoms);
    }
    // The list behind those of the atoms has the actions that need none.
    mark_each(marks, lists.at(atoms as usize));
}

// Replaces the list by all successors of a state, in order of the actions.
fn steps_by_lists(
    lists: &FlatLists,
    marks: &mut [u64],
    task: &Task,
    strips: &StripsParts,
    from: &Packed,
    out: &mut Vec<Succ>,
)
    requires parts { task.now ≡ Strips strips.now }
    requires strips { IsStrips strips.now }
    requires lists { AreListed strips.now (length strips.now.actions) lists.now }
    requires marks { length strips.now.actions ≤ 64 * length marks.old }
    requires state { IsTrue ((space_of task.now).is_state from.now) }
    requires room { max_degree_of task.now ≤ vec_capacity out.old }
    ensures successors { out.new.items ≡ steps (space_of task.now) from.now }
    ensures room { vec_capacity out.old ≤ vec_capacity out.new }
{
    mark_candidates(lists, marks, strips.atoms, from);
    task.successors_among(from, marks, out);
}

impl ActionIndex {
    /// The index of a task's actions. An error is out of memory.
    pub fn of(alloc: Global, strips: &StripsParts) -> Result<ActionIndex, AllocError>
        requires { IsStrips strips.now }
        ensures { IfOk result (IsIndex strips.now) }
    {
        let uses = uses_of(alloc, strips)?;
        let lists = lists_of(alloc, strips, uses.as_slice())?;
        let marks = Vec::from_elem(alloc, 0u64, strips.actions.len() / 64 + 1)?;
        Ok(ActionIndex { lists, marks })
    }

    /// Replaces the list by all successors of a state, in order of the actions. It takes no memory:
    /// the list has room for them.
    pub fn successors(
        &mut self,
        task: &Task,
        strips: &StripsParts,
        from: &Packed,
        out: &mut Vec<Succ>,
    )
        requires parts { task.now ≡ Strips strips.now }
        requires strips { IsStrips strips.now }
        requires index { IsIndex strips.now self.old }
        requires state { IsTrue ((space_of task.now).is_state from.now) }
        requires room { max_degree_of task.now ≤ vec_capacity out.old }
        ensures successors { out.new.items ≡ steps (space_of task.now) from.now }
        ensures room { vec_capacity out.old ≤ vec_capacity out.new }
        ensures index { IsIndex strips.now self.new }
    {
        let marks = self.marks.as_mut_slice();
        steps_by_lists(&self.lists, marks, task, strips, from, out);
    }
}
