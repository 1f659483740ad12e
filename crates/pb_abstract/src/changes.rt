//! What actions of STRIPS do to the tracked atoms, and the scopes of the blocks that these make.
ghost use Rattle.std.specs.Prelude.{◌≡◌, ◌<◌, ◌≤◌, ◌^◌, ◌↔◌, ◌⊎◌, ◌==◌, ◌||◌, ◌&&◌, ◌++◌, ◌∷◌, ℕ, [], Bool, IsTrue, IfOk, OnOk, length, slice_index_or, if◌then◌else◌};
ghost use Rattle.std.specs.List.{list_any};
ghost use Rattle.pb_task.specs.Strips.{action_at, IsStrips};
ghost use Rattle.pb_abstract.specs.Tracked.{AreAtoms, IsTrackedEdge};
ghost use Rattle.pb_abstract.specs.Borders.{is_number};
ghost use Rattle.pb_abstract.specs.Changes.{change_of, changes_some, block_after};
ghost use Rattle.pb_abstract.specs.Graph.{has};
ghost use Rattle.pb_abstract.specs.declared.changes.Change.{Change};

use crate::lists::BlockList;
use crate::tracked::TrackedAtoms;
use pb_task::{Actions, StripsParts};
use std::alloc::{AllocError, Global};

/// Which of the tracked atoms an action needs, adds and deletes: in each set the first tracked atom
/// is the least bit.
#[derive(Clone, Copy, PartialEq, Eq, PartialOrd, Ord)]
pub struct Change {
    /// Those that must hold before it.
    pub needs: u32,
    /// Those that hold after it.
    pub adds: u32,
    /// The tracked atoms that the action deletes; those that it also adds hold after it.
    pub deletes: u32,
}

// What an action does to the tracked atoms.
fn change_of(atoms: &TrackedAtoms, actions: &Actions, at: usize) -> Change
    requires { at < length actions.now }
    ensures { result ≡ change_of atoms.now (action_at actions.now at) }
{
    Change {
        needs: atoms.tracked_set(&actions.needs(at)),
        adds: atoms.tracked_set(&actions.adds(at)),
        deletes: atoms.tracked_set(&actions.deletes(at)),
    }
}

// The block that a change leads to from a block. None if an atom that it needs doesn't hold there.
fn block_after(change: &Change, block: u32) -> Option<u32>
    ensures { result ≡ block_after change.now block }
{
    if change.needs & block == change.needs {
        Some(change.adds | (block & !change.deletes))
    } else {
        None
    }
}

// Adds a change at the end, unless it adds and deletes nothing.
fn push_change(changes: &mut Vec<Change>, change: Change) -> Result<(), AllocError>
    ensures { OnOk result (changes.new.items ≡ (if changes_some change
        then changes.old.items ++ change ∷ [] else changes.old.items)) }
{
    if change.adds != 0 || change.deletes != 0 {
        changes.push(change)?;
    }
    Ok(())
}

// What the actions do to the tracked atoms, without those that add and delete none of them.
fn all_changes(
    alloc: Global,
    actions: &Actions,
    atoms: &TrackedAtoms,
) -> Result<Vec<Change>, AllocError>
    ensures { IfOk result (λ changes. (test : Change → Bool)
        → list_any test changes.items ≡ list_any
        (λ action. changes_some (change_of atoms.now action) && test (change_of atoms.now action))
        actions.now) }
{
    let mut changes = Vec::new(alloc);
    for at in 0..actions.len() {
        push_change(&mut changes, change_of(atoms, actions, at))?;
    }
    Ok(changes)
}

// The same changes, each once.
fn each_once(changes: Vec<Change>) -> Vec<Change>
    ensures { (test : Change → Bool) → list_any test result.items ≡ list_any test changes.items }
{
    let mut changes = changes;
    changes.sort_unstable();
    changes.dedup();
    changes
}

// The scope of a block: itself, and those that the changes lead to.
fn scope(alloc: Global, changes: &[Change], block: u32) -> Result<BlockList, AllocError>
    ensures { IfOk result (λ list. (c : ℕ) → has list c
        ≡ ((block == c) || list_any (λ change. is_number (block_after change block) c)
        changes.now)) }
{
    let mut numbers = Vec::new(alloc);
    numbers.push(block)?;
    for change in changes {
        if let Some(other) = block_after(change, block) {
            numbers.push(other)?;
        }
    }
    Ok(BlockList::of(numbers))
}

/// The scopes of all blocks, in order of their numbers.
pub fn scopes(
    alloc: Global,
    strips: &StripsParts,
    atoms: &TrackedAtoms,
) -> Result<Vec<BlockList>, AllocError>
    requires strips { IsStrips strips.now }
    requires atoms { AreAtoms strips.now atoms.now }
    ensures count { IfOk result (λ scopes. length scopes.items ≡ 2 ^ length atoms.now) }
    ensures scope { IfOk result (λ scopes. (block other : ℕ) → block < 2 ^ length atoms.now
        → IsTrue (has (slice_index_or scopes.items block []) other)
        ↔ ((block ≡ other) ⊎ IsTrackedEdge strips.now atoms.now block other)) }
{
    // Many actions do the same to the tracked atoms. Each block is looked at once for each change.
    let changes = each_once(all_changes(alloc, &strips.actions, atoms)?);
    let mut scopes = Vec::new(alloc);
    for block in 0..atoms.set_count() {
        scopes.push(scope(alloc, changes.as_slice(), block)?)?;
    }
    Ok(scopes)
}
