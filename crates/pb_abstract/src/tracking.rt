//! The choice of the tracked atoms: those that the fewest ground actions change.
ghost use Rattle.std.specs.Prelude.{◌≡◌, ℕ, ◌+◌, ◌<◌, ◌≤◌, true, false, length, slice_index, IfOk, IfSome, IfNone};
ghost use Rattle.pb_packed.specs.Sizes.{most_atoms};
ghost use Rattle.pb_machine.specs.Tables.{one_if};
ghost use Rattle.pb_task.specs.Strips.{action_at, IsStrips};
ghost use Rattle.pb_abstract.specs.Tracked.{changes, AreTracked};
ghost use Rattle.pb_abstract.specs.Ranking.{AreCounts, is_left, is_fewer, better, IsNext, IsNone};

use crate::tracked::TrackedAtoms;
use pb_task::{Actions, StripsParts, next_atom};
use std::alloc::{AllocError, Global};

// The first atom from one on that an action changes, and `count` if it changes none below it.
fn next_change(actions: &Actions, at: usize, from: u32, count: u32) -> u32
    requires at { at < length actions.now }
    requires count { count ≤ most_atoms }
    requires from { from ≤ count }
    ensures from { from ≤ result }
    ensures most { result ≤ count }
    ensures none { (atom : ℕ) → from ≤ atom → atom < result
        → changes atom (action_at actions.now at) ≡ false }
    ensures has { result < count → changes result (action_at actions.now at) ≡ true }
{
    let added = next_atom(&actions.adds(at), from, count);
    let deleted = next_atom(&actions.deletes(at), from, count);
    if added < deleted { added } else { deleted }
}

// Counts an action at each atom that it changes. It takes as many steps as these atoms, and not as
// all atoms.
fn count_action(actions: &Actions, at: usize, counts: &mut [u32])
    requires at { at < length actions.now }
    requires few { length counts.old ≤ most_atoms }
    requires small { (atom : ℕ) → atom < length counts.old → slice_index counts.old atom ≤ 65536 }
    ensures len { length counts.new ≡ length counts.old }
    ensures each { (atom : ℕ) → atom < length counts.old → slice_index counts.new atom
        ≡ slice_index counts.old atom + one_if (changes atom (action_at actions.now at)) }
{
    let count = counts.len() as u32;
    let mut atom = next_change(actions, at, 0, count);
    while atom < count {
        counts[atom as usize] += 1;
        atom = next_change(actions, at, atom + 1, count);
    }
}

// How many of the actions change each atom.
fn counts(alloc: Global, strips: &StripsParts) -> Result<Vec<u32>, AllocError>
    requires { IsStrips strips.now }
    ensures { IfOk result (λ counts. AreCounts strips.now counts.items) }
{
    let mut counts = vec![in alloc; 0; strips.atoms as usize]?;
    for at in 0..strips.actions.len() {
        count_action(&strips.actions, at, counts.as_mut_slice());
    }
    Ok(counts)
}

// Whether some action changes an atom, and it isn't tracked yet.
fn is_left(counts: &[u32], tracked: &TrackedAtoms, atom: u16) -> bool
    requires { atom < length counts.now }
    ensures { result ≡ is_left counts.now tracked.now atom }
{
    0 < counts[usize::from(atom)] && !tracked.as_slice().contains(&atom)
}

// Whether fewer actions change an atom than the best one, if there is one.
fn is_fewer(counts: &[u32], atom: u16, best: Option<u16>) -> bool
    requires atom { atom < length counts.now }
    requires best { IfSome best (λ other. other < length counts.now) }
    ensures { result ≡ is_fewer counts.now atom best }
{
    match best {
        Some(other) => counts[usize::from(atom)] < counts[usize::from(other)],
        None => true,
    }
}

// The better one of an atom and the best one so far.
fn better(counts: &[u32], tracked: &TrackedAtoms, atom: u16, best: Option<u16>) -> Option<u16>
    requires atom { atom < length counts.now }
    requires best { IfSome best (λ other. other < length counts.now) }
    ensures { result ≡ better counts.now tracked.now atom best }
{
    if is_left(counts, tracked, atom) && is_fewer(counts, atom, best) {
        Some(atom)
    } else {
        best
    }
}

// The atom to be tracked next, or None if there is none. Of the changed atoms that aren't tracked
// yet, it is the one that the fewest actions change. Of several such atoms it is the least.
fn next(counts: &[u32], tracked: &TrackedAtoms) -> Option<u16>
    requires { length counts.now ≤ most_atoms }
    ensures next { IfSome result (IsNext counts.now tracked.now) }
    ensures none { IfNone result (IsNone counts.now tracked.now) }
{
    let mut best = None;
    for atom in 0..counts.len() {
        best = better(counts, tracked, atom as u16, best);
    }
    best
}

/// The atoms that are tracked for a wish of at most so many blocks.
pub fn choose_atoms(
    alloc: Global,
    strips: &StripsParts,
    wish: u32,
) -> Result<TrackedAtoms, AllocError>
    requires strips { IsStrips strips.now }
    requires some { 1 ≤ wish }
    requires few { wish ≤ 4096 }
    ensures { IfOk result (AreTracked strips.now wish) }
{
    let counts = counts(alloc, strips)?;
    let mut atoms = TrackedAtoms::new();
    let mut blocks = 1;
    // Each atom more doubles the number of blocks.
    while 2 * blocks <= wish {
        let Some(atom) = next(counts.as_slice(), &atoms) else {
            return Ok(atoms);
        };
        atoms.push(atom);
        blocks *= 2;
    }
    Ok(atoms)
}
