//! Sets of atoms, gone through by their bits.
ghost use Rattle.std.specs.Prelude.{◌≡◌, ◌≢◌, ℕ, ◌<◌, ◌≤◌, ◌&&◌, ◌||◌, not, true, false, IfOk};
ghost use Rattle.pb_packed.specs.Sizes.{most_atoms};
ghost use Rattle.pb_task.specs.Strips.{has_atom};
ghost use Rattle.pb_estimate.specs.Tables.{atoms_in};

use pb_listed::Listed;
use pb_packed::{Packed, fields_are_replaced};
use pb_task::next_atom;
use std::alloc::{AllocError, Global};

/// The numbers of the atoms of a set, in ascending order.
pub fn atoms_in(alloc: Global, set: &Packed, count: u32) -> Result<Listed<u16>, AllocError>
    requires { count ≤ most_atoms }
    ensures { IfOk result (λ atoms. atoms ≡ atoms_in set.now count) }
{
    let mut atoms = Listed::new(alloc);
    let mut atom = next_atom(set, 0, count);
    while atom < count {
        atoms.push(atom as u16)?;
        atom = next_atom(set, atom + 1, count);
    }
    Ok(atoms)
}

/// Whether all atoms of the one set are in the other.
pub fn is_subset(set: &Packed, other: &Packed, count: u32) -> bool
    requires { count ≤ most_atoms }
    ensures { result ≡ true → (atom : ℕ) → atom < count → has_atom set.now atom ≡ true
        → has_atom other.now atom ≡ true }
{
    let mut atom = next_atom(set, 0, count);
    while atom < count {
        if !other.has(atom) {
            return false;
        }
        atom = next_atom(set, atom + 1, count);
    }
    true
}

// The set with one atom more.
fn with_atom(set: &Packed, atom: u32) -> Packed
    requires { atom < most_atoms }
    ensures has { has_atom result atom ≡ true }
    ensures others { (other : ℕ) → other ≢ atom → has_atom result other ≡ has_atom set.now other }
{
    // The law says that no other atom's bit changes.
    fields_are_replaced();
    set.with(atom, true)
}

// The set with one atom more, if this isn't in another set.
fn with_unless(set: &Packed, but: &Packed, atom: u32) -> Packed
    requires { atom < most_atoms }
    ensures has { has_atom result atom ≡ (has_atom set.now atom || not (has_atom but.now atom)) }
    ensures others { (other : ℕ) → other ≢ atom → has_atom result other ≡ has_atom set.now other }
{
    if but.has(atom) {
        *set
    } else {
        with_atom(set, atom)
    }
}

/// The set with those atoms of another that aren't in a third.
pub fn with_new(set: &Packed, more: &Packed, but: &Packed, count: u32) -> Packed
    requires { count ≤ most_atoms }
    ensures { (atom : ℕ) → atom < count → has_atom result atom ≡ (has_atom set.now atom
        || (has_atom more.now atom && not (has_atom but.now atom))) }
{
    let mut joined = *set;
    let mut atom = next_atom(more, 0, count);
    while atom < count {
        joined = with_unless(&joined, but, atom);
        atom = next_atom(more, atom + 1, count);
    }
    joined
}
