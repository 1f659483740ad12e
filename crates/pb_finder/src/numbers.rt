//! Numbers in lists. What stands behind the end of a list is 0, and writing there does nothing.
use pb_packed::{BITS, Packed};

/// The number at a place.
pub fn at(list: &[u64], place: usize) -> u64 {
    if place < list.len() { list[place] } else { 0 }
}

/// The number at a place.
pub fn small_at(list: &[u32], place: usize) -> u32 {
    if place < list.len() { list[place] } else { 0 }
}

/// The number at a place.
pub fn place_at(list: &[usize], place: usize) -> usize {
    if place < list.len() { list[place] } else { 0 }
}

/// Writes a number at a place.
pub fn set(list: &mut [u64], place: usize, value: u64) {
    if place < list.len() {
        list[place] = value;
    }
}

/// Adds to the number at a place.
pub fn raise(list: &mut [u64], place: usize, by: u64) {
    // No clause bounds these numbers, so the sum saturates: if tables are wrong by it, they are
    // refused.
    if place < list.len() {
        list[place] = list[place].saturating_add(by);
    }
}

/// A number in 32 bits, and the greatest such number if it doesn't fit.
pub fn narrow(number: usize) -> u32 {
    u32::try_from(number).unwrap_or(u32::MAX)
}

/// Whether an atom is in a set. No number above those of a state's bits is.
pub fn has(set: &Packed, atom: u32) -> bool {
    atom < BITS && set.has(atom)
}

/// A set with one atom more, if it is the number of a bit.
pub fn with(set: &Packed, atom: u32) -> Packed {
    if atom < BITS {
        set.with(atom, true)
    } else {
        *set
    }
}

/// A set with some atoms more.
pub fn with_all(set: Packed, atoms: &[u32]) -> Packed {
    let mut set = set;
    for atom in atoms {
        set = with(&set, *atom);
    }
    set
}

/// A set without an atom, if it is the number of a bit.
pub fn without(set: &Packed, atom: u32) -> Packed {
    if atom < BITS {
        set.with(atom, false)
    } else {
        *set
    }
}
