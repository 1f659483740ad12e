//! Sets of atoms, packed or as words. Of two sets of words, the lowest word comes first.
ghost use Rattle.std.specs.Prelude.{◌≡◌, ℕ, ◌*◌, ◌<◌, ◌≤◌, ◌^◌, ◌↔◌, ◌&&◌, ◌||◌, not, IsTrue, length, slice_index};
ghost use Rattle.pb_packed.specs.Sizes.{state_bits, most_atoms};
ghost use Rattle.pb_packed.specs.Words.{number_of, AreWords};
ghost use Rattle.pb_task.specs.Strips.{has_atom, is_within, is_atom_set};
ghost use Rattle.pb_tables.specs.Images.{both};

use pb_packed::{BITS, Packed};

// The word in a place, and 0 beyond the last one.
#[inline]
fn word_at(words: &[u64], i: usize) -> u64
    ensures { result ≡ slice_index words.now i }
{
    if i < words.len() { words[i] } else { 0 }
}

// Whether the one set is within the other.
#[inline]
fn are_within(small: &[u64], large: &[u64]) -> bool
    requires small { AreWords (length small.now) small.now }
    requires large { AreWords (length large.now) large.now }
    ensures { IsTrue result
        ↔ ((atom : ℕ) → IsTrue (has_atom (number_of small.now) atom)
        → IsTrue (has_atom (number_of large.now) atom)) }
{
    for i in 0..small.len() {
        let held = word_at(large, i);
        if small[i] & held != small[i] {
            return false;
        }
    }
    true
}

// Keeps those atoms of a set that are in another.
#[inline]
fn keep(words: &mut [u64], set: &[u64])
    requires words { AreWords (length words.old) words.old }
    requires set { AreWords (length set.now) set.now }
    requires room { length set.now ≡ length words.old }
    ensures words { AreWords (length words.old) words.new }
    ensures atoms { (atom : ℕ) → has_atom (number_of words.new) atom
        ≡ (has_atom (number_of words.old) atom && has_atom (number_of set.now) atom) }
{
    for i in 0..set.len() {
        words[i] = words[i] & set[i];
    }
}

// The atoms that are in both sets.
fn common(one: &Packed, other: &Packed) -> Packed
    ensures atoms { (atom : ℕ) → has_atom result atom
        ≡ (has_atom one.now atom && has_atom other.now atom) }
    ensures bits { result < 2 ^ state_bits }
{
    let mut words = one.to_words();
    keep(&mut words, &other.to_words());
    Packed::of_slice(&words)
}

/// Writes the atoms that an action leaves in a set and those that it adds, cut to the tracked ones.
/// They are written in so many words as there are to write.
#[inline]
pub fn change(
    next: &mut [u64],
    held: &[u64],
    adds: &[u64; 16],
    deletes: &[u64; 16],
    tracked: &[u64; 16],
)
    requires held { AreWords (length held.now) held.now }
    requires adds { AreWords 16 adds.now }
    requires deletes { AreWords 16 deletes.now }
    requires tracked { AreWords 16 tracked.now }
    requires room { length held.now ≤ length next.old }
    requires fits { number_of adds.now < 2 ^ (64 * length next.old) }
    requires few { length next.old ≤ 16 }
    ensures words { AreWords (length next.old) next.new }
    ensures atoms { (atom : ℕ) → has_atom (number_of next.new) atom
        ≡ ((has_atom (number_of adds.now) atom
        || (has_atom (number_of held.now) atom && not (has_atom (number_of deletes.now) atom)))
        && has_atom (number_of tracked.now) atom) }
{
    for i in 0..next.len() {
        next[i] = (adds[i] | (word_at(held, i) & !deletes[i])) & tracked[i];
    }
}

/// Whether a number is a set of the first `count` atoms.
pub fn is_atom_set(count: u32, set: &Packed) -> bool
    requires { count ≤ most_atoms }
    ensures { result ≡ is_atom_set count set.now }
{
    if count == BITS {
        // there is no bit of this number, and no number with such a bit
        let _ = set.words();
        return true;
    }
    *set < Packed::zero().with(count, true)
}

/// Whether the one set is within the other, of the first `count` atoms.
pub fn is_within(count: u32, small: &Packed, large: &Packed) -> bool
    requires { small.now < 2 ^ count }
    ensures { result ≡ is_within count small.now large.now }
{
    // Only the contract speaks of `count`.
    let _ = count;
    are_within(&small.to_words(), &large.to_words())
}

/// The same of sets in words.
#[inline]
pub fn is_within_words(count: u32, small: &[u64], large: &[u64]) -> bool
    requires small { AreWords (length small.now) small.now }
    requires large { AreWords (length large.now) large.now }
    requires bits { number_of small.now < 2 ^ count }
    ensures { result ≡ is_within count (number_of small.now) (number_of large.now) }
{
    // Only the contract speaks of `count`.
    let _ = count;
    are_within(small, large)
}

/// The atoms, of the first `count`, that are in both sets.
pub fn both(count: u32, one: &Packed, other: &Packed) -> Packed
    requires count { count ≤ most_atoms }
    requires other { other.now < 2 ^ count }
    ensures both { result ≡ both count one.now other.now }
    ensures small { result < 2 ^ count }
{
    // Only the contract speaks of `count`.
    let _ = count;
    common(one, other)
}
