//! Tests and steps of sets of atoms, packed or as words, the lowest word first.
ghost use Rattle.std.specs.Prelude.{◌≡◌, ℕ, ◌*◌, ◌<◌, ◌≤◌, ◌^◌, ◌↔◌, ◌&&◌, ◌||◌, not, IsTrue, length};
ghost use Rattle.pb_packed.specs.Sizes.{state_bits, most_atoms};
ghost use Rattle.pb_packed.specs.Words.{number_of, AreWords};
ghost use Rattle.pb_task.specs.Strips.{has_atom, is_atom_set};

use pb_packed::{BITS, Packed, Words};

/// Whether a number is a set of the first `count` atoms.
pub fn is_atom_set(count: u32, set: &Packed) -> bool
    requires { count ≤ most_atoms }
    ensures { result ≡ is_atom_set count set.now }
{
    if count == BITS {
        // No bit has this number. The call shows that the set fits 16 words, so it has no such bit.
        let _ = set.words();
        return true;
    }
    *set < Packed::zero().with(count, true)
}

/// Whether the one set is within the other.
#[inline]
pub fn is_within(small: &[u64], large: &[u64]) -> bool
    requires small { AreWords (length small.now) small.now }
    requires large { AreWords (length large.now) large.now }
    requires room { length small.now ≤ length large.now }
    ensures { IsTrue result
        ↔ ((atom : ℕ) → IsTrue (has_atom (number_of small.now) atom)
        → IsTrue (has_atom (number_of large.now) atom)) }
{
    for i in 0..small.len() {
        if small[i] & large[i] != small[i] {
            return false;
        }
    }
    true
}

// Whether the one set is within the other, where each is one word.
#[inline]
fn is_word_within(small: u64, large: u64) -> bool
    ensures { IsTrue result
        ↔ ((atom : ℕ) → IsTrue (has_atom small atom) → IsTrue (has_atom large atom)) }
{
    small & large == small
}

// Whether the one set is within the other, in all words of both.
#[inline(never)]
fn are_words_within(small: &Packed, large: &Packed) -> bool
    ensures { IsTrue result
        ↔ ((atom : ℕ) → IsTrue (has_atom small.now atom) → IsTrue (has_atom large.now atom)) }
{
    is_within(&small.to_words(), &large.to_words())
}

/// Whether the one state's atoms are all in the other.
#[inline]
pub fn is_subset(small: &Packed, large: &Packed) -> bool
    ensures { IsTrue result
        ↔ ((atom : ℕ) → IsTrue (has_atom small.now atom) → IsTrue (has_atom large.now atom)) }
{
    match (small.as_word(), large.as_word()) {
        (Some(one), Some(other)) => is_word_within(one, other),
        _ => are_words_within(small, large),
    }
}

/// The first words of a set, which has no atom beyond them.
#[inline]
pub fn first_words<const W: usize>(set: &[u64]) -> &[u64]
    requires words { AreWords (length set.now) set.now }
    requires fits { number_of set.now < 2 ^ (64 * W) }
    ensures set { number_of result.now ≡ number_of set.now }
    ensures words { AreWords (length result.now) result.now }
    ensures few { length result.now ≤ W }
{
    if set.len() <= W { set } else { &set[..W] }
}

// Takes the atoms of a set out of another.
#[inline]
fn take_out(words: &mut [u64], set: &[u64])
    requires words { AreWords (length words.old) words.old }
    requires set { AreWords (length set.now) set.now }
    requires room { length set.now ≤ length words.old }
    ensures words { AreWords (length words.old) words.new }
    ensures atoms { (atom : ℕ) → has_atom (number_of words.new) atom
        ≡ (has_atom (number_of words.old) atom && not (has_atom (number_of set.now) atom)) }
{
    for i in 0..set.len() {
        words[i] = words[i] & !set[i];
    }
}

// Puts the atoms of a set into another.
#[inline]
fn put_in(words: &mut [u64], set: &[u64])
    requires words { AreWords (length words.old) words.old }
    requires set { AreWords (length set.now) set.now }
    requires room { length set.now ≤ length words.old }
    ensures words { AreWords (length words.old) words.new }
    ensures atoms { (atom : ℕ) → has_atom (number_of words.new) atom
        ≡ (has_atom (number_of set.now) atom || has_atom (number_of words.old) atom) }
{
    for i in 0..set.len() {
        words[i] = set[i] | words[i];
    }
}

/// The atoms that hold after an action that adds and deletes these, of the atoms that held before.
#[inline]
pub fn after<const W: usize>(adds: &[u64], deletes: &[u64], held: &[u64; W]) -> Packed
    requires some { 1 ≤ W }
    requires most { W ≤ 16 }
    requires adds { AreWords (length adds.now) adds.now }
    requires deletes { AreWords (length deletes.now) deletes.now }
    requires held { AreWords W held.now }
    requires few_adds { length adds.now ≤ W }
    requires few_deletes { length deletes.now ≤ W }
    ensures atoms { (atom : ℕ) → has_atom result atom
        ≡ (has_atom (number_of adds.now) atom
        || (has_atom (number_of held.now) atom && not (has_atom (number_of deletes.now) atom))) }
    ensures bits { result < 2 ^ state_bits }
{
    let mut words = *held;
    // Deleted atoms go first, so an atom that is both deleted and added holds afterwards.
    take_out(&mut words, deletes);
    put_in(&mut words, adds);
    Packed::from_words(&Words::<W>::of_slice(&words))
}
