//! Sets of atoms in one array, each in the same number of words.
ghost use Rattle.std.specs.Prelude.{◌≡◌, ◌*◌, ◌^◌, ◌<◌, ◌≤◌, ◌++◌, ◌∷◌, [], IfOk, OnOk, length, slice_index};
ghost use Rattle.pb_packed.specs.Sizes.{state_bits};
ghost use Rattle.pb_packed.specs.Words.{number_of, AreWords};

use pb_packed::Packed;
use std::alloc::{AllocError, Global};
use std::marker::Model;

/// Sets of atoms, each in the same number of words. Contracts see this number and the sets.
#[derive(Drop)]
pub struct AtomSets {
    width: usize,
    count: usize,
    // the words of the sets, one set after another, the lowest word of each first
    words: Vec<u64>,
    alloc: Global,
}

impl Model for AtomSets {
    ghost use Rattle.pb_task.specs.FlatSets.{FlatSets, flat_of, AreFlat};

    ghost Value = { FlatSets };

    ghost view = { λ s. flat_of s.width s.count s.words.items };

    ghost invariant = { λ s. AreFlat s.width s.count s.words.items };
}

// How many words a set takes.
fn words_for(set: &Packed) -> usize
    ensures fits { set.now < 2 ^ (64 * result) }
    ensures some { 1 ≤ result }
    ensures most { 64 * result ≤ state_bits }
{
    // `width` is 1, 4 or 16, and the set may fit fewer words than that.
    let mut width = set.width();
    while 1 < width && *set < Packed::zero().with(64 * (width - 1) as u32, true) {
        width -= 1;
    }
    width
}

impl AtomSets {
    /// No sets.
    pub fn new(alloc: Global) -> AtomSets
        ensures { result.sets ≡ [] }
    {
        AtomSets::of_width(alloc, 1)
    }

    // No sets, each to take so many words.
    fn of_width(alloc: Global, width: usize) -> AtomSets
        requires some { 1 ≤ width }
        requires most { 64 * width ≤ state_bits }
        ensures sets { result.sets ≡ [] }
        ensures width { result.width ≡ width }
    {
        AtomSets {
            width,
            count: 0,
            words: Vec::new(alloc),
            alloc,
        }
    }

    // Adds a set, given by its words, after the others.
    fn push_words(&mut self, set: &[u64]) -> Result<(), AllocError>
        requires long { length set.now ≡ self.old.width }
        requires words { AreWords (length set.now) set.now }
        ensures sets { OnOk result (self.new.sets ≡ self.old.sets ++ number_of set.now ∷ []) }
        ensures width { self.new.width ≡ self.old.width }
    {
        self.words.extend_from_slice(set)?;
        self.count += 1;
        Ok(())
    }

    // Adds a set that takes no more words than the others.
    fn push(&mut self, set: &Packed) -> Result<(), AllocError>
        requires fits { set.now < 2 ^ (64 * self.old.width) }
        ensures sets { OnOk result (self.new.sets ≡ self.old.sets ++ set.now ∷ []) }
        ensures width { self.new.width ≡ self.old.width }
    {
        let words = set.to_words();
        let width = self.width();
        // The set fits `width` words, so the words left out are 0.
        self.push_words(&words[..width])
    }

    // How many words each set takes.
    fn width(&self) -> usize
        ensures width { result ≡ self.now.width }
        ensures some { 1 ≤ result }
        ensures most { 64 * result ≤ state_bits }
    {
        self.width
    }

    /// How many sets there are.
    pub fn len(&self) -> usize
        ensures { result ≡ length self.now.sets }
    {
        self.count
    }

    /// The words of the set at a place.
    #[inline]
    pub fn at(&self, i: usize) -> &[u64]
        requires { i < length self.now.sets }
        ensures set { number_of result.now ≡ slice_index self.now.sets i }
        ensures words { AreWords (length result.now) result.now }
        ensures long { length result.now ≡ self.now.width }
        ensures few { 64 * length result.now ≤ state_bits }
        ensures small { number_of result.now < 2 ^ (64 * self.now.width) }
    {
        let words = self.words.as_slice();
        let first = i * self.width;
        &words[first..first + self.width]
    }

    // The same sets in more words each.
    fn widened(&self, width: usize) -> Result<AtomSets, AllocError>
        requires more { self.now.width ≤ width }
        requires most { 64 * width ≤ state_bits }
        ensures sets { IfOk result (λ wider. wider.sets ≡ self.now.sets) }
        ensures width { IfOk result (λ wider. wider.width ≡ width) }
    {
        // The maximum below is `width`. The clauses of this call show that it is at least 1.
        let least = self.width();
        let mut wider = AtomSets::of_width(self.alloc, width.max(least));
        for i in 0..self.len() {
            let set = Packed::of_slice(self.at(i));
            wider.push(&set)?;
        }
        Ok(wider)
    }

    // The same sets in at least so many words each.
    fn with_room(self, width: usize) -> Result<AtomSets, AllocError>
        requires most { 64 * width ≤ state_bits }
        ensures sets { IfOk result (λ wider. wider.sets ≡ self.sets) }
        ensures width { IfOk result (λ wider. width ≤ wider.width) }
    {
        if self.width() < width {
            self.widened(width)
        } else {
            Ok(self)
        }
    }

    /// The same sets, and one more after them.
    pub fn with(self, set: &Packed) -> Result<AtomSets, AllocError>
        ensures { IfOk result (λ more. more.sets ≡ self.sets ++ set.now ∷ []) }
    {
        let mut sets = self.with_room(words_for(set))?;
        sets.push(set)?;
        Ok(sets)
    }
}
