//! Numbers of a fixed count of words each, one after another in one array.
ghost use Rattle.std.specs.Prelude.{◌≡◌, ◌≢◌, ◌≤◌, ◌<◌, ◌++◌, ◌∷◌, [], ℕ, true, false, IfSome, IfNone, IfOk, OnOk, OnErr, length, slice_index};
ghost use Rattle.std.specs.Ordering.{nat_cmp};
ghost use Rattle.pb_packed.specs.Words.{number_of, AreWords};
ghost use Rattle.pb_check.specs.Numbers.{AreRising, IsPlaceOf};

use pb_packed::{Packed, compare};
use std::alloc::{AllocError, Global};
use std::cmp::Ordering;
use std::marker::Model;

/// Numbers of `width` words each. Contracts see the width and the list of the numbers.
#[derive(Drop)]
pub struct Numbers {
    width: usize,
    count: usize,
    // the words of the numbers, one after another, the lowest word of each first
    words: Vec<u64>,
}

impl Model for Numbers {
    ghost use Rattle.pb_check.specs.Numbers.{Flat, flat_of, AreFlat};

    ghost Value = { Flat };

    ghost view = { λ n. flat_of n.width n.count n.words.items };

    ghost invariant = { λ n. AreFlat n.width n.count n.words.items };
}

impl Numbers {
    /// No numbers, of so many words each, with room for so many.
    pub fn with_room(alloc: Global, width: usize, room: usize) -> Result<Numbers, AllocError>
        requires some { 1 ≤ width }
        requires most { width ≤ 16 }
        ensures width { IfOk result (λ numbers. numbers.width ≡ width) }
        ensures none { IfOk result (λ numbers. numbers.numbers ≡ []) }
    {
        // If the product doesn't fit, the room is refused as out of memory.
        let words = Vec::with_capacity(alloc, width.saturating_mul(room))?;
        Ok(Numbers {
            width,
            count: 0,
            words,
        })
    }

    /// Adds a number, given by its words, at the end.
    pub fn push(&mut self, number: &[u64]) -> Result<(), AllocError>
        requires long { length number.now ≡ self.old.width }
        requires words { AreWords (length number.now) number.now }
        ensures ok { OnOk result (self.new.numbers
            ≡ self.old.numbers ++ number_of number.now ∷ []) }
        ensures err { OnErr result (self.new.numbers ≡ self.old.numbers) }
        ensures width { self.new.width ≡ self.old.width }
    {
        self.words.extend_from_slice(number)?;
        self.count += 1;
        Ok(())
    }

    /// Adds other numbers of as many words at the end, and gives up their array.
    pub fn append(&mut self, others: Numbers) -> Result<(), AllocError>
        requires { others.width ≡ self.old.width }
        ensures ok { OnOk result (self.new.numbers ≡ self.old.numbers ++ others.numbers) }
        ensures width { self.new.width ≡ self.old.width }
    {
        self.words.extend_from_slice(&others.words)?;
        self.count += others.count;
        Ok(())
    }

    /// How many numbers there are.
    pub fn len(&self) -> usize
        ensures { result ≡ length self.now.numbers }
    {
        self.count
    }

    /// The words of the number at a place.
    #[inline]
    pub fn at(&self, i: usize) -> &[u64]
        requires { i < length self.now.numbers }
        ensures number { number_of result.now ≡ slice_index self.now.numbers i }
        ensures long { length result.now ≡ self.now.width }
        ensures few { length result.now ≤ 16 }
        ensures words { AreWords (length result.now) result.now }
    {
        let words = self.words.as_slice();
        let first = i * self.width;
        &words[first..first + self.width]
    }

    /// How the number at a place compares with another, which has as many words.
    #[inline]
    pub fn compare_at(&self, i: usize, other: &[u64]) -> Ordering
        requires inside { i < length self.now.numbers }
        requires long { length other.now ≡ self.now.width }
        requires words { AreWords (length other.now) other.now }
        ensures { result ≡ nat_cmp (slice_index self.now.numbers i) (number_of other.now) }
    {
        compare(self.at(i), other)
    }

    /// Whether the number at a place is above another, which has as many words.
    #[inline]
    pub fn is_above(&self, i: usize, other: &[u64]) -> bool
        requires inside { i < length self.now.numbers }
        requires long { length other.now ≡ self.now.width }
        requires words { AreWords (length other.now) other.now }
        ensures yes { result ≡ true → number_of other.now < slice_index self.now.numbers i }
        ensures no { result ≡ false → slice_index self.now.numbers i ≤ number_of other.now }
    {
        self.compare_at(i, other) == Ordering::Greater
    }

    // The place of a number among ones that rise, found by halving.
    fn place_of(&self, other: &[u64]) -> Option<usize>
        requires rise { AreRising self.now.numbers }
        requires long { length other.now ≡ self.now.width }
        requires words { AreWords (length other.now) other.now }
        ensures some { IfSome result (λ i. (i < length self.now.numbers)
            × (slice_index self.now.numbers i ≡ number_of other.now)) }
        ensures none { IfNone result ((i : ℕ) → i < length self.now.numbers
            → slice_index self.now.numbers i ≢ number_of other.now) }
    {
        let mut low = 0;
        let mut high = self.len();
        while low < high {
            let middle = low + (high - low) / 2;
            match self.compare_at(middle, other) {
                Ordering::Less => low = middle + 1,
                Ordering::Greater => high = middle,
                Ordering::Equal => return Some(middle),
            }
        }
        None
    }

    // The place of a number among ones that rise. The place `near` is looked at first.
    fn place_near(&self, other: &[u64], near: usize) -> Option<usize>
        requires rise { AreRising self.now.numbers }
        requires long { length other.now ≡ self.now.width }
        requires words { AreWords (length other.now) other.now }
        ensures { IsPlaceOf result self.now.numbers (number_of other.now) }
    {
        if near < self.len() && self.compare_at(near, other) == Ordering::Equal {
            Some(near)
        } else {
            self.place_of(other)
        }
    }

    // The place of a number that takes one word, where each takes one.
    fn place_of_word(&self, number: &Packed, near: usize) -> Option<usize>
        requires rise { AreRising self.now.numbers }
        requires width { self.now.width ≡ 1 }
        ensures { IsPlaceOf result self.now.numbers number.now }
    {
        let _ = &self.words;
        match number.as_word() {
            Some(word) => self.place_near(&[word], near),
            None => None,
        }
    }

    // The place of a number of any count of words.
    fn place_of_words(&self, number: &Packed, near: usize) -> Option<usize>
        requires rise { AreRising self.now.numbers }
        ensures { IsPlaceOf result self.now.numbers number.now }
    {
        let words = number.words();
        if words.fits(self.width) {
            let all = words.to_array();
            self.place_near(&all[..self.width], near)
        } else {
            None
        }
    }

    /// The place of a number among ones that rise, or None if it isn't one of them. The place
    /// `near` is looked at first; if the number isn't there, halving finds it.
    pub fn place(&self, number: &Packed, near: usize) -> Option<usize>
        requires rise { AreRising self.now.numbers }
        ensures { IsPlaceOf result self.now.numbers number.now }
    {
        if self.width == 1 {
            self.place_of_word(number, near)
        } else {
            self.place_of_words(number, near)
        }
    }
}
