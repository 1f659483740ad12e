//! Numbers of a fixed count of words each, one after another in one array.
ghost use Rattle.std.specs.Prelude.{◌≡◌, ◌≤◌, ◌<◌, ◌*◌, ◌^◌, ◌++◌, ◌∷◌, [], IfOk, OnOk, OnErr, length, slice_index};
ghost use Rattle.std.specs.Ordering.{nat_cmp};
ghost use Rattle.pb_packed.specs.Words.{number_of, AreWords};
ghost use Rattle.pb_tables.specs.Flat.{AreAscending, AreLess, AreGreater, IsPlaceOf};

use pb_packed::{Packed, compare};
use std::alloc::{AllocError, Global};
use std::cmp::Ordering;
use std::marker::Model;

/// Numbers of `width` words each. Contracts see the width and the list of the numbers.
#[derive(Drop)]
pub struct FlatNumbers {
    width: usize,
    count: usize,
    // the words of the numbers, one after another, the lowest word of each first
    words: Vec<u64>,
}

impl Model for FlatNumbers {
    ghost use Rattle.pb_tables.specs.Flat.{FlatNumbersView, flat_of, AreFlat};

    ghost Value = { FlatNumbersView };

    ghost view = { λ n. flat_of n.width n.count n.words.items };

    ghost invariant = { λ n. AreFlat n.width n.count n.words.items };
}

impl FlatNumbers {
    /// No numbers, of so many words each. It takes no memory.
    pub fn new(alloc: Global, width: usize) -> FlatNumbers
        requires some { 1 ≤ width }
        requires most { width ≤ 16 }
        ensures width { result.width ≡ width }
        ensures none { result.numbers ≡ [] }
    {
        FlatNumbers {
            width,
            count: 0,
            words: Vec::new(alloc),
        }
    }

    // Adds a number, given by its words, at the end.
    fn push_words(&mut self, number: &[u64]) -> Result<(), AllocError>
        requires long { length number.now ≡ self.old.width }
        requires words { AreWords (length number.now) number.now }
        ensures ok { OnOk result (self.new.numbers
            ≡ self.old.numbers ++ number_of number.now ∷ []) }
        ensures err { OnErr result (self.new.numbers ≡ self.old.numbers) }
        ensures width { self.new.width ≡ self.old.width }
    {
        // The count rises last, so if memory runs out nothing has changed.
        self.words.extend_from_slice(number)?;
        self.count += 1;
        Ok(())
    }

    /// Adds a number that fits the words at the end.
    pub fn push(&mut self, number: &Packed) -> Result<(), AllocError>
        requires fits { number.now < 2 ^ (64 * self.old.width) }
        ensures ok { OnOk result (self.new.numbers ≡ self.old.numbers ++ number.now ∷ []) }
        ensures err { OnErr result (self.new.numbers ≡ self.old.numbers) }
        ensures width { self.new.width ≡ self.old.width }
    {
        let words = number.to_words();
        let width = self.width();
        self.push_words(&words[..width])
    }

    /// How many words a number takes.
    pub fn width(&self) -> usize
        ensures width { result ≡ self.now.width }
        ensures some { 1 ≤ result }
        ensures most { result ≤ 16 }
    {
        self.width
    }

    /// How many numbers there are.
    pub fn len(&self) -> usize
        ensures { result ≡ length self.now.numbers }
    {
        self.count
    }

    /// The words of the number at a place.
    #[inline]
    pub fn at(&self, i: usize) -> &[u64]
        requires { i < length self.now.numbers }
        ensures number { number_of result.now ≡ slice_index self.now.numbers i }
        ensures long { length result.now ≡ self.now.width }
        ensures few { length result.now ≤ 16 }
        ensures words { AreWords (length result.now) result.now }
        ensures small { number_of result.now < 2 ^ (64 * self.now.width) }
    {
        let words = self.words.as_slice();
        let first = i * self.width;
        &words[first..first + self.width]
    }

    // The same numbers in at least as many words each.
    fn widened(&self, alloc: Global, width: usize) -> Result<FlatNumbers, AllocError>
        requires more { self.now.width ≤ width }
        requires most { width ≤ 16 }
        ensures numbers { IfOk result (λ wider. wider.numbers ≡ self.now.numbers) }
        ensures width { IfOk result (λ wider. wider.width ≡ width) }
    {
        let least = self.width();
        let mut wider = FlatNumbers::new(alloc, width.max(least));
        for i in 0..self.len() {
            let number = Packed::of_slice(self.at(i));
            wider.push(&number)?;
        }
        Ok(wider)
    }

    /// Gives each number at least so many words.
    pub fn widen(&mut self, alloc: Global, width: usize) -> Result<(), AllocError>
        requires { width ≤ 16 }
        ensures same { self.new.numbers ≡ self.old.numbers }
        ensures wide { OnOk result (width ≤ self.new.width) }
    {
        if self.width() < width {
            // The numbers are copied first: after an error they are as before.
            *self = self.widened(alloc, width)?;
        }
        Ok(())
    }

    // How the number at a place compares with another, which has as many words.
    #[inline]
    fn compare_at(&self, i: usize, other: &[u64]) -> Ordering
        requires inside { i < length self.now.numbers }
        requires long { length other.now ≡ self.now.width }
        requires words { AreWords (length other.now) other.now }
        ensures { result ≡ nat_cmp (slice_index self.now.numbers i) (number_of other.now) }
    {
        compare(self.at(i), other)
    }

    // The place of a number among ones that ascend, found by halving. The numbers before `low` are
    // less, and those from `high` on are greater.
    fn place_between(&self, other: &[u64], low: usize, high: usize) -> Option<usize>
        requires ascend { AreAscending self.now.numbers }
        requires long { length other.now ≡ self.now.width }
        requires words { AreWords (length other.now) other.now }
        requires inside { high ≤ length self.now.numbers }
        requires below { AreLess low self.now.numbers (number_of other.now) }
        requires above { AreGreater high self.now.numbers (number_of other.now) }
        ensures { IsPlaceOf result self.now.numbers (number_of other.now) }
    {
        let mut low = low;
        let mut high = high;
        while low < high {
            let middle = low + (high - low) / 2;
            match self.compare_at(middle, other) {
                Ordering::Less => low = middle + 1,
                Ordering::Greater => high = middle,
                Ordering::Equal => return Some(middle),
            }
        }
        None
    }

    // The same where the numbers before `first` are less. It looks upwards in steps that double.
    fn place_above(&self, other: &[u64], first: usize) -> Option<usize>
        requires ascend { AreAscending self.now.numbers }
        requires long { length other.now ≡ self.now.width }
        requires words { AreWords (length other.now) other.now }
        requires inside { first ≤ length self.now.numbers }
        requires below { AreLess first self.now.numbers (number_of other.now) }
        ensures { IsPlaceOf result self.now.numbers (number_of other.now) }
    {
        let end = self.len();
        let mut low = first;
        while low - first < end - low {
            let place = low + (low - first);
            match self.compare_at(place, other) {
                Ordering::Less => low = place + 1,
                Ordering::Greater => return self.place_between(other, low, place),
                Ordering::Equal => return Some(place),
            }
        }
        self.place_between(other, low, end)
    }

    // The same where the numbers from `end` on are greater. It looks downwards in steps that double.
    fn place_below(&self, other: &[u64], end: usize) -> Option<usize>
        requires ascend { AreAscending self.now.numbers }
        requires long { length other.now ≡ self.now.width }
        requires words { AreWords (length other.now) other.now }
        requires inside { end ≤ length self.now.numbers }
        requires above { AreGreater end self.now.numbers (number_of other.now) }
        ensures { IsPlaceOf result self.now.numbers (number_of other.now) }
    {
        let mut high = end;
        while end - high < high {
            let place = high - (end - high) - 1;
            match self.compare_at(place, other) {
                Ordering::Less => return self.place_between(other, place + 1, high),
                Ordering::Greater => high = place,
                Ordering::Equal => return Some(place),
            }
        }
        self.place_between(other, 0, high)
    }

    /// The place of a number of as many words among ones that ascend, or None if it isn't one of
    /// them. The look begins at the place `near`, and takes the longer the farther the number is.
    #[inline]
    pub fn place_near(&self, other: &[u64], near: usize) -> Option<usize>
        requires ascend { AreAscending self.now.numbers }
        requires long { length other.now ≡ self.now.width }
        requires words { AreWords (length other.now) other.now }
        ensures { IsPlaceOf result self.now.numbers (number_of other.now) }
    {
        if near < self.len() {
            match self.compare_at(near, other) {
                Ordering::Less => self.place_above(other, near + 1),
                Ordering::Greater => self.place_below(other, near),
                Ordering::Equal => Some(near),
            }
        } else {
            self.place_between(other, 0, self.len())
        }
    }

    /// The place of a number among ones that ascend, or None if it isn't one of them.
    pub fn place(&self, number: &Packed) -> Option<usize>
        requires ascend { AreAscending self.now.numbers }
        ensures { IsPlaceOf result self.now.numbers number.now }
    {
        let words = number.words();
        // A number of more words than these isn't among them.
        if words.fits(self.width) {
            let all = words.to_array();
            self.place_between(&all[..self.width], 0, self.len())
        } else {
            None
        }
    }
}
