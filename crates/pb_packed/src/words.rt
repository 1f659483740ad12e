//! A number in a fixed count of words.
ghost use Rattle.std.specs.Prelude.{◌≡◌, ◌+◌, ◌*◌, ◌<◌, ◌≤◌, ◌^◌, ◌%◌, ◌↔◌, IsTrue, length, nat_eq};
ghost use Rattle.std.specs.Ordering.{nat_cmp};
ghost use Rattle.std.specs.Hash as fed;
ghost use Rattle.std.specs.List.{flat_map, fold};
ghost use Rattle.pb_packed.specs.Words.{number_of, words_of, AreWords};
ghost use Rattle.pb_packed.specs.Bits.{bits_of, with_bits_of};

use crate::slices::{are_zero_from, bits_in, compare, copy_words, same, set_bits_in};
use std::cmp::Ordering;
use std::hash::{Hash, Hasher};
use std::marker::Model;

/// A number in `W` words, which contracts see as the number.
#[derive(Clone, Copy, Debug)]
pub struct Words<const W: usize> {
    // the lowest first
    words: [u64; W],
}

impl<const W: usize> Model for Words<W> {
    ghost use Rattle.std.specs.Prelude.{ℕ};
    ghost use Rattle.pb_packed.specs.Words.{number_of, words_of, AreWords, words_are_back};

    ghost Value = { ℕ };

    ghost view = { λ p. number_of p.words };

    ghost invariant = { λ p. AreWords W p.words };

    ghost inverse = { λ n. record { words = words_of W n } };

    ghost inverse_ok = { λ a h i. record { words = words_are_back W a.words h i } };
}

impl<const W: usize> Words<W> {
    /// The number 0.
    pub fn zero() -> Words<W>
        ensures { result ≡ 0 }
    {
        Words { words: [0; W] }
    }

    // The number in the bits from bit `at` on, which are some.
    #[inline]
    pub(crate) fn bits_of_some(&self, at: u32, len: u32) -> u64
        requires some { 0 < len }
        requires short { len ≤ 64 }
        requires within { at + len ≤ 64 * W }
        ensures { result ≡ bits_of self.now at len }
    {
        bits_in(&self.words, at, len)
    }

    // The same number with these bits, which are some, replaced by the value.
    #[inline]
    pub(crate) fn with_some_bits(&self, at: u32, len: u32, value: u64) -> Words<W>
        requires some { 0 < len }
        requires short { len ≤ 64 }
        requires within { at + len ≤ 64 * W }
        requires fits { value < 2 ^ len }
        ensures { result ≡ with_bits_of self.now at len value }
    {
        let mut words = self.words;
        set_bits_in(&mut words, at, len, value);
        Words { words }
    }

    /// The number of one word.
    #[inline]
    pub fn of_word(word: u64) -> Words<W>
        requires { 1 ≤ W }
        ensures { result ≡ word }
    {
        let mut words = [0; W];
        copy_words(&[word], &mut words);
        Words { words }
    }

    /// The number that these words spell, the lowest first.
    #[inline]
    pub fn of_slice(words: &[u64]) -> Words<W>
        requires words { AreWords (length words.now) words.now }
        requires fits { number_of words.now < 2 ^ (64 * W) }
        ensures { result ≡ number_of words.now }
    {
        let mut out = [0; W];
        copy_words(words, &mut out);
        Words { words: out }
    }

    /// The lowest word of the number.
    #[inline]
    pub fn low_word(&self) -> u64
        requires { 1 ≤ W }
        ensures { result ≡ self.now % 2 ^ 64 }
    {
        self.words[0]
    }

    /// Whether the number fits so many words.
    #[inline]
    pub fn fits(&self, count: usize) -> bool
        ensures { IsTrue result ↔ (self.now < 2 ^ (64 * count)) }
    {
        are_zero_from(&self.words, count)
    }

    /// The same number in another count of words.
    #[inline]
    pub fn resized<const V: usize>(&self) -> Words<V>
        requires { self.now < 2 ^ (64 * V) }
        ensures { result ≡ self.now }
    {
        let mut words = [0; V];
        copy_words(&self.words, &mut words);
        Words { words }
    }

    /// The same number in at least as many words.
    #[inline]
    pub fn widened<const V: usize>(&self) -> Words<V>
        requires { W ≤ V }
        ensures { result ≡ self.now }
    {
        let mut words = [0; V];
        copy_words(&self.words, &mut words);
        Words { words }
    }

    /// The words, the lowest first.
    #[inline]
    pub fn to_array(&self) -> [u64; W]
        ensures number { number_of result ≡ self.now }
        ensures words { AreWords W result }
    {
        self.words
    }

    // Whether both are the same number.
    #[inline]
    pub(crate) fn is_same(&self, other: &Words<W>) -> bool
        ensures { result ≡ nat_eq self.now other.now }
    {
        same(&self.words, &other.words)
    }

    // How both numbers compare.
    #[inline]
    pub(crate) fn compared(&self, other: &Words<W>) -> Ordering
        ensures { result ≡ nat_cmp self.now other.now }
    {
        compare(&self.words, &other.words)
    }

    // Feeds the words to a hasher.
    #[inline]
    pub(crate) fn feed<H: Hasher>(&self, state: &mut H)
        ensures { state.new ≡ fold H.write state.old (flat_map fed.u64 (words_of W self.now)) }
    {
        // Their count isn't fed, as the hash of an array would: the type fixes it.
        u64::hash_slice(&self.words, state);
    }
}
