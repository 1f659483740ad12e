//! The fields of bits of a packed state: reading and replacing them.
ghost use Rattle.std.specs.Prelude.{◌≡◌, ◌+◌, ◌*◌, ◌%◌, ◌^◌, ◌<◌, ◌≤◌, ◌↔◌, IsTrue};
ghost use Rattle.pb_packed.specs.Bits.{bits_of, with_bits_of, bit_number};
ghost use Rattle.pb_packed.specs.Sizes.{state_bits};

use crate::packed::Form;
use crate::{Packed, Words};

// The number in the `len` bits of a word from bit `at` on, which may lie above the word.
#[inline]
fn bits_of_word(word: u64, at: u32, len: u32) -> u64
    requires some { 0 < len }
    requires short { len ≤ 64 }
    ensures { result ≡ bits_of word at len }
{
    if at < 64 {
        (word >> at) & (u64::MAX >> (64 - len))
    } else {
        0
    }
}

// The number in the `len` bits of 4 words from bit `at` on, which may lie above the words.
#[inline]
fn bits_of_few(words: &Words<4>, at: u32, len: u32) -> u64
    requires some { 0 < len }
    requires short { len ≤ 64 }
    requires small { words.now < 2 ^ 256 }
    ensures { result ≡ bits_of words.now at len }
{
    if at >= 256 {
        return 0;
    }
    // The bits above the words are 0, so the field may end with the words.
    words.bits(at, len.min(256 - at))
}

impl Packed {
    /// The number in the `len` bits from bit `at` on.
    #[inline]
    pub fn bits(&self, at: u32, len: u32) -> u64
        requires short { len ≤ 64 }
        requires within { at + len ≤ state_bits }
        ensures { result ≡ bits_of self.now at len }
    {
        // A mask of `len` bits is made by a shift by `64 - len`, which may not be 64.
        if len == 0 {
            return 0;
        }
        match &self.form {
            Form::Word(word) => bits_of_word(*word, at, len),
            Form::Few(words) => bits_of_few(words, at, len),
            Form::Many(words) => words.bits(at, len),
        }
    }

    /// The same state with the `len` bits from bit `at` on replaced by the value.
    #[inline]
    pub fn with_bits(&self, at: u32, len: u32, value: u64) -> Packed
        requires short { len ≤ 64 }
        requires within { at + len ≤ state_bits }
        requires fits { value < 2 ^ len }
        ensures { result ≡ with_bits_of self.now at len value }
    {
        // A state of one word is changed without making its 16 words.
        if at + len <= 64 {
            if let Form::Word(word) = self.form {
                let changed = Words::<1>::of_word(word).with_bits(at, len, value);
                return Packed::of_word(changed.low_word());
            }
        }
        Packed::of_words(self.words().with_bits(at, len, value))
    }

    /// Whether bit `i` is 1.
    #[inline]
    pub fn has(&self, i: u32) -> bool
        requires { i < state_bits }
        ensures { IsTrue result ↔ (bits_of self.now i 1 ≡ 1) }
    {
        self.bits(i, 1) == 1
    }

    /// The same state with bit `i` on (1) or off (0).
    #[inline]
    pub fn with(&self, i: u32, on: bool) -> Packed
        requires { i < state_bits }
        ensures { result ≡ with_bits_of self.now i 1 (bit_number on) }
    {
        self.with_bits(i, 1, u64::from(on))
    }
}
