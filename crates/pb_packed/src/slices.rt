//! Numbers that are held as slices of words, the lowest first: fields of bits, comparison, copies.
ghost use Rattle.std.specs.Prelude.{◌≡◌, ◌+◌, ◌*◌, ◌^◌, ◌<◌, ◌≤◌, ◌↔◌, IsTrue, length, nat_eq, replicate};
ghost use Rattle.std.specs.Ordering.{nat_cmp};
ghost use Rattle.pb_packed.specs.Bits.{bits_of, with_bits_of};
ghost use Rattle.pb_packed.specs.Words.{number_of, AreWords};

use std::cmp::Ordering;

// The number whose lowest `len` bits are 1, and all others 0.
#[inline]
pub(crate) fn mask(len: u32) -> u64
    requires some { 0 < len }
    requires short { len ≤ 64 }
    ensures { result + 1 ≡ 2 ^ len }
{
    u64::MAX >> (64 - len)
}

// The number in the `len` bits of a word from bit `at` on.
#[inline]
fn bits_of_word(word: u64, at: u32, len: u32) -> u64
    requires some { 0 < len }
    requires within { at + len ≤ 64 }
    ensures { result ≡ bits_of word at len }
{
    (word >> at) & mask(len)
}

// The word with the `len` bits from bit `at` on replaced by the value.
#[inline]
fn with_bits_of_word(word: u64, at: u32, len: u32, value: u64) -> u64
    requires some { 0 < len }
    requires within { at + len ≤ 64 }
    requires fits { value < 2 ^ len }
    ensures { result ≡ with_bits_of word at len value }
{
    // The field is 0 after the subtraction, so the addition carries into no other bit.
    word - (bits_of_word(word, at, len) << at) + (value << at)
}

// The number in the `len` bits of a pair of words from bit `at` on.
#[inline]
fn bits_of_pair(pair: u128, at: u32, len: u32) -> u64
    requires some { 0 < len }
    requires short { len ≤ 64 }
    requires within { at + len ≤ 128 }
    ensures { result ≡ bits_of pair at len }
{
    ((pair >> at) & u128::from(mask(len))) as u64
}

// The pair with the `len` bits from bit `at` on replaced by the value.
#[inline]
fn with_bits_of_pair(pair: u128, at: u32, len: u32, value: u64) -> u128
    requires some { 0 < len }
    requires short { len ≤ 64 }
    requires within { at + len ≤ 128 }
    requires fits { value < 2 ^ len }
    ensures { result ≡ with_bits_of pair at len value }
{
    let old = u128::from(bits_of_pair(pair, at, len));
    pair - (old << at) + (u128::from(value) << at)
}

// The number in the `len` bits from bit `at` on.
#[inline]
pub(crate) fn bits_in(words: &[u64], at: u32, len: u32) -> u64
    requires words { AreWords (length words.now) words.now }
    requires some { 0 < len }
    requires short { len ≤ 64 }
    requires within { at + len ≤ 64 * length words.now }
    ensures { result ≡ bits_of (number_of words.now) at len }
{
    let first = (at / 64) as usize;
    let shift = at % 64;
    if shift + len <= 64 {
        return bits_of_word(words[first], shift, len);
    }
    // The field crosses into the next word. A product makes the pair, so no shift is by 64 bits.
    let pair = u128::from(words[first + 1]) * (1 << 64) + u128::from(words[first]);
    bits_of_pair(pair, shift, len)
}

// Replaces the `len` bits from bit `at` on by the value, where they lie in one word.
#[inline]
fn set_in_word(words: &mut [u64], first: usize, at: u32, len: u32, value: u64)
    requires words { AreWords (length words.old) words.old }
    requires first { first < length words.old }
    requires some { 0 < len }
    requires within { at + len ≤ 64 }
    requires fits { value < 2 ^ len }
    ensures number { number_of words.new
        ≡ with_bits_of (number_of words.old) (64 * first + at) len value }
    ensures words { AreWords (length words.old) words.new }
{
    words[first] = with_bits_of_word(words[first], at, len, value);
}

// Replaces the `len` bits from bit `at` of a word on by the value, where they may go on in the next
// word.
#[inline]
fn set_in_pair(words: &mut [u64], first: usize, at: u32, len: u32, value: u64)
    requires words { AreWords (length words.old) words.old }
    requires first { first + 1 < length words.old }
    requires some { 0 < len }
    requires short { len ≤ 64 }
    requires within { at + len ≤ 128 }
    requires fits { value < 2 ^ len }
    ensures number { number_of words.new
        ≡ with_bits_of (number_of words.old) (64 * first + at) len value }
    ensures words { AreWords (length words.old) words.new }
{
    let pair = u128::from(words[first + 1]) * (1 << 64) + u128::from(words[first]);
    let new = with_bits_of_pair(pair, at, len, value);
    words[first] = (new % (1 << 64)) as u64;
    words[first + 1] = (new / (1 << 64)) as u64;
}

// Replaces the `len` bits from bit `at` on by the value.
#[inline]
pub(crate) fn set_bits_in(words: &mut [u64], at: u32, len: u32, value: u64)
    requires words { AreWords (length words.old) words.old }
    requires some { 0 < len }
    requires short { len ≤ 64 }
    requires within { at + len ≤ 64 * length words.old }
    requires fits { value < 2 ^ len }
    ensures number { number_of words.new ≡ with_bits_of (number_of words.old) at len value }
    ensures words { AreWords (length words.old) words.new }
{
    let first = (at / 64) as usize;
    let shift = at % 64;
    if shift + len <= 64 {
        set_in_word(words, first, shift, len, value);
    } else {
        set_in_pair(words, first, shift, len, value);
    }
}

// Whether two numbers are the same.
#[inline]
pub(crate) fn same(words: &[u64], other: &[u64]) -> bool
    requires words { AreWords (length words.now) words.now }
    requires size { length other.now ≡ length words.now }
    requires other { AreWords (length words.now) other.now }
    ensures { result ≡ nat_eq (number_of words.now) (number_of other.now) }
{
    for i in 0..words.len() {
        if words[i] != other[i] {
            return false;
        }
    }
    true
}

/// How two numbers compare that are held in as many words, the lowest first: by the highest words that
/// differ.
#[inline]
pub fn compare(words: &[u64], other: &[u64]) -> Ordering
    requires words { AreWords (length words.now) words.now }
    requires size { length other.now ≡ length words.now }
    requires other { AreWords (length words.now) other.now }
    ensures { result ≡ nat_cmp (number_of words.now) (number_of other.now) }
{
    let mut above = words.len();
    while 0 < above {
        above -= 1;
        if words[above] < other[above] {
            return Ordering::Less;
        }
        if other[above] < words[above] {
            return Ordering::Greater;
        }
    }
    Ordering::Equal
}

// Whether all words from this place on are 0.
#[inline]
pub(crate) fn are_zero_from(words: &[u64], first: usize) -> bool
    requires { AreWords (length words.now) words.now }
    ensures { IsTrue result ↔ (number_of words.now < 2 ^ (64 * first)) }
{
    for i in first..words.len() {
        if words[i] != 0 {
            return false;
        }
    }
    true
}

// Writes the words of a number to the front of others that are all 0.
#[inline]
pub(crate) fn copy_words(words: &[u64], out: &mut [u64])
    requires words { AreWords (length words.now) words.now }
    requires fits { number_of words.now < 2 ^ (64 * length out.old) }
    requires zero { out.old ≡ replicate (length out.old) 0 }
    ensures number { number_of out.new ≡ number_of words.now }
    ensures words { AreWords (length out.old) out.new }
{
    // The number fits `out`, so the words left out are 0.
    for i in 0..words.len().min(out.len()) {
        out[i] = words[i];
    }
}
