//! A packed state in a given count of words, for tables that keep so many words of each state.
ghost use Rattle.std.specs.Prelude.{◌≡◌, ◌*◌, ◌<◌, ◌≤◌, ◌^◌, IfSome, IfNone};

use crate::packed::Form;
use crate::{Packed, Words};

// The number in another count of words, if it fits them. It isn't inlined, so that callers whose
// states fit a word are short.
#[inline(never)]
fn fitted<const V: usize, const W: usize>(words: &Words<V>) -> Option<Words<W>>
    ensures some { IfSome result (λ fitted. fitted ≡ words.now) }
    ensures small { IfSome result (λ fitted. fitted < 2 ^ (64 * W)) }
    ensures none { IfNone result (2 ^ (64 * W) ≤ words.now) }
{
    if words.fits(W) {
        Some(words.resized::<W>())
    } else {
        None
    }
}

impl Packed {
    /// The words of the state's number, if it fits so many. For tables of states that have these
    /// words alone.
    #[inline]
    pub fn as_words<const W: usize>(&self) -> Option<Words<W>>
        requires { 1 ≤ W }
        ensures some { IfSome result (λ words. words ≡ self.now) }
        ensures small { IfSome result (λ words. words < 2 ^ (64 * W)) }
        ensures none { IfNone result (2 ^ (64 * W) ≤ self.now) }
    {
        match &self.form {
            Form::Word(word) => Some(Words::of_word(*word)),
            Form::Few(words) => fitted(words),
            Form::Many(words) => fitted(words),
        }
    }

    /// The words of the state's number, which fits so many.
    #[inline]
    pub fn in_words<const W: usize>(&self) -> Words<W>
        requires some { 1 ≤ W }
        requires fits { self.now < 2 ^ (64 * W) }
        ensures { result ≡ self.now }
    {
        match &self.form {
            Form::Word(word) => Words::of_word(*word),
            Form::Few(words) => words.resized::<W>(),
            Form::Many(words) => words.resized::<W>(),
        }
    }

    /// The state whose number these words are.
    #[inline]
    pub fn from_words<const W: usize>(words: &Words<W>) -> Packed
        requires some { 1 ≤ W }
        requires most { W ≤ 16 }
        ensures { result ≡ words.now }
    {
        if words.fits(1) {
            Packed::of_word(words.low_word())
        } else if W <= 4 {
            Packed::of_few(words.widened::<4>())
        } else {
            Packed::of_words(words.widened::<16>())
        }
    }
}
