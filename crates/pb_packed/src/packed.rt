//! The type of packed states, its three forms, and their conversion to and from words.
ghost use Rattle.std.specs.Prelude.{◌≡◌, ◌<◌, ◌≤◌, ◌^◌, IfSome, IfNone, length};
ghost use Rattle.pb_packed.specs.Words.{number_of, AreWords};

use crate::Words;
use std::marker::Model;

// A number in the smallest of three forms that it fits. So two numbers are equal only if their forms
// are, and the order of the forms is that of the numbers.
#[derive(Clone, Copy, Debug)]
pub(crate) enum Form {
    Word(u64),
    Few(Words<4>),
    Many(Words<16>),
}

/// A packed state: 1,024 bits, which contracts see as one number.
#[derive(Clone, Copy, Debug)]
pub struct Packed {
    pub(crate) form: Form,
}

impl Model for Packed {
    ghost use Rattle.std.specs.Prelude.{ℕ};
    ghost use Rattle.pb_packed.specs.Forms.{number_in, IsSmallest, form_of, form_is_back};

    ghost Value = { ℕ };

    ghost view = { λ p. number_in p.form };

    ghost invariant = { λ p. IsSmallest p.form };

    ghost inverse = { λ n. record { form = form_of n } };

    ghost inverse_ok = { λ a h i. record { form = form_is_back a.form h i } };
}

impl Packed {
    /// The state whose bits are all 0.
    pub fn zero() -> Packed
        ensures { result ≡ 0 }
    {
        Packed {
            form: Form::Word(0),
        }
    }

    /// The state whose number is this word.
    #[inline]
    pub fn of_word(word: u64) -> Packed
        ensures { result ≡ word }
    {
        Packed {
            form: Form::Word(word),
        }
    }

    /// The word that is the state's number, if it fits one.
    #[inline]
    pub fn as_word(&self) -> Option<u64>
        ensures some { IfSome result (λ word. word ≡ self.now) }
        ensures small { IfSome result (λ word. word < 2 ^ 64) }
        ensures none { IfNone result (2 ^ 64 ≤ self.now) }
    {
        match &self.form {
            Form::Word(word) => Some(*word),
            Form::Few(_) => None,
            Form::Many(_) => None,
        }
    }

    /// The state whose number these words spell, the lowest first.
    pub fn of_slice(words: &[u64]) -> Packed
        requires few { length words.now ≤ 16 }
        requires words { AreWords (length words.now) words.now }
        ensures { result ≡ number_of words.now }
    {
        if words.len() <= 4 {
            Packed::of_few(Words::of_slice(words))
        } else {
            Packed::of_words(Words::of_slice(words))
        }
    }

    /// The state whose number these 4 words are.
    #[inline]
    pub fn of_few(words: Words<4>) -> Packed
        ensures { result ≡ words }
    {
        if words.fits(1) {
            Packed::of_word(words.low_word())
        } else {
            Packed {
                form: Form::Few(words),
            }
        }
    }

    // The smallest form of a number in 16 words.
    pub(crate) fn of_words(words: Words<16>) -> Packed
        ensures { result ≡ words }
    {
        if words.fits(1) {
            Packed::of_word(words.low_word())
        } else if words.fits(4) {
            Packed {
                form: Form::Few(words.resized::<4>()),
            }
        } else {
            Packed {
                form: Form::Many(words),
            }
        }
    }

    /// The number in 16 words.
    pub fn words(&self) -> Words<16>
        ensures { result ≡ self.now }
    {
        match self.form {
            Form::Word(word) => Words::of_word(word),
            Form::Few(words) => words.resized::<16>(),
            Form::Many(words) => words,
        }
    }
}
