//! Equality, order and hash of packed states: those of their numbers.
ghost use Rattle.std.specs.Prelude.{◌≡◌, nat_eq, Some};
ghost use Rattle.std.specs.Ordering.{nat_cmp};
ghost use Rattle.std.proofs.Common.{rules};
ghost use Rattle.std.specs.Cmp.Rules.{comparing, hashing};
ghost use Rattle.pb_packed.specs.Forms.{words_fed};

use crate::Packed;
use crate::packed::Form;
use std::cmp::Ordering;
use std::hash::{Hash, Hasher};

impl PartialEq for Packed {
    ghost eq = { nat_eq };

    ghost laws = { Prim.search rules };

    fn eq(&self, other: &Packed) -> bool {
        match (&self.form, &other.form) {
            (Form::Word(word), Form::Word(other)) => *word == *other,
            (Form::Few(words), Form::Few(other)) => *words == *other,
            (Form::Many(words), Form::Many(other)) => *words == *other,
            // Each number has one form, the smallest that it fits. So these numbers differ.
            _ => false,
        }
    }
}

impl Eq for Packed {
    ghost laws = { Prim.search rules };
}

impl Hash for Packed {
    ghost hash_input = { words_fed };

    ghost respects_eq = { Prim.search (hashing, rules) };

    fn hash<H: Hasher>(&self, state: &mut H) {
        // Equal numbers have the same form, so they feed the same words.
        match &self.form {
            Form::Word(word) => word.hash(state),
            Form::Few(words) => words.hash(state),
            Form::Many(words) => words.hash(state),
        }
    }
}

impl PartialOrd for Packed {
    ghost partial_cmp = { λ x y. Some (nat_cmp x y) };

    ghost laws = { Prim.search (comparing, rules) };

    fn partial_cmp(&self, other: &Packed) -> Option<Ordering> {
        Some(self.cmp(other))
    }
}

impl Ord for Packed {
    ghost cmp = { nat_cmp };

    ghost total = { Prim.search rules };

    ghost matches_partial_cmp = { Prim.search rules };

    ghost matches_eq = { Prim.search rules };

    fn cmp(&self, other: &Packed) -> Ordering {
        match (&self.form, &other.form) {
            (Form::Word(word), Form::Word(other)) => word.cmp(other),
            (Form::Few(words), Form::Few(other)) => words.cmp(other),
            (Form::Many(words), Form::Many(other)) => words.cmp(other),
            // The number of a larger form doesn't fit the smaller form, so it is greater.
            (Form::Word(_), _) => Ordering::Less,
            (Form::Few(_), Form::Word(_)) => Ordering::Greater,
            (Form::Few(_), Form::Many(_)) => Ordering::Less,
            (Form::Many(_), Form::Word(_)) => Ordering::Greater,
            (Form::Many(_), Form::Few(_)) => Ordering::Greater,
        }
    }
}
