//! Equality, order and hash of numbers in words.
ghost use Rattle.std.specs.Prelude.{◌≡◌, nat_eq, Some};
ghost use Rattle.std.specs.Ordering.{nat_cmp};
ghost use Rattle.std.proofs.Common.{rules};
ghost use Rattle.std.specs.Cmp.Rules.{comparing, hashing};
ghost use Rattle.std.specs.Hash as fed;
ghost use Rattle.std.specs.List.{flat_map};
ghost use Rattle.pb_packed.specs.Words.{words_of};

use crate::Words;
use std::cmp::Ordering;
use std::hash::{Hash, Hasher};

impl<const W: usize> PartialEq for Words<W> {
    ghost eq = { nat_eq };

    ghost laws = { Prim.search rules };

    fn eq(&self, other: &Words<W>) -> bool {
        self.is_same(other)
    }
}

impl<const W: usize> Eq for Words<W> {
    ghost laws = { Prim.search rules };
}

impl<const W: usize> Hash for Words<W> {
    ghost hash_input = { λ n. flat_map fed.u64 (words_of W n) };

    ghost respects_eq = { Prim.search (hashing, rules) };

    fn hash<H: Hasher>(&self, state: &mut H) {
        self.feed(state);
    }
}

impl<const W: usize> PartialOrd for Words<W> {
    ghost partial_cmp = { λ x y. Some (nat_cmp x y) };

    ghost laws = { Prim.search (comparing, rules) };

    fn partial_cmp(&self, other: &Words<W>) -> Option<Ordering> {
        Some(self.cmp(other))
    }
}

impl<const W: usize> Ord for Words<W> {
    ghost cmp = { nat_cmp };

    ghost total = { Prim.search rules };

    ghost matches_partial_cmp = { Prim.search rules };

    ghost matches_eq = { Prim.search rules };

    fn cmp(&self, other: &Words<W>) -> Ordering {
        self.compared(other)
    }
}
