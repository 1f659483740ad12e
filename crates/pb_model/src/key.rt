//! The order of open rows, by their keys.
ghost use Rattle.std.specs.Prelude.{◌≡◌, Some};
ghost use Rattle.std.proofs.Common.{rules};
ghost use Rattle.std.specs.Cmp.Rules.{comparing};
ghost use Rattle.pb_model.specs.KeyOrder.{key_cmp, same_key};

use std::cmp::Ordering;

/// The order of open rows: by the sum den * g + num * h for a weight of num / den, and then by h
/// (Pohl 1970). The key of a row whose estimate is `Estimate::Dead` comes after all others.
#[derive(Clone, Copy)]
pub enum Key {
    /// The key of a row whose estimate is known.
    Sum { sum: u128, h: u64 },
    /// The key of a row from which no goal is reached.
    Dead,
}

impl PartialEq for Key {
    ghost eq = { same_key };

    ghost laws = { Prim.search (comparing, rules) };

    fn eq(&self, other: &Key) -> bool {
        self.cmp(other) == Ordering::Equal
    }
}

impl Eq for Key {
    ghost laws = { Prim.search (comparing, rules) };
}

impl PartialOrd for Key {
    ghost partial_cmp = { λ x y. Some (key_cmp x y) };

    ghost laws = { Prim.search (comparing, rules) };

    fn partial_cmp(&self, other: &Key) -> Option<Ordering> {
        Some(self.cmp(other))
    }
}

impl Ord for Key {
    ghost cmp = { key_cmp };

    ghost total = { Prim.search (comparing, rules) };

    ghost matches_partial_cmp = { Prim.search (comparing, rules) };

    ghost matches_eq = { Prim.search (comparing, rules) };

    fn cmp(&self, other: &Key) -> Ordering {
        match (self, other) {
            (Key::Sum { sum: s, h: a }, Key::Sum { sum: t, h: b }) => match s.cmp(t) {
                Ordering::Equal => a.cmp(b),
                order => order,
            },
            (Key::Sum { .. }, Key::Dead) => Ordering::Less,
            (Key::Dead, Key::Sum { .. }) => Ordering::Greater,
            (Key::Dead, Key::Dead) => Ordering::Equal,
        }
    }
}
