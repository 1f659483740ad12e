//! An entry of a state of one word, in 16 bytes.
ghost use Rattle.std.specs.Prelude.{◌≡◌, IfSome, Some};
ghost use Rattle.std.proofs.Common.{refl, rules};
ghost use Rattle.std.specs.Cmp.{po};
ghost use Rattle.std.specs.Cmp.Rules.{comparing};
ghost use Rattle.pb_lists.specs.Heaped.{entry_cmp, same_entry};

use crate::narrow_row::half_word;
use pb_packed::Packed;
use std::cmp::Ordering;
use std::marker::Model;

// The estimate, the state and the place of a row whose state is one word. Contracts see the three.
// The word stands first, so that no bytes lie unused between the fields.
#[derive(Clone, Copy)]
pub(crate) struct WordEntry {
    word: u64,
    h: u32,
    place: u32,
}

impl Model for WordEntry {
    ghost use Rattle.pb_lists.specs.Heaped.{Entry};

    ghost Value = { Entry };

    ghost view = { λ e. (e.h, e.word, e.place) };

    ghost inverse = { λ d. record { word = d.1; h = d.0; place = d.2 } };
}

impl WordEntry {
    // The entry, if the state is one word, and the estimate and the place have 32 bits each.
    #[inline]
    pub(crate) fn of(h: u64, state: &Packed, place: u64) -> Option<WordEntry>
        ensures { IfSome result (λ entry. entry ≡ (h, state.now, place)) }
    {
        let word = state.as_word()?;
        let h = half_word(h)?;
        let place = half_word(place)?;
        Some(WordEntry { word, h, place })
    }

    // The estimate.
    #[inline]
    pub(crate) fn estimate(&self) -> u64
        ensures { result ≡ self.now.0 }
    {
        u64::from(self.h)
    }

    // The state.
    #[inline]
    pub(crate) fn word(&self) -> u64
        ensures { result ≡ self.now.1 }
    {
        self.word
    }

    // The place of the state's row.
    #[inline]
    pub(crate) fn place(&self) -> u64
        ensures { result ≡ self.now.2 }
    {
        u64::from(self.place)
    }
}

impl PartialEq for WordEntry {
    ghost eq = { same_entry };

    ghost laws = { Prim.search (comparing, rules) };

    #[inline]
    fn eq(&self, other: &WordEntry) -> bool {
        self.cmp(other) == Ordering::Equal
    }
}

impl Eq for WordEntry {
    ghost laws = { Prim.search (comparing, rules) };
}

impl PartialOrd for WordEntry {
    ghost partial_cmp = { λ x y. Some (entry_cmp x y) };

    ghost laws = { po {R = entry_cmp} (Prim.search (comparing, rules)) (λ x y. refl) };

    #[inline]
    fn partial_cmp(&self, other: &WordEntry) -> Option<Ordering> {
        Some(self.cmp(other))
    }
}

impl Ord for WordEntry {
    ghost cmp = { entry_cmp };

    ghost total = { Prim.search (comparing, rules) };

    ghost matches_partial_cmp = { Prim.search (comparing, rules) };

    ghost matches_eq = { Prim.search (comparing, rules) };

    // Two entries of one state have one place, so the place is compared for the law alone.
    #[inline]
    fn cmp(&self, other: &WordEntry) -> Ordering {
        match self.h.cmp(&other.h) {
            Ordering::Equal => match self.word.cmp(&other.word) {
                Ordering::Equal => self.place.cmp(&other.place),
                order => order,
            },
            order => order,
        }
    }
}
