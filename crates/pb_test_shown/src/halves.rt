//! A store of two parts, as the tests read it.
ghost use Rattle.std.specs.Prelude.{◌==◌, None, if◌then◌else◌};
ghost use Rattle.pb_lists.specs.Bundle.{row_of};

use pb_lists::{Bundle, Store};
use pb_packed::Packed;

// The start is at home in the first part, and all other states in the second.
#[derive(Drop)]
pub(crate) struct Halves {
    pub(crate) start: Packed,
    pub(crate) first: Bundle,
    pub(crate) second: Bundle,
}

impl Store for Halves {
    ghost parts = { λ _. 2 };

    ghost rows = { λ s home state. if home == 0 then row_of s.first state else if home == 1
        then row_of s.second state else None };

    ghost home = { λ s state. if state == s.start then 0 else 1 };

    ghost incumbent = { λ _. None };

    ghost weight = { λ s. s.first.weight };

    fn parts(&self) -> u32 {
        2
    }

    fn part(&self, i: u32) -> &Bundle {
        match i {
            0 => &self.first,
            _ => &self.second,
        }
    }

    fn home(&self, state: &Packed) -> u32 {
        if *state == self.start { 0 } else { 1 }
    }

    fn incumbent(&self) -> Option<u64> {
        None
    }

    fn weight(&self) -> (u64, u64) {
        self.first.weight()
    }
}
