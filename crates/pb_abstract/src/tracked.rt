//! The ground atoms on which the blocks of a STRIPS task depend.
ghost use Rattle.std.specs.Prelude.{◌≡◌, ◌<◌, ◌≤◌, ◌^◌, ◌++◌, ◌∷◌, [], All, length};
ghost use Rattle.pb_packed.specs.Sizes.{state_bits};
ghost use Rattle.pb_abstract.specs.Tracked.{tracked_set};

use pb_packed::Packed;
use std::marker::Model;

// No more atoms are tracked: their sets are the greatest number of blocks, 4,096.
const MOST: usize = 12;

/// The numbers of the ground atoms that are tracked, at most 12. Contracts see them as a list.
#[derive(Clone, Copy, PartialEq, Eq)]
pub struct TrackedAtoms {
    atoms: [u16; MOST],
    count: usize,
}

impl Model for TrackedAtoms {
    ghost use Rattle.std.specs.Prelude.{◌≡◌, ◌<◌, ◌≤◌, ◌-◌, ◌++◌, ℕ, List, All, length, take, drop, replicate};
    ghost use Rattle.pb_packed.specs.Sizes.{state_bits};
    ghost use Rattle.pb_abstract.specs.Padded.{padded_again};

    ghost Value = { List ℕ };

    ghost view = { λ t. take t.count t.atoms };

    ghost invariant = { λ t. (length t.atoms ≡ 12) × (t.count ≤ 12)
        × (drop t.count t.atoms ≡ replicate (12 - t.count) 0)
        × All (λ atom. atom < state_bits) t.atoms };

    ghost inverse = { λ atoms. record {
      atoms = atoms ++ replicate (12 - length atoms) 0;
      count = length atoms;
    } };

    ghost inverse_ok = { λ t h i. record {
      atoms = (padded_again t.count t.atoms h.0 h.1 h.2).0 i;
      count = (padded_again t.count t.atoms h.0 h.1 h.2).1 i;
    } };
}

impl TrackedAtoms {
    /// No atoms.
    pub fn new() -> TrackedAtoms
        ensures { result ≡ [] }
    {
        TrackedAtoms {
            atoms: [0; MOST],
            count: 0,
        }
    }

    /// Adds an atom after the others.
    pub fn push(&mut self, atom: u16)
        requires few { length self.old < 12 }
        requires small { atom < state_bits }
        ensures { self.new ≡ self.old ++ atom ∷ [] }
    {
        self.atoms[self.count] = atom;
        self.count += 1;
    }

    /// The atoms, in order.
    pub fn as_slice(&self) -> &[u16]
        ensures atoms { result.now ≡ self.now }
        ensures few { length self.now ≤ 12 }
        ensures small { All (λ atom. atom < state_bits) self.now }
    {
        &self.atoms[..self.count]
    }

    /// How many sets of these atoms there are.
    pub fn set_count(&self) -> u32
        ensures { result ≡ 2 ^ length self.now }
    {
        1 << self.count
    }

    /// Which of the atoms are in a set: the first is the least bit.
    pub fn tracked_set(&self, set: &Packed) -> u32
        ensures set { result ≡ tracked_set self.now set.now }
        ensures small { result < 2 ^ length self.now }
    {
        let atoms = self.as_slice();
        let mut tracked = 0;
        // From the last atom on, so that the first becomes the least bit.
        for at in (0..atoms.len()).rev() {
            tracked = 2 * tracked + u32::from(set.has(u32::from(atoms[at])));
        }
        tracked
    }
}
