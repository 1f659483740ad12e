//! Hot blocks, and for each block how many hot ones are in its interference.
ghost use Rattle.std.specs.Prelude.{◌≡◌, ◌==◌, ◌<◌, ◌&&◌, ℕ, true, false, not, length, All, get_or, slice_set};
ghost use Rattle.std.specs.List.Sorted.{IsStrictlyIncreasing};
ghost use Rattle.pb_abstract.specs.Graph.{blocks_of, has};
ghost use Rattle.pb_lease.specs.Kept.{AreMarks};

use crate::tables::counters::{lower, raise};
use pb_abstract::AbsGraph;

/// Hot blocks, and for each block how many hot ones are in its interference.
#[derive(Drop)]
pub struct Marks {
    pub hot: Vec<bool>,
    pub near: Vec<u32>,
}

impl Marks {
    /// The cold block becomes hot.
    pub fn mark(&mut self, abstraction: &AbsGraph, block: u32)
        requires marks { AreMarks (blocks_of abstraction.now) self.old.hot.items self.old.near.items }
        requires block { block < (blocks_of abstraction.now).count }
        requires cold { get_or self.old.hot.items block false ≡ false }
        ensures hot { self.new.hot.items ≡ slice_set self.old.hot.items block true }
        ensures marks { AreMarks (blocks_of abstraction.now) self.new.hot.items self.new.near.items }
    {
        raise(&mut self.near, abstraction.interference(block));
        self.hot[block as usize] = true;
    }

    /// The hot block becomes cold.
    pub fn cool(&mut self, abstraction: &AbsGraph, block: u32)
        requires marks { AreMarks (blocks_of abstraction.now) self.old.hot.items self.old.near.items }
        requires block { block < (blocks_of abstraction.now).count }
        requires hot { get_or self.old.hot.items block false ≡ true }
        ensures hot { self.new.hot.items ≡ slice_set self.old.hot.items block false }
        ensures marks { AreMarks (blocks_of abstraction.now) self.new.hot.items self.new.near.items }
    {
        lower(&mut self.near, abstraction.interference(block));
        self.hot[block as usize] = false;
    }

    /// Those of these blocks that are hot become cold.
    pub fn cool_all(&mut self, abstraction: &AbsGraph, blocks: &[u32])
        requires marks { AreMarks (blocks_of abstraction.now) self.old.hot.items self.old.near.items }
        requires blocks { All (λ c. c < (blocks_of abstraction.now).count) blocks.now }
        ensures hot { (c : ℕ) → get_or self.new.hot.items c false
            ≡ (get_or self.old.hot.items c false && not (has blocks.now c)) }
        ensures marks { AreMarks (blocks_of abstraction.now) self.new.hot.items self.new.near.items }
    {
        for block in blocks {
            if self.hot[*block as usize] {
                self.cool(abstraction, *block);
            }
        }
    }

    /// Those of these blocks that are hot, and whose number of leased blocks is 0, become cold.
    pub fn cool_idle(&mut self, abstraction: &AbsGraph, blocks: &[u32], busy: &[u32])
        requires marks { AreMarks (blocks_of abstraction.now) self.old.hot.items self.old.near.items }
        requires blocks { All (λ c. c < (blocks_of abstraction.now).count) blocks.now }
        requires busy { length busy.now ≡ (blocks_of abstraction.now).count }
        ensures hot { (c : ℕ) → get_or self.new.hot.items c false
            ≡ (get_or self.old.hot.items c false
            && not (has blocks.now c && (get_or busy.now c 0 == 0))) }
        ensures marks { AreMarks (blocks_of abstraction.now) self.new.hot.items self.new.near.items }
    {
        for block in blocks {
            if self.hot[*block as usize] && busy[*block as usize] == 0 {
                self.cool(abstraction, *block);
            }
        }
    }
}
