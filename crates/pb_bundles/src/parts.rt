//! The bundles of some blocks, away from home.
ghost use Rattle.std.specs.Prelude.{◌≡◌, ◌≤◌, ◌<◌, Some, IsSome, IsOk, IfOk, nat_eq, length, position};
ghost use Rattle.std.specs.Map.{keys_of};
ghost use Rattle.std.specs.Borrow.{sem};
ghost use Rattle.pb_bundles.specs.Parts.{content_in};
ghost use Rattle.pb_bundles.specs.Lending.{LendsBundle};

use indexmap::IndexMap;
use pb_lists::Bundle;
use std::alloc::{AllocError, Global};
use std::marker::Model;

// A list of up to this many blocks is looked through one after another.
const FEW: usize = 8;

/// The bundles of some blocks that are away from home, as those of a lease are: each with its
/// block, in the order in which they left. Contracts also see how many bundles fit in the list.
#[derive(Drop)]
pub struct LentBundles {
    pub(crate) bundles: IndexMap<u32, Bundle>,
}

impl Model for LentBundles {
    ghost use Rattle.std.specs.Prelude.{◌+◌, length};
    ghost use Rattle.indexmap.specs.IndexMap.{spare};
    ghost use Rattle.pb_bundles.specs.Parts.{PartList};

    ghost Value = { PartList };

    ghost view = { λ p. record {
      parts = p.bundles.entries;
      fits = length p.bundles.entries + spare p.bundles;
    } };
}

/// Room for bundles that are to leave home, taken before they move. Contracts see how many bundles
/// fit.
#[derive(Drop)]
pub struct BundleRoom {
    pub(crate) bundles: IndexMap<u32, Bundle>,
}

impl Model for BundleRoom {
    ghost use Rattle.std.specs.Prelude.{◌≡◌, ℕ, []};
    ghost use Rattle.indexmap.specs.IndexMap.{spare};

    ghost Value = { ℕ };

    ghost view = { λ r. spare r.bundles };

    ghost invariant = { λ r. r.bundles.entries ≡ [] };
}

impl BundleRoom {
    /// Room for at least so many bundles. An error means out of memory.
    pub fn new(alloc: Global, bundles: usize) -> Result<BundleRoom, AllocError>
        ensures { IfOk result (λ room. bundles ≤ room) }
    {
        Ok(BundleRoom {
            bundles: IndexMap::with_capacity(alloc, bundles)?,
        })
    }

    // The same room, made larger if fewer bundles fit. An error means out of memory.
    pub(crate) fn enlarge(self, bundles: usize) -> Result<BundleRoom, AllocError>
        ensures room { IfOk result (λ room. bundles ≤ room) }
        ensures fits { bundles ≤ self → IsOk result }
    {
        let mut kept = self.bundles;
        kept.reserve(bundles)?;
        Ok(BundleRoom { bundles: kept })
    }
}

impl LentBundles {
    /// The bundle of a block that is among these.
    pub fn bundle(&self, block: u32) -> &Bundle
        requires { IsSome (content_in self.now.parts block) }
        ensures { content_in self.now.parts block ≡ Some result.now }
    {
        let at = self.place(block);
        match self.bundles.get_index(at) {
            Some(found) => found.1,
            None => unreachable!(),
        }
    }

    /// The bundle of a block that is among these, to be changed. A change to it changes no other
    /// bundle.
    pub fn bundle_mut(&mut self, block: u32) -> &mut Bundle
        requires { IsSome (content_in self.old.parts block) }
        ensures* writes_back { sem 𝓛 (LendsBundle self.entry block result) }
        ensures value { content_in self.old.parts block ≡ Some result.now }
    {
        let at = self.place(block);
        self.bundles.pair_mut(at).1
    }

    // The place of a block that is among these. A few blocks are looked through, which is faster
    // than a hash.
    fn place(&self, block: u32) -> usize
        requires { IsSome (content_in self.now.parts block) }
        ensures place { position (nat_eq block) (keys_of self.now.parts) ≡ Some result }
        ensures within { result < length self.now.parts }
    {
        if self.bundles.len() <= FEW {
            match find(self.bundles.keys().as_slice(), block) {
                Some(at) => at,
                None => unreachable!(),
            }
        } else {
            match self.bundles.get_index_of(&block) {
                Some(at) => at,
                None => unreachable!(),
            }
        }
    }
}

// The first place of a block in a list.
fn find(blocks: &[u32], block: u32) -> Option<usize>
    ensures { result ≡ position (nat_eq block) blocks.now }
{
    blocks.iter().position(|other| block == *other)
}
