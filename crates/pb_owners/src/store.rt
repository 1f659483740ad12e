//! The rows of a search by owners as a store.
ghost use Rattle.std.specs.Prelude.{◌≡◌, length};
ghost use Rattle.pb_owners.specs.Owners.{space_in, guide_in, weight_in, owners_store, CanLookUp};

use crate::owners::Owners;
use pb_lists::{Bundle, Store};
use pb_packed::Packed;

/// The owners of a search are a store of a part for each owner. The home of a state is the number
/// of its block mod the number of owners.
impl Store for Owners {
    ghost parts = { λ owners. length owners.shares };

    ghost rows = { λ owners. (owners_store owners).rows };

    ghost home = { λ owners. (guide_in owners).home };

    ghost incumbent = { λ owners. (owners_store owners).incumbent };

    ghost weight = { weight_in };

    ghost is_of = { λ owners space. CanLookUp owners × (space ≡ space_in owners) };

    fn parts(&self) -> u32 {
        self.shares.len() as u32
    }

    fn part(&self, i: u32) -> &Bundle {
        &self.shares[i as usize].bundle
    }

    fn home(&self, state: &Packed) -> u32 {
        self.abstraction.block(&self.task, state) % self.settings.workers
    }

    fn incumbent(&self) -> Option<u64> {
        match self.shares.first() {
            Some(share) => share.incumbent,
            None => None,
        }
    }

    fn weight(&self) -> (u64, u64) {
        (self.settings.num, self.settings.den)
    }
}
