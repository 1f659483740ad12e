//! Emptied rooms that are kept.
ghost use Rattle.std.specs.Prelude.{◌≡◌, ◌≤◌, ◌<◌, ◌++◌, ◌∷◌, [], ℕ, List, length, IfOk, IsOk};
ghost use Rattle.pb_bundles.specs.Rooms.{RoomList};

use crate::parts::BundleRoom;
use std::alloc::{AllocError, Global};
use std::marker::Model;

/// Emptied rooms that are kept for bundles that leave later: no memory is taken if enough bundles
/// fit. Contracts see how many bundles fit in each, and how many rooms may be kept.
#[derive(Drop)]
pub struct KeptRooms {
    pub(crate) rooms: Vec<BundleRoom>,
}

impl Model for KeptRooms {
    ghost use Rattle.std.specs.Prelude.{vec_capacity};
    ghost use Rattle.pb_bundles.specs.Rooms.{RoomList};

    ghost Value = { RoomList };

    ghost view = { λ k. record { rooms = k.rooms.items; places = vec_capacity k.rooms } };
}

impl KeptRooms {
    /// No room yet, and places for `places` rooms. An error means out of memory.
    pub fn new(alloc: Global, places: usize) -> Result<KeptRooms, AllocError>
        ensures empty { IfOk result (λ kept. kept.rooms ≡ []) }
        ensures places { IfOk result (λ kept. kept.places ≡ places) }
    {
        Ok(KeptRooms {
            rooms: Vec::with_capacity(alloc, places)?,
        })
    }

    /// Room for at least so many bundles: the one that was kept last, or a new one. An error means
    /// out of memory. It never comes if so many bundles fit in the room that was kept last.
    pub fn take(&mut self, alloc: Global, bundles: usize) -> Result<BundleRoom, AllocError>
        ensures room { IfOk result (λ room. bundles ≤ room) }
        ensures last { (rest : List ℕ) (last : ℕ) → self.old.rooms ≡ rest ++ last ∷ []
            → (self.new ≡ record self.old { rooms = rest }) × (bundles ≤ last → IsOk result) }
    {
        match self.rooms.pop() {
            Some(room) => room.enlarge(bundles),
            None => BundleRoom::new(alloc, bundles),
        }
    }

    /// Keeps the room if a place is left, and else frees it. It takes no memory.
    pub fn keep(&mut self, room: BundleRoom)
        ensures kept { length self.old.rooms < self.old.places
            → self.new ≡ record self.old { rooms = self.old.rooms ++ room ∷ [] } }
        ensures full { self.old.places ≤ length self.old.rooms → self.new ≡ self.old }
    {
        if self.rooms.len() < self.rooms.capacity() {
            self.rooms.push_reserved(room);
        }
    }
}
