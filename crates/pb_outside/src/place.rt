//! What a shelf in memory keeps under one name.
ghost use Rattle.std.specs.Prelude.{◌≡◌, ◌-◌, ◌≤◌, ◌↔◌, None, Some, [], length, is_some, if◌then◌else◌, IsOk, IsSomeAnd, IfOk, IfErr, OnOk, OnErr, unwrap_or};
ghost use Rattle.std.specs.Option.{option_map};
ghost use Rattle.pb_outside.specs.Memory.{is_named, grown, GrowsBy};

use crate::Memory;
use crate::buffer::Buffer;
use std::alloc::Global;
use std::marker::Model;

#[derive(Drop)]
pub(crate) struct Place {
    name: String,
    buffer: Buffer,
    is_there: bool,
    is_reserved: bool,
}

impl Model for Place {
    ghost use Rattle.std.specs.Prelude.{◌≡◌, false, if◌then◌else◌, Some, None, string_bytes};
    ghost use Rattle.pb_outside.specs.Memory.{PlaceView};

    ghost Value = { PlaceView };

    ghost view = { λ p. record {
      name = string_bytes p.name;
      bytes = if p.is_there then Some p.buffer.bytes else None;
      room = if p.is_reserved then Some p.buffer.room else None;
    } };

    ghost invariant = { λ p. p.is_reserved ≡ false → p.buffer.room ≡ 0 };
}

impl Place {
    // A place with no file and no room.
    pub(crate) fn new(alloc: Global, name: &str) -> Result<Place, Memory>
        ensures { IfOk result (λ place. place
            ≡ record { name = name.now; bytes = None; room = None }) }
    {
        Ok(Place {
            name: String::from_str(alloc, name)?,
            buffer: Buffer::of(alloc, &[], 0)?,
            is_there: false,
            is_reserved: false,
        })
    }

    pub(crate) fn is_named(&self, name: &str) -> bool
        ensures { result ≡ is_named name.now self.now }
    {
        self.name.as_str() == name
    }

    // The file's bytes.
    pub(crate) fn contents(&self) -> Option<&[u8]>
        ensures { option_map (λ bytes. bytes.now) result ≡ self.now.bytes }
    {
        if self.is_there {
            Some(self.buffer.as_slice())
        } else {
            None
        }
    }

    // Puts a file with these bytes there.
    pub(crate) fn put(&mut self, alloc: Global, bytes: &[u8]) -> Result<(), Memory>
        ensures ok { OnOk result (self.new ≡ record self.old { bytes = Some bytes.now }) }
        ensures err { OnErr result (self.new ≡ self.old) }
    {
        // The file goes into a new buffer, so an error leaves the old one as it was.
        self.buffer = Buffer::of(alloc, bytes, self.buffer.room())?;
        self.is_there = true;
        Ok(())
    }

    // Takes room for so many bytes.
    pub(crate) fn reserve(&mut self, alloc: Global, room: usize) -> Result<(), Memory>
        ensures ok { OnOk result (self.new ≡ record self.old { room = Some room }) }
        ensures err { OnErr result (self.new ≡ self.old) }
    {
        // A copy with the new room, so an error leaves the old buffer as it was.
        self.buffer = Buffer::of(alloc, self.buffer.as_slice(), room)?;
        self.is_reserved = true;
        Ok(())
    }

    // Begins an empty file, if room is reserved.
    pub(crate) fn create(&mut self) -> bool
        ensures done { result ≡ is_some self.old.room }
        ensures after { self.new ≡ (if result then record self.old { bytes = Some [] }
            else self.old) }
    {
        if self.is_reserved {
            // Clearing keeps the capacity, so the reserved room stays.
            self.buffer.clear();
            self.is_there = true;
        }
        self.is_reserved
    }

    // Appends as much of the piece as has room, or as much as a listed failure keeps, if the file
    // is there. An error is the number of bytes kept if that is less than the whole piece.
    pub(crate) fn append(&mut self, piece: &[u8], kept: Option<u64>) -> Result<(), usize>
        ensures done { IsOk result ↔ (kept ≡ None)
            × IsSomeAnd self.old.bytes (λ bytes. length piece.now
            ≤ unwrap_or self.old.room 0 - length bytes) }
        ensures after { self.new ≡ grown self.old kept piece.now }
        ensures part { IfErr result (λ n. GrowsBy n self.old.bytes self.new.bytes piece.now) }
    {
        if self.is_there {
            self.buffer.append(piece, kept)
        } else {
            Err(0)
        }
    }
}
