//! Bytes whose room was reserved before.
ghost use Rattle.std.specs.Prelude.{◌≡◌, ◌+◌, ◌-◌, ◌≤◌, ◌↔◌, None, [], ◌++◌, take, length, min, IsOk, IfOk, IfErr};
ghost use Rattle.pb_outside.specs.Memory.{most_kept};

use crate::Memory;
use std::alloc::Global;
use std::marker::Model;

#[derive(Drop)]
pub(crate) struct Buffer {
    bytes: Vec<u8>,
    room: usize,
}

impl Model for Buffer {
    ghost use Rattle.std.specs.Prelude.{◌≤◌, vec_capacity};
    ghost use Rattle.pb_outside.specs.Memory.{BufferView};

    ghost Value = { BufferView };

    ghost view = { λ b. record { bytes = b.bytes.items; room = b.room } };

    ghost invariant = { λ b. b.room ≤ vec_capacity b.bytes };
}

impl Buffer {
    // A buffer with these bytes, which may grow to `room` bytes.
    pub(crate) fn of(alloc: Global, bytes: &[u8], room: usize) -> Result<Buffer, Memory>
        ensures { IfOk result (λ buffer. buffer ≡ record { bytes = bytes.now; room = room }) }
    {
        // The bytes of a file may be more than the room that is reserved for its name.
        let mut copy = Vec::with_capacity(alloc, room.max(bytes.len()))?;
        copy.extend_from_slice(bytes)?;
        Ok(Buffer { bytes: copy, room })
    }

    pub(crate) fn as_slice(&self) -> &[u8]
        ensures { result.now ≡ self.now.bytes }
    {
        &self.bytes
    }

    pub(crate) fn room(&self) -> usize
        ensures { result ≡ self.now.room }
    {
        self.room
    }

    pub(crate) fn clear(&mut self)
        ensures { self.new ≡ record self.old { bytes = [] } }
    {
        self.bytes.clear();
    }

    // Appends as much of the piece as has room, or as much as a listed failure keeps. An error is
    // the number of bytes kept if that is less than the whole piece. Takes no memory.
    pub(crate) fn append(&mut self, piece: &[u8], kept: Option<u64>) -> Result<(), usize>
        ensures whole { IsOk result ↔ (kept ≡ None)
            × (length piece.now ≤ self.old.room - length self.old.bytes) }
        ensures after { self.new ≡ record self.old {
          bytes = self.old.bytes ++ take
              (most_kept kept (self.old.room - length self.old.bytes)) piece.now;
        } }
        ensures part { IfErr result (λ n. n ≡ min (most_kept kept (self.old.room - length self.old.bytes))
            (length piece.now)) }
    {
        // The bytes may be more than the room; then nothing more fits.
        let most = most_of(kept, self.room.saturating_sub(self.bytes.len()));
        let fits = most.min(piece.len());
        let (front, rest) = piece.split_at(fits);
        match self.bytes.extend_from_slice(front) {
            Ok(()) => {}
            // The capacity is at least `room`, so this needs no memory.
            Err(_) => unreachable!(),
        }
        if kept.is_none() && rest.is_empty() {
            Ok(())
        } else {
            Err(fits)
        }
    }
}

// How many bytes a call may keep.
fn most_of(kept: Option<u64>, left: usize) -> usize
    ensures { result ≡ most_kept kept left }
{
    match kept {
        None => left,
        Some(kept) => {
            if kept < left as u64 {
                kept as usize
            } else {
                left
            }
        }
    }
}
