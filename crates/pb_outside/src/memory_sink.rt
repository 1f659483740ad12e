//! A sink in memory, whose calls can be made to fail.
ghost use Rattle.std.specs.Prelude.{◌≡◌, ◌-◌, ◌↔◌, Some, [], ◌++◌, take, length, is_ok, IsOk, IfOk, OnOk, OnErr};
ghost use Rattle.pb_outside.specs.Outside.{IfTold, Appends, AppendsPart, HasCause};
ghost use Rattle.pb_outside.specs.Calls.{Put, Notes, NotesPutFailed, KeepsTakes};
ghost use Rattle.pb_outside.specs.Memory.{kept_next, after_call, with_listed, most_kept, PutSucceeds, CanTake};

use crate::buffer::Buffer;
use crate::calls::Calls;
use crate::events::{PartlyWritten, Written};
use crate::transcript::Transcript;
use crate::{Failed, Memory, Sink};
use std::alloc::Global;
use std::marker::Model;

/// A sink in memory, with room for so many bytes and a list of calls that are to fail.
#[derive(Drop)]
pub struct MemSink {
    buffer: Buffer,
    calls: Calls,
    transcript: Transcript,
}

impl Model for MemSink {
    ghost use Rattle.pb_outside.specs.Memory.{SinkView};

    ghost Value = { SinkView };

    ghost view = { λ s. record {
      bytes = s.buffer.bytes;
      room = s.buffer.room;
      calls = s.calls;
      transcript = s.transcript.calls;
    } };
}

impl MemSink {
    /// An empty sink that takes so many bytes in all. Their room is taken now. If memory runs out,
    /// or no block of memory could be so long, the answer is `Memory`.
    pub fn new(alloc: Global, room: u128) -> Result<MemSink, Memory>
        ensures { IfOk result (λ sink. sink ≡ record {
          bytes = [];
          room = room;
          calls = record { count = 0; faults = 0; listed = [] };
          transcript = [];
        }) }
    {
        let Ok(room) = usize::try_from(room) else {
            return Err(Memory);
        };
        Ok(MemSink {
            buffer: Buffer::of(alloc, &[], room)?,
            calls: Calls::new(alloc),
            transcript: Transcript::new(),
        })
    }

    /// Lists a call of `put` that is to fail: its number, from 1, and how many bytes of its piece
    /// it keeps at most. If a number is listed twice, the first listing counts.
    pub fn fail(&mut self, call: u64, kept: u64) -> Result<(), Memory>
        ensures ok { OnOk result (self.new ≡ record self.old
            { calls = with_listed self.old.calls call kept }) }
        ensures err { OnErr result (self.new ≡ self.old) }
    {
        self.calls.list(call, kept)
    }

    /// What was written.
    pub fn bytes(&self) -> &[u8]
        ensures { result.now ≡ self.now.bytes }
    {
        self.buffer.as_slice()
    }
}

impl Sink for MemSink {
    ghost calls = { λ s. s.transcript };

    ghost written = { λ s. Some s.bytes };

    ghost faults = { λ s. s.calls.faults };

    ghost can_take = { CanTake };

    fn put(&mut self, piece: &[u8]) -> Result<(), Failed>
        ensures ok { OnOk result (IfTold (Some self.old.bytes) (Some self.new.bytes)
            (λ old new. Appends old new piece.now)) }
        ensures err { OnErr result (IfTold (Some self.old.bytes) (Some self.new.bytes)
            (λ old new. AppendsPart old new piece.now)) }
        ensures sure { CanTake self.old (length piece.now) → IsOk result }
        ensures takes { KeepsTakes (CanTake self.old) (CanTake self.new) (length piece.now) }
        ensures noted { OnOk result (Notes self.old.transcript self.new.transcript (Put piece.now)) }
        ensures noted_error { OnErr result (NotesPutFailed self.old.transcript self.new.transcript
            (Some self.old.bytes) (Some self.new.bytes) piece.now) }
        ensures cause { HasCause self.old.calls.faults self.new.calls.faults result }

        // It fails if and only if the call is listed or the room ends. It then keeps as much as
        // is allowed and fits.
        ensures exact { IsOk result ↔ PutSucceeds self.old (length piece.now) }
        ensures bytes { self.new.bytes ≡ self.old.bytes ++ take
            (most_kept (kept_next self.old.calls) (self.old.room - length self.old.bytes))
            piece.now }
        ensures room { self.new.room ≡ self.old.room }
        ensures calls { self.new.calls ≡ after_call self.old.calls (is_ok result) }
    {
        let listed = self.calls.begin();
        match self.buffer.append(piece, listed) {
            Ok(()) => {
                self.transcript = self.transcript.and(&Written { piece });
                Ok(())
            }
            Err(kept) => {
                self.calls.fault();
                self.transcript = self.transcript.and(&PartlyWritten { piece, kept });
                Err(Failed)
            }
        }
    }
}
