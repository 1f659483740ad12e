//! Standard output, or any other writer, as a sink.
ghost use Rattle.std.specs.Prelude.{◌≡◌, [], None, OnOk, OnErr};
ghost use Rattle.std.specs.Io.KnownBytes.{Appends};
ghost use Rattle.pb_outside.specs.Outside.{HasCause, count_after};
ghost use Rattle.pb_outside.specs.Calls.{Put, Notes};
ghost use Rattle.pb_outside.specs.Streams.{IsPutFailure};

use crate::events::{PartlyWritten, Written};
use crate::streams::write_whole;
use crate::transcript::Transcript;
use crate::{Failed, Sink};
use std::io::Write;
use std::marker::Model;

/// Standard output, or any other writer. The sink counts its faults and notes its calls; contracts
/// know what was written only through its writer. Each call flushes a buffer that the writer may
/// have.
#[derive(Drop)]
pub struct OutSink<W: Write> {
    writer: W,
    faults: u64,
    transcript: Transcript,
}

// A contract sees what its writer holds, if that is known, its count of faults, and its calls.
impl<W: Write> Model for OutSink<W> {
    ghost use Rattle.pb_outside.specs.Streams.{OutView};

    ghost Value = { OutView };

    ghost view = { λ s. record {
      contents = W.contents s.writer;
      faults = s.faults;
      transcript = s.transcript.calls;
    } };
}

impl<W: Write> OutSink<W> {
    /// A sink that writes to this writer.
    pub fn new(writer: W) -> OutSink<W>
        ensures { result ≡ record { contents = W.contents writer; faults = 0; transcript = [] } }
    {
        OutSink {
            writer,
            faults: 0,
            transcript: Transcript::new(),
        }
    }
}

impl<W: Write> Sink for OutSink<W> {
    ghost calls = { λ s. s.transcript };

    ghost written = { λ _. None };

    ghost faults = { λ s. s.faults };

    // If it is known what the writer holds, all of the piece was written, or after a failure a
    // first part of it.
    fn put(&mut self, piece: &[u8]) -> Result<(), Failed>
        ensures noted { OnOk result (Notes self.old.transcript self.new.transcript (Put piece.now)) }
        ensures noted_error { OnErr result (IsPutFailure self.old self.new piece.now) }
        ensures cause { HasCause self.old.faults self.new.faults result }
        ensures all { OnOk result (Appends self.old.contents self.new.contents piece.now) }
        ensures count { self.new.faults ≡ count_after self.old.faults result }
    {
        match write_whole(&mut self.writer, piece) {
            Ok(()) => {
                self.transcript = self.transcript.and(&Written { piece });
                Ok(())
            }
            Err(kept) => {
                self.faults = self.faults.saturating_add(1);
                self.transcript = self.transcript.and(&PartlyWritten { piece, kept });
                Err(Failed)
            }
        }
    }
}
