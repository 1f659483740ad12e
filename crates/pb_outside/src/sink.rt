//! The trait of sinks, which take bytes as standard output does.
ghost use Rattle.std.specs.Prelude.{OnOk, OnErr, IsOk, Option, List, ℕ, length};
ghost use Rattle.pb_outside.specs.Outside.{IfTold, Appends, AppendsPart, HasCause};

/// A fault of the outside: a device, a file system or a listed failure. It comes only if the
/// object's count of faults rose in the same call.
#[derive(Clone, Copy, Debug, PartialEq, Eq)]
pub struct Failed;

/// Takes bytes, as standard output does.
pub trait Sink {
    ghost use Rattle.pb_outside.specs.Calls.{Call, Put, Notes, NotesPutFailed, KeepsTakes};

    /// The calls so far, in order, with what they were given and what they gave.
    ghost calls: { Self → List Call };

    /// The bytes that were written, if the sink makes them known.
    ghost written: { Self → Option (List ℕ) };

    /// How often the sink has failed. It never falls.
    ghost faults: { Self → ℕ };

    /// All further calls can put so many bytes in all with no fault. Most sinks can't promise it.
    ghost can_take: { Self → ℕ → Type 0 } = { λ _ _. ⊥ };

    /// Appends the piece. After a failure a first part of the piece was appended. Takes no memory
    /// of the program's.
    fn put(&mut self, piece: &[u8]) -> Result<(), Failed>
        ensures ok { OnOk result (IfTold (written self.old) (written self.new)
            (λ old new. Appends old new piece.now)) }
        ensures err { OnErr result (IfTold (written self.old) (written self.new)
            (λ old new. AppendsPart old new piece.now)) }
        ensures sure { can_take self.old (length piece.now) → IsOk result }
        ensures takes { KeepsTakes (can_take self.old) (can_take self.new) (length piece.now) }
        ensures noted { OnOk result (Notes (calls self.old) (calls self.new) (Put piece.now)) }
        ensures noted_error { OnErr result (NotesPutFailed (calls self.old) (calls self.new) (written self.old)
            (written self.new) piece.now) }
        ensures cause { HasCause (faults self.old) (faults self.new) result };
}
