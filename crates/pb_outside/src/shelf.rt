//! The trait of shelves: files by name, which are loaded, created and appended to.
ghost use Rattle.std.specs.Prelude.{◌≡◌, ◌≤◌, ◌∷◌, ◌++◌, Option, Some, [], ℕ, List, IsOk, OnOk, OnErr, IfOk, IfErr, IfSome, length};
ghost use Rattle.pb_outside.specs.Outside.{Files, IfTold, IfHeld, KeepsAll, KeepsOthers, KeepsHolds, IsTooLong, SeesOneMore, IsSameOrEmpty, AppendsTo, AppendsPartTo, HasCause};

use crate::Failed;
use std::alloc::Global;

/// Why a file wasn't loaded.
#[derive(Clone, Copy, Debug, PartialEq, Eq)]
pub enum Load {
    /// A fault of the outside, such as no file of the name. The count of faults rose.
    Failed,

    /// The file is longer than the caller allows. `seen` is how many bytes were read: one more than
    /// the caller allows.
    TooLong { seen: u64 },

    /// Out of memory.
    Memory,
}

/// Keeps files by name.
pub trait Shelf {
    ghost use Rattle.pb_outside.specs.Outside.{HasLoadCause};
    ghost use Rattle.pb_outside.specs.Calls.{Call, Loaded, LoadFailed, Appended, create_call, Notes, NotesAppendFailed, IsNoFault, KeepsLoads};

    /// The calls so far, in order, with what they were given and what they gave.
    ghost calls: { Self → List Call };

    /// The files by the bytes of their names, if the shelf makes them known.
    ghost files: { Self → Option Files };

    /// How often the shelf has failed. It never falls.
    ghost faults: { Self → ℕ };

    /// A file of this name can be created and can grow to this length with no fault, now and after
    /// any further calls. Most shelves can't promise it of any name.
    ghost can_hold: { Self → List ℕ → ℕ → Type 0 } = { λ _ _ _. ⊥ };

    /// A file of this name can be loaded with no fault, now and after any further calls. Most
    /// shelves can't promise it of any name.
    ghost can_load: { Self → List ℕ → Type 0 } = { λ _ _. ⊥ };

    /// The whole file, if it has at most `most` bytes. Changes no file.
    fn load(&mut self, alloc: Global, name: &str, most: u64) -> Result<Vec<u8>, Load>
        ensures whole { IfOk result (λ bytes. IfSome (files self.old)
            (λ old. old name.now ≡ Some bytes.items)) }
        ensures short { IfOk result (λ bytes. length bytes.items ≤ most) }
        ensures long { IfErr result (λ e. IfSome (files self.old)
            (λ old. IsTooLong old name.now most e)) }
        ensures seen { IfErr result (λ e. SeesOneMore most e) }
        ensures same { IfTold (files self.old) (files self.new) KeepsAll }
        ensures sure { can_load self.old name.now → IfErr result IsNoFault }
        ensures holds { KeepsHolds (can_hold self.old) (can_hold self.new) }
        ensures loads { KeepsLoads (can_load self.old) (can_load self.new) }
        ensures noted { IfOk result (λ bytes. Notes (calls self.old) (calls self.new)
            (Loaded name.now most bytes.items)) }
        ensures noted_error { IfErr result (λ e. Notes (calls self.old) (calls self.new)
            (LoadFailed name.now most e)) }
        ensures cause { HasLoadCause (faults self.old) (faults self.new) result };

    /// Begins an empty file under the name, in place of one that may be there. After a failure the
    /// file is as before, or empty. Takes no memory of the program's.
    fn create(&mut self, name: &str) -> Result<(), Failed>
        ensures ok { OnOk result (IfTold (files self.old) (files self.new)
            (λ old new. new name.now ≡ Some [])) }
        ensures err { OnErr result (IfTold (files self.old) (files self.new)
            (λ old new. IsSameOrEmpty old new name.now)) }
        ensures others { IfTold (files self.old) (files self.new)
            (λ old new. KeepsOthers old new name.now) }
        ensures sure { (n : ℕ) → can_hold self.old name.now n → IsOk result }
        ensures holds { KeepsHolds (can_hold self.old) (can_hold self.new) }
        ensures loads { KeepsLoads (can_load self.old) (can_load self.new) }
        ensures noted { Notes (calls self.old) (calls self.new) (create_call name.now result) }
        ensures cause { HasCause (faults self.old) (faults self.new) result };

    /// Appends the piece to the file of the name. After a failure a first part of the piece was
    /// appended. Takes no memory of the program's.
    fn append(&mut self, name: &str, piece: &[u8]) -> Result<(), Failed>
        ensures ok { OnOk result (IfTold (files self.old) (files self.new)
            (λ old new. AppendsTo old new name.now piece.now)) }
        ensures err { OnErr result (IfTold (files self.old) (files self.new)
            (λ old new. AppendsPartTo old new name.now piece.now)) }
        ensures others { IfTold (files self.old) (files self.new)
            (λ old new. KeepsOthers old new name.now) }
        ensures sure { IfHeld (files self.old) name.now (length piece.now)
            (can_hold self.old name.now) (IsOk result) }
        ensures holds { KeepsHolds (can_hold self.old) (can_hold self.new) }
        ensures loads { KeepsLoads (can_load self.old) (can_load self.new) }
        ensures noted { OnOk result (Notes (calls self.old) (calls self.new) (Appended name.now piece.now)) }
        ensures noted_error { OnErr result (NotesAppendFailed (calls self.old) (calls self.new) (files self.old)
            (files self.new) name.now piece.now) }
        ensures cause { HasCause (faults self.old) (faults self.new) result };
}
