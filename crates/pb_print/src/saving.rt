//! A text is saved as a file, line by line.
ghost use Rattle.std.specs.Prelude.{◌≡◌, ◌+◌, ◌<◌, ◌≤◌, ◌^◌, ◌++◌, ℕ, List, [], Some, IsOk, IsSome, OnOk, OnErr, length, slice_get};
ghost use Rattle.pb_model.specs.Texts.{line, lines};
ghost use Rattle.pb_outside.specs.Outside.{IfTold, KeepsOthers, KeepsHolds, HasCause};
ghost use Rattle.pb_outside.specs.Calls.{Call, HasBytes, KeepsLoads};
ghost use Rattle.pb_outside.specs.Saves.{IsPartSaved, HoldsPart, IsWritten, Saves, SavesPart, HaveBegun, KeepsBegun, BreaksSave, IfHasRoom};
ghost use Rattle.pb_print.specs.Saved.{longest_line, PutsLine, AreLines, AddsLine, CallForLine};

use crate::Piece;
use pb_outside::{Failed, Shelf};

// No line has more bytes, its line feed included.
const LONGEST: usize = 1664;

/// A text in lines, which are numbered from 0 and put in their order.
///
/// The lines of a text that is made of another text may be found only one after another. So a call
/// that puts a line gets where in that other text the line begins, and sets where the next one
/// does: both begin with byte 0. A text whose lines are found by their numbers doesn't look at it.
pub trait NumberedLines {
    /// The text.
    ghost text: { Self → List ℕ };

    /// Its lines, without their line feeds.
    ghost lines_of: { Self → List (List ℕ) };

    /// The line of a number begins in this byte of what the text is made of.
    ghost begins: { Self → (at begin : ℕ) → Type 0 };

    /// How many lines there are: at least one.
    fn count(&self) -> u128
        ensures count { result ≡ length (lines_of self.now) }
        ensures some { 1 ≤ result }
        ensures most { result < 2 ^ 80 }
        ensures text { lines (lines_of self.now) ≡ text self.now }
        ensures first { begins self.now 0 0 };

    /// Puts the line of this number at the piece's end.
    fn put_line(&self, at: u128, begin: &mut usize, out: &mut Piece)
        requires within { at < length (lines_of self.now) }
        requires room { length out.old + longest_line ≤ 4096 }
        requires begins { begins self.now at begin.old }
        ensures line { PutsLine out.old out.new (lines_of self.now) at }
        ensures next { begins self.now (at + 1) begin.new };
}

// Appends what the piece holds to the file, and empties the piece.
fn append_piece<H: Shelf>(shelf: &mut H, name: &str, piece: &mut Piece) -> Result<(), Failed>
    requires lines { AreLines piece.old }
    requires full { HasBytes piece.old }
    ensures empty { OnOk result (piece.new ≡ []) }
    ensures ok { OnOk result (IfTold (H.files shelf.old) (H.files shelf.new)
        (λ old new. (text : List ℕ) → IsWritten old name.now piece.old text
        → IsWritten new name.now [] text)) }
    ensures err { OnErr result (IfTold (H.files shelf.old) (H.files shelf.new)
        (λ old new. (text : List ℕ) → IsWritten old name.now piece.old text
        → HoldsPart new name.now text)) }
    ensures others { IfTold (H.files shelf.old) (H.files shelf.new)
        (λ old new. KeepsOthers old new name.now) }
    ensures begun { OnOk result
        (KeepsBegun (H.calls shelf.old) (H.calls shelf.new) name.now piece.old []) }
    ensures failed { OnErr result
        (BreaksSave (H.calls shelf.old) (H.calls shelf.new) name.now piece.old) }
    ensures sure { IfHasRoom (H.files shelf.old) name.now piece.old
        (H.can_hold shelf.old name.now) (IsOk result) }
    ensures holds { KeepsHolds (H.can_hold shelf.old) (H.can_hold shelf.new) }
    ensures loads { KeepsLoads (H.can_load shelf.old) (H.can_load shelf.new) }
    ensures cause { HasCause (H.faults shelf.old) (H.faults shelf.new) result }
{
    shelf.append(name, piece.as_slice())?;
    piece.clear();
    Ok(())
}

// Makes room for a line in the piece: if there is none, what it holds is appended to the file.
fn make_room<H: Shelf>(shelf: &mut H, name: &str, piece: &mut Piece) -> Result<(), Failed>
    requires lines { AreLines piece.old }
    ensures lines { OnOk result (AreLines piece.new) }
    ensures room { OnOk result (length piece.new + longest_line ≤ 4096) }
    ensures ok { OnOk result (IfTold (H.files shelf.old) (H.files shelf.new)
        (λ old new. (text : List ℕ) → IsWritten old name.now piece.old text
        → IsWritten new name.now piece.new text)) }
    ensures err { OnErr result (IfTold (H.files shelf.old) (H.files shelf.new)
        (λ old new. (text : List ℕ) → IsWritten old name.now piece.old text
        → HoldsPart new name.now text)) }
    ensures others { IfTold (H.files shelf.old) (H.files shelf.new)
        (λ old new. KeepsOthers old new name.now) }
    ensures begun { OnOk result
        (KeepsBegun (H.calls shelf.old) (H.calls shelf.new) name.now piece.old piece.new) }
    ensures failed { OnErr result
        (BreaksSave (H.calls shelf.old) (H.calls shelf.new) name.now piece.old) }
    ensures sure { IfHasRoom (H.files shelf.old) name.now piece.old
        (H.can_hold shelf.old name.now) (IsOk result) }
    ensures holds { KeepsHolds (H.can_hold shelf.old) (H.can_hold shelf.new) }
    ensures loads { KeepsLoads (H.can_load shelf.old) (H.can_load shelf.new) }
    ensures cause { HasCause (H.faults shelf.old) (H.faults shelf.new) result }
{
    // The next line isn't made yet, so there must be room for the longest.
    if piece.len() + LONGEST <= Piece::SIZE {
        return Ok(());
    }
    append_piece(shelf, name, piece)
}

// Adds a line to the text of which the file has all but what the piece holds.
fn add_line<T: NumberedLines, H: Shelf>(
    text: &T,
    shelf: &mut H,
    name: &str,
    piece: &mut Piece,
    at: u128,
    begin: &mut usize,
) -> Result<(), Failed>
    requires within { at < length (T.lines_of text.now) }
    requires lines { AreLines piece.old }
    requires begins { T.begins text.now at begin.old }
    ensures next { OnOk result (T.begins text.now (at + 1) begin.new) }
    ensures lines { OnOk result (AreLines piece.new) }
    ensures full { OnOk result (HasBytes piece.new) }
    ensures ok { OnOk result (IfTold (H.files shelf.old) (H.files shelf.new)
        (λ old new. (before : List ℕ) → IsWritten old name.now piece.old before
        → AddsLine new name.now piece.new before (T.lines_of text.now) at)) }
    ensures err { OnErr result (IfTold (H.files shelf.old) (H.files shelf.new)
        (λ old new. (before : List ℕ) → IsWritten old name.now piece.old before
        → HoldsPart new name.now before)) }
    ensures others { IfTold (H.files shelf.old) (H.files shelf.new)
        (λ old new. KeepsOthers old new name.now) }
    ensures begun { OnOk result ((start : List Call) (before : List ℕ)
        → HaveBegun start (H.calls shelf.old) name.now piece.old before
        → CallForLine start (H.calls shelf.new) name.now piece.new before (T.lines_of text.now)
        at) }
    ensures failed { OnErr result
        (BreaksSave (H.calls shelf.old) (H.calls shelf.new) name.now piece.old) }
    ensures sure { IfHasRoom (H.files shelf.old) name.now piece.old
        (H.can_hold shelf.old name.now) (IsOk result) }
    ensures holds { KeepsHolds (H.can_hold shelf.old) (H.can_hold shelf.new) }
    ensures loads { KeepsLoads (H.can_load shelf.old) (H.can_load shelf.new) }
    ensures cause { HasCause (H.faults shelf.old) (H.faults shelf.new) result }
{
    make_room(shelf, name, piece)?;
    text.put_line(at, begin, piece);
    Ok(())
}

/// Saves the text as the file of this name, in pieces of whole lines, each of at most 4,096 bytes.
/// It takes no memory. An error is a fault of the shelf.
pub fn save_lines<T: NumberedLines, H: Shelf>(
    text: &T,
    shelf: &mut H,
    name: &str,
) -> Result<(), Failed>
    ensures ok { OnOk result (IfTold (H.files shelf.old) (H.files shelf.new)
        (λ old new. new name.now ≡ Some (T.text text.now))) }
    ensures err { OnErr result (IfTold (H.files shelf.old) (H.files shelf.new)
        (λ old new. IsPartSaved old new name.now (T.text text.now))) }
    ensures others { IfTold (H.files shelf.old) (H.files shelf.new)
        (λ old new. KeepsOthers old new name.now) }
    ensures calls { OnOk result
        (Saves (H.calls shelf.old) (H.calls shelf.new) name.now (T.text text.now)) }
    ensures failed { OnErr result
        (SavesPart (H.calls shelf.old) (H.calls shelf.new) name.now (T.text text.now)) }
    ensures sure { IsSome (H.files shelf.old)
        → H.can_hold shelf.old name.now (length (T.text text.now)) → IsOk result }
    ensures holds { KeepsHolds (H.can_hold shelf.old) (H.can_hold shelf.new) }
    ensures loads { KeepsLoads (H.can_load shelf.old) (H.can_load shelf.new) }
    ensures cause { HasCause (H.faults shelf.old) (H.faults shelf.new) result }
{
    // Pieces are appended, so the file must be there, and empty.
    shelf.create(name)?;
    let mut piece = Piece::new();
    // A text may have the lines of two lists and more, whose number need not fit 64 bits.
    let mut at = 0u128;
    let mut begin = 0usize;
    let count = text.count();
    'lines: while at < count {
        add_line(text, shelf, name, &mut piece, at, &mut begin)?;
        at += 1;
    }
    // There is at least one line, so the last piece isn't empty.
    append_piece(shelf, name, &mut piece)
}

/// How many bytes the text has. It takes no memory.
pub fn len_of_lines<T: NumberedLines>(text: &T) -> u128
    ensures { result ≡ length (T.text text.now) }
{
    let mut len = 0u128;
    let mut at = 0u128;
    let mut begin = 0usize;
    let count = text.count();
    'lines: while at < count {
        let mut line = Piece::new();
        text.put_line(at, &mut begin, &mut line);
        len += line.len() as u128;
        at += 1;
    }
    len
}
