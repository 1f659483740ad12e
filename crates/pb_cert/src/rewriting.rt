//! A certificate that was accepted is saved anew: one of version 1 in version 2, and one of a later
//! version as it is. No call takes memory.
ghost use Rattle.std.specs.Prelude.{◌≡◌, ◌≢◌, ◌+◌, ◌<◌, ◌≤◌, ◌++◌, ℕ, List, ◌∷◌, true, Some, IsOk, IsSome, OnOk, OnErr, length, drop, codes};
ghost use Rattle.std.specs.Fmt.{decimal};
ghost use Rattle.pb_packed.specs.Sizes.{most_digits};
ghost use Rattle.pb_model.specs.Texts.{line, lines, spaced};
ghost use Rattle.pb_outside.specs.Outside.{IfTold, KeepsOthers, KeepsHolds, HasCause};
ghost use Rattle.pb_outside.specs.Calls.{KeepsLoads};
ghost use Rattle.pb_outside.specs.Saves.{IsPartSaved, Saves, SavesPart};
ghost use Rattle.pb_model.specs.Certificate.{Certificate};
ghost use Rattle.pb_estimate.specs.declared.spelling.Spelling.{Spelling};
ghost use Rattle.pb_estimate.specs.declared.spelling.Version.TheVariants.{One, Three, Four};
ghost use Rattle.pb_lines.specs.Words.{has_none, line_feeds};
ghost use Rattle.pb_print.specs.Saved.{longest_line, PutsLine};
ghost use Rattle.pb_check.specs.declared.fault.Verdict.{Verdict};
ghost use Rattle.pb_check.specs.Shown.{IsAccepted};
ghost use Rattle.pb_check.specs.Spelling.{IsSpelled};
ghost use Rattle.pb_cert.specs.Laws.{SpellsAccepted, IsAcceptedAgain};
ghost use Rattle.pb_cert.specs.Rewritten.{rewritten_text, zeros, respelled_line, text_saved, lines_saved, Begins};

use crate::laws::rewritten_texts_are_accepted;
use pb_check::read_as_spelled;
use pb_estimate::Version;
use pb_lines::{behind, part};
use pb_outside::{Failed, Shelf};
use pb_packed::DIGITS;
use pb_print::{NumberedLines, Piece, len_of_lines, save_lines};
use pb_task::{Task, states_fit_their_width};
use std::marker::Model;

/// A certificate that was accepted, as it is saved anew: the same weight, plan, cost and rows, with
/// as many digits a state as its task needs. It borrows the bytes that it was read from, which are
/// read again line by line as it is saved. If they are of version 1, version 2 is saved, and else
/// the same bytes.
#[derive(Drop)]
pub struct Rewriting<'a> {
    bytes: &'a [u8],
    from: Version,
    width: u32,
    count: usize,
}

impl<'a> Model for Rewriting<'a> {
    ghost use Rattle.std.specs.Prelude.{◌≡◌, length};
    ghost use Rattle.pb_cert.specs.Rewritten.{Rewritten, CanBeRewritten, lines_saved};

    ghost Value = { Rewritten };

    ghost view = { λ r. record { bytes = r.bytes.now; from = r.from; width = r.width } };

    ghost invariant = { λ r. CanBeRewritten r.bytes.now r.from r.width
        × (r.count ≡ length (lines_saved (record {
          bytes = r.bytes.now;
          from = r.from;
          width = r.width;
        }))) };
}

// How many lines of a text have their end.
fn count_lines(bytes: &[u8]) -> usize
    ensures count { result ≡ line_feeds bytes.now }
    ensures most { result ≤ length bytes.now }
{
    let mut count = 0;
    'bytes: for byte in bytes {
        if *byte == b'\n' {
            count += 1;
        }
    }
    count
}

// The version that a certificate's text says.
fn version_of(bytes: &[u8]) -> Version
    ensures { (spelling : Spelling) (certificate : Certificate)
        → IsSpelled bytes.now spelling certificate → spelling.version ≡ result }
{
    match behind(bytes, b"pbnf-certificate 4\n") {
        Some(_) => Version::Four,
        None => three_or_less(bytes),
    }
}

// Version 3 if the text says it, and else an earlier one.
fn three_or_less(bytes: &[u8]) -> Version
    ensures { (spelling : Spelling) (certificate : Certificate)
        → IsSpelled bytes.now spelling certificate → spelling.version ≢ Four
        → spelling.version ≡ result }
{
    match behind(bytes, b"pbnf-certificate 3\n") {
        Some(_) => Version::Three,
        None => one_or_two(bytes),
    }
}

// Version 2 if the text says it, and else version 1.
fn one_or_two(bytes: &[u8]) -> Version
    ensures { (spelling : Spelling) (certificate : Certificate)
        → IsSpelled bytes.now spelling certificate → spelling.version ≢ Four
        → spelling.version ≢ Three → spelling.version ≡ result }
{
    match behind(bytes, b"pbnf-certificate 2\n") {
        Some(_) => Version::Two,
        None => Version::One,
    }
}

// How many lines more a certificate of this version gets: one for the digits of a state, if it has
// none.
fn lines_more(from: Version) -> usize
    ensures one { from ≡ One → result ≡ 1 }
    ensures none { from ≢ One → result ≡ 0 }
    ensures few { result ≤ 1 }
{
    match from {
        Version::One => 1,
        Version::Two | Version::Three | Version::Four => 0,
    }
}

// The line that begins with a byte, without its line feed. The next line begins behind that.
fn next_line<'a>(bytes: &'a [u8], begin: &mut usize) -> &'a [u8]
    requires { begin.old ≤ length bytes.now }
    ensures line { (first : List ℕ) (rest : List (List ℕ))
        → drop begin.old bytes.now ≡ lines (first ∷ rest) → has_none 10 first ≡ true
        → result.now ≡ first }
    ensures next { (first : List ℕ) (rest : List (List ℕ))
        → drop begin.old bytes.now ≡ lines (first ∷ rest) → has_none 10 first ≡ true
        → (begin.new ≤ length bytes.now) × (drop begin.new bytes.now ≡ lines rest) }
{
    let rest = &bytes[*begin..];
    match part(rest, b'\n') {
        Some((line, behind)) => {
            *begin = bytes.len() - behind.len();
            line
        }
        None => rest,
    }
}

// Puts a line at the piece's end.
fn put_text(text: &[u8], out: &mut Piece)
    requires short { length text.now + 1 ≤ longest_line }
    requires room { length out.old + longest_line ≤ 4096 }
    ensures line { out.new ≡ out.old ++ line text.now }
    ensures short { length out.new ≤ length out.old + longest_line }
{
    out.push(text);
    out.push(b"\n");
}

// Puts so many digits 0 at the piece's end.
fn put_zeros(count: usize, out: &mut Piece)
    requires { length out.old + count ≤ 4096 }
    ensures zeros { out.new ≡ out.old ++ zeros count }
    ensures longer { length out.new ≡ length out.old + count }
{
    let mut at = 0;
    'zeros: while at < count {
        out.push(b"0");
        at += 1;
    }
}

// Puts a line of version 1 at the piece's end as version 2 has it.
fn put_respelled(text: &[u8], width: u32, out: &mut Piece)
    requires width { width ≤ most_digits }
    requires short { length (respelled_line width text.now) + 1 ≤ longest_line }
    requires room { length out.old + longest_line ≤ 4096 }
    ensures line { out.new ≡ out.old ++ line (respelled_line width text.now) }
    ensures short { length out.new ≤ length out.old + longest_line }
{
    // Only the line of a row is longer than the 64 digits of its state.
    if text.len() <= DIGITS {
        put_text(text, out);
        return;
    }
    let digits = width as usize;
    // A wider state gets zeros in front, and a narrower one loses some. One difference is 0.
    put_zeros(digits.saturating_sub(DIGITS), out);
    out.push(&text[DIGITS.saturating_sub(digits)..]);
    out.push(b"\n");
}

// Puts the line at the piece's end that says how many digits a state has.
fn put_width(width: u32, out: &mut Piece)
    requires room { length out.old + longest_line ≤ 4096 }
    ensures line { out.new ≡ out.old ++ line (spaced (codes "width") (decimal width)) }
    ensures short { length out.new ≤ length out.old + longest_line }
{
    out.push(b"width ");
    out.push_number(u64::from(width));
    out.push(b"\n");
}

impl<'a> Rewriting<'a> {
    /// The certificate that these bytes spell, as it is saved anew. They must have been accepted for
    /// this task.
    pub fn of(task: &Task, bytes: &'a [u8]) -> Rewriting<'a>
        requires { (verdict : Verdict) × IsAccepted task.now bytes.now verdict }
        ensures { text_saved result ≡ rewritten_text task.now bytes.now }
    {
        // The laws and the call show that the bytes spell a certificate, that its states fit the
        // width, and that the task is lawful.
        read_as_spelled();
        states_fit_their_width();
        let _lawful = task.max_degree();
        let from = version_of(bytes);
        Rewriting {
            bytes,
            from,
            width: task.width(),
            count: count_lines(bytes) + lines_more(from),
        }
    }

    // Puts the line of a number of a certificate that was read in version 1. Its first line is that
    // of version 2, and its third isn't in version 1.
    fn put_from_1(&self, at: u128, begin: &mut usize, out: &mut Piece)
        requires version { self.now.from ≡ One }
        requires within { at < length (lines_saved self.now) }
        requires room { length out.old + longest_line ≤ 4096 }
        requires begins { Begins self.now at begin.old }
        ensures line { PutsLine out.old out.new (lines_saved self.now) at }
        ensures next { Begins self.now (at + 1) begin.new }
    {
        if at == 2 {
            put_width(self.width, out);
            return;
        }
        let line = next_line(self.bytes, begin);
        if at == 0 {
            put_text(b"pbnf-certificate 2", out);
        } else {
            put_respelled(line, self.width, out);
        }
    }

    // Puts the line of a number of a certificate that was read in a later version: the same line.
    fn put_same(&self, at: u128, begin: &mut usize, out: &mut Piece)
        requires version { self.now.from ≢ One }
        requires within { at < length (lines_saved self.now) }
        requires room { length out.old + longest_line ≤ 4096 }
        requires begins { Begins self.now at begin.old }
        ensures line { PutsLine out.old out.new (lines_saved self.now) at }
        ensures next { Begins self.now (at + 1) begin.new }
    {
        put_text(next_line(self.bytes, begin), out);
    }

    /// How many bytes the text that is saved has. It takes no memory.
    pub fn len(&self) -> u128
        ensures { result ≡ length (text_saved self.now) }
    {
        len_of_lines(self)
    }

    /// Saves the text as the file of this name, in pieces of whole lines, each of at most 4,096
    /// bytes. It takes no memory. An error is a fault of the shelf.
    pub fn write_to<H: Shelf>(&self, shelf: &mut H, name: &str) -> Result<(), Failed>
        ensures ok { OnOk result (IfTold (H.files shelf.old) (H.files shelf.new)
            (λ old new. new name.now ≡ Some (text_saved self.now))) }
        ensures err { OnErr result (IfTold (H.files shelf.old) (H.files shelf.new)
            (λ old new. IsPartSaved old new name.now (text_saved self.now))) }
        ensures others { IfTold (H.files shelf.old) (H.files shelf.new)
            (λ old new. KeepsOthers old new name.now) }
        ensures calls { OnOk result
            (Saves (H.calls shelf.old) (H.calls shelf.new) name.now (text_saved self.now)) }
        ensures failed { OnErr result
            (SavesPart (H.calls shelf.old) (H.calls shelf.new) name.now (text_saved self.now)) }
        ensures sure { IsSome (H.files shelf.old)
            → H.can_hold shelf.old name.now (length (text_saved self.now)) → IsOk result }
        ensures holds { KeepsHolds (H.can_hold shelf.old) (H.can_hold shelf.new) }
        ensures loads { KeepsLoads (H.can_load shelf.old) (H.can_load shelf.new) }
        ensures cause { HasCause (H.faults shelf.old) (H.faults shelf.new) result }
    {
        save_lines(self, shelf, name)
    }
}

/// The lines of the text that is saved.
impl NumberedLines for Rewriting<'_> {
    ghost text = { text_saved };

    ghost lines_of = { lines_saved };

    ghost begins = { Begins };

    fn count(&self) -> u128 {
        self.count as u128
    }

    fn put_line(&self, at: u128, begin: &mut usize, out: &mut Piece) {
        match self.from {
            Version::One => self.put_from_1(at, begin, out),
            Version::Two | Version::Three | Version::Four => self.put_same(at, begin, out),
        }
    }
}

/// Saves the certificate that these bytes spell anew, as the file of this name: in version 2 if they
/// are of version 1, and else the same bytes. They must have been accepted for this task. It takes
/// no memory. An error is a fault of the shelf.
pub fn rewrite_to<H: Shelf>(
    task: &Task,
    bytes: &[u8],
    shelf: &mut H,
    name: &str,
) -> Result<(), Failed>
    requires { (verdict : Verdict) × IsAccepted task.now bytes.now verdict }
    ensures ok { OnOk result (IfTold (H.files shelf.old) (H.files shelf.new)
        (λ old new. new name.now ≡ Some (rewritten_text task.now bytes.now))) }
    ensures err { OnErr result (IfTold (H.files shelf.old) (H.files shelf.new)
        (λ old new. IsPartSaved old new name.now (rewritten_text task.now bytes.now))) }
    ensures others { IfTold (H.files shelf.old) (H.files shelf.new)
        (λ old new. KeepsOthers old new name.now) }
    ensures calls { OnOk result (Saves (H.calls shelf.old) (H.calls shelf.new) name.now
        (rewritten_text task.now bytes.now)) }
    ensures failed { OnErr result (SavesPart (H.calls shelf.old) (H.calls shelf.new) name.now
        (rewritten_text task.now bytes.now)) }
    ensures sure { IsSome (H.files shelf.old)
        → H.can_hold shelf.old name.now (length (rewritten_text task.now bytes.now))
        → IsOk result }
    ensures cause { HasCause (H.faults shelf.old) (H.faults shelf.new) result }
    // What is saved spells the accepted certificate.
    ensures spells { SpellsAccepted task.now bytes.now }
    // What is saved is accepted, with the same verdict.
    ensures accepted { IsAcceptedAgain task.now bytes.now }
{
    rewritten_texts_are_accepted();
    let _lawful = task.max_degree();
    Rewriting::of(task, bytes).write_to(shelf, name)
}
