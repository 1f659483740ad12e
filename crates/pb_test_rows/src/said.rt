//! What a row says of the last run, compared with it.
use crate::bench::{Ran, Room};
use crate::directive::Said;
use crate::notes::Notes;
use crate::texts::Text;
use pb_outside::Memory;
use std::alloc::Global;

// In how many places a text has a piece. A text that isn't UTF-8 has it in none.
fn count(text: &[u8], piece: &[u8]) -> u64 {
    match (std::str::from_utf8(text), std::str::from_utf8(piece)) {
        (Ok(text), Ok(piece)) => text.matches(piece).count() as u64,
        _ => 0,
    }
}

// Whether a run printed what is said.
fn is_printed(said: Said<'_>, printed: &[u8], bytes: &[u8]) -> bool {
    match said {
        Said::Prints => printed == bytes,
        Said::Begins => printed.starts_with(bytes),
        Said::Ends => printed.ends_with(bytes),
        Said::Has => count(printed, bytes) > 0,
        _ => false,
    }
}

fn expect_printed(
    notes: &mut Notes,
    printed: &[u8],
    said: Said<'_>,
    bytes: &[u8],
) -> Result<(), Memory> {
    notes.expect(is_printed(said, printed, bytes), "printed", printed)
}

fn expect_saved(notes: &mut Notes, found: Option<&[u8]>, bytes: &[u8]) -> Result<(), Memory> {
    match found {
        Some(found) => notes.expect(found == bytes, "saved", found),
        None => notes.add("nothing saved", b""),
    }
}

fn expect_absent(notes: &mut Notes, found: Option<&[u8]>) -> Result<(), Memory> {
    match found {
        Some(found) => notes.add("saved", found),
        None => Ok(()),
    }
}

fn expect_count(
    notes: &mut Notes,
    found: Option<&[u8]>,
    bytes: &[u8],
    number: u64,
) -> Result<(), Memory> {
    match found {
        Some(found) => notes.expect(count(found, bytes) == number, "another count", found),
        None => notes.add("nothing saved", b""),
    }
}

fn expect_status(notes: &mut Notes, alloc: Global, found: u8, number: u64) -> Result<(), Memory> {
    let same = u64::from(found) == number;
    let text = format!(in alloc; "{found}")?;
    notes.expect(same, "status", text.as_bytes())
}

// Notes what differs from what is said.
pub(crate) fn expect_said(
    notes: &mut Notes,
    alloc: Global,
    ran: &Ran,
    failed_calls: u64,
    said: Said<'_>,
    bytes: &[u8],
) -> Result<(), Memory> {
    match said {
        Said::Status(number) => expect_status(notes, alloc, ran.status, number),
        Said::FailedCalls(least) => notes.expect(least <= failed_calls, "fewer calls failed", b""),
        Said::Saves(name) => expect_saved(notes, ran.file(name), bytes),
        Said::Absent(name) => expect_absent(notes, ran.file(name)),
        Said::Counts(name, number) => expect_count(notes, ran.file(name), bytes, number),
        other => expect_printed(notes, ran.sink.bytes(), other, bytes),
    }
}

fn has_room(rooms: &[Room], name: &str) -> bool {
    for room in rooms {
        if room.name.as_str() == name {
            return true;
        }
    }
    false
}

// Notes which texts have changed, but for those that room was made for.
pub(crate) fn expect_kept(
    notes: &mut Notes,
    ran: &Ran,
    rooms: &[Room],
    texts: &[Text],
) -> Result<(), Memory> {
    for text in texts {
        let name = text.name.as_str();
        let kept = has_room(rooms, name) || ran.file(name) == Some(text.bytes.as_slice());
        notes.expect(kept, "has changed", name.as_bytes())?;
    }
    Ok(())
}
