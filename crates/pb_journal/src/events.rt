//! The line of an event.
ghost use Rattle.std.specs.Prelude.{◌≡◌, codes};
ghost use Rattle.pb_journal.specs.Faults.{Reads};
ghost use Rattle.pb_journal.specs.Stated.{event_of};
ghost use Rattle.pb_journal.specs.Reading.{by_word, number_before, report_in, lease_in, renewal_in, hot_in, cold_in, release_in, off_in, end_in, event_in};

use crate::error::{Fault, Why};
use crate::reading::{number_in, part_in};
use crate::stated::StatedEvent;
use pb_lines::{behind, is_text};
use pb_machine::End;

// A number, and the words after it.
#[tactic(auto, unfolding(crate::specs::Reading::number_before))]
fn number_before(line: u64, words: &[u8]) -> Result<(u64, &[u8]), Fault>
    ensures { Reads (λ x. (x.0, x.1.now)) result (number_before line words.now) }
{
    let (first, rest) = part_in(line, words, b' ')?;
    let n = number_in(line, first)?;
    Ok((n, rest))
}

// Whether a worker reports that it is out of memory.
#[tactic(auto, unfolding(crate::specs::Reading::report_in))]
fn report_in(line: u64, word: &[u8]) -> Result<bool, Fault>
    ensures { Reads (λ x. x) result (report_in line word.now) }
{
    if is_text(word, b"ok") {
        Ok(false)
    } else if is_text(word, b"memory") {
        Ok(true)
    } else {
        Err(Fault {
            line,
            why: Why::Spelling,
        })
    }
}

#[tactic(auto, unfolding(crate::specs::Reading::lease_in))]
fn lease_in(line: u64, words: &[u8]) -> Result<StatedEvent, Fault>
    ensures { Reads event_of result (lease_in line words.now) }
{
    let (worker, words) = number_before(line, words)?;
    let (block, words) = number_before(line, words)?;
    let quota = number_in(line, words)?;
    Ok(StatedEvent::Lease {
        worker,
        block,
        quota,
    })
}

#[tactic(auto, unfolding(crate::specs::Reading::renewal_in))]
fn renewal_in(line: u64, words: &[u8]) -> Result<StatedEvent, Fault>
    ensures { Reads event_of result (renewal_in line words.now) }
{
    let (worker, words) = number_before(line, words)?;
    let (used, words) = number_before(line, words)?;
    let quota = number_in(line, words)?;
    Ok(StatedEvent::Renew {
        worker,
        used,
        quota,
    })
}

#[tactic(auto, unfolding(crate::specs::Reading::hot_in))]
fn hot_in(line: u64, words: &[u8]) -> Result<StatedEvent, Fault>
    ensures { Reads event_of result (hot_in line words.now) }
{
    let (worker, words) = number_before(line, words)?;
    let block = number_in(line, words)?;
    Ok(StatedEvent::Hot { worker, block })
}

#[tactic(auto, unfolding(crate::specs::Reading::cold_in))]
fn cold_in(line: u64, words: &[u8]) -> Result<StatedEvent, Fault>
    ensures { Reads event_of result (cold_in line words.now) }
{
    let (worker, words) = number_before(line, words)?;
    let block = number_in(line, words)?;
    Ok(StatedEvent::Cold { worker, block })
}

#[tactic(auto, unfolding(crate::specs::Reading::release_in))]
fn release_in(line: u64, words: &[u8]) -> Result<StatedEvent, Fault>
    ensures { Reads event_of result (release_in line words.now) }
{
    let (worker, words) = number_before(line, words)?;
    let (used, words) = number_before(line, words)?;
    let memory = report_in(line, words)?;
    Ok(StatedEvent::Release {
        worker,
        used,
        memory,
    })
}

#[tactic(auto, unfolding(crate::specs::Reading::off_in))]
fn off_in(line: u64, words: &[u8]) -> Result<StatedEvent, Fault>
    ensures { Reads event_of result (off_in line words.now) }
{
    let (worker, words) = number_before(line, words)?;
    let memory = report_in(line, words)?;
    Ok(StatedEvent::Off { worker, memory })
}

#[tactic(auto, unfolding(crate::specs::Reading::end_in))]
fn end_in(line: u64, text: &[u8]) -> Result<StatedEvent, Fault>
    ensures { Reads event_of result (end_in line text.now) }
{
    if is_text(text, b"end quiet") {
        Ok(StatedEvent::Ended(End::Quiet))
    } else if is_text(text, b"end budget") {
        Ok(StatedEvent::Ended(End::Budget))
    } else if is_text(text, b"end memory") {
        Ok(StatedEvent::Ended(End::Memory))
    } else {
        Err(Fault {
            line,
            why: Why::Spelling,
        })
    }
}

/// The event that a line spells.
#[tactic(auto, unfolding(crate::specs::Reading::event_in))]
pub fn event_in(line: u64, text: &[u8]) -> Result<StatedEvent, Fault>
    ensures { Reads event_of result (event_in line text.now) }
{
    if let Some(words) = behind(text, b"lease ") {
        lease_in(line, words)
    } else if let Some(words) = behind(text, b"renew ") {
        renewal_in(line, words)
    } else if let Some(words) = behind(text, b"hot ") {
        hot_in(line, words)
    } else if let Some(words) = behind(text, b"cold ") {
        cold_in(line, words)
    } else if let Some(words) = behind(text, b"release ") {
        release_in(line, words)
    } else if let Some(words) = behind(text, b"off ") {
        off_in(line, words)
    } else {
        end_in(line, text)
    }
}
