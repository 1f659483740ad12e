//! The lines of a journal's header.
ghost use Rattle.std.specs.Prelude.{◌≡◌, ◌≤◌, ◌+◌, ◌<◌, ◌^◌, ℕ, length, codes, IfOk};
ghost use Rattle.pb_journal.specs.Faults.{Reads, wanted};
ghost use Rattle.pb_lines.specs.Words.{part, behind, number_of};
ghost use Rattle.pb_journal.specs.Reading.{line_at, fixed_at, number_at, plain_in, plain_at, number_before, report_in};

use crate::error::{Fault, Why};
use pb_lines::{behind, is_text, number_of, part};

// A line and the text after it.
fn line_at(line: u64, text: &[u8]) -> Result<(&[u8], &[u8]), Fault>
    ensures reads { Reads (λ x. (x.0.now, x.1.now)) result (line_at line text.now) }
    ensures shorter { IfOk result (λ x. length x.1.now + 1 ≤ length text.now) }
{
    match part(text, b'\n') {
        Some((first, rest)) => Ok((first, rest)),
        None => {
            let why = if text.len() == 0 {
                Why::Short
            } else {
                Why::Spelling
            };
            Err(Fault { line, why })
        }
    }
}

/// The number that a word spells.
pub fn number_in(line: u64, word: &[u8]) -> Result<u64, Fault>
    ensures reads { Reads (λ x. x) result (wanted line (number_of word.now)) }
    ensures small { IfOk result (λ n. n < 2 ^ 63) }
{
    match number_of(word) {
        Some(n) => Ok(n),
        None => Err(Fault {
            line,
            why: Why::Spelling,
        }),
    }
}

/// The text before the first such byte of a line, and the text after it.
pub fn part_in(line: u64, text: &[u8], byte: u8) -> Result<(&[u8], &[u8]), Fault>
    ensures { Reads (λ x. (x.0.now, x.1.now)) result (wanted line (part byte text.now)) }
{
    match part(text, byte) {
        Some((front, rest)) => Ok((front, rest)),
        None => Err(Fault {
            line,
            why: Why::Spelling,
        }),
    }
}

fn behind_in<'a>(line: u64, text: &'a [u8], piece: &[u8]) -> Result<&'a [u8], Fault>
    ensures { Reads (λ x. x.now) result (wanted line (behind piece.now text.now)) }
{
    match behind(text, piece) {
        Some(rest) => Ok(rest),
        None => Err(Fault {
            line,
            why: Why::Spelling,
        }),
    }
}

/// The text after a line that is this one.
#[tactic(auto, unfolding(crate::specs::Reading::fixed_at))]
pub fn fixed_at<'a>(line: u64, text: &'a [u8], piece: &[u8]) -> Result<&'a [u8], Fault>
    ensures reads { Reads (λ x. x.now) result (fixed_at line piece.now text.now) }
    ensures shorter { IfOk result (λ x. length x.now + 1 ≤ length text.now) }
{
    let (first, rest) = line_at(line, text)?;
    if is_text(first, piece) {
        Ok(rest)
    } else {
        Err(Fault {
            line,
            why: Why::Spelling,
        })
    }
}

/// The number that follows the piece in a line, in this range, and the text after the line.
#[tactic(auto, unfolding(crate::specs::Reading::number_at))]
pub fn number_at<'a>(
    line: u64,
    text: &'a [u8],
    piece: &[u8],
    least: u64,
    most: u64,
) -> Result<(u64, &'a [u8]), Fault>
    ensures reads { Reads (λ x. (x.0, x.1.now)) result
        (number_at line piece.now least most text.now) }
    ensures shorter { IfOk result (λ x. length x.1.now + 1 ≤ length text.now) }
    ensures least { IfOk result (λ x. least ≤ x.0) }
    ensures most { IfOk result (λ x. x.0 ≤ most) }
{
    let (first, rest) = line_at(line, text)?;
    let word = behind_in(line, first, piece)?;
    let n = number_in(line, word)?;
    if least <= n && n <= most {
        Ok((n, rest))
    } else {
        Err(Fault {
            line,
            why: Why::Settings,
        })
    }
}

#[tactic(auto, unfolding(crate::specs::Reading::plain_in))]
fn plain_in(line: u64, text: &[u8]) -> Result<bool, Fault>
    ensures { Reads (λ x. x) result (plain_in line text.now) }
{
    if is_text(text, b"plain 0") {
        Ok(false)
    } else if is_text(text, b"plain 1") {
        Ok(true)
    } else {
        Err(Fault {
            line,
            why: Why::Spelling,
        })
    }
}

/// Whether a line says that the search is plain, and the text after it.
#[tactic(auto, unfolding(crate::specs::Reading::plain_at))]
pub fn plain_at(line: u64, text: &[u8]) -> Result<(bool, &[u8]), Fault>
    ensures reads { Reads (λ x. (x.0, x.1.now)) result (plain_at line text.now) }
    ensures shorter { IfOk result (λ x. length x.1.now + 1 ≤ length text.now) }
{
    let (first, rest) = line_at(line, text)?;
    let plain = plain_in(line, first)?;
    Ok((plain, rest))
}
