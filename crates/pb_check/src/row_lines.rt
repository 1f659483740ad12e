//! The lines of rows.
ghost use Rattle.std.specs.Prelude.{◌≡◌, ◌≤◌, ◌+◌, ◌<◌, length, IfOk, IfErr, Err, Ok, Result, true};
ghost use Rattle.pb_packed.specs.Sizes.{most_digits};
ghost use Rattle.pb_packed.specs.Words.{AreWords, number_of as number_in};
ghost use Rattle.pb_check.specs.Words.{words_for, state_of};
ghost use Rattle.pb_check.specs.Faults.{Gives, IsFault, wanted};
ghost use Rattle.pb_check.specs.Reading.{line_at, closed_in, row_in, row_at};

use crate::fault::{CertificateFault, CheckError};
use crate::line::{line_at, number_in, part_in};
use crate::stated::RowEnd;
use crate::words::read_state;
use pb_lines::is_text;

// Reads a state of this many digits into its words.
fn state_in(width: u32, line: u64, text: &[u8], words: &mut [u64]) -> Result<(), CheckError>
    requires some { 1 ≤ width }
    requires most { width ≤ most_digits }
    requires long { length words.old ≡ words_for width }
    requires words { AreWords (length words.old) words.old }
    ensures gives { Gives (λ _. number_in words.new) result
        (wanted line (state_of width text.now)) }
    ensures words { AreWords (length words.old) words.new }
    ensures fault { IfErr result IsFault }
{
    if read_state(width, text, words) {
        Ok(())
    } else {
        Err(CheckError::Fault(CertificateFault::Syntax { line }))
    }
}

#[tactic(auto, unfolding(crate::specs::Reading::closed_in))]
fn closed_in(line: u64, text: &[u8]) -> Result<bool, CheckError>
    ensures gives { Gives (λ x. x) result (closed_in line text.now) }
    ensures fault { IfErr result IsFault }
{
    if is_text(text, b"closed") {
        Ok(true)
    } else if is_text(text, b"cut") {
        Ok(false)
    } else {
        Err(CheckError::Fault(CertificateFault::Syntax { line }))
    }
}

// Reads the state of a row into its words.
#[tactic(auto, unfolding(crate::specs::Reading::row_in))]
fn row_in(width: u32, line: u64, text: &[u8], words: &mut [u64]) -> Result<RowEnd, CheckError>
    requires some { 1 ≤ width }
    requires most { width ≤ most_digits }
    requires long { length words.old ≡ words_for width }
    requires words { AreWords (length words.old) words.old }
    ensures gives { Gives (λ x. record {
      state = number_in words.new;
      g = x.g;
      is_closed = x.is_closed;
    }) result (row_in width line text.now) }
    ensures words { AreWords (length words.old) words.new }
    ensures fault { IfErr result IsFault }
{
    let (front, back) = part_in(line, text, b' ')?;
    let (middle, end) = part_in(line, back, b' ')?;
    state_in(width, line, front, words)?;
    let g = number_in(line, middle)?;
    let is_closed = closed_in(line, end)?;
    Ok(RowEnd { g, is_closed })
}

// Reads the state of a row into its words.
#[tactic(auto, unfolding(crate::specs::Reading::row_at))]
pub(crate) fn row_at<'a>(
    width: u32,
    line: u64,
    text: &'a [u8],
    words: &mut [u64],
) -> Result<(RowEnd, &'a [u8]), CheckError>
    requires some { 1 ≤ width }
    requires most { width ≤ most_digits }
    requires long { length words.old ≡ words_for width }
    requires words { AreWords (length words.old) words.old }
    ensures gives { Gives (λ x. (
      record {
        state = number_in words.new;
        g = x.0.g;
        is_closed = x.0.is_closed;
      },
      x.1.now,
    )) result (row_at width line text.now) }
    ensures words { AreWords (length words.old) words.new }
    ensures shorter { IfOk result (λ x. length x.1.now + 1 ≤ length text.now) }
    ensures fault { IfErr result IsFault }
{
    let (first, rest) = line_at(line, text)?;
    let end = row_in(width, line, first, words)?;
    Ok((end, rest))
}
