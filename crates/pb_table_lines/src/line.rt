//! What one line says.
ghost use Rattle.std.specs.Prelude.{◌≡◌, ◌≤◌, ◌+◌, ◌<◌, ◌^◌, length, IfOk, Some, None, Err, Ok, Result, true};
ghost use Rattle.pb_packed.specs.Sizes.{most_digits};
ghost use Rattle.pb_packed.specs.Words.{AreWords, number_of as number_in};
ghost use Rattle.pb_lines.specs.Words.{number_of, behind, part};
ghost use Rattle.pb_table_lines.specs.Words.{words_for, state_of};
ghost use Rattle.pb_table_lines.specs.Faults.{Gives};
ghost use Rattle.pb_table_lines.specs.Reading.{wanted, line_at, counted, are_few, counts_in, list_in, value_in};

use crate::fault::LinesError;
use crate::words::read_state;
use pb_lines::{behind, number_of, part};
use pb_packed::Packed;

/// How many sums, tables and traps there are.
#[derive(Drop)]
pub struct StatedCounts {
    pub sums: u64,
    pub tables: u64,
    pub traps: u64,
}

/// The tracked atoms of a table or trap, and how many images it has.
#[derive(Drop)]
pub struct ListHead {
    pub tracked: Packed,
    pub count: u64,
}

/// A line, and the text after it.
pub fn line_at(line: u64, text: &[u8]) -> Result<(&[u8], &[u8]), LinesError>
    ensures gives { Gives (λ x. (x.0.now, x.1.now)) result (line_at line text.now) }
    ensures shorter { IfOk result (λ x. length x.1.now + 1 ≤ length text.now) }
{
    match part(text, b'\n') {
        Some((front, rest)) => Ok((front, rest)),
        None => Err(LinesError::Unspelled { line }),
    }
}

fn part_in(line: u64, text: &[u8], byte: u8) -> Result<(&[u8], &[u8]), LinesError>
    ensures { Gives (λ x. (x.0.now, x.1.now)) result (wanted line (part byte text.now)) }
{
    match part(text, byte) {
        Some((front, rest)) => Ok((front, rest)),
        None => Err(LinesError::Unspelled { line }),
    }
}

/// The text behind a piece that it begins with.
pub fn behind_in<'a>(line: u64, text: &'a [u8], piece: &[u8]) -> Result<&'a [u8], LinesError>
    ensures { Gives (λ x. x.now) result (wanted line (behind piece.now text.now)) }
{
    match behind(text, piece) {
        Some(rest) => Ok(rest),
        None => Err(LinesError::Unspelled { line }),
    }
}

fn number_in(line: u64, text: &[u8]) -> Result<u64, LinesError>
    ensures gives { Gives (λ x. x) result (wanted line (number_of text.now)) }
    ensures small { IfOk result (λ n. n < 2 ^ 63) }
{
    match number_of(text) {
        Some(n) => Ok(n),
        None => Err(LinesError::Unspelled { line }),
    }
}

/// Reads the state that exactly so many digits spell into its words.
pub fn state_in(digits: u32, line: u64, text: &[u8], words: &mut [u64]) -> Result<(), LinesError>
    requires some { 1 ≤ digits }
    requires most { digits ≤ most_digits }
    requires long { length words.old ≡ words_for digits }
    requires words { AreWords (length words.old) words.old }
    ensures gives { Gives (λ x. number_in words.new) result
        (wanted line (state_of digits text.now)) }
    ensures words { AreWords (length words.old) words.new }
{
    if read_state(digits, text, words) {
        Ok(())
    } else {
        Err(LinesError::Unspelled { line })
    }
}

// Whether there are 1 to 64 sums, and at most 4,096 tables and 4,096 traps.
fn are_few(sums: u64, tables: u64, traps: u64) -> bool
    ensures { result ≡ are_few (counted sums tables traps) }
{
    1 <= sums && sums <= 64 && tables <= 4096 && traps <= 4096
}

/// How many sums, tables and traps there are.
#[tactic(auto, unfolding(crate::specs::Reading::counts_in))]
pub fn counts_in(line: u64, text: &[u8]) -> Result<StatedCounts, LinesError>
    ensures gives { Gives (λ x. counted x.sums x.tables x.traps) result (counts_in line text.now) }
    ensures few { IfOk result (λ x. are_few (counted x.sums x.tables x.traps) ≡ true) }
{
    let words = behind_in(line, text, b"estimate tables ")?;
    let (first, others) = part_in(line, words, b' ')?;
    let (second, third) = part_in(line, others, b' ')?;
    let sums = number_in(line, first)?;
    let tables = number_in(line, second)?;
    let traps = number_in(line, third)?;
    if are_few(sums, tables, traps) {
        Ok(StatedCounts {
            sums,
            tables,
            traps,
        })
    } else {
        Err(LinesError::Unspelled { line })
    }
}

/// The tracked atoms of a table or trap, and how many images it has. The tracked atoms are read into
/// the words first.
#[tactic(auto, unfolding(crate::specs::Reading::list_in))]
pub fn list_in(
    digits: u32,
    word: &[u8],
    line: u64,
    text: &[u8],
    words: &mut [u64],
) -> Result<ListHead, LinesError>
    requires some { 1 ≤ digits }
    requires most { digits ≤ most_digits }
    requires long { length words.old ≡ words_for digits }
    requires words { AreWords (length words.old) words.old }
    ensures gives { Gives (λ x. (x.tracked, x.count)) result
        (list_in digits word.now line text.now) }
    ensures few { IfOk result (λ x. x.count < 2 ^ 63) }
    ensures words { AreWords (length words.old) words.new }
{
    let said = behind_in(line, text, word)?;
    let (first, second) = part_in(line, said, b' ')?;
    state_in(digits, line, first, words)?;
    let count = number_in(line, second)?;
    Ok(ListHead {
        tracked: Packed::of_slice(words),
        count,
    })
}

/// A value.
#[tactic(auto, unfolding(crate::specs::Reading::value_in))]
pub fn value_in(line: u64, word: &[u8]) -> Result<u64, LinesError>
    ensures gives { Gives (λ x. x) result (value_in line word.now) }
    ensures small { IfOk result (λ value. value ≤ 2 ^ 40) }
{
    let value = number_in(line, word)?;
    if value <= 1 << 40 {
        Ok(value)
    } else {
        Err(LinesError::Unspelled { line })
    }
}
