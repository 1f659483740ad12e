//! All lines of tables and traps.
ghost use Rattle.std.specs.Prelude.{◌≡◌, ◌≤◌, ◌+◌, ◌<◌, ◌^◌, length, IfOk, Err, Ok, Result};
ghost use Rattle.pb_packed.specs.Sizes.{most_digits};
ghost use Rattle.pb_packed.specs.Words.{AreWords};
ghost use Rattle.pb_table_lines.specs.Words.{words_for};
ghost use Rattle.pb_table_lines.specs.Faults.{Gives};
ghost use Rattle.pb_table_lines.specs.Lines.{tables_lines};
ghost use Rattle.pb_table_lines.specs.Reading.{tables_at, tables_reading};

use crate::fault::LinesError;
use crate::line::{counts_in, line_at};
use crate::lists::{self, LinePlace};
use crate::words::words_for;
use pb_tables::Tables;
use std::alloc::Global;

// Tables and traps, and the place after them.
#[tactic(auto, unfolding(crate::specs::Reading::tables_at))]
fn tables_into<'a>(
    alloc: Global,
    digits: u32,
    line: u64,
    text: &'a [u8],
    words: &mut [u64],
) -> Result<(Tables, LinePlace<'a>), LinesError>
    requires some { 1 ≤ digits }
    requires most { digits ≤ most_digits }
    requires long { length words.old ≡ words_for digits }
    requires words { AreWords (length words.old) words.old }
    requires lines { line + length text.now < 2 ^ 64 }
    ensures gives { Gives (λ x. (x.0, x.1.text.now)) result (tables_at digits line text.now) }
    ensures line { IfOk result (λ x. x.1.line ≡ line + length (tables_lines digits x.0)) }
    ensures shorter { IfOk result (λ x. x.1.line + length x.1.text.now ≤ line + length text.now) }
{
    let (first, rest) = line_at(line, text)?;
    let counts = counts_in(line, first)?;
    let sums = counts.sums as usize;
    let place = LinePlace {
        line: line + 1,
        text: rest,
    };
    let (tables, place) = lists::tables_at(alloc, digits, sums, counts.tables, place, words)?;
    let (traps, place) = lists::traps_at(alloc, digits, counts.traps, place, words)?;
    Ok((Tables::of(sums, tables, traps), place))
}

/// Tables and traps at the front of a text, with images of so many digits, and the place after
/// them. The text's first line has the number `line`.
pub fn tables_at(
    alloc: Global,
    digits: u32,
    line: u64,
    text: &[u8],
) -> Result<(Tables, LinePlace<'_>), LinesError>
    requires some { 1 ≤ digits }
    requires most { digits ≤ most_digits }
    requires lines { line + length text.now < 2 ^ 64 }
    ensures gives { Gives (λ x. (x.0, x.1.text.now)) result (tables_at digits line text.now) }
    ensures line { IfOk result (λ x. x.1.line ≡ line + length (tables_lines digits x.0)) }
    ensures shorter { IfOk result (λ x. x.1.line + length x.1.text.now ≤ line + length text.now) }
{
    // One state's words, taken once: each line's image is read into them.
    let mut words = Vec::from_elem(alloc, 0u64, words_for(digits))?;
    tables_into(alloc, digits, line, text, &mut words)
}

/// The tables and traps that a text states, with images of so many digits and nothing after them.
/// Lines are counted from 1.
#[tactic(auto, unfolding(crate::specs::Reading::tables_reading))]
pub fn read_tables(alloc: Global, digits: u32, bytes: &[u8]) -> Result<Tables, LinesError>
    requires some { 1 ≤ digits }
    requires most { digits ≤ most_digits }
    requires few { length bytes.now < 2 ^ 63 }
    ensures { Gives (λ tables. tables) result (tables_reading digits bytes.now) }
{
    let (tables, place) = tables_at(alloc, digits, 1, bytes)?;
    if place.text.is_empty() {
        Ok(tables)
    } else {
        Err(LinesError::Unspelled { line: place.line })
    }
}
