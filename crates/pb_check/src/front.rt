//! The rows at the front of a text.
ghost use Rattle.std.specs.Prelude.{◌≡◌, ◌≤◌, ◌<◌, ◌+◌, [], length, IfOk, IfSome, IfNone, Some, None};
ghost use Rattle.pb_packed.specs.Sizes.{most_digits};
ghost use Rattle.pb_packed.specs.Words.{number_of, AreWords};
ghost use Rattle.pb_check.specs.Words.{words_for};
ghost use Rattle.pb_check.specs.Fronts.{row_front, rows_while};
ghost use Rattle.pb_check.specs.Kept.{Keeps, IsSpelledAs};

use crate::kept::KeptRows;
use crate::row_lines::row_at;
use crate::stated::RowEnd;
use crate::words::words_for;
use pb_lines::part;
use std::alloc::{AllocError, Global};

/// What was found of rows at the front of a text: those that are kept, how many there are, and how
/// many bytes are left behind them.
#[derive(Drop)]
pub struct Spelled {
    pub rows: KeptRows,
    pub count: u64,
    pub left: usize,
}

// The row that a text begins with, if it does. Its state is read into its words.
fn row_front<'a>(width: u32, text: &'a [u8], words: &mut [u64]) -> Option<(RowEnd, &'a [u8])>
    requires some { 1 ≤ width }
    requires most { width ≤ most_digits }
    requires long { length words.old ≡ words_for width }
    requires words { AreWords (length words.old) words.old }
    ensures some { IfSome result (λ x. row_front width text.now ≡ Some (
      record {
        state = number_of words.new;
        g = x.0.g;
        is_closed = x.0.is_closed;
      },
      x.1.now,
    )) }
    ensures none { IfNone result (row_front width text.now ≡ None) }
    ensures words { AreWords (length words.old) words.new }
    ensures shorter { IfSome result (λ x. length x.1.now + 1 ≤ length text.now) }
{
    // The number of the line doesn't matter: a line that isn't a row only ends the rows.
    match row_at(width, 0, text, words) {
        Ok((end, rest)) => Some((end, rest)),
        Err(_) => None,
    }
}

// Reads rows into the ones that are kept, each state into the same words first, until a line is no
// row.
fn spell_into(
    width: u32,
    text: &[u8],
    words: &mut [u64],
    mut rows: KeptRows,
) -> Result<Spelled, AllocError>
    requires some { 1 ≤ width }
    requires most { width ≤ most_digits }
    requires long { length words.old ≡ words_for width }
    requires words { AreWords (length words.old) words.old }
    requires none { Keeps rows (words_for width) [] }
    ensures { IfOk result (λ x. IsSpelledAs x (words_for width) (rows_while width text.now)) }
{
    let mut count: u64 = 0;
    let mut rest = text;
    while let Some((end, after)) = row_front(width, rest, words) {
        rows.push(words, &end)?;
        count += 1;
        rest = after;
    }
    Ok(Spelled {
        rows,
        count,
        left: rest.len(),
    })
}

/// Reads the rows at the front of a text, with room for so many.
pub fn spell(alloc: Global, width: u32, text: &[u8], room: usize) -> Result<Spelled, AllocError>
    requires some { 1 ≤ width }
    requires most { width ≤ most_digits }
    ensures { IfOk result (λ x. IsSpelledAs x (words_for width) (rows_while width text.now)) }
{
    let mut words = Vec::from_elem(alloc, 0u64, words_for(width))?;
    let rows = KeptRows::new(alloc, words.len(), room)?;
    spell_into(width, text, &mut words, rows)
}

// How many states are spelled by so many digits, or a number above all texts' lengths.
fn states_of(width: u32) -> usize {
    if width < 15 {
        1usize << (4 * width)
    } else {
        usize::MAX
    }
}

/// Room for the rows of a text that are kept, by the text's line feeds. A row's line has a line
/// feed, and at least seven bytes besides its state's digits. Of the rows that rise each has a
/// state of its own, and one more row is kept.
pub fn room_by(feeds: usize, width: u32, text: &[u8]) -> usize
    requires { width ≤ most_digits }
{
    let least = width as usize + 7;
    feeds
        .min(text.len() / least)
        .min(states_of(width).saturating_add(1))
}
