//! The words of a text, each with its line.
ghost use Rattle.std.specs.Prelude.{◌≡◌, ◌≢◌, ◌+◌, ◌<◌, ◌≤◌, ◌^◌, Ok, Err, IfOk, IfErr};
ghost use Rattle.pb_tiles.specs.Words.{is_blank, words, line_behind};
ghost use Rattle.pb_tiles.specs.Reading.{nothing_said, said_by};
ghost use Rattle.pb_tiles.specs.declared.error.TilesError.TheVariants.{Memory};

use crate::error::TilesError;
use crate::said::Numbers;
use std::alloc::Global;

/// The numbers that the words of a text say.
pub fn read_words(alloc: Global, text: &[u8]) -> Result<Numbers, TilesError>
    ensures said { IfOk result (λ said. said_by nothing_said (words text.now) ≡ Ok said) }
    ensures refused { IfErr result (λ e. e ≢ Memory → said_by nothing_said (words text.now)
        ≡ Err e) }
{
    let mut numbers = Numbers::new(alloc);
    let mut line = 1;
    let mut begin = 0;
    for at in 0..text.len() {
        if is_blank(text[at]) {
            numbers.take(line, &text[begin..at])?;
            begin = at + 1;
            // Only now, since the word before a line feed is still in its line.
            line = line_behind(line, text[at]);
        }
    }
    // No blank need come after the last word.
    numbers.take(line, &text[begin..])?;
    Ok(numbers)
}

// Whether a byte separates words.
fn is_blank(byte: u8) -> bool
    ensures { result ≡ is_blank byte }
{
    byte == b' ' || byte == b'\t' || byte == b'\r' || byte == b'\n'
}

// The number of the line after a byte.
fn line_behind(line: u64, byte: u8) -> u64
    requires { line + 1 < 2 ^ 64 }
    ensures line { result ≡ line_behind line byte }
    ensures next { result ≤ line + 1 }
{
    if byte == b'\n' { line + 1 } else { line }
}
