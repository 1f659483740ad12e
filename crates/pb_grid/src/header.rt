//! The first four lines of a map, which state its height and width.
ghost use Rattle.std.specs.Prelude.{◌≡◌, [], ◌∷◌, codes, drop, IfOk};
ghost use Rattle.pb_grid.specs.Lines.{lines_of, words_of};
ghost use Rattle.pb_grid.specs.Reading.{Gives, are_words, number_named, size_of_map};

use crate::error::GridError;
use crate::lines::next_line;
use crate::words::split_word;
use pb_lines::short_number_of;

// Whether a line has this word and no other.
fn is_only_word(line: &[u8], word: &[u8]) -> bool
    ensures { result ≡ are_words (words_of line.now) (word.now ∷ []) }
{
    match split_word(line) {
        Some((first, rest)) => first == word && split_word(rest).is_none(),
        None => false,
    }
}

// Whether a line says that the text is a map whose cells have eight neighbours.
fn is_type_line(line: &[u8]) -> bool
    ensures { result ≡ are_words (words_of line.now) (codes "type" ∷ codes "octile" ∷ []) }
{
    match split_word(line) {
        Some((first, rest)) => first == b"type".as_slice() && is_only_word(rest, b"octile"),
        None => false,
    }
}

// The number that a line has after this name, if the two are all its words.
fn number_named(line: &[u8], name: &[u8]) -> Option<u32>
    ensures { result ≡ number_named name.now (words_of line.now) }
{
    let Some((first, behind)) = split_word(line) else {
        return None;
    };
    let Some((second, rest)) = split_word(behind) else {
        return None;
    };
    if first != name || split_word(rest).is_some() {
        return None;
    }
    short_number_of(second)
}

/// The height and the width that the first four lines of a map say, and the text after these lines.
#[tactic(auto, unfolding(crate::specs::Reading::size_of_map))]
pub fn size_of_map(text: &[u8]) -> Result<(u32, u32, &[u8]), GridError>
    ensures gives { Gives (λ x. (x.0, x.1)) result (size_of_map (lines_of text.now)) }
    ensures rest { IfOk result (λ x. lines_of x.2.now ≡ drop 4 (lines_of text.now)) }
{
    let (first, behind) = next_line(text);
    if !is_type_line(first) {
        return Err(GridError::Header { line: 1 });
    }
    let (second, behind) = next_line(behind);
    let Some(height) = number_named(second, b"height") else {
        return Err(GridError::Header { line: 2 });
    };
    let (third, behind) = next_line(behind);
    let Some(width) = number_named(third, b"width") else {
        return Err(GridError::Header { line: 3 });
    };
    let (fourth, behind) = next_line(behind);
    if !is_only_word(fourth, b"map") {
        return Err(GridError::Header { line: 4 });
    }
    Ok((height, width, behind))
}
