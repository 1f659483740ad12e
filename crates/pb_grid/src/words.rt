//! Words of a line, taken from its front or from its end.
ghost use Rattle.std.specs.Prelude.{◌≡◌, ◌<◌, ℕ, [], ◌∷◌, length, reverse, position, slice_index, not, true, false, IfSome, IfNone};
ghost use Rattle.pb_grid.specs.Lines.{is_blank, IsLastAt, words_of, is_blank_line};

// A space or a tab.
fn is_blank(byte: u8) -> bool
    ensures { result ≡ is_blank byte }
{
    byte == b' ' || byte == b'\t'
}

// How many bytes come before the first blank.
fn blank_at(line: &[u8]) -> Option<usize>
    ensures { result ≡ position is_blank line.now }
{
    line.iter().position(|byte| is_blank(*byte))
}

// How many blanks come before a line's first word.
fn word_at(line: &[u8]) -> Option<usize>
    ensures { result ≡ position (λ byte. not (is_blank byte)) line.now }
{
    line.iter().position(|byte| !is_blank(*byte))
}

// The place of the last blank.
fn last_blank_at(line: &[u8]) -> Option<usize>
    ensures some { IfSome result (λ at. IsLastAt is_blank line.now at) }
    ensures none { IfNone result ((k : ℕ) → k < length line.now
        → is_blank (slice_index line.now k) ≡ false) }
{
    line.iter().rposition(|byte| is_blank(*byte))
}

// The place of the last byte of a line's last word.
fn word_end_at(line: &[u8]) -> Option<usize>
    ensures some { IfSome result (λ at. IsLastAt (λ byte. not (is_blank byte)) line.now at) }
    ensures none { IfNone result ((k : ℕ) → k < length line.now
        → not (is_blank (slice_index line.now k)) ≡ false) }
{
    line.iter().rposition(|byte| !is_blank(*byte))
}

/// The first word of a line, and the line after it. None if the line has no word.
pub fn split_word(line: &[u8]) -> Option<(&[u8], &[u8])>
    ensures some { IfSome result (λ x. words_of line.now ≡ x.0.now ∷ words_of x.1.now) }
    ensures none { IfNone result (words_of line.now ≡ []) }
{
    let Some(start) = word_at(line) else {
        return None;
    };
    let word = &line[start..];
    match blank_at(word) {
        Some(end) => Some((&word[..end], &word[end..])),
        None => Some((word, &word[word.len()..])),
    }
}

/// The last word of a line, and the line before it. None if the line has no word.
pub fn split_last_word(line: &[u8]) -> Option<(&[u8], &[u8])>
    ensures some { IfSome result (λ x. reverse (words_of line.now)
        ≡ x.1.now ∷ reverse (words_of x.0.now)) }
    ensures none { IfNone result (words_of line.now ≡ []) }
{
    let Some(last) = word_end_at(line) else {
        return None;
    };
    let front = &line[..last + 1];
    match last_blank_at(front) {
        Some(blank) => Some((&front[..blank], &front[blank + 1..])),
        None => Some((&front[..0], front)),
    }
}

/// Whether a line has no words.
pub fn is_blank_line(line: &[u8]) -> bool
    ensures { result ≡ is_blank_line line.now }
{
    match split_word(line) {
        Some(_) => false,
        None => true,
    }
}
