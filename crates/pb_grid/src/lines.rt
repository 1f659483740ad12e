//! Lines of a text.
ghost use Rattle.std.specs.Prelude.{◌≡◌, ◌≤◌, ◌+◌, [], ◌∷◌, length, drop, position, IfSome, IfNone};
ghost use Rattle.std.specs.Str.Lines.{strip_carriage_return};
ghost use Rattle.pb_grid.specs.Lines.{is_line_feed, lines_of, line_at};

// A line without the carriage return at its end, if it has one.
fn without_return(line: &[u8]) -> &[u8]
    ensures { result.now ≡ strip_carriage_return line.now }
{
    if line.is_empty() {
        return line;
    }
    let last = line.len() - 1;
    if line[last] == b'\r' {
        &line[..last]
    } else {
        line
    }
}

// How many bytes come before the first line feed of a text.
fn line_feed_at(text: &[u8]) -> Option<usize>
    ensures { result ≡ position is_line_feed text.now }
{
    text.iter().position(|byte| *byte == b'\n')
}

/// The first line of a text, without its line ending, and the text after it. None if the text has
/// no line.
pub fn split_line(text: &[u8]) -> Option<(&[u8], &[u8])>
    ensures some { IfSome result (λ x. lines_of text.now ≡ x.0.now ∷ lines_of x.1.now) }
    ensures shorter { IfSome result (λ x. length x.1.now + 1 ≤ length text.now) }
    ensures none { IfNone result (text.now ≡ []) }
{
    if text.is_empty() {
        return None;
    }
    match line_feed_at(text) {
        Some(end) => Some((without_return(&text[..end]), &text[end + 1..])),
        None => Some((without_return(text), &text[text.len()..])),
    }
}

/// The first line of a text and the text after it. A line that is missing counts as one without
/// bytes.
pub fn next_line(text: &[u8]) -> (&[u8], &[u8])
    ensures line { result.0.now ≡ line_at (lines_of text.now) 1 }
    ensures rest { lines_of result.1.now ≡ drop 1 (lines_of text.now) }
    ensures shorter { length result.1.now ≤ length text.now }
{
    match split_line(text) {
        Some((line, rest)) => (line, rest),
        // The text is empty, so it is its own missing line and its own rest.
        None => (text, text),
    }
}
