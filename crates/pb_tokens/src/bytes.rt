//! Bytes of a PDDL text: white space, comments, words and lower case.
ghost use Rattle.std.specs.Prelude.{◌≡◌, ◌≤◌, false, length, IfOk, map};
ghost use Rattle.pb_pddl.specs.Tokens.{is_white, begins_word, goes_on_word, lower, gap_len, run_len, word_first, gap_next};

use pb_pddl::Listed;
use std::alloc::{AllocError, Global};

#[tactic(auto, unfolding(pb_pddl::specs::Tokens::is_white))]
fn is_white(byte: u8) -> bool
    ensures { result ≡ is_white byte }
{
    // 12 is the form feed.
    byte == b' ' || byte == b'\t' || byte == b'\r' || byte == b'\n' || byte == 12
}

/// Whether a word may begin with this byte: a letter or a digit.
#[tactic(auto, unfolding(pb_pddl::specs::Tokens::begins_word))]
pub fn begins_word(byte: u8) -> bool
    ensures { result ≡ begins_word byte }
{
    (b'a' <= byte && byte <= b'z')
        || (b'A' <= byte && byte <= b'Z')
        || (b'0' <= byte && byte <= b'9')
}

#[tactic(auto, unfolding(pb_pddl::specs::Tokens::goes_on_word))]
fn goes_on_word(byte: u8) -> bool
    ensures { result ≡ goes_on_word byte }
{
    begins_word(byte) || byte == b'-' || byte == b'_'
}

#[tactic(auto, unfolding(pb_pddl::specs::Tokens::lower))]
fn lower(byte: u8) -> u8
    ensures { result ≡ lower byte }
{
    if b'A' <= byte && byte <= b'Z' {
        byte + 32
    } else {
        byte
    }
}

/// Whether a text begins with a word.
#[tactic(auto, unfolding(pb_pddl::specs::Tokens::word_first))]
pub fn word_first(text: &[u8]) -> bool
    ensures { result ≡ word_first text.now }
{
    match text {
        [] => false,
        [byte, ..] => begins_word(*byte),
    }
}

// After a byte of white space or of a comment, whether a comment goes on; None for any other byte.
#[tactic(auto, unfolding(pb_pddl::specs::Tokens::gap_next))]
fn gap_next(comment: bool, byte: u8) -> Option<bool>
    ensures { result ≡ gap_next comment byte }
{
    if comment {
        return if byte == b'\n' {
            Some(false)
        } else {
            Some(true)
        };
    }
    if byte == b';' {
        Some(true)
    } else if is_white(byte) {
        Some(false)
    } else {
        None
    }
}

/// How many bytes of white space and comments come first.
pub fn gap_len(text: &[u8]) -> usize
    ensures within { result ≤ length text.now }
    ensures gap { result ≡ gap_len false text.now }
{
    let mut comment = false;
    let mut count = 0;
    for byte in text {
        let Some(next) = gap_next(comment, *byte) else {
            return count;
        };
        comment = next;
        count += 1;
    }
    count
}

/// How many bytes that go on with a word come first.
pub fn run_len(text: &[u8]) -> usize
    ensures within { result ≤ length text.now }
    ensures run { result ≡ run_len text.now }
{
    let mut count = 0;
    for byte in text {
        if !goes_on_word(*byte) {
            return count;
        }
        count += 1;
    }
    count
}

/// The bytes in lower case.
pub fn lower_bytes(alloc: Global, bytes: &[u8]) -> Result<Listed<u8>, AllocError>
    ensures { IfOk result (λ text. text ≡ map lower bytes.now) }
{
    let mut out = Listed::new(alloc);
    for byte in bytes {
        out.push(lower(*byte))?;
    }
    Ok(out)
}
