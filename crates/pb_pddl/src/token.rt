//! The tokens of a text, and where the next one may begin.

use crate::text::Text;
use pb_listed::Listed;

/// The kind of a token. Each place of a text has one: `Byte` if no token begins there, and `End` at
/// the end of the text.
#[derive(Clone, Copy)]
pub enum TokenKind {
    /// A `(`.
    Open,
    /// A `)`.
    Close,
    /// A `=`.
    Equals,
    /// A `-` that no word goes on with.
    Dash,
    /// A longest run of ASCII letters, digits, `-` and `_` that begins with a letter or a digit.
    Word,
    /// A `?` with a word.
    Variable,
    /// A `:` with a word.
    Key,
    /// A `(` inside as many others as may be.
    Deep,
    /// Bytes that begin no token.
    Byte,
    /// The end of the text.
    End,
}

/// A token and its place: the slice of its text that begins there. The order of the fields keeps it
/// at 24 bytes.
#[derive(Drop)]
pub struct Token {
    /// The token's bytes, in lower case, as a range of the whole text.
    pub text: Text,
    /// The place of the token's first byte. At the end of the text, that of the innermost `(` that
    /// is open.
    pub at: u32,
    pub kind: TokenKind,
    /// Whether the token comes directly after a `(`.
    pub head: bool,
}

/// Where the next token may begin, as a reader of bytes goes over them.
#[derive(Drop)]
pub struct Cursor {
    pub at: u64,
    /// The places of the `(` that are open.
    pub nest: Listed<u64>,
    /// Whether a `(` comes directly before the place.
    pub head: bool,
}
