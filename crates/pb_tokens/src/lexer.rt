//! Dividing a PDDL text into tokens.
ghost use Rattle.std.specs.Prelude.{◌≡◌, ◌+◌, ◌≤◌, ◌<◌, ◌^◌, ◌∷◌, [], length, take, drop, map, IfOk, OnOk, false, Ok};
ghost use Rattle.pb_pddl.specs.Spans.{Spans};
ghost use Rattle.pb_pddl.specs.Tokens.{lower, kind_of, kind_inside, len_of, token_at, is_last, is_open, behind, unclosed, start, TextTokens};

use crate::bytes::{begins_word, gap_len, lower_bytes, run_len, word_first};
use pb_pddl::{Cursor, Listed, Text, Token, TokenKind};
use std::alloc::{AllocError, Global};

#[tactic(auto, unfolding(pb_pddl::specs::Tokens::kind_of))]
fn kind_of(byte: u8, word: bool) -> TokenKind
    ensures { result ≡ kind_of byte word }
{
    if byte == b'(' {
        TokenKind::Open
    } else if byte == b')' {
        TokenKind::Close
    } else if byte == b'=' {
        TokenKind::Equals
    } else if byte == b'-' {
        TokenKind::Dash
    } else if begins_word(byte) {
        TokenKind::Word
    } else if byte == b'?' && word {
        TokenKind::Variable
    } else if byte == b':' && word {
        TokenKind::Key
    } else {
        TokenKind::Byte
    }
}

#[tactic(auto, unfolding(pb_pddl::specs::Tokens::kind_inside))]
fn kind_inside(depth: usize, kind: TokenKind) -> TokenKind
    ensures { result ≡ kind_inside depth kind }
{
    match kind {
        TokenKind::Open => {
            // Conditions are read by recursion, at most 32 deep. A deeper `(` fits nowhere.
            if 32 <= depth {
                TokenKind::Deep
            } else {
                TokenKind::Open
            }
        }
        TokenKind::Close => TokenKind::Close,
        TokenKind::Equals => TokenKind::Equals,
        TokenKind::Dash => TokenKind::Dash,
        TokenKind::Word => TokenKind::Word,
        TokenKind::Variable => TokenKind::Variable,
        TokenKind::Key => TokenKind::Key,
        TokenKind::Deep => TokenKind::Deep,
        TokenKind::Byte => TokenKind::Byte,
        TokenKind::End => TokenKind::End,
    }
}

#[tactic(auto, unfolding(pb_pddl::specs::Tokens::len_of))]
fn len_of(kind: TokenKind, behind: &[u8]) -> usize
    requires { length behind.now < 2 ^ 63 }
    ensures some { 0 < result }
    ensures within { result ≤ length behind.now + 1 }
    ensures len { result ≡ len_of kind behind.now }
{
    let run = run_len(behind);
    match kind {
        TokenKind::Word => run + 1,
        TokenKind::Variable => run + 1,
        TokenKind::Key => run + 1,
        TokenKind::Open => 1,
        TokenKind::Close => 1,
        TokenKind::Equals => 1,
        TokenKind::Dash => 1,
        TokenKind::Deep => 1,
        TokenKind::Byte => 1,
        TokenKind::End => 1,
    }
}

#[tactic(auto, unfolding(pb_pddl::specs::Tokens::is_last))]
fn is_last(kind: TokenKind) -> bool
    ensures { result ≡ is_last kind }
{
    match kind {
        TokenKind::Deep => true,
        TokenKind::Byte => true,
        TokenKind::End => true,
        TokenKind::Open => false,
        TokenKind::Close => false,
        TokenKind::Equals => false,
        TokenKind::Dash => false,
        TokenKind::Word => false,
        TokenKind::Variable => false,
        TokenKind::Key => false,
    }
}

// The place of the innermost `(` that is open, or this place if none is.
#[tactic(auto, unfolding(pb_pddl::specs::Tokens::unclosed))]
fn unclosed(here: &Cursor) -> u64
    ensures { result ≡ unclosed here.now }
{
    let nest = here.nest.as_slice();
    if nest.is_empty() {
        here.at
    } else {
        nest[nest.len() - 1]
    }
}

// The first bytes of this text, in lower case, as a range of the source.
#[tactic(auto, using(crate::proofs::Place::slice_is, crate::proofs::Place::slice_len, crate::proofs::Place::slice_within))]
fn slice(source: &Text, at: u64, text: &[u8], len: usize) -> Result<Text, AllocError>
    requires within { len ≤ length text.now }
    requires some { 0 < length text.now }
    requires place { drop at source.now ≡ map lower text.now }
    ensures len { IfOk result (λ part. length part ≡ len) }
    ensures slice { IfOk result (λ part. part ≡ map lower (take len text.now)) }
{
    source.part(at as usize, len)
}

// The place of a token. The call fails for a place of 4 GiB or more.
fn place_of(at: u64) -> Result<u32, AllocError>
    ensures { IfOk result (λ place. place ≡ at) }
{
    match u32::try_from(at) {
        Ok(place) => Ok(place),
        // The files of the program have at most 16 MiB, so an error of its own isn't needed.
        Err(_) => Err(AllocError),
    }
}

// The token that these bytes begin with, after all white space. These bytes, in lower case, are the
// source's from here on.
#[tactic(auto, unfolding(pb_pddl::specs::Tokens::token_at, pb_pddl::specs::Tokens::is_last))]
fn token_at(source: &Text, here: &Cursor, text: &[u8]) -> Result<Token, AllocError>
    requires size { length text.now < 2 ^ 63 }
    requires place { drop here.now.at source.now ≡ map lower text.now }
    ensures within { IfOk result (λ t. length t.text ≤ length text.now) }
    ensures some { IfOk result (λ t. is_last t.kind ≡ false → 0 < length t.text) }
    ensures token { IfOk result (λ t. t ≡ token_at here.now text.now) }
{
    let Some((byte, behind)) = text.split_first() else {
        return Ok(Token {
            kind: TokenKind::End,
            text: source.part(0, 0)?,
            at: place_of(unclosed(here))?,
            head: here.head,
        });
    };
    let kind = kind_inside(
        here.nest.as_slice().len(),
        kind_of(*byte, word_first(behind)),
    );
    Ok(Token {
        kind,
        text: slice(source, here.at, text, len_of(kind, behind))?,
        at: place_of(here.at)?,
        head: here.head,
    })
}

// Takes a token: the next one may begin after it.
#[tactic(auto, unfolding(pb_pddl::specs::Tokens::opened, pb_pddl::specs::Tokens::is_open))]
fn pass(here: &mut Cursor, token: &Token) -> Result<(), AllocError>
    requires { here.old.at + length token.now.text < 2 ^ 64 }
    ensures { OnOk result (here.new ≡ behind here.old token.now) }
{
    match token.kind {
        TokenKind::Open => {
            here.nest.push(here.at)?;
            here.head = true;
        }
        TokenKind::Close => {
            // A `)` that closes nothing leaves the list empty, as `opened` says.
            here.nest.pop();
            here.head = false;
        }
        TokenKind::Equals => here.head = false,
        TokenKind::Dash => here.head = false,
        TokenKind::Word => here.head = false,
        TokenKind::Variable => here.head = false,
        TokenKind::Key => here.head = false,
        TokenKind::Deep => here.head = false,
        TokenKind::Byte => here.head = false,
        TokenKind::End => here.head = false,
    }
    here.at += token.text.as_slice().len() as u64;
    Ok(())
}

// Adds the tokens of a text. `source` is the text in lower case, and `here` is at its start.
fn add_tokens(
    source: &Text,
    text: &[u8],
    here: &mut Cursor,
    out: &mut Listed<Token>,
) -> Result<(), AllocError>
    requires source { source.now ≡ map lower text.now }
    requires start { here.old ≡ start }
    requires empty { out.old ≡ [] }
    ensures tokens { OnOk result (TextTokens text.now out.new) }
    ensures slices { OnOk result (Spans 0 text.now out.new) }
{
    let mut rest = text;
    loop {
        let (gap, bytes) = rest.split_at(gap_len(rest));
        here.at += gap.len() as u64;
        let token = token_at(source, here, bytes)?;
        if is_last(token.kind) {
            out.push(token)?;
            return Ok(());
        }
        pass(here, &token)?;
        let (_, after) = bytes.split_at(token.text.as_slice().len());
        rest = after;
        // The token moves into the list only now, since the length of its text was still needed.
        out.push(token)?;
    }
}

// The tokens of a text. `source` is the text in lower case.
fn tokens_in(alloc: Global, source: &Text, text: &[u8]) -> Result<Listed<Token>, AllocError>
    requires { source.now ≡ map lower text.now }
    ensures tokens { IfOk result (TextTokens text.now) }
    ensures slices { IfOk result (Spans 0 text.now) }
{
    let mut here = Cursor {
        at: 0,
        nest: Listed::new(alloc),
        head: false,
    };
    let mut out = Listed::new(alloc);
    add_tokens(source, text, &mut here, &mut out)?;
    Ok(out)
}

/// The tokens of a text, each the longest at its place. The last is the first that goes on nowhere:
/// the end, bytes that begin no token, or a `(` inside 32 others. The only error is out of memory.
pub fn tokens(alloc: Global, text: &[u8]) -> Result<Listed<Token>, AllocError>
    ensures tokens { IfOk result (TextTokens text.now) }
    // Each token except the end is a slice of the text at its place, in lower case, after the one
    // before it.
    ensures slices { IfOk result (Spans 0 text.now) }
{
    // The texts of all tokens are ranges of this one copy in lower case.
    let source = Text::of(alloc, lower_bytes(alloc, text)?)?;
    tokens_in(alloc, &source, text)
}
