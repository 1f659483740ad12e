//! Single tokens: what the first one is, taking it, and why it is refused.
ghost use Rattle.std.specs.Prelude.{◌≡◌, codes, drop, IfOk, Ok};
ghost use Rattle.std.specs.Str.{bytes_eq};
ghost use Rattle.pb_pddl.specs.Reading.{Gives, kind_number, same_kind, front, begins, spells, is_reserved, refusal, fault_at, left_at, need, need_word, begins_reserved, only_word, name_at, begins_term, term_of, begins_head, head_at, begins_group, begins_key, name_of};

use pb_pddl::{LeftOut, Name, SyntaxError, Text, Token, TokenKind, Want};
use std::alloc::{AllocError, Global};

#[tactic(auto, unfolding(pb_pddl::specs::Reading::kind_number))]
fn kind_number(kind: TokenKind) -> u8
    ensures { result ≡ kind_number kind }
{
    match kind {
        TokenKind::Open => 0,
        TokenKind::Close => 1,
        TokenKind::Equals => 2,
        TokenKind::Dash => 3,
        TokenKind::Word => 4,
        TokenKind::Variable => 5,
        TokenKind::Key => 6,
        TokenKind::Deep => 7,
        TokenKind::Byte => 8,
        TokenKind::End => 9,
    }
}

#[tactic(auto, unfolding(pb_pddl::specs::Reading::same_kind))]
fn same_kind(a: TokenKind, b: TokenKind) -> bool
    ensures { result ≡ same_kind a b }
{
    kind_number(a) == kind_number(b)
}

/// Whether the first token is of this kind.
#[tactic(auto, unfolding(pb_pddl::specs::Reading::begins, pb_pddl::specs::Reading::front))]
pub fn begins(kind: TokenKind, tokens: &[Token]) -> bool
    ensures { result ≡ begins kind tokens.now }
{
    match tokens {
        // The definition reads a list without tokens as the end of the text.
        [] => same_kind(TokenKind::End, kind),
        [token, ..] => same_kind(token.kind, kind),
    }
}

fn same_text(a: &[u8], b: &[u8]) -> bool
    ensures { result ≡ bytes_eq a.now b.now }
{
    a == b
}

// Whether the first token has this text.
#[tactic(auto, unfolding(pb_pddl::specs::Reading::front))]
fn has_text(text: &[u8], tokens: &[Token]) -> bool
    ensures { result ≡ bytes_eq (front tokens.now).text text.now }
{
    match tokens {
        [] => same_text(&[], text),
        [token, ..] => same_text(token.text.as_slice(), text),
    }
}

/// Whether the first token is of this kind and text.
#[tactic(auto, unfolding(pb_pddl::specs::Reading::spells))]
pub fn spells(kind: TokenKind, text: &[u8], tokens: &[Token]) -> bool
    ensures { result ≡ spells kind text.now tokens.now }
{
    begins(kind, tokens) && has_text(text, tokens)
}

// Whether no atom has this head.
#[tactic(auto, unfolding(pb_pddl::specs::Reading::is_reserved))]
fn is_reserved(text: &[u8]) -> bool
    ensures { result ≡ is_reserved text.now }
{
    same_text(text, b"and")
        || same_text(text, b"or")
        || same_text(text, b"not")
        || same_text(text, b"imply")
        || same_text(text, b"exists")
        || same_text(text, b"forall")
        || same_text(text, b"when")
        || same_text(text, b"=")
        || same_text(text, b"increase")
        || same_text(text, b"decrease")
        || same_text(text, b"assign")
        || same_text(text, b"scale-up")
        || same_text(text, b"scale-down")
}

// Why this token can't go on, if this is wanted.
#[tactic(auto, unfolding(pb_pddl::specs::Reading::refusal))]
fn refusal(want: Want, token: &Token) -> SyntaxError
    ensures { result ≡ refusal want token.now }
{
    let at = u64::from(token.at);
    match token.kind {
        TokenKind::Byte => SyntaxError::Byte { at },
        TokenKind::Deep => SyntaxError::Deep { at },
        TokenKind::End => SyntaxError::Unclosed { at },
        _ => {
            if token.head && is_reserved(token.text.as_slice()) {
                let what = LeftOut::Head;
                SyntaxError::LeftOut { at, what }
            } else {
                SyntaxError::Expected { at, want }
            }
        }
    }
}

/// Why the first token can't go on, if this is wanted.
#[tactic(auto, unfolding(pb_pddl::specs::Reading::fault_at, pb_pddl::specs::Reading::front, pb_pddl::specs::Reading::refusal))]
pub fn fault(want: Want, tokens: &[Token]) -> SyntaxError
    ensures { result ≡ fault_at want tokens.now }
{
    match tokens {
        [] => SyntaxError::Unclosed { at: 0 },
        [token, ..] => refusal(want, token),
    }
}

/// The first token is a feature that is left out.
#[tactic(auto, unfolding(pb_pddl::specs::Reading::left_at, pb_pddl::specs::Reading::front))]
pub fn left_out(what: LeftOut, tokens: &[Token]) -> SyntaxError
    ensures { result ≡ left_at what tokens.now }
{
    match tokens {
        [] => SyntaxError::LeftOut { at: 0, what },
        [token, ..] => SyntaxError::LeftOut {
            at: u64::from(token.at),
            what,
        },
    }
}

/// The tokens after the first.
pub fn behind(tokens: &[Token]) -> &[Token]
    ensures { result.now ≡ drop 1 tokens.now }
{
    match tokens {
        [] => tokens,
        [_, rest @ ..] => rest,
    }
}

/// Takes a token of this kind.
#[tactic(auto, unfolding(pb_pddl::specs::Reading::need))]
pub fn need(kind: TokenKind, want: Want, tokens: &[Token]) -> Result<&[Token], SyntaxError>
    ensures { Gives (λ x. x.now) result (need kind want tokens.now) }
{
    if begins(kind, tokens) {
        Ok(behind(tokens))
    } else {
        Err(fault(want, tokens))
    }
}

/// Takes this word.
#[tactic(auto, unfolding(pb_pddl::specs::Reading::need_word))]
pub fn need_word<'a>(text: &[u8], tokens: &'a [Token]) -> Result<&'a [Token], SyntaxError>
    ensures { Gives (λ x. x.now) result (need_word text.now tokens.now) }
{
    if spells(TokenKind::Word, text, tokens) {
        Ok(behind(tokens))
    } else {
        Err(fault(Want::Word, tokens))
    }
}

// Whether the first token is a reserved head directly after a `(`.
#[tactic(auto, unfolding(pb_pddl::specs::Reading::begins_reserved, pb_pddl::specs::Reading::front))]
fn begins_reserved(tokens: &[Token]) -> bool
    ensures { result ≡ begins_reserved tokens.now }
{
    match tokens {
        [] => false,
        [token, ..] => token.head && is_reserved(token.text.as_slice()),
    }
}

/// Takes this word, whose alternatives are left out.
#[tactic(auto, unfolding(pb_pddl::specs::Reading::only_word))]
pub fn only_word<'a>(
    text: &[u8],
    what: LeftOut,
    tokens: &'a [Token],
) -> Result<&'a [Token], SyntaxError>
    ensures { Gives (λ x. x.now) result (only_word text.now what tokens.now) }
{
    if spells(TokenKind::Word, text, tokens) {
        Ok(behind(tokens))
    } else if begins(TokenKind::Word, tokens) && !begins_reserved(tokens) {
        // A reserved word after a `(` is refused below, as a head that is left out.
        Err(left_out(what, tokens))
    } else {
        Err(fault(Want::Word, tokens))
    }
}

/// The name that the first token is.
#[tactic(auto, unfolding(pb_pddl::specs::Reading::front))]
pub fn first_name(alloc: Global, tokens: &[Token]) -> Result<Name, AllocError>
    ensures { IfOk result (λ name. name ≡ name_of (front tokens.now)) }
{
    match tokens {
        [] => Ok(Name {
            text: Text::new(alloc, &[])?,
            at: 0,
        }),
        [token, ..] => Ok(Name {
            text: token.text.share()?,
            at: u64::from(token.at),
        }),
    }
}

/// Takes a token of this kind as a name.
#[tactic(auto, unfolding(pb_pddl::specs::Reading::name_at))]
pub fn name(
    alloc: Global,
    kind: TokenKind,
    want: Want,
    tokens: &[Token],
) -> Result<(Name, &[Token]), SyntaxError>
    ensures { Gives (λ x. (x.0, x.1.now)) result (name_at kind want tokens.now) }
{
    if begins(kind, tokens) {
        Ok((first_name(alloc, tokens)?, behind(tokens)))
    } else {
        Err(fault(want, tokens))
    }
}

/// Whether the first token is a head that no atom has.
#[tactic(auto, unfolding(pb_pddl::specs::Reading::front))]
pub fn is_reserved_first(tokens: &[Token]) -> bool
    ensures { result ≡ is_reserved (front tokens.now).text }
{
    match tokens {
        [] => is_reserved(&[]),
        [token, ..] => is_reserved(token.text.as_slice()),
    }
}

/// A name that shares its text with this one.
pub fn copy_name(name: &Name) -> Result<Name, AllocError>
    ensures { IfOk result (λ copy. copy ≡ name.now) }
{
    Ok(Name {
        text: name.text.share()?,
        at: name.at,
    })
}

/// The place of the first token.
#[tactic(auto, unfolding(pb_pddl::specs::Reading::front))]
pub fn place(tokens: &[Token]) -> u64
    ensures { result ≡ (front tokens.now).at }
{
    match tokens {
        [] => 0,
        [token, ..] => u64::from(token.at),
    }
}
