//! Atoms: a predicate and its terms.
ghost use Rattle.std.specs.Prelude.{◌≡◌, [], drop, IfOk, Ok};
ghost use Rattle.pb_pddl.specs.Reading.{Gives, front, all_of, begins_term, term_of, add_term, begins_head, head_at, atom_at};

use crate::pieces::{begins, behind, fault, first_name, is_reserved_first, need};
use pb_pddl::{Atom, Listed, Name, SyntaxError, Term, Token, TokenKind, Want};
use std::alloc::{AllocError, Global};

#[tactic(auto, unfolding(pb_pddl::specs::Reading::begins_term))]
fn begins_term(variables: bool, tokens: &[Token]) -> bool
    ensures { result ≡ begins_term variables tokens.now }
{
    begins(TokenKind::Word, tokens) || (variables && begins(TokenKind::Variable, tokens))
}

#[tactic(auto, unfolding(pb_pddl::specs::Reading::term_of, pb_pddl::specs::Reading::begins))]
fn first_term(alloc: Global, tokens: &[Token]) -> Result<Term, AllocError>
    ensures { IfOk result (λ term. term ≡ term_of (front tokens.now)) }
{
    let name = first_name(alloc, tokens)?;
    if begins(TokenKind::Variable, tokens) {
        Ok(Term::Variable(name))
    } else {
        Ok(Term::Object(name))
    }
}

#[tactic(auto, unfolding(pb_pddl::specs::Reading::add_term))]
fn add_term<'a>(
    alloc: Global,
    out: &mut Listed<Term>,
    tokens: &'a [Token],
) -> Result<&'a [Token], SyntaxError>
    ensures { Gives (λ rest. (out.new, rest.now)) result (add_term out.old tokens.now) }
{
    let term = first_term(alloc, tokens)?;
    out.push(term)?;
    Ok(behind(tokens))
}

fn terms<'a>(
    alloc: Global,
    variables: bool,
    tokens: &'a [Token],
) -> Result<(Listed<Term>, &'a [Token]), SyntaxError>
    ensures { Gives (λ x. (x.0, x.1.now)) result
        (all_of (begins_term variables) add_term [] tokens.now) }
{
    let mut out = Listed::new(alloc);
    let mut rest = tokens;
    // Each round takes a token or fails, so no more rounds are needed.
    for _ in 0..tokens.len() {
        if !begins_term(variables, rest) {
            return Ok((out, rest));
        }
        rest = add_term(alloc, &mut out, rest)?;
    }
    Ok((out, rest))
}

#[tactic(auto, unfolding(pb_pddl::specs::Reading::begins_head))]
fn begins_head(tokens: &[Token]) -> bool
    ensures { result ≡ begins_head tokens.now }
{
    begins(TokenKind::Word, tokens) && !is_reserved_first(tokens)
}

#[tactic(auto, unfolding(pb_pddl::specs::Reading::head_at))]
fn head(alloc: Global, tokens: &[Token]) -> Result<(Name, &[Token]), SyntaxError>
    ensures { Gives (λ x. (x.0, x.1.now)) result (head_at tokens.now) }
{
    if begins_head(tokens) {
        Ok((first_name(alloc, tokens)?, behind(tokens)))
    } else {
        Err(fault(Want::Name, tokens))
    }
}

/// An atom, after its `(`.
#[tactic(auto, unfolding(pb_pddl::specs::Reading::atom_at))]
pub fn atom<'a>(
    alloc: Global,
    variables: bool,
    tokens: &'a [Token],
) -> Result<(Atom, &'a [Token]), SyntaxError>
    ensures { Gives (λ x. (x.0, x.1.now)) result (atom_at variables tokens.now) }
{
    let (predicate, rest) = head(alloc, tokens)?;
    let (mut terms, rest) = terms(alloc, variables, rest)?;
    // A short list would otherwise keep room for four.
    terms.trim();
    // A term may come too, and an error wants a `Name` before a `Close`.
    let rest = need(TokenKind::Close, Want::Name, rest)?;
    Ok((Atom { predicate, terms }, rest))
}
