//! Lists: names with types, predicates, requirements, and the content of `:init`.
ghost use Rattle.std.specs.Prelude.{◌≡◌, ◌++◌, [], drop, OnOk, IfOk, Ok};
ghost use Rattle.pb_pddl.specs.Reading.{Gives, all_of, begins_group, begins_key, begins_open, typed, type_at, close_group, group_step, list_at, add_key, keys_at, add_predicate, predicates_at, add_held, add_fact, facts_at};

use crate::atoms::atom;
use crate::costs::add_equal;
use crate::pieces::{begins, behind, copy_name, fault, first_name, left_out, name, need, spells};
use pb_pddl::{
    Group, InitParts, LeftOut, Listed, Name, Predicate, SyntaxError, Token, TokenKind, Typed, Want,
};
use std::alloc::{AllocError, Global};

#[tactic(auto, unfolding(pb_pddl::specs::Reading::begins_group))]
fn begins_group(kind: TokenKind, tokens: &[Token]) -> bool
    ensures { result ≡ begins_group kind tokens.now }
{
    begins(kind, tokens) || begins(TokenKind::Dash, tokens)
}

fn copy_type(kind: &Option<Name>) -> Result<Option<Name>, AllocError>
    ensures { IfOk result (λ copy. copy ≡ kind.now) }
{
    match kind {
        None => Ok(None),
        Some(name) => Ok(Some(copy_name(name)?)),
    }
}

// Adds these names with this type.
fn give_type(
    done: &mut Listed<Typed>,
    names: &[Name],
    kind: &Option<Name>,
) -> Result<(), AllocError>
    ensures { OnOk result (done.new ≡ done.old ++ typed kind.now names.now) }
{
    for name in names {
        let typed = Typed {
            name: copy_name(name)?,
            kind: copy_type(kind)?,
        };
        done.push(typed)?;
    }
    Ok(())
}

// A type's name, after a `-`.
#[tactic(auto, unfolding(pb_pddl::specs::Reading::type_at))]
fn type_name(alloc: Global, tokens: &[Token]) -> Result<(Name, &[Token]), SyntaxError>
    ensures { Gives (λ x. (x.0, x.1.now)) result (type_at tokens.now) }
{
    if begins(TokenKind::Word, tokens) {
        Ok((first_name(alloc, tokens)?, behind(tokens)))
    } else if begins(TokenKind::Open, tokens) {
        Err(left_out(LeftOut::Either, tokens))
    } else {
        Err(fault(Want::TypeName, tokens))
    }
}

#[tactic(auto, unfolding(pb_pddl::specs::Reading::close_group))]
fn close_group<'a>(
    alloc: Global,
    group: &mut Group,
    tokens: &'a [Token],
) -> Result<&'a [Token], SyntaxError>
    ensures { Gives (λ rest. (group.new, rest.now)) result (close_group group.old tokens.now) }
{
    let (name, rest) = type_name(alloc, behind(tokens))?;
    let kind = Some(name);
    give_type(&mut group.done, group.waiting.as_slice(), &kind)?;
    group.waiting = Listed::new(alloc);
    Ok(rest)
}

#[tactic(auto, unfolding(pb_pddl::specs::Reading::group_step))]
fn group_step<'a>(
    alloc: Global,
    kind: TokenKind,
    out: &mut Group,
    tokens: &'a [Token],
) -> Result<&'a [Token], SyntaxError>
    ensures { Gives (λ rest. (out.new, rest.now)) result (group_step kind out.old tokens.now) }
{
    if begins(kind, tokens) {
        let name = first_name(alloc, tokens)?;
        out.waiting.push(name)?;
        Ok(behind(tokens))
    } else if out.waiting.as_slice().is_empty() {
        Err(fault(Want::Group, tokens))
    } else {
        close_group(alloc, out, tokens)
    }
}

fn groups<'a>(
    alloc: Global,
    kind: TokenKind,
    out: &mut Group,
    tokens: &'a [Token],
) -> Result<&'a [Token], SyntaxError>
    ensures { Gives (λ rest. (out.new, rest.now)) result
        (all_of (begins_group kind) (group_step kind) out.old tokens.now) }
{
    let mut rest = tokens;
    // Each round takes a token or fails, so no more rounds are needed.
    for _ in 0..tokens.len() {
        if !begins_group(kind, rest) {
            return Ok(rest);
        }
        rest = group_step(alloc, kind, out, rest)?;
    }
    Ok(rest)
}

// Adds the names of a list and gives them their types. It reads the `)` after the list.
#[tactic(auto, unfolding(pb_pddl::specs::Reading::list_at))]
fn add_list<'a>(
    alloc: Global,
    kind: TokenKind,
    want: Want,
    group: &mut Group,
    tokens: &'a [Token],
) -> Result<&'a [Token], SyntaxError>
    requires { group.old ≡ record { done = []; waiting = [] } }
    ensures { Gives (λ rest. (group.new.done, rest.now)) result (list_at kind want tokens.now) }
{
    let rest = groups(alloc, kind, group, tokens)?;
    let rest = need(TokenKind::Close, want, rest)?;
    give_type(&mut group.done, group.waiting.as_slice(), &None)?;
    group.done.trim();
    Ok(rest)
}

/// A list of names with types, and the `)` after it.
pub fn list(
    alloc: Global,
    kind: TokenKind,
    want: Want,
    tokens: &[Token],
) -> Result<(Listed<Typed>, &[Token]), SyntaxError>
    ensures { Gives (λ x. (x.0, x.1.now)) result (list_at kind want tokens.now) }
{
    let mut group = Group {
        done: Listed::new(alloc),
        waiting: Listed::new(alloc),
    };
    let rest = add_list(alloc, kind, want, &mut group, tokens)?;
    Ok((group.done, rest))
}

#[tactic(auto, unfolding(pb_pddl::specs::Reading::add_predicate))]
fn add_predicate<'a>(
    alloc: Global,
    out: &mut Listed<Predicate>,
    tokens: &'a [Token],
) -> Result<&'a [Token], SyntaxError>
    ensures { Gives (λ rest. (out.new, rest.now)) result (add_predicate out.old tokens.now) }
{
    let inside = need(TokenKind::Open, Want::Paren, tokens)?;
    let (name, rest) = name(alloc, TokenKind::Word, Want::Name, inside)?;
    let (params, rest) = list(alloc, TokenKind::Variable, Want::Variable, rest)?;
    out.push(Predicate { name, params })?;
    Ok(rest)
}

fn all_predicates<'a>(
    alloc: Global,
    out: &mut Listed<Predicate>,
    tokens: &'a [Token],
) -> Result<&'a [Token], SyntaxError>
    ensures { Gives (λ rest. (out.new, rest.now)) result
        (all_of begins_open add_predicate out.old tokens.now) }
{
    let mut rest = tokens;
    for _ in 0..tokens.len() {
        if !begins(TokenKind::Open, rest) {
            return Ok(rest);
        }
        rest = add_predicate(alloc, out, rest)?;
    }
    Ok(rest)
}

/// The predicates, and the `)` after them.
#[tactic(auto, unfolding(pb_pddl::specs::Reading::predicates_at))]
pub fn predicates(
    alloc: Global,
    tokens: &[Token],
) -> Result<(Listed<Predicate>, &[Token]), SyntaxError>
    ensures { Gives (λ x. (x.0, x.1.now)) result (predicates_at tokens.now) }
{
    let mut out = Listed::new(alloc);
    let rest = all_predicates(alloc, &mut out, tokens)?;
    let rest = need(TokenKind::Close, Want::Paren, rest)?;
    Ok((out, rest))
}

/// Whether the first token is a keyword.
#[tactic(auto, unfolding(pb_pddl::specs::Reading::begins_key))]
pub fn begins_key(tokens: &[Token]) -> bool
    ensures { result ≡ begins_key tokens.now }
{
    begins(TokenKind::Key, tokens)
}

#[tactic(auto, unfolding(pb_pddl::specs::Reading::add_key))]
fn add_key<'a>(
    alloc: Global,
    out: &mut Listed<Name>,
    tokens: &'a [Token],
) -> Result<&'a [Token], SyntaxError>
    ensures { Gives (λ rest. (out.new, rest.now)) result (add_key out.old tokens.now) }
{
    let name = first_name(alloc, tokens)?;
    out.push(name)?;
    Ok(behind(tokens))
}

fn all_keys<'a>(
    alloc: Global,
    out: &mut Listed<Name>,
    tokens: &'a [Token],
) -> Result<&'a [Token], SyntaxError>
    ensures { Gives (λ rest. (out.new, rest.now)) result
        (all_of begins_key add_key out.old tokens.now) }
{
    let mut rest = tokens;
    for _ in 0..tokens.len() {
        if !begins_key(rest) {
            return Ok(rest);
        }
        rest = add_key(alloc, out, rest)?;
    }
    Ok(rest)
}

/// The words of requirements, and the `)` after them.
#[tactic(auto, unfolding(pb_pddl::specs::Reading::keys_at))]
pub fn keys(alloc: Global, tokens: &[Token]) -> Result<&[Token], SyntaxError>
    ensures { Gives (λ x. x.now) result (keys_at tokens.now) }
{
    // The words are dropped, since no requirement changes what is read.
    let mut out = Listed::new(alloc);
    let rest = all_keys(alloc, &mut out, tokens)?;
    need(TokenKind::Close, Want::Close, rest)
}

// Adds an atom of a state, after its `(`.
#[tactic(auto, unfolding(pb_pddl::specs::Reading::add_held))]
fn add_held<'a>(
    alloc: Global,
    out: &mut InitParts,
    tokens: &'a [Token],
) -> Result<&'a [Token], SyntaxError>
    ensures { Gives (λ rest. (out.new, rest.now)) result (add_held out.old tokens.now) }
{
    let (atom, rest) = atom(alloc, false, tokens)?;
    out.atoms.push(atom)?;
    Ok(rest)
}

#[tactic(auto, unfolding(pb_pddl::specs::Reading::add_fact))]
fn add_fact<'a>(
    alloc: Global,
    out: &mut InitParts,
    tokens: &'a [Token],
) -> Result<&'a [Token], SyntaxError>
    ensures { Gives (λ rest. (out.new, rest.now)) result (add_fact out.old tokens.now) }
{
    let inside = need(TokenKind::Open, Want::Paren, tokens)?;
    if spells(TokenKind::Equals, b"=", inside) {
        add_equal(out, inside)
    } else {
        add_held(alloc, out, inside)
    }
}

fn all_facts<'a>(
    alloc: Global,
    out: &mut InitParts,
    tokens: &'a [Token],
) -> Result<&'a [Token], SyntaxError>
    ensures { Gives (λ rest. (out.new, rest.now)) result
        (all_of begins_open add_fact out.old tokens.now) }
{
    let mut rest = tokens;
    for _ in 0..tokens.len() {
        if !begins(TokenKind::Open, rest) {
            return Ok(rest);
        }
        rest = add_fact(alloc, out, rest)?;
    }
    Ok(rest)
}

/// The content of `:init`, and the `)` after it.
#[tactic(auto, unfolding(pb_pddl::specs::Reading::facts_at))]
pub fn facts(alloc: Global, tokens: &[Token]) -> Result<(InitParts, &[Token]), SyntaxError>
    ensures { Gives (λ x. (x.0, x.1.now)) result (facts_at tokens.now) }
{
    let mut out = InitParts {
        atoms: Listed::new(alloc),
        costs: Listed::new(alloc),
    };
    let rest = all_facts(alloc, &mut out, tokens)?;
    let rest = need(TokenKind::Close, Want::Paren, rest)?;
    Ok((out, rest))
}
