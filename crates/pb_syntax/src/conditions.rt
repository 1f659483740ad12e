//! Conditions and effects, which may be nested.
ghost use Rattle.std.specs.Prelude.{◌≡◌, codes, drop, Ok};
ghost use Rattle.pb_pddl.specs.Reading.{Gives, all_of, begins_open, add_atom, cond_at, conds_at, add_literal, negative_at, effects_at, effect_at};

use crate::atoms::atom;
use crate::costs::add_increase;
use crate::pieces::{begins, behind, fault, need, spells};
use pb_pddl::{Atom, EffectParts, Listed, Literal, SyntaxError, Token, TokenKind, Want};
use std::alloc::Global;

// Adds an atom, after its `(`.
#[tactic(auto, unfolding(pb_pddl::specs::Reading::add_atom))]
fn add_atom<'a>(
    alloc: Global,
    variables: bool,
    out: &mut Listed<Atom>,
    tokens: &'a [Token],
) -> Result<&'a [Token], SyntaxError>
    ensures { Gives (λ rest. (out.new, rest.now)) result (add_atom variables out.old tokens.now) }
{
    let (atom, rest) = atom(alloc, variables, tokens)?;
    out.push(atom)?;
    Ok(rest)
}

/// Adds the atoms of a condition within so many parentheses.
#[cycle(cond)]
#[tactic(auto, unfolding(pb_pddl::specs::Reading::cond_at))]
pub fn cond<'a>(
    alloc: Global,
    variables: bool,
    room: u32,
    out: &mut Listed<Atom>,
    tokens: &'a [Token],
) -> Result<&'a [Token], SyntaxError>
    ensures { Gives (λ rest. (out.new, rest.now)) result
        (cond_at variables room out.old tokens.now) }
{
    // No text comes here, since a `(` this deep is a `Deep` token. The number bounds the recursion.
    if room == 0 {
        return Err(fault(Want::Paren, tokens));
    }
    let inside = need(TokenKind::Open, Want::Paren, tokens)?;
    if begins(TokenKind::Close, inside) {
        Ok(behind(inside))
    } else if spells(TokenKind::Word, b"and", inside) {
        conds(alloc, variables, room - 1, out, behind(inside))
    } else {
        add_atom(alloc, variables, out, inside)
    }
}

// Adds the atoms of as many conditions as follow.
#[cycle(cond)]
fn all_conds<'a>(
    alloc: Global,
    variables: bool,
    room: u32,
    out: &mut Listed<Atom>,
    tokens: &'a [Token],
) -> Result<&'a [Token], SyntaxError>
    ensures { Gives (λ rest. (out.new, rest.now)) result
        (all_of begins_open (cond_at variables room) out.old tokens.now) }
{
    let mut rest = tokens;
    // Each round takes a token or fails, so no more rounds are needed.
    for _ in 0..tokens.len() {
        if !begins(TokenKind::Open, rest) {
            return Ok(rest);
        }
        rest = cond(alloc, variables, room, out, rest)?;
    }
    Ok(rest)
}

// Adds the atoms of the conditions after `( and`.
#[cycle(cond)]
#[tactic(auto, unfolding(pb_pddl::specs::Reading::conds_at))]
fn conds<'a>(
    alloc: Global,
    variables: bool,
    room: u32,
    out: &mut Listed<Atom>,
    tokens: &'a [Token],
) -> Result<&'a [Token], SyntaxError>
    ensures { Gives (λ rest. (out.new, rest.now)) result
        (conds_at variables (cond_at variables room) out.old tokens.now) }
{
    let rest = all_conds(alloc, variables, room, out, tokens)?;
    // A condition may come too, and an error wants a `Paren` before a `Close`.
    need(TokenKind::Close, Want::Paren, rest)
}

// Adds an effect's atom, after its `(`.
#[tactic(auto, unfolding(pb_pddl::specs::Reading::add_literal))]
fn add_literal<'a>(
    alloc: Global,
    negated: bool,
    out: &mut EffectParts,
    tokens: &'a [Token],
) -> Result<&'a [Token], SyntaxError>
    ensures { Gives (λ rest. (out.new, rest.now)) result (add_literal negated out.old tokens.now) }
{
    let (atom, rest) = atom(alloc, true, tokens)?;
    out.literals.push(Literal { atom, negated })?;
    Ok(rest)
}

// Adds the atom after `( not`.
#[tactic(auto, unfolding(pb_pddl::specs::Reading::negative_at))]
fn negative<'a>(
    alloc: Global,
    out: &mut EffectParts,
    tokens: &'a [Token],
) -> Result<&'a [Token], SyntaxError>
    ensures { Gives (λ rest. (out.new, rest.now)) result (negative_at out.old tokens.now) }
{
    let inside = need(TokenKind::Open, Want::Paren, tokens)?;
    let rest = add_literal(alloc, true, out, inside)?;
    need(TokenKind::Close, Want::Close, rest)
}

/// Adds the atoms of an effect within so many parentheses.
#[cycle(effect)]
#[tactic(auto, unfolding(pb_pddl::specs::Reading::effect_at))]
pub fn effect<'a>(
    alloc: Global,
    room: u32,
    out: &mut EffectParts,
    tokens: &'a [Token],
) -> Result<&'a [Token], SyntaxError>
    ensures { Gives (λ rest. (out.new, rest.now)) result (effect_at room out.old tokens.now) }
{
    if room == 0 {
        return Err(fault(Want::Paren, tokens));
    }
    let inside = need(TokenKind::Open, Want::Paren, tokens)?;
    if begins(TokenKind::Close, inside) {
        Ok(behind(inside))
    } else if spells(TokenKind::Word, b"and", inside) {
        effects(alloc, room - 1, out, behind(inside))
    } else if spells(TokenKind::Word, b"not", inside) {
        negative(alloc, out, behind(inside))
    } else if spells(TokenKind::Word, b"increase", inside) {
        add_increase(out, inside)
    } else {
        add_literal(alloc, false, out, inside)
    }
}

// Adds the atoms of as many effects as follow.
#[cycle(effect)]
fn all_effects<'a>(
    alloc: Global,
    room: u32,
    out: &mut EffectParts,
    tokens: &'a [Token],
) -> Result<&'a [Token], SyntaxError>
    ensures { Gives (λ rest. (out.new, rest.now)) result
        (all_of begins_open (effect_at room) out.old tokens.now) }
{
    let mut rest = tokens;
    for _ in 0..tokens.len() {
        if !begins(TokenKind::Open, rest) {
            return Ok(rest);
        }
        rest = effect(alloc, room, out, rest)?;
    }
    Ok(rest)
}

// Adds the atoms of the effects after `( and`.
#[cycle(effect)]
#[tactic(auto, unfolding(pb_pddl::specs::Reading::effects_at))]
fn effects<'a>(
    alloc: Global,
    room: u32,
    out: &mut EffectParts,
    tokens: &'a [Token],
) -> Result<&'a [Token], SyntaxError>
    ensures { Gives (λ rest. (out.new, rest.now)) result
        (effects_at (effect_at room) out.old tokens.now) }
{
    let rest = all_effects(alloc, room, out, tokens)?;
    need(TokenKind::Close, Want::Paren, rest)
}
