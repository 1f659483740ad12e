//! Actions of a domain: name, parameters, precondition and effect.
ghost use Rattle.std.specs.Prelude.{◌≡◌, [], codes, drop, is_some, Ok};
ghost use Rattle.pb_syntax.specs.Forms.{all_parts, action_of};
ghost use Rattle.pb_pddl.specs.Reading.{Gives, all_of, begins_key, once, params_part, pre_part, effect_part, part_at, or_empty, parts_want, limited, add_action};

use crate::conditions::{cond, effect};
use crate::lists::{begins_key, list};
use crate::pieces::{behind, left_out, name, need, place, spells};
use pb_pddl::{
    Action, ActionParts, Atom, EffectParts, LeftOut, Listed, Literal, Name, SyntaxError, Token,
    TokenKind, Typed, Want,
};
use std::alloc::Global;

/// How many parentheses may be inside one another.
pub const DEEPEST: u32 = 32;

/// The keyword came before.
#[tactic(auto, unfolding(pb_pddl::specs::Reading::once))]
pub fn once(tokens: &[Token]) -> SyntaxError
    ensures { result ≡ once tokens.now }
{
    SyntaxError::Expected {
        at: place(tokens),
        want: Want::Once,
    }
}

/// The list, or an empty one.
pub fn or_empty<T: Drop>(alloc: Global, list: Option<Listed<T>>) -> Listed<T>
    ensures { result ≡ or_empty list }
{
    match list {
        None => Listed::new(alloc),
        Some(list) => list,
    }
}

#[tactic(auto, unfolding(pb_pddl::specs::Reading::params_part))]
fn params_part<'a>(
    alloc: Global,
    out: &mut ActionParts,
    tokens: &'a [Token],
) -> Result<&'a [Token], SyntaxError>
    ensures { Gives (λ rest. (out.new, rest.now)) result (params_part out.old tokens.now) }
{
    if out.params.is_some() {
        return Err(once(tokens));
    }
    let inside = need(TokenKind::Open, Want::Paren, behind(tokens))?;
    let (params, rest) = list(alloc, TokenKind::Variable, Want::Variable, inside)?;
    out.params = Some(params);
    Ok(rest)
}

#[tactic(auto, unfolding(pb_pddl::specs::Reading::pre_part, pb_pddl::specs::Reading::limited))]
fn pre_part<'a>(
    alloc: Global,
    out: &mut ActionParts,
    tokens: &'a [Token],
) -> Result<&'a [Token], SyntaxError>
    ensures { Gives (λ rest. (out.new, rest.now)) result (pre_part limited out.old tokens.now) }
{
    if out.pre.is_some() {
        return Err(once(tokens));
    }
    let mut pre = Listed::new(alloc);
    let rest = cond(alloc, true, DEEPEST, &mut pre, behind(tokens))?;
    out.pre = Some(pre);
    Ok(rest)
}

#[tactic(auto, unfolding(pb_pddl::specs::Reading::effect_part, pb_pddl::specs::Reading::limited))]
fn effect_part<'a>(
    alloc: Global,
    out: &mut ActionParts,
    tokens: &'a [Token],
) -> Result<&'a [Token], SyntaxError>
    ensures { Gives (λ rest. (out.new, rest.now)) result (effect_part limited out.old tokens.now) }
{
    if out.effect.is_some() {
        return Err(once(tokens));
    }
    let mut all = EffectParts {
        literals: Listed::new(alloc),
        costs: Listed::new(alloc),
    };
    let rest = effect(alloc, DEEPEST, &mut all, behind(tokens))?;
    // A short list would otherwise keep room for four.
    all.costs.trim();
    out.effect = Some(all.literals);
    out.costs = all.costs;
    Ok(rest)
}

// A part of an action, at its keyword.
#[tactic(auto, unfolding(pb_pddl::specs::Reading::part_at))]
fn part<'a>(
    alloc: Global,
    out: &mut ActionParts,
    tokens: &'a [Token],
) -> Result<&'a [Token], SyntaxError>
    ensures { Gives (λ rest. (out.new, rest.now)) result (part_at limited out.old tokens.now) }
{
    if spells(TokenKind::Key, b":parameters", tokens) {
        params_part(alloc, out, tokens)
    } else if spells(TokenKind::Key, b":precondition", tokens) {
        pre_part(alloc, out, tokens)
    } else if spells(TokenKind::Key, b":effect", tokens) {
        effect_part(alloc, out, tokens)
    } else {
        Err(left_out(LeftOut::Part, tokens))
    }
}

fn parts<'a>(
    alloc: Global,
    out: &mut ActionParts,
    tokens: &'a [Token],
) -> Result<&'a [Token], SyntaxError>
    ensures { Gives (λ rest. (out.new, rest.now)) result
        (all_of begins_key (part_at limited) out.old tokens.now) }
{
    let mut rest = tokens;
    // Each round takes a token or fails, so no more rounds are needed.
    for _ in 0..tokens.len() {
        if !begins_key(rest) {
            return Ok(rest);
        }
        rest = part(alloc, out, rest)?;
    }
    Ok(rest)
}

// What is wanted after these parts.
#[tactic(auto, unfolding(pb_pddl::specs::Reading::parts_want))]
fn parts_want(parts: &ActionParts) -> Want
    ensures { result ≡ parts_want parts.now }
{
    if parts.params.is_some() && parts.pre.is_some() && parts.effect.is_some() {
        Want::Close
    } else {
        Want::Part
    }
}

// The parts of an action, and the `)` after them.
#[tactic(auto, unfolding(crate::specs::Forms::all_parts))]
fn all_parts<'a>(
    alloc: Global,
    out: &mut ActionParts,
    tokens: &'a [Token],
) -> Result<&'a [Token], SyntaxError>
    ensures { Gives (λ rest. (out.new, rest.now)) result (all_parts out.old tokens.now) }
{
    let rest = parts(alloc, out, tokens)?;
    need(TokenKind::Close, parts_want(out), rest)
}

// An action with this name and these parts.
fn action_of(alloc: Global, name: Name, parts: ActionParts) -> Action
    ensures { result ≡ action_of name parts }
{
    Action {
        name,
        params: or_empty(alloc, parts.params),
        pre: or_empty(alloc, parts.pre),
        effect: or_empty(alloc, parts.effect),
        costs: parts.costs,
    }
}

/// An action, after its keyword.
#[tactic(auto, using(crate::proofs::Steps::action_in_steps))]
pub fn add_action<'a>(
    alloc: Global,
    out: &mut Listed<Action>,
    tokens: &'a [Token],
) -> Result<&'a [Token], SyntaxError>
    ensures { Gives (λ rest. (out.new, rest.now)) result (add_action limited out.old tokens.now) }
{
    let (name, rest) = name(alloc, TokenKind::Word, Want::Name, tokens)?;
    let mut all = ActionParts {
        params: None,
        pre: None,
        effect: None,
        costs: Listed::new(alloc),
    };
    let rest = all_parts(alloc, &mut all, rest)?;
    out.push(action_of(alloc, name, all))?;
    Ok(rest)
}
