//! Whole domains and their sections, and what all forms begin and end with.
ghost use Rattle.std.specs.Prelude.{◌≡◌, [], codes, drop, is_some, Ok};
ghost use Rattle.pb_syntax.specs.Forms.{head_at, whole_domain};
ghost use Rattle.pb_pddl.specs.Reading.{Gives, all_of, begins_open, requirements_section, types_section, constants_section, predicates_section, functions_section, action_section, no_section, domain_key, domain_section, title_at, end_at, limited, domain_at};

use crate::action::{add_action, once, or_empty};
use crate::costs::functions;
use crate::lists::{keys, list, predicates};
use crate::pieces::{begins, behind, fault, left_out, name, need, need_word, place, spells};
use pb_pddl::{
    Action, Domain, DomainParts, LeftOut, Listed, Name, Predicate, SyntaxError, Token, TokenKind,
    Typed, Want,
};
use std::alloc::Global;

#[tactic(auto, unfolding(pb_pddl::specs::Reading::requirements_section))]
fn requirements_section<'a>(
    alloc: Global,
    out: &mut DomainParts,
    tokens: &'a [Token],
) -> Result<&'a [Token], SyntaxError>
    ensures { Gives (λ rest. (out.new, rest.now)) result (requirements_section out.old tokens.now) }
{
    if out.requirements {
        return Err(once(tokens));
    }
    let rest = keys(alloc, behind(tokens))?;
    out.requirements = true;
    Ok(rest)
}

#[tactic(auto, unfolding(pb_pddl::specs::Reading::types_section))]
fn types_section<'a>(
    alloc: Global,
    out: &mut DomainParts,
    tokens: &'a [Token],
) -> Result<&'a [Token], SyntaxError>
    ensures { Gives (λ rest. (out.new, rest.now)) result (types_section out.old tokens.now) }
{
    if out.types.is_some() {
        return Err(once(tokens));
    }
    let (types, rest) = list(alloc, TokenKind::Word, Want::Name, behind(tokens))?;
    out.types = Some(types);
    Ok(rest)
}

#[tactic(auto, unfolding(pb_pddl::specs::Reading::constants_section))]
fn constants_section<'a>(
    alloc: Global,
    out: &mut DomainParts,
    tokens: &'a [Token],
) -> Result<&'a [Token], SyntaxError>
    ensures { Gives (λ rest. (out.new, rest.now)) result (constants_section out.old tokens.now) }
{
    if out.constants.is_some() {
        return Err(once(tokens));
    }
    let (constants, rest) = list(alloc, TokenKind::Word, Want::Name, behind(tokens))?;
    out.constants = Some(constants);
    Ok(rest)
}

#[tactic(auto, unfolding(pb_pddl::specs::Reading::predicates_section))]
fn predicates_section<'a>(
    alloc: Global,
    out: &mut DomainParts,
    tokens: &'a [Token],
) -> Result<&'a [Token], SyntaxError>
    ensures { Gives (λ rest. (out.new, rest.now)) result (predicates_section out.old tokens.now) }
{
    if out.predicates.is_some() {
        return Err(once(tokens));
    }
    let (predicates, rest) = predicates(alloc, behind(tokens))?;
    out.predicates = Some(predicates);
    Ok(rest)
}

#[tactic(auto, unfolding(pb_pddl::specs::Reading::functions_section))]
fn functions_section<'a>(
    out: &mut DomainParts,
    tokens: &'a [Token],
) -> Result<&'a [Token], SyntaxError>
    ensures { Gives (λ rest. (out.new, rest.now)) result (functions_section out.old tokens.now) }
{
    if out.functions {
        return Err(once(tokens));
    }
    let (has_cost, rest) = functions(behind(tokens))?;
    out.functions = true;
    out.has_cost = has_cost;
    Ok(rest)
}

#[tactic(auto, unfolding(pb_pddl::specs::Reading::action_section))]
fn action_section<'a>(
    alloc: Global,
    out: &mut DomainParts,
    tokens: &'a [Token],
) -> Result<&'a [Token], SyntaxError>
    ensures { Gives (λ rest. (out.new, rest.now)) result
        (action_section limited out.old tokens.now) }
{
    let rest = add_action(alloc, &mut out.actions, behind(tokens))?;
    Ok(rest)
}

/// No keyword of a section that there is.
#[tactic(auto, unfolding(pb_pddl::specs::Reading::no_section))]
pub fn no_section(tokens: &[Token]) -> SyntaxError
    ensures { result ≡ no_section tokens.now }
{
    if begins(TokenKind::Key, tokens) {
        left_out(LeftOut::Section, tokens)
    } else {
        fault(Want::Section, tokens)
    }
}

#[tactic(auto, unfolding(pb_pddl::specs::Reading::domain_key))]
fn domain_key<'a>(
    alloc: Global,
    out: &mut DomainParts,
    tokens: &'a [Token],
) -> Result<&'a [Token], SyntaxError>
    ensures { Gives (λ rest. (out.new, rest.now)) result (domain_key limited out.old tokens.now) }
{
    if spells(TokenKind::Key, b":requirements", tokens) {
        requirements_section(alloc, out, tokens)
    } else if spells(TokenKind::Key, b":types", tokens) {
        types_section(alloc, out, tokens)
    } else if spells(TokenKind::Key, b":constants", tokens) {
        constants_section(alloc, out, tokens)
    } else if spells(TokenKind::Key, b":predicates", tokens) {
        predicates_section(alloc, out, tokens)
    } else if spells(TokenKind::Key, b":functions", tokens) {
        functions_section(out, tokens)
    } else if spells(TokenKind::Key, b":action", tokens) {
        action_section(alloc, out, tokens)
    } else {
        Err(no_section(tokens))
    }
}

#[tactic(auto, unfolding(pb_pddl::specs::Reading::domain_section))]
fn domain_section<'a>(
    alloc: Global,
    out: &mut DomainParts,
    tokens: &'a [Token],
) -> Result<&'a [Token], SyntaxError>
    ensures { Gives (λ rest. (out.new, rest.now)) result
        (domain_section limited out.old tokens.now) }
{
    let inside = need(TokenKind::Open, Want::Paren, tokens)?;
    domain_key(alloc, out, inside)
}

fn domain_sections<'a>(
    alloc: Global,
    out: &mut DomainParts,
    tokens: &'a [Token],
) -> Result<&'a [Token], SyntaxError>
    ensures { Gives (λ rest. (out.new, rest.now)) result
        (all_of begins_open (domain_section limited) out.old tokens.now) }
{
    let mut rest = tokens;
    // Each round takes a token or fails, so no more rounds are needed.
    for _ in 0..tokens.len() {
        if !begins(TokenKind::Open, rest) {
            return Ok(rest);
        }
        rest = domain_section(alloc, out, rest)?;
    }
    Ok(rest)
}

// The first words of a form: `( define ( WORD`.
#[tactic(auto, unfolding(crate::specs::Forms::head_at))]
fn head<'a>(word: &[u8], tokens: &'a [Token]) -> Result<&'a [Token], SyntaxError>
    ensures { Gives (λ x. x.now) result (head_at word.now tokens.now) }
{
    let rest = need(TokenKind::Open, Want::Paren, tokens)?;
    let rest = need_word(b"define", rest)?;
    let rest = need(TokenKind::Open, Want::Paren, rest)?;
    need_word(word, rest)
}

/// The name of a form.
#[tactic(auto, using(crate::proofs::Steps::title_in_steps))]
pub fn title<'a>(
    alloc: Global,
    word: &[u8],
    tokens: &'a [Token],
) -> Result<(Name, &'a [Token]), SyntaxError>
    ensures { Gives (λ x. (x.0, x.1.now)) result (title_at word.now tokens.now) }
{
    let rest = head(word, tokens)?;
    let (name, rest) = name(alloc, TokenKind::Word, Want::Name, rest)?;
    let rest = need(TokenKind::Close, Want::Close, rest)?;
    Ok((name, rest))
}

/// Nothing comes after the whole form.
#[tactic(auto, unfolding(pb_pddl::specs::Reading::end_at))]
pub fn end(tokens: &[Token]) -> Result<&[Token], SyntaxError>
    ensures { Gives (λ x. x.now) result (end_at tokens.now) }
{
    if begins(TokenKind::End, tokens) {
        Ok(tokens)
    } else if begins(TokenKind::Byte, tokens) {
        Err(SyntaxError::Byte { at: place(tokens) })
    } else if begins(TokenKind::Deep, tokens) {
        Err(SyntaxError::Deep { at: place(tokens) })
    } else {
        Err(SyntaxError::Extra { at: place(tokens) })
    }
}

// The sections of a domain, the `)` after them, and the end of the text.
#[tactic(auto, unfolding(crate::specs::Forms::whole_domain))]
fn whole_domain(alloc: Global, out: &mut DomainParts, tokens: &[Token]) -> Result<(), SyntaxError>
    ensures { Gives (λ _. out.new) result (whole_domain out.old tokens.now) }
{
    let rest = domain_sections(alloc, out, tokens)?;
    let rest = need(TokenKind::Close, Want::Paren, rest)?;
    // Called for its error alone: no token is left to be read.
    let _end = end(rest)?;
    Ok(())
}

/// The domain that these tokens are.
#[tactic(auto, using(crate::proofs::Steps::domain_in_steps))]
pub fn domain(alloc: Global, tokens: &[Token]) -> Result<Domain, SyntaxError>
    ensures { Gives (λ domain. domain) result (domain_at limited tokens.now) }
{
    let (name, rest) = title(alloc, b"domain", tokens)?;
    let mut all = DomainParts {
        requirements: false,
        types: None,
        constants: None,
        predicates: None,
        functions: false,
        has_cost: false,
        actions: Listed::new(alloc),
    };
    whole_domain(alloc, &mut all, rest)?;
    Ok(Domain {
        name,
        types: or_empty(alloc, all.types),
        constants: or_empty(alloc, all.constants),
        predicates: or_empty(alloc, all.predicates),
        actions: all.actions,
        has_cost: all.has_cost,
    })
}
