//! Whole problems and their sections.
ghost use Rattle.std.specs.Prelude.{◌≡◌, [], codes, drop, is_some, true, Ok, OnOk};
ghost use Rattle.pb_syntax.specs.Forms.{whole_problem, problem_of};
ghost use Rattle.pb_pddl.specs.Reading.{Gives, all_of, begins_open, domain_name_section, problem_requirements, objects_section, init_section, goal_section, metric_section, problem_key, problem_section, missing, there, stood_all, sections_want, limited, problem_at};

use crate::action::{DEEPEST, once, or_empty};
use crate::conditions::cond;
use crate::costs::total_cost;
use crate::domain::{end, no_section, title};
use crate::lists::{facts, keys, list};
use crate::pieces::{begins, behind, fault, name, need, only_word, place, spells};
use pb_pddl::{
    Atom, LeftOut, Listed, Name, Problem, ProblemParts, SyntaxError, Token, TokenKind, Typed, Want,
};
use std::alloc::Global;

#[tactic(auto, unfolding(pb_pddl::specs::Reading::domain_name_section))]
fn domain_name_section<'a>(
    alloc: Global,
    out: &mut ProblemParts,
    tokens: &'a [Token],
) -> Result<&'a [Token], SyntaxError>
    ensures { Gives (λ rest. (out.new, rest.now)) result (domain_name_section out.old tokens.now) }
{
    if out.domain.is_some() {
        return Err(once(tokens));
    }
    let (name, rest) = name(alloc, TokenKind::Word, Want::Name, behind(tokens))?;
    let rest = need(TokenKind::Close, Want::Close, rest)?;
    out.domain = Some(name);
    Ok(rest)
}

#[tactic(auto, unfolding(pb_pddl::specs::Reading::problem_requirements))]
fn problem_requirements<'a>(
    alloc: Global,
    out: &mut ProblemParts,
    tokens: &'a [Token],
) -> Result<&'a [Token], SyntaxError>
    ensures { Gives (λ rest. (out.new, rest.now)) result (problem_requirements out.old tokens.now) }
{
    if out.requirements {
        return Err(once(tokens));
    }
    let rest = keys(alloc, behind(tokens))?;
    out.requirements = true;
    Ok(rest)
}

#[tactic(auto, unfolding(pb_pddl::specs::Reading::objects_section))]
fn objects_section<'a>(
    alloc: Global,
    out: &mut ProblemParts,
    tokens: &'a [Token],
) -> Result<&'a [Token], SyntaxError>
    ensures { Gives (λ rest. (out.new, rest.now)) result (objects_section out.old tokens.now) }
{
    if out.objects.is_some() {
        return Err(once(tokens));
    }
    let (objects, rest) = list(alloc, TokenKind::Word, Want::Name, behind(tokens))?;
    out.objects = Some(objects);
    Ok(rest)
}

#[tactic(auto, unfolding(pb_pddl::specs::Reading::init_section))]
fn init_section<'a>(
    alloc: Global,
    out: &mut ProblemParts,
    tokens: &'a [Token],
) -> Result<&'a [Token], SyntaxError>
    ensures { Gives (λ rest. (out.new, rest.now)) result (init_section out.old tokens.now) }
{
    if out.init.is_some() {
        return Err(once(tokens));
    }
    let (init, rest) = facts(alloc, behind(tokens))?;
    out.init = Some(init.atoms);
    out.costs = init.costs;
    Ok(rest)
}

#[tactic(auto, unfolding(pb_pddl::specs::Reading::goal_section, pb_pddl::specs::Reading::limited))]
fn goal_section<'a>(
    alloc: Global,
    out: &mut ProblemParts,
    tokens: &'a [Token],
) -> Result<&'a [Token], SyntaxError>
    ensures { Gives (λ rest. (out.new, rest.now)) result (goal_section limited out.old tokens.now) }
{
    if out.goal.is_some() {
        return Err(once(tokens));
    }
    let mut goal = Listed::new(alloc);
    let rest = cond(alloc, false, DEEPEST, &mut goal, behind(tokens))?;
    let rest = need(TokenKind::Close, Want::Close, rest)?;
    out.goal = Some(goal);
    Ok(rest)
}

#[tactic(auto, unfolding(pb_pddl::specs::Reading::metric_section))]
fn metric_section<'a>(
    out: &mut ProblemParts,
    tokens: &'a [Token],
) -> Result<&'a [Token], SyntaxError>
    ensures { Gives (λ rest. (out.new, rest.now)) result (metric_section out.old tokens.now) }
{
    if out.metric.is_some() {
        return Err(once(tokens));
    }
    let word = only_word(b"minimize", LeftOut::Metric, behind(tokens))?;
    let (function, last) = total_cost(word)?;
    let rest = need(TokenKind::Close, Want::Close, last)?;
    out.metric = Some(function);
    Ok(rest)
}

#[tactic(auto, unfolding(pb_pddl::specs::Reading::problem_key))]
fn problem_key<'a>(
    alloc: Global,
    out: &mut ProblemParts,
    tokens: &'a [Token],
) -> Result<&'a [Token], SyntaxError>
    ensures { Gives (λ rest. (out.new, rest.now)) result (problem_key limited out.old tokens.now) }
{
    if spells(TokenKind::Key, b":domain", tokens) {
        domain_name_section(alloc, out, tokens)
    } else if spells(TokenKind::Key, b":requirements", tokens) {
        problem_requirements(alloc, out, tokens)
    } else if spells(TokenKind::Key, b":objects", tokens) {
        objects_section(alloc, out, tokens)
    } else if spells(TokenKind::Key, b":init", tokens) {
        init_section(alloc, out, tokens)
    } else if spells(TokenKind::Key, b":goal", tokens) {
        goal_section(alloc, out, tokens)
    } else if spells(TokenKind::Key, b":metric", tokens) {
        metric_section(out, tokens)
    } else {
        Err(no_section(tokens))
    }
}

// Whether each section came, so that no more may come.
#[tactic(auto, unfolding(pb_pddl::specs::Reading::stood_all))]
fn stood_all(parts: &ProblemParts) -> bool
    ensures { result ≡ stood_all parts.now }
{
    parts.requirements
        && parts.domain.is_some()
        && parts.objects.is_some()
        && parts.init.is_some()
        && parts.goal.is_some()
        && parts.metric.is_some()
}

// What is wanted after these sections.
#[tactic(auto, unfolding(pb_pddl::specs::Reading::sections_want))]
fn sections_want(parts: &ProblemParts) -> Want
    ensures { result ≡ sections_want parts.now }
{
    if stood_all(parts) {
        Want::Close
    } else {
        Want::Paren
    }
}

#[tactic(auto, unfolding(pb_pddl::specs::Reading::problem_section))]
fn problem_section<'a>(
    alloc: Global,
    out: &mut ProblemParts,
    tokens: &'a [Token],
) -> Result<&'a [Token], SyntaxError>
    ensures { Gives (λ rest. (out.new, rest.now)) result
        (problem_section limited out.old tokens.now) }
{
    // Each section may come once, so after all six a `(` itself is refused.
    if stood_all(out) {
        return Err(fault(Want::Close, tokens));
    }
    let inside = need(TokenKind::Open, Want::Paren, tokens)?;
    problem_key(alloc, out, inside)
}

fn problem_sections<'a>(
    alloc: Global,
    out: &mut ProblemParts,
    tokens: &'a [Token],
) -> Result<&'a [Token], SyntaxError>
    ensures { Gives (λ rest. (out.new, rest.now)) result
        (all_of begins_open (problem_section limited) out.old tokens.now) }
{
    let mut rest = tokens;
    // Each round takes a token or fails, so no more rounds are needed.
    for _ in 0..tokens.len() {
        if !begins(TokenKind::Open, rest) {
            return Ok(rest);
        }
        rest = problem_section(alloc, out, rest)?;
    }
    Ok(rest)
}

// At the last `)`, if a section that must be there is missing.
#[tactic(auto, unfolding(pb_pddl::specs::Reading::missing))]
fn missing(tokens: &[Token]) -> SyntaxError
    ensures { result ≡ missing tokens.now }
{
    SyntaxError::Expected {
        at: place(tokens),
        want: Want::Missing,
    }
}

// A section that must be there, at the last `)`.
#[tactic(auto, unfolding(pb_pddl::specs::Reading::there))]
fn there<'a, T>(section: &'a Option<T>, tokens: &[Token]) -> Result<&'a T, SyntaxError>
    ensures read { Gives (λ x. x.now) result (there section.now tokens.now) }
    ensures some { OnOk result (is_some section.now ≡ true) }
{
    match section {
        None => Err(missing(tokens)),
        Some(x) => Ok(x),
    }
}

// The sections of a problem with those that must be there, the `)` after them, and the end of the
// text.
#[tactic(auto, unfolding(crate::specs::Forms::whole_problem))]
fn whole_problem(alloc: Global, out: &mut ProblemParts, tokens: &[Token]) -> Result<(), SyntaxError>
    ensures read { Gives (λ _. out.new) result (whole_problem out.old tokens.now) }
    ensures domain { OnOk result (is_some out.new.domain ≡ true) }
    ensures goal { OnOk result (is_some out.new.goal ≡ true) }
{
    let last = problem_sections(alloc, out, tokens)?;
    let rest = need(TokenKind::Close, sections_want(out), last)?;
    // `Missing` is an error at the last `)`, so that is looked for first.
    let _domain = there(&out.domain, last)?;
    let _goal = there(&out.goal, last)?;
    let _end = end(rest)?;
    Ok(())
}

// The problem with this name and these sections.
#[tactic(auto, unfolding(crate::specs::Forms::problem_of, pb_pddl::specs::Reading::there))]
fn problem_of(alloc: Global, name: Name, parts: ProblemParts) -> Problem
    requires domain { is_some parts.domain ≡ true }
    requires goal { is_some parts.goal ≡ true }
    ensures { problem_of name parts [] ≡ Ok result }
{
    Problem {
        name,
        domain: parts.domain.unwrap(),
        objects: or_empty(alloc, parts.objects),
        init: or_empty(alloc, parts.init),
        goal: parts.goal.unwrap(),
        costs: parts.costs,
        metric: parts.metric,
    }
}

/// The problem that these tokens are.
#[tactic(auto, using(crate::proofs::Steps::problem_in_steps))]
pub fn problem(alloc: Global, tokens: &[Token]) -> Result<Problem, SyntaxError>
    ensures { Gives (λ problem. problem) result (problem_at limited tokens.now) }
{
    let (name, rest) = title(alloc, b"problem", tokens)?;
    let mut all = ProblemParts {
        requirements: false,
        domain: None,
        objects: None,
        init: None,
        goal: None,
        costs: Listed::new(alloc),
        metric: None,
    };
    whole_problem(alloc, &mut all, rest)?;
    Ok(problem_of(alloc, name, all))
}
