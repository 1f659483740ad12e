//! The domain or the problem that the bytes of a text spell.
ghost use Rattle.std.specs.Prelude.{◌≡◌, ◌≢◌, List, Ok, Err, IfOk, IfErr};
ghost use Rattle.pb_pddl.specs.declared.token.Token.{Token};
ghost use Rattle.pb_pddl.specs.declared.tree.Domain.{Domain};
ghost use Rattle.pb_pddl.specs.declared.tree.Problem.{Problem};
ghost use Rattle.pb_pddl.specs.declared.error.SyntaxError.{SyntaxError};
ghost use Rattle.pb_pddl.specs.declared.error.SyntaxError.TheVariants.{Memory};
ghost use Rattle.pb_pddl.specs.Tokens.{TextTokens};
ghost use Rattle.pb_pddl.specs.Grammar.{IsDomain, IsProblem};
ghost use Rattle.pb_pddl.specs.Trees.{IsRead, SpellsDomain, SpellsProblem, FirstFault};
ghost use Rattle.pb_pddl.specs.Reading.{Gives, unlimited, domain_at, problem_at};
ghost use Rattle.pb_pddl.specs.Readings.{domain_reading, problem_reading};
ghost use Rattle.pb_pddl.specs.Words.{DomainHasWords, ProblemHasWords};
ghost use Rattle.pb_pddl_laws.specs.Table.{ToldFault, domain_form, problem_form};

use crate::domain::domain;
use crate::problem::problem;
use pb_pddl::{Domain, Problem, SyntaxError};
use pb_tokens::tokens;
use std::alloc::Global;

fn domain_of(alloc: Global, text: &[u8]) -> Result<Domain, SyntaxError>
    ensures is { IsRead (domain_at unlimited) text.now result }
    ensures only { (ts : List Token) → TextTokens text.now ts
        → Gives (λ d. d) result (domain_at unlimited ts) }
{
    let list = tokens(alloc, text)?;
    let found = domain(alloc, list.as_slice())?;
    Ok(found)
}

fn problem_of(alloc: Global, text: &[u8]) -> Result<Problem, SyntaxError>
    ensures is { IsRead (problem_at unlimited) text.now result }
    ensures only { (ts : List Token) → TextTokens text.now ts
        → Gives (λ p. p) result (problem_at unlimited ts) }
{
    let list = tokens(alloc, text)?;
    let found = problem(alloc, list.as_slice())?;
    Ok(found)
}

/// The domain that a text spells, each name with the place of its first byte: the STRIPS and typing
/// part of PDDL (McDermott and others, 1998). Each error except `Memory` is at the first token that
/// can't go on. docs/FORMATS.md has the grammar, and why a token is refused.
pub fn read_domain(alloc: Global, text: &[u8]) -> Result<Domain, SyntaxError>
    // The text spells the domain that is read.
    ensures found { IfOk result (SpellsDomain text.now) }
    // A domain that the text spells is read, unless memory runs out.
    ensures only { (d : Domain) → SpellsDomain text.now d → Gives (λ x. x) result (Ok d) }
    // With an error except Memory, the text spells no domain.
    ensures none { IfErr result (λ e. e ≢ Memory → (d : Domain) → SpellsDomain text.now d → ⊥) }
    // The tokens before the error's token begin a domain, that token can't follow, and the error is
    // the first that fits it.
    ensures first { IfErr result (λ e. e ≢ Memory → FirstFault Domain IsDomain text.now e) }
    // By the grammar's table the tokens before it lead to one place, and the error is that of the
    // place.
    ensures told { IfErr result (λ e. e ≢ Memory
        → ToldFault Domain IsDomain domain_form text.now e) }
    // The error of a place is reported, unless memory runs out. A text thus has one error at most.
    ensures fault { (e : SyntaxError) → ToldFault Domain IsDomain domain_form text.now e
        → Gives (λ x. x) result (Err e) }
    // The answer is the one that reading from left to right gives, however deep the parentheses.
    ensures exact { IsRead (domain_at unlimited) text.now result }
    // The same as a function of the text: the answer is its reading, unless memory runs out.
    ensures reading { Gives (λ d. d) result (domain_reading text.now) }
    // The names of actions and constants are words: lower-case letters, digits, `-` and `_` alone.
    ensures words { IfOk result DomainHasWords }
{
    domain_of(alloc, text)
}

/// The problem that a text spells, as `read_domain` reads a domain. Whether it fits a domain isn't
/// looked at.
pub fn read_problem(alloc: Global, text: &[u8]) -> Result<Problem, SyntaxError>
    // The text spells the problem that is read.
    ensures found { IfOk result (SpellsProblem text.now) }
    // A problem that the text spells is read, unless memory runs out.
    ensures only { (p : Problem) → SpellsProblem text.now p → Gives (λ x. x) result (Ok p) }
    // With an error except Memory, the text spells no problem.
    ensures none { IfErr result (λ e. e ≢ Memory → (p : Problem) → SpellsProblem text.now p → ⊥) }
    // The tokens before the error's token begin a problem, that token can't follow, and the error
    // is the first that fits it.
    ensures first { IfErr result (λ e. e ≢ Memory → FirstFault Problem IsProblem text.now e) }
    // By the grammar's table the tokens before it lead to one place, and the error is that of the
    // place.
    ensures told { IfErr result (λ e. e ≢ Memory
        → ToldFault Problem IsProblem problem_form text.now e) }
    // The error of a place is reported, unless memory runs out. A text thus has one error at most.
    ensures fault { (e : SyntaxError) → ToldFault Problem IsProblem problem_form text.now e
        → Gives (λ x. x) result (Err e) }
    // The answer is the one that reading from left to right gives, however deep the parentheses.
    ensures exact { IsRead (problem_at unlimited) text.now result }
    // The same as a function of the text: the answer is its reading, unless memory runs out.
    ensures reading { Gives (λ p. p) result (problem_reading text.now) }
    // The names of objects are words: lower-case letters, digits, `-` and `_` alone.
    ensures words { IfOk result ProblemHasWords }
{
    problem_of(alloc, text)
}
