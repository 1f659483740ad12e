//! Laws of the definitions in `pb_pddl`; the crate has no code that runs:
//!
//! - The reading of a list of tokens is the one that the grammar has.
//! - An error is at the first token that can't go on.
//! - The limit on nested parentheses changes neither.
//! - A text has one list of tokens.
//! - The names in its tree are words.
#![tactic(auto)]

ghost use Rattle.std.specs.Prelude.{◌≡◌, ℕ, List, Ok, Err};
ghost use Rattle.pb_pddl.specs.declared.error.SyntaxError.{SyntaxError};
ghost use Rattle.pb_pddl.specs.declared.token.Token.{Token};
ghost use Rattle.pb_pddl.specs.declared.tree.Domain.{Domain};
ghost use Rattle.pb_pddl.specs.declared.tree.Problem.{Problem};
ghost use Rattle.pb_pddl.specs.Tokens.{TextTokens};
ghost use Rattle.pb_pddl.specs.Reading.{limited, unlimited, domain_at, problem_at};
ghost use Rattle.pb_pddl.specs.Grammar.{IsDomain, IsProblem};
ghost use Rattle.pb_pddl.specs.Places.{IsFault};
ghost use Rattle.pb_pddl_laws.specs.Table.{Symbol, Leads, IsWhole, IsTold, domain_form, problem_form};
ghost use Rattle.pb_pddl.specs.Trees.{SpellsDomain, SpellsProblem};
ghost use Rattle.pb_pddl.specs.Readings.{tokens_of};
ghost use Rattle.pb_pddl.specs.Words.{DomainHasWords, ProblemHasWords};

/// A law: tokens are read as a domain if and only if the grammar has them as that domain.
pub fn domain_reading_is_exact()
    ensures sound { (ts : List Token) (domain : Domain) → domain_at unlimited ts ≡ Ok domain
        → IsDomain ts domain }
    ensures complete { (ts : List Token) (domain : Domain) → IsDomain ts domain
        → domain_at unlimited ts ≡ Ok domain }
{}

/// A law: tokens are read as a problem if and only if the grammar has them as that problem.
pub fn problem_reading_is_exact()
    ensures sound { (ts : List Token) (problem : Problem) → problem_at unlimited ts ≡ Ok problem
        → IsProblem ts problem }
    ensures complete { (ts : List Token) (problem : Problem) → IsProblem ts problem
        → problem_at unlimited ts ≡ Ok problem }
{}

/// A law: the tokens before a refused token are the beginning of a form, and the refused token
/// can't follow them. The error is the first that fits that token.
pub fn error_is_first()
    ensures domain { (ts : List Token) (e : SyntaxError) → domain_at unlimited ts ≡ Err e
        → IsFault Domain IsDomain ts e }
    ensures problem { (ts : List Token) (e : SyntaxError) → problem_at unlimited ts ≡ Err e
        → IsFault Problem IsProblem ts e }
{}

/// A law: the tokens before a place fix the place, since they fix what is due.
pub fn place_is_one()
    ensures { (whole : List Symbol) (before : List Token) (due other : List Symbol)
        → Leads whole before due → Leads whole before other → due ≡ other }
{}

/// A law: the table has the whole forms that the grammar has.
pub fn table_is_the_grammar()
    ensures domain { (ts : List Token) → IsWhole domain_form ts
        → (domain : Domain) × IsDomain ts domain }
    ensures problem { (ts : List Token) → IsWhole problem_form ts
        → (problem : Problem) × IsProblem ts problem }
    ensures domain_whole { (ts : List Token) (domain : Domain) → IsDomain ts domain
        → IsWhole domain_form ts }
    ensures problem_whole { (ts : List Token) (problem : Problem) → IsProblem ts problem
        → IsWhole problem_form ts }
{}

/// A law: the tokens before a refused token lead to only one place, and that place gives the error.
pub fn error_is_told()
    ensures domain { (ts : List Token) (e : SyntaxError) → domain_at unlimited ts ≡ Err e
        → IsTold Domain IsDomain domain_form ts e }
    ensures problem { (ts : List Token) (e : SyntaxError) → problem_at unlimited ts ≡ Err e
        → IsTold Problem IsProblem problem_form ts e }
{}

/// A law: tokens have no other error than the one that reading them gives. There is thus one error
/// at most.
pub fn told_error_is_read()
    ensures domain { (ts : List Token) (e : SyntaxError) → IsTold Domain IsDomain domain_form ts e
        → domain_at unlimited ts ≡ Err e }
    ensures problem { (ts : List Token) (e : SyntaxError)
        → IsTold Problem IsProblem problem_form ts e → problem_at unlimited ts ≡ Err e }
{}

/// A law: in the tokens of a text a `(` that is too deep is refused before the limit on recursion
/// could decide. What is read within the limit is thus what is read without any.
pub fn limit_never_decides()
    ensures domain { (text : List ℕ) (ts : List Token) → TextTokens text ts
        → domain_at unlimited ts ≡ domain_at limited ts }
    ensures problem { (text : List ℕ) (ts : List Token) → TextTokens text ts
        → problem_at unlimited ts ≡ problem_at limited ts }
{}

/// A law: each text has tokens, which are those that `tokens_of` gives.
pub fn texts_have_tokens()
    ensures { (text : List ℕ) → TextTokens text (tokens_of text) }
{}

/// A law: a text has no other tokens than those that `tokens_of` gives.
pub fn tokens_are_unique()
    ensures { (text : List ℕ) (ts : List Token) → TextTokens text ts → ts ≡ tokens_of text }
{}

/// A law: if a text spells a tree, the names of its actions and constants, or of its objects, are
/// words. A word is of lower-case letters, digits, `-` and `_` alone, and begins with a letter or a
/// digit.
pub fn names_are_words()
    ensures domain { (text : List ℕ) (domain : Domain) → SpellsDomain text domain
        → DomainHasWords domain }
    ensures problem { (text : List ℕ) (problem : Problem) → SpellsProblem text problem
        → ProblemHasWords problem }
{}
