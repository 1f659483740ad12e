//! Costs of actions: the declaration of `total-cost`, its increases, and its value in `:init`.
ghost use Rattle.std.specs.Prelude.{◌≡◌, true, codes, drop, Ok};
ghost use Rattle.pb_pddl.specs.Numbers.{is_number, number_of};
ghost use Rattle.pb_pddl.specs.Reading.{Gives, front, total_cost_at, begins_number, number_at, cost_at, add_increase, add_equal, number_type, function_type, one_function, functions_at};

use crate::pieces::{begins, behind, fault, left_out, need, only_word, place, spells};
use pb_lines::short_number_of;
use pb_pddl::{Cost, EffectParts, InitParts, LeftOut, SyntaxError, Token, TokenKind, Want};

/// `( total-cost )`: the place of the word.
#[tactic(auto, unfolding(pb_pddl::specs::Reading::total_cost_at))]
pub fn total_cost(tokens: &[Token]) -> Result<(u64, &[Token]), SyntaxError>
    ensures { Gives (λ x. (x.0, x.1.now)) result (total_cost_at tokens.now) }
{
    let inside = need(TokenKind::Open, Want::Paren, tokens)?;
    let last = only_word(b"total-cost", LeftOut::Function, inside)?;
    let rest = need(TokenKind::Close, Want::Close, last)?;
    Ok((place(inside), rest))
}

// Whether a word is a number.
fn is_number(word: &[u8]) -> bool
    ensures { result ≡ is_number word.now }
{
    short_number_of(word).is_some()
}

// The number that a word is; 0 for any other.
fn value_of(word: &[u8]) -> u64
    ensures { is_number word.now ≡ true → result ≡ number_of word.now }
{
    match short_number_of(word) {
        None => 0,
        Some(number) => u64::from(number),
    }
}

// Whether the first token has the text of a number.
#[tactic(auto, unfolding(pb_pddl::specs::Reading::front))]
fn is_number_first(tokens: &[Token]) -> bool
    ensures { result ≡ is_number (front tokens.now).text }
{
    match tokens {
        [] => is_number(&[]),
        [token, ..] => is_number(token.text.as_slice()),
    }
}

// The number that the first token is.
#[tactic(auto, unfolding(pb_pddl::specs::Reading::front))]
fn first_value(tokens: &[Token]) -> u64
    ensures { is_number (front tokens.now).text ≡ true → result
        ≡ number_of (front tokens.now).text }
{
    match tokens {
        [] => value_of(&[]),
        [token, ..] => value_of(token.text.as_slice()),
    }
}

// Takes a number.
#[tactic(auto, unfolding(pb_pddl::specs::Reading::number_at, pb_pddl::specs::Reading::begins_number))]
fn number(tokens: &[Token]) -> Result<(u64, &[Token]), SyntaxError>
    ensures { Gives (λ x. (x.0, x.1.now)) result (number_at tokens.now) }
{
    if begins(TokenKind::Word, tokens) && is_number_first(tokens) {
        Ok((first_value(tokens), behind(tokens)))
    } else if begins(TokenKind::Open, tokens) {
        Err(left_out(LeftOut::Function, tokens))
    } else {
        Err(fault(Want::Number, tokens))
    }
}

// A cost, at its `increase` or `=`.
#[tactic(auto, unfolding(pb_pddl::specs::Reading::cost_at))]
fn cost(tokens: &[Token]) -> Result<(Cost, &[Token]), SyntaxError>
    ensures { Gives (λ x. (x.0, x.1.now)) result (cost_at tokens.now) }
{
    let (function, numeral) = total_cost(behind(tokens))?;
    let (number, last) = number(numeral)?;
    let rest = need(TokenKind::Close, Want::Close, last)?;
    let cost = Cost {
        at: place(tokens),
        function,
        number,
        number_at: place(numeral),
    };
    Ok((cost, rest))
}

/// Adds a cost to an effect, at its `increase`.
#[tactic(auto, unfolding(pb_pddl::specs::Reading::add_increase))]
pub fn add_increase<'a>(
    out: &mut EffectParts,
    tokens: &'a [Token],
) -> Result<&'a [Token], SyntaxError>
    ensures { Gives (λ rest. (out.new, rest.now)) result (add_increase out.old tokens.now) }
{
    let (cost, rest) = cost(tokens)?;
    out.costs.push(cost)?;
    Ok(rest)
}

/// Adds a cost of `:init`, at its `=`.
#[tactic(auto, unfolding(pb_pddl::specs::Reading::add_equal))]
pub fn add_equal<'a>(out: &mut InitParts, tokens: &'a [Token]) -> Result<&'a [Token], SyntaxError>
    ensures { Gives (λ rest. (out.new, rest.now)) result (add_equal out.old tokens.now) }
{
    let (cost, rest) = cost(tokens)?;
    out.costs.push(cost)?;
    Ok(rest)
}

// Takes the word `number`, after the `-` of `:functions`.
#[tactic(auto, unfolding(pb_pddl::specs::Reading::number_type))]
fn number_type(tokens: &[Token]) -> Result<&[Token], SyntaxError>
    ensures { Gives (λ x. x.now) result (number_type tokens.now) }
{
    if spells(TokenKind::Word, b"number", tokens) {
        Ok(behind(tokens))
    } else if begins(TokenKind::Open, tokens) {
        Err(left_out(LeftOut::Either, tokens))
    } else {
        Err(fault(Want::TypeName, tokens))
    }
}

// What may follow the declared function, and the `)` after it.
#[tactic(auto, unfolding(pb_pddl::specs::Reading::function_type))]
fn function_type(tokens: &[Token]) -> Result<&[Token], SyntaxError>
    ensures { Gives (λ x. x.now) result (function_type tokens.now) }
{
    if begins(TokenKind::Dash, tokens) {
        let last = number_type(behind(tokens))?;
        need(TokenKind::Close, Want::Close, last)
    } else {
        need(TokenKind::Close, Want::Close, tokens)
    }
}

// The declared function, and the `)` after it.
#[tactic(auto, unfolding(pb_pddl::specs::Reading::one_function))]
fn one_function(tokens: &[Token]) -> Result<(bool, &[Token]), SyntaxError>
    ensures { Gives (λ x. (x.0, x.1.now)) result (one_function tokens.now) }
{
    let (_, last) = total_cost(tokens)?;
    let rest = function_type(last)?;
    Ok((true, rest))
}

/// Whether `total-cost` is declared, and the `)` after it.
#[tactic(auto, unfolding(pb_pddl::specs::Reading::functions_at))]
pub fn functions(tokens: &[Token]) -> Result<(bool, &[Token]), SyntaxError>
    ensures { Gives (λ x. (x.0, x.1.now)) result (functions_at tokens.now) }
{
    if begins(TokenKind::Close, tokens) {
        Ok((false, behind(tokens)))
    } else {
        one_function(tokens)
    }
}
