//! A certificate from its first byte to its last.
ghost use Rattle.std.specs.Prelude.{◌≡◌, ◌≤◌, ◌+◌, ◌<◌, ◌^◌, length, IfOk, Some, None, Option, Err, Ok, Result, true};
ghost use Rattle.pb_packed.specs.Sizes.{most_digits};
ghost use Rattle.pb_estimate.specs.Spelling.{head_lines};
ghost use Rattle.pb_check.specs.Faults.{Gives};
ghost use Rattle.pb_check.specs.Reading.{plan_lines, line_at, number_behind, weight_in, fixed_at, number_at, weight_at, actions_at, steps_at, plan_at, end_at, head_at, text_of};
ghost use Rattle.pb_check.specs.Words.{words_for};
ghost use Rattle.pb_check.specs.Fronts.{rows_while, ending, front_at, text_by};
ghost use Rattle.pb_check.specs.Kept.{IsSpelledAs, GivesKept};

use crate::actions::actions_at;
use crate::fault::{CertificateFault, CheckError};
use crate::feeds::count_feeds;
use crate::front::{Spelled, room_by, spell};
use crate::heads::head_at;
use crate::kept::KeptRows;
use crate::line::{fixed_at, line_at, number_at, number_behind, weight_in};
use crate::rows::StatedRows;
use crate::stated::{StatedFront, StatedPlan, StatedText, StatedWeight};
use pb_lines::is_text;
use std::alloc::Global;

#[tactic(auto, unfolding(crate::specs::Reading::weight_at))]
fn weight_at(line: u64, text: &[u8]) -> Result<(StatedWeight, &[u8]), CheckError>
    ensures gives { Gives (λ x. (record { num = x.0.num; den = x.0.den }, x.1.now)) result
        (weight_at line text.now) }
    ensures shorter { IfOk result (λ x. length x.1.now + 1 ≤ length text.now) }
{
    let (first, rest) = line_at(line, text)?;
    let weight = weight_in(line, first)?;
    Ok((weight, rest))
}

#[tactic(auto, unfolding(crate::specs::Reading::steps_at))]
fn steps_at(count: u64, line: u64, text: &[u8]) -> Result<(StatedPlan<'_>, &[u8]), CheckError>
    requires { line + length text.now < 2 ^ 64 }
    ensures gives { Gives (λ x. (x.0, x.1.now)) result (steps_at count line text.now) }
    ensures shorter { IfOk result (λ x. length x.1.now + 1 + length x.0.actions ≤ length text.now) }
{
    let (actions, rest) = actions_at(count, line, text)?;
    let (cost, rest) = number_at(line + count, rest, b"cost ")?;
    Ok((StatedPlan { actions, cost }, rest))
}

#[tactic(auto, unfolding(crate::specs::Reading::plan_at))]
fn plan_at(line: u64, text: &[u8]) -> Result<(Option<StatedPlan<'_>>, &[u8]), CheckError>
    requires { line + length text.now < 2 ^ 64 }
    ensures gives { Gives (λ x. (x.0, x.1.now)) result (plan_at line text.now) }
    ensures shorter { IfOk result (λ x. length x.1.now + plan_lines x.0 ≤ length text.now) }
{
    let (first, rest) = line_at(line, text)?;
    if is_text(first, b"none") {
        return Ok((None, rest));
    }
    let count = number_behind(line, first, b"plan ")?;
    let (plan, rest) = steps_at(count, line + 1, rest)?;
    Ok((Some(plan), rest))
}

#[tactic(auto, unfolding(crate::specs::Reading::end_at))]
fn end_at(line: u64, text: &[u8]) -> Result<(), CheckError>
    requires { line + length text.now < 2 ^ 64 }
    ensures gives { Gives (λ _. true) result (end_at line text.now) }
    ensures some { IfOk result (λ x. 1 ≤ length text.now) }
{
    let rest = fixed_at(line, text, b"end")?;
    if rest.len() == 0 {
        Ok(())
    } else {
        Err(CheckError::Fault(CertificateFault::Syntax { line: line + 1 }))
    }
}

// How many lines the plan takes.
fn plan_lines(plan: &Option<StatedPlan<'_>>) -> u64
    requires { plan_lines plan.now < 2 ^ 64 }
    ensures { result ≡ plan_lines plan.now }
{
    match plan {
        None => 1,
        Some(route) => route.actions.len() + 2,
    }
}

/// What the bytes say before the rows, and the text of the rows.
#[tactic(auto, unfolding(crate::specs::Fronts::front_at))]
pub fn front_at(alloc: Global, bytes: &[u8]) -> Result<(StatedFront<'_>, &[u8]), CheckError>
    requires { length bytes.now < 2 ^ 63 }
    ensures gives { Gives (λ x. (x.0, x.1.now)) result (front_at bytes.now) }
    ensures few { IfOk result (λ x. x.0.first + length x.1.now ≤ 2 ^ 63) }
    ensures shorter { IfOk result (λ x. length x.1.now ≤ length bytes.now) }
    ensures some { IfOk result (λ x. 1 ≤ x.0.spelling.width) }
    ensures most { IfOk result (λ x. x.0.spelling.width ≤ most_digits) }
{
    let (spelling, rest) = head_at(alloc, bytes)?;
    let line = 1 + spelling.head_lines() as u64;
    let (weight, rest) = weight_at(line, rest)?;
    let (plan, rest) = plan_at(line + 1, rest)?;
    let lines = plan_lines(&plan);
    let (count, rest) = number_at(line + 1 + lines, rest, b"rows ")?;
    let front = StatedFront {
        spelling,
        weight,
        plan,
        count,
        first: line + 2 + lines,
    };
    Ok((front, rest))
}

// The text behind the rows at its front, of which so many bytes are left.
fn rest_of(width: u32, text: &[u8], left: usize) -> &[u8]
    requires { left ≡ length (rows_while width text.now).1 }
    ensures { result.now ≡ (rows_while width text.now).1 }
{
    // Only the contract speaks of the width.
    let _ = width;
    &text[text.len() - left..]
}

// Goes on only if there are as many rows as stated, and then the end.
fn need_end(count: u64, line: u64, found: u64, rest: &[u8]) -> Result<(), CheckError>
    requires { line + found + length rest.now < 2 ^ 64 }
    ensures gives { Gives (λ _. true) result (ending count line found rest.now) }
    ensures some { IfOk result (λ x. (found ≡ count) × (1 ≤ length rest.now)) }
{
    if found < count {
        return Err(CheckError::Fault(CertificateFault::Syntax { line: line + found }));
    }
    if count < found {
        return Err(CheckError::Fault(CertificateFault::Syntax { line: line + count }));
    }
    end_at(line + count, rest)
}

/// What the bytes say, or their first line that is not spelled as it must be: by what is read
/// before the rows, and the rows that were found behind it.
pub fn text_by<'a>(
    front: StatedFront<'a>,
    text: &[u8],
    spelled: Spelled,
) -> Result<StatedText<'a>, CheckError>
    requires few { front.first + length text.now ≤ 2 ^ 63 }
    requires spelled { IsSpelledAs spelled (words_for front.spelling.width)
        (rows_while front.spelling.width text.now) }
    ensures kept { GivesKept result
        (text_by front.entry (rows_while front.entry.spelling.width text.now)) }
    ensures few { IfOk result (λ x. x.first + length x.certificate.lines < 2 ^ 63) }
{
    let rest = rest_of(front.spelling.width, text, spelled.left);
    need_end(front.count, front.first, spelled.count, rest)?;
    let KeptRows {
        states,
        costs,
        closed,
        ..
    } = spelled.rows;
    Ok(StatedText {
        spelling: front.spelling,
        weight: front.weight,
        plan: front.plan,
        rows: StatedRows {
            states,
            costs,
            closed,
        },
        first: front.first,
    })
}

/// What the bytes say, with the rows that are kept, or their first line that is not spelled as it
/// must be.
pub fn text_of(alloc: Global, bytes: &[u8]) -> Result<StatedText<'_>, CheckError>
    requires { length bytes.now < 2 ^ 63 }
    ensures kept { GivesKept result (text_of bytes.now) }
    ensures few { IfOk result (λ x. x.first + length x.certificate.lines < 2 ^ 63) }
{
    let (front, rest) = front_at(alloc, bytes)?;
    let width = front.spelling.width;
    let room = room_by(count_feeds(rest), width, rest);
    let spelled = spell(alloc, width, rest, room)?;
    text_by(front, rest, spelled)
}
