//! The lines before the weight, and the choice of an estimate that they state.
ghost use Rattle.std.specs.Prelude.{◌≡◌, ◌≤◌, ◌+◌, ◌<◌, ◌^◌, length, IfOk, Err, Ok, Result, true};
ghost use Rattle.pb_packed.specs.Sizes.{most_digits};
ghost use Rattle.pb_estimate.specs.Estimates.{suits};
ghost use Rattle.pb_estimate.specs.Spelling.{width_text, estimate_text, stated_text, head_lines};
ghost use Rattle.pb_table_lines.specs.Reading.{tables_at};
ghost use Rattle.pb_check.specs.Faults.{Gives};
ghost use Rattle.pb_check.specs.Reading.{line_at, version_in, kind_in, kind_for, width_in, grounding_in, estimate_in, number_at, version_at, kind_at, width_line_at, width_at, grounding_at, tables_read, estimate_at, stated_at, head_at, suiting, stated_choice};

use crate::fault::{CertificateFault, CheckError};
use crate::line::{
    estimate_in, grounding_in, kind_for, kind_in, line_at, number_at, version_in, width_in,
};
use pb_estimate::{Choice, Spelling, Stated, Version};
use pb_lines::behind;
use pb_packed::DIGITS;
use pb_table_lines::{LinesError, tables_at};
use pb_task::{Grounding, Kind, Task};
use std::alloc::{AllocError, Global};
use std::sync::Arc;

#[tactic(auto, unfolding(crate::specs::Reading::version_at))]
fn version_at(line: u64, text: &[u8]) -> Result<(Version, &[u8]), CheckError>
    ensures gives { Gives (λ x. (x.0, x.1.now)) result (version_at line text.now) }
    ensures shorter { IfOk result (λ x. length x.1.now + 1 ≤ length text.now) }
{
    let (first, rest) = line_at(line, text)?;
    let version = version_in(line, first)?;
    Ok((version, rest))
}

#[tactic(auto, unfolding(crate::specs::Reading::kind_at))]
fn kind_at(version: Version, line: u64, text: &[u8]) -> Result<(Kind, &[u8]), CheckError>
    ensures gives { Gives (λ x. (x.0, x.1.now)) result (kind_at version line text.now) }
    ensures shorter { IfOk result (λ x. length x.1.now + 1 ≤ length text.now) }
{
    let (first, rest) = line_at(line, text)?;
    let said = kind_in(line, first)?;
    let kind = kind_for(version, line, said)?;
    Ok((kind, rest))
}

// How many digits a state has, as a line says it.
#[tactic(auto, unfolding(crate::specs::Reading::width_line_at))]
fn width_line_at(line: u64, text: &[u8]) -> Result<(u32, &[u8]), CheckError>
    ensures gives { Gives (λ x. (x.0, x.1.now)) result (width_line_at line text.now) }
    ensures shorter { IfOk result (λ x. length x.1.now + 1 ≤ length text.now) }
    ensures some { IfOk result (λ x. 1 ≤ x.0) }
    ensures most { IfOk result (λ x. x.0 ≤ most_digits) }
{
    let (first, rest) = line_at(line, text)?;
    let width = width_in(line, first)?;
    Ok((width, rest))
}

// How many digits a state has.
#[tactic(auto, unfolding(crate::specs::Reading::width_at))]
fn width_at(version: Version, line: u64, text: &[u8]) -> Result<(u32, &[u8]), CheckError>
    ensures gives { Gives (λ x. (x.0, x.1.now)) result (width_at version line text.now) }
    ensures shorter { IfOk result (λ x. length x.1.now + length (width_text version x.0)
        ≤ length text.now) }
    ensures some { IfOk result (λ x. 1 ≤ x.0) }
    ensures most { IfOk result (λ x. x.0 ≤ most_digits) }
{
    match version {
        Version::One => Ok((DIGITS as u32, text)),
        Version::Two | Version::Three | Version::Four => width_line_at(line, text),
    }
}

#[tactic(auto, unfolding(crate::specs::Reading::grounding_at))]
fn grounding_at(line: u64, text: &[u8]) -> Result<(Grounding, &[u8]), CheckError>
    ensures gives { Gives (λ x. (x.0, x.1.now)) result (grounding_at line text.now) }
    ensures shorter { IfOk result (λ x. length x.1.now + 1 ≤ length text.now) }
{
    let (first, rest) = line_at(line, text)?;
    let grounding = grounding_in(line, first)?;
    Ok((grounding, rest))
}

// The choice of the tables that a text begins with.
fn tables_choice_at(
    alloc: Global,
    width: u32,
    line: u64,
    text: &[u8],
) -> Result<(Choice, &[u8]), CheckError>
    requires some { 1 ≤ width }
    requires most { width ≤ most_digits }
    requires lines { line + length text.now < 2 ^ 64 }
    ensures gives { Gives (λ x. (x.0, x.1.now)) result
        (tables_read (tables_at width line text.now)) }
    ensures shorter { IfOk result (λ x. length x.1.now + length (estimate_text width x.0)
        ≤ length text.now) }
{
    match tables_at(alloc, width, line, text) {
        Ok((tables, place)) => {
            let choice = Choice::of_tables(Arc::new(alloc, tables)?);
            Ok((choice, place.text))
        }
        Err(LinesError::Unspelled { line }) => Err(CheckError::Fault(CertificateFault::Syntax {
            line,
        })),
        Err(LinesError::Memory) => Err(CheckError::Memory),
    }
}

// The choice of an estimate, as the lines of version 4 say it: one line, or those of tables.
#[tactic(auto, unfolding(crate::specs::Reading::estimate_at))]
fn estimate_at(
    alloc: Global,
    width: u32,
    line: u64,
    text: &[u8],
) -> Result<(Choice, &[u8]), CheckError>
    requires some { 1 ≤ width }
    requires most { width ≤ most_digits }
    requires lines { line + length text.now < 2 ^ 64 }
    ensures gives { Gives (λ x. (x.0, x.1.now)) result (estimate_at width line text.now) }
    ensures shorter { IfOk result (λ x. length x.1.now + length (estimate_text width x.0)
        ≤ length text.now) }
{
    let (first, rest) = line_at(line, text)?;
    if behind(first, b"estimate tables ").is_some() {
        // This line is the first of the tables, so they are read from it on and not behind it.
        return tables_choice_at(alloc, width, line, text);
    }
    let choice = estimate_in(line, first)?;
    Ok((choice, rest))
}

// What is stated besides: in version 4 the grounding and the choice of an estimate, and in version
// 3 the number of a pattern. What isn't stated is that all ground atoms and actions have numbers,
// and the plain choice.
#[tactic(auto, unfolding(crate::specs::Reading::stated_at))]
fn stated_at(
    alloc: Global,
    version: Version,
    width: u32,
    line: u64,
    text: &[u8],
) -> Result<(Stated, &[u8]), CheckError>
    requires some { 1 ≤ width }
    requires most { width ≤ most_digits }
    requires lines { line + length text.now < 2 ^ 64 }
    ensures gives { Gives (λ x. (x.0, x.1.now)) result (stated_at version width line text.now) }
    ensures shorter { IfOk result (λ x. length x.1.now + length (stated_text version width x.0)
        ≤ length text.now) }
{
    match version {
        Version::One | Version::Two => {
            let stated = Stated {
                grounding: Grounding::All,
                choice: Choice::plain(),
            };
            Ok((stated, text))
        }
        Version::Three => {
            let (number, rest) = number_at(line, text, b"pattern ")?;
            let stated = Stated {
                grounding: Grounding::All,
                choice: Choice::of_pattern(number),
            };
            Ok((stated, rest))
        }
        Version::Four => {
            let (grounding, rest) = grounding_at(line, text)?;
            let (choice, rest) = estimate_at(alloc, width, line + 1, rest)?;
            Ok((Stated { grounding, choice }, rest))
        }
    }
}

// The lines before the weight.
#[tactic(auto, unfolding(crate::specs::Reading::head_at))]
pub(crate) fn head_at(alloc: Global, text: &[u8]) -> Result<(Spelling, &[u8]), CheckError>
    ensures gives { Gives (λ x. (x.0, x.1.now)) result (head_at text.now) }
    ensures shorter { IfOk result (λ x. length x.1.now + head_lines x.0 ≤ length text.now) }
    ensures some { IfOk result (λ x. 1 ≤ x.0.width) }
    ensures most { IfOk result (λ x. x.0.width ≤ most_digits) }
{
    let (version, rest) = version_at(1, text)?;
    let (kind, rest) = kind_at(version, 2, rest)?;
    let (width, rest) = width_at(version, 3, rest)?;
    let line = 3 + u64::from(version.width_lines());
    let (stated, rest) = stated_at(alloc, version, width, line, rest)?;
    let spelling = Spelling {
        kind,
        version,
        width,
        stated,
    };
    Ok((spelling, rest))
}

// A choice, if it suits the task, and else the plain one.
fn suiting(task: &Task, choice: Choice) -> Choice
    ensures choice { result ≡ suiting task.now choice }
    ensures suits { suits task.now result ≡ true }
{
    if choice.suits(task) {
        choice
    } else {
        Choice::plain()
    }
}

/// The choice of an estimate that a text states, by which its cut rows are judged. It is the plain
/// one if the stated choice doesn't suit the task, or if the lines before the weight can't be read:
/// then no row is judged. Tables are looked at whole. An error is out of memory.
pub fn stated_choice(alloc: Global, task: &Task, bytes: &[u8]) -> Result<Choice, AllocError>
    ensures choice { IfOk result (λ c. c ≡ stated_choice task.now bytes.now) }
    // An estimator of the task can be made by it.
    ensures suits { IfOk result (λ c. suits task.now c ≡ true) }
{
    match head_at(alloc, bytes) {
        Ok((spelling, _)) => Ok(suiting(task, spelling.stated.choice)),
        Err(CheckError::Fault(_)) => Ok(Choice::plain()),
        Err(CheckError::Memory) => Err(AllocError),
    }
}
