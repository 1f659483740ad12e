//! What one line says, and the lines that say a number or a fixed word.
ghost use Rattle.std.specs.Prelude.{◌≡◌, ◌≤◌, ◌+◌, ◌<◌, ◌^◌, ℕ, length, IfOk, IfErr, Some, None, Err, Ok, Result};
ghost use Rattle.pb_packed.specs.Sizes.{most_digits};
ghost use Rattle.pb_estimate.specs.Spelling.{estimate_text};
ghost use Rattle.pb_lines.specs.Words.{number_of, behind, part};
ghost use Rattle.pb_check.specs.Faults.{Gives, IsFault, wanted};
ghost use Rattle.pb_check.specs.Reading.{line_at, number_behind, version_in, kind_in, kind_for, width_in, grounding_in, estimate_in, weight_in, fixed_at, number_at};

use crate::fault::{CertificateFault, CheckError};
use crate::stated::StatedWeight;
use pb_estimate::{Choice, Version};
use pb_lines::{behind, is_text, number_of, part};
use pb_packed::MOST_DIGITS;
use pb_task::{Grounding, Kind};

// A line, and the text after it.
pub(crate) fn line_at(line: u64, text: &[u8]) -> Result<(&[u8], &[u8]), CheckError>
    ensures gives { Gives (λ x. (x.0.now, x.1.now)) result (line_at line text.now) }
    ensures shorter { IfOk result (λ x. length x.1.now + 1 ≤ length text.now) }
    ensures fault { IfErr result IsFault }
{
    match part(text, b'\n') {
        Some((front, rest)) => Ok((front, rest)),
        None => Err(CheckError::Fault(CertificateFault::Syntax { line })),
    }
}

pub(crate) fn number_in(line: u64, text: &[u8]) -> Result<u64, CheckError>
    ensures gives { Gives (λ x. x) result (wanted line (number_of text.now)) }
    ensures small { IfOk result (λ n. n < 2 ^ 63) }
    ensures fault { IfErr result IsFault }
{
    match number_of(text) {
        Some(n) => Ok(n),
        None => Err(CheckError::Fault(CertificateFault::Syntax { line })),
    }
}

pub(crate) fn number_behind(line: u64, text: &[u8], piece: &[u8]) -> Result<u64, CheckError>
    ensures gives { Gives (λ x. x) result (number_behind line piece.now text.now) }
    ensures small { IfOk result (λ n. n < 2 ^ 63) }
{
    match behind(text, piece) {
        Some(word) => number_in(line, word),
        None => Err(CheckError::Fault(CertificateFault::Syntax { line })),
    }
}

#[tactic(auto, unfolding(crate::specs::Reading::version_in))]
pub(crate) fn version_in(line: u64, text: &[u8]) -> Result<Version, CheckError>
    ensures { Gives (λ x. x) result (version_in line text.now) }
{
    if is_text(text, b"pbnf-certificate 1") {
        Ok(Version::One)
    } else if is_text(text, b"pbnf-certificate 2") {
        Ok(Version::Two)
    } else if is_text(text, b"pbnf-certificate 3") {
        Ok(Version::Three)
    } else if is_text(text, b"pbnf-certificate 4") {
        Ok(Version::Four)
    } else {
        Err(CheckError::Fault(CertificateFault::Syntax { line }))
    }
}

#[tactic(auto, unfolding(crate::specs::Reading::kind_in))]
pub(crate) fn kind_in(line: u64, text: &[u8]) -> Result<Kind, CheckError>
    ensures { Gives (λ x. x) result (kind_in line text.now) }
{
    if is_text(text, b"kind grid") {
        Ok(Kind::Grid)
    } else if is_text(text, b"kind tiles") {
        Ok(Kind::Tiles)
    } else if is_text(text, b"kind strips") {
        Ok(Kind::Strips)
    } else {
        Err(CheckError::Fault(CertificateFault::Syntax { line }))
    }
}

// A kind of task that this version is for.
pub(crate) fn kind_for(version: Version, line: u64, kind: Kind) -> Result<Kind, CheckError>
    ensures { Gives (λ x. x) result (kind_for version line kind) }
{
    match (version, kind) {
        (Version::One | Version::Two | Version::Three, kind) => Ok(kind),
        (Version::Four, Kind::Strips) => Ok(Kind::Strips),
        (Version::Four, Kind::Grid | Kind::Tiles) => Err(CheckError::Fault(
            CertificateFault::Syntax { line },
        )),
    }
}

pub(crate) fn part_in(line: u64, text: &[u8], byte: u8) -> Result<(&[u8], &[u8]), CheckError>
    ensures gives { Gives (λ x. (x.0.now, x.1.now)) result (wanted line (part byte text.now)) }
    ensures fault { IfErr result IsFault }
{
    match part(text, byte) {
        Some((front, rest)) => Ok((front, rest)),
        None => Err(CheckError::Fault(CertificateFault::Syntax { line })),
    }
}

fn behind_in<'a>(line: u64, text: &'a [u8], piece: &[u8]) -> Result<&'a [u8], CheckError>
    ensures { Gives (λ x. x.now) result (wanted line (behind piece.now text.now)) }
{
    match behind(text, piece) {
        Some(rest) => Ok(rest),
        None => Err(CheckError::Fault(CertificateFault::Syntax { line })),
    }
}

#[tactic(auto, unfolding(crate::specs::Reading::width_in))]
pub(crate) fn width_in(line: u64, text: &[u8]) -> Result<u32, CheckError>
    ensures gives { Gives (λ x. x) result (width_in line text.now) }
    ensures some { IfOk result (λ x. 1 ≤ x) }
    ensures most { IfOk result (λ x. x ≤ most_digits) }
{
    let width = number_behind(line, text, b"width ")?;
    if 1 <= width && width <= MOST_DIGITS as u64 {
        Ok(width as u32)
    } else {
        Err(CheckError::Fault(CertificateFault::Syntax { line }))
    }
}

#[tactic(auto, unfolding(crate::specs::Reading::grounding_in))]
pub(crate) fn grounding_in(line: u64, text: &[u8]) -> Result<Grounding, CheckError>
    ensures { Gives (λ x. x) result (grounding_in line text.now) }
{
    if is_text(text, b"grounding all") {
        Ok(Grounding::All)
    } else if is_text(text, b"grounding reachable") {
        Ok(Grounding::Reachable)
    } else {
        Err(CheckError::Fault(CertificateFault::Syntax { line }))
    }
}

// The plain choice or a pattern, as a line of version 4 says it.
#[tactic(auto, unfolding(crate::specs::Reading::estimate_in))]
pub(crate) fn estimate_in(line: u64, text: &[u8]) -> Result<Choice, CheckError>
    ensures gives { Gives (λ x. x) result (estimate_in line text.now) }
    ensures one { (width : ℕ) → IfOk result (λ x. length (estimate_text width x) ≡ 1) }
{
    if is_text(text, b"estimate plain") {
        return Ok(Choice::plain());
    }
    let number = number_behind(line, text, b"estimate pattern ")?;
    Ok(Choice::of_pattern(number))
}

#[tactic(auto, unfolding(crate::specs::Reading::weight_in))]
pub(crate) fn weight_in(line: u64, text: &[u8]) -> Result<StatedWeight, CheckError>
    ensures { Gives (λ x. record { num = x.num; den = x.den }) result (weight_in line text.now) }
{
    let words = behind_in(line, text, b"weight ")?;
    let (first, second) = part_in(line, words, b' ')?;
    let num = number_in(line, first)?;
    let den = number_in(line, second)?;
    Ok(StatedWeight { num, den })
}

// ---- the lines of a text, one after another

#[tactic(auto, unfolding(crate::specs::Reading::fixed_at))]
pub(crate) fn fixed_at<'a>(line: u64, text: &'a [u8], piece: &[u8]) -> Result<&'a [u8], CheckError>
    ensures gives { Gives (λ x. x.now) result (fixed_at line piece.now text.now) }
    ensures shorter { IfOk result (λ x. length x.now + 1 ≤ length text.now) }
{
    let (first, rest) = line_at(line, text)?;
    if is_text(first, piece) {
        Ok(rest)
    } else {
        Err(CheckError::Fault(CertificateFault::Syntax { line }))
    }
}

#[tactic(auto, unfolding(crate::specs::Reading::number_at))]
pub(crate) fn number_at<'a>(
    line: u64,
    text: &'a [u8],
    piece: &[u8],
) -> Result<(u64, &'a [u8]), CheckError>
    ensures gives { Gives (λ x. (x.0, x.1.now)) result (number_at line piece.now text.now) }
    ensures shorter { IfOk result (λ x. length x.1.now + 1 ≤ length text.now) }
    ensures small { IfOk result (λ x. x.0 < 2 ^ 63) }
{
    let (first, rest) = line_at(line, text)?;
    let n = number_behind(line, first, piece)?;
    Ok((n, rest))
}
