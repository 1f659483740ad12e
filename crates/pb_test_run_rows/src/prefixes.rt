//! What the readers answer to each beginning of a text.
use crate::lines::Lines;
use pb_outside::Memory;
use pb_syntax::{SyntaxError, read_domain, read_problem};
use std::alloc::Global;

// How often each answer came, and the sum of the places of the errors.
#[derive(Clone, Copy)]
struct Answers {
    read: u64,
    byte: u64,
    left_out: u64,
    expected: u64,
    unclosed: u64,
    others: u64,
    places: u64,
}

// No text has so many prefixes that a count or the sum wraps.
fn count(answers: &mut Answers, error: Option<SyntaxError>) {
    let place = match error {
        None => {
            answers.read = answers.read.wrapping_add(1);
            0
        }
        Some(SyntaxError::Byte { at }) => {
            answers.byte = answers.byte.wrapping_add(1);
            at
        }
        Some(SyntaxError::LeftOut { at, .. }) => {
            answers.left_out = answers.left_out.wrapping_add(1);
            at
        }
        Some(SyntaxError::Expected { at, .. }) => {
            answers.expected = answers.expected.wrapping_add(1);
            at
        }
        Some(SyntaxError::Unclosed { at }) => {
            answers.unclosed = answers.unclosed.wrapping_add(1);
            at
        }
        Some(_) => {
            answers.others = answers.others.wrapping_add(1);
            0
        }
    };
    answers.places = answers.places.wrapping_add(place);
}

const NONE: Answers = Answers {
    read: 0,
    byte: 0,
    left_out: 0,
    expected: 0,
    unclosed: 0,
    others: 0,
    places: 0,
};

fn error_of(alloc: Global, is_domain: bool, text: &[u8]) -> Option<SyntaxError> {
    if is_domain {
        read_domain(alloc, text).err()
    } else {
        read_problem(alloc, text).err()
    }
}

// How often each answer comes to a beginning of a text, and the sum of the places of the errors.
pub(crate) fn prefixes(
    alloc: Global,
    is_domain: bool,
    text: &[u8],
) -> Result<Option<Lines>, Memory> {
    let mut answers = NONE;
    for end in 0..=text.len() {
        let front = text.get(..end).unwrap_or(text);
        count(&mut answers, error_of(alloc, is_domain, front));
    }
    let mut lines = Lines::new(alloc);
    let line = format!(in alloc;
        "read {} byte {} left-out {} expected {} unclosed {} others {} places {}\n",
        answers.read,
        answers.byte,
        answers.left_out,
        answers.expected,
        answers.unclosed,
        answers.others,
        answers.places
    )?;
    lines.first(line.as_str())?;
    Ok(Some(lines))
}
