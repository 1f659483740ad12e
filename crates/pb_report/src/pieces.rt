//! Lines of words and numbers, at the end of a list of bytes.
ghost use Rattle.std.specs.Prelude.{◌≡◌, ◌++◌, [], OnOk, map};
ghost use Rattle.std.specs.Fmt.{decimal};
ghost use Rattle.pb_model.specs.Texts.{line, lines, spaced};
ghost use Rattle.pb_task.specs.Parts.{space_of, action_name};
ghost use Rattle.pb_report.specs.Texts.{AreActions};

use itoa::Buffer;
use pb_print::{push_line, push_number, push_text};
use pb_task::Task;
use std::alloc::{AllocError, Global};

// A line of a text and a number.
pub(crate) fn push_with_number(
    out: &mut Vec<u8>,
    text: &[u8],
    number: u64,
) -> Result<(), AllocError>
    ensures { OnOk result (out.new.items ≡ out.old.items ++ line (text.now ++ decimal number)) }
{
    push_text(out, text)?;
    push_number(out, number)?;
    push_text(out, b"\n")
}

// A line of a text, a number, another text and another number.
pub(crate) fn push_with_numbers(
    out: &mut Vec<u8>,
    text: &[u8],
    first: u64,
    between: &[u8],
    second: u64,
) -> Result<(), AllocError>
    ensures { OnOk result (out.new.items ≡ out.old.items ++ line
        (text.now ++ decimal first ++ between.now ++ decimal second)) }
{
    push_text(out, text)?;
    push_number(out, first)?;
    push_with_number(out, between, second)
}

// A text, a number and a space.
fn push_spaced(out: &mut Vec<u8>, text: &[u8], number: u64) -> Result<(), AllocError>
    ensures { OnOk result (out.new.items ≡ out.old.items
        ++ (text.now ++ spaced (decimal number) [])) }
{
    push_text(out, text)?;
    push_number(out, number)?;
    push_text(out, b" ")
}

// A line of a text, two numbers and a word, with spaces between them.
pub(crate) fn push_with_numbers_and_word(
    out: &mut Vec<u8>,
    text: &[u8],
    first: u64,
    second: u64,
    word: &[u8],
) -> Result<(), AllocError>
    ensures { OnOk result (out.new.items ≡ out.old.items ++ line
        (text.now ++ spaced (decimal first) (spaced (decimal second) word.now))) }
{
    push_spaced(out, text, first)?;
    push_spaced(out, b"", second)?;
    push_line(out, word)
}

// A line of a text and a number that may be wider than 64 bits.
pub(crate) fn push_with_wide(out: &mut Vec<u8>, text: &[u8], number: u128) -> Result<(), AllocError>
    ensures { OnOk result (out.new.items ≡ out.old.items ++ line (text.now ++ decimal number)) }
{
    // `push_number` takes numbers of 64 bits alone.
    let mut buffer = Buffer::new();
    push_text(out, text)?;
    push_line(out, buffer.format(number).as_bytes())
}

// A line of a text, a number, a space and a number that may be wider than 64 bits.
pub(crate) fn push_with_number_and_wide(
    out: &mut Vec<u8>,
    text: &[u8],
    first: u64,
    second: u128,
) -> Result<(), AllocError>
    ensures { OnOk result (out.new.items ≡ out.old.items ++ line
        (text.now ++ spaced (decimal first) (decimal second))) }
{
    push_spaced(out, text, first)?;
    push_with_wide(out, b"", second)
}

// The names of the actions, a line each.
pub(crate) fn push_steps(
    alloc: Global,
    out: &mut Vec<u8>,
    task: &Task,
    actions: &[u32],
) -> Result<(), AllocError>
    requires { AreActions (space_of task.now) actions.now }
    ensures { OnOk result (out.new.items ≡ out.old.items ++ lines
        (map (action_name task.now) actions.now)) }
{
    for action in actions {
        let name = task.action_text(alloc, *action)?;
        push_line(out, name.as_bytes())?;
    }
    Ok(())
}
