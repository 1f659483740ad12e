//! Bytes, lines and numbers, appended to a list of bytes.
ghost use Rattle.std.specs.Prelude.{◌≡◌, ◌++◌, OnOk};
ghost use Rattle.std.specs.Fmt.{decimal};
ghost use Rattle.pb_model.specs.Texts.{line};

use itoa::Buffer;
use std::alloc::AllocError;

/// Appends these bytes. An error means out of memory.
pub fn push_text(out: &mut Vec<u8>, text: &[u8]) -> Result<(), AllocError>
    ensures { OnOk result (out.new.items ≡ out.old.items ++ text.now) }
{
    out.extend_from_slice(text)?;
    Ok(())
}

/// Appends these bytes and a line feed. An error means out of memory.
pub fn push_line(out: &mut Vec<u8>, text: &[u8]) -> Result<(), AllocError>
    ensures { OnOk result (out.new.items ≡ out.old.items ++ line text.now) }
{
    push_text(out, text)?;
    push_text(out, b"\n")
}

/// Appends a number in decimal digits. An error means out of memory.
pub fn push_number(out: &mut Vec<u8>, n: u64) -> Result<(), AllocError>
    ensures { OnOk result (out.new.items ≡ out.old.items ++ decimal n) }
{
    let mut buffer = Buffer::new();
    push_text(out, buffer.format(n).as_bytes())
}
