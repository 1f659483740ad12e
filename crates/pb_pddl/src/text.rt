//! Ranges of shared bytes, as the text of a token or a name.
ghost use Rattle.std.specs.Prelude.{◌≡◌, ◌+◌, ◌≤◌, IfOk, length, take, drop};

use pb_listed::Listed;
use std::alloc::{AllocError, Global};
use std::marker::Model;
use std::rc::Rc;

/// A range of bytes, which a text shares with its copies and its parts. Copies and parts of any
/// length take the same time and memory. A contract sees the list of the bytes.
#[derive(Drop)]
pub struct Text {
    bytes: Rc<Listed<u8>, Global>,
    from: u32,
    len: u32,
}

impl Model for Text {
    ghost use Rattle.std.specs.Prelude.{List, ℕ, ◌+◌, ◌≤◌, length, take, drop};

    ghost Value = { List ℕ };

    ghost view = { λ t. take t.len (drop t.from t.bytes.value) };

    ghost invariant = { λ t. t.from + t.len ≤ length t.bytes.value };
}

// A length or a place in a text. A text of 4 GiB or more counts as one that memory can't hold.
fn small(number: usize) -> Result<u32, AllocError>
    ensures { IfOk result (λ n. n ≡ number) }
{
    match u32::try_from(number) {
        Ok(n) => Ok(n),
        Err(_) => Err(AllocError),
    }
}

// The place `by` bytes after this one.
fn moved(start: u32, by: usize) -> Result<u32, AllocError>
    ensures { IfOk result (λ n. n ≡ start + by) }
{
    let by = small(by)?;
    // The invariant of a text doesn't say that the sum fits in 32 bits.
    match start.checked_add(by) {
        Some(place) => Ok(place),
        None => Err(AllocError),
    }
}

impl Text {
    /// A text of these bytes. The call fails if memory runs out.
    pub fn new(alloc: Global, bytes: &[u8]) -> Result<Text, AllocError>
        ensures { IfOk result (λ text. text ≡ bytes.now) }
    {
        let list = Listed::of(alloc, bytes)?;
        Text::of(alloc, list)
    }

    /// A text of these bytes, which it takes over without a copy. The call fails if memory runs
    /// out, and for 4 GiB or more.
    pub fn of(alloc: Global, list: Listed<u8>) -> Result<Text, AllocError>
        ensures { IfOk result (λ text. text ≡ list) }
    {
        // Tested before the `Rc` is made, so a list that is too long takes no more memory.
        let len = small(list.as_slice().len())?;
        let bytes = Rc::new(alloc, list)?;
        Ok(Text {
            bytes,
            from: 0,
            len,
        })
    }

    /// Its bytes, lent.
    pub fn as_slice(&self) -> &[u8]
        ensures { result.now ≡ self.now }
    {
        let (_, bytes) = self.bytes.as_ref().as_slice().split_at(self.from as usize);
        let (front, _) = bytes.split_at(self.len as usize);
        front
    }

    /// `len` bytes of the text from this place on, shared. The call fails if no more copies can be
    /// counted.
    pub fn part(&self, from: usize, len: usize) -> Result<Text, AllocError>
        requires { from + len ≤ length self.now }
        ensures { IfOk result (λ part. part ≡ take len (drop from self.now)) }
    {
        let from = moved(self.from, from)?;
        let len = small(len)?;
        let bytes = self.bytes.clone()?;
        Ok(Text { bytes, from, len })
    }

    /// A copy, which shares the bytes. The call fails if no more copies can be counted.
    pub fn share(&self) -> Result<Text, AllocError>
        ensures { IfOk result (λ copy. copy ≡ self.now) }
    {
        let bytes = self.bytes.clone()?;
        Ok(Text {
            bytes,
            from: self.from,
            len: self.len,
        })
    }
}
