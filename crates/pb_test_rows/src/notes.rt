//! What differs from what rows say.
use pb_outside::Memory;
use std::alloc::Global;

// How much is shown of what was found.
const SHOWN: usize = 1_000;

// The differences, a line each, and the number of the current line.
#[derive(Drop)]
pub(crate) struct Notes {
    alloc: Global,
    at: u64,
    pub(crate) lines: String,
}

impl Notes {
    pub(crate) fn new(alloc: Global) -> Notes {
        Notes {
            alloc,
            at: 0,
            lines: String::new(alloc),
        }
    }

    // The line of this number becomes the current one.
    pub(crate) fn come_to(&mut self, at: u64) {
        self.at = at;
    }

    // Notes a difference.
    pub(crate) fn add(&mut self, what: &str, found: &[u8]) -> Result<(), Memory> {
        let shown = found.get(..SHOWN).unwrap_or(found);
        let text = String::from_utf8_lossy(self.alloc, shown)?;
        let line = format!(in self.alloc; "line {}: {what}: {text:?}\n", self.at)?;
        self.lines.push_str(line.as_str())?;
        Ok(())
    }

    // Notes a difference unless this holds.
    pub(crate) fn expect(&mut self, holds: bool, what: &str, found: &[u8]) -> Result<(), Memory> {
        if holds { Ok(()) } else { self.add(what, found) }
    }
}
