//! Text that grows by words.
use pb_outside::Memory;
use std::alloc::Global;

#[derive(Drop)]
pub(crate) struct Lines {
    alloc: Global,
    pub(crate) text: String,
}

impl Lines {
    pub(crate) fn new(alloc: Global) -> Lines {
        Lines {
            alloc,
            text: String::new(alloc),
        }
    }

    // Adds a word, after a space.
    pub(crate) fn word(&mut self, word: &str) -> Result<(), Memory> {
        self.text.push(' ')?;
        self.text.push_str(word)?;
        Ok(())
    }

    // Adds a word that begins a line.
    pub(crate) fn first(&mut self, word: &str) -> Result<(), Memory> {
        self.text.push_str(word)?;
        Ok(())
    }

    // Adds bytes as they are.
    pub(crate) fn bytes(&mut self, bytes: &[u8]) -> Result<(), Memory> {
        let text = String::from_utf8_lossy(self.alloc, bytes)?;
        self.text.push_str(text.as_str())?;
        Ok(())
    }

    // Adds bytes that are a word, and the place where they stand.
    pub(crate) fn name(&mut self, bytes: &[u8], at: u64) -> Result<(), Memory> {
        let name = String::from_utf8_lossy(self.alloc, bytes)?;
        let text = format!(in self.alloc; " {name}@{at}")?;
        self.text.push_str(text.as_str())?;
        Ok(())
    }

    // Adds a number, and the place where it stands.
    pub(crate) fn placed(&mut self, number: u64, at: u64) -> Result<(), Memory> {
        let text = format!(in self.alloc; " {number}@{at}")?;
        self.text.push_str(text.as_str())?;
        Ok(())
    }

    // Adds a number, after a space and a mark.
    pub(crate) fn marked(&mut self, mark: &str, number: usize) -> Result<(), Memory> {
        let text = format!(in self.alloc; " {mark}{number}")?;
        self.text.push_str(text.as_str())?;
        Ok(())
    }

    // Adds numbers, each after a space.
    pub(crate) fn numbers(&mut self, numbers: &[usize]) -> Result<(), Memory> {
        for number in numbers {
            self.marked("", *number)?;
        }
        Ok(())
    }

    // Ends a line.
    pub(crate) fn end(&mut self) -> Result<(), Memory> {
        self.text.push('\n')?;
        Ok(())
    }
}
