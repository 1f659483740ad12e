//! The numbers of a text, before and after the word `goal`.
ghost use Rattle.std.specs.Prelude.{◌≡◌, ◌≢◌, Ok, Err, IfOk, IfErr};
ghost use Rattle.pb_tiles.specs.Words.{word_end};
ghost use Rattle.pb_tiles.specs.Reading.{nothing_said, with_number, may_have_goal, said_by};
ghost use Rattle.pb_tiles.specs.declared.error.TilesError.TheVariants.{Memory};

use crate::error::TilesError;
use pb_lines::short_number_of;
use std::alloc::{AllocError, Global};
use std::marker::Model;

// The word between a board and its goal.
const GOAL: &[u8] = b"goal";

/// The numbers that the words of a text have said so far.
#[derive(Drop)]
pub struct Numbers {
    before: Vec<u32>,
    has_goal: bool,
    behind: Vec<u32>,
}

impl Model for Numbers {
    ghost use Rattle.pb_tiles.specs.Said.{Said};

    ghost Value = { Said };

    ghost view = { λ n. record {
      before = n.before.items;
      has_goal = n.has_goal;
      behind = n.behind.items;
    } };
}

impl Numbers {
    /// Nothing was said yet.
    pub fn new(alloc: Global) -> Numbers
        ensures { result ≡ nothing_said }
    {
        Numbers {
            before: Vec::new(alloc),
            has_goal: false,
            behind: Vec::new(alloc),
        }
    }

    /// The numbers before the word `goal`, or all if there is no such word.
    pub fn before(&self) -> &[u32]
        ensures { result.now ≡ self.now.before }
    {
        self.before.as_slice()
    }

    /// Whether the word `goal` is there.
    pub fn has_goal(&self) -> bool
        ensures { result ≡ self.now.has_goal }
    {
        self.has_goal
    }

    /// The numbers after the word `goal`.
    pub fn behind(&self) -> &[u32]
        ensures { result.now ≡ self.now.behind }
    {
        self.behind.as_slice()
    }

    /// Takes the word that ends here, if it has bytes.
    pub fn take(&mut self, line: u64, word: &[u8]) -> Result<(), TilesError>
        ensures said { IfOk result (λ _. said_by self.old (word_end line word.now) ≡ Ok self.new) }
        ensures refused { IfErr result (λ e. e ≢ Memory
            → said_by self.old (word_end line word.now) ≡ Err e) }
    {
        if word.is_empty() {
            return Ok(());
        }
        if let Some(number) = short_number_of(word) {
            self.push(number)?;
            return Ok(());
        }
        if !self.may_have_goal() || word != GOAL {
            return Err(TilesError::Syntax { line });
        }
        self.has_goal = true;
        Ok(())
    }

    // Whether the word `goal` may come here: after at least two numbers, and for the first time.
    fn may_have_goal(&self) -> bool
        ensures { result ≡ may_have_goal self.now }
    {
        !self.has_goal && 2 <= self.before.len()
    }

    // Adds a number to those before or after the word `goal`.
    fn push(&mut self, number: u32) -> Result<(), AllocError>
        ensures { IfOk result (λ _. self.new ≡ with_number self.old number) }
    {
        if self.has_goal {
            self.behind.push(number)?;
        } else {
            self.before.push(number)?;
        }
        Ok(())
    }
}
