//! The texts of loaded files.
ghost use Rattle.std.specs.Prelude.{◌≡◌, ◌++◌, ◌∷◌, [], OnOk, slice_get, option_map};

use std::alloc::{AllocError, Global};
use std::marker::Model;

/// The texts of files, in the order in which they were loaded. Contracts see the list of their
/// bytes.
#[derive(Drop)]
pub struct Texts {
    texts: Vec<Vec<u8>>,
}

impl Model for Texts {
    ghost use Rattle.std.specs.Prelude.{ℕ, List, map};

    ghost Value = { List (List ℕ) };

    ghost view = { λ t. map (λ text. text.items) t.texts.items };
}

impl Texts {
    /// No texts.
    pub fn new(alloc: Global) -> Texts
        ensures { result ≡ [] }
    {
        Texts {
            texts: Vec::new(alloc),
        }
    }

    /// Adds a text after the others.
    pub fn push(&mut self, text: Vec<u8>) -> Result<(), AllocError>
        ensures { OnOk result (self.new ≡ self.old ++ text.items ∷ []) }
    {
        self.texts.push(text)?;
        Ok(())
    }

    /// The text at a place, counted from 0. None if there are fewer.
    pub fn get(&self, at: usize) -> Option<&[u8]>
        ensures { option_map (λ t. t.now) result ≡ slice_get self.now at }
    {
        match self.texts.get(at) {
            Some(text) => Some(text),
            None => None,
        }
    }
}
