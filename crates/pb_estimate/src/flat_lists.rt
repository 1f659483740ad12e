//! Lists of numbers that lie in one array.
ghost use Rattle.std.specs.Prelude.{[], ◌∷◌, ◌≡◌, ◌<◌, ◌++◌, OnOk, length, slice_index_or};

use std::alloc::{AllocError, Global};
use std::marker::Model;

// Where a list lies in an array: from this place to that one.
#[derive(Clone, Copy)]
pub(crate) struct Piece {
    from: usize,
    to: usize,
}

/// Lists of numbers, which lie in one array.
#[derive(Drop)]
pub struct FlatLists {
    items: Vec<u16>,
    pieces: Vec<Piece>,
}

impl Model for FlatLists {
    ghost use Rattle.std.specs.Prelude.{ℕ, List, All, length, map};
    ghost use Rattle.pb_estimate.specs.declared.flat_lists.Piece.{Piece};
    ghost use Rattle.pb_estimate.specs.Relaxed.{piece, IsPiece};

    ghost Value = { List (List ℕ) };

    ghost view = { λ l. map (λ (p : Piece). piece l.items.items p.from p.to) l.pieces.items };

    ghost invariant = { λ l. All (λ (p : Piece). IsPiece (length l.items.items) p.from p.to)
        l.pieces.items };
}

impl FlatLists {
    /// No lists.
    pub fn new(alloc: Global) -> FlatLists
        ensures { result ≡ [] }
    {
        FlatLists {
            items: Vec::new(alloc),
            pieces: Vec::new(alloc),
        }
    }

    /// Adds a list after the others.
    pub fn push(&mut self, list: &[u16]) -> Result<(), AllocError>
        ensures { OnOk result (self.new ≡ self.old ++ list.now ∷ []) }
    {
        let from = self.items.len();
        self.items.extend_from_slice(list)?;
        let to = self.items.len();
        self.pieces.push(Piece { from, to })?;
        Ok(())
    }

    /// The list of a number.
    #[inline]
    pub fn at(&self, number: usize) -> &[u16]
        requires { number < length self.now }
        ensures { result.now ≡ slice_index_or self.now number [] }
    {
        let piece = self.pieces[number];
        &self.items.as_slice()[piece.from..piece.to]
    }
}
