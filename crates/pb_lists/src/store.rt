//! Where the rows of a search are.
ghost use Rattle.std.specs.Prelude.{◌≡◌, ◌<◌, ℕ, Option, None, IsTrue, ⊤};
ghost use Rattle.pb_model.specs.Space.{Space};
ghost use Rattle.pb_model.specs.Store.{Rows};
ghost use Rattle.pb_model.specs.Weight.{Weight};
ghost use Rattle.pb_lists.specs.Bundle.{row_of};
ghost use Rattle.pb_lists.specs.Store.{HasNoneFrom, one_part_rows};

use crate::Bundle;
use pb_packed::Packed;

/// The rows of a search, in one bundle or in several. There may be one for each block of an
/// abstract graph (Zhou and Hansen 2004), or one for each owner in a hash-distributed search
/// (Kishimoto, Fukunaga and Botea 2009).
pub trait Store {
    /// How many parts there are.
    ghost parts: { Self → ℕ };

    /// The rows of each part, by its number and by state.
    ghost rows: { Self → Rows };

    /// The home of each state: the number of the part that has its row, if it has one.
    ghost home: { Self → ℕ → ℕ };

    /// The least cost at which a goal is known to be reached, or none.
    ghost incumbent: { Self → Option ℕ };

    /// The weight of the search.
    ghost weight: { Self → Weight };

    /// That no part is lent to a worker, so that all can be read.
    ghost is_whole: { Self → Type 0 } = { λ _. ⊤ };

    /// That the store is one of a search of this space, whose states have homes there.
    ghost is_of: { Self → Space → Type 0 } = { λ _ _. ⊤ };

    /// How many parts there are. They are numbered from 0.
    fn parts(&self) -> u32
        ensures count { result ≡ parts self.now }
        ensures beyond { HasNoneFrom (rows self.now) (parts self.now) };

    /// The part of this number.
    fn part(&self, i: u32) -> &Bundle
        requires whole { is_whole self.now }
        requires below { i < parts self.now }
        ensures rows { (state : ℕ) → row_of result.now state ≡ rows self.now i state };

    /// The number of the part that has the row of this state, if it has one.
    fn home(&self, state: &Packed) -> u32
        requires is_state { (space : Space) × is_of self.now space
            × IsTrue (space.is_state state.now) }
        ensures home { result ≡ home self.now state.now }
        ensures below { result < parts self.now };

    /// The least cost at which a goal is known to be reached, in the unit of the task's action
    /// costs, or None.
    fn incumbent(&self) -> Option<u64>
        ensures incumbent { result ≡ incumbent self.now };

    /// The numerator and the denominator of the search's weight.
    fn weight(&self) -> (u64, u64)
        ensures weight { weight self.now ≡ record { num = result.0; den = result.1 } };
}

/// A bundle that has all rows is a store of one part. It knows of no incumbent.
impl Store for Bundle {
    ghost parts = { λ _. 1 };

    ghost rows = { one_part_rows };

    ghost home = { λ _ _. 0 };

    ghost incumbent = { λ _. None };

    ghost weight = { λ content. content.weight };

    fn parts(&self) -> u32 {
        1
    }

    fn part(&self, _i: u32) -> &Bundle {
        self
    }

    fn home(&self, _state: &Packed) -> u32 {
        0
    }

    fn incumbent(&self) -> Option<u64> {
        None
    }

    fn weight(&self) -> (u64, u64) {
        (self.num, self.den)
    }
}
