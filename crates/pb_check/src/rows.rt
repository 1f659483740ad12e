//! The rows of a certificate, by their arrays, and the look-up of a state's row.
ghost use Rattle.std.specs.Prelude.{◌≡◌, ◌-◌, ◌<◌, ◌≤◌, Some, length, slice_get};
ghost use Rattle.pb_check.specs.Judging.{Rise, g_of};
ghost use Rattle.pb_check.specs.Rows.{rises_at};

use crate::numbers::Numbers;
use pb_packed::Packed;
use std::marker::Model;

/// A row of a certificate. Contracts see a line of the model.
#[derive(Drop)]
pub struct StatedRow {
    pub state: Packed,
    pub g: u64,
    pub is_closed: bool,
}

impl Model for StatedRow {
    ghost use Rattle.pb_model.specs.Certificate.{Line};

    ghost Value = { Line };

    ghost view = { λ r. record { state = r.state; g = r.g; is_closed = r.is_closed } };
}

/// The rows of a certificate, in the order of the text. The states, the costs and the statuses are
/// in an array each, and a state takes as many words as the stated width needs: 1 to 16. Contracts
/// see the list of the rows.
#[derive(Drop)]
pub struct StatedRows {
    pub(crate) states: Numbers,
    pub(crate) costs: Vec<u64>,
    pub(crate) closed: Vec<bool>,
}

impl Model for StatedRows {
    ghost use Rattle.std.specs.Prelude.{◌≡◌, List, length};
    ghost use Rattle.pb_model.specs.Certificate.{Line};
    ghost use Rattle.pb_check.specs.Rows.{rows_of};

    ghost Value = { List Line };

    ghost view = { λ r. rows_of r.states.numbers r.costs.items r.closed.items };

    ghost invariant = { λ r. (length r.costs.items ≡ length r.states.numbers)
        × (length r.closed.items ≡ length r.states.numbers) };
}

impl StatedRows {
    /// How many rows there are.
    pub fn len(&self) -> usize
        ensures { result ≡ length self.now }
    {
        self.states.len()
    }

    /// The row in this place, counted from 0.
    pub fn at(&self, i: usize) -> StatedRow
        requires { i < length self.now }
        ensures { slice_get self.now i ≡ Some result }
    {
        StatedRow {
            state: Packed::of_slice(self.states.at(i)),
            g: self.costs[i],
            is_closed: self.closed[i],
        }
    }

    /// Whether the state of the row in this place is above that of the row before it.
    pub fn rises_at(&self, i: usize) -> bool
        requires some { 1 ≤ i }
        requires inside { i < length self.now }
        ensures { result ≡ rises_at self.now (i - 1) }
    {
        self.states.is_above(i, self.states.at(i - 1))
    }

    /// The g of the row of a state. The place `near` is looked at first; if the state isn't there,
    /// a binary search finds it, since the rows rise. If it has a row, `near` is the place after
    /// it.
    pub fn g_of(&self, state: &Packed, near: &mut usize) -> Option<u64>
        requires { Rise self.now }
        ensures { result ≡ g_of self.now state.now }
    {
        match self.states.place(state, *near) {
            Some(i) => {
                *near = i + 1;
                Some(self.costs[i])
            }
            None => None,
        }
    }
}
