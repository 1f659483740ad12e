//! Rows that are being read. Those behind the first that does not rise are not kept.
ghost use Rattle.std.specs.Prelude.{◌≡◌, ◌≤◌, ◌-◌, ◌++◌, ◌∷◌, [], ℕ, List, false, length, OnOk, IfOk, slice_index};
ghost use Rattle.pb_packed.specs.Words.{number_of, AreWords};
ghost use Rattle.pb_model.specs.Certificate.{Line};
ghost use Rattle.pb_check.specs.Kept.{FallsBetween, Keeps};

use crate::numbers::Numbers;
use crate::stated::RowEnd;
use std::alloc::{AllocError, Global};

/// The arrays of rows that are being read, as in `StatedRows`. The judge looks at no row behind the
/// first whose state is not above that of the row before it. So from that row on no more are kept,
/// and there are at most as many as there are states, and one.
#[derive(Drop)]
pub struct KeptRows {
    pub states: Numbers,
    pub costs: Vec<u64>,
    pub closed: Vec<bool>,
    pub falls: bool,
}

// Whether the last number is above the one before it, or there are fewer than two.
fn rises_last(numbers: &Numbers) -> bool
    ensures { result ≡ false → (2 ≤ length numbers.now.numbers)
        × (slice_index numbers.now.numbers (length numbers.now.numbers - 1)
        ≤ slice_index numbers.now.numbers (length numbers.now.numbers - 2)) }
{
    let count = numbers.len();
    if count < 2 {
        true
    } else {
        numbers.is_above(count - 1, numbers.at(count - 2))
    }
}

// Whether the first of other numbers is above the last of some, or there is no first or last.
fn rises_between(numbers: &Numbers, others: &Numbers) -> bool
    requires { numbers.now.width ≡ others.now.width }
    ensures { result ≡ false → FallsBetween numbers.now.numbers others.now.numbers }
{
    let count = numbers.len();
    if count == 0 || others.len() == 0 {
        true
    } else {
        others.is_above(0, numbers.at(count - 1))
    }
}

impl KeptRows {
    /// No rows, of so many words a state, with room for so many.
    pub fn new(alloc: Global, width: usize, room: usize) -> Result<KeptRows, AllocError>
        requires some { 1 ≤ width }
        requires most { width ≤ 16 }
        ensures none { IfOk result (λ rows. Keeps rows width []) }
    {
        Ok(KeptRows {
            states: Numbers::with_room(alloc, width, room)?,
            costs: Vec::with_capacity(alloc, room)?,
            closed: Vec::with_capacity(alloc, room)?,
            falls: false,
        })
    }

    /// Adds a row, whose state is given by its words, unless an earlier one didn't rise.
    pub fn push(&mut self, state: &[u64], end: &RowEnd) -> Result<(), AllocError>
        requires long { length state.now ≡ self.old.states.width }
        requires words { AreWords (length state.now) state.now }
        ensures kept { OnOk result ((width : ℕ) (all : List Line) → Keeps self.old width all
            → Keeps self.new width (all ++ record {
              state = number_of state.now;
              g = end.now.g;
              is_closed = end.now.is_closed;
            } ∷ [])) }
    {
        if !self.falls {
            self.states.push(state)?;
            self.costs.push(end.g)?;
            self.closed.push(end.is_closed)?;
            self.falls = !rises_last(&self.states);
        }
        Ok(())
    }

    // These rows and the first of others, which isn't above the last of these.
    fn then_first(mut self, others: KeptRows) -> Result<KeptRows, AllocError>
        requires width { self.states.width ≡ others.states.width }
        requires costs { length others.costs.items ≡ length others.states.numbers }
        requires closed { length others.closed.items ≡ length others.states.numbers }
        requires falls { FallsBetween self.states.numbers others.states.numbers }
        ensures kept { (width : ℕ) (all more : List Line) → self.falls ≡ false
            → Keeps self width all → Keeps others width more
            → IfOk result (λ rows. Keeps rows width (all ++ more)) }
    {
        self.states.push(others.states.at(0))?;
        self.costs.push(others.costs[0])?;
        self.closed.push(others.closed[0])?;
        self.falls = true;
        Ok(self)
    }

    /// These rows and then others, which are given up.
    pub fn then(mut self, others: KeptRows) -> Result<KeptRows, AllocError>
        requires width { self.states.width ≡ others.states.width }
        requires costs { length others.costs.items ≡ length others.states.numbers }
        requires closed { length others.closed.items ≡ length others.states.numbers }
        ensures kept { (width : ℕ) (all more : List Line) → Keeps self width all
            → Keeps others width more → IfOk result (λ rows. Keeps rows width (all ++ more)) }
    {
        if self.falls {
            return Ok(self);
        }
        if !rises_between(&self.states, &others.states) {
            return self.then_first(others);
        }
        self.states.append(others.states)?;
        append(&mut self.costs, others.costs)?;
        append(&mut self.closed, others.closed)?;
        self.falls = others.falls;
        Ok(self)
    }
}

// Adds all others at the end, and gives up their array.
fn append<T: Copy>(items: &mut Vec<T>, others: Vec<T>) -> Result<(), AllocError>
    ensures { OnOk result (items.new.items ≡ items.old.items ++ others.items) }
{
    items.extend_from_slice(&others)?;
    Ok(())
}
