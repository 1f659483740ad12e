//! The state that a holder works on.
ghost use Rattle.std.specs.Prelude.{◌≡◌};
ghost use Rattle.std.specs.Borrow.{sem, Lends};
ghost use Rattle.pb_turn.specs.contracts.pass.Held.{the_row};
ghost use Rattle.pb_turn.specs.Passes.{state, with_state};

use crate::pass::Held;
use crate::rule::TurnRule;

impl<R: TurnRule> Held<R> {
    /// Lends the state for reading.
    pub fn state(&self) -> &R::State
        ensures { result.now ≡ state self.now }
    {
        &self.state
    }

    /// Lends the state for writing. When the borrow ends, the holder has what was written through
    /// it, and still knows what it found.
    pub fn state_mut(&mut self) -> &mut R::State
        ensures* writes_back { sem 𝓛 (Lends (the_row R.row R.State.row R.View.row) R.State.row self.entry result
            (with_state self.old)) }
        ensures value { result.now ≡ state self.old }
    {
        &mut self.state
    }
}
