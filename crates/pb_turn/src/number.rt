//! Reading the number, and lowering it.
ghost use Rattle.std.specs.Prelude.{◌≡◌, ℕ};
ghost use Rattle.pb_turn.specs.Obligations.{LoadKeeps, LowerKeeps, StandsAt, IsHeld};
ghost use Rattle.pb_turn.specs.Passes.{view, parts, tries, misses, held, IsPassOf, IsSamePlace};
ghost use Rattle.pb_turn.specs.Passes as passes;

use crate::lock::TurnLock;
use crate::pass::Pass;
use crate::rule::TurnRule;

impl<R: TurnRule> TurnLock<R> {
    /// Reads the number, at one step, whether or not this or another pass holds the turn. It never
    /// waits.
    pub fn word(&self, pass: &mut Pass<R>) -> u64
        requires own { IsPassOf self.now pass.old }
        requires rule { LoadKeeps R.fact (passes.number pass.old) (view pass.old) (held pass.old)
            (R.loaded (held pass.old) (view pass.old)) }
        ensures same { IsSamePlace pass.old pass.new × (parts pass.new ≡ parts pass.old)
            × (tries pass.new ≡ tries pass.old) × (misses pass.new ≡ misses pass.old) }
        ensures view { view pass.new ≡ R.loaded (held pass.old) (view pass.old) result }
        ensures rule { (x : R.State) × StandsAt R.fact (passes.number pass.old) (view pass.old) x
            result × IsHeld (held pass.old) x }
    {
        self.load_number(pass)
    }

    /// Makes the number the lesser of itself and this one, at one step, whether or not this or
    /// another pass holds the turn. It never waits.
    pub fn lower_word(&self, pass: &mut Pass<R>, number: u64)
        requires own { IsPassOf self.now pass.old }
        requires rule { LowerKeeps R.fact (passes.number pass.old) (view pass.old) number
            (R.lowered (view pass.old) number) }
        ensures same { IsSamePlace pass.old pass.new × (parts pass.new ≡ parts pass.old)
            × (tries pass.new ≡ tries pass.old) × (misses pass.new ≡ misses pass.old) }
        ensures view { view pass.new ≡ R.lowered (view pass.old) number }
        ensures rule { (x : R.State) × (found : ℕ)
            × StandsAt R.fact (passes.number pass.old) (view pass.old) x found }
    {
        self.lower_number(pass, number);
    }
}
