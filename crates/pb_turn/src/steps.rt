//! The steps on the table of which the calls of a lock are made. Each is one atomic step, except
//! the two that move the state between the slot and the holder. Only the holder of the turn makes
//! these two.
ghost use Rattle.std.specs.Prelude.{◌≡◌, ◌≢◌, ◌+◌, ◌<◌, ℕ, Some, MatchBool, ⊤};
ghost use Rattle.pb_turn.specs.Obligations.{LeaveKeeps, LoadKeeps, LowerKeeps, SplitKeeps, MeetKeeps, Stands, StandsAt, IsHeld};
ghost use Rattle.pb_turn.specs.Passes.{view, number, parts, tries, misses, whole, held, found, state, IsResting, HoldsTurn, HasLaid, IsPassOf, IsSamePass, IsSamePlace};

use crate::lock::TurnLock;
use crate::pass::{Held, Pass};
use crate::plays::{
    LeaveTurn, LowerNumber, MeetPass, NextView, PassNumber, ReadNumber, SplitPass, TryTurn,
};
use crate::rule::{Leaving, TurnRule};
use crate::table_rule::{FREE, NUMBER, STATE, TAKEN, TURN};
use std::marker::Brand;
use std::snapshot::Snapshot;

impl<R: TurnRule> TurnLock<R> {
    // Takes the turn if it is free, and says whether it did. Either way this is one try.
    pub(crate) fn try_turn(&self, pass: &mut Pass<R>) -> bool
        requires own { IsPassOf self.now pass.old }
        requires rests { IsResting pass.old }
        ensures same { IsSamePass pass.old pass.new × (view pass.new ≡ view pass.old) }
        ensures tries { tries pass.new ≡ tries pass.old + 1 }
        ensures misses { MatchBool result (misses pass.new ≡ misses pass.old)
            (misses pass.new ≡ misses pass.old + 1) }
        ensures turn { MatchBool result ((x : R.State) × HasLaid pass.new x x
            × Stands R.fact (number pass.old) (view pass.old) x) (IsResting pass.new) }
        ensures held { MatchBool result ⊤ ((parts pass.old ≢ whole)
            × ((x : R.State) × Stands R.fact (number pass.old) (view pass.old) x)) }
    {
        self.try_turn_as::<Brand>(pass)
    }

    // Does the same as `try_turn`; the call picks the pass's number.
    fn try_turn_as<N: PassNumber>(&self, pass: &mut Pass<R>) -> bool
        requires own { IsPassOf self.now pass.old }
        requires rests { IsResting pass.old }
        requires number { N.number ≡ number pass.old }
        ensures same { IsSamePass pass.old pass.new × (view pass.new ≡ view pass.old) }
        ensures tries { tries pass.new ≡ tries pass.old + 1 }
        ensures misses { MatchBool result (misses pass.new ≡ misses pass.old)
            (misses pass.new ≡ misses pass.old + 1) }
        ensures turn { MatchBool result ((x : R.State) × HasLaid pass.new x x
            × Stands R.fact (number pass.old) (view pass.old) x) (IsResting pass.new) }
        ensures held { MatchBool result ⊤ ((parts pass.old ≢ whole)
            × ((x : R.State) × Stands R.fact (number pass.old) (view pass.old) x)) }
    {
        let seat = &mut pass.seat;
        let shared = &self.table.shared;
        let word = shared.compare_exchange::<TryTurn<R, N>>(seat, TURN, FREE, TAKEN);
        word == FREE
    }

    // Takes the state out of the slot.
    pub(crate) fn take_state(&self, pass: &mut Pass<R>) -> Held<R>
        requires own { IsPassOf self.now pass.old }
        requires laid { (x : R.State) × HasLaid pass.old x x }
        ensures same { IsSamePass pass.old pass.new × (view pass.new ≡ view pass.old)
            × (tries pass.new ≡ tries pass.old) × (misses pass.new ≡ misses pass.old) }
        ensures held { HasLaid pass.old (found result) (found result)
            × HoldsTurn pass.new (found result) × (state result ≡ found result) }
    {
        let shared = &self.table.shared;
        let was = shared.exchange(&mut pass.seat, STATE, None);
        // The pass has just taken the turn, so the state is in the slot.
        let Some(state) = was else { unreachable!() };
        let found = Snapshot::of(&state);
        Held { state, found }
    }

    // Puts the state into the slot.
    pub(crate) fn put_state(&self, pass: &mut Pass<R>, state: R::State, found: &Snapshot<R::State>)
        requires own { IsPassOf self.now pass.old }
        requires holds { HoldsTurn pass.old found.now.value }
        ensures same { IsSamePass pass.old pass.new × (view pass.new ≡ view pass.old)
            × (tries pass.new ≡ tries pass.old) × (misses pass.new ≡ misses pass.old) }
        ensures laid { HasLaid pass.new found.now.value state }
    {
        let _ = found;
        let shared = &self.table.shared;
        let was = shared.exchange(&mut pass.seat, STATE, Some(state));
        // The holder has the state, so the slot was empty.
        let None = was else { unreachable!() };
    }

    // The store that leaves, with the view that M says.
    pub(crate) fn leave_turn<M: Leaving<R>>(
        &self,
        pass: &mut Pass<R>,
        found: &Snapshot<R::State>,
        leaves: &Snapshot<R::State>,
        said: &M::Said,
    )
        requires own { IsPassOf self.now pass.old }
        requires laid { HasLaid pass.old found.now.value leaves.now.value }
        requires rule { LeaveKeeps R.fact (number pass.old) (view pass.old) found.now.value
            leaves.now.value (M.after said.now found.now.value leaves.now.value (view pass.old)) }
        ensures same { IsSamePass pass.old pass.new × IsResting pass.new
            × (tries pass.new ≡ tries pass.old) × (misses pass.new ≡ misses pass.old) }
        ensures view { view pass.new ≡ M.after said.now found.now.value leaves.now.value
            (view pass.old) }
    {
        self.leave_turn_as::<Brand, M>(pass, found, leaves, said);
    }

    // Does the same as `leave_turn`; the call picks the view.
    fn leave_turn_as<N: NextView<R::View>, M: Leaving<R>>(
        &self,
        pass: &mut Pass<R>,
        found: &Snapshot<R::State>,
        leaves: &Snapshot<R::State>,
        said: &M::Said,
    )
        requires own { IsPassOf self.now pass.old }
        requires laid { HasLaid pass.old found.now.value leaves.now.value }
        requires rule { (w : R.View) × (N.next ≡ Some w)
            × LeaveKeeps R.fact (number pass.old) (view pass.old) found.now.value leaves.now.value
            w }
        ensures same { IsSamePass pass.old pass.new × IsResting pass.new
            × (tries pass.new ≡ tries pass.old) × (misses pass.new ≡ misses pass.old) }
        ensures view { N.next ≡ Some (view pass.new) }
    {
        // Only the contract speaks of them.
        let _ = found;
        let _ = leaves;
        let _ = said;
        let shared = &self.table.shared;
        shared.store::<LeaveTurn<N>>(&mut pass.seat, TURN, FREE);
    }

    // Wakes one pass that sleeps on the turn. The pass has left the turn: a sleeper that was woken
    // earlier could find the turn still held, and sleep on.
    pub(crate) fn wake_next(&self, pass: &Pass<R>)
        requires own { IsPassOf self.now pass.now }
        requires rests { IsResting pass.now }
    {
        let _ = pass;
        self.table.shared.wake_one(TURN);
    }

    // Reads the number.
    pub(crate) fn load_number(&self, pass: &mut Pass<R>) -> u64
        requires own { IsPassOf self.now pass.old }
        requires rule { LoadKeeps R.fact (number pass.old) (view pass.old) (held pass.old)
            (R.loaded (held pass.old) (view pass.old)) }
        ensures same { IsSamePlace pass.old pass.new × (parts pass.new ≡ parts pass.old)
            × (tries pass.new ≡ tries pass.old) × (misses pass.new ≡ misses pass.old) }
        ensures view { view pass.new ≡ R.loaded (held pass.old) (view pass.old) result }
        ensures rule { (x : R.State) × StandsAt R.fact (number pass.old) (view pass.old) x result
            × IsHeld (held pass.old) x }
    {
        self.load_number_as::<Brand>(pass)
    }

    // Does the same as `load_number`; the call picks the pass's number.
    fn load_number_as<N: PassNumber>(&self, pass: &mut Pass<R>) -> u64
        requires own { IsPassOf self.now pass.old }
        requires number { N.number ≡ number pass.old }
        requires rule { LoadKeeps R.fact (number pass.old) (view pass.old) (held pass.old)
            (R.loaded (held pass.old) (view pass.old)) }
        ensures same { IsSamePlace pass.old pass.new × (parts pass.new ≡ parts pass.old)
            × (tries pass.new ≡ tries pass.old) × (misses pass.new ≡ misses pass.old) }
        ensures view { view pass.new ≡ R.loaded (held pass.old) (view pass.old) result }
        ensures rule { (x : R.State) × StandsAt R.fact (number pass.old) (view pass.old) x result
            × IsHeld (held pass.old) x }
    {
        let shared = &self.table.shared;
        shared.load::<ReadNumber<R, N>>(&mut pass.seat, NUMBER)
    }

    // Lowers the number to this one, unless it is at most this already.
    pub(crate) fn lower_number(&self, pass: &mut Pass<R>, to: u64)
        requires own { IsPassOf self.now pass.old }
        requires rule { LowerKeeps R.fact (number pass.old) (view pass.old) to
            (R.lowered (view pass.old) to) }
        ensures same { IsSamePlace pass.old pass.new × (parts pass.new ≡ parts pass.old)
            × (tries pass.new ≡ tries pass.old) × (misses pass.new ≡ misses pass.old) }
        ensures view { view pass.new ≡ R.lowered (view pass.old) to }
        ensures rule { (x : R.State) × (found : ℕ)
            × StandsAt R.fact (number pass.old) (view pass.old) x found }
    {
        self.lower_number_as::<Brand>(pass, to);
    }

    // Does the same as `lower_number`; the call picks the pass's number.
    fn lower_number_as<N: PassNumber>(&self, pass: &mut Pass<R>, to: u64)
        requires own { IsPassOf self.now pass.old }
        requires number { N.number ≡ number pass.old }
        requires rule { LowerKeeps R.fact (number pass.old) (view pass.old) to
            (R.lowered (view pass.old) to) }
        ensures same { IsSamePlace pass.old pass.new × (parts pass.new ≡ parts pass.old)
            × (tries pass.new ≡ tries pass.old) × (misses pass.new ≡ misses pass.old) }
        ensures view { view pass.new ≡ R.lowered (view pass.old) to }
        ensures rule { (x : R.State) × (found : ℕ)
            × StandsAt R.fact (number pass.old) (view pass.old) x found }
    {
        let shared = &self.table.shared;
        shared.fetch_min::<LowerNumber<R, N>>(&mut pass.seat, NUMBER, to);
    }

    // Splits a new pass off.
    pub(crate) fn split_off(&self, pass: &mut Pass<R>) -> Pass<R>
        requires own { IsPassOf self.now pass.old }
        requires more { 1 < parts pass.old }
        requires rule { SplitKeeps R.fact (number pass.old) (view pass.old) (R.kept (view pass.old))
            (R.given (view pass.old)) }
        ensures same { IsSamePlace pass.old pass.new × (tries pass.new ≡ tries pass.old)
            × (misses pass.new ≡ misses pass.old) }
        ensures kept { (view pass.new ≡ R.kept (view pass.old))
            × (parts pass.new + 1 ≡ parts pass.old) }
        ensures given { IsPassOf self.now result × IsResting result
            × (view result ≡ R.given (view pass.old)) × (parts result ≡ 1) × (tries result ≡ 0)
            × (misses result ≡ 0) }
    {
        let shared = &self.table.shared;
        let seat = shared.split_seat::<SplitPass<R>>(&mut pass.seat);
        Pass { seat }
    }

    // Takes in another pass.
    pub(crate) fn take_in(&self, pass: &mut Pass<R>, other: Pass<R>)
        requires own { IsPassOf self.now pass.old × IsPassOf self.now other }
        requires rests { IsResting other }
        requires rule { MeetKeeps R.fact (number pass.old) (view pass.old) (number other)
            (view other) (R.met (view pass.old) (view other)) R.spent }
        ensures same { IsSamePlace pass.old pass.new
            × (tries pass.new ≡ tries pass.old + tries other)
            × (misses pass.new ≡ misses pass.old + misses other) }
        ensures met { (view pass.new ≡ R.met (view pass.old) (view other))
            × (parts pass.new ≡ parts pass.old + parts other) }
    {
        let Pass { seat } = other;
        let shared = &self.table.shared;
        shared.join_seat::<MeetPass<R>>(&mut pass.seat, seat);
    }
}
