//! Taking the turn, and leaving it.
ghost use Rattle.std.specs.Prelude.{◌≡◌, ◌≢◌, ◌+◌, ◌≤◌, IfSome, IfNone};
ghost use Rattle.pb_turn.specs.Obligations.{LeaveKeeps, Stands};
ghost use Rattle.pb_turn.specs.Passes.{view, number, parts, tries, misses, whole, found, state, IsResting, HoldsTurn, IsPassOf, IsSamePass};

use crate::lock::TurnLock;
use crate::pass::{Held, Pass};
use crate::rule::{Leaving, TurnRule};
use crate::table_rule::{TAKEN, TURN};
use std::hint::spin_loop;
use std::snapshot::Snapshot;
use std::sync::Wait;

/// How often a pass tries for the turn before it sleeps. The pauses between two tries double, so
/// all pauses together are some 130 spins. These take a few microseconds, about as long as a holder
/// mostly has the turn. To sleep and be woken costs more, and makes the holder call the system.
const TRIES: u32 = 7;

// Spins as often as two to the power of the round.
fn pause(round: u32) {
    for _ in 0..1u32 << round.min(TRIES) {
        spin_loop();
    }
}

impl<R: TurnRule> TurnLock<R> {
    /// Tries once to take the turn, and never waits. The pass counts this one try. None comes only
    /// if that one step found the turn held by another pass; the pass then counts a miss too, and
    /// is otherwise as before. A pass that has all parts always gets the turn.
    pub fn try_enter(&self, pass: &mut Pass<R>) -> Option<Held<R>>
        requires own { IsPassOf self.now pass.old }
        requires rests { IsResting pass.old }
        ensures same { IsSamePass pass.old pass.new × (view pass.new ≡ view pass.old) }
        ensures one_step { tries pass.new ≡ tries pass.old + 1 }
        ensures won { IfSome result (λ h. HoldsTurn pass.new (found h) × (state h ≡ found h)
            × (misses pass.new ≡ misses pass.old)) }
        ensures rule { IfSome result (λ h. Stands R.fact (number pass.old) (view pass.old)
            (found h)) }
        ensures lost { IfNone result (IsResting pass.new
            × (misses pass.new ≡ misses pass.old + 1)) }
        ensures shared { IfNone result (parts pass.old ≢ whole) }
        ensures others { IfNone result ((x : R.State)
            × Stands R.fact (number pass.old) (view pass.old) x) }
    {
        if !self.try_turn(pass) {
            return None;
        }
        Some(self.take_state(pass))
    }

    /// Takes the turn, and sleeps while another pass holds it. It may wait for ever. Each of its
    /// tries but the last is a miss.
    pub fn enter<W: Wait>(&self, rt: &W, pass: &mut Pass<R>) -> Held<R>
        requires own { IsPassOf self.now pass.old }
        requires rests { IsResting pass.old }
        ensures same { IsSamePass pass.old pass.new × (view pass.new ≡ view pass.old) }
        ensures won { HoldsTurn pass.new (found result) × (state result ≡ found result) }
        ensures rule { Stands R.fact (number pass.old) (view pass.old) (found result) }
        ensures misses { misses pass.old ≤ misses pass.new }
        ensures tries { tries pass.new + misses pass.old ≡ tries pass.old + misses pass.new + 1 }
    {
        for _ in rt.forever() {
            if let Some(held) = self.try_often(pass) {
                return held;
            }
            self.table.shared.park(rt, TURN, TAKEN as u32);
        }
        unreachable!()
    }

    // Tries a bounded number of times to take the turn. It doesn't sleep between two tries, but
    // pauses, each time twice as long.
    fn try_often(&self, pass: &mut Pass<R>) -> Option<Held<R>>
        requires own { IsPassOf self.now pass.old }
        requires rests { IsResting pass.old }
        ensures same { IsSamePass pass.old pass.new × (view pass.new ≡ view pass.old) }
        ensures won { IfSome result (λ h. HoldsTurn pass.new (found h) × (state h ≡ found h)) }
        ensures rule { IfSome result (λ h. Stands R.fact (number pass.old) (view pass.old)
            (found h)) }
        ensures lost { IfNone result (IsResting pass.new
            × (tries pass.new + misses pass.old ≡ tries pass.old + misses pass.new)) }
        ensures misses { misses pass.old ≤ misses pass.new }
        ensures tries { IfSome result (λ _. tries pass.new + misses pass.old
            ≡ tries pass.old + misses pass.new + 1) }
    {
        for round in 0..TRIES {
            if let Some(held) = self.try_enter(pass) {
                return Some(held);
            }
            pause(round);
        }
        None
    }

    /// Puts the state back and leaves the turn. All that the holder did takes effect here, at one
    /// step. The caller shows that the rule stays: the state goes from the one found to the one put
    /// back, and `M` gives the new view. What the holder says is for `M` alone.
    pub fn leave<M: Leaving<R>>(&self, pass: &mut Pass<R>, held: Held<R>, said: &M::Said)
        requires own { IsPassOf self.now pass.old }
        requires holds { HoldsTurn pass.old (found held) }
        requires rule { LeaveKeeps R.fact (number pass.old) (view pass.old) (found held)
            (state held) (M.after said.now (found held) (state held) (view pass.old)) }
        ensures same { IsSamePass pass.old pass.new × IsResting pass.new
            × (tries pass.new ≡ tries pass.old) × (misses pass.new ≡ misses pass.old) }
        ensures view { view pass.new ≡ M.after said.now (found held) (state held) (view pass.old) }
    {
        let Held { state, found } = held;
        // Taken before the state moves into the slot: the clauses speak of its value.
        let leaves = Snapshot::of(&state);
        // The state first: from the next step on another pass may take the turn, and then the
        // state.
        self.put_state(pass, state, &found);
        self.leave_turn::<M>(pass, &found, &leaves, said);
        self.wake_next(pass);
    }
}
