//! The incumbent of the whole search, which is kept in a word beside the graph.
ghost use Rattle.std.specs.Prelude.{◌≡◌, ◌≢◌, ◌<◌, ◌+◌, ℕ, true, Some, None, IfSome, IfNone};
ghost use Rattle.pb_turn.specs.Obligations.{Stands};
ghost use Rattle.pb_turn.specs.Passes.{view, number, parts, tries, misses, whole, found, state, HoldsTurn, IsResting, IsPassOf};
ghost use Rattle.pb_turn.specs.Passes as turns;
ghost use Rattle.pb_model.specs.Store.{lesser, AtMost};
ghost use Rattle.pb_lease.specs.GraphValue.{GraphValue};
ghost use Rattle.pb_yard.specs.Views.{cost_of, bounded, view_read, view_told};
ghost use Rattle.pb_yard.specs.Rule.{IsAt, YardFact};
ghost use Rattle.pb_yard.specs.Returning.{IsFound};
ghost use Rattle.pb_yard.specs.Passes.{view_of, IsOf, KeepsPass, TriesForNoTurn};
ghost use Rattle.pb_yard.specs.Calls.{HasPlanWithin, LowersIncumbent};

use crate::pass::Pass;
use crate::rule::YardRule;
use crate::yard::Yard;
use pb_lease::Lease;
use pb_turn::Held;
use std::sync::Wait;

// The incumbent that the word says.
pub(crate) fn cost(number: u64) -> Option<u64>
    ensures { result ≡ cost_of number }
{
    if number == u64::MAX {
        None
    } else {
        Some(number)
    }
}

// The number by which the word says an incumbent.
pub(crate) fn word_of(incumbent: Option<u64>) -> u64
    requires { (cost : ℕ) → incumbent ≡ Some cost → cost < 18446744073709551615 }
    ensures { cost_of result ≡ incumbent }
{
    match incumbent {
        Some(cost) => cost,
        None => u64::MAX,
    }
}

// The lesser of two costs, of which the first may be unknown.
fn lesser_of(first: Option<u64>, cost: u64) -> u64
    ensures { Some result ≡ lesser first (Some cost) }
{
    match first {
        Some(other) => other.min(cost),
        None => cost,
    }
}

impl Yard {
    /// Reads the incumbent: the least cost that any worker has found or reported. It never waits. A
    /// pass never sees it rise.
    pub fn glance(&self, pass: &mut Pass) -> Option<u64>
        requires own { IsOf self.now pass.old }
        ensures same { KeepsPass pass.old pass.new }
        ensures no_turn { TriesForNoTurn pass.old pass.new }
        ensures falls { AtMost result (view_of pass.old).last }
        ensures shared { (g : GraphValue) × (at : IsAt g (view_of pass.old))
            × (at.shared ≡ result) }
        ensures view { view_of pass.new ≡ view_read None (view_of pass.old) result }
        ensures plan { (cost : ℕ) → result ≡ Some cost → HasPlanWithin (view_of pass.old) cost }
    {
        let incumbent = cost(self.lock.word(&mut pass.turn));
        pass.last = incumbent;
        incumbent
    }

    /// Tells a cost at which the pass's lease reaches a goal: at one step the incumbent becomes the
    /// lesser of both. It never waits.
    pub fn lower(&self, pass: &mut Pass, lease: &Lease, cost: u64)
        requires own { IsOf self.now pass.old }
        requires fits { cost < 18446744073709551615 }
        requires found { IsFound (view_of pass.old) lease.now cost }
        ensures same { KeepsPass pass.old pass.new }
        ensures no_turn { TriesForNoTurn pass.old pass.new }
        ensures step { LowersIncumbent (view_of pass.old) cost }
        ensures view { view_of pass.new ≡ view_told (view_of pass.old) cost }
    {
        // Only the contract speaks of the lease.
        let _ = lease;
        self.lock.lower_word(&mut pass.turn, cost);
        pass.last = Some(lesser_of(pass.last, cost));
    }

    // Takes the turn and reads the incumbent, which the graph takes.
    pub(crate) fn enter_reading<W: Wait>(
        &self,
        rt: &W,
        turn: &mut pb_turn::Pass<YardRule>,
    ) -> (Held<YardRule>, Option<u64>)
        requires own { IsPassOf self.now.lock turn.old }
        requires rests { IsResting turn.old }
        requires live { (view turn.old).journal.is_live ≡ true }
        ensures same { turns.IsSamePass turn.old turn.new }
        ensures one_turn { tries turn.new + misses turn.old ≡ tries turn.old + misses turn.new
            + 1 }
        ensures won { HoldsTurn turn.new (found result.0) }
        ensures graph { state result.0 ≡ bounded (found result.0) result.1 }
        ensures view { view turn.new ≡ view_read (Some (found result.0)) (view turn.old) result.1 }
        ensures rule { Stands YardFact (number turn.old) (view turn.new) (found result.0) }
        ensures falls { AtMost result.1 (view turn.old).last
            × AtMost result.1 (found result.0).incumbent }
    {
        let held = self.lock.enter(rt, turn);
        self.read_on(turn, held)
    }

    // Takes the turn and reads the incumbent in one try, which never waits. None if this call's own
    // step found the turn held.
    pub(crate) fn try_enter_reading(
        &self,
        turn: &mut pb_turn::Pass<YardRule>,
    ) -> Option<(Held<YardRule>, Option<u64>)>
        requires own { IsPassOf self.now.lock turn.old }
        requires rests { IsResting turn.old }
        requires live { (view turn.old).journal.is_live ≡ true }
        ensures same { turns.IsSamePass turn.old turn.new }
        ensures won { IfSome result (λ r. HoldsTurn turn.new (found r.0)) }
        ensures graph { IfSome result (λ r. state r.0 ≡ bounded (found r.0) r.1) }
        ensures view { IfSome result (λ r. view turn.new
            ≡ view_read (Some (found r.0)) (view turn.old) r.1) }
        ensures rule { IfSome result (λ r. Stands YardFact (number turn.old) (view turn.new)
            (found r.0)) }
        ensures falls { IfSome result (λ r. AtMost r.1 (view turn.old).last
            × AtMost r.1 (found r.0).incumbent) }
        ensures one_step { tries turn.new ≡ tries turn.old + 1 }
        ensures rests { IfNone result (IsResting turn.new × (view turn.new ≡ view turn.old)) }
        ensures lost { IfNone result ((misses turn.new ≡ misses turn.old + 1)
            × (parts turn.old ≢ whole)) }
    {
        match self.lock.try_enter(turn) {
            Some(held) => Some(self.read_on(turn, held)),
            None => None,
        }
    }

    // Reads the incumbent while the pass holds the graph, which takes it.
    pub(crate) fn read_on(
        &self,
        turn: &mut pb_turn::Pass<YardRule>,
        held: Held<YardRule>,
    ) -> (Held<YardRule>, Option<u64>)
        requires own { IsPassOf self.now.lock turn.old }
        requires holds { HoldsTurn turn.old (found held) }
        requires fresh { state held ≡ found held }
        requires live { (view turn.old).journal.is_live ≡ true }
        ensures same { turns.IsSamePass turn.old turn.new }
        ensures tries { (tries turn.new ≡ tries turn.old) × (misses turn.new ≡ misses turn.old) }
        ensures found { found result.0 ≡ found held }
        ensures won { HoldsTurn turn.new (found result.0) }
        ensures graph { state result.0 ≡ bounded (found result.0) result.1 }
        ensures view { view turn.new ≡ view_read (Some (found result.0)) (view turn.old) result.1 }
        ensures rule { Stands YardFact (number turn.old) (view turn.new) (found result.0) }
        ensures falls { AtMost result.1 (view turn.old).last
            × AtMost result.1 (found result.0).incumbent }
    {
        let mut held = held;
        let incumbent = cost(self.lock.word(turn));
        if let Some(known) = incumbent {
            held.state_mut().lower_incumbent(known);
        }
        (held, incumbent)
    }
}
