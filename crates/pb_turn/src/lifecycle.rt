//! Making a lock, splitting and meeting passes, and taking the state out at the end.
ghost use Rattle.std.specs.Prelude.{◌≡◌, ◌+◌, ◌<◌, [], ◌∷◌, Some, IfOk, IfErr};
ghost use Rattle.pb_turn.specs.Obligations.{SplitKeeps, MeetKeeps, StandsAlone};
ghost use Rattle.pb_turn.specs.Passes.{view, number, parts, tries, misses, whole, IsResting, IsPassOf, IsSamePlace};
ghost use Rattle.pb_turn.specs.Passes as passes;

use crate::lock::TurnLock;
use crate::pass::Pass;
use crate::rule::TurnRule;
use crate::table_rule::{FREE, NUMBER, STATE};
use atomic_table::{Refused, Table};
use std::alloc::{AllocError, Global};
use std::snapshot::Snapshot;

impl<R: TurnRule> TurnLock<R> {
    /// A lock with this state and number, and the first pass, which has all parts. If memory runs
    /// out, the state comes back.
    pub fn new(
        alloc: Global,
        state: R::State,
        number: u64,
    ) -> Result<(TurnLock<R>, Pass<R>), (AllocError, R::State)>
        requires rule { R.fact state number (R.first state ∷ []) }
        ensures ok { IfOk result (λ r. IsPassOf r.0 r.1 × IsResting r.1 × (view r.1 ≡ R.first state)
            × (parts r.1 ≡ whole)) }
        ensures first { IfOk result (λ r. (passes.number r.1 ≡ 0) × (tries r.1 ≡ 0)
            × (misses r.1 ≡ 0)) }
        ensures err { IfErr result (λ r. r.1 ≡ state) }
    {
        // Taken before the state moves into its slot: the rule's first view is of this value.
        let about = Snapshot::of(&state);
        // `?` would lose the state, which has to come back.
        let Ok(mut slots) = Vec::with_capacity(alloc, 1) else {
            return Err((AllocError, state));
        };
        slots.push_reserved(Some(state));
        match Table::new(alloc, &[FREE, number], slots, &about) {
            Ok((table, seat)) => Ok((TurnLock { table }, Pass { seat })),
            Err(refused) => Err((AllocError, state_of::<R>(refused))),
        }
    }

    /// Splits a new pass off. It gets one part, so a pass with one part can't be split. The pass
    /// may hold the turn.
    pub fn split(&self, pass: &mut Pass<R>) -> Pass<R>
        requires own { IsPassOf self.now pass.old }
        requires more { 1 < parts pass.old }
        requires rule { SplitKeeps R.fact (number pass.old) (view pass.old) (R.kept (view pass.old))
            (R.given (view pass.old)) }
        ensures same { IsSamePlace pass.old pass.new × (tries pass.new ≡ tries pass.old)
            × (misses pass.new ≡ misses pass.old) }
        ensures kept { (view pass.new ≡ R.kept (view pass.old))
            × (parts pass.new + 1 ≡ parts pass.old) }
        ensures given { IsPassOf self.now result × IsResting result
            × (view result ≡ R.given (view pass.old)) × (parts result ≡ 1) × (tries result ≡ 0)
            × (misses result ≡ 0) }
    {
        self.split_off(pass)
    }

    /// Takes in another pass, which doesn't hold the turn, with its parts. The pass itself may hold
    /// it.
    pub fn meet(&self, pass: &mut Pass<R>, other: Pass<R>)
        requires own { IsPassOf self.now pass.old × IsPassOf self.now other }
        requires rests { IsResting other }
        requires rule { MeetKeeps R.fact (number pass.old) (view pass.old) (number other)
            (view other) (R.met (view pass.old) (view other)) R.spent }
        ensures same { IsSamePlace pass.old pass.new
            × (tries pass.new ≡ tries pass.old + tries other)
            × (misses pass.new ≡ misses pass.old + misses other) }
        ensures met { (view pass.new ≡ R.met (view pass.old) (view other))
            × (parts pass.new ≡ parts pass.old + parts other) }
    {
        self.take_in(pass, other);
    }

    /// Takes the lock apart after all other passes were met: the state that the last holder left,
    /// and the last number.
    pub fn close_with(self, pass: Pass<R>) -> (R::State, u64)
        requires own { IsPassOf self pass }
        requires rests { IsResting pass }
        requires whole { parts pass ≡ whole }
        ensures rule { StandsAlone R.fact (number pass) (view pass) R.spent result.0 result.1 }
    {
        let TurnLock { table } = self;
        let Pass { seat } = pass;
        let mut closed = table.close_with(seat);
        let number = closed.word(NUMBER);
        let state = closed.take(STATE);
        closed.free();
        let Some(state) = state else { unreachable!() };
        (state, number)
    }
}

// The state, out of the slots that came back.
fn state_of<R: TurnRule>(refused: Refused<Option<R::State>, Global>) -> R::State
    requires { (x : R.State) × (refused.slots.items ≡ Some x ∷ []) }
    ensures { refused.slots.items ≡ Some result ∷ [] }
{
    let Refused { slots: mut all } = refused;
    let Some(last) = all.pop() else {
        unreachable!()
    };
    let Some(state) = last else { unreachable!() };
    // The state may be of a type that can't be dropped, so the vector is freed when it is empty.
    all.destroy_empty();
    state
}
