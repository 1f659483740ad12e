//! The rule of the table under a lock: a word that is the turn, a word that is the number, and a
//! slot. The state is in the slot while no pass holds the turn.
ghost use Rattle.std.specs.Prelude.{ℕ};

use crate::rule::TurnRule;
use atomic_table::TableRule;
use std::marker::PhantomData;
use std::snapshot::Snapshot;

/// The number of the word that is the turn.
pub(crate) const TURN: usize = 0;

/// The number of the word that is the lock's number.
pub(crate) const NUMBER: usize = 1;

/// The turn, while no pass holds it, and while one does.
pub(crate) const FREE: u64 = 0;

pub(crate) const TAKEN: u64 = 1;

/// The number of the slot that the state is in.
pub(crate) const STATE: usize = 0;

/// Whether a pass holds the turn.
pub enum Stage<S> {
    Resting,
    /// The pass holds the turn, and found this state.
    Holding(S),
}

/// All that is known of a pass. No value of it is made.
pub struct PassView<S, V> {
    pub stage: Stage<S>,
    /// The pass's parts of the right to close the lock.
    pub parts: u64,
    /// How many steps of the pass's own tried for the turn.
    pub tries: u64,
    /// How often a step of the pass's own found the turn held.
    pub misses: u64,
    /// How often a step of the pass's own left the turn.
    pub leaves: u64,
    /// At least so often the turn was taken or left, by whichever pass. No step sets it, but each
    /// step has to keep the rule whatever another pass knows. So none can count backwards.
    pub changes: u64,
    /// A count of leavings, and one of misses: if the turn was left just so often and is free, there
    /// were no more misses. As no step sets it, but each has to keep the rule whatever another pass
    /// knows, no miss is counted while the turn is free.
    pub calm: (u64, u64),
    /// What the caller's rule sees.
    pub view: V,
}

/// What the table under a lock keeps.
pub struct LockRule<R> {
    rule: PhantomData<R>,
}

impl<R: TurnRule> TableRule<Option<R::State>, PassView<R::State, R::View>, Snapshot<R::State>>
    for LockRule<R> {
    ghost use Rattle.pb_turn.specs.Table.{Turned, first_pass};

    ghost holds = { λ _. Turned R.fact R.spent };

    ghost first = { λ key. first_pass (R.first key.value) };
}
