//! What each step on the table reports.
ghost use Rattle.std.specs.Prelude.{None};
ghost use Rattle.pb_turn.specs.Table.{tried, read, sunk, left, kept_pass, given_pass, met_pass, spent_pass};

use crate::rule::TurnRule;
use crate::table_rule::PassView;
use atomic_table::{Join, Play, Split};
use std::marker::{Brand, PhantomData};

/// The number of the pass that steps, which the call picks: a step itself doesn't see it.
pub(crate) trait PassNumber {
    ghost use Rattle.std.specs.Prelude.{ℕ};

    ghost number: { ℕ };
}

impl PassNumber for Brand {
    ghost number = { 0 };
}

/// One try for the turn.
pub(crate) struct TryTurn<R, N> {
    rule: PhantomData<(R, N)>,
}

impl<R: TurnRule, N: PassNumber> Play<Option<R::State>, PassView<R::State, R::View>>
    for TryTurn<R, N> {
    ghost then = { tried R.fact N.number };
}

/// A load of the number.
pub(crate) struct ReadNumber<R, N> {
    rule: PhantomData<(R, N)>,
}

impl<R: TurnRule, N: PassNumber> Play<Option<R::State>, PassView<R::State, R::View>>
    for ReadNumber<R, N> {
    ghost then = { read R.fact R.loaded N.number };
}

/// A lowering of the number.
pub(crate) struct LowerNumber<R, N> {
    rule: PhantomData<(R, N)>,
}

impl<R: TurnRule, N: PassNumber> Play<Option<R::State>, PassView<R::State, R::View>>
    for LowerNumber<R, N> {
    ghost then = { sunk R.fact R.lowered N.number };
}

/// The view that a holder leaves with, which the call picks.
pub(crate) trait NextView<V> {
    ghost use Rattle.std.specs.Prelude.{Option};

    ghost next: { Option V };
}

impl<V> NextView<V> for Brand {
    ghost next = { None };
}

/// The store that leaves the turn.
pub(crate) struct LeaveTurn<N> {
    next: PhantomData<N>,
}

impl<S, V, N: NextView<V>> Play<Option<S>, PassView<S, V>> for LeaveTurn<N> {
    ghost then = { left N.next };
}

/// A pass is split from another.
pub(crate) struct SplitPass<R> {
    rule: PhantomData<R>,
}

impl<R: TurnRule> Split<PassView<R::State, R::View>> for SplitPass<R> {
    ghost left = { kept_pass R.kept };

    ghost right = { given_pass R.given };
}

/// A pass takes in another.
pub(crate) struct MeetPass<R> {
    rule: PhantomData<R>,
}

impl<R: TurnRule> Join<PassView<R::State, R::View>> for MeetPass<R> {
    ghost both = { met_pass R.met };

    ghost spent = { spent_pass R.spent };
}
