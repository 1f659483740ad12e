//! What a thread carries, and what it has while it holds the turn.
ghost use Rattle.std.specs.Prelude.{◌<◌};

use crate::rule::TurnRule;
use crate::table_rule::PassView;
use atomic_table::Seat;
use std::snapshot::Snapshot;

/// What one thread carries: its view, and whether it holds the turn. A pass has no bytes. A pass
/// that is dropped is never met, so its lock can't be closed any more.
#[derive(Drop)]
pub struct Pass<R: TurnRule> {
    pub(crate) seat: Seat<Option<R::State>, PassView<R::State, R::View>>,
    pub ghost live: { 0 < seat.me.0.parts },
}

/// The state, while a pass holds the turn. It can't be dropped: `TurnLock::leave` takes it back.
pub struct Held<R: TurnRule> {
    pub(crate) state: R::State,
    pub(crate) found: Snapshot<R::State>,
}
