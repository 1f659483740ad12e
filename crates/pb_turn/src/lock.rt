//! The lock.
ghost use Rattle.std.specs.Prelude.{◌≡◌};

use crate::rule::TurnRule;
use crate::table_rule::{LockRule, PassView};
use atomic_table::Table;
use std::alloc::Global;
use std::snapshot::Snapshot;

/// A lock that threads share by reference. It can be dropped if the state can; otherwise it has to
/// be closed.
#[derive(Drop)]
pub struct TurnLock<R: TurnRule> {
    pub(crate) table: Table<
        Option<R::State>,
        PassView<R::State, R::View>,
        Snapshot<R::State>,
        LockRule<R>,
        Global,
    >,
    ghost shape: { (table.shared.table_id.words ≡ 2) × (table.shared.table_id.slots ≡ 1) },
}
