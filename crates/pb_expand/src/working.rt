//! The work on a lease without a watch, and why work on a lease stops.
ghost use Rattle.std.specs.Prelude.{◌≡◌, ◌-◌, ◌<◌, ◌≤◌, ℕ, ◌↔◌, vec_capacity};
ghost use Rattle.pb_model.specs.Store.{HasOpened};
ghost use Rattle.pb_model.specs.declared.row.Row.{Row};
ghost use Rattle.pb_machine.specs.declared.settings.Settings.{Settings};
ghost use Rattle.pb_machine.specs.Machine.{Machine};
ghost use Rattle.pb_task.specs.Parts.{space_of, max_degree_of};
ghost use Rattle.pb_estimate.specs.Tables.{IsOfTask};
ghost use Rattle.pb_abstract.specs.Graph.{IsGraphOf};
ghost use Rattle.pb_lease.specs.LeaseValue.{leased_store, IsSameLease};
ghost use Rattle.pb_lease.specs.Leased.{guide_of, setup_of, HasScope, IsOut, IsInTurns};
ghost use Rattle.pb_expand.specs.Turned.{own_rows, IsAtWork, HasTurned, IsNext, reads_none};
ghost use Rattle.pb_expand.specs.Worked.{broken_by};
ghost use Rattle.pb_expand.specs.declared.working.Worked.TheVariants.{Spent, Empty, Memory};

use crate::watch::NoWatch;
use crate::watching::work_watched;
use pb_abstract::AbsGraph;
use pb_estimate::Estimator;
use pb_lease::Lease;
use pb_model::Succ;
use pb_task::Task;

/// Why the work on a lease stopped.
#[derive(Clone, Copy, Debug, PartialEq, Eq)]
pub enum Worked {
    /// The quota is used up, and the next turn would expand one more row of the block.
    Spent,
    /// No row of the block is Opened.
    Empty,
    /// Memory ran out at a successor of a row. The row is still Opened, and its expansion isn't
    /// counted.
    Memory,
}

/// Works on a lease as `work_watched` does, with nothing to watch: it reads no incumbent, and tells
/// nobody of a cost.
pub fn work(
    task: &Task,
    estimator: &mut Estimator,
    abstraction: &AbsGraph,
    lease: &mut Lease,
    succs: &mut Vec<Succ>,
) -> Worked
    requires tables { IsOfTask estimator.old task.now lease.old.choice }
    requires of_task { IsGraphOf task.now abstraction.now }
    requires room { max_degree_of task.now ≤ vec_capacity succs.old }
    requires at_work { IsAtWork task.now abstraction.now lease.old.choice lease.old }

    // What was done: the counted expansions, and one that was broken off if memory ran out.
    ensures turned { HasTurned (space_of task.now) (guide_of task.now abstraction.now
        lease.old.choice) reads_none
        lease.old.block (lease.new.used - lease.old.used) (broken_by result)
        (leased_store lease.old) (leased_store lease.new) }
    ensures counted { lease.old.used ≤ lease.new.used }
    ensures within { lease.new.used ≤ lease.new.quota }

    // So a lease that was out in a machine still is. Its work there is in turns, if it was before.
    ensures out { (settings : Settings) (reopenings : ℕ) (machine : Machine)
        → (before : IsOut (setup_of task.now abstraction.now lease.old.choice settings reopenings)
        machine 0 lease.old)
        → (after : IsOut (setup_of task.now abstraction.now lease.old.choice settings reopenings)
        machine
        (broken_by result) lease.new)
        × (IsInTurns (setup_of task.now abstraction.now lease.old.choice settings reopenings)
        machine 0 lease.old before
        → IsInTurns (setup_of task.now abstraction.now lease.old.choice settings reopenings) machine
        (broken_by result)
        lease.new after) }

    // Why it stopped.
    ensures spent { (result ≡ Spent) ↔ (HasOpened (own_rows lease.new)
        × (lease.new.used ≡ lease.new.quota)) }
    ensures empty { (result ≡ Empty) ↔ (HasOpened (own_rows lease.new) → ⊥) }
    ensures memory { (result ≡ Memory) ↔ (HasOpened (own_rows lease.new)
        × (lease.new.used < lease.new.quota)) }
    ensures next { result ≡ Spent → (state : ℕ) × (row : Row)
        × IsNext (space_of task.now) lease.new state row }

    // What stays.
    ensures same { IsSameLease lease.old lease.new }
    ensures scope { HasScope abstraction.now lease.new }
    ensures tables { IsOfTask estimator.new task.now lease.old.choice }
    ensures room { vec_capacity succs.old ≤ vec_capacity succs.new }
{
    let mut watch = NoWatch;
    work_watched(task, estimator, abstraction, lease, succs, &mut watch)
}
