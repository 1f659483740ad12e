//! The turns of a worker. If it has a watch, it reads the incumbent before each turn, and tells the
//! watch each better cost before its lease has that cost as its incumbent.
ghost use Rattle.std.specs.Prelude.{◌≡◌, ◌-◌, ◌<◌, ◌≤◌, ◌↔◌, ◌∷◌, ℕ, true, false, not, IsSome, IfSome, IfNone, vec_capacity};
ghost use Rattle.pb_model.specs.Space.{Space};
ghost use Rattle.pb_model.specs.Guide.{Guide};
ghost use Rattle.pb_model.specs.Store.{HasOpened, lesser};
ghost use Rattle.pb_model.specs.declared.row.Row.{Row};
ghost use Rattle.pb_task.specs.Parts.{space_of, max_degree_of};
ghost use Rattle.pb_estimate.specs.Choices.{Choice};
ghost use Rattle.pb_estimate.specs.Tables.{IsOfTask};
ghost use Rattle.pb_abstract.specs.Graph.{AbstractGraph, IsGraphOf};
ghost use Rattle.pb_bundles.specs.Parts.{content_in};
ghost use Rattle.pb_lease.specs.LeaseValue.{leased_store, HasWeights, IsSameLease};
ghost use Rattle.pb_lease.specs.Leased.{guide_of, HasScope};
ghost use Rattle.pb_expand.specs.Turned.{own_rows, IsAtWork, IsFirst, IsNext, IsDue};
ghost use Rattle.pb_lease.specs.Rows.{own_opened};
ghost use Rattle.pb_expand.specs.Worked.{broken_by, ends_with_read};
ghost use Rattle.pb_expand.specs.Watching.{IsOfSearch, answers_of, HasAnswers, IsLevel, IsUnder, Keeps, IsAtWatch, HasTurnedReading, HasTurnedWatched};
ghost use Rattle.pb_expand.specs.declared.working.Worked.TheVariants.{Spent, Empty, Memory};

use crate::bundles::{cut, first};
use crate::turns::expand;
use crate::watch::Watch;
use crate::working::Worked;
use pb_abstract::AbsGraph;
use pb_estimate::Estimator;
use pb_lease::Lease;
use pb_lists::{FirstRow, may_be_cut};
use pb_model::Succ;
use pb_task::Task;

// Takes a cost that was read, if there is one: the lease's incumbent becomes the lesser of both
// costs.
fn take_read(lease: &mut Lease, found: Option<u64>)
    ensures { lease.new ≡ record lease.old { incumbent = lesser lease.old.incumbent found } }
{
    if let Some(cost) = found {
        lease.lower_incumbent(cost);
    }
}

// The state of the first Opened row of the lease's block, with the row's g and estimate, after the
// incumbent was read and taken.
fn next_row<W: Watch>(lease: &mut Lease, watch: &mut W) -> Option<FirstRow>
    requires can { W.can watch.old }
    requires own { IsSome (content_in lease.old.parts lease.old.block) }
    requires weights { HasWeights lease.old }
    ensures can { W.can watch.new }
    ensures stays { W.stays watch.old watch.new }
    ensures turned { (space : Space) (guide : Guide)
        → IsUnder space guide (W.seen watch.old) 0 lease.old
        → HasTurnedWatched space guide 0 0 false true lease.old (W.seen watch.old) lease.new
        (W.seen watch.new) }
    ensures copy { (space : Space) (guide : Guide)
        → IsUnder space guide (W.seen watch.old) 0 lease.old
        → IsLevel (W.seen watch.new) lease.new }
    ensures one { (space : Space) (guide : Guide)
        → IsUnder space guide (W.seen watch.old) 0 lease.old
        → HasAnswers (W.seen watch.new) (lease.new.incumbent ∷ answers_of (W.seen watch.old)) }
    ensures opened { own_opened lease.new ≡ own_opened lease.old }
    ensures some { IfSome result (λ found. IsFirst lease.new found) }
    ensures none { IfNone result (HasOpened (own_rows lease.new) → ⊥) }
{
    let found = watch.read();
    take_read(lease, found);
    first(lease)
}

// Cuts the first Opened row if it may be cut. If it is a goal's, takes it after its cost was
// reported. Answers whether it did either.
fn settle_row<W: Watch>(task: &Task, lease: &mut Lease, watch: &mut W, row: &FirstRow) -> bool
    requires can { W.can watch.old }
    requires at { (abstraction : AbstractGraph) × (choice : Choice)
        × IsAtWatch task.now abstraction choice (W.seen watch.old) lease.old }
    requires first { IsFirst lease.old row.now }
    ensures can { W.can watch.new }
    ensures stays { W.stays watch.old watch.new }
    ensures turned { (abstraction : AbstractGraph) (choice : Choice)
        → IsAtWatch task.now abstraction choice (W.seen watch.old) lease.old
        → HasTurnedWatched (space_of task.now) (guide_of task.now abstraction choice) 0 0 true
        (not result)
        lease.old (W.seen watch.old) lease.new (W.seen watch.new) }
    ensures none { answers_of (W.seen watch.new) ≡ answers_of (W.seen watch.old) }
    ensures fewer { result ≡ true → own_opened lease.new < own_opened lease.old }
    ensures next { result ≡ false → IsDue (space_of task.now) lease.new row.now }
{
    if may_be_cut(lease.weight(), lease.incumbent(), row.g, row.estimate) {
        cut(lease, &row.state);
        true
    } else if task.is_goal(&row.state) {
        // First: a cost that the lease has as its incumbent can no longer be reported.
        watch.tell(lease, row.g);
        lease.lower_incumbent(row.g);
        cut(lease, &row.state);
        true
    } else {
        false
    }
}

// Cuts and takes rows of the lease's block until the first Opened one is to be expanded, and
// answers that one's state, g and estimate.
fn settle<W: Watch>(task: &Task, lease: &mut Lease, watch: &mut W) -> Option<FirstRow>
    requires can { W.can watch.old }
    requires at { (abstraction : AbstractGraph) × (choice : Choice)
        × IsAtWatch task.now abstraction choice (W.seen watch.old) lease.old }
    ensures can { W.can watch.new }
    ensures stays { W.stays watch.old watch.new }
    ensures turned { (abstraction : AbstractGraph) (choice : Choice)
        → IsAtWatch task.now abstraction choice (W.seen watch.old) lease.old
        → HasTurnedWatched (space_of task.now) (guide_of task.now abstraction choice) 0 0 false true
        lease.old
        (W.seen watch.old) lease.new (W.seen watch.new) }
    ensures same { IsSameLease lease.old lease.new }
    ensures used { lease.new.used ≡ lease.old.used }
    ensures copy { IsLevel (W.seen watch.new) lease.new }
    ensures next { IfSome result (λ found. IsDue (space_of task.now) lease.new found) }
    ensures none { IfNone result (HasOpened (own_rows lease.new) → ⊥) }
{
    while let Some(row) = next_row(lease, watch) {
        if !settle_row(task, lease, watch, &row) {
            return Some(row);
        }
    }
    None
}

/// Works on a lease, in turns, as a best-first search does that opens rows again (Hart, Nilsson,
/// Raphael 1968), on the rows of one block. A turn cuts the first Opened row if it may be cut,
/// takes it if it is a goal's, and else expands it. The turns end when no row of the block is
/// Opened, or the lease's quota is used up. Before each turn the incumbent is read and taken into
/// the lease. The cost of a goal's row is reported before the lease has it as its incumbent. The
/// list is for successors alone. Only bundles take memory.
pub fn work_watched<W: Watch>(
    task: &Task,
    estimator: &mut Estimator,
    abstraction: &AbsGraph,
    lease: &mut Lease,
    succs: &mut Vec<Succ>,
    watch: &mut W,
) -> Worked
    requires tables { IsOfTask estimator.old task.now lease.old.choice }
    requires of_task { IsGraphOf task.now abstraction.now }
    requires room { max_degree_of task.now ≤ vec_capacity succs.old }
    requires at_work { IsAtWork task.now abstraction.now lease.old.choice lease.old }
    requires can { W.can watch.old }
    requires search { IfSome (W.seen watch.old)
        (λ seen. IsOfSearch task.now abstraction.now lease.old.choice seen) }
    requires watched { IsUnder (space_of task.now) (guide_of task.now abstraction.now
        lease.old.choice)
        (W.seen watch.old) 0 lease.old }

    // What was done: the counted expansions, one that was broken off if memory ran out, and a read
    // before each turn.
    ensures turned { HasTurnedReading (space_of task.now)
        (guide_of task.now abstraction.now lease.old.choice) lease.old.block
        (lease.new.used - lease.old.used) (broken_by result) (ends_with_read result)
        (leased_store lease.old) (leased_store lease.new) (W.seen watch.old) (W.seen watch.new) }
    ensures counted { lease.old.used ≤ lease.new.used }
    ensures within { lease.new.used ≤ lease.new.quota }

    // The lease has the least cost that was read or reported, and shows what was reported.
    ensures copy { IsLevel (W.seen watch.new) lease.new }
    ensures watched { IsUnder (space_of task.now) (guide_of task.now abstraction.now
        lease.old.choice)
        (W.seen watch.new) (broken_by result) lease.new }
    ensures kept { Keeps (W.seen watch.old) (W.seen watch.new) }

    // Why it stopped.
    ensures spent { (result ≡ Spent) ↔ (HasOpened (own_rows lease.new)
        × (lease.new.used ≡ lease.new.quota)) }
    ensures empty { (result ≡ Empty) ↔ (HasOpened (own_rows lease.new) → ⊥) }
    ensures memory { (result ≡ Memory) ↔ (HasOpened (own_rows lease.new)
        × (lease.new.used < lease.new.quota)) }
    ensures next { result ≡ Spent → (state : ℕ) × (row : Row)
        × IsNext (space_of task.now) lease.new state row }

    // What stays.
    ensures same { IsSameLease lease.old lease.new }
    ensures scope { HasScope abstraction.now lease.new }
    ensures can { W.can watch.new }
    ensures stays { W.stays watch.old watch.new }
    ensures tables { IsOfTask estimator.new task.now lease.old.choice }
    ensures room { vec_capacity succs.old ≤ vec_capacity succs.new }
{
    let quota = lease.quota();
    while let Some(row) = settle(task, lease, watch) {
        // Only here: with the quota used up, rows are still cut and goals taken.
        if lease.used() == quota {
            return Worked::Spent;
        }
        match expand(task, estimator, abstraction, lease, succs, &row) {
            Ok(()) => {}
            Err(_) => return Worked::Memory,
        }
    }
    Worked::Empty
}
