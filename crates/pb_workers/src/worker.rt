//! What a worker takes with it to its leases.
ghost use Rattle.std.specs.Prelude.{◌≡◌, ◌↔◌, ◌-◌, ◌≤◌, IfOk, IfSome, option_map, option_copied, vec_capacity};
ghost use Rattle.std.specs.Arc.{arc_value};
ghost use Rattle.pb_model.specs.Store.{HasOpened};
ghost use Rattle.pb_task.specs.Parts.{space_of, max_degree_of};
ghost use Rattle.pb_estimate.specs.Tables.{IsOfTask, HasTable};
ghost use Rattle.pb_abstract.specs.Graph.{IsGraphOf};
ghost use Rattle.pb_lease.specs.LeaseValue.{leased_store, IsSameLease};
ghost use Rattle.pb_lease.specs.Leased.{guide_of, HasScope};
ghost use Rattle.pb_expand.specs.Turned.{own_rows, IsAtWork, HasTurned, reads_none};
ghost use Rattle.pb_expand.specs.Worked.{broken_by, ends_with_read};
ghost use Rattle.pb_expand.specs.Watching.{IsOfSearch, IsUnder, HasTurnedReading};
ghost use Rattle.pb_expand.specs.declared.working.Worked.TheVariants.{Spent, Empty};
ghost use Rattle.pb_workers.specs.Tools.{AreFor};
ghost use Rattle.pb_workers.specs.Holding.{Works};

use pb_abstract::AbsGraph;
use pb_estimate::{Choice, Estimator};
use pb_expand::{Watch, Worked, work, work_watched};
use pb_lease::Lease;
use pb_model::Succ;
use pb_pattern::Table;
use pb_task::Task;
use std::alloc::{AllocError, Global};
use std::sync::Arc;

/// What a worker needs memory for: an estimator, and a list for successors.
#[derive(Drop)]
pub struct Tools {
    pub(crate) estimator: Estimator,
    pub(crate) succs: Vec<Succ>,
}

impl Tools {
    /// Tools for this task, with the estimates of this choice and the table that they need. An
    /// error is out of memory.
    pub fn new(
        alloc: Global,
        task: &Task,
        choice: &Choice,
        table: Option<&Arc<Table>>,
    ) -> Result<Tools, AllocError>
        requires { HasTable task.now choice.now (option_map arc_value (option_copied table)) }
        ensures { IfOk result (AreFor task.now choice.now) }
    {
        let estimator = Estimator::by(alloc, task, choice, table)?;
        let succs = Vec::with_capacity(alloc, task.max_degree() as usize)?;
        Ok(Tools { estimator, succs })
    }
}

/// What a worker needs to work on a lease: the task, its blocks, and tools. It takes no more
/// memory.
#[derive(Drop)]
pub struct Worker<'a> {
    pub(crate) task: &'a Task,
    pub(crate) abstraction: &'a AbsGraph,
    pub(crate) estimator: Estimator,
    pub(crate) succs: Vec<Succ>,
    ghost room: { max_degree_of task.now ≤ vec_capacity succs },
}

impl<'a> Worker<'a> {
    /// A worker for this task by these blocks, with tools for the task.
    pub fn new(task: &'a Task, abstraction: &'a AbsGraph, tools: Tools) -> Worker<'a>
        requires { max_degree_of task.now ≤ vec_capacity tools.succs }
        ensures task { result.task.now ≡ task.now }
        ensures abstraction { result.abstraction.now ≡ abstraction.now }
        ensures tools { (choice : _) → IsOfTask tools.estimator task.now choice
            → IsOfTask result.estimator result.task.now choice }
    {
        let Tools { estimator, succs } = tools;
        Worker {
            task,
            abstraction,
            estimator,
            succs,
        }
    }

    /// Works on a lease until its quota is used up, no row of its block is Opened, or memory runs
    /// out.
    pub fn work(&mut self, lease: &mut Lease) -> Worked
        requires of_task { IsGraphOf self.old.task.now self.old.abstraction.now }
        requires at_work { IsAtWork self.old.task.now self.old.abstraction.now lease.old.choice
            lease.old }
        requires tools { IsOfTask self.old.estimator self.old.task.now lease.old.choice }
        ensures turned { HasTurned (space_of self.old.task.now)
            (guide_of self.old.task.now self.old.abstraction.now lease.old.choice) reads_none lease.old.block
            (lease.new.used - lease.old.used) (broken_by result)
            (leased_store lease.old) (leased_store lease.new) }
        ensures counted { lease.old.used ≤ lease.new.used }
        ensures within { lease.new.used ≤ lease.new.quota }
        ensures out { Works self.old.task.now self.old.abstraction.now lease.old.choice lease.old lease.new
            (broken_by result) }
        ensures spent { (result ≡ Spent)
            ↔ (HasOpened (own_rows lease.new) × (lease.new.used ≡ lease.new.quota)) }
        ensures empty { (result ≡ Empty) ↔ (HasOpened (own_rows lease.new) → ⊥) }
        ensures same { IsSameLease lease.old lease.new }
        ensures scope { HasScope self.old.abstraction.now lease.new }
        ensures task { self.new.task.now ≡ self.old.task.now }
        ensures abstraction { self.new.abstraction.now ≡ self.old.abstraction.now }
        ensures tools { IsOfTask self.new.estimator self.new.task.now lease.old.choice }
    {
        work(
            self.task,
            &mut self.estimator,
            self.abstraction,
            lease,
            &mut self.succs,
        )
    }

    /// Works on a lease as `work` does, under a watch of the incumbent.
    pub fn work_watched<W: Watch>(&mut self, lease: &mut Lease, watch: &mut W) -> Worked
        requires of_task { IsGraphOf self.old.task.now self.old.abstraction.now }
        requires at_work { IsAtWork self.old.task.now self.old.abstraction.now lease.old.choice
            lease.old }
        requires tools { IsOfTask self.old.estimator self.old.task.now lease.old.choice }
        requires can { W.can watch.old }
        requires search { IfSome (W.seen watch.old) (λ seen.
            IsOfSearch self.old.task.now self.old.abstraction.now lease.old.choice seen) }
        requires watched { IsUnder (space_of self.old.task.now)
            (guide_of self.old.task.now self.old.abstraction.now lease.old.choice)
            (W.seen watch.old) 0 lease.old }
        ensures turned { HasTurnedReading (space_of self.old.task.now)
            (guide_of self.old.task.now self.old.abstraction.now lease.old.choice)
            lease.old.block (lease.new.used - lease.old.used) (broken_by result)
            (ends_with_read result) (leased_store lease.old) (leased_store lease.new)
            (W.seen watch.old) (W.seen watch.new) }
        ensures watched { IsUnder (space_of self.old.task.now)
            (guide_of self.old.task.now self.old.abstraction.now lease.old.choice)
            (W.seen watch.new) (broken_by result) lease.new }
        ensures can { W.can watch.new }
        ensures stays { W.stays watch.old watch.new }
        ensures spent { (result ≡ Spent)
            ↔ (HasOpened (own_rows lease.new) × (lease.new.used ≡ lease.new.quota)) }
        ensures empty { (result ≡ Empty) ↔ (HasOpened (own_rows lease.new) → ⊥) }
        ensures same { IsSameLease lease.old lease.new }
        ensures scope { HasScope self.old.abstraction.now lease.new }
        ensures task { self.new.task.now ≡ self.old.task.now }
        ensures abstraction { self.new.abstraction.now ≡ self.old.abstraction.now }
        ensures tools { IsOfTask self.new.estimator self.new.task.now lease.old.choice }
    {
        work_watched(
            self.task,
            &mut self.estimator,
            self.abstraction,
            lease,
            &mut self.succs,
            watch,
        )
    }
}
