//! The estimator of a task: a state's estimate by the choice, and a state's successors.
ghost use Rattle.std.specs.Prelude.{◌≡◌, ◌≤◌, true, IsTrue, IfOk, None, is_some, vec_capacity};
ghost use Rattle.std.specs.Option.{option_map, option_copied};
ghost use Rattle.std.specs.Arc.{arc_value};
ghost use Rattle.pb_model.specs.Space.{steps};
ghost use Rattle.pb_task.specs.Parts.{space_of, max_degree_of};
ghost use Rattle.pb_pattern.specs.Tables.{IsOfTask as IsTableOf};
ghost use Rattle.pb_estimate.specs.Estimates.{estimate_by, estimate_by_tables, estimate_of, greater, suits, tables_suit};
ghost use Rattle.pb_estimate.specs.Choices.{choice_with, pattern_of};
ghost use Rattle.pb_estimate.specs.Indexed.{HasIndex};
ghost use Rattle.pb_estimate.specs.Tables.{AreOfTask, HasTable, IsOfTask, IsOfSomeChoice};

use crate::action_index::{ActionIndex, MANY_ACTIONS};
use crate::choice::Choice;
use crate::strips::Counters;
use crate::{grid, strips, tiles};
use pb_model::{Estimate, Succ};
use pb_packed::Packed;
use pb_pattern::Table;
use pb_tables::Tables;
use pb_task::{Task, TaskParts};
use std::alloc::{AllocError, Global};
use std::marker::Model;
use std::sync::Arc;

/// What an estimator keeps of its task for the plain estimates, by the kind of task.
#[derive(Drop)]
pub enum PlainTables {
    /// Nothing: the distance on a grid is known from the cells alone.
    Grid,
    /// The distance of each number in each cell from its cell on the goal board, in steps, and 0
    /// for the blank.
    Tiles([u8; 256]),
    /// The task without what its actions delete, and room for counters and costs.
    Strips(Counters),
}

/// Computes the estimates of one task's states by one choice, and finds their successors. Contracts
/// see what it keeps, and that it is of the task and the choice. A table of patterns and the tables
/// of a choice are shared with other estimators.
#[derive(Drop)]
pub struct Estimator {
    plain: PlainTables,
    table: Option<Arc<Table>>,
    tables: Option<Arc<Tables>>,
    index: Option<ActionIndex>,
}

impl Model for Estimator {
    ghost use Rattle.std.specs.Option.{option_map};
    ghost use Rattle.std.specs.Arc.{arc_value};
    ghost use Rattle.pb_estimate.specs.Tables.{EstimatorValue};

    ghost Value = { EstimatorValue };

    ghost view = { λ e. record {
      plain = e.plain;
      table = option_map arc_value e.table;
      tables = option_map arc_value e.tables;
      index = e.index;
    } };
}

impl PlainTables {
    // What the plain estimates of a task need.
    fn of(alloc: Global, task: &Task) -> Result<PlainTables, AllocError>
        ensures { IfOk result (λ tables. AreOfTask tables task.now) }
    {
        Ok(match task.parts() {
            TaskParts::Grid(_) => PlainTables::Grid,
            TaskParts::Tiles(parts) => PlainTables::Tiles(tiles::ways_home(parts)),
            TaskParts::Strips(parts) => PlainTables::Strips(strips::counters_of(alloc, parts)?),
        })
    }

    // The plain estimate of a state.
    fn estimate(&mut self, task: &Task, state: &Packed) -> Estimate
        requires task { AreOfTask self.old task.now }
        requires state { IsTrue ((space_of task.now).is_state state.now) }
        ensures estimate { result ≡ estimate_of task.now state.now }
        ensures task { AreOfTask self.new task.now }
    {
        match (task.parts(), self) {
            (TaskParts::Grid(parts), _) => Estimate::Cost(grid::distance(parts, state)),
            (TaskParts::Tiles(parts), PlainTables::Tiles(ways)) => {
                Estimate::Cost(tiles::distance(parts, ways, state))
            }
            (TaskParts::Strips(parts), PlainTables::Strips(counters)) => {
                strips::estimate(parts, counters, state)
            }
            (TaskParts::Tiles(_), PlainTables::Grid) => unreachable!(),
            (TaskParts::Tiles(_), PlainTables::Strips(_)) => unreachable!(),
            (TaskParts::Strips(_), PlainTables::Grid) => unreachable!(),
            (TaskParts::Strips(_), PlainTables::Tiles(_)) => unreachable!(),
        }
    }
}

// The index of a task's actions, if the task has many.
fn index_of(alloc: Global, task: &Task) -> Result<Option<ActionIndex>, AllocError>
    ensures { IfOk result (HasIndex task.now) }
{
    match task.parts() {
        TaskParts::Strips(parts) if MANY_ACTIONS <= parts.actions.len() => {
            Ok(Some(ActionIndex::of(alloc, parts)?))
        }
        _ => Ok(None),
    }
}

// The greater of two estimates, and Dead if one is.
fn greater(one: Estimate, other: Estimate) -> Estimate
    ensures { result ≡ greater one other }
{
    match (one, other) {
        (Estimate::Cost(cost), Estimate::Cost(least)) => Estimate::Cost(cost.max(least)),
        (Estimate::Dead, _) => Estimate::Dead,
        (_, Estimate::Dead) => Estimate::Dead,
    }
}

// The estimate of a state of a STRIPS task by tables that suit it.
fn by_tables(task: &Task, tables: &Tables, state: &Packed) -> Estimate
    requires suit { tables_suit task.now tables.now ≡ true }
    ensures { result ≡ estimate_by_tables task.now tables.now state.now }
{
    match task.parts() {
        // Tables track atoms alone, and such a goal asks for a fact that is no atom.
        TaskParts::Strips(strips) if strips.never => Estimate::Dead,
        TaskParts::Strips(strips) => tables.estimate(strips, state),
        TaskParts::Grid(_) | TaskParts::Tiles(_) => unreachable!(),
    }
}

impl Estimator {
    /// The estimator of a task by a choice that suits it. All the memory that its estimates need is
    /// taken here, with a table of its own if the choice needs one. Tables of the choice are shared. An
    /// error is out of memory.
    pub fn of(alloc: Global, task: &Task, choice: &Choice) -> Result<Estimator, AllocError>
        requires suits { suits task.now choice.now ≡ true }
        ensures { IfOk result (λ estimator. IsOfTask estimator task.now choice.now) }
    {
        let plain = PlainTables::of(alloc, task)?;
        let index = index_of(alloc, task)?;
        let table = choice.table(alloc, task)?;
        let tables = choice.shared_tables()?;
        Ok(Estimator {
            plain,
            table,
            tables,
            index,
        })
    }

    /// The estimator of a task that looks up this table of the task. It is the plain one if the
    /// table's number is 0. An error is out of memory.
    pub fn with(alloc: Global, task: &Task, table: Arc<Table>) -> Result<Estimator, AllocError>
        requires table { IsTableOf (arc_value table) task.now }
        ensures { IfOk result (λ estimator. IsOfTask estimator task.now
            (choice_with (arc_value table).pattern)) }
    {
        let plain = PlainTables::of(alloc, task)?;
        let index = index_of(alloc, task)?;
        let table = if table.pattern() == 0 {
            None
        } else {
            Some(table)
        };
        Ok(Estimator {
            plain,
            table,
            tables: None,
            index,
        })
    }

    /// The estimator of a task by a choice, with the table that the choice needs, if it needs one.
    /// The table is shared, and so are the tables of the choice. An error is out of memory.
    pub fn by(
        alloc: Global,
        task: &Task,
        choice: &Choice,
        table: Option<&Arc<Table>>,
    ) -> Result<Estimator, AllocError>
        requires table { HasTable task.now choice.now (option_map arc_value (option_copied table)) }
        ensures { IfOk result (λ estimator. IsOfTask estimator task.now choice.now) }
    {
        let plain = PlainTables::of(alloc, task)?;
        let index = index_of(alloc, task)?;
        let table = match table {
            Some(table) => Some(Arc::clone(table)?),
            None => None,
        };
        let tables = choice.shared_tables()?;
        Ok(Estimator {
            plain,
            table,
            tables,
            index,
        })
    }

    /// The number of the pattern that the estimates look up, and 0 if they look up none.
    pub fn pattern(&self) -> u32
        ensures { (task : _) (choice : _) → IsOfTask self.now task choice
            → result ≡ pattern_of choice }
    {
        match &self.table {
            None => 0,
            Some(table) => table.pattern(),
        }
    }

    /// Whether the estimates look up tables of the choice.
    pub fn has_tables(&self) -> bool
        ensures { result ≡ is_some self.now.tables }
    {
        self.tables.is_some()
    }

    // The estimate of a state by the plain choice or a pattern.
    fn plain_or_pattern(&mut self, task: &Task, state: &Packed) -> Estimate
        requires task { IsOfSomeChoice self.old task.now }
        requires none { self.old.tables ≡ None }
        requires state { IsTrue ((space_of task.now).is_state state.now) }
        ensures estimate { (choice : _) → IsOfTask self.old task.now choice
            → result ≡ estimate_by task.now choice state.now }
        ensures task { (choice : _) → IsOfTask self.old task.now choice
            → IsOfTask self.new task.now choice }
    {
        let plain = self.plain.estimate(task, state);
        match &self.table {
            None => plain,
            Some(table) => greater(plain, table.least(task, state)),
        }
    }

    /// The estimate of a state of the estimator's own task, by the choice that the estimator is of,
    /// in the unit of the task's action costs. It takes no memory.
    pub fn estimate(&mut self, task: &Task, state: &Packed) -> Estimate
        requires task { IsOfSomeChoice self.old task.now }
        requires state { IsTrue ((space_of task.now).is_state state.now) }
        ensures estimate { (choice : _) → IsOfTask self.old task.now choice
            → result ≡ estimate_by task.now choice state.now }
        ensures task { (choice : _) → IsOfTask self.old task.now choice
            → IsOfTask self.new task.now choice }
    {
        match &self.tables {
            Some(tables) => by_tables(task, tables, state),
            None => self.plain_or_pattern(task, state),
        }
    }

    /// Replaces the list by all successors of a state of the estimator's own task, in order of the
    /// actions. It takes no memory: the list has room for them. From some 100 actions of a STRIPS
    /// task on, an action is looked at only if the state has the rarest of the atoms that it needs
    /// (M. Helmert, "The Fast Downward planning system", 2006).
    pub fn successors(&mut self, task: &Task, from: &Packed, out: &mut Vec<Succ>)
        requires task { IsOfSomeChoice self.old task.now }
        requires state { IsTrue ((space_of task.now).is_state from.now) }
        requires room { max_degree_of task.now ≤ vec_capacity out.old }
        ensures successors { out.new.items ≡ steps (space_of task.now) from.now }
        ensures room { vec_capacity out.old ≤ vec_capacity out.new }
        ensures task { (choice : _) → IsOfTask self.old task.now choice
            → IsOfTask self.new task.now choice }
    {
        match (task.parts(), &mut self.index) {
            (TaskParts::Strips(parts), Some(index)) => index.successors(task, parts, from, out),
            _ => task.successors(from, out),
        }
    }
}
