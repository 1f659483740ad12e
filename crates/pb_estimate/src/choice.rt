//! The choice of an estimate.
ghost use Rattle.std.specs.Prelude.{◌≡◌, true, IfOk, IfSome};
ghost use Rattle.std.specs.Option.{option_map};
ghost use Rattle.std.specs.Arc.{arc_value};
ghost use Rattle.pb_tables.specs.Tables.{AreTables};
ghost use Rattle.pb_estimate.specs.Choices.{Plain, Pattern, Tables as TablesOf, case_of, choice_with, pattern_of, tables_of};
ghost use Rattle.pb_estimate.specs.Estimates.{suits};
ghost use Rattle.pb_estimate.specs.Tables.{HasTable};

use pb_pattern::Table;
use pb_tables::Tables;
use pb_task::{Task, TaskParts};
use std::alloc::{AllocError, Global};
use std::marker::Model;
use std::sync::Arc;

// What a choice keeps.
#[derive(Drop)]
enum Kept {
    Plain,
    Pattern(u64),
    Tables(Arc<Tables>),
}

/// By which estimate a task is searched and judged: that of its kind, a pattern or tables. Tables
/// are shared with the copies of a choice. Contracts see which of the three it is.
#[derive(Drop)]
pub struct Choice {
    kept: Kept,
}

impl Model for Choice {
    ghost use Rattle.std.specs.Prelude.{IfSome};
    ghost use Rattle.pb_tables.specs.Tables.{AreTables};
    ghost use Rattle.pb_estimate.specs.Choices.{Choice, choice_of, tables_of};

    ghost Value = { Choice };

    ghost view = { λ c. choice_of c.kept };

    ghost invariant = { λ c. IfSome (tables_of (choice_of c.kept)) AreTables };
}

/// Which choice it is.
#[derive(Clone, Copy)]
pub enum ChoiceCase<'a> {
    /// The estimate of the task's kind: the Manhattan distance or hmax.
    Plain,
    /// The greater of that estimate and the value of the pattern that has this number. Any number
    /// can be stated; a task is searched and judged only by the numbers 1 to 12.
    Pattern(u64),
    /// The estimate by these tables: Dead for a state in one of their traps, 0 if a table doesn't
    /// list the state's image, and else the greatest of their sums. Any tables can be stated for a
    /// task; it is judged only by tables that suit it.
    Tables(&'a Tables),
}

impl Clone for Choice {
    ghost is_clone = { λ choice clone. clone ≡ choice };

    fn clone(&self) -> Result<Choice, AllocError> {
        let kept = match &self.kept {
            Kept::Plain => Kept::Plain,
            Kept::Pattern(number) => Kept::Pattern(*number),
            Kept::Tables(tables) => Kept::Tables(Arc::clone(tables)?),
        };
        Ok(Choice { kept })
    }
}

impl Choice {
    /// The choice of the plain estimate.
    pub fn plain() -> Choice
        ensures { result ≡ Plain }
    {
        Choice { kept: Kept::Plain }
    }

    /// The choice of the pattern that has this number.
    pub fn of_pattern(number: u64) -> Choice
        ensures { result ≡ Pattern number }
    {
        Choice {
            kept: Kept::Pattern(number),
        }
    }

    /// The choice of these tables, which it shares.
    pub fn of_tables(tables: Arc<Tables>) -> Choice
        ensures { result ≡ TablesOf (arc_value tables) }
    {
        // The call shows that the tables are lawful, which a choice has as its invariant.
        let _ = tables.sums();
        Choice {
            kept: Kept::Tables(tables),
        }
    }

    /// The choice with the pattern of this number, and the plain one for 0.
    pub fn with(pattern: u32) -> Choice
        ensures { result ≡ choice_with pattern }
    {
        if pattern == 0 {
            Choice::plain()
        } else {
            Choice::of_pattern(u64::from(pattern))
        }
    }

    /// Which choice it is.
    pub fn case(&self) -> ChoiceCase<'_>
        ensures case { case_of result ≡ self.now }
        ensures lawful { IfSome (tables_of self.now) AreTables }
    {
        match &self.kept {
            Kept::Plain => ChoiceCase::Plain,
            Kept::Pattern(number) => ChoiceCase::Pattern(*number),
            Kept::Tables(tables) => ChoiceCase::Tables(tables),
        }
    }

    /// The number of the pattern that the estimate looks up, and 0 if it looks up none.
    pub fn pattern(&self) -> u64
        ensures { result ≡ pattern_of self.now }
    {
        match &self.kept {
            Kept::Plain => 0,
            Kept::Pattern(number) => *number,
            Kept::Tables(_) => 0,
        }
    }

    /// Whether a task may be searched and judged by this choice: its estimates are lower bounds.
    /// Tables are looked at whole.
    pub fn suits(&self, task: &Task) -> bool
        ensures { result ≡ suits task.now self.now }
    {
        match (&self.kept, task.parts()) {
            (Kept::Plain, _) => true,
            (Kept::Pattern(number), _) => 1 <= *number && *number <= 12,
            (Kept::Tables(tables), TaskParts::Strips(strips)) => tables.suit(strips),
            (Kept::Tables(_), TaskParts::Grid(_)) => false,
            (Kept::Tables(_), TaskParts::Tiles(_)) => false,
        }
    }

    /// The table of a pattern that the estimates of a task by this choice need, if they need one.
    /// Threads may share it. An error is out of memory.
    pub fn table(&self, alloc: Global, task: &Task) -> Result<Option<Arc<Table>>, AllocError>
        requires suits { suits task.now self.now ≡ true }
        ensures { IfOk result (λ table. HasTable task.now self.now (option_map arc_value table)) }
    {
        match &self.kept {
            Kept::Plain => Ok(None),
            Kept::Pattern(number) => {
                let table = Table::of(alloc, task, *number as u32)?;
                Ok(Some(Arc::new(alloc, table)?))
            }
            Kept::Tables(_) => Ok(None),
        }
    }

    /// The tables of the choice, if it has tables. They are shared. An error is out of memory.
    pub fn shared_tables(&self) -> Result<Option<Arc<Tables>>, AllocError>
        ensures { IfOk result (λ tables. option_map arc_value tables ≡ tables_of self.now) }
    {
        match &self.kept {
            Kept::Plain => Ok(None),
            Kept::Pattern(_) => Ok(None),
            Kept::Tables(tables) => Ok(Some(Arc::clone(tables)?)),
        }
    }
}
