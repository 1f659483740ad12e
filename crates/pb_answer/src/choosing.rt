//! The choice of an estimate by which the words ask to search a task.
ghost use Rattle.std.specs.Prelude.{◌≡◌, true, IfOk, IfSome};
ghost use Rattle.pb_task.specs.Strips.{IsStrips};
ghost use Rattle.pb_estimate.specs.Choices.{Tables as ByTables};
ghost use Rattle.pb_estimate.specs.Estimates.{suits};
ghost use Rattle.pb_command.specs.Meaning.{IsInRange, Solve};
ghost use Rattle.pb_command.specs.Causes.{solve_meant};
ghost use Rattle.pb_answer.specs.Searches.{IsChoiceAsked, IsChoiceFor, IsFoundFor};

use pb_command::SolveCommand;
use pb_estimate::Choice;
use pb_finder::find_tables;
use pb_tables::Tables;
use pb_task::{StripsParts, Task, TaskParts};
use std::alloc::{AllocError, Global};
use std::sync::Arc;

/// The choice of an estimate by which the words ask to search a task: the tables of a file, which
/// are given, tables that are looked for now, a pattern database, or the estimate of the task's
/// kind. An error is out of memory.
pub fn choice_for(
    alloc: Global,
    task: &Task,
    given: Option<Tables>,
    solve: &SolveCommand<'_>,
) -> Result<Choice, AllocError>
    requires range { IsInRange (Solve (solve_meant solve.now)) }
    requires given { IfSome given (λ tables. suits task.now (ByTables tables) ≡ true) }
    ensures asked { IfOk result (IsChoiceAsked (solve_meant solve.now) given task.now) }
    // So the task can be searched by it.
    ensures suits { IfOk result (λ choice. suits task.now choice ≡ true) }
{
    match given {
        Some(stated) => Ok(Choice::of_tables(Arc::new(alloc, stated)?)),
        None => choice_without_file(alloc, task, solve),
    }
}

// The same without a file of tables. Tables are looked for of a STRIPS task alone. Where none are
// found, the choice is the estimate of its kind.
fn choice_without_file(
    alloc: Global,
    task: &Task,
    solve: &SolveCommand<'_>,
) -> Result<Choice, AllocError>
    ensures { IfOk result (IsChoiceFor (solve_meant solve.now).effort
        (solve_meant solve.now).settings.pattern task.now) }
{
    let chosen = Choice::with(solve.settings.pattern);
    match (solve.effort, task.parts()) {
        (None, _) => Ok(chosen),
        (Some(effort), TaskParts::Strips(strips)) => found_choice(alloc, strips, effort),
        // Tables are of STRIPS tasks alone.
        (Some(_), TaskParts::Grid(_)) => Ok(chosen),
        (Some(_), TaskParts::Tiles(_)) => Ok(chosen),
    }
}

// Tables that suit the task, or the plain estimate.
fn found_choice(alloc: Global, strips: &StripsParts, effort: u32) -> Result<Choice, AllocError>
    requires { IsStrips strips.now }
    ensures { IfOk result (IsFoundFor strips.now) }
{
    match find_tables(alloc, strips, effort)? {
        Some(tables) => Ok(Choice::of_tables(Arc::new(alloc, tables)?)),
        None => Ok(Choice::plain()),
    }
}
