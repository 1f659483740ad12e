//! A search as the words ask for it, by the engine that they name.
ghost use Rattle.std.specs.Prelude.{◌≡◌, true, IfOk, IfSome};
ghost use Rattle.pb_estimate.specs.Choices.{Tables as ByTables};
ghost use Rattle.pb_estimate.specs.Estimates.{suits};
ghost use Rattle.pb_command.specs.Meaning.{IsInRange, Solve};
ghost use Rattle.pb_command.specs.Causes.{solve_meant};
ghost use Rattle.pb_answer.specs.Named.{NamesTell};
ghost use Rattle.pb_answer.specs.Answer.{IsFoundOf, said_of};

use crate::answer::Answer;
use crate::choosing::choice_for;
use crate::leases::solve_by_leases;
use crate::owners::solve_by_owners;
use crate::store::SearchedStore;
use crate::tables::TaskWithTables;
use pb_command::{Engine, SolveCommand};
use pb_outside::Gate;
use std::alloc::{AllocError, Global};
use std::sync::{Arc, Wait};
use std::thread::Threads;

/// Searches a task as the words ask, by the estimate that they ask for: with tables that were read
/// from a file, by these. It makes the report and, for each that has a name, the certificate and the
/// journal. The rows are kept in `kept`: certificate and journal borrow them. An error is out of
/// memory.
pub fn solve_task<'a, R: Threads + Wait + Sync, G: Gate>(
    rt: &R,
    alloc: Global,
    read: TaskWithTables,
    solve: SolveCommand<'a>,
    gate: &G,
    kept: &'a mut Option<SearchedStore>,
) -> Result<Answer<'a>, AllocError>
    requires range { IsInRange (Solve (solve_meant solve)) }
    requires names { NamesTell read.task }
    requires suits { IfSome read.tables (λ tables. suits read.task (ByTables tables) ≡ true) }
    ensures { IfOk result (λ a. IsFoundOf (solve_meant solve.entry)
        (read.task, read.tables) (said_of a)) }
{
    let TaskWithTables { task, tables } = read;
    // Workers share the task.
    let task = Arc::new(alloc, task)?;
    let choice = choice_for(alloc, &task, tables, &solve)?;
    match solve.engine {
        Engine::Leases => solve_by_leases(rt, alloc, &task, &choice, solve, gate, kept),
        Engine::Owners => solve_by_owners(rt, alloc, &task, &choice, solve, gate, kept),
    }
}
