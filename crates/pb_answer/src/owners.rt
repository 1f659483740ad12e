//! A hash-distributed search and its answer.
ghost use Rattle.std.specs.Prelude.{◌≡◌, ◌⊎◌, IfOk, true};
ghost use Rattle.std.specs.Arc.{arc_value};
ghost use Rattle.pb_machine.specs.declared.event.End.TheVariants.{Quiet, Budget};
ghost use Rattle.pb_owners.specs.Leaves.{LeavesOwners};
ghost use Rattle.pb_command.specs.declared.command.Engine.TheVariants.{Owners as ByOwners};
ghost use Rattle.pb_command.specs.Meaning.{IsInRange, Solve};
ghost use Rattle.pb_estimate.specs.Estimates.{suits};
ghost use Rattle.pb_command.specs.Causes.{solve_meant};
ghost use Rattle.pb_answer.specs.Searches.{settings_of};
ghost use Rattle.pb_answer.specs.Named.{NamesTell};
ghost use Rattle.pb_answer.specs.Engines.{engine_asked};
ghost use Rattle.pb_answer.specs.Answer.{IsFound, IsSolved, IsUnsolvable, IsStopped, said_of};

use crate::answer::Answer;
use crate::ended::{report_end, report_stop};
use crate::store::{SearchedStore, keep_owners};
use pb_command::SolveCommand;
use pb_estimate::Choice;
use pb_machine::End;
use pb_outside::Gate;
use pb_owners::{Owners, search_by_owners};
use pb_task::Task;
use std::alloc::{AllocError, Global};
use std::sync::{Arc, Wait};
use std::thread::Threads;

/// Searches a task by owners, as the words ask and by this choice of an estimate. There are as many
/// owners as workers, each in a thread of its own. There is no journal. An error is out of memory.
pub fn solve_by_owners<'a, R: Threads + Wait + Sync, G: Gate>(
    rt: &R,
    alloc: Global,
    task: &Arc<Task>,
    choice: &Choice,
    solve: SolveCommand<'a>,
    gate: &G,
    kept: &'a mut Option<SearchedStore>,
) -> Result<Answer<'a>, AllocError>
    requires range { IsInRange (Solve (solve_meant solve)) }
    requires engine { engine_asked (solve_meant solve) ≡ ByOwners }
    requires suits { suits (arc_value task.now) choice.now ≡ true }
    requires names { NamesTell (arc_value task.now) }
    ensures { IfOk result (λ a. IsFound (solve_meant solve.entry) choice.now
        (arc_value task.now) (said_of a)) }
{
    let settings = solve.settings;
    // The search keeps a choice of its own.
    let searched = choice.clone()?;
    let (end, owners) = search_by_owners(rt, alloc, task, searched, settings, gate)?;
    // The caller keeps the owners, since the answer borrows them.
    let owners = keep_owners(kept, owners);
    match end {
        End::Quiet => answer_end(alloc, task, choice, &solve, owners),
        End::Budget => answer_stop(alloc, task, choice, &solve, owners),
        // That memory ran out is an error of the search.
        End::Memory => unreachable!(),
    }
}

// No row is Opened any more.
fn answer_end<'a>(
    alloc: Global,
    task: &Task,
    choice: &Choice,
    solve: &SolveCommand<'a>,
    owners: &'a Owners,
) -> Result<Answer<'a>, AllocError>
    requires range { IsInRange (Solve (solve_meant solve.now)) }
    requires engine { engine_asked (solve_meant solve.now) ≡ ByOwners }
    requires suits { suits task.now choice.now ≡ true }
    requires quiet { LeavesOwners task.now choice.now (settings_of (solve_meant solve.now)) Quiet
        owners.now }
    requires names { NamesTell task.now }
    ensures { IfOk result (λ a. IsSolved (solve_meant solve.now) choice.now task.now
        (said_of a)
        ⊎ IsUnsolvable (solve_meant solve.now) choice.now task.now (said_of a)) }
{
    report_end(alloc, task, choice, solve, owners, None)
}

// The budget was used up.
fn answer_stop<'a>(
    alloc: Global,
    task: &Task,
    choice: &Choice,
    solve: &SolveCommand<'a>,
    _owners: &'a Owners,
) -> Result<Answer<'a>, AllocError>
    requires engine { engine_asked (solve_meant solve.now) ≡ ByOwners }
    requires stopped { LeavesOwners task.now choice.now (settings_of (solve_meant solve.now)) Budget
        _owners.now }
    ensures { IfOk result (λ a. IsStopped (solve_meant solve.now) choice.now task.now (said_of a)) }
{
    report_stop(alloc, task, choice, solve, None)
}
