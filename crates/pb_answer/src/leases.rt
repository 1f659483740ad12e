//! A search by leases and its answer.
ghost use Rattle.std.specs.Prelude.{◌≡◌, ◌⊎◌, IfOk, true};
ghost use Rattle.std.specs.Arc.{arc_value};
ghost use Rattle.pb_search.specs.Searches.{LeavesQuiet, LeavesStopped};
ghost use Rattle.pb_command.specs.declared.command.Engine.TheVariants.{Leases};
ghost use Rattle.pb_command.specs.Meaning.{IsInRange, Solve};
ghost use Rattle.pb_estimate.specs.Estimates.{suits};
ghost use Rattle.pb_command.specs.Causes.{solve_meant};
ghost use Rattle.pb_answer.specs.Searches.{settings_of};
ghost use Rattle.pb_answer.specs.Named.{NamesTell};
ghost use Rattle.pb_answer.specs.Engines.{engine_asked};
ghost use Rattle.pb_answer.specs.Claims.{journal_outputs};
ghost use Rattle.pb_answer.specs.Answer.{IsFound, IsSolved, IsUnsolvable, IsStopped, journals_of, said_of};

use crate::answer::{Answer, SavedJournal};
use crate::ended::{report_end, report_stop};
use crate::store::{SearchedStore, keep_leases};
use pb_command::SolveCommand;
use pb_estimate::Choice;
use pb_lease::LeaseGraph;
use pb_machine::End;
use pb_outside::Gate;
use pb_search::search;
use pb_task::Task;
use std::alloc::{AllocError, Global};
use std::sync::{Arc, Wait};
use std::thread::Threads;

/// Searches a task by leases, as the words ask and by this choice of an estimate. One worker waits
/// for nobody, and more have a thread each. An error is out of memory.
pub fn solve_by_leases<'a, R: Threads + Wait + Sync, G: Gate>(
    rt: &R,
    alloc: Global,
    task: &Arc<Task>,
    choice: &Choice,
    solve: SolveCommand<'a>,
    gate: &G,
    kept: &'a mut Option<SearchedStore>,
) -> Result<Answer<'a>, AllocError>
    requires range { IsInRange (Solve (solve_meant solve)) }
    requires engine { engine_asked (solve_meant solve) ≡ Leases }
    requires suits { suits (arc_value task.now) choice.now ≡ true }
    requires names { NamesTell (arc_value task.now) }
    ensures { IfOk result (λ a. IsFound (solve_meant solve.entry) choice.now
        (arc_value task.now) (said_of a)) }
{
    let settings = solve.settings;
    // The search keeps a choice of its own.
    let searched = choice.clone()?;
    let graph = search(rt, alloc, task, searched, settings, gate)?;
    // The caller keeps the graph, since the answer borrows it.
    let graph = keep_leases(kept, graph);
    match graph.end() {
        Some(End::Quiet) => answer_end(alloc, task, choice, &solve, graph),
        Some(End::Budget) => answer_stop(alloc, task, choice, &solve, graph),
        // `search` gives no other end: that memory ran out is its error.
        Some(End::Memory) | None => unreachable!(),
    }
}

// No row is Opened any more.
fn answer_end<'a>(
    alloc: Global,
    task: &Task,
    choice: &Choice,
    solve: &SolveCommand<'a>,
    graph: &'a LeaseGraph,
) -> Result<Answer<'a>, AllocError>
    requires range { IsInRange (Solve (solve_meant solve.now)) }
    requires engine { engine_asked (solve_meant solve.now) ≡ Leases }
    requires suits { suits task.now choice.now ≡ true }
    requires quiet { LeavesQuiet task.now choice.now (settings_of (solve_meant solve.now))
        graph.now }
    requires names { NamesTell task.now }
    ensures { IfOk result (λ a. IsSolved (solve_meant solve.now) choice.now task.now
        (said_of a)
        ⊎ IsUnsolvable (solve_meant solve.now) choice.now task.now (said_of a)) }
{
    let journal = save_journal(solve, graph);
    report_end(alloc, task, choice, solve, graph, journal)
}

// The budget was used up.
fn answer_stop<'a>(
    alloc: Global,
    task: &Task,
    choice: &Choice,
    solve: &SolveCommand<'a>,
    graph: &'a LeaseGraph,
) -> Result<Answer<'a>, AllocError>
    requires engine { engine_asked (solve_meant solve.now) ≡ Leases }
    requires stopped { LeavesStopped task.now choice.now (settings_of (solve_meant solve.now))
        graph.now }
    ensures { IfOk result (λ a. IsStopped (solve_meant solve.now) choice.now task.now (said_of a)) }
{
    let journal = save_journal(solve, graph);
    report_stop(alloc, task, choice, solve, journal)
}

// The journal, if it has a name.
fn save_journal<'a>(solve: &SolveCommand<'a>, graph: &'a LeaseGraph) -> Option<SavedJournal<'a>>
    requires { graph.now.table.settings ≡ settings_of (solve_meant solve.now) }
    ensures { journals_of result ≡ journal_outputs (solve_meant solve.now).journal
        (settings_of (solve_meant solve.now)) graph.now.table.journal }
{
    match solve.journal {
        Some(name) => Some(SavedJournal {
            name,
            settings: *graph.settings(),
            events: graph.journal(),
        }),
        None => None,
    }
}
