//! How a search with falling weights begins: the task is read and searched for the first time.
ghost use Rattle.std.specs.Prelude.{◌≡◌, ◌≤◌, IfOk};
ghost use Rattle.pb_command.specs.Meaning.{IsInRange, Falling};
ghost use Rattle.pb_command.specs.Causes.{falling_meant};
ghost use Rattle.pb_answer.specs.FallingBegins.{BeginsFalling, SaysLooks};

use crate::answer::{Answer, refuse_input, stop_grounding};
use crate::choosing::choice_for;
use crate::falling::FallingSearch;
use crate::input::NoTask;
use crate::tables::{TaskWithTables, read_task_with_tables};
use crate::texts::Texts;
use pb_command::FallingCommand;
use pb_outside::Gate;
use pb_strips::Looks;
use std::alloc::{AllocError, Global};
use std::sync::{Arc, Wait};
use std::thread::Threads;

/// How a search with falling weights begins.
#[derive(Drop)]
pub enum FallingBegin<'a> {
    /// The texts spell a task, and its first run was made.
    Search(FallingSearch<'a>),
    /// The texts spell no task, or no tables that suit it.
    Refused(Answer<'a>),
    /// Grounding was stopped.
    Stopped(Answer<'a>),
}

/// Reads the task that the texts spell, and searches it for the first time. If a file was too long,
/// its text and the later ones are left out. An error is out of memory.
///
/// If no look is left in `looks`, grounding is stopped, and nothing is searched.
///
/// A search has as many workers as the command asks for. One waits for nobody, and more have a
/// thread each.
pub fn begin_falling<'a, R: Threads + Wait + Sync, G: Gate>(
    rt: &R,
    alloc: Global,
    falling: FallingCommand<'a>,
    texts: &Texts,
    gate: &G,
    looks: &mut Looks,
) -> Result<FallingBegin<'a>, AllocError>
    requires { IsInRange (Falling (falling_meant falling)) }
    ensures begins { IfOk result (BeginsFalling (falling_meant falling.entry) texts.now) }
    ensures counted { IfOk result (λ begin. SaysLooks begin looks.new.taken) }
    ensures since { looks.new.since ≡ looks.old.since }
    ensures rising { looks.old.taken ≤ looks.new.taken }
{
    match read_task_with_tables(alloc, &falling.solve, texts, looks) {
        Ok(TaskWithTables { task, tables }) => {
            let task = Arc::new(alloc, task)?;
            let choice = choice_for(alloc, &task, tables, &falling.solve)?;
            let search = FallingSearch::start(rt, alloc, &task, choice, falling, gate)?;
            Ok(FallingBegin::Search(search))
        }
        Err(NoTask::Refused(report)) => Ok(FallingBegin::Refused(refuse_input(report, looks))),
        Err(NoTask::Stopped) => Ok(FallingBegin::Stopped(stop_grounding(alloc, looks)?)),
        Err(NoTask::Memory) => Err(AllocError),
    }
}
