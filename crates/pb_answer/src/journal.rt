//! Judging the text of a journal.
ghost use Rattle.std.specs.Prelude.{◌≡◌, [], IfOk};
ghost use Rattle.pb_answer.specs.Statuses.{number_of};
ghost use Rattle.pb_answer.specs.Journals.{GivesJournal};
ghost use Rattle.pb_answer.specs.Answer.{IsJudged, said_of};

use crate::answer::Answer;
use crate::status::Status;
use pb_abstract::AbsGraph;
use pb_journal::{JournalError, open_journal};
use pb_report::Report;
use pb_task::Task;
use std::alloc::{AllocError, Global};

/// Judges the text of a journal for a task: the number of its events with status 0, or its first
/// line that is refused with status 3. An error is out of memory.
pub fn judge_journal<'a>(alloc: Global, task: &Task, text: &[u8]) -> Result<Answer<'a>, AllocError>
    ensures { IfOk result (λ a. IsJudged task.now text.now (said_of a)) }
{
    match count_events(alloc, task, text) {
        Ok(events) => Ok(Answer::without_files(
            Status::Success,
            Report::of_journal(alloc, events)?,
            0,
        )),
        Err(JournalError::At { line, why }) => Ok(Answer::without_files(
            Status::Rejected,
            Report::of_journal_fault(alloc, line, why)?,
            0,
        )),
        Err(JournalError::Memory) => Err(AllocError),
    }
}

// How many events a journal has, or its first line that is refused. Its blocks are those of the
// task by the number that its header wishes for.
fn count_events(alloc: Global, task: &Task, text: &[u8]) -> Result<u64, JournalError>
    ensures { GivesJournal task.now text.now result }
{
    // The header first: the number of blocks is in it.
    let journal = open_journal(text)?;
    let settings = journal.settings();
    let abstraction = AbsGraph::of(alloc, task, settings.wish)?;
    journal.check(alloc, &abstraction)
}
