//! What is answered of what the words ask for, and of the texts of the loaded files.
ghost use Rattle.std.specs.Prelude.{◌≡◌, ◌≤◌, IfOk, []};
ghost use Rattle.pb_command.specs.Meaning.{Read, Falling, IsInRange};
ghost use Rattle.pb_command.specs.Causes.{meaning_of, falling_meant};
ghost use Rattle.pb_answer.specs.Answer.{said_of};
ghost use Rattle.pb_run.specs.Read.{reading_of, IsRead};
ghost use Rattle.pb_run.specs.Begun.{Begins};

use crate::asked::Asked;
use crate::lend::{lend_check, lend_falling, lend_solve};
use crate::make::make_task;
use pb_answer::{
    Answer, FallingBegin, FallingSearch, SearchedStore, Status, Texts, answer_check,
    answer_journal, answer_solve, begin_falling,
};
use pb_command::{CommandLine, FallingCommand, Message};
use pb_outside::Gate;
use pb_report::Report;
use pb_strips::Looks;
use std::alloc::{AllocError, Global};
use std::sync::Wait;
use std::thread::Threads;

/// What is begun for what the words ask for.
#[derive(Drop)]
pub enum Begun<'a> {
    /// The whole answer, which is handed out in one part.
    Answered(Answer<'a>),
    /// A search with falling weights after its first run. What it claims is handed out after each
    /// run.
    Searching(FallingSearch<'a>),
}

// The answer to words that are no command line.
fn refuse_words<'a>(alloc: Global, message: &Message, looks: u64) -> Result<Answer<'a>, AllocError>
    ensures { IfOk result (λ a. said_of a ≡ record {
      status = 64;
      report = message.now;
      outputs = [];
      looks = looks;
    }) }
{
    let report = Report::of_text(alloc, message.as_bytes())?;
    Ok(Answer::without_files(Status::WordsRefused, report, looks))
}

// The first run of a search with falling weights, or the answer to texts that spell no task, or of
// which the grounding is stopped.
fn begin_claims<'a, 'w: 'a, R: Threads + Wait + Sync, G: Gate>(
    rt: &R,
    alloc: Global,
    falling: &FallingCommand<'w>,
    texts: &'a Texts,
    gate: &G,
    looks: &mut Looks,
) -> Result<Begun<'a>, AllocError>
    requires { IsInRange (Falling (falling_meant falling.now)) }
    ensures begins { IfOk result (Begins (Read (Falling (falling_meant falling.now)))
        texts.entry.now looks.new.taken) }
    ensures since { looks.new.since ≡ looks.old.since }
    ensures rising { looks.old.taken ≤ looks.new.taken }
{
    match begin_falling(rt, alloc, lend_falling(falling), texts, gate, looks)? {
        FallingBegin::Search(search) => Ok(Begun::Searching(search)),
        FallingBegin::Refused(answer) => Ok(Begun::Answered(answer)),
        FallingBegin::Stopped(answer) => Ok(Begun::Answered(answer)),
    }
}

// What is answered of a command, and of the texts that were loaded of its files.
fn answer_command<'a, 'w: 'a, R: Threads + Wait + Sync, G: Gate>(
    rt: &R,
    alloc: Global,
    command: &CommandLine<'w>,
    texts: &'a Texts,
    gate: &G,
    kept: &'a mut Option<SearchedStore>,
    looks: &mut Looks,
) -> Result<Begun<'a>, AllocError>
    requires { IsInRange (meaning_of command.now) }
    ensures begins { IfOk result (Begins (Read (meaning_of command.now)) texts.entry.now
        looks.new.taken) }
    ensures since { looks.new.since ≡ looks.old.since }
    ensures rising { looks.old.taken ≤ looks.new.taken }
{
    match command {
        CommandLine::Solve(solve) => Ok(Begun::Answered(answer_solve(
            rt,
            alloc,
            lend_solve(solve),
            texts,
            gate,
            kept,
            looks,
        )?)),
        CommandLine::Falling(falling) => begin_claims(rt, alloc, falling, texts, gate, looks),
        CommandLine::Check(check) => Ok(Begun::Answered(answer_check(
            rt,
            alloc,
            lend_check(check),
            texts,
            gate,
            looks,
        )?)),
        CommandLine::Journal(journal) => Ok(Begun::Answered(answer_journal(
            alloc, *journal, texts, looks,
        )?)),
        CommandLine::Make(make) => Ok(Begun::Answered(make_task(
            rt,
            alloc,
            *make,
            gate,
            looks.taken(),
        )?)),
    }
}

/// What is answered of what the words ask for, and of the texts that were loaded of the files that
/// they name. For falling weights it is the search after its first run, and the next runs are still
/// to be made. If a file was too long, its text and the later ones are left out. What a search
/// leaves is kept in `kept`: the certificate and the journal borrow it. Grounding takes `looks`,
/// and is stopped if none is left. An error is out of memory.
///
/// This is the whole program but its reading, saving and printing, and the later runs. A search has
/// as many workers as the words ask for. By leases one waits for nobody, and more have a thread
/// each.
pub fn answer_asked<'a, 'w: 'a, R: Threads + Wait + Sync, G: Gate>(
    rt: &R,
    alloc: Global,
    asked: &Asked<'w>,
    texts: &'a Texts,
    gate: &G,
    kept: &'a mut Option<SearchedStore>,
    looks: &mut Looks,
) -> Result<Begun<'a>, AllocError>
    requires { IsRead asked.now }
    ensures begins { IfOk result (Begins (reading_of asked.now) texts.entry.now
        looks.new.taken) }
    ensures since { looks.new.since ≡ looks.old.since }
    ensures rising { looks.old.taken ≤ looks.new.taken }
{
    match asked {
        Asked::Command(command) => answer_command(rt, alloc, command, texts, gate, kept, looks),
        Asked::NoCommand(_, message) => Ok(Begun::Answered(refuse_words(
            alloc,
            message,
            looks.taken(),
        )?)),
    }
}
