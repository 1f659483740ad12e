//! What is answered, and the answer to each command.
ghost use Rattle.std.specs.Prelude.{◌≡◌, ◌≤◌, IfOk, []};
ghost use Rattle.pb_report.specs.Texts.{stopped_grounding_report};
ghost use Rattle.pb_command.specs.Meaning.{IsInRange, Read, Solve, Check, Journal};
ghost use Rattle.pb_command.specs.Causes.{solve_meant, check_meant, journal_meant};
ghost use Rattle.pb_answer.specs.Statuses.{number_of};
ghost use Rattle.pb_answer.specs.Loaded.{solve_task, check_task, journal_task};
ghost use Rattle.pb_answer.specs.Answer.{IsRefused, IsFoundOf, IsChecked, IsJudged, OrRefused, said_of};
ghost use Rattle.pb_answer.specs.Stops.{OrStopped};

use crate::check::judge;
use crate::input::{NoTask, input_task};
use crate::journal::judge_journal;
use crate::solve::solve_task;
use crate::status::Status;
use crate::store::SearchedStore;
use crate::tables::read_task_with_tables;
use crate::texts::Texts;
use pb_cert::{Certificate, Rewriting};
use pb_command::{CheckCommand, JournalCommand, SolveCommand};
use pb_machine::{Event, Settings};
use pb_outside::Gate;
use pb_report::Report;
use pb_strips::Looks;
use std::alloc::{AllocError, Global};
use std::sync::Wait;
use std::thread::Threads;

/// What is to be saved of a certificate.
#[derive(Drop)]
pub enum CertificateText<'a> {
    /// The certificate of a search.
    Found(Certificate<'a>),
    /// A certificate that was accepted, as it is saved anew.
    Accepted(Rewriting<'a>),
}

/// A certificate that is to be saved.
#[derive(Drop)]
pub struct SavedCertificate<'a> {
    /// The name of its file.
    pub name: &'a str,
    /// What is to be saved.
    pub text: CertificateText<'a>,
}

/// A journal that is to be saved.
#[derive(Drop)]
pub struct SavedJournal<'a> {
    /// The name of its file.
    pub name: &'a str,
    /// What the search was run with, which the header of the journal states.
    pub settings: Settings,
    /// The events of the search, each on a line.
    pub events: &'a [Event],
}

/// What is answered: the exit status, the text to print, and the certificate and the journal that
/// are to be saved, if any.
#[derive(Drop)]
pub struct Answer<'a> {
    /// The exit status.
    pub status: Status,
    /// What is to be printed, after all is saved.
    pub report: Report,
    /// What is to be saved first.
    pub certificate: Option<SavedCertificate<'a>>,
    /// What is to be saved after the certificate.
    pub journal: Option<SavedJournal<'a>>,
    /// How many looks grounding had taken when this was answered: 0 if that isn't said.
    pub looks: u64,
}

impl<'a> Answer<'a> {
    /// The answer that saves nothing, after so many looks.
    pub fn without_files(status: Status, report: Report, looks: u64) -> Answer<'a>
        ensures { said_of result
            ≡ record { status = number_of status; report = report; outputs = []; looks = looks } }
    {
        Answer {
            status,
            report,
            certificate: None,
            journal: None,
            looks,
        }
    }

    /// The same answer, which says how many looks grounding has taken.
    pub(crate) fn after(self, looks: &Looks) -> Answer<'a>
        ensures { said_of result ≡ record (said_of self.entry) { looks = looks.now.taken } }
    {
        Answer {
            looks: looks.taken(),
            ..self
        }
    }
}

/// The answer to input that is refused, after these looks.
pub(crate) fn refuse_input<'a>(report: Report, looks: &Looks) -> Answer<'a>
    ensures refused { IsRefused report (said_of result) }
    ensures counted { (said_of result).looks ≡ looks.now.taken }
{
    Answer::without_files(Status::InputRefused, report, looks.taken())
}

/// The answer if grounding was stopped after these looks. An error is out of memory.
pub(crate) fn stop_grounding<'a>(alloc: Global, looks: &Looks) -> Result<Answer<'a>, AllocError>
    ensures { IfOk result (λ a. said_of a ≡ record {
      status = 2;
      report = stopped_grounding_report;
      outputs = [];
      looks = looks.now.taken;
    }) }
{
    let report = Report::of_grounding_stop(alloc)?;
    Ok(Answer::without_files(Status::Stopped, report, looks.taken()))
}

/// The answer to a search, or to texts that spell no task, or no tables that suit it. If a file was too long, its text and the
/// later ones are left out. What the search leaves is kept in `kept`: the certificate and the
/// journal borrow it. An error is out of memory.
///
/// If no look is left in `looks`, grounding is stopped, and nothing is searched. That claims nothing
/// but that nothing is refused which comes before.
///
/// A search has as many workers as the command asks for. By leases one waits for nobody, and more
/// have a thread each. By owners each has a thread.
pub fn answer_solve<'a, R: Threads + Wait + Sync, G: Gate>(
    rt: &R,
    alloc: Global,
    solve: SolveCommand<'a>,
    texts: &Texts,
    gate: &G,
    kept: &'a mut Option<SearchedStore>,
    looks: &mut Looks,
) -> Result<Answer<'a>, AllocError>
    requires { IsInRange (Solve (solve_meant solve)) }
    ensures answers { IfOk result (λ a. OrStopped (Read (Solve (solve_meant solve.entry)))
        texts.now (OrRefused (solve_task (solve_meant solve.entry) texts.now)
        (IsFoundOf (solve_meant solve.entry))) (said_of a)) }
    ensures counted { IfOk result (λ a. (said_of a).looks ≡ looks.new.taken) }
    ensures since { looks.new.since ≡ looks.old.since }
    ensures rising { looks.old.taken ≤ looks.new.taken }
{
    match read_task_with_tables(alloc, &solve, texts, looks) {
        Ok(read) => {
            let answer = solve_task(rt, alloc, read, solve, gate, kept)?;
            Ok(answer.after(looks))
        }
        Err(NoTask::Refused(report)) => Ok(refuse_input(report, looks)),
        Err(NoTask::Stopped) => stop_grounding(alloc, looks),
        Err(NoTask::Memory) => Err(AllocError),
    }
}

/// The answer to a check: the first text is that of the certificate, and those after it spell the
/// task. If the certificate is accepted, it may be saved anew: then the answer borrows its text. An
/// error is out of memory.
///
/// If no look is left in `looks`, grounding is stopped, and nothing is judged.
///
/// The answer is the same for each number of workers. One judges alone; more have a thread each.
pub fn answer_check<'a, R: Threads + Sync, G: Gate>(
    rt: &R,
    alloc: Global,
    check: CheckCommand<'a>,
    texts: &'a Texts,
    gate: &G,
    looks: &mut Looks,
) -> Result<Answer<'a>, AllocError>
    ensures answers { IfOk result (λ a. OrStopped (Read (Check (check_meant check.entry)))
        texts.entry.now (OrRefused (check_task (check_meant check.entry) texts.entry.now)
        (λ task. IsChecked (check_meant check.entry) task.0 task.1)) (said_of a)) }
    ensures counted { IfOk result (λ a. (said_of a).looks ≡ looks.new.taken) }
    ensures since { looks.new.since ≡ looks.old.since }
    ensures rising { looks.old.taken ≤ looks.new.taken }
{
    // Texts are left out from the first on that is too long.
    let Some(certificate) = texts.get(0) else {
        return Ok(refuse_input(Report::of_line(alloc, b"input TooLong")?, looks));
    };
    match input_task(alloc, &check.input, check.options, texts, 1, looks) {
        Ok(task) => {
            let answer = judge(rt, alloc, &task, check, certificate, gate)?;
            Ok(answer.after(looks))
        }
        Err(NoTask::Refused(report)) => Ok(refuse_input(report, looks)),
        Err(NoTask::Stopped) => stop_grounding(alloc, looks),
        Err(NoTask::Memory) => Err(AllocError),
    }
}

/// The answer to a journal: the first text is that of the journal, and those after it spell the
/// task. If no look is left in `looks`, grounding is stopped, and nothing is judged. An error is out
/// of memory.
pub fn answer_journal<'a>(
    alloc: Global,
    journal: JournalCommand<'_>,
    texts: &Texts,
    looks: &mut Looks,
) -> Result<Answer<'a>, AllocError>
    ensures answers { IfOk result (λ a. OrStopped (Read (Journal (journal_meant journal.entry)))
        texts.now (OrRefused (journal_task (journal_meant journal.entry) texts.now)
        (λ task. IsJudged task.0 task.1)) (said_of a)) }
    ensures counted { IfOk result (λ a. (said_of a).looks ≡ looks.new.taken) }
    ensures since { looks.new.since ≡ looks.old.since }
    ensures rising { looks.old.taken ≤ looks.new.taken }
{
    // Texts are left out from the first on that is too long.
    let Some(text) = texts.get(0) else {
        return Ok(refuse_input(Report::of_line(alloc, b"input TooLong")?, looks));
    };
    match input_task(alloc, &journal.input, journal.options, texts, 1, looks) {
        Ok(task) => {
            let answer = judge_journal(alloc, &task, text)?;
            Ok(answer.after(looks))
        }
        Err(NoTask::Refused(report)) => Ok(refuse_input(report, looks)),
        Err(NoTask::Stopped) => stop_grounding(alloc, looks),
        Err(NoTask::Memory) => Err(AllocError),
    }
}
