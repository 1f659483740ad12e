//! The answer to `make`.
ghost use Rattle.std.specs.Prelude.{◌≡◌, IfOk};
ghost use Rattle.pb_command.specs.Meaning.{IsInRange, Make};
ghost use Rattle.pb_command.specs.Causes.{make_meant};
ghost use Rattle.pb_answer.specs.Answer.{said_of};
ghost use Rattle.pb_run.specs.Makes.{made_report, made_status};
ghost use Rattle.pb_run.specs.Answers.{IsMade};

use pb_answer::{Answer, Status};
use pb_check::Claim;
use pb_command::MakeCommand;
use pb_made::{MadeAnswer, solve_made};
use pb_outside::Gate;
use pb_report::Report;
use std::alloc::{AllocError, Global};
use std::sync::Wait;
use std::thread::Threads;

// The status of what came out of a made task.
fn status_of(answer: &MadeAnswer) -> Status
    ensures { result ≡ made_status answer.now }
{
    match answer {
        MadeAnswer::Accepted { verdict } => match verdict.claim() {
            Claim::Bounded { .. } => Status::Success,
            Claim::Unsolvable => Status::NoPlan,
        },
        MadeAnswer::Stopped { .. } => Status::Stopped,
    }
}

// What is printed of it. An error is out of memory.
fn report_made(alloc: Global, answer: &MadeAnswer) -> Result<Report, AllocError>
    ensures { IfOk result (λ report. report ≡ made_report answer.now) }
{
    match answer {
        MadeAnswer::Accepted { verdict } => Report::of_made(alloc, &verdict.claim()),
        MadeAnswer::Stopped { budget } => Report::of_stop(alloc, *budget),
    }
}

/// Makes a task of the words' kind, seed and size, solves it, checks the certificate, and says what
/// came out. Nothing is saved. The answer counts the given looks: a made task is grounded without
/// them. An error is out of memory.
pub fn make_task<'a, R: Threads + Wait + Sync, G: Gate>(
    rt: &R,
    alloc: Global,
    make: MakeCommand,
    gate: &G,
    looks: u64,
) -> Result<Answer<'a>, AllocError>
    requires { IsInRange (Make (make_meant make)) }
    ensures made { IfOk result (λ a. IsMade (make_meant make) (said_of a)) }
    ensures looks { IfOk result (λ a. (said_of a).looks ≡ looks) }
{
    // There are 1 to 64 workers.
    let workers = make.workers as u32;
    let answer = solve_made(rt, alloc, make.kind, make.seed, make.size, workers, gate)?;
    let report = report_made(alloc, &answer)?;
    Ok(Answer::without_files(status_of(&answer), report, looks))
}
