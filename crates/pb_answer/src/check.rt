//! Judging the text of a certificate.
ghost use Rattle.std.specs.Prelude.{◌≡◌, IfOk, Ok};
ghost use Rattle.pb_check.specs.declared.fault.Verdict.{Verdict};
ghost use Rattle.pb_check.specs.Shown.{IsAccepted};
ghost use Rattle.pb_command.specs.Causes.{check_meant};
ghost use Rattle.pb_answer.specs.Claims.{rewritten_outputs};
ghost use Rattle.pb_answer.specs.Answer.{IsChecked, certificates_of, said_of};

use crate::answer::{Answer, CertificateText, SavedCertificate};
use crate::checking::verdict_by;
use crate::status::Status;
use pb_cert::Rewriting;
use pb_check::CheckError;
use pb_command::CheckCommand;
use pb_outside::Gate;
use pb_report::Report;
use pb_task::Task;
use std::alloc::{AllocError, Global};
use std::thread::Threads;

// The accepted certificate as it is saved anew, if it has a name.
fn rewrite<'a>(
    task: &Task,
    command: &CheckCommand<'a>,
    certificate: &'a [u8],
) -> Option<SavedCertificate<'a>>
    requires { (verdict : Verdict) × IsAccepted task.now certificate.now verdict }
    ensures { certificates_of result
        ≡ rewritten_outputs (check_meant command.now) task.now certificate.entry.now }
{
    match command.rewrite {
        Some(name) => Some(SavedCertificate {
            name,
            text: CertificateText::Accepted(Rewriting::of(task, certificate)),
        }),
        None => None,
    }
}

/// Judges the text of a certificate for a task: its verdict with status 0, or its first fault with
/// status 3. What is accepted is to be saved anew, if the command has a name for it. An error is
/// out of memory.
pub fn judge<'a, R: Threads + Sync, G: Gate>(
    rt: &R,
    alloc: Global,
    task: &Task,
    command: CheckCommand<'a>,
    certificate: &'a [u8],
    gate: &G,
) -> Result<Answer<'a>, AllocError>
    ensures { IfOk result (λ a. IsChecked (check_meant command.entry) task.now
        certificate.entry.now (said_of a)) }
{
    match verdict_by(rt, alloc, task, command.workers, certificate, gate) {
        Ok(verdict) => {
            let report = Report::of_verdict(alloc, &verdict.claim())?;
            Ok(Answer {
                status: Status::Success,
                report,
                certificate: rewrite(task, &command, certificate),
                journal: None,
                // `answer_check` adds the looks.
                looks: 0,
            })
        }
        Err(CheckError::Fault(fault)) => {
            let report = Report::of_certificate_fault(alloc, &fault)?;
            Ok(Answer {
                status: Status::Rejected,
                report,
                certificate: None,
                journal: None,
                looks: 0,
            })
        }
        Err(CheckError::Memory) => Err(AllocError),
    }
}
