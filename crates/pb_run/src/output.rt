//! Handing out an answer: what is to be saved, and then the report.
ghost use Rattle.std.specs.Prelude.{◌≡◌, ◌≤◌, ◌++◌, ℕ, List, IsSome, IsOk, OnOk, OnErr, length};
ghost use Rattle.pb_outside.specs.Outside.{IfTold, Rose, HasCause, KeepsHolds};
ghost use Rattle.pb_outside.specs.Calls.{KeepsTakes};
ghost use Rattle.pb_run.specs.Calls.{CanHold};
ghost use Rattle.pb_command.specs.Meaning.{Reading};
ghost use Rattle.pb_answer.specs.Statuses.{number_of};
ghost use Rattle.pb_answer.specs.Answer.{certificates_of, journals_of, said_of};
ghost use Rattle.pb_run.specs.Contents.{SavesIn, SavesPartIn, Saved, SavedPart, Hands, HandsTold};
ghost use Rattle.pb_run.specs.Outcome.{IsAnswer};
ghost use Rattle.pb_run.specs.Served.{HandsOutIfPartsFit};
ghost use Rattle.pb_run.specs.PartByPart.{HandsOutTexts};
ghost use Rattle.pb_run.specs.Begun.{IsOnePart};
ghost use Rattle.pb_run.specs.declared.output.Ending.TheVariants.{Done, NotSaved, NotPrinted};

use pb_answer::{Answer, CertificateText, SavedCertificate, SavedJournal, Status};
use pb_journal::write_journal;
use pb_outside::{Failed, Shelf, Sink};

/// How an answer was handed out.
#[derive(Clone, Copy, Debug, PartialEq, Eq)]
pub enum Ending {
    /// What was to be saved is saved, and the report is printed.
    Done,
    /// The shelf failed while the certificate or the journal was saved, and nothing is printed.
    NotSaved,
    /// The sink failed while the report was printed.
    NotPrinted,
}

// Saves a certificate, if there is one.
fn save_certificate<H: Shelf>(
    shelf: &mut H,
    saved: &Option<SavedCertificate<'_>>,
) -> Result<(), Failed>
    ensures ok { OnOk result (IfTold (H.files shelf.old) (H.files shelf.new)
        (SavesIn (certificates_of saved.now))) }
    ensures err { OnErr result (IfTold (H.files shelf.old) (H.files shelf.new)
        (SavesPartIn (certificates_of saved.now))) }
    ensures calls { OnOk result (Saved (H.calls shelf.old) (H.calls shelf.new)
        (certificates_of saved.now)) }
    ensures calls_error { OnErr result (SavedPart (H.calls shelf.old) (H.calls shelf.new)
        (certificates_of saved.now)) }
    ensures sure { IsSome (H.files shelf.old)
        → CanHold (H.can_hold shelf.old) (certificates_of saved.now) → IsOk result }
    ensures told { IsSome (H.files shelf.old) → IsSome (H.files shelf.new) }
    ensures holds { KeepsHolds (H.can_hold shelf.old) (H.can_hold shelf.new) }
    ensures cause { HasCause (H.faults shelf.old) (H.faults shelf.new) result }
{
    match saved {
        Some(file) => match &file.text {
            CertificateText::Found(certificate) => certificate.write_to(shelf, file.name),
            CertificateText::Accepted(rewriting) => rewriting.write_to(shelf, file.name),
        },
        None => Ok(()),
    }
}

// Saves a journal, if there is one.
fn save_journal<H: Shelf>(shelf: &mut H, saved: &Option<SavedJournal<'_>>) -> Result<(), Failed>
    ensures ok { OnOk result (IfTold (H.files shelf.old) (H.files shelf.new)
        (SavesIn (journals_of saved.now))) }
    ensures err { OnErr result (IfTold (H.files shelf.old) (H.files shelf.new)
        (SavesPartIn (journals_of saved.now))) }
    ensures calls { OnOk result (Saved (H.calls shelf.old) (H.calls shelf.new)
        (journals_of saved.now)) }
    ensures calls_error { OnErr result (SavedPart (H.calls shelf.old) (H.calls shelf.new) (journals_of saved.now)) }
    ensures sure { IsSome (H.files shelf.old)
        → CanHold (H.can_hold shelf.old) (journals_of saved.now) → IsOk result }
    ensures holds { KeepsHolds (H.can_hold shelf.old) (H.can_hold shelf.new) }
    ensures cause { HasCause (H.faults shelf.old) (H.faults shelf.new) result }
{
    match saved {
        Some(file) => write_journal(&file.settings, file.events, shelf, file.name),
        None => Ok(()),
    }
}

// Saves what an answer has: the certificate, and then the journal.
fn save<H: Shelf>(shelf: &mut H, answer: &Answer<'_>) -> Result<(), Failed>
    ensures ok { OnOk result (IfTold (H.files shelf.old) (H.files shelf.new)
        (SavesIn (said_of answer.now).outputs)) }
    ensures err { OnErr result (IfTold (H.files shelf.old) (H.files shelf.new)
        (SavesPartIn (said_of answer.now).outputs)) }
    ensures calls { OnOk result (Saved (H.calls shelf.old) (H.calls shelf.new)
        (said_of answer.now).outputs) }
    ensures calls_error { OnErr result (SavedPart (H.calls shelf.old) (H.calls shelf.new)
        (said_of answer.now).outputs) }
    ensures sure { IsSome (H.files shelf.old)
        → CanHold (H.can_hold shelf.old) (said_of answer.now).outputs → IsOk result }
    ensures holds { KeepsHolds (H.can_hold shelf.old) (H.can_hold shelf.new) }
    ensures cause { HasCause (H.faults shelf.old) (H.faults shelf.new) result }
{
    // In this order: if the shelf fails, what is there is a prefix of both texts.
    save_certificate(shelf, &answer.certificate)?;
    save_journal(shelf, &answer.journal)
}

/// Hands out an answer, or a part of one: saves the certificate and the journal, each if there is
/// one, and then prints the report. It takes no memory. What the shelf and the sink promise goes on:
/// so the next part can be handed out if it fits, too.
pub fn hand_out<H: Shelf, K: Sink>(shelf: &mut H, out: &mut K, answer: &Answer<'_>) -> Ending
    ensures hands { Hands (said_of answer.now) result (H.calls shelf.old) (H.calls shelf.new)
        (K.calls out.old) (K.calls out.new) (K.written out.old) (K.written out.new) }
    ensures told { HandsTold (said_of answer.now) result (H.files shelf.old) (H.files shelf.new) }
    ensures sure { IsSome (H.files shelf.old)
        → CanHold (H.can_hold shelf.old) (said_of answer.now).outputs
        → K.can_take out.old (length (said_of answer.now).report) → result ≡ Done }
    ensures holds { KeepsHolds (H.can_hold shelf.old) (H.can_hold shelf.new) }
    ensures takes { result ≡ Done → KeepsTakes (K.can_take out.old) (K.can_take out.new)
        (length (said_of answer.now).report) }
    ensures shelf_fault { result ≡ NotSaved → Rose (H.faults shelf.old) (H.faults shelf.new) }
    ensures sink_fault { result ≡ NotPrinted → Rose (K.faults out.old) (K.faults out.new) }
    ensures shelf_later { H.faults shelf.old ≤ H.faults shelf.new }
    ensures sink_later { K.faults out.old ≤ K.faults out.new }
{
    // Nothing is printed before all is saved.
    if save(shelf, answer).is_err() {
        return Ending::NotSaved;
    }
    match out.put(answer.report.as_slice()) {
        Ok(()) => Ending::Done,
        Err(_) => Ending::NotPrinted,
    }
}

/// Hands out an answer in one part, and answers the status.
pub fn hand_out_at_once<H: Shelf, K: Sink>(
    shelf: &mut H,
    out: &mut K,
    answer: &Answer<'_>,
) -> Status
    requires { IsAnswer (said_of answer.now).status }
    ensures hands { (reading : Reading) (texts : List (List ℕ))
        → IsOnePart reading texts (said_of answer.now)
        → HandsOutTexts reading texts (number_of result) (said_of answer.now).looks
        (H.files shelf.old) (H.files shelf.new) (H.calls shelf.old) (H.calls shelf.new)
        (K.calls out.old) (K.calls out.new) (K.written out.old) (K.written out.new) }
    ensures fits { (reading : Reading) (texts : List (List ℕ))
        → IsOnePart reading texts (said_of answer.now) → IsSome (H.files shelf.old)
        → HandsOutIfPartsFit reading texts (number_of result) (said_of answer.now).looks
        (H.can_hold shelf.old) (K.can_take out.old) }
    ensures shelf_fault { number_of result ≡ 73 → Rose (H.faults shelf.old) (H.faults shelf.new) }
    ensures sink_fault { number_of result ≡ 74 → Rose (K.faults out.old) (K.faults out.new) }
    ensures shelf_later { H.faults shelf.old ≤ H.faults shelf.new }
    ensures sink_later { K.faults out.old ≤ K.faults out.new }
{
    match hand_out(shelf, out, answer) {
        Ending::Done => answer.status,
        Ending::NotSaved => Status::ShelfFailed,
        Ending::NotPrinted => Status::SinkFailed,
    }
}
