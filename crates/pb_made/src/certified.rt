//! A certificate is written to a shelf in memory, loaded back, and checked.
ghost use Rattle.std.specs.Prelude.{◌≡◌, IfOk};
ghost use Rattle.pb_outside.specs.Memory.{HasRoom};
ghost use Rattle.pb_cert.specs.Stated.{text_of};
ghost use Rattle.pb_made.specs.Answers.{IsJudged};

use pb_cert::Certificate;
use pb_check::{CheckError, Verdict, check, stated_choice};
use pb_estimate::Estimator;
use pb_outside::{Failed, Load, MemShelf, Shelf};
use pb_task::Task;
use std::alloc::{AllocError, Global};

const NAME: &str = "certificate";

// A shelf with exactly so much room for the certificate.
fn shelf_for(alloc: Global, len: u128) -> Result<MemShelf, AllocError>
    ensures { IfOk result (λ shelf. HasRoom shelf NAME.now len) }
{
    // A shelf in memory can't be made, or keep room, only if memory runs out.
    let Ok(mut shelf) = MemShelf::new(alloc) else {
        return Err(AllocError);
    };
    match shelf.reserve(NAME, len) {
        Ok(()) => Ok(shelf),
        Err(_) => Err(AllocError),
    }
}

/// The certificate's text, as it was written and loaded back. An error is out of memory.
pub(crate) fn written_text(
    alloc: Global,
    certificate: &Certificate<'_>,
) -> Result<Vec<u8>, AllocError>
    ensures { IfOk result (λ text. text.items ≡ text_of certificate.now) }
{
    let len = certificate.len();
    // No block of memory has a length of more than 64 bits.
    let Ok(most) = u64::try_from(len) else {
        return Err(AllocError);
    };
    let mut shelf = shelf_for(alloc, len)?;
    // The shelf has room for exactly this text, so no call of it fails.
    match certificate.write_to(&mut shelf, NAME) {
        Ok(()) => {}
        Err(Failed) => unreachable!(),
    }
    match shelf.load(alloc, NAME, most) {
        Ok(text) => Ok(text),
        Err(Load::Memory) => Err(AllocError),
        Err(Load::Failed) => unreachable!(),
        Err(Load::TooLong { .. }) => unreachable!(),
    }
}

/// The checker's verdict on the text, or None if it is refused. An error is out of memory.
pub(crate) fn verdict_of(
    alloc: Global,
    task: &Task,
    text: &[u8],
) -> Result<Option<Verdict>, AllocError>
    ensures { IfOk result (IsJudged task.now text.now) }
{
    // The checker asks for an estimator by the choice that the text itself states.
    let choice = stated_choice(alloc, task, text)?;
    let mut estimator = Estimator::of(alloc, task, &choice)?;
    match check(alloc, task, &mut estimator, text) {
        Ok(verdict) => Ok(Some(verdict)),
        Err(CheckError::Fault(_)) => Ok(None),
        Err(CheckError::Memory) => Err(AllocError),
    }
}
