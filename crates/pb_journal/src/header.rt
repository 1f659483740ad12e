//! The header of a journal: the settings of its search.
ghost use Rattle.std.specs.Prelude.{◌≡◌, ◌≤◌, ◌+◌, Ok, length, IfOk};
ghost use Rattle.pb_machine.specs.declared.settings.Settings.{Settings as TheSettings};
ghost use Rattle.pb_machine.specs.Settings.{AreInRange, weight_of, settings_with_weight};
ghost use Rattle.pb_journal.specs.Faults.{Reads, Answers};
ghost use Rattle.pb_journal.specs.Reading.{header_of};
ghost use Rattle.pb_journal.specs.Judging.{settings_of};
ghost use Rattle.pb_journal.specs.Shown.{one, HasHeader};

use crate::error::{Fault, JournalError};
use crate::reading::{fixed_at, number_at, plain_at};
use pb_machine::{STANDARD, Settings};

/// The settings, with the weight 1 and no pattern database, and the text after the header.
#[tactic(auto, unfolding(crate::specs::Reading::header_of))]
pub(crate) fn header(bytes: &[u8]) -> Result<(Settings, &[u8]), Fault>
    ensures reads { Reads (λ x. (x.0, x.1.now)) result (header_of bytes.now) }
    ensures shorter { IfOk result (λ x. length x.1.now + 6 ≤ length bytes.now) }
    ensures range { IfOk result (λ x. AreInRange x.0) }
{
    let rest = fixed_at(1, bytes, b"pbnf-journal 1")?;
    let (wish, rest) = number_at(2, rest, b"blocks ", 16, 4096)?;
    let (workers, rest) = number_at(3, rest, b"workers ", 1, 64)?;
    let (budget, rest) = number_at(4, rest, b"budget ", 1, 1 << 40)?;
    let (lot, rest) = number_at(5, rest, b"lot ", 1, 1 << 20)?;
    let (plain, rest) = plain_at(6, rest)?;
    let settings = Settings {
        workers: workers as u32,
        budget,
        lot,
        wish: wish as u32,
        plain,
        // The weight and the pattern, which no header states.
        ..STANDARD
    };
    Ok((settings, rest))
}

fn settings_in(bytes: &[u8]) -> Result<Settings, JournalError>
    ensures { Answers (λ settings. settings) result (settings_of bytes.now) }
{
    let (settings, _) = header(bytes)?;
    Ok(settings)
}

/// The settings that a journal's header states, or the first line of the header that is refused.
/// A header says nothing of the weight and of the pattern database: the weight is 1, and there is no
/// pattern database. It takes no memory.
pub fn read_header(bytes: &[u8]) -> Result<Settings, JournalError>
    // Which settings or line it is. It is never out of memory.
    ensures exact { Answers (λ settings. settings) result (settings_of bytes.now) }
    // The bytes begin with the header of the settings, which are in range.
    ensures header { IfOk result (HasHeader bytes.now) }
    ensures weight { IfOk result (λ settings. weight_of settings ≡ one) }
    ensures pattern { IfOk result (λ settings. settings.pattern ≡ 0) }
    // What begins with the header of settings in range is read.
    ensures only { (settings : TheSettings) → HasHeader bytes.now settings → result
        ≡ Ok (settings_with_weight settings one) }
{
    settings_in(bytes)
}
