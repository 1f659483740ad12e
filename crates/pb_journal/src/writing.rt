//! Saving a journal as a file.
ghost use Rattle.std.specs.Prelude.{◌≡◌, Some, IsSome, IsOk, OnOk, OnErr, length};
ghost use Rattle.pb_outside.specs.Outside.{IfTold, KeepsOthers, KeepsHolds, HasCause};
ghost use Rattle.pb_outside.specs.Calls.{KeepsLoads};
ghost use Rattle.pb_outside.specs.Saves.{IsPartSaved, Saves, SavesPart};
ghost use Rattle.pb_journal.specs.Texts.{journal_text};

use crate::lines::JournalText;
use pb_machine::{Event, Settings};
use pb_outside::{Failed, Shelf};
use pb_print::save_lines;

/// Saves the journal of a search with these settings as the file of this name. It is saved in
/// pieces of whole lines, each of at most 4,096 bytes. The weight and the pattern database of the
/// settings are not written. It takes no memory. An error is a fault of the shelf.
pub fn write_journal<H: Shelf>(
    settings: &Settings,
    journal: &[Event],
    shelf: &mut H,
    name: &str,
) -> Result<(), Failed>
    ensures ok { OnOk result
        (IfTold (H.files shelf.old) (H.files shelf.new)
        (λ old new. new name.now ≡ Some (journal_text settings.now journal.now))) }
    ensures err { OnErr result
        (IfTold (H.files shelf.old) (H.files shelf.new)
        (λ old new. IsPartSaved old new name.now (journal_text settings.now journal.now))) }
    ensures others { IfTold (H.files shelf.old) (H.files shelf.new)
        (λ old new. KeepsOthers old new name.now) }
    ensures calls { OnOk result
        (Saves (H.calls shelf.old) (H.calls shelf.new) name.now
        (journal_text settings.now journal.now)) }
    ensures failed { OnErr result
        (SavesPart (H.calls shelf.old) (H.calls shelf.new) name.now
        (journal_text settings.now journal.now)) }
    ensures sure { IsSome (H.files shelf.old)
        → H.can_hold shelf.old name.now (length (journal_text settings.now journal.now))
        → IsOk result }
    ensures holds { KeepsHolds (H.can_hold shelf.old) (H.can_hold shelf.new) }
    ensures loads { KeepsLoads (H.can_load shelf.old) (H.can_load shelf.new) }
    ensures cause { HasCause (H.faults shelf.old) (H.faults shelf.new) result }
{
    let text = JournalText {
        settings,
        events: journal,
    };
    save_lines(&text, shelf, name)
}
