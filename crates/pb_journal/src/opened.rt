//! A journal whose header was read: its settings are known, and its events can be judged.
ghost use Rattle.std.specs.Prelude.{◌≡◌, ℕ, Ok, Err, IfOk};
ghost use Rattle.pb_machine.specs.Settings.{AreInRange};
ghost use Rattle.pb_abstract.specs.Graph.{blocks_of};
ghost use Rattle.pb_journal.specs.Faults.{Answers, Gives};
ghost use Rattle.pb_journal.specs.Judging.{settings_of, judged};
ghost use Rattle.pb_journal.specs.Shown.{IsCutOff, IsFinishedJournal, cut_fault};

use crate::checker::judge_events;
use crate::error::JournalError;
use crate::header::header;
use pb_abstract::AbsGraph;
use pb_machine::Settings;
use std::alloc::Global;
use std::marker::Model;

/// A journal whose header was read. Its caller makes the graph by the number of blocks that the
/// header wishes for, and the events are judged without reading the header again. Contracts see its
/// bytes and the settings of its header.
#[derive(Drop)]
pub struct OpenedJournal<'a> {
    bytes: &'a [u8],
    settings: Settings,
    events: &'a [u8],
}

impl<'a> Model for OpenedJournal<'a> {
    ghost use Rattle.pb_journal.specs.Opened.{Opened, IsOpened};

    ghost Value = { Opened };

    ghost view = { λ j. record { bytes = j.bytes.now; settings = j.settings } };

    ghost invariant = { λ j. IsOpened
        (record { bytes = j.bytes.now; settings = j.settings }) j.events.now };
}

/// The journal that has these bytes, or the first line of its header that is refused. It takes no
/// memory.
pub fn open_journal(bytes: &[u8]) -> Result<OpenedJournal<'_>, JournalError>
    // Which settings or line it is. It is never out of memory.
    ensures exact { Answers (λ journal. journal.settings) result (settings_of bytes.now) }
    ensures bytes { IfOk result (λ journal. journal.bytes ≡ bytes.now) }
{
    let (settings, events) = header(bytes)?;
    Ok(OpenedJournal {
        bytes,
        settings,
        events,
    })
}

impl<'a> OpenedJournal<'a> {
    /// The settings that the header states, with the weight 1 and no pattern database.
    pub fn settings(&self) -> &Settings
        ensures settings { result.now ≡ self.now.settings }
        ensures header { settings_of self.now.bytes ≡ Ok self.now.settings }
        ensures range { AreInRange self.now.settings }
    {
        &self.settings
    }

    /// How many events the journal has, or its first line that is refused, as `check_journal` says.
    pub fn check(&self, alloc: Global, graph: &AbsGraph) -> Result<u64, JournalError>
        ensures exact { Gives (λ n. n) result (judged (blocks_of graph.now) self.now.bytes) }
        ensures finished { IfOk result
            (λ n. IsFinishedJournal (blocks_of graph.now) self.now.bytes n) }
        ensures only { (n : ℕ) → IsFinishedJournal (blocks_of graph.now) self.now.bytes n
            → Gives (λ m. m) result (Ok n) }
        ensures cut { IsCutOff (blocks_of graph.now) self.now.bytes
            → Gives (λ m. m) result (Err (cut_fault self.now.bytes)) }
    {
        let blocks = graph.count();
        judge_events(alloc, graph, blocks, &self.settings, self.events)
    }
}
