//! Judging the text of a journal, line by line.
ghost use Rattle.std.specs.Prelude.{◌≡◌, ◌+◌, ◌<◌, ◌^◌, ℕ, true, Ok, Err, length, OnOk, IfOk};
ghost use Rattle.pb_machine.specs.Settings.{AreInRange};
ghost use Rattle.pb_machine.specs.Counts.{opening_counts};
ghost use Rattle.pb_abstract.specs.Graph.{blocks_of, IsGraph};
ghost use Rattle.pb_journal.specs.Faults.{Reads, Gives};
ghost use Rattle.pb_journal.specs.Judging.{after_line, end_fault, events_of, judged};
ghost use Rattle.pb_journal.specs.Replaying.{counts_of, IsLawfulReplay};
ghost use Rattle.pb_journal.specs.Shown.{IsCutOff, IsFinishedJournal, cut_fault};

use crate::error::{Fault, JournalError, Why, why_of};
use crate::events::event_in;
use crate::header::header;
use crate::replay::Replay;
use pb_abstract::AbsGraph;
use pb_lines::part;
use pb_machine::Settings;
use std::alloc::Global;

// The event of a line comes next, if the line spells one that may.
#[tactic(auto, unfolding(crate::specs::Judging::after_line))]
fn read_event(
    replay: &mut Replay,
    graph: &AbsGraph,
    settings: &Settings,
    line: u64,
    text: &[u8],
) -> Result<(), Fault>
    requires graph { IsGraph graph.now }
    requires lawful { IsLawfulReplay (blocks_of graph.now) settings.now replay.old }
    ensures reads { Reads (λ x. counts_of replay.new) result
        (after_line (blocks_of graph.now) settings.now (counts_of replay.old) line text.now) }
    ensures lawful { OnOk result (IsLawfulReplay (blocks_of graph.now) settings.now replay.new) }
{
    let event = event_in(line, text)?;
    match replay.step(graph, settings, &event) {
        None => Ok(()),
        Some(refusal) => Err(Fault {
            line,
            why: why_of(refusal),
        }),
    }
}

// The text may end in this line, which has these bytes and no end.
fn read_end(replay: &Replay, settings: &Settings, line: u64, tail: &[u8]) -> Result<(), Fault>
    requires { length replay.now.signed_off.items ≡ settings.now.workers }
    ensures { Reads (λ x. true) result
        (end_fault settings.now (counts_of replay.now) line tail.now) }
{
    let why = if tail.len() > 0 {
        Why::Spelling
    } else if replay.is_finished(settings) {
        return Ok(());
    } else {
        Why::Short
    };
    Err(Fault { line, why })
}

// How many events the text has after its header.
#[tactic(auto, unfolding(crate::specs::Judging::events_of))]
fn read_events(
    replay: &mut Replay,
    graph: &AbsGraph,
    settings: &Settings,
    text: &[u8],
) -> Result<u64, Fault>
    requires graph { IsGraph graph.now }
    requires lawful { IsLawfulReplay (blocks_of graph.now) settings.now replay.old }
    ensures { Reads (λ n. n) result
        (events_of (blocks_of graph.now) settings.now (counts_of replay.old) text.now) }
{
    // The header has six lines.
    let mut line: u64 = 7;
    let mut rest = text;
    // The label names the loop in its proof.
    'lines: while let Some((first, after)) = part(rest, b'\n') {
        read_event(replay, graph, settings, line, first)?;
        rest = after;
        line += 1;
    }
    read_end(replay, settings, line, rest)?;
    Ok(line - 7)
}

/// How many events a text has after its header, or its first line that is refused. The graph has so
/// many blocks.
pub(crate) fn judge_events(
    alloc: Global,
    graph: &AbsGraph,
    blocks: u32,
    settings: &Settings,
    text: &[u8],
) -> Result<u64, JournalError>
    requires graph { IsGraph graph.now }
    requires blocks { (blocks_of graph.now).count ≡ blocks }
    requires range { AreInRange settings.now }
    ensures { Gives (λ n. n) result (events_of (blocks_of graph.now) settings.now
        (opening_counts settings.now 0) text.now) }
{
    let mut replay = Replay::new(alloc, blocks, settings)?;
    // `?` makes a `JournalError` of the fault.
    let events = read_events(&mut replay, graph, settings, text)?;
    Ok(events)
}

// How many events a journal has, or its first line that is refused. The graph has so many blocks.
#[tactic(auto, unfolding(crate::specs::Judging::judged))]
fn judge(alloc: Global, graph: &AbsGraph, blocks: u32, bytes: &[u8]) -> Result<u64, JournalError>
    requires graph { IsGraph graph.now }
    requires blocks { (blocks_of graph.now).count ≡ blocks }
    ensures { Gives (λ n. n) result (judged (blocks_of graph.now) bytes.now) }
{
    let (settings, events) = header(bytes)?;
    judge_events(alloc, graph, blocks, &settings, events)
}

/// How many events a journal has, or its first line that is refused. The graph has the blocks that
/// were leased: it is the task's, by the number of blocks that the header wishes for.
///
/// The memory that it takes grows with the workers and the blocks, and not with the journal.
pub fn check_journal(alloc: Global, graph: &AbsGraph, bytes: &[u8]) -> Result<u64, JournalError>
    // How many events or which line it is, unless memory ran out.
    ensures exact { Gives (λ n. n) result (judged (blocks_of graph.now) bytes.now) }
    // What is accepted is the text of a finished legal history of so many events, with the settings
    // of its header.
    ensures finished { IfOk result (λ n. IsFinishedJournal (blocks_of graph.now) bytes.now n) }
    // The text of a finished legal history is accepted, with its number of events, unless memory
    // ran out.
    ensures only { (n : ℕ) → IsFinishedJournal (blocks_of graph.now) bytes.now n
        → Gives (λ m. m) result (Ok n) }
    // A journal that is cut off is refused in the line that it ends in, unless memory ran out.
    ensures cut { IsCutOff (blocks_of graph.now) bytes.now
        → Gives (λ m. m) result (Err (cut_fault bytes.now)) }
{
    let blocks = graph.count();
    judge(alloc, graph, blocks, bytes)
}
