//! Laws over one call of the program or two. Each is the contract of a function that only cites
//! laws.
ghost use Rattle.pb_run.specs.Laws.{SavedCertificatesAreAccepted, SavedJournalsAreAccepted};
ghost use Rattle.pb_run.specs.Laws.{SavedJournalsAreShort};
ghost use Rattle.pb_run.specs.Laws.{CertificatesAreAcceptedByWords, JournalsAreAcceptedByWords};
ghost use Rattle.pb_run.specs.Laws.{CertificatesStateTheirChoice, CertificatesStateTheirPattern};
ghost use Rattle.pb_run.specs.Laws.{CertificatesStateTheirFile};
ghost use Rattle.pb_run.specs.AtOnce.{OnePartIsHandedOutAtOnce};
ghost use Rattle.pb_run.specs.Rooms.{ChecksAreServed, JournalsAreServed};
ghost use Rattle.pb_run.specs.Rooms.{HeadsAreShort, MakesAreServed, SolvesAreServed};

use pb_abstract::blocks_ask_for_no_costs;
use pb_check::{bounds_are_least, read_as_spelled};
use pb_command::{check_reads_options, journal_reads_options, solve_reads_options};
use pb_grid::swamp_changes_marks_alone;
use pb_journal::{journal_texts_are_short, written_journals_are_accepted};
use pb_table_lines::tables_are_read_as_written;

/// A call saves the certificate of a plan, or of there being none. Another call that checks it for
/// the same input, row, swamp and grounding accepts it, unless its grounding is stopped. This
/// follows from the clauses `solve`, `certified` and `check` of both.
pub fn saved_certificates_are_accepted()
    ensures { SavedCertificatesAreAccepted }
{}

/// The journal that one call saves of a search by leases is accepted by another call that judges it
/// for the same input and grounding, unless its grounding is stopped. This follows from the clauses
/// `solve`, `certified`, `stopped` and `journal` of both.
pub fn saved_journals_are_accepted()
    ensures { SavedJournalsAreAccepted }
{
    written_journals_are_accepted();
    journal_texts_are_short();
    swamp_changes_marks_alone();
    blocks_ask_for_no_costs();
}

/// The journal that a call saves of a search by leases has at most 79 bytes, and 26 for each of its
/// own events, however many the budget allows. `journal` prints their number. This follows from the
/// clauses `solve`, `certified` and `stopped`.
pub fn saved_journals_are_short()
    ensures { SavedJournalsAreShort }
{
    written_journals_are_accepted();
    journal_texts_are_short();
}

/// Saved certificates are accepted, by the words of both calls: `solve ..` with `--cert NAME`, and
/// the matching `check ..`, whatever the order of their options. So it is for both engines, and for
/// every number of workers of either call.
pub fn certificates_are_accepted_by_words()
    ensures { CertificatesAreAcceptedByWords }
{
    solve_reads_options();
    check_reads_options();
}

/// Saved journals are accepted, by the words of both calls: `solve ..` with `--trace NAME`, and the
/// matching `journal ..`, whatever the order of their options.
pub fn journals_are_accepted_by_words()
    ensures { JournalsAreAcceptedByWords }
{
    saved_journals_are_accepted();
    solve_reads_options();
    journal_reads_options();
}

/// A saved certificate states the number of its search's pattern, by the words of the call:
/// `solve ..` with `--pattern K` and `--cert NAME`. For STRIPS with `--reachable` it is of version 4,
/// and states that too. Else, with 0 or without `--pattern`, it is of version 2. With
/// `--estimate tables` it states the tables that were found, if any were, and with `--tables FILE`
/// those of the file.
pub fn certificates_state_their_pattern()
    ensures pattern { CertificatesStateTheirPattern }
    ensures choice { CertificatesStateTheirChoice }
{
    solve_reads_options();
}

/// A saved certificate has the file of tables word for word, by the words of the call:
/// `solve strips ..` with `--tables FILE` and `--cert NAME`. All of FILE stands behind the line of
/// the grounding, and so the certificate is of version 4.
pub fn certificates_state_their_file()
    ensures { CertificatesStateTheirFile }
{
    solve_reads_options();
    tables_are_read_as_written();
}

/// A `check` of a valid certificate is served, so it answers 0, or its grounding is stopped, or
/// memory ran out. This needs a line of room in the sink, and on the shelf room for what `--rewrite`
/// saves.
pub fn checks_are_served()
    ensures { ChecksAreServed }
{
    bounds_are_least();
}

/// A `journal` of a legal journal is served, so it answers 0, or its grounding is stopped, or
/// memory ran out. This needs a line of room in the sink.
pub fn journals_are_served()
    ensures { JournalsAreServed }
{}

/// A `make` is served, so it answers 0, 1, 2 or memory ran out. This needs a line of room in the
/// sink.
pub fn makes_are_served()
    ensures { MakesAreServed }
{
    read_as_spelled();
}

/// A `solve` of texts that spell a task is served, so it answers 0, 1, 2 or memory ran out. This
/// needs room for the rows and the events that the budget of the words allows. It also needs room
/// for the first lines of a certificate, up to its estimate: 114 bytes, or if tables are looked for
/// at most 2^40. With a file of tables these are 114 bytes and those of the file.
pub fn solves_are_served()
    ensures served { SolvesAreServed }
    ensures heads { HeadsAreShort }
{
    journal_texts_are_short();
    tables_are_read_as_written();
}

/// An answer that is asked for in one part is handed out at once: all its files are saved, and then
/// the whole report is printed. If memory runs out, nothing was saved or printed. If the shelf
/// fails, nothing is printed. This follows from the clause `calls`, and holds for each command.
pub fn one_part_is_handed_out_at_once()
    ensures { OnePartIsHandedOutAtOnce }
{}
