//! Laws on calls with falling weights. Each is the contract of a function that only cites laws.
ghost use Rattle.pb_run.specs.FallingLaws.{CallsGiveFalling, FallingHoldsByKind};
ghost use Rattle.pb_run.specs.FallingLaws.{SavedClaimsAreAccepted, ClaimsAreAcceptedByWords};
ghost use Rattle.pb_run.specs.FallingLaws.{ClaimsAreToldByTheirText, ReadClaimsHold};

use pb_command::{check_reads_options, falling_reads_options};
use pb_grid::read_as_spelled;
use pb_tiles::readings_are_spelled;

/// How a call of `solve` with `--falling` goes gives what `run` promises of it: of each claim, of
/// the last one, and of what is out if nothing more is answered.
pub fn calls_give_falling()
    ensures { CallsGiveFalling }
{}

/// What `run` promises of falling weights gives the same in the words of each kind of task: cells,
/// tiles, names of facts and actions.
pub fn falling_holds_by_kind()
    ensures { FallingHoldsByKind }
{
    read_as_spelled();
    readings_are_spelled();
}

/// Each certificate that a call with falling weights saved whole is accepted by another call that
/// checks it for the same input, row, swamp and grounding, unless its grounding is stopped. This
/// follows from the clauses `falling` and `check` of both.
pub fn saved_claims_are_accepted()
    ensures { SavedClaimsAreAccepted }
{}

/// Saved certificates of falling weights are accepted, by the words of both calls: `solve ..` with
/// `--falling S` and `--cert NAME`, and the matching `check ..`, whatever the order of their
/// options.
pub fn claims_are_accepted_by_words()
    ensures { ClaimsAreAcceptedByWords }
{
    falling_reads_options();
    check_reads_options();
}

/// Claims can be read off their text: two lists of claims with one text have the same weights,
/// costs, steps and bounds.
pub fn claims_are_told_by_their_text()
    ensures { ClaimsAreToldByTheirText }
{}

/// What holds of the printed claims holds of whatever claims are read off the same text: no plan
/// costs less than their costs divided by their weights, and the costs never rise.
pub fn read_claims_hold()
    ensures { ReadClaimsHold }
{}
