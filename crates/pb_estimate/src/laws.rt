//! Laws on the estimates. Each is the contract of a function without a body.
ghost use Rattle.pb_estimate.specs.Laws.{EstimatesAreAdmissible, EstimatesCountTiles, HmaxIsFixed, StatedLinesHaveTheirNumbers};

/// No walk from a state to a goal costs less than the state's estimate by a choice that suits the
/// task.
pub fn estimates_are_admissible()
    ensures { EstimatesAreAdmissible }
{}

/// The estimate of a board counts each tile except the blank once.
pub fn estimates_count_tiles()
    ensures { EstimatesCountTiles }
{}

/// The costs of hmax satisfy its equation, no others do, and more rounds than there are atoms don't
/// change them.
pub fn hmax_is_fixed()
    ensures { HmaxIsFixed }
{}

/// A line of stated tables has the number by which a fault in it is reported: four lines of the
/// certificate come before those of the tables.
pub fn stated_lines_have_their_numbers()
    ensures { StatedLinesHaveTheirNumbers }
{}
