//! Laws on what two texts spell and on refusals, as contracts of functions without a body.
ghost use Rattle.pb_grid.specs.Laws.{ReadAsSpelled, SpelledGridsAreUnique, SwampChangesMarksAlone, SpelledGridsAreGrids, RefusalsAreOfTexts, RefusalsHaveTheirCase};

/// If two texts are read without a refusal, the result is a grid that they spell. A grid that they
/// spell is read.
pub fn read_as_spelled()
    ensures { ReadAsSpelled }
{}

/// Two texts and a row spell one grid at most.
pub fn spelled_grids_are_unique()
    ensures { SpelledGridsAreUnique }
{}

/// Two texts that spell a grid with swamp spell the same grid without it, and the other way round:
/// only the marks differ.
pub fn swamp_changes_marks_alone()
    ensures { SwampChangesMarksAlone }
{}

/// What two texts spell makes up a task.
pub fn spelled_grids_are_grids()
    ensures { SpelledGridsAreGrids }
{}

/// Running out of memory is no refusal of a text.
pub fn refusals_are_of_texts()
    ensures { RefusalsAreOfTexts }
{}

/// A refusal is reported if and only if its case holds, as the formats describe it.
pub fn refusals_have_their_case()
    ensures { RefusalsHaveTheirCase }
{}
