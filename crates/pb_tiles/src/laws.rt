//! Laws on what a text spells and on refusals, as contracts of functions without a body.
ghost use Rattle.pb_tiles.specs.Laws.{ReadingsAreSpelled, SpelledTilesAreUnique, RefusalsHaveTheirCase, CasesAreRefused};

/// A text is read as the tiles that it spells, and no other text is read.
pub fn readings_are_spelled()
    ensures { ReadingsAreSpelled }
{}

/// A text spells one start and one goal at most.
pub fn spelled_tiles_are_unique()
    ensures { SpelledTilesAreUnique }
{}

/// A refusal is reported only in its case, as the formats describe it.
pub fn refusals_have_their_case()
    ensures { RefusalsHaveTheirCase }
{}

/// In its case a refusal is reported.
pub fn cases_are_refused()
    ensures { CasesAreRefused }
{}
