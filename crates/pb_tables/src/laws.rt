//! The laws of this crate. Each is the contract of a function without a body.
ghost use Rattle.pb_tables.specs.Examples.{ExamplesAreEstimated, ExamplesAreJudged};
ghost use Rattle.pb_tables.specs.Laws.{TablesAreAdmissible, EstimatesAreSmall};

/// Tables and traps that suit a task give an admissible estimate of all its states.
pub fn tables_are_admissible()
    ensures { TablesAreAdmissible }
{}

/// No estimate by tables is above 2^52.
pub fn estimates_are_small()
    ensures { EstimatesAreSmall }
{}

/// What tables of a small task estimate.
pub fn examples_are_estimated()
    ensures { ExamplesAreEstimated }
{}

/// Which tables suit a small task, and the first faults of those that don't.
pub fn examples_are_judged()
    ensures { ExamplesAreJudged }
{}
