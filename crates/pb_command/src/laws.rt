//! Laws on options and on refusals, as contracts of functions without a body.
ghost use Rattle.pb_command.specs.Options.{SolveReadsOptions, LowWeightIsRefused, OneNameIsRefused};
ghost use Rattle.pb_command.specs.Options.{JournalOfOwnersIsRefused, FallingReadsOptions};
ghost use Rattle.pb_command.specs.Options.{FallingOfOwnersIsRefused, FallingWithJournalIsRefused};
ghost use Rattle.pb_command.specs.Options.{CheckReadsOptions, LoadedNameIsRefused, JournalReadsOptions};
ghost use Rattle.pb_command.specs.Options.{MakeReadsOptions, OtherSizeIsRefused};
ghost use Rattle.pb_command.specs.Options.{OutOfRangeIsRefused, GivenTwiceIsRefused};
ghost use Rattle.pb_command.specs.Options.{FlagTwiceIsRefused, HelpIsRefused};
ghost use Rattle.pb_command.specs.Options.{DefaultsAreStandard, DefaultEngineIsLeases};
ghost use Rattle.pb_command.specs.Options.{EngineHasTwoWords, EstimateHasOneWord};
ghost use Rattle.pb_command.specs.Options.{TablesHaveEffort, EffortIsOfTables};
ghost use Rattle.pb_command.specs.Options.{PatternOfEstimateIsRefused};
ghost use Rattle.pb_command.specs.Options.{PatternBesideFileIsRefused, EstimateBesideFileIsRefused};
ghost use Rattle.pb_command.specs.Laws.{OneFileIsRefused, TwoBoardsAreRefused};
ghost use Rattle.pb_command.specs.Laws.{DomainAloneIsRefused, OtherKindIsRefused};
ghost use Rattle.pb_command.specs.Laws.{FilesComeBeforeWeight, WeightComesBeforeNames};
ghost use Rattle.pb_command.specs.Laws.{NamesComeBeforeEngine, EngineComesBeforeFalling};
ghost use Rattle.pb_command.specs.Laws.{FallingComesBeforeEstimate, TablesWithPatternAreRefused};
ghost use Rattle.pb_command.specs.Laws.{WeightOfOneHalfIsRefused};
ghost use Rattle.pb_command.specs.Laws.{SideOfZeroIsRefused, SeedOutOfRangeIsRefused};

/// The defaults of the table are the standard settings of a search, which is by leases. An engine
/// has one of two words, and an estimate the word `tables`. With that word the effort is the number
/// of `--effort`, and without it there is none.
pub fn options_have_forms()
    ensures defaults { DefaultsAreStandard }
    ensures engine { DefaultEngineIsLeases }
    ensures words { EngineHasTwoWords }
    ensures estimate { EstimateHasOneWord }
    ensures effort { TablesHaveEffort }
    ensures none { EffortIsOfTables }
{}

/// Without `--falling`, the options and the flags give `solve` their values, anywhere among the
/// kind and its files. An option that isn't given has its default.
pub fn solve_reads_options()
    ensures { SolveReadsOptions }
{}

/// Wherever the options of `solve` stand, these are refused, each for its own fault: a weight below
/// 1, one name for the certificate and the journal, a journal of a search by owners, and two of
/// tables that are looked for, a file of tables and a pattern database, with `--falling` or without
/// it.
pub fn solve_tests_options()
    ensures weight { LowWeightIsRefused }
    ensures names { OneNameIsRefused }
    ensures engine { JournalOfOwnersIsRefused }
    ensures estimate { PatternOfEstimateIsRefused }
    ensures file { PatternBesideFileIsRefused }
    ensures both { EstimateBesideFileIsRefused }
{}

/// With `--falling`, wherever it stands, they give a search at falling weights the same values, and
/// `--falling` gives it the number of steps.
pub fn falling_reads_options()
    ensures { FallingReadsOptions }
{}

/// Wherever the options of `solve` stand, these are refused, each for its own fault: falling
/// weights of a search by owners, and a journal of a search with falling weights.
pub fn falling_tests_options()
    ensures engine { FallingOfOwnersIsRefused }
    ensures journal { FallingWithJournalIsRefused }
{}

/// `--row`, `--workers`, `--rewrite`, `--swamp` and `--reachable` give `check` their values,
/// anywhere among the kind, the certificate and the files. An option that isn't given has its
/// default.
pub fn check_reads_options()
    ensures { CheckReadsOptions }
{}

/// Wherever the options of `check` stand, a name for the new certificate is refused that a loaded
/// file has.
pub fn check_tests_options()
    ensures { LoadedNameIsRefused }
{}

/// `--row` and `--reachable` give `journal` their values, anywhere among the kind, the journal and
/// the files. If they aren't given, they have their defaults.
pub fn journal_reads_options()
    ensures { JournalReadsOptions }
{}

/// `--workers` gives `make` its value, anywhere among the kind, the seed and the size. If it isn't
/// given, it has its default. A size that the kind doesn't have is refused.
pub fn make_reads_options()
    ensures read { MakeReadsOptions }
    ensures size { OtherSizeIsRefused }
{}

/// A number out of its option's range is refused for its form, and so is a word that is none of its
/// option's. So are an option or a flag that is given twice, a word for help and a seed that is too
/// great.
pub fn options_out_of_form_are_refused()
    ensures range { OutOfRangeIsRefused }
    ensures twice { GivenTwiceIsRefused }
    ensures flag { FlagTwiceIsRefused }
    ensures help { HelpIsRefused }
    ensures seed { SeedOutOfRangeIsRefused }
{}

/// The number of files is tested before the weight, the weight before the names, the names before
/// the engine, the engine before the journal of falling weights, and this journal before the
/// pattern database beside tables.
pub fn tests_come_in_order()
    ensures files { FilesComeBeforeWeight }
    ensures weight { WeightComesBeforeNames }
    ensures names { NamesComeBeforeEngine }
    ensures engine { EngineComesBeforeFalling }
    ensures falling { FallingComesBeforeEstimate }
{}

/// Each of these is refused for its own fault: a grid with one file, tiles with two, a domain
/// without a problem, a kind that isn't known, a weight of one half, tables beside a pattern
/// database, and a grid of side 0.
pub fn faults_are_found()
    ensures files { OneFileIsRefused }
    ensures boards { TwoBoardsAreRefused }
    ensures domain { DomainAloneIsRefused }
    ensures kind { OtherKindIsRefused }
    ensures weight { WeightOfOneHalfIsRefused }
    ensures estimate { TablesWithPatternAreRefused }
    ensures size { SideOfZeroIsRefused }
{}
