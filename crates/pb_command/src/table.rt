//! The options of all commands, in one table.
ghost use Rattle.std.specs.Prelude.{◌≡◌, ◌≤◌, ◌∷◌, []};
ghost use Rattle.pb_command.specs.Table.{engine_word, entry_of, file_name, flag_name, number};
ghost use Rattle.pb_command.specs.Table.{option_form, option_name, optional_number, word};
ghost use Rattle.pb_command.specs.Values.{entry_meant, form_meant, HasDefault};

use crate::command::Engine;

/// An option that has a value.
#[derive(Clone, Copy)]
pub enum ValuedOption {
    /// `--row K`: the row of the scenario, counted from 0.
    Row,
    /// `--workers W`: how many workers search, or judge the rows of a certificate.
    Workers,
    /// `--engine WORD`: how the task is searched.
    Engine,
    /// `--num N`: the numerator of the weight.
    Num,
    /// `--den D`: the denominator of the weight.
    Den,
    /// `--budget B`: how many expansions the search may do.
    Budget,
    /// `--lot L`: how many expansions a lease gets at most.
    Lot,
    /// `--blocks C`: how many blocks the abstract graph has at most.
    Blocks,
    /// `--pattern K`: the number of the pattern database, 0 for none.
    Pattern,
    /// `--estimate tables`: tables are looked for, from which the estimate is read.
    Estimate,
    /// `--effort E`: how much is looked at to find these tables.
    Effort,
    /// `--tables FILE`: the name of a file of tables, from which the estimate is read.
    Tables,
    /// `--cert NAME`: the name under which the certificate is saved.
    Certificate,
    /// `--trace NAME`: the name under which the journal is saved.
    Journal,
    /// `--rewrite NAME`: the name under which an accepted certificate is saved anew.
    Rewrite,
    /// `--falling S`: in how many steps the weight of `solve` falls to 1.
    Falling,
}

/// An option without a value.
#[derive(Clone, Copy)]
pub enum FlagOption {
    /// `--plain`: no block is marked hot.
    Plain,
    /// `--swamp`: entering an `S` cell of a map costs 2.
    Swamp,
    /// `--reachable`: of a STRIPS problem, only the ground atoms and actions that are reached have
    /// numbers.
    Reachable,
}

// What a value of an option is.
#[derive(Clone, Copy)]
pub(crate) enum ValueForm<'a> {
    // A whole number in a range, with the number if the option isn't given.
    Number { least: u64, most: u64, default: u64 },
    // A whole number in a range; if the option isn't given, no number stands for it.
    OptionalNumber { least: u64, most: u64 },
    // The name of a file.
    FileName,
    // One of two words.
    OneOf(&'a str, &'a str),
    // This word alone.
    OneWord(&'a str),
}

// The word that asks for tables for the estimate.
pub(crate) const TABLES: &str = "tables";

// A row of the table.
#[derive(Clone, Copy)]
pub(crate) struct TableEntry<'a> {
    name: &'a str,
    form: ValueForm<'a>,
}

// The options of each command, in the order in which clap knows them.
pub(crate) const SOLVE_OPTIONS: [ValuedOption; 15] = [
    ValuedOption::Row,
    ValuedOption::Workers,
    ValuedOption::Engine,
    ValuedOption::Num,
    ValuedOption::Den,
    ValuedOption::Budget,
    ValuedOption::Lot,
    ValuedOption::Blocks,
    ValuedOption::Pattern,
    ValuedOption::Estimate,
    ValuedOption::Effort,
    ValuedOption::Tables,
    ValuedOption::Certificate,
    ValuedOption::Journal,
    ValuedOption::Falling,
];

pub(crate) const SOLVE_FLAGS: [FlagOption; 3] = [
    FlagOption::Plain,
    FlagOption::Swamp,
    FlagOption::Reachable,
];

pub(crate) const CHECK_OPTIONS: [ValuedOption; 3] = [
    ValuedOption::Row,
    ValuedOption::Workers,
    ValuedOption::Rewrite,
];

pub(crate) const CHECK_FLAGS: [FlagOption; 2] = [FlagOption::Swamp, FlagOption::Reachable];

pub(crate) const JOURNAL_OPTIONS: [ValuedOption; 1] = [ValuedOption::Row];

pub(crate) const JOURNAL_FLAGS: [FlagOption; 1] = [FlagOption::Reachable];

pub(crate) const MAKE_OPTIONS: [ValuedOption; 1] = [ValuedOption::Workers];

// An option with a number.
fn number<'a>(name: &'a str, least: u64, most: u64, default: u64) -> TableEntry<'a>
    requires { (least ≤ default) × (default ≤ most) }
    ensures entry { entry_meant result ≡ number name.now least most default }
    ensures default { HasDefault result.form }
{
    TableEntry {
        name,
        form: ValueForm::Number {
            least,
            most,
            default,
        },
    }
}

// An option with a number that has no default.
fn optional_number<'a>(name: &'a str, least: u64, most: u64) -> TableEntry<'a>
    requires { least ≤ most }
    ensures entry { entry_meant result ≡ optional_number name.now least most }
    ensures default { HasDefault result.form }
{
    TableEntry {
        name,
        form: ValueForm::OptionalNumber { least, most },
    }
}

// An option with the name of a file.
fn file_name<'a>(name: &'a str) -> TableEntry<'a>
    ensures entry { entry_meant result ≡ file_name name.now }
    ensures default { HasDefault result.form }
{
    TableEntry {
        name,
        form: ValueForm::FileName,
    }
}

// An option with one of two words.
fn word<'a>(name: &'a str, first: &'a str, second: &'a str) -> TableEntry<'a>
    ensures entry { entry_meant result ≡ word name.now (first.now ∷ second.now ∷ []) }
    ensures default { HasDefault result.form }
{
    TableEntry {
        name,
        form: ValueForm::OneOf(first, second),
    }
}

// An option with this word alone.
fn one_word<'a>(name: &'a str, only: &'a str) -> TableEntry<'a>
    ensures entry { entry_meant result ≡ word name.now (only.now ∷ []) }
    ensures default { HasDefault result.form }
{
    TableEntry {
        name,
        form: ValueForm::OneWord(only),
    }
}

impl Engine {
    // The word that asks for it.
    pub(crate) fn word<'a>(self) -> &'a str
        ensures { result.now ≡ engine_word self }
    {
        match self {
            Engine::Leases => "pbnf",
            Engine::Owners => "hda",
        }
    }
}

// The table: the name of each option, and the range of its number and the default,
// or its words.
fn entry_of<'a>(option: ValuedOption) -> TableEntry<'a>
    ensures entry { entry_meant result ≡ entry_of option }
    ensures default { HasDefault result.form }
{
    match option {
        ValuedOption::Row => number("row", 0, 1_000_000, 0),
        ValuedOption::Workers => number("workers", 1, 64, 1),
        ValuedOption::Engine => word("engine", Engine::Leases.word(), Engine::Owners.word()),
        ValuedOption::Num => number("num", 1, 1_000, 1),
        ValuedOption::Den => number("den", 1, 1_000, 1),
        ValuedOption::Budget => number("budget", 1, 1_099_511_627_776, 16_777_216),
        ValuedOption::Lot => number("lot", 1, 1_048_576, 256),
        ValuedOption::Blocks => number("blocks", 16, 4_096, 256),
        ValuedOption::Pattern => number("pattern", 0, 12, 0),
        ValuedOption::Estimate => one_word("estimate", TABLES),
        ValuedOption::Effort => number("effort", 1, 20, 10),
        ValuedOption::Tables => file_name("tables"),
        ValuedOption::Certificate => file_name("cert"),
        ValuedOption::Journal => file_name("trace"),
        ValuedOption::Rewrite => file_name("rewrite"),
        ValuedOption::Falling => optional_number("falling", 1, 20),
    }
}

impl ValuedOption {
    // What it is called.
    pub(crate) fn name<'a>(self) -> &'a str
        ensures { result.now ≡ option_name self }
    {
        entry_of(self).name
    }

    // What a value of it is.
    pub(crate) fn form<'a>(self) -> ValueForm<'a>
        ensures form { form_meant result ≡ option_form self }
        ensures default { HasDefault result }
    {
        entry_of(self).form
    }
}

impl FlagOption {
    // What it is called.
    pub(crate) fn name<'a>(self) -> &'a str
        ensures { result.now ≡ flag_name self }
    {
        match self {
            FlagOption::Plain => "plain",
            FlagOption::Swamp => "swamp",
            FlagOption::Reachable => "reachable",
        }
    }
}
