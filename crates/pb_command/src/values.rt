//! What the values of a parse are.
ghost use Rattle.std.specs.Prelude.{◌≡◌, ◌≤◌, false, None, Some, ℕ, IfSome, IsSome, option_map};
ghost use Rattle.clap.specs.Words.{first_of, found_of, one_of, rows_of};
ghost use Rattle.pb_command.specs.Values.{number_in, flag_of, kind_of_text, input_of, is_size};
ghost use Rattle.pb_command.specs.Values.{are_one_name, option_fits, values_fit, number_at};
ghost use Rattle.pb_command.specs.Values.{optional_number_at, text_at, flag_at, grounding_by};
ghost use Rattle.pb_command.specs.Values.{is_input_name, is_loaded_name, is_journal_of_owners};
ghost use Rattle.pb_command.specs.Values.{engine_at, is_falling_of_owners, is_journal_of_falling};
ghost use Rattle.pb_command.specs.Values.{effort_at, are_two_estimates};
ghost use Rattle.pb_command.specs.Table.{IsInRangeOf};
ghost use Rattle.pb_command.specs.declared.command.Engine.TheVariants.{Leases, Owners};
ghost use Rattle.pb_command.specs.declared.table.ValuedOption.TheVariants.{Effort};
ghost use Rattle.pb_command.specs.Causes.{input_meant};

use crate::command::{Engine, GridFiles, Input, StripsFiles};
use crate::table::{FlagOption, TABLES, ValueForm, ValuedOption};
use clap::ArgMatches;
use pb_task::{Grounding, Kind};

// The greatest seed of a made task, 2^32 - 1.
pub(crate) const SEED_MOST: u64 = 4_294_967_295;

// The greatest number that the word for a size may write, 2^64 - 1.
pub(crate) const SIZE_WORD_MOST: u64 = 18_446_744_073_709_551_615;

// The first value of an argument.
pub(crate) fn text<'a>(matches: &ArgMatches<'a>, id: &str) -> Option<&'a str>
    ensures { option_map (λ t. t.now) result ≡ first_of id.now (rows_of (found_of matches.now)) }
{
    matches.get_str(id)
}

// The number of an argument, or the default if it isn't given.
pub(crate) fn number(
    matches: &ArgMatches<'_>,
    id: &str,
    least: u64,
    most: u64,
    default: Option<u64>,
) -> Option<u64>
    requires { IfSome default (λ n. (least ≤ n) × (n ≤ most)) }
    ensures number { result
        ≡ number_in least most default (one_of id.now (rows_of (found_of matches.now))) }
    ensures range { IfSome result (λ n. (least ≤ n) × (n ≤ most)) }
{
    match matches.try_get_one::<u64>(id) {
        Ok(None) => default,
        Ok(Some(n)) => {
            // Clap tested the range too, but states it for values of the top level alone.
            if least <= n && n <= most {
                Some(n)
            } else {
                None
            }
        }
        Err(_) => None,
    }
}

// Whether a flag is given.
fn is_given(matches: &ArgMatches<'_>, id: &str) -> bool
    ensures { result ≡ flag_of id.now (rows_of (found_of matches.now)) }
{
    // Read as a text, since `get_flag` states nothing about texts other than `true` and `false`.
    match text(matches, id) {
        Some("true") => true,
        _ => false,
    }
}

// Whether the value of an option, if it is given, is one of the option's form.
pub(crate) fn fits(matches: &ArgMatches<'_>, option: ValuedOption) -> bool
    ensures { result ≡ option_fits option (rows_of (found_of matches.now)) }
{
    match option.form() {
        ValueForm::Number {
            least,
            most,
            default,
        } => match number(matches, option.name(), least, most, Some(default)) {
            Some(_) => true,
            None => false,
        },
        ValueForm::OptionalNumber { least, most } => {
            // Any default in the range would do: an option that is not given fits.
            match number(matches, option.name(), least, most, Some(least)) {
                Some(_) => true,
                None => false,
            }
        }
        ValueForm::FileName => true,
        ValueForm::OneOf(first, second) => match text_at(matches, option) {
            Some(word) => first == word || second == word,
            None => true,
        },
        ValueForm::OneWord(only) => match text_at(matches, option) {
            Some(word) => only == word,
            None => true,
        },
    }
}

// Whether the values of these options are of their forms.
pub(crate) fn values_fit(matches: &ArgMatches<'_>, options: &[ValuedOption]) -> bool
    ensures { result ≡ values_fit options.now (rows_of (found_of matches.now)) }
{
    match options.split_first() {
        None => true,
        Some((first, rest)) => fits(matches, *first) && values_fit(matches, rest),
    }
}

// The number of an option, or its default.
pub(crate) fn number_at(matches: &ArgMatches<'_>, option: ValuedOption) -> u64
    ensures number { result ≡ number_at (rows_of (found_of matches.now)) option }
    ensures range { IsInRangeOf option result }
{
    match option.form() {
        ValueForm::Number {
            least,
            most,
            default,
        } => match number(matches, option.name(), least, most, Some(default)) {
            Some(n) => n,
            None => default,
        },
        // The number of an option of another form is never asked for.
        ValueForm::OptionalNumber { least, .. } => least,
        ValueForm::FileName => 0,
        ValueForm::OneOf(_, _) => 0,
        ValueForm::OneWord(_) => 0,
    }
}

// The number of an option without a default, if it is given.
pub(crate) fn optional_number_at(matches: &ArgMatches<'_>, option: ValuedOption) -> Option<u64>
    ensures number { result ≡ optional_number_at (rows_of (found_of matches.now)) option }
    ensures range { IfSome result (IsInRangeOf option) }
{
    match option.form() {
        ValueForm::OptionalNumber { least, most } => {
            number(matches, option.name(), least, most, None)
        }
        ValueForm::Number { .. } => None,
        ValueForm::FileName => None,
        ValueForm::OneOf(_, _) => None,
        ValueForm::OneWord(_) => None,
    }
}

// The text of an option, if it is given.
pub(crate) fn text_at<'a>(matches: &ArgMatches<'a>, option: ValuedOption) -> Option<&'a str>
    ensures { option_map (λ t. t.now) result ≡ text_at (rows_of (found_of matches.now)) option }
{
    text(matches, option.name())
}

// The engine that is asked for, or the default.
pub(crate) fn engine_at(matches: &ArgMatches<'_>) -> Engine
    ensures { result ≡ engine_at (rows_of (found_of matches.now)) }
{
    match text_at(matches, ValuedOption::Engine) {
        Some(word) => {
            // Any third word is refused by `values_fit`.
            if word == Engine::Owners.word() {
                Engine::Owners
            } else {
                Engine::Leases
            }
        }
        None => Engine::Leases,
    }
}

// How much is looked at to find tables for the estimate, if they are asked for.
pub(crate) fn effort_at(matches: &ArgMatches<'_>) -> Option<u32>
    ensures effort { result ≡ effort_at (rows_of (found_of matches.now)) }
    ensures range { IfSome result (IsInRangeOf Effort) }
{
    // The number is read in each case. No cast loses anything, by the range of the table.
    let effort = number_at(matches, ValuedOption::Effort) as u32;
    match text_at(matches, ValuedOption::Estimate) {
        Some(word) => {
            // Any other word is refused by `values_fit`.
            if word == TABLES { Some(effort) } else { None }
        }
        None => None,
    }
}

// Whether a flag is given.
pub(crate) fn flag_at(matches: &ArgMatches<'_>, flag: FlagOption) -> bool
    ensures { result ≡ flag_at (rows_of (found_of matches.now)) flag }
{
    is_given(matches, flag.name())
}

// Which ground atoms and actions have numbers.
pub(crate) fn grounding_at(matches: &ArgMatches<'_>) -> Grounding
    ensures { result
        ≡ grounding_by (flag_at (rows_of (found_of matches.now)) FlagOption.Reachable) }
{
    if flag_at(matches, FlagOption::Reachable) {
        Grounding::Reachable
    } else {
        Grounding::All
    }
}

// Whether both names are given and are one.
pub(crate) fn is_one_name(first: Option<&str>, second: Option<&str>) -> bool
    ensures { result ≡ are_one_name (option_map (λ t. t.now) first.entry)
        (option_map (λ t. t.now) second.entry) }
{
    match (first, second) {
        (Some(first), Some(second)) => first == second,
        _ => false,
    }
}

// Whether a journal is asked for of the engine that keeps none.
pub(crate) fn is_journal_of_owners(engine: Engine, journal: Option<&str>) -> bool
    ensures test { result
        ≡ is_journal_of_owners engine (option_map (λ t. t.now) journal.entry) }
    ensures none { result ≡ false → engine ≡ Owners
        → option_map (λ t. t.now) journal.entry ≡ None }
{
    match (engine, journal) {
        (Engine::Owners, Some(_)) => true,
        _ => false,
    }
}

// Whether falling weights are asked for of the engine that has none.
pub(crate) fn is_falling_of_owners(engine: Engine, falling: Option<u64>) -> bool
    ensures test { result ≡ is_falling_of_owners engine falling }
    ensures leases { (steps : ℕ) → result ≡ false → falling ≡ Some steps → engine ≡ Leases }
{
    match (engine, falling) {
        (Engine::Owners, Some(_)) => true,
        _ => false,
    }
}

// Whether a journal is asked for of a search with falling weights.
pub(crate) fn is_journal_of_falling(falling: Option<u64>, journal: Option<&str>) -> bool
    ensures test { result
        ≡ is_journal_of_falling falling (option_map (λ t. t.now) journal.entry) }
    ensures none { (steps : ℕ) → result ≡ false → falling ≡ Some steps
        → option_map (λ t. t.now) journal.entry ≡ None }
{
    match (falling, journal) {
        (Some(_), Some(_)) => true,
        _ => false,
    }
}

// Whether two of these are asked for: tables that are looked for, a file of tables, and a pattern
// database.
pub(crate) fn are_two_estimates(effort: Option<u32>, tables: Option<&str>, pattern: u32) -> bool
    ensures test { result
        ≡ are_two_estimates effort (option_map (λ t. t.now) tables.entry) pattern }
    ensures none { result ≡ false → IsSome effort → pattern ≡ 0 }
    ensures file { result ≡ false → IsSome (option_map (λ t. t.now) tables.entry)
        → (pattern ≡ 0) × (effort ≡ None) }
{
    match (effort, tables) {
        (None, None) => false,
        (Some(_), Some(_)) => true,
        _ => pattern > 0,
    }
}

// Whether a file of the task has this name.
fn is_input_name(input: &Input<'_>, name: &str) -> bool
    ensures { result ≡ is_input_name (input_meant input.now) name.now }
{
    match input {
        Input::Grid(files) => name == files.map || name == files.scenario,
        Input::Tiles(board) => name == *board,
        Input::Strips(files) => name == files.domain || name == files.problem,
    }
}

// Whether a name is given that a file has which is loaded.
pub(crate) fn is_loaded_name(name: Option<&str>, certificate: &str, input: &Input<'_>) -> bool
    ensures { result ≡ is_loaded_name (option_map (λ t. t.now) name.entry) certificate.now
        (input_meant input.now) }
{
    match name {
        Some(name) => name == certificate || is_input_name(input, name),
        None => false,
    }
}

// Whether a made task of this kind may have this size.
pub(crate) fn is_size(kind: Kind, size: u64) -> bool
    ensures { result ≡ is_size kind size }
{
    match kind {
        Kind::Grid => 1 <= size && size <= 2_048,
        Kind::Tiles => size <= 1_000_000,
        Kind::Strips => 1 <= size && size <= 14,
    }
}

// The kind that a word names.
pub(crate) fn known_kind(word: Option<&str>) -> Option<Kind>
    ensures { result ≡ kind_of_text (option_map (λ t. t.now) word.entry) }
{
    match word {
        Some("grid") => Some(Kind::Grid),
        Some("tiles") => Some(Kind::Tiles),
        Some("strips") => Some(Kind::Strips),
        _ => None,
    }
}

// The files of a kind, if their number is right.
pub(crate) fn input_of<'a>(kind: Kind, first: &'a str, second: Option<&'a str>) -> Option<Input<'a>>
    ensures { option_map input_meant result
        ≡ input_of kind first.entry.now (option_map (λ t. t.now) second.entry) }
{
    match (kind, second) {
        (Kind::Grid, Some(scenario)) => Some(Input::Grid(GridFiles {
            map: first,
            scenario,
        })),
        (Kind::Grid, None) => None,
        (Kind::Tiles, None) => Some(Input::Tiles(first)),
        (Kind::Tiles, Some(_)) => None,
        (Kind::Strips, Some(problem)) => Some(Input::Strips(StripsFiles {
            domain: first,
            problem,
        })),
        (Kind::Strips, None) => None,
    }
}
