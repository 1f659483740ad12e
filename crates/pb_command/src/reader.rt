//! The words of the command line, read.
ghost use Rattle.std.specs.Prelude.{◌≡◌, ◌≢◌, true, map, IfOk, IfErr, IfSome};
ghost use Rattle.std.specs.String.{string_bytes};
ghost use Rattle.clap.specs.Words.{found_of, rows_of, kind_of, has_subcommand, subcommand_rows_of};
ghost use Rattle.clap.specs.declared.error.kind.ErrorKind.TheVariants.{OutOfMemory};
ghost use Rattle.pb_command.specs.declared.table.ValuedOption.TheVariants.{Row, Workers, Falling};
ghost use Rattle.pb_command.specs.declared.table.ValuedOption.TheVariants.{Effort};
ghost use Rattle.pb_command.specs.Table.{IsInRangeOf};
ghost use Rattle.pb_command.specs.Values.{number_at, flag_at};
ghost use Rattle.pb_command.specs.Meaning.{reading_of_words, command_met, command_of, solve_of};
ghost use Rattle.pb_command.specs.Meaning.{check_of, journal_of, make_of, solve_tested};
ghost use Rattle.pb_command.specs.Meaning.{check_tested, options_by, settings_by, AreEachInRange};
ghost use Rattle.pb_command.specs.Meaning.{Read, Refused, Solve, IsInRange};
ghost use Rattle.pb_command.specs.Causes.{IsCause, Answers, meaning_of, solve_meant, check_meant};

use crate::command::{
    CheckCommand, CommandLine, FallingCommand, InputOptions, JournalCommand, MakeCommand,
    SolveCommand,
};
use crate::parser::program;
use crate::refusal::{CommandFault, CommandRefusal, RefusedWord, form_refusal, refuse};
use crate::table::{
    CHECK_OPTIONS, FlagOption, JOURNAL_OPTIONS, MAKE_OPTIONS, SOLVE_OPTIONS, ValuedOption,
};
use crate::values::{
    SEED_MOST, SIZE_WORD_MOST, are_two_estimates, effort_at, engine_at, fits, flag_at,
    grounding_at, input_of, is_falling_of_owners, is_journal_of_falling, is_journal_of_owners,
    is_loaded_name, is_one_name, is_size, known_kind, number, number_at, optional_number_at, text,
    text_at, values_fit,
};
use clap::{ArgMatches, Error};
use pb_machine::Settings;
use std::alloc::Global;

// How the files of a task are read.
fn input_options(matches: &ArgMatches<'_>) -> InputOptions
    ensures options { result ≡ options_by (number_at (rows_of (found_of matches.now)))
        (flag_at (rows_of (found_of matches.now))) }
    ensures row { IsInRangeOf Row result.row }
{
    InputOptions {
        row: number_at(matches, ValuedOption::Row),
        swamp: flag_at(matches, FlagOption::Swamp),
        grounding: grounding_at(matches),
    }
}

// What a search is run with. Whether the weight is at least 1 is tested later.
fn settings(matches: &ArgMatches<'_>) -> Settings
    ensures settings { result ≡ settings_by (number_at (rows_of (found_of matches.now)))
        (flag_at (rows_of (found_of matches.now))) }
    ensures range { AreEachInRange result }
{
    Settings {
        // No cast loses anything, by the ranges of the table.
        workers: number_at(matches, ValuedOption::Workers) as u32,
        num: number_at(matches, ValuedOption::Num),
        den: number_at(matches, ValuedOption::Den),
        budget: number_at(matches, ValuedOption::Budget),
        lot: number_at(matches, ValuedOption::Lot),
        wish: number_at(matches, ValuedOption::Blocks) as u32,
        plain: flag_at(matches, FlagOption::Plain),
        pattern: number_at(matches, ValuedOption::Pattern) as u32,
    }
}

// The command, if its weight is at least 1, its two files have two names, and its engine keeps the
// journal and has the falling weights that are asked for. A search with falling weights keeps no
// journal. Tables that are looked for, a file of tables and a pattern database exclude each other.
fn tested_solve<'a>(
    command: SolveCommand<'a>,
    falling: Option<u64>,
) -> Result<CommandLine<'a>, CommandFault>
    requires row { IsInRangeOf Row command.options.row }
    requires range { AreEachInRange command.settings }
    requires effort { IfSome command.effort (IsInRangeOf Effort) }
    requires steps { IfSome falling (IsInRangeOf Falling) }
    ensures read { Answers meaning_of (solve_tested falling (solve_meant command.entry)) result }
    ensures ranges { IfOk result (λ c. IsInRange (meaning_of c)) }
{
    // The first test that fails is reported, so they are in the order of `CommandFault`.
    if command.settings.num < command.settings.den {
        return Err(CommandFault::Weight);
    }
    if is_one_name(command.certificate, command.journal) {
        return Err(CommandFault::Names);
    }
    if is_journal_of_owners(command.engine, command.journal) {
        return Err(CommandFault::Engine);
    }
    if is_falling_of_owners(command.engine, falling) {
        return Err(CommandFault::Engine);
    }
    if is_journal_of_falling(falling, command.journal) {
        return Err(CommandFault::Falling);
    }
    if are_two_estimates(command.effort, command.tables, command.settings.pattern) {
        return Err(CommandFault::Estimate);
    }
    match falling {
        Some(steps) => Ok(CommandLine::Falling(FallingCommand {
            solve: command,
            steps,
        })),
        None => Ok(CommandLine::Solve(command)),
    }
}

// What the values of `solve` ask for.
fn read_solve<'a>(matches: &ArgMatches<'a>) -> Result<CommandLine<'a>, CommandFault>
    ensures read { Answers meaning_of (solve_of (rows_of (found_of matches.now))) result }
    ensures ranges { IfOk result (λ c. IsInRange (meaning_of c)) }
{
    let kind = known_kind(text(matches, "KIND"));
    let first = text(matches, "FIRST_FILE");
    let second = text(matches, "SECOND_FILE");
    let options = input_options(matches);
    let settings = settings(matches);
    let engine = engine_at(matches);
    let effort = effort_at(matches);
    let tables = text_at(matches, ValuedOption::Tables);
    let certificate = text_at(matches, ValuedOption::Certificate);
    let journal = text_at(matches, ValuedOption::Journal);
    let falling = optional_number_at(matches, ValuedOption::Falling);
    if !values_fit(matches, &SOLVE_OPTIONS) {
        return Err(CommandFault::Form);
    }
    let Some(kind) = kind else {
        return Err(CommandFault::Kind);
    };
    match first {
        Some(first) => match input_of(kind, first, second) {
            Some(input) => {
                let command = SolveCommand {
                    input,
                    options,
                    settings,
                    engine,
                    effort,
                    tables,
                    certificate,
                    journal,
                };
                tested_solve(command, falling)
            }
            None => Err(CommandFault::Files),
        },
        // Clap requires the word, but its clauses don't say that it is there.
        None => Err(CommandFault::Form),
    }
}

// The command, if the certificate isn't to be saved under the name of a file that is loaded.
fn tested_check<'a>(command: CheckCommand<'a>) -> Result<CommandLine<'a>, CommandFault>
    requires row { IsInRangeOf Row command.options.row }
    requires workers { IsInRangeOf Workers command.workers }
    ensures read { Answers meaning_of (check_tested (check_meant command.entry)) result }
    ensures ranges { IfOk result (λ c. IsInRange (meaning_of c)) }
{
    if is_loaded_name(command.rewrite, command.certificate, &command.input) {
        return Err(CommandFault::Names);
    }
    Ok(CommandLine::Check(command))
}

// What the values of `check` ask for.
fn read_check<'a>(matches: &ArgMatches<'a>) -> Result<CommandLine<'a>, CommandFault>
    ensures read { Answers meaning_of (check_of (rows_of (found_of matches.now))) result }
    ensures ranges { IfOk result (λ c. IsInRange (meaning_of c)) }
{
    let kind = known_kind(text(matches, "KIND"));
    let certificate = text(matches, "CERTIFICATE");
    let first = text(matches, "FIRST_FILE");
    let second = text(matches, "SECOND_FILE");
    let options = input_options(matches);
    let workers = number_at(matches, ValuedOption::Workers);
    let rewrite = text_at(matches, ValuedOption::Rewrite);
    if !values_fit(matches, &CHECK_OPTIONS) {
        return Err(CommandFault::Form);
    }
    let Some(kind) = kind else {
        return Err(CommandFault::Kind);
    };
    match (certificate, first) {
        (Some(certificate), Some(first)) => match input_of(kind, first, second) {
            Some(input) => tested_check(CheckCommand {
                input,
                certificate,
                options,
                workers,
                rewrite,
            }),
            None => Err(CommandFault::Files),
        },
        _ => Err(CommandFault::Form),
    }
}

// What the values of `journal` ask for.
fn read_journal<'a>(matches: &ArgMatches<'a>) -> Result<CommandLine<'a>, CommandFault>
    ensures read { Answers meaning_of (journal_of (rows_of (found_of matches.now))) result }
    ensures ranges { IfOk result (λ c. IsInRange (meaning_of c)) }
{
    let kind = known_kind(text(matches, "KIND"));
    let journal = text(matches, "JOURNAL");
    let first = text(matches, "FIRST_FILE");
    let second = text(matches, "SECOND_FILE");
    let row = number_at(matches, ValuedOption::Row);
    let grounding = grounding_at(matches);
    if !values_fit(matches, &JOURNAL_OPTIONS) {
        return Err(CommandFault::Form);
    }
    let Some(kind) = kind else {
        return Err(CommandFault::Kind);
    };
    match (journal, first) {
        (Some(journal), Some(first)) => match input_of(kind, first, second) {
            Some(input) => Ok(CommandLine::Journal(JournalCommand {
                input,
                journal,
                options: InputOptions {
                    row,
                    swamp: false,
                    grounding,
                },
            })),
            None => Err(CommandFault::Files),
        },
        _ => Err(CommandFault::Form),
    }
}

// What the values of `make` ask for.
fn read_make<'a>(matches: &ArgMatches<'a>) -> Result<CommandLine<'a>, CommandFault>
    ensures read { Answers meaning_of (make_of (rows_of (found_of matches.now))) result }
    ensures ranges { IfOk result (λ c. IsInRange (meaning_of c)) }
{
    let kind = known_kind(text(matches, "KIND"));
    let seed = number(matches, "SEED", 0, SEED_MOST, None);
    let size = number(matches, "SIZE", 0, SIZE_WORD_MOST, None);
    let workers = number_at(matches, ValuedOption::Workers);
    if !values_fit(matches, &MAKE_OPTIONS) {
        return Err(CommandFault::Form);
    }
    let Some(kind) = kind else {
        return Err(CommandFault::Kind);
    };
    match (seed, size) {
        (Some(seed), Some(size)) => {
            if is_size(kind, size) {
                Ok(CommandLine::Make(MakeCommand {
                    kind,
                    seed,
                    size,
                    workers,
                }))
            } else {
                Err(CommandFault::Size)
            }
        }
        _ => Err(CommandFault::Form),
    }
}

// What the values of a subcommand ask for.
fn read_command<'a>(name: &str, matches: &ArgMatches<'a>) -> Result<CommandLine<'a>, CommandFault>
    ensures read { Answers meaning_of
        (command_of name.now (rows_of (found_of matches.now))) result }
    ensures ranges { IfOk result (λ c. IsInRange (meaning_of c)) }
{
    match name {
        "solve" => read_solve(matches),
        "check" => read_check(matches),
        "journal" => read_journal(matches),
        // Clap knows no other command than these four.
        _ => read_make(matches),
    }
}

// The value of an option, if it is given and isn't of the option's form.
fn unfit_text<'a>(matches: &ArgMatches<'a>, option: ValuedOption) -> Option<&'a str> {
    if fits(matches, option) {
        None
    } else {
        text_at(matches, option)
    }
}

// Whether the first option is given before the second, where both are.
fn is_given_first(matches: &ArgMatches<'_>, first: ValuedOption, second: ValuedOption) -> bool {
    match (
        matches.index_of(first.name()),
        matches.index_of(second.name()),
    ) {
        (Some(first), Some(second)) => first < second,
        _ => true,
    }
}

// The word of an option that is none of the option's words: the first of them that is given.
fn unfit_word<'a>(matches: &ArgMatches<'a>) -> Option<RefusedWord<'a>> {
    let engine = unfit_text(matches, ValuedOption::Engine);
    let estimate = unfit_text(matches, ValuedOption::Estimate);
    let is_engine_first = is_given_first(matches, ValuedOption::Engine, ValuedOption::Estimate);
    match (engine, estimate) {
        (Some(engine), None) => Some(RefusedWord::of_engine(engine)),
        (None, Some(estimate)) => Some(RefusedWord::of_estimate(estimate)),
        (Some(engine), Some(_)) if is_engine_first => Some(RefusedWord::of_engine(engine)),
        (Some(_), Some(estimate)) => Some(RefusedWord::of_estimate(estimate)),
        (None, None) => None,
    }
}

// The word that the text for this fault repeats: one of an option, or the one in the place of the
// kind.
fn refused_word<'a>(matches: &ArgMatches<'a>, fault: CommandFault) -> Option<RefusedWord<'a>> {
    match fault {
        CommandFault::Form => unfit_word(matches),
        _ => match text(matches, "KIND") {
            Some(word) => Some(RefusedWord::of_kind(word)),
            None => None,
        },
    }
}

// What the values of a subcommand ask for, or the refusal of its words.
fn read_subcommand<'a>(
    alloc: Global,
    name: &str,
    matches: &ArgMatches<'a>,
) -> Result<CommandLine<'a>, CommandRefusal>
    ensures read { IfOk result (λ c. command_of name.now (rows_of (found_of matches.now))
        ≡ Read (meaning_of c)) }
    ensures ranges { IfOk result (λ c. IsInRange (meaning_of c)) }
    ensures refused { IfErr result
        (IsCause (command_of name.now (rows_of (found_of matches.now)))) }
{
    match read_command(name, matches) {
        Ok(command) => Ok(command),
        Err(fault) => Err(refuse(alloc, name, refused_word(matches, fault), fault)),
    }
}

// What clap finds in the words.
fn parse<'a>(alloc: Global, words: &'a [String]) -> Result<ArgMatches<'a>, Error>
    ensures met { IfOk result (λ m. has_subcommand m ≡ true) }
    ensures meaning { IfOk result (λ m. reading_of_words (map string_bytes words.entry.now)
        ≡ command_met (subcommand_rows_of m)) }
    ensures refused { IfErr result (λ e. kind_of e ≢ OutOfMemory
        → reading_of_words (map string_bytes words.entry.now) ≡ Refused CommandFault.Form) }
{
    let program = program(alloc)?;
    program.try_get_matches_from(words)
}

/// Reads the words after the program's name: the command that they are, or why they are none, with
/// what is to be printed of it. The tests come in this order: the form, the kind, the number of
/// files, the weight, the two names, the engine, the journal of falling weights, the two estimates,
/// the size.
pub fn read_words<'a>(alloc: Global, words: &'a [String]) -> Result<CommandLine<'a>, CommandRefusal>
    ensures read { IfOk result (λ c. reading_of_words (map string_bytes words.entry.now)
        ≡ Read (meaning_of c)) }
    // The command's values lie in their ranges.
    ensures ranges { IfOk result (λ c. IsInRange (meaning_of c)) }
    ensures refused { IfErr result
        (λ r. IsCause (reading_of_words (map string_bytes words.entry.now)) r) }
{
    match parse(alloc, words) {
        Ok(matches) => match matches.subcommand() {
            Some((name, inner)) => read_subcommand(alloc, name, inner),
            // `parse` states that a subcommand was found.
            None => unreachable!(),
        },
        Err(error) => Err(form_refusal(alloc, &error)),
    }
}
