//! The command as it is declared to clap.
ghost use Rattle.std.specs.Prelude.{◌≡◌, false, map, IfOk};
ghost use Rattle.clap.specs.Words.{App, app_of, rule_of, new_rule, with_rule, with_subcommand};
ghost use Rattle.clap.specs.declared.builder.command.Command.TheViews.{out-Command as fields_of};
ghost use Rattle.pb_command.specs.Parser.{the_program, the_solve, the_check, the_journal, the_make};
ghost use Rattle.pb_command.specs.Parser.{with_rules, option_rule, bare_program};
ghost use Rattle.pb_command.specs.Parser.{number_rule, text_rule, flag_rule};
ghost use Rattle.pb_command.specs.Table.{flag_name};
ghost use Rattle.pb_command.specs.Parser.{required_rule, required_number_rule};

use crate::table::{
    CHECK_FLAGS, CHECK_OPTIONS, FlagOption, JOURNAL_FLAGS, JOURNAL_OPTIONS, MAKE_OPTIONS,
    SOLVE_FLAGS, SOLVE_OPTIONS, ValueForm, ValuedOption,
};
use crate::values::{SEED_MOST, SIZE_WORD_MOST};
use clap::builder::ValueParser;
use clap::{Arg, ArgAction, Command};
use std::alloc::{AllocError, Global};

// `--NAME NUMBER`, a whole number from `least` to `most`.
fn number_option<'a>(alloc: Global, name: &'a str, least: u64, most: u64) -> Arg<'a>
    ensures rule { rule_of result ≡ number_rule name.entry.now least most }
    ensures local { result.global ≡ false }
{
    Arg::new(alloc, name)
        .long(name)
        .value_parser(ValueParser::Unsigned(least, most))
}

// `--NAME TEXT`.
fn text_option<'a>(alloc: Global, name: &'a str) -> Arg<'a>
    ensures rule { rule_of result ≡ text_rule name.entry.now }
    ensures local { result.global ≡ false }
{
    Arg::new(alloc, name).long(name)
}

// `--NAME`, without a value.
fn flag<'a>(alloc: Global, name: &'a str) -> Arg<'a>
    ensures rule { rule_of result ≡ flag_rule name.entry.now }
    ensures local { result.global ≡ false }
{
    Arg::new(alloc, name).long(name).action(ArgAction::SetTrue)
}

// A required word.
fn required_word<'a>(alloc: Global, name: &'a str) -> Arg<'a>
    ensures rule { rule_of result ≡ required_rule name.entry.now }
    ensures local { result.global ≡ false }
{
    Arg::new(alloc, name).required(true)
}

// A required word, a whole number from `least` to `most`.
fn required_number<'a>(alloc: Global, name: &'a str, least: u64, most: u64) -> Arg<'a>
    ensures rule { rule_of result ≡ required_number_rule name.entry.now least most }
    ensures local { result.global ≡ false }
{
    Arg::new(alloc, name)
        .required(true)
        .value_parser(ValueParser::Unsigned(least, most))
}

// An optional word.
fn optional_word<'a>(alloc: Global, name: &'a str) -> Arg<'a>
    ensures rule { rule_of result ≡ new_rule name.entry.now }
    ensures local { result.global ≡ false }
{
    Arg::new(alloc, name)
}

// Adds an argument, which is no global one, to a command, if there is one. Callers hand each result
// on, and look at the last alone: after a `?` for each, a proof would drop all that came before.
fn add<'a>(
    command: Result<Command<'a>, AllocError>,
    arg: Arg<'a>,
) -> Result<Command<'a>, AllocError>
    requires arg { arg.global ≡ false }
    requires command { IfOk command (λ c. (fields_of c).has_globals ≡ false) }
    ensures app { (a : App) → IfOk command.entry (λ c. app_of c ≡ a)
        → IfOk result (λ c. app_of c ≡ with_rule a (rule_of arg.entry)) }
    ensures local { IfOk result (λ c. (fields_of c).has_globals ≡ false) }
{
    match command {
        Ok(command) => command.arg(arg),
        Err(error) => Err(error),
    }
}

// An option of the table.
fn option_arg<'a>(alloc: Global, option: ValuedOption) -> Arg<'a>
    ensures rule { rule_of result ≡ option_rule option }
    ensures local { result.global ≡ false }
{
    match option.form() {
        ValueForm::Number { least, most, .. } => number_option(alloc, option.name(), least, most),
        ValueForm::OptionalNumber { least, most } => {
            number_option(alloc, option.name(), least, most)
        }
        ValueForm::FileName => text_option(alloc, option.name()),
        // The reader tests the word.
        ValueForm::OneOf(_, _) => text_option(alloc, option.name()),
        ValueForm::OneWord(_) => text_option(alloc, option.name()),
    }
}

// Adds these options.
fn add_options<'a>(
    alloc: Global,
    command: Result<Command<'a>, AllocError>,
    options: &[ValuedOption],
) -> Result<Command<'a>, AllocError>
    requires command { IfOk command (λ c. (fields_of c).has_globals ≡ false) }
    ensures app { (a : App) → IfOk command.entry (λ c. app_of c ≡ a)
        → IfOk result (λ c. app_of c ≡ with_rules a (map option_rule options.now)) }
    ensures local { IfOk result (λ c. (fields_of c).has_globals ≡ false) }
{
    match options.split_first() {
        None => command,
        Some((first, rest)) => {
            let with_first = add(command, option_arg(alloc, *first));
            add_options(alloc, with_first, rest)
        }
    }
}

// Adds these flags.
fn add_flags<'a>(
    alloc: Global,
    command: Result<Command<'a>, AllocError>,
    flags: &[FlagOption],
) -> Result<Command<'a>, AllocError>
    requires command { IfOk command (λ c. (fields_of c).has_globals ≡ false) }
    ensures app { (a : App) → IfOk command.entry (λ c. app_of c ≡ a)
        → IfOk result (λ c. app_of c
        ≡ with_rules a (map (λ f. flag_rule (flag_name f)) flags.now)) }
    ensures local { IfOk result (λ c. (fields_of c).has_globals ≡ false) }
{
    match flags.split_first() {
        None => command,
        Some((first, rest)) => {
            let with_first = add(command, flag(alloc, first.name()));
            add_flags(alloc, with_first, rest)
        }
    }
}

// `solve KIND FILE [FILE]` and its options.
pub(crate) fn solve<'a>(alloc: Global) -> Result<Command<'a>, AllocError>
    ensures app { IfOk result (λ c. app_of c ≡ the_solve) }
    ensures local { IfOk result (λ c. (fields_of c).has_globals ≡ false) }
{
    let with_kind = add(
        Ok(Command::new(alloc, "solve")),
        required_word(alloc, "KIND"),
    );
    let with_first = add(with_kind, required_word(alloc, "FIRST_FILE"));
    let with_second = add(with_first, optional_word(alloc, "SECOND_FILE"));
    let with_options = add_options(alloc, with_second, &SOLVE_OPTIONS);
    add_flags(alloc, with_options, &SOLVE_FLAGS)
}

// `check KIND CERT FILE [FILE]` and its options.
pub(crate) fn check<'a>(alloc: Global) -> Result<Command<'a>, AllocError>
    ensures app { IfOk result (λ c. app_of c ≡ the_check) }
    ensures local { IfOk result (λ c. (fields_of c).has_globals ≡ false) }
{
    let with_kind = add(
        Ok(Command::new(alloc, "check")),
        required_word(alloc, "KIND"),
    );
    let with_certificate = add(with_kind, required_word(alloc, "CERTIFICATE"));
    let with_first = add(with_certificate, required_word(alloc, "FIRST_FILE"));
    let with_second = add(with_first, optional_word(alloc, "SECOND_FILE"));
    let with_options = add_options(alloc, with_second, &CHECK_OPTIONS);
    add_flags(alloc, with_options, &CHECK_FLAGS)
}

// `journal KIND JOURNAL FILE [FILE]` and its options.
pub(crate) fn journal<'a>(alloc: Global) -> Result<Command<'a>, AllocError>
    ensures app { IfOk result (λ c. app_of c ≡ the_journal) }
    ensures local { IfOk result (λ c. (fields_of c).has_globals ≡ false) }
{
    let with_kind = add(
        Ok(Command::new(alloc, "journal")),
        required_word(alloc, "KIND"),
    );
    let with_journal = add(with_kind, required_word(alloc, "JOURNAL"));
    let with_first = add(with_journal, required_word(alloc, "FIRST_FILE"));
    let with_second = add(with_first, optional_word(alloc, "SECOND_FILE"));
    let with_options = add_options(alloc, with_second, &JOURNAL_OPTIONS);
    add_flags(alloc, with_options, &JOURNAL_FLAGS)
}

// `make KIND SEED SIZE` and its options.
pub(crate) fn make<'a>(alloc: Global) -> Result<Command<'a>, AllocError>
    ensures app { IfOk result (λ c. app_of c ≡ the_make) }
    ensures local { IfOk result (λ c. (fields_of c).has_globals ≡ false) }
{
    let with_kind = add(
        Ok(Command::new(alloc, "make")),
        required_word(alloc, "KIND"),
    );
    let with_seed = add(with_kind, required_number(alloc, "SEED", 0, SEED_MOST));
    let with_size = add(with_seed, required_number(alloc, "SIZE", 0, SIZE_WORD_MOST));
    add_options(alloc, with_size, &MAKE_OPTIONS)
}

// The program before it has subcommands, without words for help or the version.
fn without_commands<'a>(alloc: Global) -> Command<'a>
    ensures app { app_of result ≡ bare_program }
    ensures local { (fields_of result).has_globals ≡ false }
{
    Command::new(alloc, "pbnf")
        .no_binary_name(true)
        .disable_help_flag(true)
        .disable_help_subcommand(true)
        .subcommand_required(true)
}

// Adds a subcommand with no global argument to the program, if there is one.
fn add_to<'a>(
    program: Command<'a>,
    command: Result<Command<'a>, AllocError>,
) -> Result<Command<'a>, AllocError>
    requires program { (fields_of program).has_globals ≡ false }
    requires command { IfOk command (λ c. (fields_of c).has_globals ≡ false) }
    ensures app { (b : App) → IfOk command.entry (λ c. app_of c ≡ b)
        → IfOk result (λ c. app_of c ≡ with_subcommand (app_of program.entry) b.top) }
    ensures local { IfOk result (λ c. (fields_of c).has_globals ≡ false) }
{
    program.subcommand(command?)
}

// The same, if there is a program.
fn add_command<'a>(
    program: Result<Command<'a>, AllocError>,
    command: Result<Command<'a>, AllocError>,
) -> Result<Command<'a>, AllocError>
    requires program { IfOk program (λ c. (fields_of c).has_globals ≡ false) }
    requires command { IfOk command (λ c. (fields_of c).has_globals ≡ false) }
    ensures app { (a : App) (b : App) → IfOk program.entry (λ c. app_of c ≡ a)
        → IfOk command.entry (λ c. app_of c ≡ b)
        → IfOk result (λ c. app_of c ≡ with_subcommand a b.top) }
    ensures local { IfOk result (λ c. (fields_of c).has_globals ≡ false) }
{
    match program {
        Ok(program) => add_to(program, command),
        Err(error) => Err(error),
    }
}

// The whole command.
pub(crate) fn program<'a>(alloc: Global) -> Result<Command<'a>, AllocError>
    ensures app { IfOk result (λ c. app_of c ≡ the_program) }
    ensures local { IfOk result (λ c. (fields_of c).has_globals ≡ false) }
{
    let with_solve = add_command(Ok(without_commands(alloc)), solve(alloc));
    let with_check = add_command(with_solve, check(alloc));
    let with_journal = add_command(with_check, journal(alloc));
    add_command(with_journal, make(alloc))
}
