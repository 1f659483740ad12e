//! Why words are refused, and what is printed of it.
ghost use Rattle.std.specs.Prelude.{◌≡◌, ◌≢◌, ◌≤◌, ◌+◌, true, length, IfOk, codes};
ghost use Rattle.std.specs.String.{string_bytes};
ghost use Rattle.std.specs.String.Boundary.{IsSplitPoint};
ghost use Rattle.clap.specs.Words.{kind_of};
ghost use Rattle.clap.specs.declared.error.kind.ErrorKind.TheVariants.{OutOfMemory};
ghost use Rattle.pb_command.specs.Meaning.{Reading, Refused};
ghost use Rattle.pb_command.specs.Causes.{IsCause, IsRefusal, EndsLine, IsErrorText, IsLine};
ghost use Rattle.pb_command.specs.Causes.{IsPrinted};
ghost use Rattle.pb_command.specs.Causes.{text_most};
ghost use Rattle.pb_command.specs.declared.refusal.CommandRefusal.TheVariants.{Memory};

use crate::parser::{check, journal, make, solve};
use crate::table::TABLES;
use clap::error::ErrorKind;
use clap::{Command, Error};
use std::alloc::{AllocError, Global};
use std::marker::Model;

/// Which test words fail, the first of them in this order.
#[derive(Clone, Copy, Debug, PartialEq, Eq)]
pub enum CommandFault {
    /// They are not of the declared form: an unknown command, option, engine or estimate, a number
    /// out of its range, a word too many or too few. Words for help and for the version are refused
    /// so too.
    Form,
    /// The word in the place of the kind names none.
    Kind,
    /// The kind has another number of files.
    Files,
    /// The weight, `--num` over `--den`, is below 1.
    Weight,
    /// The certificate and the journal would be saved under one name.
    Names,
    /// A search by owners keeps no journal and has no falling weights: `--engine hda` stands with
    /// `--trace` or with `--falling`.
    Engine,
    /// A journal is asked for of a search with falling weights: `--falling` stands with `--trace`.
    Falling,
    /// Two of these are asked for: tables that are looked for, a file of tables, and a pattern
    /// database. `--estimate tables` or `--tables` stands with a `--pattern` over 0, or both stand.
    Estimate,
    /// A made task of this kind can't have this size.
    Size,
}

// What a text for words out of form begins with.
const ERROR: &str = "error: ";

// How many bytes such a text has at most after that. A longer one, which repeats a long word, is
// cut.
const REST_MOST: usize = 65_536 - 7;

/// Lines that are to be printed, each of which ends with LF.
#[derive(Drop)]
pub struct Message {
    text: String,
}

impl Model for Message {
    ghost use Rattle.std.specs.Prelude.{List, ℕ};
    ghost use Rattle.std.specs.String.{string_bytes};

    ghost Value = { List ℕ };

    ghost view = { λ m. string_bytes m.text };
}

impl Message {
    // The message with a text of clap. Its clauses don't say that the text begins with `error: `,
    // so this is written here, and is left out of clap's.
    fn of_clap(alloc: Global, text: &str) -> Result<Message, AllocError>
        ensures { IfOk result IsErrorText }
    {
        let rest = end_last_line(String::from_str(alloc, without_error(text))?)?;
        let mut text = String::from_str(alloc, ERROR)?;
        text.push_str(rest.as_str())?;
        Ok(Message { text })
    }

    // The message of one line.
    fn of_line(alloc: Global, line: &str) -> Result<Message, AllocError>
        ensures { IfOk result (λ m. IsLine line.now m) }
    {
        let mut text = String::from_str(alloc, line)?;
        text.push_str("\n")?;
        Ok(Message { text })
    }

    /// The bytes of the text.
    pub fn as_bytes(&self) -> &[u8]
        ensures { result.now ≡ self.now }
    {
        self.text.as_bytes()
    }
}

// A text without `error: ` at its front, if it begins with that.
fn without_error(text: &str) -> &str {
    text.strip_prefix(ERROR).unwrap_or(text)
}

// The text with its last line ended, and cut if it is long.
fn end_last_line(text: String) -> Result<String, AllocError>
    ensures ends { IfOk result (λ t. EndsLine (string_bytes t)) }
    ensures few { IfOk result (λ t. 7 + length (string_bytes t) ≤ text_most) }
{
    let mut text = text;
    if text.len() <= REST_MOST && is_ended(text.as_str()) {
        return Ok(text);
    }
    // One byte is left for the line feed.
    let end = cut_at(&text, REST_MOST - 1);
    text.truncate(end);
    text.push_str("\n")?;
    Ok(text)
}

// Where a text is cut so that it has at most `most` bytes: its end, or the last place below that
// begins a character.
fn cut_at(text: &String, most: usize) -> usize
    ensures boundary { IsSplitPoint (string_bytes text.now) result }
    ensures most { result ≤ most }
{
    if text.len() <= most {
        return text.len();
    }
    let mut end = most;
    while end > 0 && !text.is_char_boundary(end) {
        end -= 1;
    }
    end
}

// Whether the last line of a text is ended.
fn is_ended(text: &str) -> bool
    ensures { result ≡ true → EndsLine text.now }
{
    match text.as_bytes().last() {
        Some(byte) => *byte == b'\n',
        None => false,
    }
}

/// Why words were not read.
#[derive(Drop)]
pub enum CommandRefusal {
    /// They are no command line, since they fail this test; the message is what is to be printed.
    Words(CommandFault, Message),
    /// Memory ran out.
    Memory,
}

impl From<AllocError> for CommandRefusal {
    ghost from_gives = { λ _ e. e ≡ Memory };

    fn from(_: AllocError) -> CommandRefusal {
        CommandRefusal::Memory
    }
}

// The text of an error of clap.
fn error_message(alloc: Global, error: &Error) -> Result<Message, AllocError>
    ensures { IfOk result IsErrorText }
{
    let text = format!(in alloc; "{error}")?;
    Message::of_clap(alloc, text.as_str())
}

// The answer to an error of clap: the words are out of form, with clap's text, or memory ran out.
pub(crate) fn form_refusal(alloc: Global, error: &Error) -> CommandRefusal
    ensures { (reading : Reading)
        → (kind_of error.now ≢ OutOfMemory → reading ≡ Refused CommandFault.Form)
        → IsCause reading result }
{
    match error.kind() {
        ErrorKind::OutOfMemory => CommandRefusal::Memory,
        _ => match error_message(alloc, error) {
            Ok(message) => CommandRefusal::Words(CommandFault::Form, message),
            Err(_) => CommandRefusal::Memory,
        },
    }
}

// The subcommand of this name.
fn command_named<'a>(alloc: Global, name: &str) -> Result<Command<'a>, AllocError> {
    match name {
        "solve" => solve(alloc),
        "check" => check(alloc),
        "journal" => journal(alloc),
        _ => make(alloc),
    }
}

// The error of clap for a mistake in the words of a subcommand.
fn clap_error(alloc: Global, name: &str, mistake: &str) -> Result<Error, AllocError> {
    let mut command = command_named(alloc, name)?.disable_help_flag(true);
    command.error(ErrorKind::InvalidValue, mistake)
}

// The message of clap for a mistake in the words of a subcommand.
fn clap_message(alloc: Global, name: &str, mistake: &str) -> Result<Message, AllocError>
    ensures { IfOk result IsErrorText }
{
    let error = clap_error(alloc, name, mistake)?;
    error_message(alloc, &error)
}

// A word that clap takes and the reader refuses.
#[derive(Clone, Copy)]
pub(crate) struct RefusedWord<'a> {
    // What it stands for, in clap's words.
    place: &'a str,
    // The words that may stand there.
    possible: &'a str,
    word: &'a str,
}

impl<'a> RefusedWord<'a> {
    // A word that names no kind.
    pub(crate) fn of_kind(word: &'a str) -> RefusedWord<'a> {
        RefusedWord {
            place: "<KIND>",
            possible: "grid, tiles, strips",
            word,
        }
    }

    // A word that names no engine.
    pub(crate) fn of_engine(word: &'a str) -> RefusedWord<'a> {
        RefusedWord {
            place: "--engine <engine>",
            possible: "pbnf, hda",
            word,
        }
    }

    // A word that names no estimate.
    pub(crate) fn of_estimate(word: &'a str) -> RefusedWord<'a> {
        RefusedWord {
            place: "--estimate <estimate>",
            possible: TABLES,
            word,
        }
    }
}

// The message of clap for a word that clap took and that is refused.
fn word_message(
    alloc: Global,
    name: &str,
    refused: Option<RefusedWord<'_>>,
) -> Result<Message, AllocError>
    ensures { IfOk result IsErrorText }
{
    let Some(refused) = refused else {
        // No words lead here, since clap tests all else. Its clauses don't say so.
        return clap_message(alloc, name, "a required value is missing");
    };
    let (word, place, possible) = (refused.word, refused.place, refused.possible);
    let mistake = format!(in alloc;
        "invalid value '{word}' for '{place}'\n  [possible values: {possible}]"
    )?;
    clap_message(alloc, name, mistake.as_str())
}

// What is printed if the words of a subcommand fail a test. The word is one of an option if they
// are out of form, and else the one in the place of the kind.
pub(crate) fn message_of(
    alloc: Global,
    name: &str,
    word: Option<RefusedWord<'_>>,
    fault: CommandFault,
) -> Result<Message, AllocError>
    ensures { IfOk result (λ m. IsPrinted fault m) }
{
    match fault {
        CommandFault::Form => word_message(alloc, name, word),
        CommandFault::Kind => word_message(alloc, name, word),
        CommandFault::Files => Message::of_line(alloc, "words files"),
        CommandFault::Weight => Message::of_line(alloc, "words weight"),
        CommandFault::Names => Message::of_line(alloc, "words names"),
        CommandFault::Engine => Message::of_line(alloc, "words engine"),
        CommandFault::Falling => Message::of_line(alloc, "words falling"),
        CommandFault::Estimate => Message::of_line(alloc, "words estimate"),
        CommandFault::Size => Message::of_line(alloc, "words size"),
    }
}

// The refusal of the words of a subcommand that fail a test.
pub(crate) fn refuse(
    alloc: Global,
    name: &str,
    word: Option<RefusedWord<'_>>,
    fault: CommandFault,
) -> CommandRefusal
    ensures { IsRefusal fault result }
{
    match message_of(alloc, name, word, fault) {
        Ok(message) => CommandRefusal::Words(fault, message),
        Err(_) => CommandRefusal::Memory,
    }
}
