//! The lines that say what is to be done.
use crate::bench::Failing;
use crate::texts::number_or;

// What a line says. Its bytes are in the lines below it.
#[derive(Clone, Copy)]
pub(crate) enum Directive<'a> {
    Given(Given<'a>),
    // Runs of a command line.
    Run(Runs, &'a str),
    Said(Said<'a>),
}

// What there is before a run.
#[derive(Clone, Copy)]
pub(crate) enum Given<'a> {
    // These bytes are on the shelf of this and of each later row.
    Text(&'a str),
    // These bytes are on the row's shelf.
    File(&'a str),
    // There is room for so many bytes under a name.
    Room(&'a str, u64),
    // A call of the shelf fails.
    ShelfFails(Failing),
    // A call of the next run's sink fails.
    SinkFails(Failing),
}

// How often a command line is run, and over what.
#[derive(Clone, Copy)]
pub(crate) enum Runs {
    Once,
    // Over each beginning of the bytes whose length lies between two numbers, as the file `cut`.
    Cuts(u64, u64),
    // Over a shelf that fails at each call in turn and keeps so many bytes of it.
    EachShelfCall(u64),
    // Over a sink that keeps each number of bytes in turn.
    EachSinkLength,
}

// What the last run left.
#[derive(Clone, Copy)]
pub(crate) enum Said<'a> {
    Status(u64),
    // It printed these bytes, began or ended with them, or has them somewhere.
    Prints,
    Begins,
    Ends,
    Has,
    // At least so many calls of the shelf failed, each in its turn.
    FailedCalls(u64),
    // A file has these bytes, isn't there, or has these bytes in so many places.
    Saves(&'a str),
    Absent(&'a str),
    Counts(&'a str, u64),
}

// A number, and the words after it.
fn number_and_rest(text: &str) -> Option<(u64, &str)> {
    let (first, rest) = text.split_once(' ')?;
    let number = number_or(Some(first), 0)?;
    Some((number, rest))
}

fn failing(text: &str) -> Option<Failing> {
    let (call, rest) = number_and_rest(text)?;
    let kept = number_or(Some(rest), 0)?;
    Some(Failing { call, kept })
}

// A name and a number.
fn name_and_number(text: &str) -> Option<(&str, u64)> {
    let (name, rest) = text.split_once(' ')?;
    let number = number_or(Some(rest), 0)?;
    Some((name, number))
}

fn read_runs<'a>(word: &str, rest: &'a str) -> Option<(Runs, &'a str)> {
    match word {
        "run" => Some((Runs::Once, rest)),
        "cuts" => {
            let (from, rest) = number_and_rest(rest)?;
            let (to, line) = number_and_rest(rest)?;
            Some((Runs::Cuts(from, to), line))
        }
        "each-shelf-call" => {
            let (kept, line) = number_and_rest(rest)?;
            Some((Runs::EachShelfCall(kept), line))
        }
        "each-sink-length" => Some((Runs::EachSinkLength, rest)),
        _ => None,
    }
}

fn read_given<'a>(word: &str, rest: &'a str) -> Option<Given<'a>> {
    match word {
        "text" => Some(Given::Text(rest)),
        "file" => Some(Given::File(rest)),
        "room" => {
            let (name, bytes) = name_and_number(rest)?;
            Some(Given::Room(name, bytes))
        }
        "shelf-fails" => Some(Given::ShelfFails(failing(rest)?)),
        "sink-fails" => Some(Given::SinkFails(failing(rest)?)),
        _ => None,
    }
}

fn read_said<'a>(word: &str, rest: &'a str) -> Option<Said<'a>> {
    match word {
        "status" => Some(Said::Status(number_or(Some(rest), 0)?)),
        "prints" => Some(Said::Prints),
        "begins" => Some(Said::Begins),
        "ends" => Some(Said::Ends),
        "has" => Some(Said::Has),
        "failed-calls" => Some(Said::FailedCalls(number_or(Some(rest), 0)?)),
        "saves" => Some(Said::Saves(rest)),
        "absent" => Some(Said::Absent(rest)),
        "counts" => {
            let (name, number) = name_and_number(rest)?;
            Some(Said::Counts(name, number))
        }
        _ => None,
    }
}

// What a line says, if it is in form.
pub(crate) fn read_directive(line: &str) -> Option<Directive<'_>> {
    let (word, rest) = line.split_once(' ').unwrap_or((line, ""));
    if let Some(said) = read_said(word, rest) {
        return Some(Directive::Said(said));
    }
    if let Some(given) = read_given(word, rest) {
        return Some(Directive::Given(given));
    }
    let (runs, line) = read_runs(word, rest)?;
    Some(Directive::Run(runs, line))
}
