//! How the answer to a command line is compared, and the words of `check`, `journal` and `make`.
use pb_command::{
    CheckCommand, CommandLine, CommandRefusal, Engine, FallingCommand, Input, JournalCommand,
    MakeCommand, SolveCommand, read_words,
};
use std::alloc::{AllocError, Global};
use std::process::Abort;

fn words_of<R: Abort>(rt: &R, alloc: Global, line: &str) -> Vec<String> {
    let mut words = Vec::new(alloc);
    for word in line.split(' ') {
        let word = String::from_str(alloc, word).expect(rt, "memory");
        words.push(word).expect(rt, "memory");
    }
    words
}

// The kind of a task, and the names of its files.
fn input_text(alloc: Global, input: &Input<'_>) -> Result<String, AllocError> {
    match input {
        Input::Grid(files) => format!(in alloc; "grid {} {}", files.map, files.scenario),
        Input::Tiles(board) => format!(in alloc; "tiles {board}"),
        Input::Strips(files) => format!(in alloc; "strips {} {}", files.domain, files.problem),
    }
}

fn engine_text(engine: Engine) -> &'static str {
    match engine {
        Engine::Leases => "pbnf",
        Engine::Owners => "hda",
    }
}

fn solve_text(alloc: Global, command: &SolveCommand<'_>) -> Result<String, AllocError> {
    let input = input_text(alloc, &command.input)?;
    let (options, settings) = (command.options, command.settings);
    let (row, workers, num, den) = (options.row, settings.workers, settings.num, settings.den);
    let (budget, lot, blocks) = (settings.budget, settings.lot, settings.wish);
    let (pattern, engine) = (settings.pattern, engine_text(command.engine));
    let (effort, tables) = (command.effort, command.tables);
    let numbers = format!(in alloc;
        "{row} {workers} {num}/{den} {budget} {lot} {blocks} {pattern}"
    )?;
    let search = format!(in alloc; "{numbers} {engine} {effort:?} {tables:?}")?;
    let (plain, swamp, grounding) = (settings.plain, options.swamp, options.grounding.name());
    let (saved, noted) = (command.certificate, command.journal);
    format!(in alloc; "solve {input}: {search} {plain} {swamp} {grounding} {saved:?} {noted:?}\n")
}

fn falling_text(alloc: Global, command: &FallingCommand<'_>) -> Result<String, AllocError> {
    let solve = solve_text(alloc, &command.solve)?;
    format!(in alloc; "falling {} {solve}", command.steps)
}

fn check_text(alloc: Global, command: &CheckCommand<'_>) -> Result<String, AllocError> {
    let input = input_text(alloc, &command.input)?;
    let (name, options) = (command.certificate, command.options);
    let (row, swamp, grounding) = (options.row, options.swamp, options.grounding.name());
    let (workers, anew) = (command.workers, command.rewrite);
    format!(in alloc; "check {name} {input}: {row} {workers} {swamp} {grounding} {anew:?}\n")
}

fn journal_text(alloc: Global, command: &JournalCommand<'_>) -> Result<String, AllocError> {
    let input = input_text(alloc, &command.input)?;
    let (name, options) = (command.journal, command.options);
    let (row, grounding) = (options.row, options.grounding.name());
    format!(in alloc; "journal {name} {input}: {row} {grounding}\n")
}

fn make_text(alloc: Global, command: &MakeCommand) -> Result<String, AllocError> {
    let kind = command.kind.name();
    format!(in alloc;
        "make {kind}: {} {} {}\n",
        command.seed, command.size, command.workers
    )
}

// What words ask for, as a line. After the files come the numbers in their order, flags and names.
fn command_text(alloc: Global, command: &CommandLine<'_>) -> Result<String, AllocError> {
    match command {
        CommandLine::Solve(command) => solve_text(alloc, command),
        CommandLine::Falling(command) => falling_text(alloc, command),
        CommandLine::Check(command) => check_text(alloc, command),
        CommandLine::Journal(command) => journal_text(alloc, command),
        CommandLine::Make(command) => make_text(alloc, command),
    }
}

// What the words of a line are answered: the command, or the fault, and below it the message.
fn answer<R: Abort>(rt: &R, alloc: Global, line: &str) -> String {
    let words = words_of(rt, alloc, line);
    let text = match read_words(alloc, words.as_slice()) {
        Ok(command) => command_text(alloc, &command),
        Err(CommandRefusal::Words(fault, message)) => {
            let Ok(text) = std::str::from_utf8(message.as_bytes()) else {
                panic!(rt; "no text")
            };
            format!(in alloc; "{fault:?}\n{text}")
        }
        Err(CommandRefusal::Memory) => panic!(rt; "memory"),
    };
    text.expect(rt, "memory")
}

// A line that begins with `> ` has words. Below it stands what they are to be answered.
pub(crate) fn compare<R: Abort>(rt: &R, alloc: Global, lines: &str) {
    let mut text = String::new(alloc);
    for line in lines.lines() {
        if let Some(words) = line.strip_prefix("> ") {
            let answer = answer(rt, alloc, words);
            let row = format!(in alloc; "{line}\n{answer}").expect(rt, "memory");
            text.push_str(row.as_str()).expect(rt, "memory");
        }
    }
    assert_eq!(rt; text.as_str(), lines);
}

// How long the answer is to a kind of 70,000 of these letters, whether it is the fault of the kind,
// and whether its last line is ended.
fn answer_to_long_kind<R: Abort>(rt: &R, alloc: Global, letter: &str) -> (usize, bool, bool) {
    let kind = letter.repeat(alloc, 70_000).expect(rt, "memory");
    let line = format!(in alloc; "solve {kind} m").expect(rt, "memory");
    let answer = answer(rt, alloc, line.as_str());
    let text = answer.as_str();
    (text.len(), text.starts_with("Kind\n"), text.ends_with("\n"))
}

// Options may stand anywhere after the command. Those that aren't given have their defaults. A line
// of `check` has the row, the workers, `--swamp`, the grounding and the new name. One of `journal`
// has the row and the grounding, and one of `make` the seed, the size and the workers.
const COMMANDS: &str = "\
> check grid c m s
check c grid m s: 0 1 false all None
> check grid --swamp c m s
check c grid m s: 0 1 true all None
> check tiles c b
check c tiles b: 0 1 false all None
> check tiles --rewrite d c b
check c tiles b: 0 1 false all Some(\"d\")
> check grid c m s --rewrite=d --row 1
check c grid m s: 1 1 false all Some(\"d\")
> check strips c d p
check c strips d p: 0 1 false all None
> check tiles c b --workers 2
check c tiles b: 0 2 false all None
> check grid --workers=64 c m --rewrite d s --swamp
check c grid m s: 0 64 true all Some(\"d\")
> check strips c d p --reachable
check c strips d p: 0 1 false reachable None
> check --reachable tiles c --swamp b --workers 2
check c tiles b: 0 2 true reachable None
> journal grid j --row=7 m s
journal j grid m s: 7 all
> journal strips j d p
journal j strips d p: 0 all
> journal strips --reachable j d p
journal j strips d p: 0 reachable
> journal tiles j b --row 7 --reachable
journal j tiles b: 7 reachable
> make grid 0 2048
make grid: 0 2048 1
> make tiles 4294967295 --workers 64 0
make tiles: 4294967295 0 64
> make --workers=2 strips +07 14
make strips: 7 14 2
";

// The words are tested in a fixed order. The first test that fails gives the answer.
const REFUSALS: &str = "\
> check grid c m
Files
words files
> check tiles c b s
Files
words files
> check strips c d
Files
words files
> check strips c d p --row 1000001
Form
error: invalid value '1000001' for '--row <row>': 1000001 is not in 0..=1000000
> check tiles c b --lot 1
Form
error: unexpected argument '--lot' found

  tip: to pass '--lot' as a value, use '-- --lot'

Usage: check <KIND> <CERTIFICATE> <FIRST_FILE> [SECOND_FILE]
> check grid c m s --blocks 16
Form
error: unexpected argument '--blocks' found

  tip: to pass '--blocks' as a value, use '-- --blocks'

Usage: check <KIND> <CERTIFICATE> <FIRST_FILE> <SECOND_FILE>
> check grid c m s --budget 1
Form
error: unexpected argument '--budget' found

  tip: to pass '--budget' as a value, use '-- --budget'

Usage: check <KIND> <CERTIFICATE> <FIRST_FILE> <SECOND_FILE>
> check grid c m s --pattern 3
Form
error: unexpected argument '--pattern' found

  tip: to pass '--pattern' as a value, use '-- --pattern'

Usage: check <KIND> <CERTIFICATE> <FIRST_FILE> <SECOND_FILE>
> check tiles c b --estimate tables
Form
error: unexpected argument '--estimate' found

  tip: to pass '--estimate' as a value, use '-- --estimate'

Usage: check <KIND> <CERTIFICATE> <FIRST_FILE> [SECOND_FILE]
> check strips c d p --effort 5
Form
error: unexpected argument '--effort' found

  tip: to pass '--effort' as a value, use '-- --effort'

Usage: check <KIND> <CERTIFICATE> <FIRST_FILE> <SECOND_FILE>
> check strips c d p --tables t
Form
error: unexpected argument '--tables' found

  tip: to pass '--tables' as a value, use '-- --tables'

Usage: check <KIND> <CERTIFICATE> <FIRST_FILE> <SECOND_FILE>
> check tiles c b --engine hda
Form
error: unexpected argument '--engine' found

  tip: to pass '--engine' as a value, use '-- --engine'

Usage: check <KIND> <CERTIFICATE> <FIRST_FILE> [SECOND_FILE]
> check tiles c b --falling 2
Form
error: unexpected argument '--falling' found

  tip: to pass '--falling' as a value, use '-- --falling'

Usage: check <KIND> <CERTIFICATE> <FIRST_FILE> [SECOND_FILE]
> check tiles c b --workers 0
Form
error: invalid value '0' for '--workers <workers>': 0 is not in 1..=64
> check grid c m s --workers 65
Form
error: invalid value '65' for '--workers <workers>': 65 is not in 1..=64
> check strips c d p --reachable --reachable
Form
error: the argument '--reachable' cannot be used multiple times

Usage: check [OPTIONS] <KIND> <CERTIFICATE> <FIRST_FILE> [SECOND_FILE]
> check tiles c b --reachable=yes
Form
error: unexpected value 'yes' for '--reachable' found; no more were expected

Usage: check --reachable <KIND> <CERTIFICATE> <FIRST_FILE> [SECOND_FILE]
> journal grid j m
Files
words files
> journal tiles j b s
Files
words files
> journal grid j m s --swamp
Form
error: unexpected argument '--swamp' found

  tip: to pass '--swamp' as a value, use '-- --swamp'

Usage: journal <KIND> <JOURNAL> <FIRST_FILE> <SECOND_FILE>
> journal tiles j b --workers 2
Form
error: unexpected argument '--workers' found

  tip: to pass '--workers' as a value, use '-- --workers'

Usage: journal <KIND> <JOURNAL> <FIRST_FILE> [SECOND_FILE]
> journal strips j d p --reachable --reachable
Form
error: the argument '--reachable' cannot be used multiple times

Usage: journal [OPTIONS] <KIND> <JOURNAL> <FIRST_FILE> [SECOND_FILE]
> journal tiles j b --reachable=yes
Form
error: unexpected value 'yes' for '--reachable' found; no more were expected

Usage: journal --reachable <KIND> <JOURNAL> <FIRST_FILE> [SECOND_FILE]
> make grid 0 0
Size
words size
> make grid 0 2049
Size
words size
> make tiles 0 1000001
Size
words size
> make strips 0 15
Size
words size
> make strips 0 18446744073709551615
Size
words size
> make strips 0 18446744073709551616
Form
error: invalid value '18446744073709551616' for '<SIZE>': number too large to fit in target type
> make grid 4294967296 1
Form
error: invalid value '4294967296' for '<SEED>': 4294967296 is not in 0..=4294967295
> make grid 0
Form
error: the following required arguments were not provided:
  <SIZE>

Usage: make <KIND> <SEED> <SIZE>
> make maze 0 0
Kind
error: invalid value 'maze' for '<KIND>'
  [possible values: grid, tiles, strips]

Usage: make [OPTIONS] <KIND> <SEED> <SIZE>
> make grid 0 1 --workers 65
Form
error: invalid value '65' for '--workers <workers>': 65 is not in 1..=64
> make strips 0 14 --reachable
Form
error: unexpected argument '--reachable' found

  tip: to pass '--reachable' as a value, use '-- --reachable'

Usage: make <KIND> <SEED> <SIZE>
> --version
Form
error: unexpected argument '--version' found

Usage: pbnf <COMMAND>
> help
Form
error: unrecognized subcommand 'help'

Usage: pbnf <COMMAND>
";

#[test]
fn words_of_other_commands_have_their_answers(rt: HostRuntime) {
    compare(&rt, rt.alloc(), COMMANDS);
    compare(&rt, rt.alloc(), REFUSALS);
}

// A message has at most 65,536 bytes, and ends with a whole character and a line feed. The line
// `Kind` before it has 5 bytes.
#[test]
fn long_words_are_cut(rt: HostRuntime) {
    for (letter, bytes) in [("w", 5 + 65_536), ("\u{e9}", 5 + 65_535)] {
        assert_eq!(rt;
            answer_to_long_kind(&rt, rt.alloc(), letter),
            (bytes, true, true),
            "{letter}"
        );
    }
}
