//! The lines of a journal, in a piece of its text.
ghost use Rattle.std.specs.Prelude.{◌≡◌, ◌+◌, ◌<◌, ◌≤◌, ◌^◌, ⊤, [], ◌++◌, map, length, codes};
ghost use Rattle.std.specs.Fmt.{decimal};
ghost use Rattle.pb_model.specs.Texts.{line, spaced};
ghost use Rattle.pb_print.specs.Saved.{longest_line, PutsLine};
ghost use Rattle.pb_journal.specs.Texts.{numbered, plain_line, report_word, header_lines, event_line, journal_text, lines_of};

use pb_machine::{End, Event, Settings};
use pb_print::{NumberedLines, Piece};

// Puts a line of a word and a number at the piece's end.
fn put_numbered(word: &[u8], n: u64, out: &mut Piece)
    requires word { length word.now ≤ 8 }
    requires room { length out.old + longest_line ≤ 4096 }
    ensures line { out.new ≡ out.old ++ line (numbered word.now n) }
    ensures short { length out.new ≤ length out.old + longest_line }
{
    out.push(word);
    out.push(b" ");
    out.push_number(n);
    out.push(b"\n");
}

// Puts the line that says whether the search is plain at the piece's end.
fn put_plain(plain: bool, out: &mut Piece)
    requires room { length out.old + longest_line ≤ 4096 }
    ensures line { out.new ≡ out.old ++ line (plain_line plain) }
    ensures short { length out.new ≤ length out.old + longest_line }
{
    let text: &[u8] = if plain { b"plain 1\n" } else { b"plain 0\n" };
    out.push(text);
}

// Puts the line of this number of the settings at the piece's end.
fn put_setting(settings: &Settings, at: u128, out: &mut Piece)
    requires within { at < 6 }
    requires room { length out.old + longest_line ≤ 4096 }
    ensures { PutsLine out.old out.new (header_lines settings.now) at }
{
    match at {
        0 => out.push(b"pbnf-journal 1\n"),
        1 => put_numbered(b"blocks", u64::from(settings.wish), out),
        2 => put_numbered(b"workers", u64::from(settings.workers), out),
        3 => put_numbered(b"budget", settings.budget, out),
        4 => put_numbered(b"lot", settings.lot, out),
        _ => put_plain(settings.plain, out),
    }
}

// Puts a word and the number of a worker at the piece's end, with a space after each.
fn put_worker(word: &[u8], worker: u32, out: &mut Piece)
    requires word { length word.now ≤ 8 }
    requires room { length out.old + longest_line ≤ 4096 }
    ensures text { out.new ≡ out.old ++ spaced (numbered word.now worker) [] }
    ensures short { length out.new ≤ length out.old + 32 }
{
    out.push(word);
    out.push(b" ");
    out.push_number(u64::from(worker));
    out.push(b" ");
}

// Puts two numbers at the piece's end, with a space between them, and ends the line.
fn put_two(first: u64, second: u64, out: &mut Piece)
    requires room { length out.old + 64 ≤ 4096 }
    ensures text { out.new ≡ out.old ++ line (spaced (decimal first) (decimal second)) }
    ensures short { length out.new ≤ length out.old + 64 }
{
    out.push_number(first);
    out.push(b" ");
    out.push_number(second);
    out.push(b"\n");
}

// Puts a number at the piece's end, and ends the line.
fn put_last(n: u64, out: &mut Piece)
    requires room { length out.old + 64 ≤ 4096 }
    ensures text { out.new ≡ out.old ++ line (decimal n) }
    ensures short { length out.new ≤ length out.old + 64 }
{
    out.push_number(n);
    out.push(b"\n");
}

// Puts a report at the piece's end, and ends the line.
fn put_report(memory: bool, out: &mut Piece)
    requires room { length out.old + 16 ≤ 4096 }
    ensures text { out.new ≡ out.old ++ line (report_word memory) }
    ensures short { length out.new ≤ length out.old + 16 }
{
    let text: &[u8] = if memory { b"memory\n" } else { b"ok\n" };
    out.push(text);
}

// Puts a number and a report at the piece's end, with a space between them, and ends the line.
fn put_reported(n: u64, memory: bool, out: &mut Piece)
    requires room { length out.old + 64 ≤ 4096 }
    ensures text { out.new ≡ out.old ++ line (spaced (decimal n) (report_word memory)) }
    ensures short { length out.new ≤ length out.old + 64 }
{
    out.push_number(n);
    out.push(b" ");
    put_report(memory, out);
}

// Puts the line of an event at the piece's end.
fn put_event(event: &Event, out: &mut Piece)
    requires room { length out.old + longest_line ≤ 4096 }
    ensures line { out.new ≡ out.old ++ line (event_line event.now) }
    ensures short { length out.new ≤ length out.old + longest_line }
{
    match *event {
        Event::Lease {
            worker,
            block,
            quota,
        } => {
            put_worker(b"lease", worker, out);
            put_two(u64::from(block), quota, out);
        }
        Event::Renew {
            worker,
            used,
            quota,
        } => {
            put_worker(b"renew", worker, out);
            put_two(used, quota, out);
        }
        Event::Hot { worker, block } => {
            put_worker(b"hot", worker, out);
            put_last(u64::from(block), out);
        }
        Event::Cold { worker, block } => {
            put_worker(b"cold", worker, out);
            put_last(u64::from(block), out);
        }
        Event::Release {
            worker,
            used,
            memory,
        } => {
            put_worker(b"release", worker, out);
            put_reported(used, memory, out);
        }
        Event::Off { worker, memory } => {
            put_worker(b"off", worker, out);
            put_report(memory, out);
        }
        Event::Ended(End::Quiet) => out.push(b"end quiet\n"),
        Event::Ended(End::Budget) => out.push(b"end budget\n"),
        Event::Ended(End::Memory) => out.push(b"end memory\n"),
    }
}

/// The text of a journal: the settings of its search, without the weight and the pattern database,
/// and the events.
#[derive(Drop)]
pub struct JournalText<'a> {
    pub settings: &'a Settings,
    pub events: &'a [Event],
}

/// The lines of a journal's text.
impl NumberedLines for JournalText<'_> {
    ghost text = { λ j. journal_text j.settings.now j.events.now };

    ghost lines_of = { λ j. lines_of j.settings.now j.events.now };

    ghost begins = { λ j at begin. ⊤ };

    fn count(&self) -> u128 {
        6 + self.events.len() as u128
    }

    fn put_line(&self, at: u128, _begin: &mut usize, out: &mut Piece) {
        if at < 6 {
            put_setting(self.settings, at, out);
        } else {
            put_event(&self.events[(at - 6) as usize], out);
        }
    }
}
