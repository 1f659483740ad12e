//! The lines of a certificate's text, each put by its number.
ghost use Rattle.std.specs.Prelude.{◌≡◌, ◌+◌, ◌<◌, ◌≤◌, ◌^◌, ◌++◌, ⊤, Some, length, slice_get};
ghost use Rattle.std.specs.Fmt.{decimal};
ghost use Rattle.pb_packed.specs.Sizes.{most_digits};
ghost use Rattle.pb_model.specs.Texts.{line, spaced, line_text};
ghost use Rattle.pb_table_lines.specs.Lines.{tables_lines};
ghost use Rattle.pb_estimate.specs.declared.spelling.Version.TheVariants.{Four};
ghost use Rattle.pb_estimate.specs.Choices.{Tables as TablesOf};
ghost use Rattle.pb_estimate.specs.Spelling.{IsSpelling, version_line, kind_line, width_text, head_of, head_lines};
ghost use Rattle.pb_estimate.specs.Spelling.{choice_text, grounding_line, estimate_text, stated_text};
ghost use Rattle.pb_print.specs.Saved.{longest_line, PutsLine};
ghost use Rattle.pb_cert.specs.Stated.{text_of, lines_of, first_lines, plan_lines, rows_lines, weight_line};
ghost use Rattle.pb_cert.specs.Starts.{HasStarts};

use crate::Plan;
use crate::certificate::{Certificate, Line};
use crate::rows::line_at;
use pb_estimate::{Choice, ChoiceCase, Spelling, Version};
use pb_print::{NumberedLines, Piece};
use pb_table_lines::{LineStarts, put_tables_line};
use pb_tables::Tables;
use pb_task::{Grounding, Kind};

// Puts a line of a word and a number at the piece's end.
fn put_numbered(word: &[u8], n: u64, out: &mut Piece)
    requires word { length word.now ≤ 16 }
    requires room { length out.old + longest_line ≤ 4096 }
    ensures line { out.new ≡ out.old ++ line (spaced word.now (decimal n)) }
    ensures short { length out.new ≤ length out.old + longest_line }
{
    out.push(word);
    out.push(b" ");
    out.push_number(n);
    out.push(b"\n");
}

// Puts the line of an action at the piece's end.
fn put_action(action: u32, out: &mut Piece)
    requires room { length out.old + longest_line ≤ 4096 }
    ensures line { out.new ≡ out.old ++ line (decimal action) }
    ensures short { length out.new ≤ length out.old + longest_line }
{
    out.push_number(u64::from(action));
    out.push(b"\n");
}

// Puts the line of a state, in so many digits, at the piece's end.
fn put_row(row: &Line, digits: u32, out: &mut Piece)
    requires some { 1 ≤ digits }
    requires most { digits ≤ most_digits }
    requires room { length out.old + longest_line ≤ 4096 }
    ensures line { out.new ≡ out.old ++ line (line_text digits row.now) }
    ensures short { length out.new ≤ length out.old + longest_line }
{
    out.push_hex(&row.state, digits);
    out.push(b" ");
    out.push_number(row.g);
    let status: &[u8] = if row.is_closed {
        b" closed\n"
    } else {
        b" cut\n"
    };
    out.push(status);
}

// Puts a line that states a plan at the piece's end.
fn put_plan_line(plan: &Plan, at: u128, out: &mut Piece)
    requires within { at < length plan.now.actions + 2 }
    requires room { length out.old + longest_line ≤ 4096 }
    ensures { PutsLine out.old out.new (plan_lines (Some plan.now)) at }
{
    let actions = plan.actions();
    if at == 0 {
        put_numbered(b"plan", actions.len() as u64, out);
    } else if at <= actions.len() as u128 {
        put_action(actions[(at - 1) as usize], out);
    } else {
        put_numbered(b"cost", plan.cost(), out);
    }
}

// Puts the line of a version at the piece's end.
fn put_version(version: Version, out: &mut Piece)
    requires room { length out.old + longest_line ≤ 4096 }
    ensures line { out.new ≡ out.old ++ line (version_line version) }
    ensures short { length out.new ≤ length out.old + longest_line }
{
    match version {
        Version::One => out.push(b"pbnf-certificate 1\n"),
        Version::Two => out.push(b"pbnf-certificate 2\n"),
        Version::Three => out.push(b"pbnf-certificate 3\n"),
        Version::Four => out.push(b"pbnf-certificate 4\n"),
    }
}

// Puts the line of a kind at the piece's end.
fn put_kind(kind: Kind, out: &mut Piece)
    requires room { length out.old + longest_line ≤ 4096 }
    ensures line { out.new ≡ out.old ++ line (kind_line kind) }
    ensures short { length out.new ≤ length out.old + longest_line }
{
    out.push(b"kind ");
    out.push(kind.name().as_bytes());
    out.push(b"\n");
}

// Puts the line that says how many digits a state has at the piece's end, if there is one. Version 1
// has none.
fn put_width(spelling: &Spelling, _at: u128, out: &mut Piece)
    requires room { length out.old + longest_line ≤ 4096 }
    ensures { _at < length (width_text spelling.now.version spelling.now.width)
        → PutsLine out.old out.new (width_text spelling.now.version spelling.now.width) _at }
{
    match spelling.version {
        Version::One => {}
        Version::Two | Version::Three | Version::Four => {
            put_numbered(b"width", u64::from(spelling.width), out)
        }
    }
}

// Puts the line that says the choice of an estimate in version 3 at the piece's end, if there is
// one. A pattern is said in one line, and the plain choice in none. Version 3 has no tables.
fn put_choice(choice: &Choice, _at: u128, out: &mut Piece)
    requires room { length out.old + longest_line ≤ 4096 }
    ensures { _at < length (choice_text choice.now)
        → PutsLine out.old out.new (choice_text choice.now) _at }
{
    match choice.case() {
        ChoiceCase::Plain => {}
        ChoiceCase::Pattern(number) => put_numbered(b"pattern", number, out),
        ChoiceCase::Tables(_) => {}
    }
}

// Puts the line of a grounding at the piece's end.
fn put_grounding(grounding: Grounding, out: &mut Piece)
    requires room { length out.old + longest_line ≤ 4096 }
    ensures line { out.new ≡ out.old ++ line (grounding_line grounding) }
    ensures short { length out.new ≤ length out.old + longest_line }
{
    out.push(b"grounding ");
    out.push(grounding.name().as_bytes());
    out.push(b"\n");
}

// Puts a line of tables at the piece's end.
fn put_tables(tables: &Tables, digits: u32, starts: &Option<LineStarts>, at: u128, out: &mut Piece)
    requires some { 1 ≤ digits }
    requires most { digits ≤ most_digits }
    requires starts { HasStarts (TablesOf tables.now) starts.now }
    requires within { at < length (tables_lines digits tables.now) }
    requires room { length out.old + longest_line ≤ 4096 }
    ensures { PutsLine out.old out.new (tables_lines digits tables.now) at }
{
    // Where the choice has tables, the certificate has their starts by its invariant.
    let Some(starts) = starts else { unreachable!() };
    put_tables_line(tables, digits, starts, at, out);
}

// Puts a line that says the choice of an estimate in version 4 at the piece's end.
fn put_estimate(
    choice: &Choice,
    digits: u32,
    starts: &Option<LineStarts>,
    at: u128,
    out: &mut Piece,
)
    requires some { 1 ≤ digits }
    requires most { digits ≤ most_digits }
    requires starts { HasStarts choice.now starts.now }
    requires within { at < length (estimate_text digits choice.now) }
    requires room { length out.old + longest_line ≤ 4096 }
    ensures { PutsLine out.old out.new (estimate_text digits choice.now) at }
{
    match choice.case() {
        ChoiceCase::Plain => out.push(b"estimate plain\n"),
        ChoiceCase::Pattern(number) => put_numbered(b"estimate pattern", number, out),
        ChoiceCase::Tables(tables) => put_tables(tables, digits, starts, at, out),
    }
}

// Puts a line of what version 4 states besides at the piece's end: that of the grounding, or one of
// the choice of an estimate.
fn put_stated_4(spelling: &Spelling, starts: &Option<LineStarts>, at: u128, out: &mut Piece)
    requires spelling { IsSpelling spelling.now }
    requires starts { HasStarts spelling.now.stated.choice starts.now }
    requires within { at < length (stated_text Four spelling.now.width spelling.now.stated) }
    requires room { length out.old + longest_line ≤ 4096 }
    ensures { PutsLine out.old out.new
        (stated_text Four spelling.now.width spelling.now.stated) at }
{
    if at == 0 {
        put_grounding(spelling.stated.grounding, out);
    } else {
        put_estimate(&spelling.stated.choice, spelling.width, starts, at - 1, out);
    }
}

// Puts a line of what is stated besides at the piece's end. Versions 1 and 2 have no such line.
fn put_stated(spelling: &Spelling, starts: &Option<LineStarts>, at: u128, out: &mut Piece)
    requires spelling { IsSpelling spelling.now }
    requires starts { HasStarts spelling.now.stated.choice starts.now }
    requires within { at < length (stated_text spelling.now.version spelling.now.width
        spelling.now.stated) }
    requires room { length out.old + longest_line ≤ 4096 }
    ensures { PutsLine out.old out.new
        (stated_text spelling.now.version spelling.now.width spelling.now.stated) at }
{
    match spelling.version {
        Version::One | Version::Two => {}
        Version::Three => put_choice(&spelling.stated.choice, at, out),
        Version::Four => put_stated_4(spelling, starts, at, out),
    }
}

// Puts a line that comes before the weight at the piece's end.
fn put_head(spelling: &Spelling, starts: &Option<LineStarts>, at: u128, out: &mut Piece)
    requires spelling { IsSpelling spelling.now }
    requires starts { HasStarts spelling.now.stated.choice starts.now }
    requires within { at < head_lines spelling.now }
    requires room { length out.old + longest_line ≤ 4096 }
    ensures { PutsLine out.old out.new (head_of spelling.now) at }
{
    let widths = u128::from(spelling.version.width_lines());
    if at == 0 {
        put_version(spelling.version, out);
    } else if at == 1 {
        put_kind(spelling.kind, out);
    } else if at < 2 + widths {
        put_width(spelling, at - 2, out);
    } else {
        put_stated(spelling, starts, at - 2 - widths, out);
    }
}

impl Certificate<'_> {
    // How many rows there are.
    fn rows(&self) -> usize
        ensures { result ≡ length self.now.certificate.lines }
    {
        self.places.len()
    }

    // The line of the row of this number, counted from 0.
    fn row(&self, i: usize) -> Line
        requires { i < length self.now.certificate.lines }
        ensures { slice_get self.now.certificate.lines i ≡ Some result }
    {
        line_at(&self.parts, &self.places[i])
    }

    // How many digits a state has.
    fn digits(&self) -> u32
        ensures digits { result ≡ self.now.spelling.width }
        ensures some { 1 ≤ result }
        ensures most { result ≤ most_digits }
    {
        self.spelling.width
    }

    // How many lines state the plan, or that there is none.
    fn plan_count(&self) -> u128
        ensures count { result ≡ length (plan_lines self.now.certificate.plan) }
        ensures most { result < 2 ^ 64 }
    {
        match &self.plan {
            None => 1,
            Some(plan) => plan.actions.len() as u128 + 2,
        }
    }

    // How many lines come before the plan.
    fn first_count(&self) -> u128
        ensures count { result ≡ length (first_lines self.now) }
        ensures most { result ≤ 2 ^ 79 }
    {
        self.spelling.head_lines() + 1
    }

    fn put_first(&self, at: u128, out: &mut Piece)
        requires within { at < length (first_lines self.now) }
        requires room { length out.old + longest_line ≤ 4096 }
        ensures { PutsLine out.old out.new (first_lines self.now) at }
    {
        if at < self.spelling.head_lines() {
            put_head(&self.spelling, &self.starts, at, out);
        } else {
            self.put_weight(out);
        }
    }

    fn put_weight(&self, out: &mut Piece)
        requires room { length out.old + longest_line ≤ 4096 }
        ensures line { out.new ≡ out.old ++ line (weight_line self.now.certificate.weight) }
        ensures short { length out.new ≤ length out.old + longest_line }
    {
        out.push(b"weight ");
        out.push_number(self.num);
        out.push(b" ");
        out.push_number(self.den);
        out.push(b"\n");
    }

    fn put_plan(&self, at: u128, out: &mut Piece)
        requires within { at < length (plan_lines self.now.certificate.plan) }
        requires room { length out.old + longest_line ≤ 4096 }
        ensures { PutsLine out.old out.new (plan_lines self.now.certificate.plan) at }
    {
        match &self.plan {
            None => out.push(b"none\n"),
            Some(plan) => put_plan_line(plan, at, out),
        }
    }

    fn put_rows(&self, at: u128, out: &mut Piece)
        requires within { at < length (rows_lines self.now.spelling.width self.now.certificate) }
        requires room { length out.old + longest_line ≤ 4096 }
        ensures { PutsLine out.old out.new
            (rows_lines self.now.spelling.width self.now.certificate) at }
    {
        let rows = self.rows();
        if at == 0 {
            put_numbered(b"rows", rows as u64, out);
        } else if at <= rows as u128 {
            put_row(&self.row((at - 1) as usize), self.digits(), out);
        } else {
            out.push(b"end\n");
        }
    }
}

/// The lines of a certificate's text.
impl NumberedLines for Certificate<'_> {
    ghost text = { text_of };

    ghost lines_of = { lines_of };

    ghost begins = { λ c at begin. ⊤ };

    fn count(&self) -> u128 {
        self.first_count() + self.plan_count() + self.rows() as u128 + 2
    }

    fn put_line(&self, at: u128, _begin: &mut usize, out: &mut Piece) {
        let first = self.first_count();
        let plan = self.plan_count();
        if at < first {
            self.put_first(at, out);
        } else if at < first + plan {
            self.put_plan(at - first, out);
        } else {
            self.put_rows(at - first - plan, out);
        }
    }
}
