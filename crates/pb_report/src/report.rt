//! Reports, each made whole: if memory runs out, nothing of it has been printed.
ghost use Rattle.std.specs.Prelude.{◌≡◌, ◌++◌, ◌^◌, ◌<◌, Some, IfOk};
ghost use Rattle.std.specs.Fmt.{decimal};
ghost use Rattle.pb_model.specs.Texts.{line, spaced, none_report, stopped_report};
ghost use Rattle.pb_task.specs.Parts.{space_of};
ghost use Rattle.pb_lifted.specs.declared.refusal.TypingRefusal.TheVariants.{Named};
ghost use Rattle.pb_report.specs.Texts.{AreActions, plan_text, claim_text, verdict_text, made_text, fault_text, input_text, tiles_text, file_number, syntax_text, refusal_text, strips_text, stopped_grounding_report, tables_syntax_text, tables_fault_text, journal_report, journal_fault_text};

use crate::pieces::{
    push_steps, push_with_number, push_with_number_and_wide, push_with_numbers,
    push_with_numbers_and_word, push_with_wide,
};
use crate::words::{cause_word, file_number, left_out_word, want_word, why_word};
use pb_cert::Plan;
use pb_check::{CertificateFault, Claim};
use pb_grid::GridError;
use pb_journal::Why;
use pb_lifted::{Cause, File, Place, TypingRefusal};
use pb_pddl::SyntaxError;
use pb_print::{push_line, push_text};
use pb_strips::StripsError;
use pb_table_lines::line_number;
use pb_tables::{Tables, TablesFault};
use pb_task::Task;
use pb_tiles::TilesError;
use std::alloc::{AllocError, Global};
use std::marker::Model;

/// The text of a report: lines of ASCII characters, each with its line feed, or the text of a tool
/// as it stands. Contracts see its bytes. An error is out of memory, wherever a report is made.
#[derive(Drop)]
pub struct Report {
    bytes: Vec<u8>,
}

impl Model for Report {
    ghost use Rattle.std.specs.Prelude.{ℕ, List};

    ghost Value = { List ℕ };

    ghost view = { λ r. r.bytes.items };
}

impl Report {
    /// One line: the text and a line feed.
    pub fn of_line(alloc: Global, text: &[u8]) -> Result<Report, AllocError>
        ensures { IfOk result (λ report. report ≡ line text.now) }
    {
        let mut bytes = Vec::new(alloc);
        push_line(&mut bytes, text)?;
        Ok(Report { bytes })
    }

    /// A text as it stands.
    pub fn of_text(alloc: Global, text: &[u8]) -> Result<Report, AllocError>
        ensures { IfOk result (λ report. report ≡ text.now) }
    {
        let mut bytes = Vec::new(alloc);
        push_text(&mut bytes, text)?;
        Ok(Report { bytes })
    }

    /// That no plan exists.
    pub fn of_no_plan(alloc: Global) -> Result<Report, AllocError>
        ensures { IfOk result (λ report. report ≡ none_report) }
    {
        Report::of_line(alloc, b"none")
    }

    /// That so many expansions were allowed, and all of them were done.
    pub fn of_stop(alloc: Global, budget: u64) -> Result<Report, AllocError>
        ensures { IfOk result (λ report. report ≡ stopped_report budget) }
    {
        Report::with_number(alloc, b"stopped budget ", budget)
    }

    /// That grounding was stopped, since no look at a row was left.
    pub fn of_grounding_stop(alloc: Global) -> Result<Report, AllocError>
        ensures { IfOk result (λ report. report ≡ stopped_grounding_report) }
    {
        Report::of_line(alloc, b"stopped grounding")
    }

    /// A plan of the task with its cost, and the bound, which no plan costs less than. Both are in
    /// the unit of the action costs.
    pub fn of_plan(
        alloc: Global,
        task: &Task,
        plan: &Plan,
        bound: u64,
    ) -> Result<Report, AllocError>
        requires { AreActions (space_of task.now) plan.now.actions }
        ensures report { IfOk result (λ report. report ≡ plan_text task.now plan.now bound) }
        ensures fits { plan.now.cost < 2 ^ 64 }
    {
        Report::of_steps(alloc, task, plan.actions(), plan.cost(), bound)
    }

    /// What is claimed of a plan at the weight num / den: the weight, and then the plan as in
    /// `of_plan`, with the bound at that weight.
    pub fn of_claim(
        alloc: Global,
        num: u64,
        den: u64,
        task: &Task,
        plan: &Plan,
        bound: u64,
    ) -> Result<Report, AllocError>
        requires { AreActions (space_of task.now) plan.now.actions }
        ensures { IfOk result (λ report. report
            ≡ claim_text task.now (record { num = num; den = den }) plan.now bound) }
    {
        let plan = Report::of_plan(alloc, task, plan, bound)?;
        let mut bytes = Vec::new(alloc);
        push_with_numbers(&mut bytes, b"weight ", num, b" ", den)?;
        push_text(&mut bytes, &plan.bytes)?;
        Ok(Report { bytes })
    }

    /// That a certificate is accepted, and what it claims.
    pub fn of_verdict(alloc: Global, claim: &Claim) -> Result<Report, AllocError>
        ensures { IfOk result (λ report. report ≡ verdict_text claim.now) }
    {
        match *claim {
            Claim::Bounded { cost, bound } => {
                Report::with_numbers(alloc, b"accepted cost ", cost, b" bound ", bound)
            }
            Claim::Unsolvable => Report::of_line(alloc, b"accepted none"),
        }
    }

    /// What came out of a made task, by what its accepted certificate claims.
    pub fn of_made(alloc: Global, claim: &Claim) -> Result<Report, AllocError>
        ensures { IfOk result (λ report. report ≡ made_text claim.now) }
    {
        match *claim {
            Claim::Bounded { cost, bound } => Report::of_made_plan(alloc, cost, bound),
            Claim::Unsolvable => Report::of_line(alloc, b"none accepted"),
        }
    }

    /// That a certificate is refused, and why: the fault's name, and its numbers in the order of
    /// its fields.
    pub fn of_certificate_fault(
        alloc: Global,
        fault: &CertificateFault,
    ) -> Result<Report, AllocError>
        ensures { IfOk result (λ report. report ≡ fault_text fault.now) }
    {
        match *fault {
            CertificateFault::Syntax { line } => Report::with_number(
                alloc,
                b"refused Syntax ",
                line,
            ),
            CertificateFault::Kind => Report::of_line(alloc, b"refused Kind"),
            CertificateFault::Width { said, wanted } => Report::with_numbers(
                alloc,
                b"refused Width ",
                u64::from(said),
                b" ",
                u64::from(wanted),
            ),
            CertificateFault::Grounding => Report::of_line(alloc, b"refused Grounding"),
            CertificateFault::Pattern => Report::of_line(alloc, b"refused Pattern"),
            // The number of a table's line may need more than 64 bits.
            CertificateFault::Table { line } => Report::with_wide(alloc, b"refused Table ", line),
            CertificateFault::Unpaid { sum, action } => Report::with_numbers(
                alloc,
                b"refused Unpaid ",
                sum as u64,
                b" ",
                action as u64,
            ),
            CertificateFault::Weight => Report::of_line(alloc, b"refused Weight"),
            CertificateFault::PlanStep { i } => Report::with_number(alloc, b"refused PlanStep ", i),
            CertificateFault::NotGoal => Report::of_line(alloc, b"refused NotGoal"),
            CertificateFault::Cost { said, real } => Report::with_number_and_wide(
                alloc,
                b"refused Cost ",
                said,
                real,
            ),
            CertificateFault::RowOrder { line } => Report::with_number(
                alloc,
                b"refused RowOrder ",
                line,
            ),
            CertificateFault::BadState { line } => Report::with_number(
                alloc,
                b"refused BadState ",
                line,
            ),
            CertificateFault::NoStart => Report::of_line(alloc, b"refused NoStart"),
            CertificateFault::GoalClosed { line } => Report::with_number(
                alloc,
                b"refused GoalClosed ",
                line,
            ),
            CertificateFault::Missing { line, action } => {
                Report::with_numbers(alloc, b"refused Missing ", line, b" ", u64::from(action))
            }
            CertificateFault::TooDear { line, action } => {
                Report::with_numbers(alloc, b"refused TooDear ", line, b" ", u64::from(action))
            }
            CertificateFault::Low { line } => Report::with_number(alloc, b"refused Low ", line),
        }
    }

    /// That a journal is accepted, and how many events it has.
    pub fn of_journal(alloc: Global, events: u64) -> Result<Report, AllocError>
        ensures { IfOk result (λ report. report ≡ journal_report events) }
    {
        Report::with_number(alloc, b"journal ", events)
    }

    /// That a journal is refused: why, and the number of the first line that is refused.
    pub fn of_journal_fault(alloc: Global, line: u64, why: Why) -> Result<Report, AllocError>
        ensures { IfOk result (λ report. report ≡ journal_fault_text line why) }
    {
        let mut bytes = Vec::new(alloc);
        push_text(&mut bytes, b"refused ")?;
        push_text(&mut bytes, why_word(why).as_bytes())?;
        push_with_number(&mut bytes, b" ", line)?;
        Ok(Report { bytes })
    }

    /// That the texts of a map and a scenario are refused, and why: the error's name, and its
    /// numbers in the order of its fields. If the error is itself out of memory, so is the answer.
    pub fn of_grid_error(alloc: Global, error: &GridError) -> Result<Report, AllocError>
        ensures { IfOk result (λ report. input_text error.now ≡ Some report) }
    {
        match *error {
            GridError::Header { line } => Report::with_number(alloc, b"input Header ", line),
            GridError::Size => Report::of_line(alloc, b"input Size"),
            GridError::Rows { line } => Report::with_number(alloc, b"input Rows ", line),
            GridError::Cell { line, col } => {
                Report::with_numbers(alloc, b"input Cell ", line, b" ", col)
            }
            GridError::Scenario { line } => Report::with_number(alloc, b"input Scenario ", line),
            GridError::NoRow { row, rows } => {
                Report::with_numbers(alloc, b"input NoRow ", row, b" ", rows)
            }
            GridError::ScenarioSize => Report::of_line(alloc, b"input ScenarioSize"),
            GridError::Outside => Report::of_line(alloc, b"input Outside"),
            GridError::StartBlocked => Report::of_line(alloc, b"input StartBlocked"),
            GridError::GoalBlocked => Report::of_line(alloc, b"input GoalBlocked"),
            GridError::Memory => Err(AllocError),
        }
    }

    /// That the text of sliding tiles is refused, and why: the error's name, and its numbers in the
    /// order of its fields. If the error is itself out of memory, so is the answer.
    pub fn of_tiles_error(alloc: Global, error: &TilesError) -> Result<Report, AllocError>
        ensures { IfOk result (λ report. tiles_text error.now ≡ Some report) }
    {
        match *error {
            TilesError::Syntax { line } => Report::with_number(alloc, b"input Syntax ", line),
            TilesError::Size => Report::of_line(alloc, b"input Size"),
            TilesError::Count { seen, wanted } => {
                Report::with_numbers(alloc, b"input Count ", seen, b" ", wanted)
            }
            TilesError::Number { at } => Report::with_number(alloc, b"input Number ", at),
            TilesError::Twice { number } => Report::with_number(alloc, b"input Twice ", number),
            TilesError::Memory => Err(AllocError),
        }
    }

    /// That the text of a domain or of a problem is refused, and why. It has the error's name, the
    /// number of the file (1 for the domain, 2 for the problem) and the place in it. The word after
    /// them is for what must stand there or is left out. If the error is itself out of memory, so
    /// is the answer.
    pub fn of_syntax_error(
        alloc: Global,
        file: File,
        error: &SyntaxError,
    ) -> Result<Report, AllocError>
        ensures { IfOk result (λ report. syntax_text (file_number file) error.now ≡ Some report) }
    {
        let file = file_number(file);
        match *error {
            SyntaxError::Byte { at } => Report::with_numbers(alloc, b"input Byte ", file, b" ", at),
            SyntaxError::Deep { at } => Report::with_numbers(alloc, b"input Deep ", file, b" ", at),
            SyntaxError::LeftOut { at, what } => {
                let word = left_out_word(what);
                Report::with_numbers_and_word(alloc, b"input LeftOut ", file, at, word)
            }
            SyntaxError::Expected { at, want } => {
                let word = want_word(want);
                Report::with_numbers_and_word(alloc, b"input Expected ", file, at, word)
            }
            SyntaxError::Unclosed { at } => {
                Report::with_numbers(alloc, b"input Unclosed ", file, b" ", at)
            }
            SyntaxError::Extra { at } => Report::with_numbers(
                alloc,
                b"input Extra ",
                file,
                b" ",
                at,
            ),
            SyntaxError::Memory => Err(AllocError),
        }
    }

    /// That a domain and a problem are no task, and why. It has a cause with the number of the file
    /// and the place of the name in it, or what there is too much of. For a stop it is the report of
    /// `of_grounding_stop`. If the error is itself out of memory, so is the answer.
    pub fn of_strips_error(alloc: Global, error: &StripsError) -> Result<Report, AllocError>
        ensures { IfOk result (λ report. strips_text error.now ≡ Some report) }
    {
        match *error {
            StripsError::Refused(refusal) => Report::of_typing_refusal(alloc, refusal),
            StripsError::TooManyAtoms { n } => {
                Report::with_number(alloc, b"input TooManyAtoms ", n)
            }
            StripsError::TooManyActions => Report::of_line(alloc, b"input TooManyActions"),
            StripsError::Stopped => Report::of_grounding_stop(alloc),
            StripsError::Memory => Err(AllocError),
        }
    }

    /// That a file states no tables: its first line that isn't spelled as it must be, from 1 on.
    pub fn of_tables_line(alloc: Global, line: u64) -> Result<Report, AllocError>
        ensures { IfOk result (λ report. report ≡ tables_syntax_text line) }
    {
        Report::with_number(alloc, b"input Tables ", line)
    }

    /// That the tables of a file don't suit the task, and why: the line of a table or trap that is
    /// at fault, counted from 1 in the file; or a sum and the action that lowers it by more than its
    /// cost.
    pub fn of_tables_fault(
        alloc: Global,
        tables: &Tables,
        fault: TablesFault,
    ) -> Result<Report, AllocError>
        ensures { IfOk result (λ report. report ≡ tables_fault_text tables.now fault) }
    {
        match fault {
            TablesFault::Line { list, line } => {
                let at = line_number(tables, list, line);
                Report::with_wide(alloc, b"input Unsuited ", at)
            }
            TablesFault::Unpaid { sum, action } => Report::with_numbers(
                alloc,
                b"input Unpaid ",
                sum as u64,
                b" ",
                action as u64,
            ),
        }
    }

    /// The bytes of the text.
    pub fn as_slice(&self) -> &[u8]
        ensures { result.now ≡ self.now }
    {
        &self.bytes
    }

    // The actions of a plan, its cost and the bound.
    pub(crate) fn of_steps(
        alloc: Global,
        task: &Task,
        actions: &[u32],
        cost: u64,
        bound: u64,
    ) -> Result<Report, AllocError>
        requires { AreActions (space_of task.now) actions.now }
        ensures { IfOk result (λ report. report ≡ plan_text task.now
            (record { actions = actions.now; cost = cost }) bound) }
    {
        let mut bytes = Vec::new(alloc);
        push_with_numbers(&mut bytes, b"plan ", cost, b" ", actions.len() as u64)?;
        push_steps(alloc, &mut bytes, task, actions)?;
        push_with_number(&mut bytes, b"bound ", bound)?;
        Ok(Report { bytes })
    }

    // The line of a made task with a plan.
    fn of_made_plan(alloc: Global, cost: u64, bound: u64) -> Result<Report, AllocError>
        ensures { IfOk result (λ report. report ≡ made_text (Claim.Bounded cost bound)) }
    {
        let text = format!(in alloc; "cost {cost} bound {bound} accepted\n")?;
        Report::of_text(alloc, text.as_bytes())
    }

    // One line of a text and a number.
    fn with_number(alloc: Global, text: &[u8], number: u64) -> Result<Report, AllocError>
        ensures { IfOk result (λ report. report ≡ line (text.now ++ decimal number)) }
    {
        let mut bytes = Vec::new(alloc);
        push_with_number(&mut bytes, text, number)?;
        Ok(Report { bytes })
    }

    // One line of a text, a number, another text and another number.
    fn with_numbers(
        alloc: Global,
        text: &[u8],
        first: u64,
        between: &[u8],
        second: u64,
    ) -> Result<Report, AllocError>
        ensures { IfOk result (λ report. report
            ≡ line (text.now ++ decimal first ++ between.now ++ decimal second)) }
    {
        let mut bytes = Vec::new(alloc);
        push_with_numbers(&mut bytes, text, first, between, second)?;
        Ok(Report { bytes })
    }

    // Why names or objects are refused.
    fn of_typing_refusal(alloc: Global, refusal: TypingRefusal) -> Result<Report, AllocError>
        ensures { IfOk result (λ report. report ≡ refusal_text refusal) }
    {
        match refusal {
            TypingRefusal::Named { cause, place } => Report::of_cause(alloc, cause, place),
            TypingRefusal::TooManyObjects { n } => {
                Report::with_number(alloc, b"input TooManyObjects ", n)
            }
        }
    }

    // Why a name is refused, and where it stands.
    fn of_cause(alloc: Global, cause: Cause, place: Place) -> Result<Report, AllocError>
        ensures { IfOk result (λ report. report ≡ refusal_text (Named cause place)) }
    {
        let mut bytes = Vec::new(alloc);
        push_text(&mut bytes, b"input ")?;
        push_text(&mut bytes, cause_word(cause).as_bytes())?;
        push_with_numbers(&mut bytes, b" ", file_number(place.file), b" ", place.at)?;
        Ok(Report { bytes })
    }

    // One line of a text, two numbers and a word.
    fn with_numbers_and_word(
        alloc: Global,
        text: &[u8],
        first: u64,
        second: u64,
        word: &str,
    ) -> Result<Report, AllocError>
        ensures { IfOk result (λ report. report
            ≡ line (text.now ++ spaced (decimal first) (spaced (decimal second) word.now))) }
    {
        let mut bytes = Vec::new(alloc);
        push_with_numbers_and_word(&mut bytes, text, first, second, word.as_bytes())?;
        Ok(Report { bytes })
    }

    // One line of a text and a number that may be wider than 64 bits.
    fn with_wide(alloc: Global, text: &[u8], number: u128) -> Result<Report, AllocError>
        ensures { IfOk result (λ report. report ≡ line (text.now ++ decimal number)) }
    {
        let mut bytes = Vec::new(alloc);
        push_with_wide(&mut bytes, text, number)?;
        Ok(Report { bytes })
    }

    // One line of a text, a number, a space and a number that may be wider than 64 bits.
    fn with_number_and_wide(
        alloc: Global,
        text: &[u8],
        first: u64,
        second: u128,
    ) -> Result<Report, AllocError>
        ensures { IfOk result (λ report. report
            ≡ line (text.now ++ spaced (decimal first) (decimal second))) }
    {
        let mut bytes = Vec::new(alloc);
        push_with_number_and_wide(&mut bytes, text, first, second)?;
        Ok(Report { bytes })
    }
}
