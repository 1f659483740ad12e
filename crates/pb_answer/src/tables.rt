//! The task that the texts of `solve` spell, with the tables of a file if the words name one for a
//! STRIPS task.
ghost use Rattle.std.specs.Prelude.{◌≡◌, ◌≤◌, true, ℕ, List, IfOk, IfSome, Some, Ok, slice_get};
ghost use Rattle.pb_task.specs.declared.parts.TaskParts.TheVariants.{Strips};
ghost use Rattle.pb_task.specs.Strips.{IsStrips};
ghost use Rattle.pb_task.specs.Widths.{width_of};
ghost use Rattle.pb_table_lines.specs.Reading.{tables_reading};
ghost use Rattle.pb_estimate.specs.Choices.{Tables as ByTables};
ghost use Rattle.pb_estimate.specs.Estimates.{suits};
ghost use Rattle.pb_command.specs.Causes.{solve_meant};
ghost use Rattle.pb_report.specs.Texts.{tables_syntax_text, tables_fault_text};
ghost use Rattle.pb_strips.specs.Looks.{IsSpent};
ghost use Rattle.pb_answer.specs.Loaded.{tables_told, without_tables, with_tables_of, with_tables_if_loaded, has_tables_file, input_task, solve_task};
ghost use Rattle.pb_answer.specs.Named.{NamesTell};
ghost use Rattle.pb_answer.specs.Stops.{HasTablesText, InputMayStop};
ghost use Rattle.pb_answer.specs.Tasks.{GivesTask, GivesBy, IsRefusal};

use crate::input::{NoTask, input_task, refuse_long_text};
use crate::texts::Texts;
use pb_command::{Input, SolveCommand};
use pb_report::Report;
use pb_strips::Looks;
use pb_table_lines::{LinesError, read_tables};
use pb_tables::{Tables, TablesFault};
use pb_task::{StripsParts, Task, TaskParts};
use std::alloc::Global;

/// A task, and the tables of a file by which it is to be searched, if the words name one for a STRIPS
/// task.
#[derive(Drop)]
pub struct TaskWithTables {
    /// The task.
    pub task: Task,
    /// The tables, which suit it.
    pub tables: Option<Tables>,
}

// The refusal of a text that doesn't state tables: its first line that isn't spelled so.
fn refuse_lines(alloc: Global, line: u64) -> NoTask
    ensures { IsRefusal result (tables_syntax_text line) }
{
    match Report::of_tables_line(alloc, line) {
        Ok(report) => NoTask::Refused(report),
        Err(_) => NoTask::Memory,
    }
}

// The refusal of tables that don't suit the task.
fn refuse_tables(alloc: Global, tables: &Tables, fault: TablesFault) -> NoTask
    ensures { IsRefusal result (tables_fault_text tables.now fault) }
{
    match Report::of_tables_fault(alloc, tables, fault) {
        Ok(report) => NoTask::Refused(report),
        Err(_) => NoTask::Memory,
    }
}

// The tables that a text states for a STRIPS task, with images of as many digits as its states.
fn stated_tables(
    alloc: Global,
    task: &Task,
    strips: &StripsParts,
    text: &[u8],
) -> Result<Tables, NoTask>
    requires strips { IsStrips strips.now }
    requires parts { task.now ≡ Strips strips.now }
    ensures tables { GivesTask ⊥ result (tables_told strips.now
        (tables_reading (width_of task.now) text.now)) }
    ensures suits { IfOk result (λ tables. suits task.now (ByTables tables) ≡ true) }
{
    match read_tables(alloc, task.width(), text) {
        Ok(tables) => match tables.fault(strips) {
            None => Ok(tables),
            Some(fault) => Err(refuse_tables(alloc, &tables, fault)),
        },
        Err(LinesError::Unspelled { line }) => Err(refuse_lines(alloc, line)),
        Err(LinesError::Memory) => Err(NoTask::Memory),
    }
}

// The tables that a text states for a task, if it is a STRIPS task. Others have no tables.
fn tables_for(alloc: Global, task: &Task, text: &[u8]) -> Result<Option<Tables>, NoTask>
    ensures read { GivesBy ⊥ (λ tables. (task.now, tables)) result
        (with_tables_of text.now (Ok task.now)) }
    ensures suits { IfOk result (λ tables. IfSome tables
        (λ t. suits task.now (ByTables t) ≡ true)) }
{
    match task.parts() {
        TaskParts::Strips(strips) => Ok(Some(stated_tables(alloc, task, strips, text)?)),
        TaskParts::Grid(_) => Ok(None),
        TaskParts::Tiles(_) => Ok(None),
    }
}

// The task with the tables that a text states.
fn with_tables_of(alloc: Global, task: Task, text: &[u8]) -> Result<TaskWithTables, NoTask>
    ensures read { GivesBy ⊥ (λ g. (g.task, g.tables)) result (with_tables_of text.now (Ok task)) }
    ensures suits { IfOk result (λ g. IfSome g.tables (λ t. suits g.task (ByTables t) ≡ true)) }
    ensures task { IfOk result (λ g. g.task ≡ task) }
{
    let tables = tables_for(alloc, &task, text)?;
    Ok(TaskWithTables { task, tables })
}

// Whether the words name a file of tables that is looked at: for STRIPS alone.
fn has_tables_file(solve: &SolveCommand<'_>) -> bool
    ensures { result ≡ has_tables_file (solve_meant solve.now).input (solve_meant solve.now).tables }
{
    match solve.input {
        Input::Grid(_) | Input::Tiles(_) => false,
        Input::Strips(_) => solve.tables.is_some(),
    }
}

// The task that the texts of `solve` spell, without a file of tables.
fn read_task_alone(
    alloc: Global,
    solve: &SolveCommand<'_>,
    texts: &Texts,
    looks: &mut Looks,
) -> Result<TaskWithTables, NoTask>
    ensures read { GivesBy (IsSpent looks.new
        × InputMayStop (solve_meant solve.now).input (solve_meant solve.now).options 0 texts.now)
        (λ g. (g.task, g.tables)) result (without_tables
        (input_task (solve_meant solve.now).input (solve_meant solve.now).options 0 texts.now)) }
    ensures suits { IfOk result (λ g. IfSome g.tables (λ t. suits g.task (ByTables t) ≡ true)) }
    ensures names { IfOk result (λ g. NamesTell g.task) }
    ensures since { looks.new.since ≡ looks.old.since }
    ensures rising { looks.old.taken ≤ looks.new.taken }
{
    let task = input_task(alloc, &solve.input, solve.options, texts, 0, looks)?;
    Ok(TaskWithTables { task, tables: None })
}

// The same with the tables of a file, whose text comes after those of the task. If the file was too
// long, this is refused before anything is read. Else the task is read first.
fn read_task_and_file(
    alloc: Global,
    solve: &SolveCommand<'_>,
    texts: &Texts,
    looks: &mut Looks,
) -> Result<TaskWithTables, NoTask>
    ensures read { GivesBy (IsSpent looks.new
        × (((text : List ℕ) × (slice_get texts.now 2 ≡ Some text))
        × InputMayStop (solve_meant solve.now).input (solve_meant solve.now).options 0 texts.now))
        (λ g. (g.task, g.tables)) result (with_tables_if_loaded (slice_get texts.now 2)
        (input_task (solve_meant solve.now).input (solve_meant solve.now).options 0 texts.now)) }
    ensures suits { IfOk result (λ g. IfSome g.tables (λ t. suits g.task (ByTables t) ≡ true)) }
    ensures names { IfOk result (λ g. NamesTell g.task) }
    ensures since { looks.new.since ≡ looks.old.since }
    ensures rising { looks.old.taken ≤ looks.new.taken }
{
    let Some(text) = texts.get(2) else {
        return Err(refuse_long_text(alloc));
    };
    let read = input_task(alloc, &solve.input, solve.options, texts, 0, looks)?;
    with_tables_of(alloc, read, text)
}

/// The task that the texts of `solve` spell, with the tables of a file if the words name one for a
/// STRIPS task: its text comes after those of the domain and the problem. If the file was too long,
/// this is refused before anything is read. Else the task is read first.
pub fn read_task_with_tables(
    alloc: Global,
    solve: &SolveCommand<'_>,
    texts: &Texts,
    looks: &mut Looks,
) -> Result<TaskWithTables, NoTask>
    ensures read { GivesBy (IsSpent looks.new
        × (HasTablesText (solve_meant solve.now).input (solve_meant solve.now).tables texts.now
        × InputMayStop (solve_meant solve.now).input (solve_meant solve.now).options 0 texts.now))
        (λ g. (g.task, g.tables)) result (solve_task (solve_meant solve.now) texts.now) }
    ensures suits { IfOk result (λ g. IfSome g.tables (λ t. suits g.task (ByTables t) ≡ true)) }
    ensures names { IfOk result (λ g. NamesTell g.task) }
    ensures since { looks.new.since ≡ looks.old.since }
    ensures rising { looks.old.taken ≤ looks.new.taken }
{
    if has_tables_file(solve) {
        read_task_and_file(alloc, solve, texts, looks)
    } else {
        read_task_alone(alloc, solve, texts, looks)
    }
}
