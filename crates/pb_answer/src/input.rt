//! The task that the texts of a command spell.
ghost use Rattle.std.specs.Prelude.{◌≡◌, ◌≤◌, Err, Some, IfOk, option_map};
ghost use Rattle.pb_command.specs.Causes.{input_meant};
ghost use Rattle.pb_pddl.specs.Words.{DomainHasWords};
ghost use Rattle.pb_pddl.specs.Readings.{problem_reading};
ghost use Rattle.pb_lifted.specs.declared.refusal.File.TheVariants.{Domain, Problem};
ghost use Rattle.pb_answer.specs.Loaded.{grid_task, grid_told, tiles_task, tiles_told, refused_with, strips_told, problem_told, strips_task, input_task, too_long};
ghost use Rattle.pb_report.specs.Texts.{file_number, syntax_text, strips_text};
ghost use Rattle.pb_answer.specs.Named.{NamesTell};
ghost use Rattle.pb_strips.specs.Looks.{IsSpent};
ghost use Rattle.pb_answer.specs.Stops.{ProblemMayStop, StripsMayStop, InputMayStop};
ghost use Rattle.pb_answer.specs.Tasks.{GivesTask, IsNoTask, IsRefusal};

use crate::texts::Texts;
use pb_command::{Input, InputOptions};
use pb_grid::{GridError, read_grid};
use pb_lifted::File;
use pb_pddl::{Domain, SyntaxError};
use pb_report::Report;
use pb_strips::{Looks, StripsError, ground_with};
use pb_syntax::{read_domain, read_problem};
use pb_task::{Grounding, Task};
use pb_tiles::{TilesError, read_tiles};
use std::alloc::{AllocError, Global};

/// Why nothing was read: no task, or no tables that suit it.
#[derive(Drop)]
pub enum NoTask {
    /// The texts are refused with this report.
    Refused(Report),
    /// Grounding was stopped: no look is left, and nothing is refused that comes before.
    Stopped,
    /// Memory ran out.
    Memory,
}

// By hand, so that a clause can say which error `?` makes.
impl From<AllocError> for NoTask {
    ghost use Rattle.std.specs.Prelude.{◌≡◌};
    ghost use Rattle.pb_answer.specs.declared.input.NoTask.TheVariants.{Memory};

    ghost from_gives = { λ _ e. e ≡ Memory };

    fn from(_error: AllocError) -> NoTask {
        NoTask::Memory
    }
}

// The refusal if a file was too long.
pub(crate) fn refuse_long_text(alloc: Global) -> NoTask
    ensures { IsRefusal result too_long }
{
    match Report::of_line(alloc, b"input TooLong") {
        Ok(report) => NoTask::Refused(report),
        Err(_) => NoTask::Memory,
    }
}

// The refusal of a map and a scenario.
fn refuse_grid(alloc: Global, error: GridError) -> NoTask
    ensures { IsNoTask ⊥ result (grid_told (Err error)) }
{
    match Report::of_grid_error(alloc, &error) {
        Ok(report) => NoTask::Refused(report),
        Err(_) => NoTask::Memory,
    }
}

// The task of a map and a scenario.
fn grid(
    alloc: Global,
    map: Option<&[u8]>,
    scenario: Option<&[u8]>,
    options: InputOptions,
) -> Result<Task, NoTask>
    ensures { GivesTask ⊥ result (grid_task (option_map (λ t. t.now) map.entry)
        (option_map (λ t. t.now) scenario.entry) options) }
{
    match (map, scenario) {
        (Some(map), Some(scenario)) => {
            match read_grid(alloc, map, scenario, options.row, options.swamp) {
                Ok(task) => Ok(task),
                Err(GridError::Memory) => Err(NoTask::Memory),
                Err(error) => Err(refuse_grid(alloc, error)),
            }
        }
        _ => Err(refuse_long_text(alloc)),
    }
}

// The refusal of a board.
fn refuse_tiles(alloc: Global, error: TilesError) -> NoTask
    ensures { IsNoTask ⊥ result (tiles_told (Err error)) }
{
    match Report::of_tiles_error(alloc, &error) {
        Ok(report) => NoTask::Refused(report),
        Err(_) => NoTask::Memory,
    }
}

// The task of a board.
fn tiles(alloc: Global, text: Option<&[u8]>) -> Result<Task, NoTask>
    ensures { GivesTask ⊥ result (tiles_task (option_map (λ t. t.now) text.entry)) }
{
    match text {
        Some(text) => match read_tiles(alloc, text) {
            Ok(task) => Ok(task),
            Err(TilesError::Memory) => Err(NoTask::Memory),
            Err(error) => Err(refuse_tiles(alloc, error)),
        },
        None => Err(refuse_long_text(alloc)),
    }
}

// The refusal of the text of a domain or a problem.
fn refuse_text(alloc: Global, file: File, error: SyntaxError) -> NoTask
    ensures { IsNoTask ⊥ result (refused_with (syntax_text (file_number file) error)) }
{
    match Report::of_syntax_error(alloc, file, &error) {
        Ok(report) => NoTask::Refused(report),
        Err(_) => NoTask::Memory,
    }
}

// The refusal of a domain and a problem that are no task.
fn refuse_strips(alloc: Global, error: StripsError) -> NoTask
    ensures { IsNoTask ⊥ result (refused_with (strips_text error)) }
{
    match Report::of_strips_error(alloc, &error) {
        Ok(report) => NoTask::Refused(report),
        Err(_) => NoTask::Memory,
    }
}

// The task of this grounding of a domain and the text of a problem.
fn strips_of(
    alloc: Global,
    grounding: Grounding,
    domain: &Domain,
    text: &[u8],
    looks: &mut Looks,
) -> Result<Task, NoTask>
    requires { DomainHasWords domain.now }
    ensures task { GivesTask
        (IsSpent looks.new × ProblemMayStop grounding domain.now text.now) result
        (problem_told grounding domain.now (problem_reading text.now)) }
    ensures names { IfOk result NamesTell }
    ensures since { looks.new.since ≡ looks.old.since }
    ensures rising { looks.old.taken ≤ looks.new.taken }
{
    match read_problem(alloc, text) {
        Ok(problem) => match ground_with(alloc, grounding, domain, &problem, looks) {
            Ok(task) => Ok(task),
            Err(StripsError::Stopped) => Err(NoTask::Stopped),
            Err(StripsError::Memory) => Err(NoTask::Memory),
            Err(error) => Err(refuse_strips(alloc, error)),
        },
        Err(SyntaxError::Memory) => Err(NoTask::Memory),
        Err(error) => Err(refuse_text(alloc, File::Problem, error)),
    }
}

// Reads the texts of a domain and a problem, and grounds their task.
fn read_strips(
    alloc: Global,
    grounding: Grounding,
    domain: &[u8],
    problem: &[u8],
    looks: &mut Looks,
) -> Result<Task, NoTask>
    ensures task { GivesTask
        (IsSpent looks.new × StripsMayStop grounding (Some domain.now) (Some problem.now)) result
        (strips_task grounding (Some domain.now) (Some problem.now)) }
    ensures names { IfOk result NamesTell }
    ensures since { looks.new.since ≡ looks.old.since }
    ensures rising { looks.old.taken ≤ looks.new.taken }
{
    match read_domain(alloc, domain) {
        Ok(domain) => strips_of(alloc, grounding, &domain, problem, looks),
        Err(SyntaxError::Memory) => Err(NoTask::Memory),
        Err(error) => Err(refuse_text(alloc, File::Domain, error)),
    }
}

// The task of this grounding of a domain and a problem.
fn strips(
    alloc: Global,
    grounding: Grounding,
    domain: Option<&[u8]>,
    problem: Option<&[u8]>,
    looks: &mut Looks,
) -> Result<Task, NoTask>
    ensures task { GivesTask
        (IsSpent looks.new × StripsMayStop grounding (option_map (λ t. t.now) domain.entry)
        (option_map (λ t. t.now) problem.entry)) result
        (strips_task grounding (option_map (λ t. t.now) domain.entry)
        (option_map (λ t. t.now) problem.entry)) }
    ensures names { IfOk result NamesTell }
    ensures since { looks.new.since ≡ looks.old.since }
    ensures rising { looks.old.taken ≤ looks.new.taken }
{
    match (domain, problem) {
        (Some(domain), Some(problem)) => read_strips(alloc, grounding, domain, problem, looks),
        _ => Err(refuse_long_text(alloc)),
    }
}

/// The task that the texts from a place on spell, read as the words ask. The row of the scenario and
/// `swamp` are looked at for a grid alone, and the grounding for STRIPS alone, as are the looks that
/// are left.
pub fn input_task(
    alloc: Global,
    input: &Input<'_>,
    options: InputOptions,
    texts: &Texts,
    first: usize,
    looks: &mut Looks,
) -> Result<Task, NoTask>
    requires { first ≤ 1 }
    ensures task { GivesTask
        (IsSpent looks.new × InputMayStop (input_meant input.now) options first texts.now) result
        (input_task (input_meant input.now) options first texts.now) }
    ensures names { IfOk result NamesTell }
    ensures since { looks.new.since ≡ looks.old.since }
    ensures rising { looks.old.taken ≤ looks.new.taken }
{
    match input {
        Input::Grid(_) => grid(alloc, texts.get(first), texts.get(first + 1), options),
        Input::Tiles(_) => tiles(alloc, texts.get(first)),
        Input::Strips(_) => {
            let grounding = options.grounding;
            let problem = texts.get(first + 1);
            strips(alloc, grounding, texts.get(first), problem, looks)
        }
    }
}
