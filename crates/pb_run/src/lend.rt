//! Commands that are lent for less long than the words that they were read from: an answer borrows
//! the names of a command and the texts of its files, for as long as both are there.
ghost use Rattle.std.specs.Prelude.{◌≡◌, option_map};
ghost use Rattle.pb_command.specs.Causes.{input_meant, solve_meant, falling_meant, check_meant};

use pb_command::{CheckCommand, FallingCommand, GridFiles, Input, SolveCommand, StripsFiles};

// A name, if there is one.
fn lend_name<'l, 'w: 'l>(name: Option<&'w str>) -> Option<&'l str>
    ensures { option_map (λ t. t.now) result ≡ option_map (λ t. t.now) name.entry }
{
    match name {
        Some(name) => Some(name),
        None => None,
    }
}

// The names of the files of a task.
fn lend_input<'l, 'w: 'l>(input: Input<'w>) -> Input<'l>
    ensures { input_meant result ≡ input_meant input.entry }
{
    match input {
        Input::Grid(names) => Input::Grid(GridFiles {
            map: names.map,
            scenario: names.scenario,
        }),
        Input::Tiles(board) => Input::Tiles(board),
        Input::Strips(names) => Input::Strips(StripsFiles {
            domain: names.domain,
            problem: names.problem,
        }),
    }
}

/// The same command.
pub fn lend_solve<'l, 'w: 'l>(solve: &SolveCommand<'w>) -> SolveCommand<'l>
    ensures { solve_meant result ≡ solve_meant solve.now }
{
    SolveCommand {
        input: lend_input(solve.input),
        options: solve.options,
        settings: solve.settings,
        engine: solve.engine,
        effort: solve.effort,
        tables: lend_name(solve.tables),
        certificate: lend_name(solve.certificate),
        journal: lend_name(solve.journal),
    }
}

/// The same command.
pub fn lend_falling<'l, 'w: 'l>(falling: &FallingCommand<'w>) -> FallingCommand<'l>
    ensures { falling_meant result ≡ falling_meant falling.now }
{
    FallingCommand {
        solve: lend_solve(&falling.solve),
        steps: falling.steps,
    }
}

/// The same command.
pub fn lend_check<'l, 'w: 'l>(check: &CheckCommand<'w>) -> CheckCommand<'l>
    ensures { check_meant result ≡ check_meant check.now }
{
    CheckCommand {
        input: lend_input(check.input),
        certificate: check.certificate,
        options: check.options,
        workers: check.workers,
        rewrite: lend_name(check.rewrite),
    }
}
