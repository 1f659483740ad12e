//! The task that made texts spell: they are written and then read, as any user's texts are.
ghost use Rattle.std.specs.Prelude.{◌≡◌, IfOk};
ghost use Rattle.pb_pddl.specs.Readings.{domain_reading, problem_reading};
ghost use Rattle.pb_make.specs.Domain.{domain_text};
ghost use Rattle.pb_make.specs.Problems.{problem_text};
ghost use Rattle.pb_task.specs.declared.kind.Kind.TheVariants.{Grid, Tiles, Strips};
ghost use Rattle.pb_made.specs.Made.{IsMadeTask, IsSize};

use pb_grid::{GridError, read_grid};
use pb_make::{blocks_domain, make_map, make_problem, make_scen, make_tiles};
use pb_strips::{Looks, StripsError, ground};
use pb_syntax::{Domain, Problem, SyntaxError, read_domain, read_problem};
use pb_task::{Kind, Task};
use pb_tiles::{TilesError, read_tiles};
use std::alloc::{AllocError, Global};

// Made texts are never refused: each reader's only error is out of memory, as the `requires` of
// these functions say.

fn grid_memory(_error: &GridError) -> AllocError
    requires { _error.now ≡ GridError.Memory }
{
    AllocError
}

fn tiles_memory(_error: &TilesError) -> AllocError
    requires { _error.now ≡ TilesError.Memory }
{
    AllocError
}

fn syntax_memory(_error: &SyntaxError) -> AllocError
    requires { _error.now ≡ SyntaxError.Memory }
{
    AllocError
}

fn strips_memory(_error: &StripsError) -> AllocError
    requires { _error.now ≡ StripsError.Memory }
{
    AllocError
}

/// The task of this kind, seed and size. An error is out of memory.
pub(crate) fn made_task(alloc: Global, kind: Kind, seed: u32, size: u32) -> Result<Task, AllocError>
    requires { IsSize kind size }
    ensures { IfOk result (IsMadeTask kind seed size) }
{
    match kind {
        Kind::Grid => made_grid(alloc, seed, size),
        Kind::Tiles => made_tiles(alloc, seed, size),
        Kind::Strips => made_blocks(alloc, seed, size),
    }
}

// A square map of so many cells on each side.
fn made_grid(alloc: Global, seed: u32, side: u32) -> Result<Task, AllocError>
    requires { IsSize Grid side }
    ensures { IfOk result (IsMadeTask Grid seed side) }
{
    let map = make_map(alloc, seed, side)?;
    let scenario = make_scen(alloc, side)?;
    match read_grid(alloc, map.as_slice(), scenario.as_slice(), 0, false) {
        Ok(task) => Ok(task),
        Err(error) => Err(grid_memory(&error)),
    }
}

// A board of 3 by 3 after so many drawn moves.
fn made_tiles(alloc: Global, seed: u32, moves: u32) -> Result<Task, AllocError>
    requires { IsSize Tiles moves }
    ensures { IfOk result (IsMadeTask Tiles seed moves) }
{
    let text = make_tiles(alloc, seed, moves)?;
    match read_tiles(alloc, text.as_slice()) {
        Ok(task) => Ok(task),
        Err(error) => Err(tiles_memory(&error)),
    }
}

// So many blocks.
fn made_blocks(alloc: Global, seed: u32, blocks: u32) -> Result<Task, AllocError>
    requires { IsSize Strips blocks }
    ensures { IfOk result (IsMadeTask Strips seed blocks) }
{
    let domain = blocks_tree(alloc)?;
    let problem = problem_tree(alloc, seed, blocks)?;
    // A made task is small, so its grounding needs no stop.
    let mut looks = Looks::endless();
    match ground(alloc, &domain, &problem, &mut looks) {
        Ok(task) => Ok(task),
        Err(error) => Err(strips_memory(&error)),
    }
}

// The domain of the blocks world.
fn blocks_tree(alloc: Global) -> Result<Domain, AllocError>
    ensures { IfOk result (λ domain. domain_reading domain_text ≡ Ok domain) }
{
    match read_domain(alloc, blocks_domain()) {
        Ok(domain) => Ok(domain),
        Err(error) => Err(syntax_memory(&error)),
    }
}

// The problem of so many blocks.
fn problem_tree(alloc: Global, seed: u32, blocks: u32) -> Result<Problem, AllocError>
    requires { IsSize Strips blocks }
    ensures { IfOk result (λ problem. problem_reading (problem_text seed blocks) ≡ Ok problem) }
{
    let text = make_problem(alloc, seed, blocks)?;
    match read_problem(alloc, text.as_slice()) {
        Ok(problem) => Ok(problem),
        Err(error) => Err(syntax_memory(&error)),
    }
}
