//! Pattern databases: the least costs of all images, and the pattern value of a state.
ghost use Rattle.std.specs.Prelude.{◌≡◌, ◌<◌, ◌≤◌, All, IsTrue, IfOk, length};
ghost use Rattle.pb_task.specs.Parts.{space_of};
ghost use Rattle.pb_task.specs.Strips.{strips_space, IsStrips};
ghost use Rattle.pb_task.specs.Tiles.{tiles_space, IsTiles};
ghost use Rattle.pb_pattern.specs.Costs.{cost_in, estimate_in};
ghost use Rattle.pb_pattern.specs.Patterns.{pattern_value, strips_value, tiles_value};
ghost use Rattle.pb_pattern.specs.Projected.{tracked_tiles};
ghost use Rattle.pb_pattern.specs.Tables.{AreOfStrips, AreOfTiles, IsOfTask};

use crate::costs::UNKNOWN;
use crate::graph::Graph;
use crate::images;
use pb_model::Estimate;
use pb_packed::Packed;
use pb_task::{StripsParts, Task, TaskParts, TilesParts};
use std::alloc::{AllocError, Global};
use std::marker::Model;

/// The least costs of a task's images for one pattern number: a pattern database. It is made once,
/// and threads may share it.
#[derive(Drop)]
pub struct Table {
    pattern: u32,
    tracked: Vec<u32>,
    costs: Vec<u64>,
}

impl Model for Table {
    ghost use Rattle.pb_pattern.specs.Projected.{tracked_tiles};
    ghost use Rattle.pb_pattern.specs.Tables.{TableValue};

    ghost Value = { TableValue };

    ghost view = { λ t. record {
      pattern = t.pattern;
      tracked = t.tracked.items;
      costs = t.costs.items;
    } };
}

// What a cost of a table means.
fn estimate_at(costs: &[u64], image: u32) -> Estimate
    requires { image < length costs.now }
    ensures { result ≡ estimate_in (cost_in costs.now image) }
{
    let cost = costs[image as usize];
    if cost < UNKNOWN {
        Estimate::Cost(cost)
    } else {
        Estimate::Dead
    }
}

// The least costs of the images of a board.
fn costs_of_tiles(alloc: Global, tiles: &TilesParts, k: u32) -> Result<Vec<u64>, AllocError>
    requires { IsTiles tiles.now }
    ensures { IfOk result (λ costs. AreOfTiles tiles.now k costs.items) }
{
    let tracked = images::tracked_tiles(tiles, k);
    let graph = Graph::Pieces(images::pieces_of(tiles, tracked));
    graph.least_costs(alloc)
}

// The least costs of the sets of the tracked atoms.
fn costs_of_strips(
    alloc: Global,
    strips: &StripsParts,
    tracked: &[u32],
) -> Result<Vec<u64>, AllocError>
    requires strips { IsStrips strips.now }
    requires few { length tracked.now ≤ 12 }
    requires atoms { All (λ atom. atom < strips.now.atoms) tracked.now }
    ensures { IfOk result (λ costs. AreOfStrips strips.now tracked.now costs.items) }
{
    let sets = images::sets_of(alloc, strips, tracked)?;
    let graph = Graph::Sets(sets);
    graph.least_costs(alloc)
}

// The pattern value of a board.
fn least_of_tiles(tiles: &TilesParts, k: u32, costs: &[u64], state: &Packed) -> Estimate
    requires tiles { IsTiles tiles.now }
    requires costs { AreOfTiles tiles.now k costs.now }
    requires state { IsTrue ((tiles_space tiles.now).is_state state.now) }
    ensures { result ≡ tiles_value tiles.now (tracked_tiles tiles.now k) state.now }
{
    let tracked = images::tracked_tiles(tiles, k);
    let image = images::image_of_board(tiles, tracked, state);
    estimate_at(costs, image)
}

// The pattern value of a set of atoms.
fn least_of_strips(strips: &StripsParts, tracked: &[u32], costs: &[u64], state: &Packed) -> Estimate
    requires strips { IsStrips strips.now }
    requires few { length tracked.now ≤ 12 }
    requires atoms { All (λ atom. atom < strips.now.atoms) tracked.now }
    requires costs { AreOfStrips strips.now tracked.now costs.now }
    requires state { IsTrue ((strips_space strips.now).is_state state.now) }
    ensures { result ≡ strips_value strips.now tracked.now state.now }
{
    // Only the contract speaks of `strips`.
    let _ = strips;
    let image = images::image_of_set(tracked, state);
    estimate_at(costs, image)
}

impl Table {
    /// The table of a task for a pattern number, 0 to 12. For tiles at most 3 tiles are tracked
    /// beside the blank, for STRIPS so many atoms, and for a grid nothing. An error is out of
    /// memory.
    pub fn of(alloc: Global, task: &Task, k: u32) -> Result<Table, AllocError>
        requires { k ≤ 12 }
        ensures task { IfOk result (λ table. IsOfTask table task.now) }
        ensures pattern { IfOk result (λ table. table.pattern ≡ k) }
    {
        match task.parts() {
            TaskParts::Grid(_) => Ok(Table {
                pattern: k,
                tracked: Vec::new(alloc),
                costs: Vec::new(alloc),
            }),
            TaskParts::Tiles(tiles) => Ok(Table {
                pattern: k,
                tracked: Vec::new(alloc),
                costs: costs_of_tiles(alloc, tiles, k)?,
            }),
            TaskParts::Strips(strips) => {
                let tracked = images::tracked_atoms(alloc, strips, k)?;
                let costs = costs_of_strips(alloc, strips, &tracked)?;
                Ok(Table {
                    pattern: k,
                    tracked,
                    costs,
                })
            }
        }
    }

    /// The pattern number that the table was made for.
    pub fn pattern(&self) -> u32
        ensures { result ≡ self.now.pattern }
    {
        self.pattern
    }

    /// The pattern value of a state of the table's own task, in the unit of the task's action
    /// costs. It takes no memory.
    pub fn least(&self, task: &Task, state: &Packed) -> Estimate
        requires task { IsOfTask self.now task.now }
        requires state { IsTrue ((space_of task.now).is_state state.now) }
        ensures { result ≡ pattern_value task.now self.now.pattern state.now }
    {
        match task.parts() {
            TaskParts::Grid(_) => Estimate::Cost(0),
            TaskParts::Tiles(tiles) => least_of_tiles(tiles, self.pattern, &self.costs, state),
            TaskParts::Strips(strips) => {
                least_of_strips(strips, &self.tracked, &self.costs, state)
            }
        }
    }
}
