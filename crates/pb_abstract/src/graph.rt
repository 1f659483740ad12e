//! The abstract graph of a task: its blocks, their scopes and their interference.
ghost use Rattle.std.specs.Prelude.{◌≡◌, ◌<◌, ◌≤◌, ℕ, All, IsTrue, IfOk};
ghost use Rattle.std.specs.List.Sorted.{IsStrictlyIncreasing};
ghost use Rattle.pb_machine.specs.Blocks.{interferes};
ghost use Rattle.pb_task.specs.Parts.{space_of};
ghost use Rattle.pb_abstract.specs.Projection.{IsFinest};
ghost use Rattle.pb_abstract.specs.Graph.{has, blocks_of, home_of, IsGraph, IsGraphOf};

use crate::interference::interference;
use crate::lists::BlockList;
use crate::projection::Projection;
use crate::{scopes, squares, tiles};
use pb_packed::Packed;
use pb_task::{Task, TaskParts};
use std::alloc::{AllocError, Global};
use std::marker::Model;

/// The abstract graph of a task: its blocks, and for each the blocks of its scope and those that
/// interfere with it. Contracts see the projection and the scopes.
#[derive(Drop)]
pub struct AbsGraph {
    projection: Projection,
    scopes: Vec<BlockList>,
    interference: Vec<BlockList>,
}

impl Model for AbsGraph {
    ghost use Rattle.pb_abstract.specs.Graph.{AbstractGraph, IsGraph, AreInterference};

    ghost Value = { AbstractGraph };

    ghost view = { λ g. record { projection = g.projection; scopes = g.scopes.items } };

    ghost invariant = { λ g. IsGraph (record { projection = g.projection; scopes = g.scopes.items })
        × AreInterference g.scopes.items g.interference.items };
}

impl AbsGraph {
    /// The graph of a task by the finest of its projections that has at most `wish` blocks. All the
    /// memory that it uses is taken here.
    pub fn of(alloc: Global, task: &Task, wish: u32) -> Result<AbsGraph, AllocError>
        requires least { 16 ≤ wish }
        requires greatest { wish ≤ 4096 }
        ensures graph { IfOk result (IsGraphOf task.now) }
        ensures finest { IfOk result (λ graph. IsFinest task.now wish graph.projection) }
    {
        let parts = task.parts();
        let projection = scopes::finest(alloc, parts, wish)?;
        let scopes = scopes::scopes(alloc, parts, &projection)?;
        let interference = interference(alloc, scopes.as_slice())?;
        Ok(AbsGraph {
            projection,
            scopes,
            interference,
        })
    }

    /// The block of a state of the task that the graph is of. It takes no memory.
    pub fn block(&self, task: &Task, state: &Packed) -> u32
        requires graph { IsGraphOf task.now self.now }
        requires state { IsTrue ((space_of task.now).is_state state.now) }
        ensures block { result ≡ home_of task.now self.now state.now }
        ensures below { result < (blocks_of self.now).count }
    {
        // `IsGraphOf` says that the projection fits the kind of task, so no other pair comes.
        match (task.parts(), &self.projection) {
            (TaskParts::Grid(grid), Projection::Squares { side, columns }) => squares::square(
                grid, *side, *columns, state,
            ),
            (TaskParts::Grid(_), _) => unreachable!(),
            (TaskParts::Tiles(parts), projection) => tiles::block(parts, *projection, state),
            (TaskParts::Strips(_), Projection::Atoms(atoms)) => atoms.tracked_set(state),
            (TaskParts::Strips(_), _) => unreachable!(),
        }
    }

    /// How many blocks there are: 1 to 4,096. They are numbered from 0.
    pub fn count(&self) -> u32
        ensures count { result ≡ (blocks_of self.now).count }
        ensures few { result ≤ 4096 }
        ensures some { 1 ≤ result }
        ensures lawful { IsGraph self.now }
    {
        self.scopes.len() as u32
    }

    /// The scope of a block: the block, and those that a state of it can have successors in.
    pub fn scope(&self, b: u32) -> &[u32]
        requires { b < (blocks_of self.now).count }
        ensures each { (c : ℕ) → has result.now c ≡ (blocks_of self.now).scope b c }
        ensures below { All (λ c. c < (blocks_of self.now).count) result.now }
        ensures ascending { IsStrictlyIncreasing result.now }
    {
        self.scopes[b as usize].numbers()
    }

    /// The interference of a block: the other blocks whose scope has a block in common with its
    /// own.
    pub fn interference(&self, b: u32) -> &[u32]
        requires { b < (blocks_of self.now).count }
        ensures each { (c : ℕ) → has result.now c ≡ interferes (blocks_of self.now) b c }
        ensures below { All (λ c. c < (blocks_of self.now).count) result.now }
        ensures ascending { IsStrictlyIncreasing result.now }
    {
        self.interference[b as usize].numbers()
    }
}
