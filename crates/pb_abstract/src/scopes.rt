//! The finest projection of a task, and the scopes of its blocks, for each kind of task.
ghost use Rattle.std.specs.Prelude.{◌≡◌, ◌≤◌, ◌<◌, ◌↔◌, ◌⊎◌, ℕ, [], IsTrue, IfOk, length, slice_index_or};
ghost use Rattle.pb_task.specs.Parts.{IsTask};
ghost use Rattle.pb_abstract.specs.Projection.{Fits, block_count, IsEdge, IsFinest};
ghost use Rattle.pb_abstract.specs.Graph.{has};
ghost use Rattle.pb_abstract.specs.declared.projection.Projection.TheVariants.{Squares};

use crate::lists::BlockList;
use crate::projection::Projection;
use crate::{changes, numbers, squares, tiles, tracking};
use pb_task::TaskParts;
use std::alloc::{AllocError, Global};

/// The finest projection of a task's states that has at most so many blocks.
pub fn finest(alloc: Global, parts: &TaskParts, wish: u32) -> Result<Projection, AllocError>
    requires task { IsTask parts.now }
    requires least { 16 ≤ wish }
    requires greatest { wish ≤ 4096 }
    ensures finest { IfOk result (IsFinest parts.now wish) }
    ensures fits { IfOk result (Fits parts.now) }
    ensures side { IfOk result (λ projection. (side columns : ℕ) → projection ≡ Squares side columns
        → side ≤ 2048) }
{
    match parts {
        TaskParts::Grid(grid) => {
            let side = squares::least_side(grid, wish);
            let columns = grid.width.div_ceil(side);
            Ok(Projection::Squares { side, columns })
        }
        TaskParts::Tiles(tiles) => Ok(numbers::finest(tiles.rows * tiles.cols, wish)),
        TaskParts::Strips(strips) => {
            let atoms = tracking::choose_atoms(alloc, strips, wish)?;
            Ok(Projection::Atoms(atoms))
        }
    }
}

/// The scopes of all blocks, in order of their numbers: for each the block itself, and those that
/// an edge leads to.
pub fn scopes(
    alloc: Global,
    parts: &TaskParts,
    projection: &Projection,
) -> Result<Vec<BlockList>, AllocError>
    requires task { IsTask parts.now }
    requires fits { Fits parts.now projection.now }
    requires side { (side columns : ℕ) → projection.now ≡ Squares side columns → side ≤ 2048 }
    requires few { block_count parts.now projection.now ≤ 4096 }
    ensures count { IfOk result (λ scopes. length scopes.items
        ≡ block_count parts.now projection.now) }
    ensures scope { IfOk result (λ scopes. (block other : ℕ)
        → block < block_count parts.now projection.now
        → IsTrue (has (slice_index_or scopes.items block []) other)
        ↔ ((block ≡ other) ⊎ IsEdge parts.now projection.now block other)) }
{
    // `Fits` says that the projection is one for the kind of task, so no other pair comes.
    match (parts, projection) {
        (TaskParts::Grid(grid), Projection::Squares { side, .. }) => squares::scopes(
            alloc, grid, *side,
        ),
        (TaskParts::Grid(_), _) => unreachable!(),
        (TaskParts::Tiles(tiles), projection) => tiles::scopes(alloc, tiles, projection),
        (TaskParts::Strips(strips), Projection::Atoms(atoms)) => changes::scopes(
            alloc, strips, atoms,
        ),
        (TaskParts::Strips(_), _) => unreachable!(),
    }
}
