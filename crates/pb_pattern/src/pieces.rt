//! Projected tasks of sliding tiles: the images are the cells of the blank and of a few tiles.
ghost use Rattle.std.specs.Prelude.{◌≡◌, ◌+◌, ◌*◌, ◌<◌, ◌≤◌, ◌^◌, ◌==◌, IsTrue, IfSome, map, nat_lt, slice_index};
ghost use Rattle.std.specs.List.{list_all};
ghost use Rattle.pb_task.specs.Tiles.{board_state, board_of, neighbour};
ghost use Rattle.pb_pattern.specs.Projected.{cell_after, is_placing};
ghost use Rattle.pb_pattern.specs.Costs.{IsTable, Looks, IsFrom, IsAnyStep};
ghost use Rattle.pb_pattern.specs.Graphs.{board_space, IsPieces};

use crate::costs::relax;
use pb_task::cell_beside;

// How many actions a board has: up, down, left and right.
const DIRECTIONS: u32 = 4;

/// The blank and a few tiles on a board. The cells of these pieces are a number of four bits each,
/// the blank's first.
#[derive(Clone, Copy, Drop)]
pub struct Pieces {
    /// How many rows the board has: 2 to 4.
    pub rows: u32,
    /// How many columns it has: 2 to 4.
    pub cols: u32,
    /// How many pieces there are: 1 to 4.
    pub count: u32,
    /// The pieces' cells on the board that a plan starts from.
    pub start: u32,
    /// Their cells on the goal board.
    pub goal: u32,
}

// Whether each of some pieces is in one of the first cells.
fn are_cells(cells: u32, count: u32, placing: u32) -> bool
    ensures { result ≡ list_all (λ cell. nat_lt cell cells) (board_of count placing) }
{
    if count == 0 {
        true
    } else {
        placing % 16 < cells && are_cells(cells, count - 1, placing / 16)
    }
}

// The cell of a piece after the blank moved from one cell to another.
fn cell_after(blank: u32, other: u32, cell: u32) -> u32
    ensures { result ≡ cell_after blank other cell }
{
    if cell == blank {
        other
    } else if cell == other {
        blank
    } else {
        cell
    }
}

// The cells of some pieces after the blank moved from one cell to another.
fn placing_after(blank: u32, other: u32, count: u32, placing: u32) -> u32
    requires blank { blank < 16 }
    requires other { other < 16 }
    requires count { count ≤ 4 }
    ensures after { result ≡ board_state (map (cell_after blank other) (board_of count placing)) }
    ensures small { result < 16 ^ count }
{
    if count == 0 {
        0
    } else {
        let cell = cell_after(blank, other, placing % 16);
        cell + 16 * placing_after(blank, other, count - 1, placing / 16)
    }
}

impl Pieces {
    /// How many images there are.
    pub fn images(&self) -> u32
        requires { IsPieces self.now }
        ensures { result ≡ 16 ^ self.now.count }
    {
        1 << (4 * self.count)
    }

    /// Whether an image is a goal.
    pub fn is_goal(&self, image: u32) -> bool
        ensures { result ≡ (image == self.now.goal) }
    {
        image == self.goal
    }

    // The cell beside a cell in an action's direction, if the board has one.
    fn neighbour(&self, cell: u32, action: u32) -> Option<u32>
        requires pieces { IsPieces self.now }
        requires cell { cell < 16 }
        ensures cell { result ≡ neighbour self.now.rows self.now.cols cell action }
        ensures within { IfSome result (λ to. to < 16) }
    {
        let (x, y) = cell_beside(cell % self.cols, cell / self.cols, action)?;
        if x < self.cols && y < self.rows {
            Some(y * self.cols + x)
        } else {
            None
        }
    }

    /// The step from an image by an action.
    pub fn step(&self, image: u32, action: u32) -> Option<(u32, u64)>
        requires pieces { IsPieces self.now }
        requires image { image < 16 ^ self.now.count }
        ensures { result ≡ (board_space self.now).step image action }
    {
        // Four bits can also name a cell that a small board lacks. From such an image no step
        // leads.
        if !are_cells(self.rows * self.cols, self.count, image) {
            return None;
        }
        let blank = image % 16;
        let other = self.neighbour(blank, action)?;
        Some((placing_after(blank, other, self.count, image), 1))
    }

    // Looks at each step from an image.
    fn look_from(&self, costs: &mut [u64], image: u32) -> bool
        requires pieces { IsPieces self.now }
        requires table { IsTable (board_space self.now) (16 ^ self.now.count) costs.old }
        requires image { image < 16 ^ self.now.count }
        ensures { Looks (board_space self.now) (16 ^ self.now.count) (IsFrom image) costs.old
            costs.new result }
    {
        let mut changed = false;
        for action in 0..DIRECTIONS {
            let step = self.step(image, action);
            let lower = relax(costs, image, step);
            changed = changed | lower;
        }
        changed
    }

    /// Looks at each step once: whether one made an image cheaper.
    pub fn look(&self, costs: &mut [u64]) -> bool
        requires pieces { IsPieces self.now }
        requires table { IsTable (board_space self.now) (16 ^ self.now.count) costs.old }
        ensures { Looks (board_space self.now) (16 ^ self.now.count) IsAnyStep costs.old costs.new
            result }
    {
        let mut changed = false;
        for image in 0..self.images() {
            let lower = self.look_from(costs, image);
            changed = changed | lower;
        }
        changed
    }

    /// Looks at the steps that lead into an image.
    pub fn look_into(&self, costs: &mut [u64], image: u32)
        requires pieces { IsPieces self.now }
        requires image { image < 16 ^ self.now.count }
        requires table { IsTable (board_space self.now) (16 ^ self.now.count) costs.old }
        ensures { IsTable (board_space self.now) (16 ^ self.now.count) costs.new }
    {
        // A slide is undone by the opposite slide. So the images before this one are those that its
        // own steps lead to.
        for action in 0..DIRECTIONS {
            if let Some((before, _)) = self.step(image, action) {
                self.look_from(costs, before);
            }
        }
    }
}
