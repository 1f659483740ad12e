//! What a task of each kind is made of: maps, boards, and STRIPS tasks with their ground actions.
ghost use Rattle.std.specs.Prelude.{◌≡◌, false, replicate, slice_get, string_bytes};

use crate::actions::Actions;
use crate::grounding::Grounding;
use pb_packed::Packed;
use std::marker::Model;

/// What a cell of a map is.
#[derive(Clone, Copy, Debug, PartialEq, Eq)]
pub enum Class {
    /// Passable, from land.
    Land,
    /// Passable, from water.
    Water,
    /// Not passable.
    Blocked,
}

/// The classes of a map's cells, row by row from the upper left cell on.
#[derive(Drop)]
pub struct Cells {
    classes: Vec<Class>,
}

impl Model for Cells {
    ghost use Rattle.std.specs.Prelude.{List};
    ghost use Rattle.pb_task.specs.declared.parts.Class.{Class};

    ghost Value = { List Class };

    ghost view = { λ c. c.classes.items };
}

impl Cells {
    /// The cells that have these classes.
    pub fn of(classes: Vec<Class>) -> Cells
        ensures { result ≡ classes.items }
    {
        Cells { classes }
    }

    /// The class of the cell at this place, counted from 0. None if there are fewer cells.
    #[inline]
    pub fn get(&self, at: usize) -> Option<Class>
        ensures { result ≡ slice_get self.now at }
    {
        self.classes.get(at).copied()
    }
}

// Which cells are swamp. A map without swamp keeps no marks: there may be four million cells.
#[derive(Drop)]
enum SwampMarks {
    // A mark for each cell.
    Marks(Vec<bool>),
    // None of so many cells is swamp.
    NoneOf(usize),
}

/// Which of a map's cells cost 2 to enter, row by row from the upper left cell on.
#[derive(Drop)]
pub struct Swamp {
    marks: SwampMarks,
}

impl Model for Swamp {
    ghost use Rattle.std.specs.Prelude.{Bool, List};
    ghost use Rattle.pb_task.specs.Swamps.{marks_of};

    ghost Value = { List Bool };

    ghost view = { λ s. marks_of s.marks };
}

impl Swamp {
    /// The swamp that has these marks, one for each cell: `true` is swamp.
    pub fn of(marks: Vec<bool>) -> Swamp
        ensures { result ≡ marks.items }
    {
        Swamp {
            marks: SwampMarks::Marks(marks),
        }
    }

    /// No swamp among so many cells. It takes no memory.
    pub fn none(count: usize) -> Swamp
        ensures { result ≡ replicate count false }
    {
        Swamp {
            marks: SwampMarks::NoneOf(count),
        }
    }

    /// Whether the cell at this place, counted from 0, is swamp. None if there are fewer cells.
    #[inline]
    pub fn get(&self, at: usize) -> Option<bool>
        ensures { result ≡ slice_get self.now at }
    {
        match &self.marks {
            SwampMarks::Marks(marks) => marks.get(at).copied(),
            SwampMarks::NoneOf(count) if at < *count => Some(false),
            SwampMarks::NoneOf(_) => None,
        }
    }
}

/// A grid: a map, and a start and a goal on it. Cells are named by their column and row, (0, 0)
/// being the upper left one.
#[derive(Drop)]
pub struct GridParts {
    /// How many columns the map has.
    pub width: u32,
    /// How many rows the map has.
    pub height: u32,
    /// The classes of its cells.
    pub cells: Cells,
    /// Which of its cells are swamp, which costs 2 to enter: as many marks as cells.
    pub swamp: Swamp,
    /// The cell that a plan starts from.
    pub start: (u32, u32),
    /// The cell that a plan leads to.
    pub goal: (u32, u32),
}

/// The numbers in the cells of a board, row by row from the upper left cell on. 0 is the blank.
#[derive(Drop)]
pub struct Board {
    numbers: Vec<u8>,
}

impl Model for Board {
    ghost use Rattle.std.specs.Prelude.{ℕ, List};

    ghost Value = { List ℕ };

    ghost view = { λ b. b.numbers.items };
}

impl Board {
    /// The board that has these numbers.
    pub fn of(numbers: Vec<u8>) -> Board
        ensures { result ≡ numbers.items }
    {
        Board { numbers }
    }

    /// The numbers in its cells.
    pub fn numbers(&self) -> &[u8]
        ensures { result.now ≡ self.now }
    {
        self.numbers.as_slice()
    }
}

/// Sliding tiles: a board to start from and a goal board. Each has the numbers 0 to n - 1 once, n
/// being the number of cells.
#[derive(Drop)]
pub struct TilesParts {
    /// How many rows a board has: 2 to 4.
    pub rows: u32,
    /// How many columns a board has: 2 to 4.
    pub cols: u32,
    /// The board that a plan starts from.
    pub start: Board,
    /// The board that a plan leads to.
    pub goal: Board,
}

/// The name of a ground action, as a plan prints it.
#[derive(Drop)]
pub struct ActionName {
    text: String,
}

impl Model for ActionName {
    ghost use Rattle.std.specs.Prelude.{ℕ, List, string_bytes};

    ghost Value = { List ℕ };

    ghost view = { λ n. string_bytes n.text };
}

impl ActionName {
    /// The name that has this text.
    pub fn of(text: String) -> ActionName
        ensures { result ≡ string_bytes text }
    {
        ActionName { text }
    }

    /// Its text.
    pub fn as_str(&self) -> &str
        ensures { result.now ≡ self.now }
    {
        self.text.as_str()
    }
}

/// A ground action of STRIPS: an action whose parameters are objects. A set of ground atoms is a
/// number: the bit of each atom in the set is 1.
#[derive(Drop)]
pub struct GroundAction {
    /// The action's name in a plan, as `(name object ..)` in lower case.
    pub name: ActionName,
    /// The atoms that must hold before the action.
    pub needs: Packed,
    /// The atoms that hold after the action.
    pub adds: Packed,
    /// The atoms that the action deletes; those that it also adds hold after it.
    pub deletes: Packed,
    /// The action's cost: 1 to 2^20.
    pub cost: u64,
}

/// A STRIPS task over numbered ground atoms: atom i is bit i of a set.
#[derive(Drop)]
pub struct StripsParts {
    /// How many ground atoms there are: at most `MOST_ATOMS`.
    pub atoms: u32,
    /// The ground actions: at most 65,536.
    pub actions: Actions,
    /// The atoms that hold at first.
    pub start: Packed,
    /// The atoms that must hold in a goal state.
    pub goal: Packed,
    /// Whether the goal also asks for a fact that never holds, so that no state is a goal state.
    pub never: bool,
    /// Which ground atoms and actions these are.
    pub grounding: Grounding,
}

/// What a task of each kind is made of.
#[derive(Drop)]
pub enum TaskParts {
    /// A way is sought on a map.
    Grid(GridParts),
    /// Tiles are slid on a board.
    Tiles(TilesParts),
    /// Ground actions change which ground atoms hold.
    Strips(StripsParts),
}
