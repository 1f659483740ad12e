//! Tests of abstract graphs: scopes, interference and the blocks of states.
ghost use Rattle.std.specs.Prelude.{IfOk};
ghost use Rattle.pb_abstract.specs.Graph.{IsGraphOf};

use crate::atoms::{added_alone, six_atoms, unchanged};
use pb_abstract::AbsGraph;
use pb_packed::Packed;
use pb_task::Task;
use pb_test_examples::{corridor, near_board, one_step_board, open_square, shore};
use std::alloc::{AllocError, Global};
use std::test::Fail;

// A task by what it is called in the rows of a test.
#[derive(Clone, Copy)]
enum Example {
    Square,
    Shore,
    Corridor,
    Board,
    Near,
    SixAtoms,
    Unchanged,
    Alone,
}

fn task_of(alloc: Global, example: Example) -> Result<Task, AllocError> {
    match example {
        Example::Square => open_square(alloc),
        Example::Shore => shore(alloc),
        Example::Corridor => corridor(alloc),
        Example::Board => one_step_board(alloc),
        Example::Near => near_board(alloc),
        Example::SixAtoms => six_atoms(alloc),
        Example::Unchanged => Ok(unchanged(alloc)),
        Example::Alone => added_alone(alloc, 14),
    }
}

// The graph of a task with a wish from 16 to 4,096.
fn graph_of(alloc: Global, task: &Task, wish: u32) -> Result<AbsGraph, AllocError>
    ensures { IfOk result (IsGraphOf task.now) }
{
    AbsGraph::of(alloc, task, wish.max(16).min(4096))
}

// The scope of a block, where there is one of this number.
fn scope(abstraction: &AbsGraph, block: u32) -> &[u32] {
    if block < abstraction.count() {
        abstraction.scope(block)
    } else {
        &[]
    }
}

// The interference of a block, where there is one of this number.
fn interference(abstraction: &AbsGraph, block: u32) -> &[u32] {
    if block < abstraction.count() {
        abstraction.interference(block)
    } else {
        &[]
    }
}

// Adds a line: how many blocks a task has, and a block's number and its scope, or its interference.
fn add_list(
    alloc: Global,
    text: &mut String,
    row: (Example, u32, u32),
    is_scope: bool,
) -> Result<(), AllocError> {
    let (example, wish, block) = row;
    let task = task_of(alloc, example)?;
    let abstraction = graph_of(alloc, &task, wish)?;
    let list = if is_scope {
        scope(&abstraction, block)
    } else {
        interference(&abstraction, block)
    };
    let line = format!(in alloc; "of {}, {block}: {list:?}\n", abstraction.count())?;
    text.push_str(line.as_str())?;
    Ok(())
}

// The block of a state, if it is one.
fn block(abstraction: &AbsGraph, task: &Task, state: &Packed) -> Option<u32>
    requires { IsGraphOf task.now abstraction.now }
{
    if task.is_state(state) {
        Some(abstraction.block(task, state))
    } else {
        None
    }
}

// Only values that threads may share and hand on are taken.
fn crosses_threads<T: Send + Sync>(value: &T) -> &T {
    value
}

// How many blocks a task has, and the block of the state whose lowest bits are these, if it is one.
fn block_of(
    alloc: Global,
    example: Example,
    wish: u32,
    bits: u64,
) -> Result<(u32, Option<u32>), AllocError> {
    let task = task_of(alloc, example)?;
    let abstraction = graph_of(alloc, &task, wish)?;
    let state = Packed::zero().with_bits(0, 64, bits);
    let count = crosses_threads(&abstraction).count();
    Ok((count, block(&abstraction, &task, &state)))
}

const SCOPES: &str = "of 9, 4: [1, 3, 4, 5, 7]
of 9, 8: [5, 7, 8]
of 9, 4: [1, 3, 4, 5, 7]
of 9, 8: [5, 7, 8]
of 2, 0: [0]
of 2, 1: [1]
of 27, 4: [4]
of 27, 13: [13]
of 27, 20: [19, 20, 21]
of 27, 24: [23, 24, 25]
of 10, 2: [2]
of 10, 7: [6, 7, 8]
of 10, 9: [8, 9]
of 24, 6: [0, 6, 19]
of 24, 23: [9, 17, 23]
of 12, 3: [0, 3, 9]
of 72, 64: [40, 56, 64]
of 72, 8: [0, 8, 16, 32]
of 9, 4: [1, 3, 4, 5, 7]
of 504, 449: [281, 393, 449]
of 16, 0: [0, 1, 2]
of 16, 2: [0, 2, 3, 6]
of 16, 4: [4, 5, 6, 8]
of 16, 15: [7, 11, 13, 15]
of 32, 0: [0, 1]
of 32, 2: [2, 3, 6, 16]
of 32, 0: [0, 1]
of 32, 2: [2, 3, 6, 16]
of 1, 0: [0]
of 4096, 4092: [4092, 4093, 4094]
of 4096, 4095: [4095]
";

// Each row has a wish and a block, whose scope stands in a line of the text.
//
// Each cell of a small map is a block. Land and water aren't joined, and scopes go along open
// cells. With at most 16 blocks the squares of the 9 by 3 map have 2 by 2 cells: 5 by 2 of them.
// The blank takes tiles along between blocks, and projections of boards are as fine as was wished
// for. Scopes of sets of atoms are those of the tracked ones: 5, 2, 3 and 4, from the least bit on,
// or all but atom 0, which never changes. Without actions there is one block, and no more than
// twelve atoms are tracked.
#[test]
fn scopes_are_as_counted(rt: HostRuntime) -> Result<(), Fail> {
    let mut text = String::new(rt.alloc());
    for row in [
        (Example::Square, 16, 4),
        (Example::Square, 16, 8),
        (Example::Square, 256, 4),
        (Example::Square, 256, 8),
        (Example::Shore, 256, 0),
        (Example::Shore, 256, 1),
        (Example::Corridor, 256, 4),
        (Example::Corridor, 256, 13),
        (Example::Corridor, 256, 20),
        (Example::Corridor, 256, 24),
        (Example::Corridor, 16, 2),
        (Example::Corridor, 16, 7),
        (Example::Corridor, 16, 9),
        (Example::Board, 256, 6),
        (Example::Board, 256, 23),
        (Example::Board, 23, 3),
        (Example::Near, 256, 64),
        (Example::Near, 256, 8),
        (Example::Near, 16, 4),
        (Example::Near, 4096, 449),
        (Example::SixAtoms, 16, 0),
        (Example::SixAtoms, 16, 2),
        (Example::SixAtoms, 16, 4),
        (Example::SixAtoms, 16, 15),
        (Example::SixAtoms, 32, 0),
        (Example::SixAtoms, 32, 2),
        (Example::SixAtoms, 4096, 0),
        (Example::SixAtoms, 4096, 2),
        (Example::Unchanged, 256, 0),
        (Example::Alone, 4096, 4092),
        (Example::Alone, 4096, 4095),
    ] {
        add_list(rt.alloc(), &mut text, row, true)?;
    }
    assert_eq!(rt; text.as_str(), SCOPES);
    Ok(())
}

const INTERFERENCE: &str = "of 9, 4: [0, 1, 2, 3, 5, 6, 7, 8]
of 9, 0: [1, 2, 3, 4, 6]
of 9, 4: [0, 1, 2, 3, 5, 6, 7, 8]
of 9, 0: [1, 2, 3, 4, 6]
of 2, 0: []
of 27, 4: []
of 27, 22: [20, 21, 23, 24]
of 24, 6: [0, 13, 14, 19]
of 72, 8: [0, 16, 24, 25, 32, 40, 56]
of 504, 449: [115, 225, 281, 337, 393]
of 16, 0: [1, 2, 3, 8, 9]
of 16, 4: [2, 5, 6, 7, 8, 10, 12, 13]
of 16, 8: [0, 1, 3, 4, 6, 9, 10, 12, 14]
of 32, 8: [0, 1, 4, 9, 12]
of 32, 8: [0, 1, 4, 9, 12]
of 1, 0: []
";

// The same with the block's interference.
#[test]
fn interference_is_as_counted(rt: HostRuntime) -> Result<(), Fail> {
    let mut text = String::new(rt.alloc());
    for row in [
        (Example::Square, 16, 4),
        (Example::Square, 16, 0),
        (Example::Square, 256, 4),
        (Example::Square, 256, 0),
        (Example::Shore, 256, 0),
        (Example::Corridor, 256, 4),
        (Example::Corridor, 256, 22),
        (Example::Board, 256, 6),
        (Example::Near, 256, 8),
        (Example::Near, 4096, 449),
        (Example::SixAtoms, 16, 0),
        (Example::SixAtoms, 16, 4),
        (Example::SixAtoms, 16, 8),
        (Example::SixAtoms, 32, 8),
        (Example::SixAtoms, 4096, 8),
        (Example::Unchanged, 256, 0),
    ] {
        add_list(rt.alloc(), &mut text, row, false)?;
    }
    assert_eq!(rt; text.as_str(), INTERFERENCE);
    Ok(())
}

// Each row has a wish, how many blocks there are then, and the bits of a state with its block.
//
// The states of the 9 by 3 map are the cell in column 7 of the last row, and a wall. Boards are
// written from their last cell to their first: 1 0 / 2 3, then 1 4 2 / 3 5 8 / 6 7 0, and 1 0 4 / 3
// 5 2 / 6 8 7. Of six atoms those that the fewest actions change are tracked, and the least of
// several comes first.
#[test]
fn states_have_their_blocks(rt: HostRuntime) -> Result<(), Fail> {
    for (example, wish, count, bits, wanted) in [
        (Example::Corridor, 16, 10, 0x1007, Some(8)),
        (Example::Corridor, 16, 10, 0, None),
        (Example::Board, 256, 24, 0x3201, Some(6)),
        (Example::Board, 23, 12, 0x3201, Some(3)),
        (Example::Board, 16, 12, 0x3201, Some(3)),
        (Example::Near, 16, 9, 0x076853241, Some(8)),
        (Example::Near, 71, 9, 0x076853241, Some(8)),
        (Example::Near, 256, 72, 0x076853241, Some(64)),
        (Example::Near, 256, 72, 0x786253401, Some(8)),
        (Example::Near, 503, 72, 0x076853241, Some(64)),
        (Example::Near, 504, 504, 0x076853241, Some(449)),
        (Example::SixAtoms, 16, 16, 0b001010, Some(4)),
        (Example::SixAtoms, 16, 16, 0b100101, Some(3)),
        (Example::SixAtoms, 16, 16, 0b010000, Some(8)),
        (Example::SixAtoms, 16, 16, 0b111111, Some(15)),
        (Example::SixAtoms, 16, 16, 0b1000000, None),
        (Example::SixAtoms, 31, 16, 0b001010, Some(4)),
        (Example::SixAtoms, 31, 16, 0b100101, Some(3)),
        (Example::SixAtoms, 31, 16, 0b010000, Some(8)),
        (Example::SixAtoms, 31, 16, 0b111111, Some(15)),
        (Example::SixAtoms, 31, 16, 0b1000000, None),
        (Example::SixAtoms, 32, 32, 0b000011, Some(16)),
        (Example::SixAtoms, 32, 32, 0b000010, Some(16)),
        (Example::SixAtoms, 4096, 32, 0b000011, Some(16)),
        (Example::SixAtoms, 4096, 32, 0b000010, Some(16)),
        (Example::Unchanged, 256, 1, 0b101, Some(0)),
        (
            Example::Alone,
            4096,
            4096,
            0b11_1000_0000_0001,
            Some(0b1000_0000_0001),
        ),
    ] {
        let found = block_of(rt.alloc(), example, wish, bits)?;
        assert_eq!(rt; found, (count, wanted), "{bits}");
    }
    Ok(())
}
