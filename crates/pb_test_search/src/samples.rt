//! Whole searches of small tasks, and what the tests see of them.
use crate::patterns::{spent_once, spent_twice};
use pb_estimate::Choice;
use pb_lease::LeaseGraph;
use pb_machine::{End, Event, STANDARD, Settings};
use pb_outside::{Gate, OpenGate};
use pb_search::search;
use pb_task::{Board, Cells, Class, GridParts, Swamp, Task, TilesParts};
use pb_test_examples::{corridor, near_board, open_square, other_ring, solved_board};
use std::alloc::{AllocError, Global};
use std::process::Abort;
use std::sync::{Arc, Wait};
use std::thread::Threads;

pub(crate) const ONE_WORKER: Settings = STANDARD;

// The tasks that are searched.
#[derive(Clone, Copy)]
pub(crate) enum Sample {
    Solved,
    OtherRing,
    Square,
    NearBoard,
    // It has 3 by 3 cells. The start reaches 181,440 boards.
    BoardWithoutPlan,
    Corridor,
    // A narrow way from the start to the left, and one to a hall on the right. There is no plan.
    Hall,
    SpentOnce,
    SpentTwice,
}

// Whether a cell of the map with the hall is land.
fn is_land(x: u32, y: u32) -> bool {
    x < 1250 && (x >= 1000 || y == 125) || x == 1999 && y == 125
}

// A map of 2,000 by 250 cells, in blocks of 250 by 250 cells. Block 4 is all land, and blocks 0 to 3
// are land in one row. The others are blocked but for the goal, so no way leads to it.
fn hall<R: Abort>(rt: &R, alloc: Global, width: u32, height: u32) -> Result<Task, AllocError> {
    let mut cells = Vec::new(alloc);
    for y in 0..height {
        for x in 0..width {
            cells.push(if is_land(x, y) {
                Class::Land
            } else {
                Class::Blocked
            })?;
        }
    }
    let count = cells.len();
    if width == 0 || width > 2048 || height == 0 || height > 2048 {
        panic!(rt; "a side of the map is out of range")
    }
    if count != width as usize * height as usize {
        panic!(rt; "the map has another number of cells")
    }
    let parts = GridParts {
        width,
        height,
        cells: Cells::of(cells),
        swamp: Swamp::none(count),
        start: (740, 125),
        goal: (1999, 125),
    };
    match (parts.class_at(740, 125), parts.class_at(1999, 125)) {
        (Class::Land, Class::Land) => Ok(Task::of_grid(parts)),
        _ => panic!(rt; "the start or the goal is blocked"),
    }
}

fn task_of<R: Abort>(rt: &R, alloc: Global, sample: Sample) -> Result<Task, AllocError> {
    match sample {
        Sample::Solved => solved_board(alloc),
        Sample::OtherRing => other_ring(alloc),
        Sample::Square => open_square(alloc),
        Sample::NearBoard => near_board(alloc),
        Sample::BoardWithoutPlan => Ok(Task::of_tiles(TilesParts {
            rows: 3,
            cols: 3,
            start: Board::of(vec![in alloc; 0, 2, 1, 3, 4, 5, 6, 7, 8]?),
            goal: Board::of(vec![in alloc; 0, 1, 2, 3, 4, 5, 6, 7, 8]?),
        })),
        Sample::Corridor => corridor(alloc),
        Sample::Hall => hall(rt, alloc, 2000, 250),
        Sample::SpentOnce => spent_once(alloc),
        Sample::SpentTwice => spent_twice(alloc),
    }
}

// The graph after a search. The function has no clauses, so its callers' proofs don't hold those of
// the search.
fn searched<R: Threads + Wait + Sync + Abort, G: Gate>(
    rt: &R,
    alloc: Global,
    sample: Sample,
    settings: Settings,
    gate: &G,
) -> Result<LeaseGraph, AllocError> {
    let Settings {
        workers,
        num,
        den,
        budget,
        lot,
        wish,
        pattern,
        ..
    } = settings;
    if workers == 0 || workers > 64 || den == 0 || num < den || num > 1000 {
        panic!(rt; "the workers or the weight are out of range")
    }
    if budget == 0 || budget > 1 << 40 || lot == 0 || lot > 1 << 20 || wish < 16 || wish > 4096 {
        panic!(rt; "the budget, the lot or the blocks are out of range")
    }
    if pattern > 12 {
        panic!(rt; "the pattern number is out of range")
    }
    let task = Arc::new(alloc, task_of(rt, alloc, sample)?)?;
    search(rt, alloc, &task, Choice::with(pattern), settings, gate)
}

// How a search ended, and what the events of its journal add up to.
#[derive(Drop)]
pub(crate) struct Summary {
    pub(crate) end: Option<End>,
    pub(crate) incumbent: Option<u64>,
    pub(crate) leases: u64,
    pub(crate) renewals: u64,
    pub(crate) releases: u64,
    // How often a block was marked hot, and how often a mark was taken away.
    pub(crate) marks: u64,
    pub(crate) colds: u64,
    // How often a worker gave a lease back and had another one with no event between.
    pub(crate) switches: u64,
    // Sign-offs that report want of memory aren't counted.
    pub(crate) sign_offs: u64,
    pub(crate) expansions: u64,
}

// How often a release and a lease of the same worker stand side by side.
fn switches_in(journal: &[Event]) -> u64 {
    let mut switches = 0u64;
    let mut given = None;
    for event in journal {
        if let Event::Lease { worker, .. } = event
            && given == Some(*worker)
        {
            switches = switches.wrapping_add(1);
        }
        given = match event {
            Event::Release { worker, .. } => Some(*worker),
            _ => None,
        };
    }
    switches
}

fn summary_of(graph: &LeaseGraph) -> Summary {
    let (mut leases, mut renewals, mut releases) = (0u64, 0u64, 0u64);
    let (mut marks, mut colds, mut sign_offs, mut expansions) = (0u64, 0u64, 0u64, 0u64);
    for event in graph.journal() {
        match event {
            Event::Lease { .. } => leases = leases.wrapping_add(1),
            Event::Renew { used, .. } => {
                renewals = renewals.wrapping_add(1);
                expansions = expansions.wrapping_add(*used);
            }
            Event::Hot { .. } => marks = marks.wrapping_add(1),
            Event::Release { used, .. } => {
                releases = releases.wrapping_add(1);
                expansions = expansions.wrapping_add(*used);
            }
            Event::Off { memory: false, .. } => sign_offs = sign_offs.wrapping_add(1),
            Event::Cold { .. } => colds = colds.wrapping_add(1),
            Event::Off { .. } | Event::Ended(_) => {}
        }
    }
    Summary {
        end: graph.end(),
        incumbent: graph.incumbent(),
        leases,
        renewals,
        releases,
        marks,
        colds,
        switches: switches_in(graph.journal()),
        sign_offs,
        expansions,
    }
}

pub(crate) fn search_sample<R: Threads + Wait + Sync + Abort, G: Gate>(
    rt: &R,
    alloc: Global,
    sample: Sample,
    settings: Settings,
    gate: &G,
) -> Result<Summary, AllocError> {
    let graph = searched(rt, alloc, sample, settings, gate)?;
    Ok(summary_of(&graph))
}

// Whether a search by one worker has exactly this journal, and this incumbent at its end.
pub(crate) fn has_journal<R: Threads + Wait + Sync + Abort>(
    rt: &R,
    alloc: Global,
    sample: Sample,
    journal: &[Event],
    incumbent: Option<u64>,
) -> Result<bool, AllocError> {
    let graph = searched(rt, alloc, sample, ONE_WORKER, &OpenGate)?;
    Ok(graph.journal() == journal && graph.incumbent() == incumbent)
}
