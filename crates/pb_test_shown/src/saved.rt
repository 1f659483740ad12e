//! Certificates byte for byte, and plans that are read off the rows of one store or of two.
ghost use Rattle.std.specs.Prelude.{IfOk, IfSome};
ghost use Rattle.pb_estimate.specs.Spelling.{IsSpelling};

use crate::halves::Halves;
use pb_cert::{Certificate, Plan, trace};
use pb_estimate::{Choice, Spelling, Stated, Version};
use pb_lists::{Bundle, Store};
use pb_model::{Estimate, Status};
use pb_outside::{Failed, MemShelf, Memory};
use pb_packed::Packed;
use pb_table_lines::{read_tables, tables_are_read_as_written};
use pb_task::{Grounding, Kind, Task};
use pb_test_examples::two_cells;
use std::alloc::{AllocError, Global};
use std::sync::Arc;
use std::test::Fail;

// What is saved of a search on a map of 3 by 3 free cells, from the upper left to the lower right
// cell, whose estimates are 0: in version 2, with six digits a state.
const OPEN_SQUARE: &str = "pbnf-certificate 2
kind grid
width 6
weight 1 1
plan 4
3
3
1
1
cost 4
rows 9
000000 0 closed
000001 1 closed
000002 2 closed
000800 1 closed
000801 2 closed
000802 3 closed
001000 2 closed
001001 3 closed
001002 4 cut
end
";

// The same if the middle row is blocked: in version 1, with 64 digits a state.
const WALL: &str = "pbnf-certificate 1
kind grid
weight 1 1
none
rows 3
0000000000000000000000000000000000000000000000000000000000000000 0 closed
0000000000000000000000000000000000000000000000000000000000000001 1 closed
0000000000000000000000000000000000000000000000000000000000000002 2 closed
end
";

// A table of the atoms 0 and 1 and a trap, with two digits for an image.
const TABLES: &[u8] = b"estimate tables 1 1 1
table 03 2
01 3
02 0
trap 07 1
04
";

// What is saved in version 4 of one closed row, if the choice of an estimate has these tables.
const STATED: &str = "pbnf-certificate 4
kind strips
width 2
grounding all
estimate tables 1 1 1
table 03 2
01 3
02 0
trap 07 1
04
weight 1 1
none
rows 1
01 0 closed
end
";

// Gives a state a row with this g and status, if it has none yet.
fn add(bundle: &mut Bundle, state: Packed, g: u64, status: Status) -> Result<(), AllocError> {
    bundle.offer(state, g, Estimate::Cost(0), None, 0)?;
    let Some(row) = bundle.row(&state) else {
        return Ok(());
    };
    if row.status != Status::Opened {
        return Ok(());
    }
    match status {
        Status::Opened => {}
        Status::Closed => bundle.close_row(&state),
        Status::Cut => bundle.cut_row(&state),
    }
    Ok(())
}

// A bundle with rows of these states, by their lowest 32 bits.
fn bundle_of(alloc: Global, rows: &[(u32, u64, Status)]) -> Result<Bundle, AllocError> {
    let mut bundle = Bundle::new(alloc, 1, 1)?;
    // The label is the loop's name in its proof.
    'rows: for (state, g, status) in rows {
        let state = Packed::zero().with_bits(0, 32, u64::from(*state));
        add(&mut bundle, state, *g, *status)?;
    }
    Ok(bundle)
}

// How a map's certificate of version 1 is spelled.
fn version_1() -> Spelling
    ensures { IsSpelling result }
{
    Spelling {
        kind: Kind::Grid,
        version: Version::One,
        width: 64,
        stated: Stated {
            grounding: Grounding::All,
            choice: Choice::plain(),
        },
    }
}

// How one of version 2 is spelled, with six digits a state.
fn version_2() -> Spelling
    ensures { IsSpelling result }
{
    Spelling {
        kind: Kind::Grid,
        version: Version::Two,
        width: 6,
        stated: Stated {
            grounding: Grounding::All,
            choice: Choice::plain(),
        },
    }
}

// How one of version 4 is spelled that states tables, with two digits a state. None if their text
// states no tables.
fn version_4(alloc: Global) -> Result<Option<Spelling>, AllocError>
    ensures { IfOk result (λ spelling. IfSome spelling IsSpelling) }
{
    // What is read has the digits that its lines have.
    tables_are_read_as_written();
    match read_tables(alloc, 2, TABLES) {
        Ok(tables) => Ok(Some(Spelling {
            kind: Kind::Strips,
            version: Version::Four,
            width: 2,
            stated: Stated {
                grounding: Grounding::All,
                choice: Choice::of_tables(Arc::new(alloc, tables)?),
            },
        })),
        Err(_) => Ok(None),
    }
}

// The certificate of a store, spelled so. It has no clause that says what it is, so a caller's
// proof stays short.
fn certificate_of<'a, S: Store>(
    alloc: Global,
    spelling: Spelling,
    plan: Option<Plan>,
    store: &'a S,
) -> Result<Certificate<'a>, AllocError>
    requires whole { S.is_whole store.now }
    requires spelling { IsSpelling spelling }
{
    Certificate::of(alloc, spelling, plan, store)
}

// A shelf with room for so many bytes.
fn shelf_for(alloc: Global, room: u128) -> Result<MemShelf, Memory> {
    let mut shelf = MemShelf::new(alloc)?;
    shelf.reserve("c", room)?;
    Ok(shelf)
}

fn write(certificate: &Certificate<'_>, shelf: &mut MemShelf) -> Result<(), Failed> {
    certificate.write_to(shelf, "c")
}

// The bytes of the file, if it is there.
fn file(alloc: Global, shelf: &MemShelf) -> Result<Option<Vec<u8>>, AllocError> {
    if shelf.has("c") {
        let bytes = shelf.file("c").to_vec(alloc)?;
        Ok(Some(bytes))
    } else {
        Ok(None)
    }
}

// What is left of a certificate that is saved.
#[derive(Drop)]
struct Saved {
    has_plan: bool,
    length: u128,
    answer: Result<(), Failed>,
    file: Option<Vec<u8>>,
}

// Saves a certificate on a shelf with room for it.
fn save(alloc: Global, certificate: &Certificate<'_>) -> Result<Saved, Memory> {
    let length = certificate.len();
    let mut shelf = shelf_for(alloc, length)?;
    let answer = write(certificate, &mut shelf);
    let file = file(alloc, &shelf)?;
    Ok(Saved {
        has_plan: certificate.plan().is_some(),
        length,
        answer,
        file,
    })
}

// The certificate of one bundle, saved.
fn save_one(
    alloc: Global,
    spelling: Spelling,
    rows: &[(u32, u64, Status)],
    plan: Option<Plan>,
) -> Result<Saved, Memory>
    requires { IsSpelling spelling }
{
    let bundle = bundle_of(alloc, rows)?;
    let certificate = certificate_of(alloc, spelling, plan, &bundle)?;
    save(alloc, &certificate)
}

// The certificate of two parts, saved in version 2 with six digits a state.
fn save_two(
    alloc: Global,
    first: &[(u32, u64, Status)],
    second: &[(u32, u64, Status)],
    plan: Option<Plan>,
) -> Result<Saved, Memory> {
    let store = Halves {
        start: Packed::zero(),
        first: bundle_of(alloc, first)?,
        second: bundle_of(alloc, second)?,
    };
    let certificate = certificate_of(alloc, version_2(), plan, &store)?;
    save(alloc, &certificate)
}

// Whether all is saved, and is this text.
fn is_whole(saved: &Saved, has_plan: bool, text: &str) -> bool {
    let bytes = match &saved.file {
        Some(bytes) => bytes.as_slice(),
        None => b"",
    };
    saved.has_plan == has_plan
        && saved.length == text.len() as u128
        && saved.answer == Ok(())
        && bytes == text.as_bytes()
}

const FIRST: [(u32, u64, Status); 4] = [
    (0x1002, 4, Status::Cut),
    (0x0801, 2, Status::Closed),
    (0x0000, 0, Status::Closed),
    (0x0802, 3, Status::Closed),
];

const SECOND: [(u32, u64, Status); 5] = [
    (0x1001, 3, Status::Closed),
    (0x0001, 1, Status::Closed),
    (0x0800, 1, Status::Closed),
    (0x0002, 2, Status::Closed),
    (0x1000, 2, Status::Closed),
];

const ALL: [(u32, u64, Status); 9] = [
    (0x1002, 4, Status::Cut),
    (0x0801, 2, Status::Closed),
    (0x0000, 0, Status::Closed),
    (0x1001, 3, Status::Closed),
    (0x0001, 1, Status::Closed),
    (0x0800, 1, Status::Closed),
    (0x0002, 2, Status::Closed),
    (0x0802, 3, Status::Closed),
    (0x1000, 2, Status::Closed),
];

const ROW: [(u32, u64, Status); 3] = [
    (2, 2, Status::Closed),
    (1, 1, Status::Closed),
    (0, 0, Status::Closed),
];

// The plan of the map without a wall.
fn plan_of_four(alloc: Global) -> Result<Plan, AllocError> {
    let actions = vec![in alloc; 3, 3, 1, 1]?;
    Ok(Plan::of(actions, 4))
}

// A certificate with a plan, of one bundle and of two parts, and one without a plan.
#[test]
fn certificates_are_saved(rt: HostRuntime) -> Result<(), Fail> {
    let alloc = rt.alloc();
    let one = save_one(alloc, version_2(), &ALL, Some(plan_of_four(alloc)?))?;
    assert!(rt; is_whole(&one, true, OPEN_SQUARE));
    let two = save_two(alloc, &FIRST, &SECOND, Some(plan_of_four(alloc)?))?;
    assert!(rt; is_whole(&two, true, OPEN_SQUARE));
    let none = save_one(alloc, version_1(), &ROW, None)?;
    assert!(rt; is_whole(&none, false, WALL));
    Ok(())
}

// A certificate that states tables and a trap, each line in its place.
#[test]
fn tables_are_saved(rt: HostRuntime) -> Result<(), Fail> {
    let alloc = rt.alloc();
    let Some(spelling) = version_4(alloc)? else {
        panic!(rt; "the text states no tables")
    };
    let saved = save_one(alloc, spelling, &[(1, 0, Status::Closed)], None)?;
    assert!(rt; is_whole(&saved, false, STATED));
    Ok(())
}

// The plan of one step by the action, read off the rows of the start and of the state that the
// action leads to. None if that state is no goal.
fn plan_of_step(alloc: Global, task: &Task, action: u32) -> Result<Option<Plan>, AllocError> {
    let start = task.initial();
    let Some((next, cost)) = task.apply(&start, action) else {
        return Ok(None);
    };
    if next == start {
        return Ok(None);
    }
    if !task.is_goal(&next) {
        return Ok(None);
    }
    let mut bundle = Bundle::new(alloc, 1, 1)?;
    bundle.offer(start, 0, Estimate::Cost(0), None, 0)?;
    bundle.offer(next, cost, Estimate::Cost(0), Some(start), action)?;
    let plan = trace(alloc, task, &bundle)?;
    Ok(Some(plan))
}

// Whether a plan has this one action at this cost.
fn is_step(plan: Option<Plan>, action: u32, cost: u64) -> bool {
    match plan {
        Some(plan) => plan.actions() == [action].as_slice() && plan.cost() == cost,
        None => false,
    }
}

// The rows stand in one bundle. Each row of data that prints a plan reads it off many parts.
#[test]
fn a_plan_is_read_off_the_rows(rt: HostRuntime) -> Result<(), Fail> {
    let task = two_cells(rt.alloc())?;
    assert!(rt; is_step(plan_of_step(rt.alloc(), &task, 3)?, 3, 1));
    Ok(())
}
