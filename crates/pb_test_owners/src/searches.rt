//! How many rows a search by owners expands, and what an owner without a quota does.
use crate::samples::{Seen, far_board, search_task, settings_of, three_cells};
use pb_machine::End;
use pb_outside::OpenGate;
use std::test::Fail;

// An owner's expansions in a round depend on its own rows alone, and the costs of the rows after it
// don't depend on the order of the letters.
#[test]
fn each_run_expands_as_many_rows(rt: HostRuntime) -> Result<(), Fail> {
    let settings = settings_of(3, 1 << 20, 8);
    let first = search_task(&rt, rt.alloc(), far_board(rt.alloc())?, settings, &OpenGate)?;
    assert_eq!(rt; (first.end, first.incumbent), (End::Quiet, Some(20)));
    for run in 1..20 {
        let again = search_task(&rt, rt.alloc(), far_board(rt.alloc())?, settings, &OpenGate)?;
        assert_eq!(rt; again, first, "run {run}");
    }
    Ok(())
}

// In the second round the owner of the first cell draws the last expansion. The goal's owner draws
// nothing, and takes the goal all the same.
#[test]
fn an_owner_without_quota_takes_a_goal(rt: HostRuntime) -> Result<(), Fail> {
    let task = three_cells(rt.alloc())?;
    let seen = search_task(&rt, rt.alloc(), task, settings_of(3, 2, 256), &OpenGate)?;
    let want = Seen {
        end: End::Quiet,
        incumbent: Some(1),
        spent: 2,
    };
    assert_eq!(rt; seen, want);
    Ok(())
}
