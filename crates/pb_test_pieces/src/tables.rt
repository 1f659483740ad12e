//! Certificates that state tables: one worker and several give the answer worked out by hand.
use crate::changes::{code_of, judge_alone};
use crate::pieces::answer_for;
use pb_outside::OpenGate;
use pb_packed::Packed;
use pb_task::{ActionName, Actions, GroundAction, Grounding, StripsParts, Task};
use std::alloc::{AllocError, Global};
use std::thread::Threads;

// Two atoms, and one action that deletes atom 0 and adds atom 1, the goal, at cost 3.
fn one_action(alloc: Global) -> Result<Task, AllocError> {
    let action = GroundAction {
        name: ActionName::of(String::from_str(alloc, "(a)")?),
        needs: Packed::of_word(1),
        adds: Packed::of_word(2),
        deletes: Packed::of_word(1),
        cost: 3,
    };
    let actions = vec![in alloc; action]?;
    Ok(Task::of_strips(StripsParts {
        atoms: 2,
        actions: Actions::of(alloc, actions)?,
        start: Packed::of_word(1),
        goal: Packed::of_word(2),
        never: false,
        grounding: Grounding::All,
    }))
}

// The four lines before those of the tables.
const HEAD: &str = "pbnf-certificate 4\nkind strips\nwidth 1\ngrounding all\n";

// The lines between those of the tables and the rows.
const PLAN: &str = "weight 1 1\nplan 1\n0\ncost 3\n";

const TWO_ROWS: &str = "rows 2\n1 0 closed\n2 3 cut\nend\n";

// The start is cut, which is right only by tables that give it 3.
const ONE_ROW: &str = "rows 1\n1 0 cut\nend\n";

// The lines of tables, those of rows, and the answer as `code_of` gives it: 0 for a plan with its
// cost and bound, 3 for `Syntax`, 17 for `Low`, 19 for `Table` and 20 for `Unpaid`.
const CASES: [(&str, &str, (u32, u64, u128)); 17] = [
    (
        "estimate tables 1 1 0\ntable 3 2\n1 3\n2 0\n",
        TWO_ROWS,
        (0, 3, 3),
    ),
    (
        "estimate tables 1 1 0\ntable 3 2\n1 3\n2 0\n",
        ONE_ROW,
        (0, 3, 3),
    ),
    (
        "estimate tables 1 1 0\ntable 3 2\n1 2\n2 0\n",
        ONE_ROW,
        (17, 14, 0),
    ),
    // The action costs 3, and lowers the sum by 4.
    (
        "estimate tables 1 1 0\ntable 3 2\n1 4\n2 0\n",
        TWO_ROWS,
        (20, 0, 0),
    ),
    (
        "estimate tables 2 1 0\ntable 3 2\n1 3 4\n2 0 0\n",
        TWO_ROWS,
        (20, 1, 0),
    ),
    (
        "estimate tables 2 1 0\ntable 3 2\n1 0 3\n2 0 0\n",
        ONE_ROW,
        (0, 3, 3),
    ),
    // Two tables are summed.
    (
        "estimate tables 1 2 0\ntable 3 2\n1 1\n2 0\ntable 3 2\n1 2\n2 0\n",
        ONE_ROW,
        (0, 3, 3),
    ),
    (
        "estimate tables 1 2 0\ntable 3 2\n1 2\n2 0\ntable 3 2\n1 2\n2 0\n",
        TWO_ROWS,
        (20, 0, 0),
    ),
    // The second table lists no image, so the sum is 0.
    (
        "estimate tables 1 2 0\ntable 3 2\n1 3\n2 0\ntable 1 0\n",
        ONE_ROW,
        (17, 15, 0),
    ),
    // A goal has a value, the action leads to an image that isn't listed, and images don't ascend.
    (
        "estimate tables 1 1 0\ntable 3 2\n1 3\n2 1\n",
        TWO_ROWS,
        (19, 0, 8),
    ),
    (
        "estimate tables 1 1 0\ntable 3 1\n1 3\n",
        TWO_ROWS,
        (19, 0, 7),
    ),
    (
        "estimate tables 1 1 0\ntable 3 2\n2 0\n1 3\n",
        TWO_ROWS,
        (19, 0, 8),
    ),
    // A tracked atom that the task doesn't have, and a trap with a goal.
    ("estimate tables 1 1 0\ntable 7 0\n", TWO_ROWS, (19, 0, 6)),
    ("estimate tables 1 0 1\ntrap 3 1\n2\n", TWO_ROWS, (19, 0, 7)),
    // More sums and a greater value than can be stated, and a missing line.
    ("estimate tables 65 1 0\n", TWO_ROWS, (3, 5, 0)),
    (
        "estimate tables 1 1 0\ntable 3 1\n1 1099511627777\n",
        TWO_ROWS,
        (3, 7, 0),
    ),
    (
        "estimate tables 1 1 0\ntable 3 2\n1 3\n",
        TWO_ROWS,
        (3, 8, 0),
    ),
];

fn text_of(alloc: Global, tables: &str, rows: &str) -> Result<String, AllocError> {
    let mut text = String::from_str(alloc, HEAD)?;
    text.push_str(tables)?;
    text.push_str(PLAN)?;
    text.push_str(rows)?;
    Ok(text)
}

// Whether this is the answer of one worker, and of several by pieces of one row and of many.
fn is_answered<R: Threads + Sync>(
    rt: &R,
    alloc: Global,
    tables: &str,
    rows: &str,
    wanted: (u32, u64, u128),
) -> Result<bool, AllocError> {
    let task = one_action(alloc)?;
    let text = text_of(alloc, tables, rows)?;
    let bytes = text.as_bytes();
    Ok(
        code_of(judge_alone(alloc, &task, bytes)) == wanted
            && code_of(answer_for(rt, alloc, &task, bytes, 2, 1, &OpenGate)) == wanted
            && code_of(answer_for(rt, alloc, &task, bytes, 4, 1000, &OpenGate)) == wanted,
    )
}

#[test]
fn stated_tables_have_one_answer(rt: HostRuntime) {
    let alloc = rt.alloc();
    for (tables, rows, wanted) in CASES {
        let answered = is_answered(&rt, alloc, tables, rows, wanted).expect(&rt, "memory");
        assert!(rt; answered, "{tables}{rows}");
    }
}
