//! What is written of events, and what is read of that. What is said of other texts is a row.
use pb_abstract::AbsGraph;
use pb_journal::{check_journal, read_header, write_journal};
use pb_machine::{End, Event, STANDARD, Settings};
use pb_outside::{Failed, MemShelf};
use pb_test_examples::solved_board;
use std::test::Fail;

// The text of a search whose first lease has nothing to expand.
const WRITTEN: &str = "pbnf-journal 1
blocks 256
workers 1
budget 16777216
lot 256
plain 0
lease 0 0 256
release 0 0 ok
end quiet
off 0 ok
";

// A text with the other kinds of lines.
const ALL_KINDS: &str = "pbnf-journal 1
blocks 16
workers 2
budget 5
lot 2
plain 1
renew 1 2 3
hot 1 7
cold 1 7
release 1 9 memory
end memory
end budget
";

#[test]
fn what_is_written_is_accepted(rt: HostRuntime) -> Result<(), Fail> {
    let settings = Settings {
        num: 3,
        den: 2,
        ..STANDARD
    };
    let journal = [
        Event::Lease {
            worker: 0,
            block: 0,
            quota: 256,
        },
        Event::Release {
            worker: 0,
            used: 0,
            memory: false,
        },
        Event::Ended(End::Quiet),
        Event::Off {
            worker: 0,
            memory: false,
        },
    ];
    let mut shelf = MemShelf::new(rt.alloc())?;
    shelf.reserve("j", 200)?;
    assert!(rt; write_journal(&settings, &journal, &mut shelf, "j") == Ok(()));
    assert!(rt; shelf.has("j"));
    let text = shelf.file("j");
    assert!(rt; text == WRITTEN.as_bytes());
    let abstraction = AbsGraph::of(rt.alloc(), &solved_board(rt.alloc())?, 256)?;
    assert!(rt; check_journal(rt.alloc(), &abstraction, text) == Ok(4));
    assert!(rt;
        read_header(text)
            == Ok(Settings {
                num: 1,
                den: 1,
                ..settings
            })
    );
    Ok(())
}

// Every kind of event has its line, and what a fault leaves is a first part of the text.
#[test]
fn a_fault_leaves_whole_lines(rt: HostRuntime) -> Result<(), Fail> {
    let settings = Settings {
        workers: 2,
        budget: 5,
        lot: 2,
        wish: 16,
        plain: true,
        ..STANDARD
    };
    let journal = [
        Event::Renew {
            worker: 1,
            used: 2,
            quota: 3,
        },
        Event::Hot {
            worker: 1,
            block: 7,
        },
        Event::Cold {
            worker: 1,
            block: 7,
        },
        Event::Release {
            worker: 1,
            used: 9,
            memory: true,
        },
        Event::Ended(End::Memory),
        Event::Ended(End::Budget),
    ];
    let mut shelf = MemShelf::new(rt.alloc())?;
    shelf.reserve("j", 200)?;
    shelf.fail(4, 20)?;
    assert!(rt; write_journal(&settings, &journal, &mut shelf, "j") == Ok(()));
    assert!(rt; shelf.has("j"));
    assert!(rt; shelf.file("j") == ALL_KINDS.as_bytes());
    assert!(rt; write_journal(&settings, &journal, &mut shelf, "j") == Err(Failed));
    assert!(rt; shelf.has("j"));
    assert!(rt; shelf.file("j") == b"pbnf-journal 1\nblock".as_slice());
    Ok(())
}
