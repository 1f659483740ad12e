//! Worked rows: how whole searches end, by one worker and by several.
use crate::samples::{ONE_WORKER, Sample, has_journal, search_sample};
use pb_machine::{End, Event, Settings};
use pb_outside::OpenGate;
use std::test::Fail;

fn lease(block: u32, quota: u64) -> Event {
    Event::Lease {
        worker: 0,
        block,
        quota,
    }
}

fn release(used: u64) -> Event {
    Event::Release {
        worker: 0,
        used,
        memory: false,
    }
}

const OFF: Event = Event::Off {
    worker: 0,
    memory: false,
};

// A board that is its goal takes one lease. An open square takes a lease of each block on the way.
#[test]
fn one_worker_has_these_journals(rt: HostRuntime) -> Result<(), Fail> {
    let journal = [lease(0, 256), release(0), Event::Ended(End::Quiet), OFF];
    let board = Sample::Solved;
    assert!(rt; has_journal(&rt, rt.alloc(), board, &journal, Some(0))?);
    let journal = [
        lease(0, 256),
        release(1),
        lease(1, 256),
        release(1),
        lease(2, 256),
        release(1),
        lease(5, 256),
        release(1),
        lease(8, 256),
        release(0),
        lease(4, 256),
        release(0),
        lease(3, 256),
        release(0),
        Event::Ended(End::Quiet),
        OFF,
    ];
    let square = Sample::Square;
    assert!(rt; has_journal(&rt, rt.alloc(), square, &journal, Some(4))?);
    Ok(())
}

// Each search ends as with one worker, whatever the workers, the lot and the blocks.
#[test]
fn any_number_of_workers_finds_the_same_cost(rt: HostRuntime) -> Result<(), Fail> {
    for workers in [1, 2, 4, 64] {
        for (lot, wish) in [(256, 256), (1, 256), (3, 256), (256, 16), (256, 4096)] {
            let settings = Settings {
                workers,
                lot,
                wish,
                ..ONE_WORKER
            };
            for (sample, incumbent) in [
                (Sample::Solved, Some(0)),
                (Sample::OtherRing, None),
                (Sample::Square, Some(4)),
                (Sample::NearBoard, Some(4)),
            ] {
                let seen = search_sample(&rt, rt.alloc(), sample, settings, &OpenGate)?;
                assert_eq!(rt;
                    (seen.end, seen.incumbent, seen.sign_offs),
                    (Some(End::Quiet), incumbent, u64::from(workers)),
                    "{workers} workers, lot {lot}, {wish} blocks"
                );
            }
        }
    }
    Ok(())
}

// The weight is num/2.
#[test]
fn searches_end_quietly_with_a_cost_within_the_weight(rt: HostRuntime) -> Result<(), Fail> {
    for workers in [1, 2, 4] {
        for (num, plain, most) in [(2, false, 4), (2, true, 4), (3, false, 6), (3, true, 6)] {
            let settings = Settings {
                workers,
                num,
                den: 2,
                plain,
                ..ONE_WORKER
            };
            for sample in [Sample::NearBoard, Sample::Square] {
                let seen = search_sample(&rt, rt.alloc(), sample, settings, &OpenGate)?;
                assert_eq!(rt; seen.end, Some(End::Quiet));
                assert!(rt; matches!(seen.incumbent, Some(cost) if cost >= 4 && cost <= most));
            }
        }
    }
    Ok(())
}

// The ring has no plan, and 12 boards that are reached: 11 expansions are too few, and one worker
// needs no more than 12. The near board takes more than 3, whatever the number of workers.
#[test]
fn a_budget_ends_the_search_of_all(rt: HostRuntime) -> Result<(), Fail> {
    for workers in [1, 2, 4, 64] {
        for (sample, budget, lot) in [
            (Sample::OtherRing, 11, 1),
            (Sample::OtherRing, 11, 3),
            (Sample::OtherRing, 11, 256),
            (Sample::NearBoard, 3, 256),
        ] {
            let settings = Settings {
                workers,
                budget,
                lot,
                ..ONE_WORKER
            };
            let seen = search_sample(&rt, rt.alloc(), sample, settings, &OpenGate)?;
            assert_eq!(rt;
                (seen.end, seen.incumbent, seen.sign_offs),
                (Some(End::Budget), None, u64::from(workers))
            );
        }
    }
    let settings = Settings {
        budget: 12,
        lot: 1,
        ..ONE_WORKER
    };
    let seen = search_sample(&rt, rt.alloc(), Sample::OtherRing, settings, &OpenGate)?;
    assert_eq!(rt; (seen.end, seen.incumbent), (Some(End::Quiet), None));
    Ok(())
}

#[test]
fn four_workers_reach_all_boards(rt: HostRuntime) -> Result<(), Fail> {
    let settings = Settings {
        workers: 4,
        budget: 1 << 40,
        ..ONE_WORKER
    };
    let seen = search_sample(
        &rt,
        rt.alloc(),
        Sample::BoardWithoutPlan,
        settings,
        &OpenGate,
    )?;
    assert_eq!(rt;
        (seen.end, seen.incumbent, seen.sign_offs),
        (Some(End::Quiet), None, 4)
    );
    assert!(rt; seen.expansions >= 181_440);
    Ok(())
}

// In a plain search nobody marks a block hot. A worker that is alone marks nothing either: the
// block that is leased or renewed is the best of all, by the keys that are noted then, and no other
// lease changes a key. So it finds no rival.
#[test]
fn no_block_is_marked_hot(rt: HostRuntime) -> Result<(), Fail> {
    for (workers, plain, budget, wish) in [
        (1, false, 500, 16),
        (1, true, 500, 16),
        (4, true, 5000, 256),
    ] {
        let settings = Settings {
            workers,
            budget,
            lot: 1,
            wish,
            plain,
            ..ONE_WORKER
        };
        let seen = search_sample(
            &rt,
            rt.alloc(),
            Sample::BoardWithoutPlan,
            settings,
            &OpenGate,
        )?;
        assert_eq!(rt; (seen.end, seen.marks), (Some(End::Budget), 0));
    }
    Ok(())
}
