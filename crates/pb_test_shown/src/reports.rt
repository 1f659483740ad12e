//! Each kind of report once, and the widest numbers. Each name that is printed is a row.
use pb_cert::Plan;
use pb_check::{CertificateFault, Claim};
use pb_grid::GridError;
use pb_journal::Why;
use pb_lifted::{Cause, File, Place, TypingRefusal};
use pb_pddl::{SyntaxError, Want};
use pb_report::Report;
use pb_strips::StripsError;
use pb_task::{Cells, Class, GridParts, Swamp, Task};
use pb_tiles::TilesError;
use std::alloc::{AllocError, Global};
use std::test::Fail;

// Whether the report is made, and is this text.
fn is(report: Result<Report, AllocError>, text: &str) -> bool {
    match report {
        Ok(report) => report.as_slice() == text.as_bytes(),
        Err(AllocError) => false,
    }
}

// The reports of refused certificates and inputs, over their largest numbers.
fn are_refusals_printed(alloc: Global) -> bool {
    let most = u64::MAX;
    let (cost, low) = (
        CertificateFault::Cost {
            said: most,
            real: u128::MAX,
        },
        CertificateFault::Low { line: most },
    );
    let table = CertificateFault::Table { line: u128::MAX };
    let unpaid = CertificateFault::Unpaid {
        sum: usize::MAX,
        action: usize::MAX,
    };
    let width = CertificateFault::Width {
        said: 256,
        wanted: 6,
    };
    let (row, rows) = (most, most);
    let missing = SyntaxError::Expected {
        at: most,
        want: Want::Missing,
    };
    is(
        Report::of_certificate_fault(alloc, &cost),
        "refused Cost 18446744073709551615 340282366920938463463374607431768211455\n",
    ) && is(
        Report::of_certificate_fault(alloc, &low),
        "refused Low 18446744073709551615\n",
    ) && is(
        Report::of_certificate_fault(alloc, &width),
        "refused Width 256 6\n",
    ) && is(
        Report::of_certificate_fault(alloc, &table),
        "refused Table 340282366920938463463374607431768211455\n",
    ) && is(
        Report::of_certificate_fault(alloc, &unpaid),
        "refused Unpaid 18446744073709551615 18446744073709551615\n",
    ) && is(
        Report::of_grid_error(alloc, &GridError::NoRow { row, rows }),
        "input NoRow 18446744073709551615 18446744073709551615\n",
    ) && is(
        Report::of_tiles_error(alloc, &TilesError::Number { at: most }),
        "input Number 18446744073709551615\n",
    ) && is(
        Report::of_syntax_error(alloc, File::Problem, &missing),
        "input Expected 2 18446744073709551615 Missing\n",
    )
}

// The same of two trees.
fn are_typing_refusals_printed(alloc: Global) -> bool {
    let place = Place {
        file: File::Domain,
        at: u64::MAX,
    };
    let wide = StripsError::Refused(TypingRefusal::Named {
        cause: Cause::TooWide,
        place,
    });
    let many = StripsError::TooManyAtoms { n: 4_294_967_295 };
    is(
        Report::of_strips_error(alloc, &wide),
        "input TooWide 1 18446744073709551615\n",
    ) && is(
        Report::of_strips_error(alloc, &many),
        "input TooManyAtoms 4294967295\n",
    )
}

// The reports of ends and of journals.
fn are_ends_printed(alloc: Global) -> bool {
    let bounded = Claim::Bounded { cost: 4, bound: 2 };
    is(
        Report::of_verdict(alloc, &bounded),
        "accepted cost 4 bound 2\n",
    ) && is(Report::of_journal(alloc, 16), "journal 16\n")
        && is(
            Report::of_journal_fault(alloc, 8, Why::Quota),
            "refused Quota 8\n",
        )
        && is(Report::of_no_plan(alloc), "none\n")
        && is(
            Report::of_stop(alloc, 16_777_216),
            "stopped budget 16777216\n",
        )
        && is(Report::of_line(alloc, b"input TooLong"), "input TooLong\n")
        && is(
            Report::of_text(alloc, b"error: words\n\nmore"),
            "error: words\n\nmore",
        )
}

#[test]
fn reports_are_made(rt: HostRuntime) {
    assert!(rt; are_refusals_printed(rt.alloc()));
    assert!(rt; are_typing_refusals_printed(rt.alloc()));
    assert!(rt; are_ends_printed(rt.alloc()));
}

// Running out of memory has no report.
#[test]
fn errors_of_memory_stay_errors(rt: HostRuntime) {
    let alloc = rt.alloc();
    let grid = Report::of_grid_error(alloc, &GridError::Memory);
    assert!(rt; grid.err() == Some(AllocError));
    let syntax = Report::of_syntax_error(alloc, File::Problem, &SyntaxError::Memory);
    assert!(rt; syntax.err() == Some(AllocError));
    let strips = Report::of_strips_error(alloc, &StripsError::Memory);
    assert!(rt; strips.err() == Some(AllocError));
}

#[test]
fn a_plan_is_printed_by_the_names_of_its_steps(rt: HostRuntime) -> Result<(), Fail> {
    let task = Task::of_grid(GridParts {
        width: 2,
        height: 2,
        cells: Cells::of(vec![in rt.alloc(); Class::Land; 4]?),
        swamp: Swamp::of(vec![in rt.alloc(); false; 4]?),
        start: (0, 0),
        goal: (1, 1),
    });
    let plan = Plan::of(vec![in rt.alloc(); 3, 1]?, 2);
    let report = Report::of_plan(rt.alloc(), &task, &plan, 2);
    assert!(rt; is(report, "plan 2 2\nright\ndown\nbound 2\n"));
    Ok(())
}
