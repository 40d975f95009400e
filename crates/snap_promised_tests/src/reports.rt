//! The reports of worked texts.
use crate::checked::{Worked, checked, expect_worked};
use snap_check::Status;
use snap_core::OpenGate;
use snap_pairs::Cutting;
use std::alloc::Global;
use std::process::Abort;
use std::test::Fail;
use std::thread::Threads;

/// A view misses an update that ended before it began.
pub(crate) const STALE_VIEW: Worked = (
    "a view misses an update that ended before it began",
    "event,process,op,data\nbegin,0,update,0:1:7\nend,0,update,\nbegin,1,view,\nend,1,view,\n",
    Status::Irregular,
    STALE_REPORT,
);

/// Its report.
pub(crate) const STALE_REPORT: &str =
    "events 4 calls 2 pending 0 views 1\nregular no\nmonotone yes\natomic no\n\
     proximity 1 first view 2 entry 0:0 old\n";

/// Two views disagree about the order of two updates.
pub(crate) const CROSSED_VIEWS: Worked = (
    "two views disagree about the order of two updates",
    "event,process,op,data\nbegin,0,update,0:1:1\nbegin,1,update,1:1:1\nbegin,2,view,\nbegin,3,view,\n\
     end,2,view,0:1:1\nend,3,view,1:1:1\nend,0,update,\nend,1,update,\n",
    Status::Regular,
    "events 8 calls 4 pending 0 views 2\nregular yes\nmonotone yes\natomic no\n\
     read 2 first view 3 view 4 component 0\n",
);

// Five calls of four processes, all ended.
const ATOMIC_RUN: Worked = (
    "five calls are put in an order that explains them",
    "event,process,op,data\nbegin,0,update,0:1:10\nend,0,update,\nbegin,1,update,1:1:20\nbegin,2,view,\n\
     begin,0,update,0:2:11\nend,2,view,0:1:10\nend,0,update,\nbegin,3,view,\n\
     end,3,view,0:2:11 1:1:20\nend,1,update,\n",
    Status::Atomic,
    "events 10 calls 5 pending 0 views 2\nregular yes\nmonotone yes\natomic yes\norder 5\n\
     1 p0 update 0:1:10\n3 p2 view 0:1:10\n2 p1 update 1:1:20\n4 p0 update 0:2:11\n\
     5 p3 view 0:2:11 1:1:20\n",
);

// A view misses an update, and another shows a value that nobody wrote.
const STALE_AND_WRONG: Worked = (
    "a view misses an update, and another shows a value that nobody wrote",
    "event,process,op,data\nbegin,0,update,0:1:7\nend,0,update,\nbegin,1,view,\nend,1,view,\nbegin,2,view,\n\
     end,2,view,0:1:9\n",
    Status::Irregular,
    "events 6 calls 3 pending 0 views 2\nregular no\nmonotone yes\natomic no\n\
     integrity 1 first view 3 entry 0:1:9\nproximity 1 first view 2 entry 0:0 old\n",
);

// All fields are quoted, and each line ends with CR LF.
const QUOTED: Worked = (
    "fields may be quoted, and lines may end with CR LF",
    "\"event\",\"process\",\"op\",\"data\"\r\n\"begin\",\"0\",\"view\",\"\"\r\n",
    Status::Atomic,
    ONE_PENDING,
);

// The report of one call that has not ended.
const ONE_PENDING: &str =
    "events 1 calls 1 pending 1 views 0\nregular yes\nmonotone yes\natomic yes\norder 0\n";

const ATOMIC: &[Worked] = &[
    (
        "the header alone is the history without events",
        "event,process,op,data\n",
        Status::Atomic,
        "events 0 calls 0 pending 0 views 0\nregular yes\nmonotone yes\natomic yes\norder 0\n",
    ),
    (
        "of two pending updates the one that is shown is in the order",
        "event,process,op,data\nbegin,0,update,0:1:3\nbegin,1,update,1:1:4\nbegin,2,view,\nend,2,view,0:1:3\n",
        Status::Atomic,
        "events 4 calls 3 pending 2 views 1\nregular yes\nmonotone yes\natomic yes\norder 2\n\
         1 p0 update 0:1:3\n3 p2 view 0:1:3\n",
    ),
    (
        "a view that misses the update beside it stands before it",
        "event,process,op,data\nbegin,0,update,0:1:3\nbegin,1,view,\nend,1,view,\nend,0,update,\n",
        Status::Atomic,
        "events 4 calls 2 pending 0 views 1\nregular yes\nmonotone yes\natomic yes\norder 2\n\
         2 p1 view\n1 p0 update 0:1:3\n",
    ),
    ATOMIC_RUN,
    (
        "no pending call need have taken effect",
        "event,process,op,data\nbegin,0,update,0:1:1\nbegin,1,update,1:1:1\nbegin,2,view,\nbegin,3,view,\n",
        Status::Atomic,
        "events 4 calls 4 pending 4 views 0\nregular yes\nmonotone yes\natomic yes\norder 0\n",
    ),
    QUOTED,
    (
        "the last record needs no newline",
        "event,process,op,data\nbegin,0,update,0:1:7",
        Status::Atomic,
        ONE_PENDING,
    ),
    (
        "records with stamps are in the order of the stamps",
        "at,event,process,op,data\n7,end,0,update,\n3,begin,0,update,0:1:7\n",
        Status::Atomic,
        "events 2 calls 1 pending 0 views 0\nregular yes\nmonotone yes\natomic yes\norder 1\n\
         1 p0 update 0:1:7\n",
    ),
    (
        "a stamp may be as large as 64 bits hold",
        "at,event,process,op,data\n18446744073709551615,begin,0,view,\n",
        Status::Atomic,
        ONE_PENDING,
    ),
];

const REGULAR: &[Worked] = &[
    (
        "a view shows an update, and a later view does not",
        "event,process,op,data\nbegin,0,update,0:1:7\nbegin,1,view,\nend,1,view,0:1:7\nbegin,2,view,\nend,2,view,\n\
         end,0,update,\n",
        Status::Regular,
        "events 6 calls 3 pending 0 views 2\nregular yes\nmonotone no\natomic no\n\
         read 1 first view 2 view 3 component 0\n",
    ),
    CROSSED_VIEWS,
    (
        "a view shows an update, and misses one that ended before that began",
        "event,process,op,data\nbegin,2,view,\nbegin,0,update,0:1:5\nend,0,update,\nbegin,1,update,1:1:6\n\
         end,1,update,\nend,2,view,1:1:6\n",
        Status::Regular,
        "events 6 calls 3 pending 0 views 1\nregular yes\nmonotone yes\natomic no\n\
         write 1 first view 1 misses 0:1 shows 1:1\n",
    ),
];

const IRREGULAR: &[Worked] = &[
    STALE_VIEW,
    (
        "a view shows an update that begins after it",
        "event,process,op,data\nbegin,1,view,\nend,1,view,0:1:7\nbegin,0,update,0:1:7\nend,0,update,\n",
        Status::Irregular,
        "events 4 calls 2 pending 0 views 1\nregular no\nmonotone yes\natomic no\n\
         proximity 1 first view 1 entry 0:1 early\n",
    ),
    (
        "a view shows another value than was written",
        "event,process,op,data\nbegin,0,update,0:1:7\nend,0,update,\nbegin,1,view,\nend,1,view,0:1:8\n",
        Status::Irregular,
        "events 4 calls 2 pending 0 views 1\nregular no\nmonotone yes\natomic no\n\
         integrity 1 first view 2 entry 0:1:8\n",
    ),
    (
        "a view shows the largest number there is, which no update has",
        "event,process,op,data\nbegin,0,update,0:1:7\nend,0,update,\nbegin,1,view,\nend,1,view,0:4294967295:7\n",
        Status::Irregular,
        "events 4 calls 2 pending 0 views 1\nregular no\nmonotone yes\natomic no\n\
         integrity 1 first view 2 entry 0:4294967295:7\n",
    ),
    STALE_AND_WRONG,
];

// Each worked text ends and reports as it must, by 8 pieces and 2 workers.
fn expect_all<R: Threads + Sync + Abort>(
    rt: &R,
    alloc: Global,
    texts: &[Worked],
) -> Result<(), Fail> {
    for worked in texts {
        expect_worked(rt, alloc, *worked, Cutting::new(8, 2)?, &OpenGate)?;
    }
    Ok(())
}

#[test]
fn an_atomic_history_gets_an_order_that_explains_it(rt: HostRuntime) -> Result<(), Fail> {
    expect_all(&rt, rt.alloc(), ATOMIC)
}

#[test]
fn a_regular_history_that_is_not_atomic_gets_its_read_or_write_faults(
    rt: HostRuntime,
) -> Result<(), Fail> {
    expect_all(&rt, rt.alloc(), REGULAR)
}

#[test]
fn a_history_that_is_not_regular_gets_its_integrity_and_proximity_faults(
    rt: HostRuntime,
) -> Result<(), Fail> {
    expect_all(&rt, rt.alloc(), IRREGULAR)
}

// A worked text ends and reports so by every cutting.
fn expect_by_every_cutting<R: Threads + Sync + Abort>(
    rt: &R,
    alloc: Global,
    worked: Worked,
) -> Result<(), Fail> {
    for pieces in [1, 2, 1024] {
        for workers in [1, 2, 8] {
            expect_worked(rt, alloc, worked, Cutting::new(pieces, workers)?, &OpenGate)?;
        }
    }
    Ok(())
}

#[test]
fn every_cutting_gives_the_same_report(rt: HostRuntime) -> Result<(), Fail> {
    expect_by_every_cutting(&rt, rt.alloc(), CROSSED_VIEWS)?;
    expect_by_every_cutting(&rt, rt.alloc(), ATOMIC_RUN)?;
    expect_by_every_cutting(&rt, rt.alloc(), STALE_AND_WRONG)
}

// Whether a report is that of a history, or the line of a refused text.
fn is_report(report: &[u8], status: Status) -> bool {
    let head = if status == Status::Refused {
        b"refused record ".as_slice()
    } else {
        b"events ".as_slice()
    };
    report.starts_with(head) && report.ends_with(b"\n")
}

#[test]
fn a_text_cut_after_any_byte_gets_a_report_or_a_refusal(rt: HostRuntime) -> Result<(), Fail> {
    let text = QUOTED.1.as_bytes();
    for end in 0..text.len() {
        let (found, written) = checked(
            &rt,
            rt.alloc(),
            &text[..end],
            Cutting::new(8, 2)?,
            &OpenGate,
        );
        let status = found.ok_or("no report")?;
        assert!(rt; is_report(&written, status), "cut after {end} bytes");
    }
    Ok(())
}

#[test]
fn each_status_has_its_exit_code(rt: HostRuntime) {
    assert!(rt; Status::Atomic.code() == 0 && Status::Recorded.code() == 0);
    assert!(rt; Status::Regular.code() == 1 && Status::Irregular.code() == 2);
    assert_eq!(rt; Status::Refused.code(), 3);
}
