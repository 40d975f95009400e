//! The status of worked texts, and the report or the lines of the verdicts, judged on the calling thread.
use snap_check::{Status, brief_verdict_of, judge_text, status_of};
use snap_conditions::tally_range;
use snap_core::{AnyWriters, Limit};
use snap_csv::read_text;
use snap_index::Index;
use std::alloc::Global;
use std::process::Abort;
use std::test::Fail;

// Texts, the status of each, and its report.
const WORKED: &[(&str, Status, &str)] = &[
    (
        "event,process,op,data\nbegin,0,update,0:1:3\nbegin,1,view,\nend,1,view,\nend,0,update,\n",
        Status::Atomic,
        "events 4 calls 2 pending 0 views 1\nregular yes\nmonotone yes\natomic yes\norder 2\n2 p1 view\n1 p0 update 0:1:3\n",
    ),
    (
        "event,process,op,data\nbegin,0,update,0:1:7\nbegin,1,view,\nend,1,view,0:1:7\nbegin,2,view,\n\
         end,2,view,\nend,0,update,\n",
        Status::Regular,
        "events 6 calls 3 pending 0 views 2\nregular yes\nmonotone no\natomic no\nread 1 first view 2 view 3 component 0\n",
    ),
    (
        "event,process,op,data\nbegin,0,update,0:1:7\nend,0,update,\nbegin,1,view,\nend,1,view,\n",
        Status::Irregular,
        "events 4 calls 2 pending 0 views 1\nregular no\nmonotone yes\natomic no\nproximity 1 first view 2 entry 0:0 old\n",
    ),
    (
        "event,process,op,data\nbegin,0,update,0:1:7\nend,0,view,\n",
        Status::Refused,
        "refused record 3: otherop\n",
    ),
    ("", Status::Refused, "refused record 1: header\n"),
];

#[test]
fn each_worked_text_has_its_status_and_report(rt: HostRuntime) -> Result<(), Fail> {
    for (text, status, report) in WORKED {
        let (found, out) = judge_text(rt.alloc(), text.as_bytes(), Limit::usual())?;
        assert!(rt;
            found == *status && out.as_slice() == report.as_bytes(),
            "{report}"
        );
    }
    Ok(())
}

// Texts of histories, the status of each, and the lines of its verdicts.
const VERDICTS: &[(&str, Status, &str)] = &[
    (
        "event,process,op,data\n",
        Status::Atomic,
        "regular yes\nmonotone yes\natomic yes\n",
    ),
    (
        "event,process,op,data\nbegin,0,update,0:1:7\nbegin,1,view,\nend,1,view,0:1:7\nbegin,2,view,\n\
         end,2,view,\nend,0,update,\n",
        Status::Regular,
        "regular yes\nmonotone no\natomic no\n",
    ),
    (
        "event,process,op,data\nbegin,0,update,0:1:7\nend,0,update,\nbegin,1,view,\nend,1,view,\n",
        Status::Irregular,
        "regular no\nmonotone yes\natomic no\n",
    ),
];

// An index has this status alone, and then also with these lines of its verdicts.
fn expect_verdicts(
    rt: &impl Abort,
    alloc: Global,
    index: &Index<'_, AnyWriters>,
    status: Status,
    verdicts: &str,
) -> Result<(), Fail> {
    let tally = tally_range(index, 0, index.view_count());
    assert_eq!(rt; status_of(index, &tally), status);
    let (found, out) = brief_verdict_of(alloc, index, &tally)?;
    assert!(rt;
        found == status && out.as_slice() == verdicts.as_bytes(),
        "{verdicts}"
    );
    Ok(())
}

// The history of a text has this status alone, and then also with these lines of its verdicts.
fn expect(
    rt: &impl Abort,
    alloc: Global,
    text: &str,
    status: Status,
    verdicts: &str,
) -> Result<(), Fail> {
    let history = read_text(alloc, text.as_bytes(), Limit::usual())?;
    let index = Index::build(alloc, &history)?;
    expect_verdicts(rt, alloc, &index, status, verdicts)
}

#[test]
fn each_history_has_its_status_and_its_verdicts(rt: HostRuntime) -> Result<(), Fail> {
    for (text, status, verdicts) in VERDICTS {
        expect(&rt, rt.alloc(), *text, *status, *verdicts)?;
    }
    Ok(())
}
