//! Texts that are not histories, and the line of the first fault of each.
use crate::checked::expect_report;
use snap_check::Status;
use snap_core::OpenGate;
use snap_csv::TextFault;
use snap_pairs::Cutting;
use snap_report::refusal_text;
use std::alloc::Global;
use std::process::Abort;
use std::test::Fail;
use std::thread::Threads;

// Texts, and their reports.
const REFUSED: &[(&str, &str)] = &[
    ("", "refused record 1: header\n"),
    ("event,process,op\n", "refused record 1: header\n"),
    ("event,process,op,dat", "refused record 1: header\n"),
    (
        "event,process,op,data\nbegin,0,view,\nbegin,0,view,\n",
        "refused record 3: busy\n",
    ),
    (
        "event,process,op,data\nend,0,view,\n",
        "refused record 2: idle\n",
    ),
    (
        "event,process,op,data\nbegin,0,view,\nend,0,update,\n",
        "refused record 3: otherop\n",
    ),
    (
        "event,process,op,data\nbegin,0,update,0:2:1\n",
        "refused record 2: number\n",
    ),
    (
        "event,process,op,data\nbegin,0,update,0:1:1\nend,0,update,\nbegin,0,update,0:1:1\n",
        "refused record 4: number\n",
    ),
    (
        "event,process,op,data\nbegin,0,update,0:1:1\nend,0,update,\nbegin,1,update,0:2:1\n",
        "refused record 4: writer\n",
    ),
    (
        "event,process,op,data\nbegin,0,view\n",
        "refused record 2: fields\n",
    ),
    (
        "event,process,op,data\nbegin,0,upd",
        "refused record 2: fields\n",
    ),
    (
        "event,process,op,data\nstart,65536,scan,x\n",
        "refused record 2: event\n",
    ),
    (
        "event,process,op,data\nbegin,65536,scan,x\n",
        "refused record 2: process\n",
    ),
    (
        "event,process,op,data\nbegin,00,view,\n",
        "refused record 2: process\n",
    ),
    (
        "event,process,op,data\nbegin,0,scan,x\n",
        "refused record 2: op\n",
    ),
    (
        "event,process,op,data\nbegin,0,update,0:01:1\n",
        "refused record 2: data\n",
    ),
    (
        "event,process,op,data\nbegin,0,update,256:1:1\n",
        "refused record 2: data\n",
    ),
    (
        "event,process,op,data\nbegin,0,update,0:0:1\n",
        "refused record 2: data\n",
    ),
    (
        "event,process,op,data\nbegin,0,update,0:1:",
        "refused record 2: data\n",
    ),
    (
        "event,process,op,data\nbegin,0,view,x\n",
        "refused record 2: data\n",
    ),
    (
        "event,process,op,data\nend,0,view,1:1:1 0:1:1\n",
        "refused record 2: data\n",
    ),
];

// Texts with stamps, and their reports.
const STAMPED: &[(&str, &str)] = &[
    (
        "at,event,process,op,data\n5,begin,0,view,\n5,end,0,view,\n",
        "refused record 3: repeated\n",
    ),
    (
        "at,event,process,op,data\n1,end,0,view,\n1,end,0,view,\n",
        "refused record 3: repeated\n",
    ),
    (
        "at,event,process,op,data\n4,begin,0,view,\n4,begin,0,view,x\n",
        "refused record 3: data\n",
    ),
    (
        "at,event,process,op,data\n9,begin,0,view,\n4,end,0,view,\n",
        "refused record 3: idle\n",
    ),
    (
        "at,event,process,op,data\n05,begin,0,view,\n",
        "refused record 2: at\n",
    ),
    (
        "at,event,process,op,data\n18446744073709551616,begin,0,view,\n",
        "refused record 2: at\n",
    ),
    (
        "at,event,process,op,data\nbegin,0,view,\n",
        "refused record 2: fields\n",
    ),
];

// Each text is refused with its line.
fn expect_refused<R: Threads + Sync + Abort>(
    rt: &R,
    alloc: Global,
    texts: &[(&str, &str)],
) -> Result<(), Fail> {
    for (text, line) in texts {
        let worked = (*text, text.as_bytes(), Status::Refused, *line);
        expect_report(rt, alloc, worked, Cutting::new(8, 2)?, &OpenGate)?;
    }
    Ok(())
}

#[test]
fn a_text_that_is_no_history_gets_its_first_fault(rt: HostRuntime) -> Result<(), Fail> {
    expect_refused(&rt, rt.alloc(), REFUSED)
}

#[test]
fn a_text_with_stamps_that_is_no_history_gets_its_first_fault(rt: HostRuntime) -> Result<(), Fail> {
    expect_refused(&rt, rt.alloc(), STAMPED)
}

#[test]
fn a_byte_that_is_no_ascii_is_no_data(rt: HostRuntime) -> Result<(), Fail> {
    let text = b"event,process,op,data\nbegin,0,view,\xff".as_slice();
    let worked = (
        "the byte 255",
        text,
        Status::Refused,
        "refused record 2: data\n",
    );
    expect_report(&rt, rt.alloc(), worked, Cutting::new(8, 2)?, &OpenGate)
}

#[test]
fn a_refusal_names_the_record_and_its_fault(rt: HostRuntime) -> Result<(), Fail> {
    let text = refusal_text(rt.alloc(), 3, TextFault::Busy)?;
    assert_eq!(rt; text.as_slice(), b"refused record 3: busy\n".as_slice());
    Ok(())
}
