//! The witnesses to which worked histories are cut down.
use super::asking::answered;
use super::checks::{history, same};
use snap_runs::Question;
use std::test::Fail;

// Records after the header, how the run ends, and the records that are left.
const CUT: &[(&str, &str, &str)] = &[
    // the view of a value that nobody wrote, and the update of that number; the stale view is left out
    (
        "begin,0,update,0:1:7\nend,0,update,\nbegin,1,view,\nend,1,view,\nbegin,2,view,\nend,2,view,0:1:9\n",
        "irregular",
        "begin,0,update,0:1:7\nend,0,update,\nbegin,2,view,\nend,2,view,0:1:9\n",
    ),
    // a view that misses update 2, which had ended; that update alone is left, as number 1, and the view then shows nothing
    (
        "begin,0,update,0:1:7\nend,0,update,\nbegin,0,update,0:2:8\nend,0,update,\nbegin,1,view,\n\
         end,1,view,0:1:7\n",
        "irregular",
        "begin,0,update,0:1:8\nend,0,update,\nbegin,1,view,\nend,1,view,\n",
    ),
    // a view that shows an update before it begins, after others
    (
        "begin,1,update,1:1:4\nend,1,update,\nbegin,2,view,\nend,2,view,0:1:7 1:1:4\nbegin,0,update,0:1:7\n",
        "irregular",
        "begin,2,view,\nend,2,view,0:1:7\nbegin,0,update,0:1:7\n",
    ),
    // a later view that shows less, after an update that both show
    (
        "begin,0,update,0:1:7\nend,0,update,\nbegin,0,update,0:2:8\nbegin,1,view,\nend,1,view,0:2:8\n\
         begin,2,view,\nend,2,view,0:1:7\nend,0,update,\n",
        "regular",
        "begin,0,update,0:1:8\nbegin,1,view,\nend,1,view,0:1:8\nbegin,2,view,\nend,2,view,\nend,0,update,\n",
    ),
    // an update that is missed before one that is shown, with two calls of another process around it
    (
        "begin,3,view,\nend,3,view,\nbegin,2,view,\nbegin,0,update,0:1:5\nend,0,update,\n\
         begin,1,update,1:1:6\nend,1,update,\nend,2,view,1:1:6\nbegin,3,view,\nend,3,view,0:1:5 1:1:6\n",
        "regular",
        "begin,2,view,\nbegin,0,update,0:1:5\nend,0,update,\nbegin,1,update,1:1:6\nend,1,update,\nend,2,view,1:1:6\n",
    ),
];

// Atomic histories, and histories all of whose calls belong to their fault: nothing is left out.
const LEFT: &[(&str, &str)] = &[
    ("", "atomic"),
    (
        "begin,0,update,0:1:3\nbegin,1,update,1:1:4\nbegin,2,view,\nend,2,view,0:1:3\n",
        "atomic",
    ),
    (
        "begin,0,update,0:1:1\nbegin,1,update,1:1:1\nbegin,2,view,\nbegin,3,view,\nend,2,view,0:1:1\n\
         end,3,view,1:1:1\nend,0,update,\nend,1,update,\n",
        "regular",
    ),
    (
        "begin,0,update,0:1:7\nend,0,update,\nbegin,1,view,\nend,1,view,\n",
        "irregular",
    ),
];

#[test]
fn a_history_is_cut_down_to_the_calls_of_its_first_fault(rt: HostRuntime) -> Result<(), Fail> {
    let alloc = rt.alloc();
    for (records, end, left) in CUT {
        let text = history(alloc, records)?;
        same(
            answered(&rt, alloc, Question::Witness, text.as_bytes())?,
            (*end, history(alloc, left)?),
        )?;
    }
    Ok(())
}

#[test]
fn where_nothing_is_to_be_left_out_the_history_stays(rt: HostRuntime) -> Result<(), Fail> {
    let alloc = rt.alloc();
    for (records, end) in LEFT {
        let text = history(alloc, records)?;
        same(
            answered(&rt, alloc, Question::Witness, text.as_bytes())?,
            (*end, history(alloc, records)?),
        )?;
    }
    Ok(())
}

#[test]
fn stamps_are_not_written(rt: HostRuntime) -> Result<(), Fail> {
    let alloc = rt.alloc();
    let text = b"at,event,process,op,data\n7,end,1,view,\n2,begin,1,view,\n";
    let left = history(alloc, "begin,1,view,\nend,1,view,\n")?;
    same(
        answered(&rt, alloc, Question::Witness, text)?,
        ("atomic", left),
    )
}

#[test]
fn a_text_that_is_no_history_gets_its_line(rt: HostRuntime) -> Result<(), Fail> {
    let alloc = rt.alloc();
    let text = history(alloc, "begin,0,view,\nbegin,0,view,\n")?;
    let line = String::from_str(alloc, "refused record 3: busy\n")?;
    same(
        answered(&rt, alloc, Question::Witness, text.as_bytes())?,
        ("refused", line),
    )
}
