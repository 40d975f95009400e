//! The calls that witnesses of worked histories keep.
use super::asking::answered;
use super::checks::{history, same};
use snap_runs::Question;
use std::alloc::Global;
use std::test::Fail;

// The table of these lines.
fn table(alloc: Global, lines: &str) -> Result<String, Fail> {
    let table = format!(in alloc;
        "call,process,begin,end,of call,of process,of begin,of end\n{lines}"
    )?;
    Ok(table)
}

#[test]
fn a_line_has_a_call_of_the_witness_beside_its_own(rt: HostRuntime) -> Result<(), Fail> {
    let alloc = rt.alloc();
    let text = history(
        alloc,
        "begin,0,update,0:1:7\nend,0,update,\nbegin,0,update,0:2:8\nbegin,1,view,\nend,1,view,0:2:8\n\
         begin,2,view,\nend,2,view,0:1:7\n",
    )?;
    let lines = "1,0,2,,2,0,4,\n2,1,3,4,3,1,5,6\n3,2,5,6,4,2,7,8\n";
    same(
        answered(&rt, alloc, Question::WitnessMap, text.as_bytes())?,
        ("regular", table(alloc, lines)?),
    )
}

#[test]
fn the_calls_of_an_atomic_history_are_their_own(rt: HostRuntime) -> Result<(), Fail> {
    let alloc = rt.alloc();
    let text = b"at,event,process,op,data\n7,end,1,view,\n2,begin,1,view,\n";
    same(
        answered(&rt, alloc, Question::WitnessMap, text)?,
        ("atomic", table(alloc, "1,1,2,3,1,1,3,2\n")?),
    )
}

#[test]
fn a_text_that_is_no_history_gets_its_refusal(rt: HostRuntime) -> Result<(), Fail> {
    let alloc = rt.alloc();
    let text = history(alloc, "begin,1,view,\nbegin,1,view,\n")?;
    let line = String::from_str(alloc, "refused record 3: busy\n")?;
    same(
        answered(&rt, alloc, Question::WitnessMap, text.as_bytes())?,
        ("refused", line),
    )
}
