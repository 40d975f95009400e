//! The counts of worked histories.
use super::asking::answered;
use super::checks::{history, same};
use snap_runs::Question;
use std::alloc::Global;
use std::test::Fail;
use std::thread::Threads;

// How the counting of a text ends, and what it writes: an object with a name, or lines.
fn counted<Rt: Threads + Sync>(
    rt: &Rt,
    alloc: Global,
    name: Option<&[u8]>,
    text: &[u8],
) -> Result<(&'static str, String), Fail> {
    answered(rt, alloc, Question::Counts(name), text)
}

// Events, and the lines of what they show.
const WORKED: &[(&str, &str)] = &[
    (
        "",
        "events 0\ncalls 0\npending 0\nviews 0\nupdates 0\nprocesses 0\ncomponents 0\n\
        views that overlap an update 0\nviews that overlap another view 0\nviews that overlap nothing 0\n\
        updates that no view shows 0\nmost calls open at once 0\nevents of the longest call 0\n\
        nothing overlapped: this run shows nothing of concurrency\n",
    ),
    (
        "begin,4,update,7:1:3\nend,4,update,\nbegin,4,view,\nend,4,view,7:1:3\n",
        "events 4\ncalls 2\npending 0\nviews 1\nupdates 1\nprocesses 1\ncomponents 1\n\
        views that overlap an update 0\nviews that overlap another view 0\nviews that overlap nothing 1\n\
        updates that no view shows 0\nmost calls open at once 1\nevents of the longest call 2\n\
        component 7 writer 4 updates 1 views 1\n\
        nothing overlapped: this run shows nothing of concurrency\n",
    ),
    (
        "begin,0,update,0:1:1\nbegin,1,update,1:1:1\nend,0,update,\nend,1,update,\n\
        begin,2,view,\nbegin,3,view,\nend,2,view,0:1:1 1:1:1\nend,3,view,0:1:1\n",
        "events 8\ncalls 4\npending 0\nviews 2\nupdates 2\nprocesses 4\ncomponents 2\n\
        views that overlap an update 0\nviews that overlap another view 2\nviews that overlap nothing 0\n\
        updates that no view shows 0\nmost calls open at once 2\nevents of the longest call 3\n\
        component 0 writer 0 updates 1 views 2\ncomponent 1 writer 1 updates 1 views 1\n\
        no view overlapped an update: this run shows nothing of concurrency\n",
    ),
    (
        "begin,0,update,0:1:3\nbegin,1,view,\nend,1,view,\nbegin,2,view,\nend,2,view,1:1:5\nbegin,3,view,\n",
        "events 6\ncalls 4\npending 2\nviews 2\nupdates 1\nprocesses 4\ncomponents 1\n\
        views that overlap an update 2\nviews that overlap another view 0\nviews that overlap nothing 0\n\
        updates that no view shows 1\nmost calls open at once 2\nevents of the longest call 2\n\
        component 0 writer 0 updates 1 views 0\n",
    ),
];

#[test]
fn worked_histories_have_these_lines(rt: HostRuntime) -> Result<(), Fail> {
    let alloc = rt.alloc();
    for (records, lines) in WORKED {
        let text = history(alloc, records)?;
        let lines = String::from_str(alloc, lines)?;
        same(
            counted(&rt, alloc, None, text.as_bytes())?,
            ("recorded", lines),
        )?;
    }
    Ok(())
}

#[test]
fn a_worked_history_has_this_object(rt: HostRuntime) -> Result<(), Fail> {
    let alloc = rt.alloc();
    let text = history(
        alloc,
        "begin,0,update,0:1:3\nbegin,1,view,\nend,1,view,0:1:3\nend,0,update,\n",
    )?;
    let known =
        "{\"name\":\"a \\\"b\\\"\",\"status\":0,\"events\":4,\"calls\":2,\"pending\":0,\"views\":1,\
        \"updates\":1,\"processes\":2,\"components\":1,\
        \"overlap_update\":1,\"overlap_view\":0,\"overlap_nothing\":0,\
        \"unshown\":0,\"most_open\":2,\"longest\":4,\"shows_concurrency\":true,\
        \"by_component\":[{\"component\":0,\"writer\":0,\"updates\":1,\"views\":1}]}\n";
    same(
        counted(&rt, alloc, Some(b"a \"b\""), text.as_bytes())?,
        ("recorded", String::from_str(alloc, known)?),
    )
}

#[test]
fn a_text_that_is_no_history_gets_its_first_fault(rt: HostRuntime) -> Result<(), Fail> {
    let alloc = rt.alloc();
    let text = b"event,process,op,data\nend,0,view,\n";
    let line = String::from_str(alloc, "refused record 2: idle\n")?;
    same(counted(&rt, alloc, None, text)?, ("refused", line))?;
    let object = "{\"name\":\"-\",\"status\":3,\"refused\":{\"record\":2,\"fault\":\"idle\"}}\n";
    same(
        counted(&rt, alloc, Some(b"-"), text)?,
        ("refused", String::from_str(alloc, object)?),
    )
}
