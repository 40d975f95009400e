//! The objects of worked texts.
use super::asking::answered;
use super::checks::{history, same};
use snap_runs::{Named, Question};
use std::alloc::Global;
use std::test::Fail;
use std::thread::Threads;

// How the answer for a text ends, and its object.
fn told<Rt: Threads + Sync>(
    rt: &Rt,
    alloc: Global,
    name: &str,
    text: &[u8],
    views: u32,
) -> Result<(&'static str, String), Fail> {
    let name = name.as_bytes();
    answered(rt, alloc, Question::Object(Named { name, views }), text)
}

// Events, how the answer ends, and the object without its name.
const WORKED: &[(&str, &str, &str)] = &[
    (
        "begin,0,update,0:1:3\nbegin,1,view,\nend,1,view,\n",
        "atomic",
        "\"status\":0,\"events\":3,\"calls\":2,\"pending\":1,\"views\":1,\
        \"regular\":true,\"monotone\":true,\"atomic\":true,\
        \"integrity\":null,\"proximity\":null,\"read\":null,\"write\":null}\n",
    ),
    (
        "begin,0,update,0:1:7\nend,0,update,\nbegin,1,view,\nbegin,0,update,0:2:8\nend,1,view,0:2:9\n",
        "irregular",
        "\"status\":2,\"events\":5,\"calls\":3,\"pending\":1,\"views\":1,\
        \"regular\":false,\"monotone\":true,\"atomic\":false,\
        \"integrity\":{\"count\":1,\
        \"view\":{\"call\":2,\"process\":1,\"op\":\"view\",\"begin\":4,\"end\":6,\
        \"entries\":[{\"component\":0,\"number\":2,\"value\":9}]},\
        \"entry\":{\"component\":0,\"number\":2,\"value\":9},\
        \"update\":{\"call\":3,\"process\":0,\"op\":\"update\",\"begin\":5,\"end\":null,\
        \"entries\":[{\"component\":0,\"number\":2,\"value\":8}]}},\
        \"proximity\":null,\"read\":null,\"write\":null}\n",
    ),
    (
        "begin,3,view,\nend,3,view,1:1:6 2:5:0\n",
        "irregular",
        "\"status\":2,\"events\":2,\"calls\":1,\"pending\":0,\"views\":1,\
        \"regular\":false,\"monotone\":true,\"atomic\":false,\
        \"integrity\":{\"count\":2,\
        \"view\":{\"call\":1,\"process\":3,\"op\":\"view\",\"begin\":2,\"end\":3,\
        \"entries\":[{\"component\":1,\"number\":1,\"value\":6},{\"component\":2,\"number\":5,\"value\":0}]},\
        \"entry\":{\"component\":1,\"number\":1,\"value\":6},\"update\":null},\
        \"proximity\":null,\"read\":null,\"write\":null}\n",
    ),
    (
        "begin,0,view,\nbegin,0,view,\n",
        "refused",
        "\"status\":3,\"refused\":{\"record\":3,\"fault\":\"busy\"}}\n",
    ),
];

#[test]
fn worked_texts_have_their_objects(rt: HostRuntime) -> Result<(), Fail> {
    let alloc = rt.alloc();
    for (events, status, fields) in WORKED {
        let text = history(alloc, events)?;
        let mut known = String::from_str(alloc, "{\"name\":\"a.csv\",")?;
        known.push_str(fields)?;
        same(
            told(&rt, alloc, "a.csv", text.as_bytes(), 0)?,
            (*status, known),
        )?;
    }
    Ok(())
}

#[test]
fn a_name_is_escaped(rt: HostRuntime) -> Result<(), Fail> {
    let alloc = rt.alloc();
    let known =
        "{\"name\":\"\\\"a\\\\\\n\\u0001\u{fc}\",\"status\":3,\"refused\":{\"record\":1,\"fault\":\"header\"}}\n";
    same(
        told(&rt, alloc, "\"a\\\n\u{1}\u{fc}", b"", 0)?,
        ("refused", String::from_str(alloc, known)?),
    )
}

#[test]
fn a_history_with_too_few_views_has_no_verdict(rt: HostRuntime) -> Result<(), Fail> {
    let alloc = rt.alloc();
    let text = history(alloc, "begin,0,view,\nend,0,view,\n")?;
    let known = "{\"name\":\"-\",\"status\":3,\"too_few_views\":{\"views\":1,\"least\":2}}\n";
    same(
        told(&rt, alloc, "-", text.as_bytes(), 2)?,
        ("refused", String::from_str(alloc, known)?),
    )
}
