//! Questions about texts in memory, and the devices of their runs that fail.
use super::checks::{end_of, history, same};
use snap_check::{RunFault, Status};
use snap_core::{Counted, Limit};
use snap_draw::Window;
use snap_explain::{Detail, Entries};
use snap_options::Scheme;
use snap_runs::{Named, Question, run};
use snap_testing::{Cup, Drip};
use std::alloc::Global;
use std::io::{Read, Write};
use std::test::Fail;
use std::thread::Threads;

/// How the run of a question ended.
pub(super) fn end_of_run(answer: Result<Option<Status>, RunFault>) -> &'static str {
    match answer {
        Ok(Some(status)) => end_of(Ok(status)),
        Ok(None) => "no status",
        Err(fault) => end_of(Err(fault)),
    }
}

/// How the answer to a question about a text ends, and what is written.
pub(super) fn answered<Rt: Threads + Sync>(
    rt: &Rt,
    alloc: Global,
    question: Question<'_>,
    text: &[u8],
) -> Result<(&'static str, String), Fail> {
    let mut reader = Counted::new(text);
    let mut writer = Counted::new(Vec::new(alloc));
    let usual = Limit::usual();
    let end = end_of_run(run(rt, alloc, question, &mut reader, &mut writer, usual));
    let out = String::from_str(alloc, str::from_utf8(&writer.into_inner())?)?;
    Ok((end, out))
}

// How the run of a question ends, from a reader to a writer, and the failures that the two count.
fn answered_over<Rt: Threads + Sync, R: Read + Drop, W: Write + Drop>(
    rt: &Rt,
    alloc: Global,
    question: Question<'_>,
    reader: R,
    writer: W,
) -> (&'static str, u64, u64) {
    let mut reader = Counted::new(reader);
    let mut writer = Counted::new(writer);
    let usual = Limit::usual();
    let end = end_of_run(run(rt, alloc, question, &mut reader, &mut writer, usual));
    (end, reader.failures(), writer.failures())
}

// One question of each kind.
fn questions() -> [Question<'static>; 12] {
    [
        Question::Explanation(Detail {
            listed: Entries::OfFault,
            faults: 1,
        }),
        Question::ExplanationDrawn(Entries::Whole),
        Question::Object(Named {
            name: b"-",
            views: 0,
        }),
        Question::TestCase(Named {
            name: b"-",
            views: 0,
        }),
        Question::Witness,
        Question::WitnessDrawn,
        Question::WitnessMap,
        Question::Page(None, Window::usual_page()),
        Question::Svg(Scheme::Light, Window::usual_page()),
        Question::Lines(Window::usual_lines()),
        Question::Counts(None),
        Question::Counts(Some(b"-")),
    ]
}

// A reader that fails at some byte ends the run, and so does a writer that fails before the end or when it is flushed.
fn expect_ends<Rt: Threads + Sync>(
    rt: &Rt,
    alloc: Global,
    question: Question<'_>,
    text: &[u8],
) -> Result<(), Fail> {
    for fails_at in 1..=text.len() as u64 + 1 {
        let drip = Drip::new(text, fails_at);
        same(
            answered_over(rt, alloc, question, drip, Vec::new(alloc)),
            ("read failed", 1, 0),
        )?;
    }
    for (room, fails_at_flush) in [(5, false), (100_000, true)] {
        let cup = Cup::new(alloc, room, 5, true, fails_at_flush);
        same(
            answered_over(rt, alloc, question, text, cup),
            ("write failed", 0, 1),
        )?;
    }
    Ok(())
}

#[test]
fn a_device_that_fails_ends_the_run_of_each_question(rt: HostRuntime) -> Result<(), Fail> {
    let alloc = rt.alloc();
    let text = history(alloc, "begin,0,view,\n")?;
    for question in questions() {
        expect_ends(&rt, alloc, question, text.as_bytes())?;
        expect_ends(&rt, alloc, question, b"no history")?;
    }
    Ok(())
}
