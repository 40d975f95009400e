//! Texts of histories, and reports.
ghost use Rattle.snap_core.specs.Calls.{calls_of, views_of};
ghost use Rattle.std.specs.Prelude.{◌≡◌};
ghost use Rattle.snap_conditions.specs.Tally.{tally_of};

use crate::fault::{Fault, expect};
use snap_check::{Status, brief_verdict_of, judge_text, order_by, verdict_of};
use snap_conditions::{Tally, is_atomic, tally_range};
use snap_core::{Counted, Event, History, Limit};
use snap_csv::{
    WriteRefusal, read_history, read_history_with, read_records, read_text, record_of,
    write_history, write_history_stamped,
};
use snap_index::Index;
use snap_report::{
    put_call, put_entry, put_number, put_update, refusal_text, report, report_in, verdict_text,
};
use snap_tally::tally_and_chain_alone;
use snap_testing::worked::{CROSSED_VIEWS, STALE_AND_WRONG, VIEW_BESIDE_UPDATE};
use snap_testing::{Cup, entry, history_of};
use snap_text::{TextFault, fields_of};
use snap_threads::Cutting;
use snap_witness::witness;
use std::alloc::{AllocError, Global};
use std::thread::Threads;

const VIEW_BESIDE_UPDATE_TEXT: &[u8] =
    b"event,process,op,data\nbegin,0,update,0:1:3\nbegin,1,view,\nend,1,view,\nend,0,update,\n";

const VIEW_BESIDE_UPDATE_STAMPED: &[u8] =
    b"at,event,process,op,data\n2,begin,0,update,0:1:3\n3,begin,1,view,\n5,end,1,view,\n\
      8,end,0,update,\n";

const VIEW_BESIDE_UPDATE_REPORT: &[u8] =
    b"events 4 calls 2 pending 0 views 1\nregular yes\nmonotone yes\natomic yes\norder 2\n\
      2 p1 view\n1 p0 update 0:1:3\n";

const CROSSED_VIEWS_REPORT: &[u8] =
    b"events 8 calls 4 pending 0 views 2\nregular yes\nmonotone yes\n\
      atomic no\nread 2 first view 3 view 4 component 0\n";

const CROSSED_VIEWS_VERDICTS: &[u8] = b"regular yes\nmonotone yes\natomic no\n";

const WRONG_ALONE_TEXT: &[u8] =
    b"event,process,op,data\nbegin,0,update,0:1:7\nend,0,update,\nbegin,2,view,\n\
      end,2,view,0:1:9\n";

const BUSY_TEXT: &[u8] = b"event,process,op,data\nbegin,0,view,\nbegin,0,view,\n";

// The history of this text has four events.
fn expect_read(alloc: Global, text: &[u8]) -> Result<(), Fault> {
    let history = read_history(alloc, &mut Counted::new(text))?;
    expect(history.len() == 4)
}

/// A text of each version is read.
pub(crate) fn read(alloc: Global) -> Result<(), Fault> {
    expect_read(alloc, VIEW_BESIDE_UPDATE_TEXT)?;
    expect_read(alloc, VIEW_BESIDE_UPDATE_STAMPED)
}

// The events of this text are in the records from 2 to 5.
fn expect_records(alloc: Global, text: &[u8]) -> Result<(), Fault> {
    let mut room = Vec::new(alloc);
    let mut reader = Counted::new(text);
    let (_history, records) = read_records(alloc, &mut reader, &mut room, Limit::usual())?;
    expect(records.as_slice() == [2, 3, 4, 5].as_slice() && room.as_slice() == text)
}

/// A text of each version is read with the numbers of its records.
pub(crate) fn read_with_records(alloc: Global) -> Result<(), Fault> {
    expect_records(alloc, VIEW_BESIDE_UPDATE_TEXT)?;
    expect_records(alloc, VIEW_BESIDE_UPDATE_STAMPED)
}

/// The last record of a text has four fields, and there is none after it.
pub(crate) fn record(alloc: Global) -> Result<(), Fault> {
    expect(record_of(alloc, VIEW_BESIDE_UPDATE_TEXT, 6)?.is_none())?;
    match record_of(alloc, VIEW_BESIDE_UPDATE_TEXT, 5)? {
        Some(fields) => expect(fields.len() == 4 && fields[0].as_slice() == b"end".as_slice()),
        None => Err(Fault::Wrong),
    }
}

// The history of this text has four events. It is read from a reader into a vector, which then has the text.
fn expect_read_in<R: Threads + Sync>(rt: &R, alloc: Global, text: &[u8]) -> Result<(), Fault> {
    let mut room = vec![in alloc; b'x']?;
    let mut reader = Counted::new(text);
    let (limit, cutting) = (Limit::usual(), Cutting::usual());
    let answer = read_history_with(rt, alloc, &mut reader, &mut room, limit, cutting);
    expect(reader.failures() == 0)?;
    expect(answer?.len() == 4 && room.as_slice() == text)
}

// The history of this text has four events. It is read from memory, and then from a reader into a vector.
fn expect_read_in_memory<R: Threads + Sync>(
    rt: &R,
    alloc: Global,
    text: &[u8],
) -> Result<(), Fault> {
    expect(read_text(alloc, text, Limit::usual())?.len() == 4)?;
    expect_read_in(rt, alloc, text)
}

/// A text of each version is read from memory, and from a reader into a vector.
pub(crate) fn read_in_memory<R: Threads + Sync>(rt: &R, alloc: Global) -> Result<(), Fault> {
    expect_read_in_memory(rt, alloc, VIEW_BESIDE_UPDATE_TEXT)?;
    expect_read_in_memory(rt, alloc, VIEW_BESIDE_UPDATE_STAMPED)
}

// A writer that already has its memory.
fn cup(alloc: Global) -> Result<Counted<Cup>, AllocError> {
    Ok(Counted::new(Cup {
        held: Vec::with_capacity(alloc, 256)?,
        room: 256,
        at_once: 256,
        fails_when_full: true,
        fails_at_flush: false,
        flushes: 0,
    }))
}

// The text was written, or nothing for lack of memory, and no failure was counted.
fn expect_written(
    answer: Result<(), WriteRefusal>,
    writer: Counted<Cup>,
    text: &[u8],
) -> Result<(), Fault> {
    let wanted: &[u8] = if answer.is_ok() { text } else { b"" };
    expect(writer.failures() == 0 && writer.into_inner().held.as_slice() == wanted)?;
    Ok(answer?)
}

// The text of a history is written whole, or nothing of it.
fn expect_text(alloc: Global, history: &History, text: &[u8]) -> Result<(), Fault> {
    let mut writer = cup(alloc)?;
    let answer = write_history(alloc, &mut writer, history);
    expect_written(answer, writer, text)
}

/// A text is written whole, or nothing of it.
pub(crate) fn write(alloc: Global) -> Result<(), Fault> {
    let history = history_of(alloc, VIEW_BESIDE_UPDATE)?;
    expect_text(alloc, &history, VIEW_BESIDE_UPDATE_TEXT)
}

/// A text with stamps is written whole, or nothing of it.
pub(crate) fn write_stamped(alloc: Global) -> Result<(), Fault> {
    let history = history_of(alloc, VIEW_BESIDE_UPDATE)?;
    if history.len() != 4 {
        return Err(Fault::Wrong);
    }
    let mut writer = cup(alloc)?;
    let answer = write_history_stamped(alloc, &mut writer, &history, &[2, 3, 5, 8]);
    expect_written(answer, writer, VIEW_BESIDE_UPDATE_STAMPED)
}

// The fields are those of the begin of the update.
fn are_of_begin(fields: &[Vec<u8>; 4]) -> bool {
    fields[0].as_slice() == b"begin".as_slice()
        && fields[1].as_slice() == b"0".as_slice()
        && fields[2].as_slice() == b"update".as_slice()
        && fields[3].as_slice() == b"0:1:3".as_slice()
}

/// The four fields of an event.
pub(crate) fn fields(alloc: Global) -> Result<(), Fault> {
    let event = Event::BeginUpdate {
        process: 0,
        entry: entry(0, 1, 3),
    };
    expect(are_of_begin(&fields_of(alloc, &event)?))
}

// A text was made, and is this one.
fn expect_bytes(made: Result<Vec<u8>, AllocError>, text: &[u8]) -> Result<(), Fault> {
    expect(made?.as_slice() == text)
}

// A status and a text were made, and are these.
fn expect_verdict(
    made: Result<(Status, Vec<u8>), AllocError>,
    wanted: Status,
    text: &[u8],
) -> Result<(), Fault> {
    let (status, made) = made?;
    expect(status == wanted && made.as_slice() == text)
}

/// What is made from a history with faults.
#[derive(Clone, Copy)]
pub(crate) enum Made {
    /// Its report.
    Report,
    /// Its report in the memory of a vector.
    ReportInMemory,
    /// The lines of the verdicts alone.
    VerdictsAlone,
    /// The lines of the verdicts alone, with the status.
    BriefVerdict,
    /// Its witness.
    Witness,
}

// The witness of an index is this text.
fn expect_witness(alloc: Global, index: &Index<'_>, tally: &Tally, text: &[u8]) -> Result<(), Fault>
    requires { tally.now ≡ tally_of (calls_of index.now) (views_of (calls_of index.now)) }
{
    match witness(alloc, index, tally)? {
        Some(found) => expect_text(alloc, &found, text),
        None => Err(Fault::Wrong),
    }
}

// What is made from an index is as it must be.
fn expect_made(alloc: Global, index: &Index<'_>, made: Made) -> Result<(), Fault> {
    let tally = tally_range(index, 0, index.view_count());
    if is_atomic(&tally) {
        return Err(Fault::Wrong);
    }
    match made {
        Made::Report => expect_bytes(report(alloc, index, &tally, None), CROSSED_VIEWS_REPORT),
        Made::ReportInMemory => {
            let room = vec![in alloc; b'x']?;
            expect_bytes(report_in(room, index, &tally, None), CROSSED_VIEWS_REPORT)
        }
        Made::VerdictsAlone => expect_bytes(verdict_text(alloc, &tally), CROSSED_VIEWS_VERDICTS),
        Made::BriefVerdict => expect_verdict(
            brief_verdict_of(alloc, index, &tally),
            Status::Regular,
            CROSSED_VIEWS_VERDICTS,
        ),
        Made::Witness => expect_witness(alloc, index, &tally, WRONG_ALONE_TEXT),
    }
}

/// A report or the verdicts of two views that disagree. The witness is of a view that misses an update and a view that shows a
/// value that nobody wrote. It has the second view, and the update.
pub(crate) fn text_made(alloc: Global, made: Made) -> Result<(), Fault> {
    let steps = match made {
        Made::Witness => STALE_AND_WRONG,
        _ => CROSSED_VIEWS,
    };
    let history = history_of(alloc, steps)?;
    let index = Index::build(alloc, &history)?;
    expect_made(alloc, &index, made)
}

// The status and the report of an atomic history, along the chain of its views.
fn report_along_chain<R: Threads + Sync>(
    rt: &R,
    alloc: Global,
) -> Result<(Status, Vec<u8>), Fault> {
    let history = history_of(alloc, VIEW_BESIDE_UPDATE)?;
    let index = Index::build(alloc, &history)?;
    let (tally, chain) = tally_and_chain_alone(alloc, &index)?;
    let order = order_by(rt, alloc, &index, &tally, chain, 2)?;
    let room = Vec::new(alloc);
    Ok(verdict_of(rt, &index, &tally, order.as_deref(), room, 2)?)
}

/// The status and the report along a chain. If memory is refused, both are made once more.
pub(crate) fn verdict_along_chain<R: Threads + Sync>(rt: &R, alloc: Global) -> Result<(), Fault> {
    let (status, report) = match report_along_chain(rt, alloc) {
        Err(Fault::Memory) => report_along_chain(rt, alloc)?,
        answer => answer?,
    };
    expect(status == Status::Atomic && report.as_slice() == VIEW_BESIDE_UPDATE_REPORT)
}

// What is put after a word.
#[derive(Clone, Copy)]
enum Put {
    Number,
    Call,
    Update,
    Entry,
}

// A word and what is put after it, in a vector of its own.
fn line_of(alloc: Global, what: Put) -> Result<Vec<u8>, AllocError> {
    let mut line = Vec::new(alloc);
    match what {
        Put::Number => put_number(&mut line, b"component ", 255)?,
        Put::Call => put_call(&mut line, b"view ", 0)?,
        Put::Update => put_update(&mut line, b"update ", 255, 2)?,
        Put::Entry => put_entry(&mut line, b"entry ", &entry(255, 2, 7))?,
    }
    Ok(line)
}

// The line is this one. If memory is refused, it is made once more.
fn expect_line(alloc: Global, what: Put, known: &[u8]) -> Result<(), Fault> {
    let line = match line_of(alloc, what) {
        Ok(line) => line,
        Err(_refused) => line_of(alloc, what)?,
    };
    expect(line.as_slice() == known)
}

/// Words of lines.
pub(crate) fn words(alloc: Global) -> Result<(), Fault> {
    expect_line(alloc, Put::Number, b"component 255")?;
    expect_line(alloc, Put::Call, b"view 1")?;
    expect_line(alloc, Put::Update, b"update 255:2")?;
    expect_line(alloc, Put::Entry, b"entry 255:2:7")
}

/// The line of a refused text.
pub(crate) fn refusal(alloc: Global) -> Result<(), Fault> {
    expect_bytes(
        refusal_text(alloc, 3, TextFault::Busy),
        b"refused record 3: busy\n",
    )
}

/// The status and the report of a text, and of one that is not a history.
pub(crate) fn verdict(alloc: Global) -> Result<(), Fault> {
    let made = judge_text(alloc, VIEW_BESIDE_UPDATE_TEXT, Limit::usual());
    expect_verdict(made, Status::Atomic, VIEW_BESIDE_UPDATE_REPORT)?;
    let made = judge_text(alloc, BUSY_TEXT, Limit::usual());
    expect_verdict(made, Status::Refused, b"refused record 3: busy\n")
}
