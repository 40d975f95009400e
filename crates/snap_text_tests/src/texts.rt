//! Texts that are read, refused and written.
use snap_core::{Counted, Entry, Event, History, View};
use snap_csv::{ReadRefusal, WriteRefusal, read_history, write_history};
use snap_testing::{Cup, Drip, Newlines};
use snap_text::fields_of;
use std::alloc::Global;
use std::io::Read;
use std::process::Abort;
use std::test::Fail;

mod failing_readers;
mod record_numbers;
mod stamps;

const STALE_VIEW: &[u8] =
    b"event,process,op,data\nbegin,0,update,0:1:7\nend,0,update,\nbegin,1,view,\nend,1,view,\n";

const VIEW_BESIDE_UPDATE: &[u8] =
    b"event,process,op,data\nbegin,0,update,0:1:3\nbegin,1,view,\nend,1,view,\nend,0,update,\n";

const EACH_FAULT_ONCE: &[(&[u8], u32, &str)] = &[
    (b"", 1, "header"),
    (b"event,process,op\n", 1, "header"),
    (b"Event,process,op,data\n", 1, "header"),
    (b"event,process,op,data\nbegin,0,view\n", 2, "fields"),
    (b"event,process,op,data\nbegin,0,view,,\n", 2, "fields"),
    (
        b"event,process,op,data\r\nstart,65536,scan,x\r\n",
        2,
        "event",
    ),
    (b"event,process,op,data\nbegin,65536,scan,x\n", 2, "process"),
    (b"event,process,op,data\nbegin,00,view,\n", 2, "process"),
    (b"event,process,op,data\nbegin,+1,view,\n", 2, "process"),
    (b"event,process,op,data\nbegin,0,scan,x\n", 2, "op"),
    (b"event,process,op,data\nbegin,0,update,0:01:1\n", 2, "data"),
    (
        b"event,process,op,data\nbegin,0,update,256:1:1\n",
        2,
        "data",
    ),
    (b"event,process,op,data\nbegin,0,update,0:0:1\n", 2, "data"),
    (b"event,process,op,data\nbegin,0,update,0:1\n", 2, "data"),
    (
        b"event,process,op,data\nbegin,0,update,0:1:1:1\n",
        2,
        "data",
    ),
    (b"event,process,op,data\nbegin,0,update,\n", 2, "data"),
    (b"event,process,op,data\nbegin,0,view,x\n", 2, "data"),
    (
        b"event,process,op,data\nend,0,view,1:1:1 0:1:1\n",
        2,
        "data",
    ),
    (
        b"event,process,op,data\nend,0,view,0:1:1  1:1:1\n",
        2,
        "data",
    ),
    (b"event,process,op,data\nend,0,view, 0:1:1\n", 2, "data"),
    (
        b"event,process,op,data\nbegin,0,update,0:1:4294967296\n",
        2,
        "data",
    ),
    (
        b"event,process,op,data\nbegin,0,view,\nbegin,0,view,\n",
        3,
        "busy",
    ),
    (
        b"\"event\",process,op,data\r\n\r\n\"end\",\"0\",view,\n",
        2,
        "idle",
    ),
    (
        b"event,process,op,data\nbegin,0,view,\nend,0,update,\n",
        3,
        "otherop",
    ),
    (
        b"event,process,op,data\nbegin,0,update,0:1:1\nend,0,update,\nbegin,1,update,0:2:1\n",
        4,
        "writer",
    ),
    (
        b"event,process,op,data\nbegin,0,update,0:2:1\n",
        2,
        "number",
    ),
    (
        b"event,process,op,data\nbegin,0,update,0:4294967295:1\n",
        2,
        "number",
    ),
    (
        b"event,process,op,data\nbegin,0,update,0:1:1\nend,0,update,\nbegin,0,update,0:1:1\n",
        4,
        "number",
    ),
];

fn refusal_of<R: Read + Drop>(alloc: Global, inner: R) -> (u32, &'static str) {
    let mut reader = Counted::new(inner);
    match read_history(alloc, &mut reader) {
        Ok(_) => (0, "none"),
        Err(ReadRefusal::Text { place, fault }) => (place, fault.word()),
        Err(ReadRefusal::Device) => (0, "device"),
        Err(ReadRefusal::Memory) => (0, "memory"),
    }
}

fn count_of(alloc: Global, text: &[u8]) -> Option<usize> {
    let mut reader = Counted::new(text);
    match read_history(alloc, &mut reader) {
        Ok(history) => Some(history.len()),
        Err(_) => None,
    }
}

// The header, and process 0's begins and ends of 32,768 updates.
fn full_text(alloc: Global) -> Result<Vec<u8>, std::alloc::AllocError> {
    let mut text = Vec::from_slice(alloc, b"event,process,op,data\n")?;
    for i in 1..32769u32 {
        text.extend_from_slice(b"begin,0,update,0:")?;
        text.extend_from_slice(itoa::Buffer::new().format(i).as_bytes())?;
        text.extend_from_slice(b":0\nend,0,update,\n")?;
    }
    Ok(text)
}

// Each text is refused at this record by this word.
fn expect_refusals(rt: &impl Abort, alloc: Global, known: &[(&[u8], u32, &str)]) {
    for (text, place, word) in known {
        assert_eq!(rt; refusal_of(alloc, *text), (*place, *word));
    }
}

#[test]
fn refuses_each_fault_at_its_place_by_its_word(rt: HostRuntime) {
    expect_refusals(&rt, rt.alloc(), EACH_FAULT_ONCE);
}

const TWO_FAULTS: &[(&[u8], u32, &str)] = &[
    (b"event,process,op,data\nstart,0,scan,x\n", 2, "event"),
    (
        b"event,process,op,data\nbegin,0,scan,\nstart,0,view,\n",
        2,
        "op",
    ),
];

#[test]
fn names_the_first_of_two_faults(rt: HostRuntime) {
    expect_refusals(&rt, rt.alloc(), TWO_FAULTS);
}

#[test]
fn takes_a_history_as_long_as_it_may_be_and_no_event_more(rt: HostRuntime) -> Result<(), Fail> {
    let mut text = full_text(rt.alloc())?;
    assert_eq!(rt; count_of(rt.alloc(), &text), Some(65536));
    text.extend_from_slice(b"begin,0,view,\n")?;
    assert_eq!(rt; refusal_of(rt.alloc(), text.as_slice()), (65538, "toomany"));
    Ok(())
}

#[test]
fn tests_the_length_of_a_text_before_its_records(rt: HostRuntime) {
    let too_long = refusal_of(rt.alloc(), Newlines { left: 67108865 });
    let longest = refusal_of(rt.alloc(), Newlines { left: 67108864 });
    assert!(rt; too_long == (0, "toolong") && longest == (1, "header"));
}

// Each text is of a history of this number of events.
fn expect_counts(rt: &impl Abort, alloc: Global, known: &[(&[u8], usize)]) {
    for (text, count) in known {
        assert_eq!(rt; count_of(alloc, text), Some(*count));
    }
}

const HEADERS: &[(&[u8], usize)] = &[
    (b"event,process,op,data\n", 0),
    (b"event,process,op,data", 0),
];

#[test]
fn reads_the_header_alone(rt: HostRuntime) {
    expect_counts(&rt, rt.alloc(), HEADERS);
}

// A text of quoted fields, texts with each form of line end, and one that begins with a byte order mark.
const SPELLINGS: &[(&[u8], usize)] = &[
    (
        b"\"event\",\"process\",\"op\",\"data\"\r\n\"begin\",\"0\",\"view\",\"\"\r\n",
        1,
    ),
    (b"event,process,op,data\rbegin,0,view,\r", 1),
    (
        b"event,process,op,data\n\n\nbegin,0,view,\n\nend,0,view,",
        2,
    ),
    (b"\xef\xbb\xbfevent,process,op,data\nbegin,0,view,\n", 1),
];

#[test]
fn reads_quoted_fields_and_every_end_of_a_line(rt: HostRuntime) {
    expect_counts(&rt, rt.alloc(), SPELLINGS);
}

// The number of events that are read from a text that comes a byte at a time, and the reader's count of failures.
fn dripped(alloc: Global, text: &[u8], fails_at: u64) -> (Result<usize, ReadRefusal>, u64) {
    let mut reader = Counted::new(Drip::new(text, fails_at));
    let count = match read_history(alloc, &mut reader) {
        Ok(history) => Ok(history.len()),
        Err(refusal) => Err(refusal),
    };
    (count, reader.failures())
}

// A failure at any one read of a text is the answer.
fn expect_failed_reads(rt: &impl Abort, alloc: Global, text: &[u8]) {
    for at in 1..text.len() as u64 + 2 {
        let found = dripped(alloc, text, at);
        assert!(rt; found == (Err(ReadRefusal::Device), 1), "at {at}");
    }
}

#[test]
fn reads_a_byte_at_a_time(rt: HostRuntime) {
    assert!(rt; dripped(rt.alloc(), STALE_VIEW, 0) == (Ok(4), 0));
}

#[test]
fn a_failed_read_is_the_answer_wherever_it_comes(rt: HostRuntime) {
    expect_failed_reads(&rt, rt.alloc(), STALE_VIEW);
}

// An event has these four fields.
fn expect_fields(
    rt: &impl Abort,
    alloc: Global,
    event: &Event,
    known: &[&str],
) -> Result<(), Fail> {
    let fields = fields_of(alloc, event)?;
    for (field, known) in fields.iter().zip(known) {
        assert_eq!(rt; field.as_slice(), known.as_bytes());
    }
    Ok(())
}

#[test]
fn spells_the_four_fields_of_an_event(rt: HostRuntime) -> Result<(), Fail> {
    let entry = Entry {
        component: 0,
        number: 1,
        value: 3,
    };
    let begin = Event::BeginUpdate { process: 0, entry };
    expect_fields(&rt, rt.alloc(), &begin, &["begin", "0", "update", "0:1:3"])?;
    let shown = vec![in rt.alloc();
        entry,
        Entry {
            component: 255,
            number: 4294967295,
            value: 0
        },
    ]?;
    let view = View::from_entries(shown).ok().ok_or("a view")?;
    let end = Event::EndView {
        process: 65535,
        view,
    };
    let known = ["end", "65535", "view", "0:1:3 255:4294967295:0"];
    expect_fields(&rt, rt.alloc(), &end, &known)
}

#[test]
fn writes_the_text_that_it_read(rt: HostRuntime) -> Result<(), Fail> {
    let mut reader = Counted::new(VIEW_BESIDE_UPDATE);
    let history = read_history(rt.alloc(), &mut reader)
        .ok()
        .ok_or("a history")?;
    let mut writer = Counted::new(Vec::new(rt.alloc()));
    assert_eq!(rt; write_history(rt.alloc(), &mut writer, &history), Ok(()));
    assert_eq!(rt; writer.into_inner().as_slice(), VIEW_BESIDE_UPDATE);
    Ok(())
}

// Whether a writer counted one failure, and its cup has as much of a text as it has room for, and was flushed or not.
fn is_front(writer: Counted<Cup>, text: &[u8], room: usize, is_flushed: bool) -> bool {
    let failures = writer.failures();
    let cup = writer.into_inner();
    failures == 1
        && text.starts_with(&cup.held)
        && cup.held.len() == room
        && cup.flushes == u64::from(is_flushed)
}

#[test]
fn a_failed_write_or_flush_is_the_answer(rt: HostRuntime) -> Result<(), Fail> {
    let mut history = History::new(rt.alloc());
    assert!(rt; history.push(Event::BeginView { process: 0 }).is_ok());
    let text = b"event,process,op,data\nbegin,0,view,\n".as_slice();
    for &(room, fails_at_flush) in &[(0, false), (10, false), (36, true)] {
        let mut writer = Counted::new(Cup::new(rt.alloc(), room, 3, false, fails_at_flush));
        let answer = write_history(rt.alloc(), &mut writer, &history);
        assert!(rt; answer == Err(WriteRefusal::Device), "at {room}");
        assert!(rt; is_front(writer, text, room, fails_at_flush), "at {room}");
    }
    Ok(())
}
