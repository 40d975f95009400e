//! Texts whose records have stamps.
use super::{dripped, expect_counts, expect_failed_reads, expect_refusals, is_front, refusal_of};
use snap_core::{Counted, Event, History, Limit};
use snap_csv::{WriteRefusal, read_text, write_history, write_history_stamped};
use snap_testing::Cup;
use std::alloc::{AllocError, Global};
use std::test::Fail;

const EACH_STAMPED_FAULT: &[(&[u8], u32, &str)] = &[
    (b"at,event,process,op\n", 1, "header"),
    (b"event,at,process,op,data\n", 1, "header"),
    (b"at,event,process,op,data\nbegin,0,view,\n", 2, "fields"),
    (b"at,event,process,op,data\nx,start,p,scan,x\n", 2, "at"),
    (b"at,event,process,op,data\n05,begin,0,view,\n", 2, "at"),
    (b"at,event,process,op,data\n+5,begin,0,view,\n", 2, "at"),
    (b"at,event,process,op,data\n,begin,0,view,\n", 2, "at"),
    (
        b"at,event,process,op,data\n18446744073709551616,begin,0,view,\n",
        2,
        "at",
    ),
    (b"at,event,process,op,data\n5,start,p,scan,x\n", 2, "event"),
    (
        b"at,event,process,op,data\n5,begin,0,view,\n5,end,0,view,\n",
        3,
        "repeated",
    ),
    (
        b"at,event,process,op,data\n1,end,0,view,\n1,end,0,view,\n",
        3,
        "repeated",
    ),
    (
        b"at,event,process,op,data\n4,begin,0,view,\n4,begin,0,view,x\n",
        3,
        "data",
    ),
    (
        b"at,event,process,op,data\n9,begin,0,view,\n4,end,0,view,\n",
        3,
        "idle",
    ),
    (
        b"at,event,process,op,data\n7,end,0,view,\n3,end,1,view,\n5,begin,2,update,0:2:1\n",
        3,
        "idle",
    ),
    (
        b"at,event,process,op,data\n5,begin,0,view,\n5,end,0,view,\nx,begin,0,view,\n",
        3,
        "repeated",
    ),
    (
        b"at,event,process,op,data\n5,begin,0,view,\n7,end,0,view,\n7,begin,0,view,\n5,end,0,view,\n",
        4,
        "repeated",
    ),
    (
        b"at,event,process,op,data\n9,begin,0,view,\n5,end,0,view,\n9,begin,0,view,\n5,end,0,view\n",
        4,
        "repeated",
    ),
    (
        b"\n\nat,event,process,op,data\n\n5,begin,0,view,\n\n\n\n\n\n\n\n\n\n\n\n\n\n\n\n\n\n\n\n\n\n\n\n\n\n\n\n\n\n\n\n\n\n\n\n\n\n\n5,end,0,view,\n",
        3,
        "repeated",
    ),
    (b"\n\n\n", 1, "header"),
    (
        b"\xEF\xBB\xBF\n\nat,event,process,op,data\n5,begin,0,view\n",
        2,
        "fields",
    ),
];

#[test]
fn refuses_each_fault_of_a_text_with_stamps(rt: HostRuntime) {
    expect_refusals(&rt, rt.alloc(), EACH_STAMPED_FAULT);
}

// A text whose lines end with CR LF, so that it is read byte by byte.
fn with_cr_lf(alloc: Global, text: &[u8]) -> Result<Vec<u8>, AllocError> {
    let mut lines = Vec::new(alloc);
    for byte in text {
        if *byte == b'\n' {
            lines.push(b'\r')?;
        }
        lines.push(*byte)?;
    }
    Ok(lines)
}

#[test]
fn refuses_the_same_of_lines_with_cr_lf(rt: HostRuntime) -> Result<(), Fail> {
    for (text, place, word) in EACH_STAMPED_FAULT {
        let lines = with_cr_lf(rt.alloc(), text)?;
        assert_eq!(rt; refusal_of(rt.alloc(), lines.as_slice()), (*place, *word));
    }
    Ok(())
}

// What `write_history` writes for the history of a text with stamps.
fn plain_text_of(alloc: Global, text: &[u8]) -> Result<Vec<u8>, Fail> {
    let history = read_text(alloc, text, Limit::usual())
        .ok()
        .ok_or("a history")?;
    let mut writer = Counted::new(Vec::new(alloc));
    write_history(alloc, &mut writer, &history)
        .ok()
        .ok_or("its text")?;
    Ok(writer.into_inner())
}

#[test]
fn reads_records_in_the_order_of_their_stamps(rt: HostRuntime) -> Result<(), Fail> {
    let text = b"at,event,process,op,data\n7,end,0,update,\n3,begin,0,update,0:1:7\n".as_slice();
    let plain = b"event,process,op,data\nbegin,0,update,0:1:7\nend,0,update,\n".as_slice();
    assert_eq!(rt; plain_text_of(rt.alloc(), text)?.as_slice(), plain);
    let lines = with_cr_lf(rt.alloc(), text)?;
    assert_eq!(rt; plain_text_of(rt.alloc(), &lines)?.as_slice(), plain);
    Ok(())
}

#[test]
fn compares_stamps_as_numbers(rt: HostRuntime) -> Result<(), Fail> {
    let text = b"at,event,process,op,data\n10,end,0,view,\n9,begin,0,view,\n".as_slice();
    let plain = b"event,process,op,data\nbegin,0,view,\nend,0,view,\n".as_slice();
    assert_eq!(rt; plain_text_of(rt.alloc(), text)?.as_slice(), plain);
    Ok(())
}

const GREATEST_AND_NONE: &[(&[u8], usize)] = &[
    (
        b"at,event,process,op,data\n18446744073709551615,begin,0,view,\n",
        1,
    ),
    (b"at,event,process,op,data\n", 0),
];

#[test]
fn takes_the_greatest_stamp_and_the_header_alone(rt: HostRuntime) {
    expect_counts(&rt, rt.alloc(), GREATEST_AND_NONE);
}

// As many views as a history may have, one after the other, without stamps.
fn views(alloc: Global) -> Result<Vec<u8>, AllocError> {
    let mut text = Vec::from_slice(alloc, b"event,process,op,data\n")?;
    for _ in 0..32768u32 {
        text.extend_from_slice(b"begin,0,view,\nend,0,view,\n")?;
    }
    Ok(text)
}

// The same views, with stamps from 14,465 to 80,000. The record with the last stamp comes first.
fn views_in_reverse(alloc: Global) -> Result<Vec<u8>, AllocError> {
    let mut text = Vec::from_slice(alloc, b"at,event,process,op,data\n")?;
    for i in 0..32768u32 {
        text.extend_from_slice(itoa::Buffer::new().format(80000 - 2 * i).as_bytes())?;
        text.extend_from_slice(b",end,0,view,\n")?;
        text.extend_from_slice(itoa::Buffer::new().format(79999 - 2 * i).as_bytes())?;
        text.extend_from_slice(b",begin,0,view,\n")?;
    }
    Ok(text)
}

#[test]
fn takes_as_many_records_in_reverse_order_as_a_history_may_have(
    rt: HostRuntime,
) -> Result<(), Fail> {
    let mut text = views_in_reverse(rt.alloc())?;
    let plain = views(rt.alloc())?;
    assert_eq!(rt; plain_text_of(rt.alloc(), &text)?, plain);
    text.extend_from_slice(b"x,begin,0,view,\n")?;
    assert_eq!(rt; refusal_of(rt.alloc(), text.as_slice()), (65538, "toomany"));
    Ok(())
}

pub(crate) const STALE_VIEW_STAMPED: &[u8] =
    b"at,event,process,op,data\n9,end,1,view,\n2,begin,0,update,0:1:7\n3,end,0,update,\n5,begin,1,view,\n";

#[test]
fn reads_stamps_a_byte_at_a_time(rt: HostRuntime) {
    assert!(rt; dripped(rt.alloc(), STALE_VIEW_STAMPED, 0) == (Ok(4), 0));
}

#[test]
fn a_failed_read_of_stamps_is_the_answer_wherever_it_comes(rt: HostRuntime) {
    expect_failed_reads(&rt, rt.alloc(), STALE_VIEW_STAMPED);
}

#[test]
fn a_failed_write_of_stamps_is_the_answer(rt: HostRuntime) -> Result<(), Fail> {
    let mut history = History::new(rt.alloc());
    assert!(rt; history.push(Event::BeginView { process: 0 }).is_ok());
    let text = b"at,event,process,op,data\n7,begin,0,view,\n".as_slice();
    for &(room, fails_at_flush) in &[(0, false), (10, false), (41, true)] {
        let mut writer = Counted::new(Cup::new(rt.alloc(), room, 3, false, fails_at_flush));
        let answer = write_history_stamped(rt.alloc(), &mut writer, &history, &[7]);
        assert!(rt; answer == Err(WriteRefusal::Device), "at {room}");
        assert!(rt; is_front(writer, text, room, fails_at_flush), "at {room}");
    }
    Ok(())
}
