//! The records of a text by their numbers.
use super::{STALE_VIEW, VIEW_BESIDE_UPDATE, stamps};
use snap_core::{Counted, Limit};
use snap_csv::{ReadRefusal, read_records, record_of};
use snap_text::TextFault;
use std::alloc::{AllocError, Global};
use std::process::Abort;
use std::test::Fail;

// The numbers of the records of a text's events.
fn records_in(alloc: Global, text: &[u8]) -> Result<Vec<u32>, Fail> {
    let mut room = Vec::new(alloc);
    let mut reader = Counted::new(text);
    let (history, records) = read_records(alloc, &mut reader, &mut room, Limit::usual())
        .ok()
        .ok_or("a history")?;
    if history.len() != records.len() {
        return Err("as many records as events".into());
    }
    Ok(records)
}

// The fields of a record, each after a bar, or nothing if there is no such record.
fn barred(alloc: Global, text: &[u8], place: u32) -> Result<Vec<u8>, AllocError> {
    let mut barred = Vec::new(alloc);
    if let Some(fields) = record_of(alloc, text, place)? {
        for field in &fields {
            barred.push(b'|')?;
            barred.extend_from_slice(field)?;
        }
    }
    Ok(barred)
}

// A record of a text has these fields, each after a bar.
fn expect_barred(
    rt: &impl Abort,
    alloc: Global,
    text: &[u8],
    place: u32,
    known: &str,
) -> Result<(), Fail> {
    let found = barred(alloc, text, place)?;
    assert_eq!(rt; found.as_slice(), known.as_bytes());
    Ok(())
}

#[test]
fn numbers_records_without_stamps_in_turn(rt: HostRuntime) -> Result<(), Fail> {
    let records = records_in(rt.alloc(), VIEW_BESIDE_UPDATE)?;
    assert_eq!(rt; records.as_slice(), [2, 3, 4, 5].as_slice());
    Ok(())
}

#[test]
fn numbers_records_and_no_lines(rt: HostRuntime) -> Result<(), Fail> {
    let text = b"event,process,op,data\r\n\r\nbegin,0,view,\r\n\r\n\r\nend,0,view,\r\n".as_slice();
    assert_eq!(rt; records_in(rt.alloc(), text)?.as_slice(), [2, 3].as_slice());
    expect_barred(&rt, rt.alloc(), text, 3, "|end|0|view|")
}

#[test]
fn numbers_stamped_records_by_their_places(rt: HostRuntime) -> Result<(), Fail> {
    let records = records_in(rt.alloc(), stamps::STALE_VIEW_STAMPED)?;
    assert_eq!(rt; records.as_slice(), [3, 4, 5, 2].as_slice());
    Ok(())
}

#[test]
fn looks_up_the_record_at_which_a_text_was_refused(rt: HostRuntime) -> Result<(), Fail> {
    let text =
        b"event,process,op,data\nbegin,0,view,\nend,\"0\",view,\"0:1:1, \"\"x\"\"\"\nend,0\n".as_slice();
    let mut room = Vec::new(rt.alloc());
    let mut reader = Counted::new(text);
    let answer = read_records(rt.alloc(), &mut reader, &mut room, Limit::usual()).err();
    let refusal = ReadRefusal::Text {
        place: 3,
        fault: TextFault::BadData,
    };
    assert_eq!(rt; answer, Some(refusal));
    expect_barred(&rt, rt.alloc(), &room, 3, "|end|0|view|0:1:1, \"x\"")
}

#[test]
fn looks_up_the_first_and_the_last_record_and_none_beside(rt: HostRuntime) -> Result<(), Fail> {
    expect_barred(&rt, rt.alloc(), STALE_VIEW, 1, "|event|process|op|data")?;
    expect_barred(&rt, rt.alloc(), STALE_VIEW, 5, "|end|1|view|")?;
    for place in &[0, 6, 4294967295] {
        assert!(rt; record_of(rt.alloc(), STALE_VIEW, *place)?.is_none());
    }
    Ok(())
}
