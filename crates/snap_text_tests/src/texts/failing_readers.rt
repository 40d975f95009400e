//! Readers that fail while a text is read, and what the calls answer then.
use super::{STALE_VIEW, stamps};
use snap_core::{Counted, Limit};
use snap_csv::{ReadRefusal, read_history, read_records};
use snap_testing::Drip;
use std::alloc::Global;
use std::process::Abort;

// What a call answered, and the counts of failures and reads after it.
type Found = (Result<usize, ReadRefusal>, u64, u64);

// The number of events that are read from a text that comes a byte at a time.
fn history_in(alloc: Global, text: &[u8], fails_at: u64) -> Found {
    let mut reader = Counted::new(Drip::new(text, fails_at));
    let count = match read_history(alloc, &mut reader) {
        Ok(history) => Ok(history.len()),
        Err(refusal) => Err(refusal),
    };
    (count, reader.failures(), reader.into_inner().reads)
}

// The same number, read with the numbers of the records, of which there are as many.
fn records_in(alloc: Global, text: &[u8], fails_at: u64) -> Found {
    let mut reader = Counted::new(Drip::new(text, fails_at));
    let mut room = Vec::new(alloc);
    let count = match read_records(alloc, &mut reader, &mut room, Limit::usual()) {
        Ok((_history, records)) => Ok(records.len()),
        Err(refusal) => Err(refusal),
    };
    (count, reader.failures(), reader.into_inner().reads)
}

// Each text with its length. The header has 22 bytes, or 25 with stamps. The read after the last byte finds the end.
const TEXTS: &[(&[u8], u64)] = &[(STALE_VIEW, 83), (stamps::STALE_VIEW_STAMPED, 94)];

// The failure of read `at` is the answer, and no read follows it.
fn expect_device(rt: &impl Abort, at: u64, found: Found) {
    assert!(rt; found == (Err(ReadRefusal::Device), 1, at), "at {at}");
}

#[test]
fn a_history_ends_at_the_read_that_fails(rt: HostRuntime) {
    for (text, bytes) in TEXTS {
        for at in 1..*bytes + 2 {
            expect_device(&rt, at, history_in(rt.alloc(), *text, at));
        }
        let found = history_in(rt.alloc(), *text, *bytes + 2);
        assert!(rt; found == (Ok(4), 0, *bytes + 1));
    }
}

#[test]
fn records_that_are_numbered_end_at_the_read_that_fails(rt: HostRuntime) {
    for (text, bytes) in TEXTS {
        for at in 1..*bytes + 2 {
            expect_device(&rt, at, records_in(rt.alloc(), *text, at));
        }
        let found = records_in(rt.alloc(), *text, *bytes + 2);
        assert!(rt; found == (Ok(4), 0, *bytes + 1));
    }
}

// A failed first read takes nothing, so the next call on the reader has the whole text, and the count stays.
#[test]
fn a_reader_that_has_failed_once_keeps_its_count(rt: HostRuntime) {
    let mut reader = Counted::new(Drip::new(STALE_VIEW, 1));
    let mut room = Vec::new(rt.alloc());
    let first = read_records(rt.alloc(), &mut reader, &mut room, Limit::usual()).err();
    assert!(rt; first == Some(ReadRefusal::Device) && reader.failures() == 1);
    let second = read_records(rt.alloc(), &mut reader, &mut room, Limit::usual());
    assert!(rt; second.is_ok() && reader.failures() == 1);
    assert_eq!(rt; room.as_slice(), STALE_VIEW);
}
