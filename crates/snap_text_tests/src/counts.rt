//! What a counted reader or writer passes on and counts.
use snap_core::Counted;
use snap_testing::{Cup, Drip};
use std::alloc::Global;
use std::io::{Read, Write};

const TEXT: &[u8] = b"twelve bytes";

fn cup(alloc: Global, room: usize, at_once: usize, fails_when_full: bool) -> Cup {
    Cup::new(alloc, room, at_once, fails_when_full, false)
}

// For each of three reads, whether it fails, and the count of failures after it.
const READS: &[(bool, u64)] = &[(false, 0), (true, 1), (false, 1)];

#[test]
fn a_failed_read_is_counted_and_not_tried_again(rt: HostRuntime) {
    let mut reader = Counted::new(Drip::new(b"ab", 2));
    let mut buf = [0; 4];
    for &(fails, failures) in READS {
        assert!(rt; reader.read(&mut buf).is_err() == fails && reader.failures() == failures);
    }
    assert_eq!(rt; reader.into_inner().reads, 3);
}

#[test]
fn an_empty_write_counts_only_where_bytes_were_to_go_out(rt: HostRuntime) {
    let mut writer = Counted::new(cup(rt.alloc(), 0, 4, false));
    assert!(rt; writer.write(b"").is_ok() && writer.failures() == 0);
    assert!(rt; writer.write(TEXT).is_ok() && writer.failures() == 1);
}

#[test]
fn a_failed_write_and_a_failed_flush_are_counted(rt: HostRuntime) {
    let mut full = cup(rt.alloc(), 0, 4, true);
    full.fails_at_flush = true;
    let mut writer = Counted::new(full);
    assert!(rt; writer.write(TEXT).is_err() && writer.failures() == 1);
    assert!(rt; writer.flush().is_err() && writer.failures() == 2);
}

// Whether `sent` bytes of the text go out to a cup. If these are all, it is flushed once, and otherwise one failure is counted.
fn is_sent_so_far(cup: Cup, sent: usize) -> bool {
    let mut writer = Counted::new(cup);
    let is_whole = writer.send(TEXT).is_ok();
    let failures = writer.failures();
    let cup = writer.into_inner();
    TEXT.starts_with(&cup.held)
        && cup.held.len() == sent
        && is_whole == (sent == TEXT.len())
        && (failures, cup.flushes) == (u64::from(!is_whole), u64::from(is_whole))
}

// The room, the bytes for each write, and whether a full writer fails; then the bytes that go out.
const SENT: &[(usize, usize, bool, usize)] = &[
    (12, 12, true, 12),
    (12, 1, true, 12),
    (10, 4, true, 10),
    (10, 4, false, 10),
    (0, 4, false, 0),
];

#[test]
fn a_text_is_sent_whole_and_flushed_once_or_as_far_as_the_writer_takes_it(rt: HostRuntime) {
    for &(room, at_once, fails_when_full, sent) in SENT {
        let cup = cup(rt.alloc(), room, at_once, fails_when_full);
        assert!(rt; is_sent_so_far(cup, sent), "at {room} by {at_once}");
    }
}

#[test]
fn a_flush_that_fails_is_not_tried_again(rt: HostRuntime) {
    let mut stuck = cup(rt.alloc(), 12, 12, true);
    stuck.fails_at_flush = true;
    let mut writer = Counted::new(stuck);
    assert!(rt; writer.send(TEXT).is_err() && writer.failures() == 1);
    let cup = writer.into_inner();
    assert!(rt; cup.held.as_slice() == TEXT && cup.flushes == 1);
}
