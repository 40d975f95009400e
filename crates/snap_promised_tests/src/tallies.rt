//! The faults of worked histories.
use snap_conditions::{
    IntegrityFault, ProximityFault, ReadFault, Side, Tally, is_atomic, is_monotone, is_regular,
    merge, tally_range,
};
use snap_core::OpenGate;
use snap_index::Index;
use snap_pairs::{Cutting, CuttingRefusal, tally};
use snap_testing::worked::{CROSSED_VIEWS, MISSED_UPDATE, NEW_THEN_OLD, STALE_AND_WRONG};
use snap_testing::{entry, history_of};
use std::process::Abort;
use std::test::Fail;

// The read faults of the two views of `CROSSED_VIEWS`.
const OF_FIRST: ReadFault = ReadFault {
    view: 2,
    other: 3,
    component: 0,
};

const OF_SECOND: ReadFault = ReadFault {
    view: 3,
    other: 2,
    component: 1,
};

// The number of faults of each kind of a tally, and the number of pairs of views that go back.
fn counts(tally: &Tally) -> [u64; 5] {
    [
        tally.integrity.count(),
        tally.proximity.count(),
        tally.read.count(),
        tally.write.count(),
        tally.stale,
    ]
}

// A tally has this number of read faults and no others, and this is the first.
fn expect_reads(rt: &impl Abort, tally: &Tally, count: u64, first: ReadFault) {
    assert_eq!(rt; counts(tally), [0, 0, count, 0, 0]);
    assert_eq!(rt; tally.read.first(), Some(first));
}

// Two tallies, merged. Each has at most one fault of a kind.
fn merged(rt: &impl Abort, first: &Tally, second: &Tally) -> Tally {
    assert!(rt; first.integrity.count() <= 1 && second.integrity.count() <= 1);
    assert!(rt; first.proximity.count() <= 1 && second.proximity.count() <= 1);
    assert!(rt; first.read.count() <= 1 && second.read.count() <= 1);
    assert!(rt; first.write.count() <= 1 && second.write.count() <= 1);
    assert!(rt; first.stale <= 1 && second.stale <= 1);
    merge(*first, *second)
}

// The merged tallies of two views have the faults of both, and the first is that of the first view.
fn expect_merged(rt: &impl Abort, first: &Tally, second: &Tally) {
    expect_reads(rt, first, 1, OF_FIRST);
    expect_reads(rt, second, 1, OF_SECOND);
    expect_reads(rt, &merged(rt, first, second), 2, OF_FIRST);
}

// Each of the two views of an index has a read fault of its own.
fn expect_crossed(rt: &impl Abort, index: &Index<'_>) {
    assert!(rt; index.view_count() == 2);
    expect_merged(rt, &tally_range(index, 0, 1), &tally_range(index, 1, 2));
}

#[test]
fn merged_tallies_have_the_faults_of_both_and_the_first_of_the_first(
    rt: HostRuntime,
) -> Result<(), Fail> {
    let history = history_of(rt.alloc(), CROSSED_VIEWS)?;
    expect_crossed(&rt, &Index::build(rt.alloc(), &history)?);
    Ok(())
}

// The first view of an index misses an update, and the second shows a value that nobody wrote. A range without views has no fault.
fn expect_stale_and_wrong(rt: &impl Abort, index: &Index<'_>) {
    assert!(rt; index.view_count() == 2);
    let stale = tally_range(index, 0, 1);
    assert_eq!(rt; counts(&stale), [0, 1, 0, 0, 0]);
    let missed = ProximityFault {
        view: 1,
        component: 0,
        number: 0,
        side: Side::Old,
    };
    assert_eq!(rt; stale.proximity.first(), Some(missed));
    let wrong = tally_range(index, 1, 2);
    assert_eq!(rt; counts(&wrong), [1, 0, 0, 0, 0]);
    let shown = IntegrityFault {
        view: 2,
        entry: entry(0, 1, 9),
    };
    assert_eq!(rt; wrong.integrity.first(), Some(shown));
    assert_eq!(rt; tally_range(index, 1, 1), Tally::none());
}

#[test]
fn a_tally_of_a_range_has_the_faults_of_its_views_alone(rt: HostRuntime) -> Result<(), Fail> {
    let history = history_of(rt.alloc(), STALE_AND_WRONG)?;
    expect_stale_and_wrong(&rt, &Index::build(rt.alloc(), &history)?);
    Ok(())
}

// Whether the tally of all views of an index says that it is regular, monotone and atomic.
fn verdicts(index: &Index<'_>) -> [bool; 3] {
    let all = tally_range(index, 0, index.view_count());
    [is_regular(&all), is_monotone(&all), is_atomic(&all)]
}

#[test]
fn a_missed_update_is_regular_and_a_view_that_goes_back_is_not_monotone(
    rt: HostRuntime,
) -> Result<(), Fail> {
    let history = history_of(rt.alloc(), MISSED_UPDATE)?;
    let index = Index::build(rt.alloc(), &history)?;
    assert_eq!(rt; verdicts(&index), [true, true, false]);
    let history = history_of(rt.alloc(), NEW_THEN_OLD)?;
    let index = Index::build(rt.alloc(), &history)?;
    assert_eq!(rt; verdicts(&index), [true, false, false]);
    Ok(())
}

// Why there is no such cutting, or nothing if there is one.
fn refusal(pieces: u32, workers: u32) -> Option<CuttingRefusal> {
    Cutting::new(pieces, workers).err()
}

#[test]
fn a_cutting_has_1_to_1024_pieces_and_1_to_8_workers(rt: HostRuntime) -> Result<(), Fail> {
    assert_eq!(rt; refusal(0, 9), Some(CuttingRefusal::Pieces));
    assert_eq!(rt; refusal(1025, 1), Some(CuttingRefusal::Pieces));
    assert_eq!(rt; refusal(1, 9), Some(CuttingRefusal::Workers));
    let largest = Cutting::new(1024, 8)?;
    assert!(rt; largest.pieces() == 1024 && largest.workers() == 8);
    Ok(())
}

#[test]
fn the_largest_cutting_gives_the_tally_of_all_views(rt: HostRuntime) -> Result<(), Fail> {
    let history = history_of(rt.alloc(), CROSSED_VIEWS)?;
    let index = Index::build(rt.alloc(), &history)?;
    let all = tally(&rt, rt.alloc(), &index, Cutting::new(1024, 8)?, &OpenGate)?;
    expect_reads(&rt, &all, 2, OF_FIRST);
    Ok(())
}
