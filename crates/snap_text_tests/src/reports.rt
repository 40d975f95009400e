//! Lines of reports that are in no example.
use snap_conditions::{is_atomic, tally_range};
use snap_index::Index;
use snap_report::{report, verdict_text};
use snap_testing::{Step, history_of, worked};
use std::alloc::Global;
use std::test::Fail;

// The report of an index that is not atomic.
fn reported(alloc: Global, index: &Index<'_>) -> Result<Vec<u8>, Fail> {
    let tally = tally_range(index, 0, index.view_count());
    if is_atomic(&tally) {
        return Err(Fail::from("atomic"));
    }
    Ok(report(alloc, index, &tally, None)?)
}

// The text of a history: its report, if it is not atomic, or the lines of the verdicts alone.
fn text_of(alloc: Global, steps: &[Step<'_>], is_whole: bool) -> Result<Vec<u8>, Fail> {
    let history = history_of(alloc, steps)?;
    let index = Index::build(alloc, &history)?;
    if is_whole {
        return reported(alloc, &index);
    }
    let tally = tally_range(&index, 0, index.view_count());
    Ok(verdict_text(alloc, &tally)?)
}

#[test]
fn a_stale_view_is_reported_with_the_number_that_it_shows(rt: HostRuntime) -> Result<(), Fail> {
    let text = text_of(rt.alloc(), worked::STALE_VIEW, true)?;
    let expected =
        b"events 4 calls 2 pending 0 views 1\nregular no\nmonotone yes\natomic no\nproximity 1 first view 2 entry 0:0 old\n";
    assert_eq!(rt; text.as_slice(), expected.as_slice());
    Ok(())
}

#[test]
fn the_verdicts_alone_are_three_lines(rt: HostRuntime) -> Result<(), Fail> {
    let text = text_of(rt.alloc(), worked::NEW_THEN_OLD, false)?;
    let expected = b"regular yes\nmonotone no\natomic no\n";
    assert_eq!(rt; text.as_slice(), expected.as_slice());
    Ok(())
}
