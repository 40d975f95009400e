//! Workers that run at the same time: a gate holds each until the others have come.
use crate::checked::expect_worked;
use crate::plans::{shows, two_stores};
use crate::recordings::{expect_lines, recorded};
use crate::reports::CROSSED_VIEWS;
use snap_conditions::{ReadFault, Tally};
use snap_core::{Event, Gate, View};
use snap_index::Index;
use snap_pairs::{Cutting, tally};
use snap_record::{Plan, Recording, Step, record_plan};
use snap_testing::{Held, Meeting, entry, history_of, worked};
use std::alloc::Global;
use std::process::Abort;
use std::test::Fail;
use std::thread::Threads;

// The tally of two crossed views has their faults, and no other.
fn expect_crossed(rt: &impl Abort, all: &Tally) {
    let first = ReadFault {
        view: 2,
        other: 3,
        component: 0,
    };
    assert!(rt; all.integrity.count() == 0 && all.proximity.count() == 0 && all.write.count() == 0);
    assert!(rt; all.read.count() == 2 && all.read.first() == Some(first) && all.stale == 0);
}

// Two workers tally two crossed views in `pieces` pieces, at a gate.
fn tally_crossed<R: Threads + Sync + Abort, G: Gate>(
    rt: &R,
    alloc: Global,
    pieces: u32,
    gate: &G,
) -> Result<(), Fail> {
    let history = history_of(alloc, worked::CROSSED_VIEWS)?;
    let index = Index::build(alloc, &history)?;
    let all = tally(rt, alloc, &index, Cutting::new(pieces, 2)?, gate)?;
    expect_crossed(rt, &all);
    Ok(())
}

#[test]
fn two_workers_each_have_a_piece_at_the_same_time(rt: HostRuntime) -> Result<(), Fail> {
    let gate = Meeting::at_turn(0);
    tally_crossed(&rt, rt.alloc(), 2, &gate)?;
    assert!(rt; gate.was_held());
    Ok(())
}

#[test]
fn a_worker_draws_on_while_the_other_is_held_at_its_first_piece(
    rt: HostRuntime,
) -> Result<(), Fail> {
    let gate = Held::until(1, 2);
    tally_crossed(&rt, rt.alloc(), 4, &gate)?;
    assert!(rt; gate.was_left());
    Ok(())
}

#[test]
fn a_check_by_two_workers_has_both_at_work_at_the_same_time(rt: HostRuntime) -> Result<(), Fail> {
    let gate = Meeting::at_turn(0);
    expect_worked(&rt, rt.alloc(), CROSSED_VIEWS, Cutting::new(2, 2)?, &gate)?;
    assert!(rt; gate.was_held());
    Ok(())
}

// A view of each of two processes shows both stores.
fn expect_both_shown(rt: &impl Abort, recording: &Recording) {
    assert!(rt; recording.history.len() == 8 && recording.interfered == 0);
    let events = recording.history.events();
    for process in 0..2 {
        assert!(rt;
            events
                .iter()
                .any(|event| shows(event, process, entry(0, 1, 5)))
        );
        assert!(rt;
            events
                .iter()
                .any(|event| shows(event, process, entry(1, 1, 6)))
        );
    }
}

#[test]
fn views_after_both_stores_show_both(rt: HostRuntime) -> Result<(), Fail> {
    let plan = two_stores(rt.alloc(), (5, 6), Step::View)?;
    let gate = Meeting::at_turn(1);
    let recording = record_plan(&rt, rt.alloc(), &plan, &gate)?;
    assert!(rt; gate.was_held());
    expect_both_shown(&rt, &recording);
    Ok(())
}

#[test]
fn scans_after_both_stores_show_both_and_none_is_left_out(rt: HostRuntime) -> Result<(), Fail> {
    let plan = two_stores(rt.alloc(), (5, 6), Step::Scan(64))?;
    let gate = Meeting::at_turn(1);
    let recording = record_plan(&rt, rt.alloc(), &plan, &gate)?;
    assert!(rt; gate.was_held());
    expect_both_shown(&rt, &recording);
    Ok(())
}

#[test]
fn the_text_of_a_recording_has_the_views_after_both_stores(rt: HostRuntime) -> Result<(), Fail> {
    let plan = two_stores(rt.alloc(), (5, 6), Step::View)?;
    let gate = Meeting::at_turn(1);
    let text = recorded(&rt, rt.alloc(), &plan, &gate)?;
    assert!(rt; gate.was_held());
    let wanted: &[&str] = &["end,0,view,0:1:5 1:1:6", "end,1,view,0:1:5 1:1:6"];
    expect_lines(&rt, &text, "event,process,op,data", 9, wanted)
}

// The plan of eight workers, each of which stores its number and then takes a view.
fn eight_stores(alloc: Global) -> Result<Plan, Fail> {
    let mut scripts = Vec::new(alloc);
    for worker in 0..8 {
        scripts.push([Step::Store(worker), Step::View].to_vec(alloc)?)?;
    }
    Ok(Plan::new(scripts)?)
}

// Whether a view shows, of each of eight components, the first store, of its number.
fn shows_eight(view: &View) -> bool {
    view.entries().len() == 8
        && (0..8u8).all(|k| view.number(k) == 1 && view.value(k) == u32::from(k))
}

// The number of such views.
fn views_of_eight(recording: &Recording) -> usize {
    let events = recording.history.events().iter();
    events
        .filter(|event| matches!(event, Event::EndView { view, .. } if shows_eight(view)))
        .count()
}

#[test]
fn views_after_eight_stores_show_all_eight(rt: HostRuntime) -> Result<(), Fail> {
    let plan = eight_stores(rt.alloc())?;
    let gate = Meeting::of(8, 1);
    let recording = record_plan(&rt, rt.alloc(), &plan, &gate)?;
    assert!(rt; gate.was_held());
    assert!(rt; recording.history.len() == 32 && views_of_eight(&recording) == 8);
    Ok(())
}
