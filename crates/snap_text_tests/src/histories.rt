//! Histories made of events, pushed one by one.
use snap_core::{Event, EventRefusal, History, Ownership, histories_grow};
use snap_testing::Step::{Update, Updated, View, Viewed};
use snap_testing::{Step, event_of, history_of, worked};
use std::alloc::Global;
use std::process::Abort;
use std::test::Fail;

/// Why a history refuses a step, or nothing if it takes it.
pub(crate) fn refusal(
    alloc: Global,
    history: &mut History<impl Ownership>,
    step: Step<'_>,
) -> Result<Option<EventRefusal>, Fail> {
    match history.push(event_of(alloc, step)?) {
        Ok(()) => Ok(None),
        Err((_event, refusal)) => Ok(Some(refusal)),
    }
}

// A history that is given these steps one by one refuses each for this reason, or takes it.
fn expect_turns(
    rt: &impl Abort,
    alloc: Global,
    turns: &[(Step<'_>, Option<EventRefusal>)],
) -> Result<(), Fail> {
    let mut history = History::new(alloc);
    for &(step, known) in turns {
        assert_eq!(rt; refusal(alloc, &mut history, step)?, known);
    }
    Ok(())
}

// The process of the event at a place, if there is one.
fn process_at(history: &History, place: usize) -> Option<u16> {
    Some(history.event(place)?.process())
}

// The events at these places are of these processes.
fn expect_processes(rt: &impl Abort, history: &History, known: &[(usize, Option<u16>)]) {
    for &(place, process) in known {
        assert!(rt; process_at(history, place) == process, "at {place}");
    }
}

const FIVE_STEPS: &[Step<'static>] = &[
    Update(3, (200, 1, 1)),
    View(1),
    Updated(3),
    Viewed(1, &[]),
    Update(3, (200, 2, 1)),
];

#[test]
fn events_stand_in_the_order_of_their_pushes(rt: HostRuntime) -> Result<(), Fail> {
    let history = history_of(rt.alloc(), FIVE_STEPS)?;
    assert!(rt; history.len() == 5 && history.events().len() == 5);
    let processes = [
        (0, Some(3)),
        (1, Some(1)),
        (2, Some(3)),
        (3, Some(1)),
        (4, Some(3)),
        (5, None),
    ];
    expect_processes(&rt, &history, &processes);
    expect_processes(&rt, &History::new(rt.alloc()), &[(0, None)]);
    Ok(())
}

const OUT_OF_ORDER: &[(Step<'static>, Option<EventRefusal>)] = &[
    (Viewed(0, &[]), Some(EventRefusal::Idle)),
    (View(0), None),
    (Update(0, (0, 1, 1)), Some(EventRefusal::Busy)),
    (Updated(0), Some(EventRefusal::OtherOp)),
    (Updated(1), Some(EventRefusal::Idle)),
    (Viewed(0, &[]), None),
    (Updated(0), Some(EventRefusal::Idle)),
    (Update(0, (0, 1, 1)), None),
    (Viewed(0, &[]), Some(EventRefusal::OtherOp)),
];

#[test]
fn each_turn_out_of_order_is_refused(rt: HostRuntime) -> Result<(), Fail> {
    expect_turns(&rt, rt.alloc(), OUT_OF_ORDER)
}

const SECOND_WRITER: &[(Step<'static>, Option<EventRefusal>)] = &[
    (Update(0, (0, 2, 1)), Some(EventRefusal::Number)),
    (Update(0, (0, 0, 1)), Some(EventRefusal::Number)),
    (Update(0, (0, 1, 1)), None),
    (Updated(0), None),
    (Update(0, (0, 1, 1)), Some(EventRefusal::Number)),
    (Update(1, (0, 2, 1)), Some(EventRefusal::Writer)),
    (Update(1, (0, 9, 1)), Some(EventRefusal::Writer)),
    (Update(1, (1, 1, 1)), None),
    (Update(0, (0, 2, 1)), None),
];

#[test]
fn a_second_writer_is_refused_before_a_wrong_number(rt: HostRuntime) -> Result<(), Fail> {
    expect_turns(&rt, rt.alloc(), SECOND_WRITER)
}

// A history of as many updates as the usual limit allows, all ended.
fn full(alloc: Global) -> Result<History, Fail> {
    let mut history = History::new(alloc);
    for number in 1..=32768 {
        history.push(event_of(alloc, Update(65535, (0, number, 1)))?)?;
        history.push(Event::EndUpdate { process: 65535 })?;
    }
    Ok(history)
}

#[test]
fn the_65537th_event_is_too_many(rt: HostRuntime) -> Result<(), Fail> {
    let mut history = full(rt.alloc())?;
    assert_eq!(rt; history.len(), 65536);
    let begin = refusal(rt.alloc(), &mut history, View(0))?;
    let end = refusal(rt.alloc(), &mut history, Updated(0))?;
    let too_many = Some(EventRefusal::TooMany);
    assert!(rt; begin == too_many && end == too_many && history.len() == 65536);
    Ok(())
}

#[test]
fn the_law_of_histories_is_a_call() {
    histories_grow();
}

// The worked histories, and the number of events of each.
const WORKED: &[(&[Step<'static>], usize)] = &[
    (worked::NOTHING, 0),
    (worked::STALE_VIEW, 4),
    (worked::WRONG_VALUE, 4),
    (worked::LARGEST_NUMBER, 4),
    (worked::SHOWN_TOO_EARLY, 4),
    (worked::NEVER_WRITTEN, 4),
    (worked::STALE_AND_WRONG, 6),
    (worked::NEW_THEN_OLD, 6),
    (worked::CROSSED_VIEWS, 8),
    (worked::MISSED_UPDATE, 6),
    (worked::ALL_PENDING, 4),
    (worked::PENDING_AT_THE_LIMITS, 4),
    (worked::PENDING_VIEW, 1),
    (worked::SEEN_PENDING, 4),
    (worked::VIEW_BESIDE_UPDATE, 4),
    (worked::ATOMIC_RUN, 10),
];

// The number of events of the history of some steps.
fn length_of(alloc: Global, steps: &[Step<'_>]) -> Result<usize, Fail> {
    Ok(history_of(alloc, steps)?.len())
}

#[test]
fn worked_histories_are_histories(rt: HostRuntime) -> Result<(), Fail> {
    for (steps, length) in WORKED {
        assert_eq!(rt; length_of(rt.alloc(), steps)?, *length);
    }
    Ok(())
}
