//! The histories of worked stores that tell a version of each update, or why there is none.
use snap_core::{EVENT_CAP, Event, EventRefusal, Limit};
use snap_testing::Step::{Update, Updated, View, Viewed};
use snap_testing::{Step, event_of};
use snap_versions::{Store, store_history};
use std::alloc::{AllocError, Global};
use std::process::Abort;
use std::test::Fail;

// The events of these steps, which need not be a history.
fn events_of(alloc: Global, steps: &[Step<'_>]) -> Result<Vec<Event>, Fail> {
    let mut events = Vec::new(alloc);
    for step in steps {
        events.push(event_of(alloc, *step)?)?;
    }
    Ok(events)
}

// Events, as they are printed.
fn printed(alloc: Global, events: &[Event]) -> Result<String, AllocError> {
    format!(in alloc; "{events:?}")
}

// What a store of these steps is, if its history may have this many events.
fn store_of(alloc: Global, steps: &[Step<'_>], most: u32) -> Result<Store, Fail> {
    let Some(limit) = Limit::new(most) else {
        return Err(Fail::from("no limit"));
    };
    let events = events_of(alloc, steps)?;
    if events.len() > EVENT_CAP {
        return Err(Fail::from("too many events"));
    }
    Ok(store_history(alloc, &events, limit)?)
}

// The greatest number of events that the histories of most tests may have.
const MOST: u32 = 12;

// A store, and the history that it tells: its events, and the places of the events that they were.
type Told = (
    &'static [Step<'static>],
    &'static [Step<'static>],
    &'static [u32],
);

// This history of a store has these events, and these are the places of those that they were.
fn expect_told(rt: &impl Abort, alloc: Global, told: Told, most: u32) -> Result<(), Fail> {
    let (steps, known, at) = told;
    let Store::Cut(history, places) = store_of(alloc, steps, most)? else {
        return Err(Fail::from("no history"));
    };
    let known = events_of(alloc, known)?;
    assert_eq!(rt; printed(alloc, history.events())?, printed(alloc, &known)?);
    assert_eq!(rt; places.as_slice(), at);
    Ok(())
}

// A view shows version 12, whose update has no end. That of version 20 gives it one.
const ENDED_BY_THE_NEXT: Told = (
    &[
        Update(0, (0, 12, 5)),
        View(2),
        Viewed(2, &[(0, 12, 5)]),
        Update(1, (0, 20, 6)),
        Updated(1),
    ],
    &[
        Update(0, (0, 1, 5)),
        View(2),
        Viewed(2, &[(0, 1, 5)]),
        Update(1, (0, 2, 6)),
        Updated(0),
        Updated(1),
    ],
    &[0, 1, 2, 3, 0, 4],
);

const TOLD: &[Told] = &[
    (&[], &[], &[]),
    (&[View(3)], &[View(3)], &[0]),
    ENDED_BY_THE_NEXT,
    // the example of the page of formats
    (
        &[
            Update(0, (0, 4, 7)),
            Update(1, (0, 9, 8)),
            Updated(1),
            View(2),
            Viewed(2, &[(0, 9, 8)]),
            Updated(0),
            Update(1, (0, 12, 5)),
            View(2),
            Viewed(2, &[(0, 12, 5)]),
            Update(3, (0, 15, 1)),
            Update(0, (0, 20, 6)),
            Updated(0),
        ],
        &[
            Update(0, (0, 1, 7)),
            Update(1, (0, 2, 8)),
            Updated(0),
            Updated(1),
            View(2),
            Viewed(2, &[(0, 2, 8)]),
            Update(1, (0, 3, 5)),
            View(2),
            Viewed(2, &[(0, 3, 5)]),
            Update(0, (0, 4, 6)),
            Updated(1),
            Updated(0),
        ],
        &[0, 1, 5, 2, 3, 4, 6, 7, 8, 10, 6, 11],
    ),
    // version 2 begins only when version 1 does
    (
        &[
            Update(0, (0, 2, 8)),
            View(2),
            Viewed(2, &[(0, 2, 8)]),
            Update(1, (0, 1, 7)),
            Updated(1),
            Updated(0),
        ],
        &[
            View(2),
            Viewed(2, &[(0, 2, 8)]),
            Update(1, (0, 1, 7)),
            Update(0, (0, 2, 8)),
            Updated(1),
            Updated(0),
        ],
        &[1, 2, 3, 0, 4, 5],
    ),
    // updates of two components do not cut one another, and may have one version
    (
        &[
            Update(0, (0, 4, 7)),
            Updated(0),
            Update(1, (1, 4, 8)),
            View(0),
            Viewed(0, &[(0, 4, 7), (1, 4, 8)]),
            Updated(1),
        ],
        &[
            Update(0, (0, 1, 7)),
            Updated(0),
            Update(1, (1, 1, 8)),
            View(0),
            Viewed(0, &[(0, 1, 7), (1, 1, 8)]),
            Updated(1),
        ],
        &[0, 1, 2, 3, 4, 5],
    ),
    // no update has version 5, so it gets the number after theirs
    (
        &[
            Update(0, (0, 4, 7)),
            Updated(0),
            Update(0, (0, 6, 8)),
            Updated(0),
            View(1),
            Viewed(1, &[(0, 5, 9)]),
        ],
        &[
            Update(0, (0, 1, 7)),
            Updated(0),
            Update(0, (0, 2, 8)),
            Updated(0),
            View(1),
            Viewed(1, &[(0, 3, 9)]),
        ],
        &[0, 1, 2, 3, 4, 5],
    ),
    // version 5 begins after the end of version 8, but has no end, and no view shows it
    (
        &[Update(0, (0, 8, 7)), Updated(0), Update(1, (0, 5, 6))],
        &[Update(0, (0, 1, 7)), Updated(0)],
        &[0, 1],
    ),
];

#[test]
fn versions_become_numbers_and_updates_are_cut(rt: HostRuntime) -> Result<(), Fail> {
    for told in TOLD {
        expect_told(&rt, rt.alloc(), *told, MOST)?;
    }
    Ok(())
}

#[test]
fn a_history_has_at_most_as_many_events_as_the_limit(rt: HostRuntime) -> Result<(), Fail> {
    let alloc = rt.alloc();
    expect_told(&rt, alloc, ENDED_BY_THE_NEXT, 6)?;
    let found = store_of(alloc, ENDED_BY_THE_NEXT.0, 5)?;
    assert!(rt; matches!(found, Store::TooMany));
    Ok(())
}

// Steps, the place of the first event that none of a store may have, and the reason.
const REFUSED: &[(&[Step<'static>], usize, EventRefusal)] = &[
    (&[Updated(3)], 0, EventRefusal::Idle),
    (&[Update(0, (0, 4, 7)), View(0)], 1, EventRefusal::Busy),
    (&[View(0), Updated(0)], 1, EventRefusal::OtherOp),
    (
        &[Update(0, (0, 4, 7)), Viewed(0, &[])],
        1,
        EventRefusal::OtherOp,
    ),
    (
        &[Update(0, (0, 4, 7)), Updated(0), Update(1, (0, 4, 8))],
        2,
        EventRefusal::Number,
    ),
    // the first of two reasons, in one event and in two
    (
        &[Update(0, (0, 4, 7)), Update(0, (0, 4, 7))],
        1,
        EventRefusal::Busy,
    ),
    (
        &[Update(0, (0, 4, 7)), Update(1, (0, 4, 7)), View(0)],
        1,
        EventRefusal::Number,
    ),
    // an event is refused though versions contradict time before it
    (
        &[
            Update(0, (0, 8, 7)),
            Updated(0),
            Update(1, (0, 5, 6)),
            Updated(1),
            Updated(1),
        ],
        4,
        EventRefusal::Idle,
    ),
];

#[test]
fn the_first_event_that_no_store_may_have_is_refused(rt: HostRuntime) -> Result<(), Fail> {
    for (steps, at, reason) in REFUSED {
        let Store::Refused(place, refusal) = store_of(rt.alloc(), steps, MOST)? else {
            return Err(Fail::from("not refused"));
        };
        assert_eq!(rt; place, *at);
        assert_eq!(rt; refusal, *reason);
    }
    Ok(())
}

// Stores whose versions contradict time, and the places of the end and the begin that do.
const CONTRADICTED: &[(&[Step<'static>], u32, u32)] = &[
    (
        &[
            Update(0, (0, 8, 7)),
            Updated(0),
            Update(1, (0, 5, 6)),
            Updated(1),
        ],
        1,
        2,
    ),
    // of two components the least one is told
    (
        &[
            Update(1, (1, 8, 7)),
            Updated(1),
            Update(1, (1, 5, 6)),
            Updated(1),
            Update(0, (0, 3, 7)),
            Updated(0),
            Update(0, (0, 1, 6)),
            Updated(0),
        ],
        5,
        6,
    ),
    // of two versions of a component the lowest one is told
    (
        &[
            Update(0, (0, 2, 1)),
            Updated(0),
            Update(0, (0, 1, 1)),
            Updated(0),
            Update(0, (0, 4, 1)),
            Updated(0),
            Update(0, (0, 3, 1)),
            Updated(0),
        ],
        1,
        2,
    ),
];

#[test]
fn versions_that_contradict_time_are_told(rt: HostRuntime) -> Result<(), Fail> {
    for (steps, end, begin) in CONTRADICTED {
        let Store::Contradiction { ended, begun } = store_of(rt.alloc(), steps, MOST)? else {
            return Err(Fail::from("no contradiction"));
        };
        assert_eq!(rt; (ended, begun), (*end, *begin));
    }
    Ok(())
}
