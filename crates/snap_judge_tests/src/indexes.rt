//! The calls, views and updates of worked histories.
use snap_core::{Entry, View};
use snap_index::{Call, CallOp, Index};
use snap_testing::{Shown, Step, entry, history_of, worked};
use std::alloc::Global;
use std::process::Abort;
use std::test::Fail;

// A call: its process, what it writes, if it is an update, and the places of its begin and its end.
type Made = (u16, Option<Shown>, u32, Option<u32>);

// A fact of an index.
enum Known {
    // The numbers of events, calls, pending calls and completed views.
    Counts([u32; 4]),
    // This is the number of events.
    Events(usize),
    // Each of these numbers is that of such a call.
    Calls(&'static [(u32, Option<Made>)]),
    // Of each pair the first call precedes the second, or it does not, and the second never precedes the first.
    Precedence(&'static [(u32, u32)], bool),
    // Each of these places among the completed views has such a call number, and such a view.
    Views(&'static [(u32, Option<u32>, Option<&'static [Entry]>)]),
    // Each of these calls has such an answer.
    Answers(&'static [(u32, Option<&'static [Entry]>)]),
    // For each component these calls are the updates.
    Updates(&'static [(u8, &'static [u32])]),
    // The update of each component and number is such a call.
    Numbers(&'static [(u8, u32, Option<u32>)]),
}

fn counts(index: &Index<'_>) -> [u32; 4] {
    [
        index.event_count(),
        index.call_count(),
        index.pending_count(),
        index.view_count(),
    ]
}

fn call_of((process, written, begun, ended): Made) -> Call {
    let op = match written {
        Some((component, number, value)) => CallOp::Update(entry(component, number, value)),
        None => CallOp::View,
    };
    Call {
        process,
        op,
        begun,
        ended,
    }
}

fn is_call(index: &Index<'_>, number: u32, known: Option<Made>) -> bool {
    match (index.call(number), known) {
        (Some(call), Some(made)) => *call == call_of(made),
        (None, None) => true,
        _ => false,
    }
}

fn expect_calls(rt: &impl Abort, index: &Index<'_>, known: &[(u32, Option<Made>)]) {
    for &(number, made) in known {
        assert!(rt; is_call(index, number, made), "call {number}");
    }
}

fn expect_precedence(rt: &impl Abort, index: &Index<'_>, pairs: &[(u32, u32)], precedes: bool) {
    for &(a, b) in pairs {
        assert!(rt; a < index.call_count() && b < index.call_count());
        let found = (index.precedes(a, b), index.precedes(b, a));
        assert!(rt; found == (precedes, false), "{a} and {b}");
    }
}

// What a view shows, if there is a view.
fn shown(view: Option<&View>) -> Option<&[Entry]> {
    Some(view?.entries())
}

fn is_view(index: &Index<'_>, place: u32, call: Option<u32>, entries: Option<&[Entry]>) -> bool {
    index.view_call(place) == call && shown(index.view(place)) == entries
}

fn expect_views(
    rt: &impl Abort,
    index: &Index<'_>,
    known: &[(u32, Option<u32>, Option<&[Entry]>)],
) {
    for &(place, call, entries) in known {
        assert!(rt; is_view(index, place, call, entries), "at {place}");
    }
}

fn expect_answers(rt: &impl Abort, index: &Index<'_>, answers: &[(u32, Option<&[Entry]>)]) {
    for &(c, answer) in answers {
        assert!(rt; shown(index.answer(c)) == answer, "of call {c}");
    }
}

// Whether these calls, and no others, are the updates of a component.
fn are_updates(index: &Index<'_>, k: u8, calls: &[u32]) -> bool {
    let updates = index.updates(k);
    updates.len() == calls.len()
        && updates
            .iter()
            .zip(calls)
            .all(|(update, call)| update.call == *call)
        && index.update_count(k) as usize == calls.len()
}

fn expect_updates(rt: &impl Abort, index: &Index<'_>, known: &[(u8, &[u32])]) {
    for &(k, calls) in known {
        assert!(rt; are_updates(index, k, calls), "of {k}");
    }
}

fn is_numbered(index: &Index<'_>, k: u8, n: u32, number: Option<u32>) -> bool {
    let call = match number {
        Some(c) => index.call(c),
        None => None,
    };
    index.update_call(k, n) == number && index.update(k, n) == call
}

fn expect_numbers(rt: &impl Abort, index: &Index<'_>, known: &[(u8, u32, Option<u32>)]) {
    for &(k, n, number) in known {
        assert!(rt; is_numbered(index, k, n, number), "update {n} of {k}");
    }
}

fn expect_known(rt: &impl Abort, index: &Index<'_>, known: &Known) {
    match known {
        Known::Counts(known) => assert_eq!(rt; counts(index), *known),
        Known::Events(count) => assert_eq!(rt; index.events().len(), *count),
        Known::Calls(known) => expect_calls(rt, index, known),
        Known::Precedence(pairs, precedes) => expect_precedence(rt, index, pairs, *precedes),
        Known::Views(known) => expect_views(rt, index, known),
        Known::Answers(known) => expect_answers(rt, index, known),
        Known::Updates(known) => expect_updates(rt, index, known),
        Known::Numbers(known) => expect_numbers(rt, index, known),
    }
}

// All of these facts are true of the index of a history.
fn expect(rt: &impl Abort, alloc: Global, steps: &[Step<'_>], known: &[Known]) -> Result<(), Fail> {
    let history = history_of(alloc, steps)?;
    let index = Index::build(alloc, &history)?;
    for fact in known {
        expect_known(rt, &index, fact);
    }
    Ok(())
}

const NO_EVENTS: &[Known] = &[Known::Counts([0, 0, 0, 0])];

const COUNTS_OF_SEEN_PENDING: &[Known] = &[Known::Counts([4, 3, 2, 1])];

const COUNTS_OF_ATOMIC_RUN: &[Known] = &[Known::Counts([10, 5, 0, 2])];

const COUNTS_OF_PENDING: &[Known] = &[Known::Counts([4, 4, 4, 0])];

#[test]
fn counts_are_of_events_calls_pending_calls_and_completed_views(
    rt: HostRuntime,
) -> Result<(), Fail> {
    let alloc = rt.alloc();
    expect(&rt, alloc, worked::NOTHING, NO_EVENTS)?;
    expect(&rt, alloc, worked::SEEN_PENDING, COUNTS_OF_SEEN_PENDING)?;
    expect(&rt, alloc, worked::ATOMIC_RUN, COUNTS_OF_ATOMIC_RUN)?;
    expect(&rt, alloc, worked::PENDING_AT_THE_LIMITS, COUNTS_OF_PENDING)
}

const PENDING_UPDATE: &[Known] = &[
    Known::Calls(&[(1, Some((1, Some((1, 1, 4)), 1, None)))]),
    Known::Numbers(&[
        (1, 1, Some(1)),
        (1, 0, None),
        (1, 2, None),
        (1, u32::MAX, None),
    ]),
];

#[test]
fn a_pending_update_is_found_and_there_is_none_after_it(rt: HostRuntime) -> Result<(), Fail> {
    expect(&rt, rt.alloc(), worked::SEEN_PENDING, PENDING_UPDATE)
}

const PRECEDENCE: &[Known] = &[
    // the end of call 0 and the begin of call 1 are next to each other
    Known::Precedence(&[(0, 1), (0, 2), (0, 3), (0, 4), (2, 4), (3, 4)], true),
    Known::Precedence(&[(1, 2), (1, 3), (1, 4), (2, 3), (3, 3)], false),
];

#[test]
fn a_call_precedes_those_that_begin_after_its_end(rt: HostRuntime) -> Result<(), Fail> {
    expect(&rt, rt.alloc(), worked::ATOMIC_RUN, PRECEDENCE)
}

const NO_PRECEDENCE: &[Known] = &[Known::Precedence(&[(0, 2), (1, 2), (0, 1)], false)];

#[test]
fn calls_that_do_not_end_precede_none(rt: HostRuntime) -> Result<(), Fail> {
    expect(&rt, rt.alloc(), worked::SEEN_PENDING, NO_PRECEDENCE)
}

const CALLS: &[Known] = &[
    Known::Calls(&[
        (0, Some((0, Some((0, 1, 10)), 0, Some(1)))),
        (1, Some((1, Some((1, 1, 20)), 2, Some(9)))),
        (2, Some((2, None, 3, Some(5)))),
        (3, Some((0, Some((0, 2, 11)), 4, Some(6)))),
        (4, Some((3, None, 7, Some(8)))),
        (5, None),
        (u32::MAX, None),
    ]),
    Known::Events(10),
];

#[test]
fn calls_have_the_places_of_their_begins_and_ends(rt: HostRuntime) -> Result<(), Fail> {
    expect(&rt, rt.alloc(), worked::ATOMIC_RUN, CALLS)
}

// What the first view of `ATOMIC_RUN` shows, and what the second does.
const FIRST: &[Entry] = &[Entry {
    component: 0,
    number: 1,
    value: 10,
}];

const SECOND: &[Entry] = &[
    Entry {
        component: 0,
        number: 2,
        value: 11,
    },
    Entry {
        component: 1,
        number: 1,
        value: 20,
    },
];

const VIEWS: &[Known] = &[Known::Views(&[
    (0, Some(2), Some(FIRST)),
    (1, Some(4), Some(SECOND)),
    (2, None, None),
])];

#[test]
fn views_are_the_completed_ones_by_call_number(rt: HostRuntime) -> Result<(), Fail> {
    expect(&rt, rt.alloc(), worked::ATOMIC_RUN, VIEWS)
}

const NO_VIEW: &[Known] = &[Known::Views(&[(0, None, None)])];

#[test]
fn pending_views_have_no_place_among_the_completed_ones(rt: HostRuntime) -> Result<(), Fail> {
    expect(&rt, rt.alloc(), worked::PENDING_AT_THE_LIMITS, NO_VIEW)
}

const ANSWERS: &[Known] = &[Known::Answers(&[
    (0, None),
    (1, None),
    (2, Some(FIRST)),
    (3, None),
    (4, Some(SECOND)),
    (5, None),
    (u32::MAX, None),
])];

#[test]
fn only_completed_views_have_answers(rt: HostRuntime) -> Result<(), Fail> {
    expect(&rt, rt.alloc(), worked::ATOMIC_RUN, ANSWERS)
}

const NO_ANSWERS: &[Known] = &[Known::Answers(&[
    (0, None),
    (1, None),
    (2, None),
    (3, None),
    (4, None),
])];

#[test]
fn pending_calls_have_no_answers(rt: HostRuntime) -> Result<(), Fail> {
    expect(&rt, rt.alloc(), worked::PENDING_AT_THE_LIMITS, NO_ANSWERS)
}

const UPDATES: &[Known] = &[
    Known::Updates(&[(0, &[0, 3]), (1, &[1]), (2, &[]), (255, &[])]),
    Known::Numbers(&[(0, 2, Some(3))]),
];

#[test]
fn updates_are_told_apart_by_component(rt: HostRuntime) -> Result<(), Fail> {
    expect(&rt, rt.alloc(), worked::ATOMIC_RUN, UPDATES)
}
