//! The tallies of worked histories, against faults known from outside.
ghost use Rattle.std.specs.Prelude.{◌≡◌};

use histories::WORKED;
use snap_conditions::{
    IntegrityFault, ProximityFault, ReadFault, Side, Tally, WriteFault, is_atomic, is_monotone,
    is_regular, tally_range,
};
use snap_core::Entry;
use snap_index::Index;
use snap_tally::{ViewGrid, tally_by_grid};
use snap_testing::worked::{
    ATOMIC_RUN, CROSSED_VIEWS, LARGEST_NUMBER, MISSED_UPDATE, NEVER_WRITTEN, NEW_THEN_OLD,
    SHOWN_TOO_EARLY, STALE_AND_WRONG, STALE_VIEW, WRONG_VALUE,
};
use snap_testing::{Shown, Step, entry, history_of};
use std::alloc::{AllocError, Global};
use std::process::Abort;
use std::test::Fail;

mod histories;
mod merged;

/// What is known about a tally: for each kind the number of faults and the first, and the number of stale views.
#[derive(Clone, Copy, PartialEq, Eq)]
struct Known {
    integrity: (u64, Option<IntegrityFault>),
    proximity: (u64, Option<ProximityFault>),
    read: (u64, Option<ReadFault>),
    write: (u64, Option<WriteFault>),
    stale: u64,
}

const NO_FAULT: Known = Known {
    integrity: (0, None),
    proximity: (0, None),
    read: (0, None),
    write: (0, None),
    stale: 0,
};

// One integrity fault and no other.
fn one_integrity(fault: IntegrityFault) -> Known {
    Known {
        integrity: (1, Some(fault)),
        ..NO_FAULT
    }
}

// One proximity fault and no other.
fn one_proximity(fault: ProximityFault) -> Known {
    Known {
        proximity: (1, Some(fault)),
        ..NO_FAULT
    }
}

// This number of read faults, this one the first, and no other.
fn reads(count: u64, first: ReadFault) -> Known {
    Known {
        read: (count, Some(first)),
        ..NO_FAULT
    }
}

fn found(tally: &Tally) -> Known {
    Known {
        integrity: (tally.integrity.count(), tally.integrity.first()),
        proximity: (tally.proximity.count(), tally.proximity.first()),
        read: (tally.read.count(), tally.read.first()),
        write: (tally.write.count(), tally.write.first()),
        stale: tally.stale,
    }
}

// A tally of the views from one place to before another has these faults.
fn expect_found(rt: &impl Abort, tally: &Tally, from: u32, to: u32, known: &Known) {
    assert!(rt; found(tally) == *known, "{from}..{to}");
}

// Each of these ranges of views of an index has this tally.
fn expect_ranges(rt: &impl Abort, index: &Index<'_>, known: &[(u32, u32, Known)]) {
    for (from, to, known) in known {
        let (from, to) = (*from, *to);
        assert!(rt; from <= to && to <= index.view_count());
        expect_found(rt, &tally_range(index, from, to), from, to, known);
    }
}

// Each of these ranges of views has this tally by a grid of the views.
fn expect_ranges_of_grid(
    rt: &impl Abort,
    alloc: Global,
    index: &Index<'_>,
    grid: &ViewGrid<'_, '_>,
    known: &[(u32, u32, Known)],
) -> Result<(), Fail>
    requires { grid.now ≡ index.now }
{
    for (from, to, known) in known {
        let (from, to) = (*from, *to);
        assert!(rt; from <= to && to <= index.view_count());
        expect_found(rt, &tally_by_grid(alloc, grid, from, to)?, from, to, known);
    }
    Ok(())
}

// Each of these ranges of views has this tally by the grid of all views of an index.
fn expect_ranges_by_grid(
    rt: &impl Abort,
    alloc: Global,
    index: &Index<'_>,
    known: &[(u32, u32, Known)],
) -> Result<(), Fail> {
    let grid = ViewGrid::build(alloc, index)?;
    expect_ranges_of_grid(rt, alloc, index, &grid, known)
}

// Each of these ranges of views of a history has this tally, with a grid and without.
fn expect(
    rt: &impl Abort,
    alloc: Global,
    steps: &[Step<'_>],
    known: &[(u32, u32, Known)],
) -> Result<(), Fail> {
    let history = history_of(alloc, steps)?;
    let index = Index::build(alloc, &history)?;
    expect_ranges(rt, &index, known);
    expect_ranges_by_grid(rt, alloc, &index, known)
}

// The tally of all views of a history.
fn tally_of(alloc: Global, steps: &[Step<'_>]) -> Result<Tally, Fail> {
    let history = history_of(alloc, steps)?;
    let index = Index::build(alloc, &history)?;
    Ok(tally_range(&index, 0, index.view_count()))
}

// A history is regular or not, monotone or not, and atomic or not.
fn expect_verdicts(
    rt: &impl Abort,
    alloc: Global,
    steps: &[Step<'_>],
    known: [bool; 3],
) -> Result<(), Fail> {
    let tally = tally_of(alloc, steps)?;
    let found = [is_regular(&tally), is_monotone(&tally), is_atomic(&tally)];
    assert_eq!(rt; found, known);
    Ok(())
}

fn counts(tally: &Tally) -> [u64; 5] {
    [
        tally.integrity.count(),
        tally.proximity.count(),
        tally.read.count(),
        tally.write.count(),
        tally.stale,
    ]
}

#[test]
fn each_worked_history_has_the_faults_that_are_known_of_it(rt: HostRuntime) -> Result<(), Fail> {
    for (name, steps, known) in WORKED {
        let tally = tally_of(rt.alloc(), steps)?;
        assert_eq!(rt; counts(&tally), *known, "{name}");
    }
    Ok(())
}

#[test]
fn each_of_two_crossed_views_has_a_read_fault(rt: HostRuntime) -> Result<(), Fail> {
    let of_first = ReadFault {
        view: 2,
        other: 3,
        component: 0,
    };
    let of_second = ReadFault {
        view: 3,
        other: 2,
        component: 1,
    };
    let known = [(0, 1, reads(1, of_first)), (1, 2, reads(1, of_second))];
    expect(&rt, rt.alloc(), CROSSED_VIEWS, &known)?;
    expect_verdicts(&rt, rt.alloc(), CROSSED_VIEWS, [true, true, false])?;
    expect(
        &rt,
        rt.alloc(),
        CROSSED_VIEWS,
        &[(0, 2, reads(2, of_first))],
    )
}

#[test]
fn a_stale_view_and_a_wrong_value_are_told_apart(rt: HostRuntime) -> Result<(), Fail> {
    let stale = ProximityFault {
        view: 1,
        component: 0,
        number: 0,
        side: Side::Old,
    };
    let wrong = IntegrityFault {
        view: 2,
        entry: entry(0, 1, 9),
    };
    let known = [
        (0, 1, one_proximity(stale)),
        (1, 2, one_integrity(wrong)),
        (1, 1, NO_FAULT),
    ];
    expect(&rt, rt.alloc(), STALE_AND_WRONG, &known)?;
    expect(&rt, rt.alloc(), STALE_VIEW, &[(0, 1, one_proximity(stale))])
}

// The first view of a history, this call, shows an entry that was never written, and there is no other fault.
fn expect_never_written(
    rt: &impl Abort,
    alloc: Global,
    steps: &[Step<'_>],
    view: u32,
    entry: Entry,
) -> Result<(), Fail> {
    expect_verdicts(rt, alloc, steps, [false, true, false])?;
    let wrong = one_integrity(IntegrityFault { view, entry });
    expect(rt, alloc, steps, &[(0, 1, wrong)])
}

#[test]
fn an_entry_that_was_never_written_is_one_fault(rt: HostRuntime) -> Result<(), Fail> {
    expect_never_written(&rt, rt.alloc(), WRONG_VALUE, 1, entry(0, 1, 8))?;
    expect_never_written(&rt, rt.alloc(), LARGEST_NUMBER, 1, entry(0, u32::MAX, 7))?;
    expect_never_written(&rt, rt.alloc(), NEVER_WRITTEN, 0, entry(0, u32::MAX, 7))
}

#[test]
fn a_missed_update_is_regular_and_not_atomic(rt: HostRuntime) -> Result<(), Fail> {
    let fault = WriteFault {
        view: 0,
        missed_component: 0,
        missed_number: 1,
        shown_component: 1,
        shown_number: 1,
    };
    let missed = Known {
        write: (1, Some(fault)),
        ..NO_FAULT
    };
    expect_verdicts(&rt, rt.alloc(), MISSED_UPDATE, [true, true, false])?;
    expect(&rt, rt.alloc(), MISSED_UPDATE, &[(0, 1, missed)])
}

#[test]
fn a_view_after_a_newer_one_has_no_fault_of_its_own(rt: HostRuntime) -> Result<(), Fail> {
    let newer = ReadFault {
        view: 1,
        other: 2,
        component: 0,
    };
    let going_back = Known {
        stale: 1,
        ..reads(1, newer)
    };
    expect_verdicts(&rt, rt.alloc(), NEW_THEN_OLD, [true, false, false])?;
    let known = [(0, 1, going_back), (1, 2, NO_FAULT)];
    expect(&rt, rt.alloc(), NEW_THEN_OLD, &known)
}

#[test]
fn an_update_that_begins_after_the_view_is_early(rt: HostRuntime) -> Result<(), Fail> {
    let early = ProximityFault {
        view: 0,
        component: 0,
        number: 1,
        side: Side::Early,
    };
    expect(
        &rt,
        rt.alloc(),
        SHOWN_TOO_EARLY,
        &[(0, 1, one_proximity(early))],
    )
}

#[test]
fn an_atomic_run_and_an_empty_range_have_no_fault(rt: HostRuntime) -> Result<(), Fail> {
    expect_verdicts(&rt, rt.alloc(), ATOMIC_RUN, [true, true, true])?;
    expect(&rt, rt.alloc(), ATOMIC_RUN, &[(0, 2, NO_FAULT)])?;
    expect(&rt, rt.alloc(), CROSSED_VIEWS, &[(1, 1, NO_FAULT)])
}

// During an open update 128 views, of which only the one at place 63 shows it.
fn one_newer_of_many(alloc: Global) -> Result<Vec<Step<'static>>, AllocError> {
    let mut steps = Vec::from_slice(
        alloc,
        &[
            Step::Update(0, (0, 1, 7)),
            Step::Updated(0),
            Step::Update(0, (0, 2, 8)),
        ],
    )?;
    for place in 0..128 {
        steps.push(Step::View(1))?;
        let shown = if place == 63 { NEWER } else { OLDER };
        steps.push(Step::Viewed(1, shown))?;
    }
    Ok(steps)
}

const OLDER: &[Shown] = &[(0, 1, 7)];

const NEWER: &[Shown] = &[(0, 2, 8)];

#[test]
fn the_last_view_of_a_block_is_compared_with_all_of_the_next(rt: HostRuntime) -> Result<(), Fail> {
    let first = ReadFault {
        view: 65,
        other: 66,
        component: 0,
    };
    let going_back = Known {
        stale: 64,
        ..reads(64, first)
    };
    let known = [
        (0, 128, going_back),
        (63, 64, going_back),
        (0, 63, NO_FAULT),
        (64, 128, NO_FAULT),
    ];
    let steps = one_newer_of_many(rt.alloc())?;
    expect(&rt, rt.alloc(), &steps, &known)
}

#[test]
fn a_number_above_that_of_each_update_is_compared_too(rt: HostRuntime) -> Result<(), Fail> {
    let steps = [
        Step::Update(0, (0, 1, 7)),
        Step::Updated(0),
        Step::View(1),
        Step::Viewed(1, &[(0, 9, 7)]),
        Step::View(1),
        Step::Viewed(1, &[(0, 1, 7)]),
        Step::View(1),
        Step::Viewed(1, &[(0, 9, 7)]),
    ];
    let first_wrong = IntegrityFault {
        view: 1,
        entry: entry(0, 9, 7),
    };
    let last_wrong = IntegrityFault {
        view: 3,
        entry: entry(0, 9, 7),
    };
    let newer = ReadFault {
        view: 1,
        other: 2,
        component: 0,
    };
    let all = Known {
        integrity: (2, Some(first_wrong)),
        stale: 1,
        ..reads(1, newer)
    };
    let known = [
        (0, 3, all),
        (1, 2, NO_FAULT),
        (2, 3, one_integrity(last_wrong)),
    ];
    expect(&rt, rt.alloc(), &steps, &known)
}
