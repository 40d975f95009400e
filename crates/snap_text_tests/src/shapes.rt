//! The shapes that are drawn for worked histories, against shapes worked out by hand.
use snap_check::order_alone;
use snap_conditions::Kind;
use snap_draw::{Bar, Mark, Place, Shapes, Window, shapes_of};
use snap_index::Index;
use snap_tally::tally_and_chain_alone;
use snap_testing::worked::{ATOMIC_RUN, MISSED_UPDATE, NEW_THEN_OLD, NOTHING, SEEN_PENDING};
use snap_testing::{Step, history_of};
use std::alloc::{AllocError, Global};
use std::process::Abort;
use std::test::Fail;

// A bar: the number of its call, its lane, the columns of its begin and its end, and its place in the printed order.
type Drawn = (u32, usize, usize, Option<usize>, Option<usize>);

// The shapes of a history: its lanes, its bars, the number of columns, and its marks.
type Known = (
    &'static [u32],
    &'static [Drawn],
    usize,
    &'static [(Kind, u32)],
);

// Histories, the number of calls that are drawn of each, and their shapes.
const WORKED: &[(&[Step<'static>], usize, Known)] = &[
    (NOTHING, 12, (&[], &[], 0, &[])),
    (
        NEW_THEN_OLD,
        12,
        (
            &[0, 1, 2],
            &[
                (0, 0, 0, Some(5), None),
                (1, 1, 1, Some(2), None),
                (2, 2, 3, Some(4), None),
            ],
            6,
            &[(Kind::Read, 1), (Kind::Read, 2), (Kind::Read, 0)],
        ),
    ),
    (
        MISSED_UPDATE,
        3,
        (
            &[0, 1, 2],
            &[
                (0, 2, 0, Some(5), None),
                (1, 0, 1, Some(2), None),
                (2, 1, 3, Some(4), None),
            ],
            6,
            &[(Kind::Write, 0), (Kind::Write, 1), (Kind::Write, 2)],
        ),
    ),
    (
        SEEN_PENDING,
        12,
        (
            &[0, 1, 2],
            &[
                (0, 0, 0, None, Some(0)),
                (1, 1, 1, None, None),
                (2, 2, 2, Some(3), Some(1)),
            ],
            4,
            &[],
        ),
    ),
    // a window of the first two calls
    (
        ATOMIC_RUN,
        2,
        (
            &[0, 1],
            &[(0, 0, 0, Some(1), Some(0)), (1, 1, 2, Some(3), Some(2))],
            4,
            &[],
        ),
    ),
];

// The shapes of an index, of which at most `limit` calls are drawn.
fn drawn(alloc: Global, index: &Index<'_>, limit: usize) -> Result<Shapes, AllocError> {
    let (tally, chain) = tally_and_chain_alone(alloc, index)?;
    let order = order_alone(alloc, index, &tally, chain)?;
    let window = Window {
        calls: limit,
        place: Place::Faults,
    };
    shapes_of(
        alloc,
        index,
        &tally,
        order.as_deref().unwrap_or(&[]),
        window,
    )
}

fn is_bar(bar: &Bar, known: &Drawn) -> bool {
    let (number, lane, begin, end, place) = *known;
    bar.drawn.number == number
        && bar.lane == lane
        && bar.begin == begin
        && bar.end == end
        && bar.place == place
}

fn is_mark(mark: &Mark, known: &(Kind, u32)) -> bool {
    mark.kind == known.0 && mark.call == known.1
}

fn are_bars(bars: &[Bar], known: &[Drawn]) -> bool {
    bars.len() == known.len()
        && bars
            .iter()
            .zip(known)
            .all(|(bar, known)| is_bar(bar, known))
}

fn are_marks(marks: &[Mark], known: &[(Kind, u32)]) -> bool {
    marks.len() == known.len()
        && marks
            .iter()
            .zip(known)
            .all(|(mark, known)| is_mark(mark, known))
}

fn expect_shapes(rt: &impl Abort, shapes: &Shapes, known: &Known) {
    let (lanes, bars, columns, marks) = *known;
    assert!(rt; shapes.lanes.as_slice() == lanes && shapes.columns == columns);
    assert!(rt; are_bars(&shapes.bars, bars));
    assert!(rt; are_marks(&shapes.marks, marks));
}

// An index has these shapes.
fn expect_drawn(
    rt: &impl Abort,
    alloc: Global,
    index: &Index<'_>,
    limit: usize,
    known: &Known,
) -> Result<(), Fail> {
    expect_shapes(rt, &drawn(alloc, index, limit)?, known);
    Ok(())
}

// A history has these shapes.
fn expect(
    rt: &impl Abort,
    alloc: Global,
    steps: &[Step<'_>],
    limit: usize,
    known: &Known,
) -> Result<(), Fail> {
    let history = history_of(alloc, steps)?;
    let index = Index::build(alloc, &history)?;
    expect_drawn(rt, alloc, &index, limit, known)
}

#[test]
fn each_worked_history_has_its_lanes_bars_columns_and_marks(rt: HostRuntime) -> Result<(), Fail> {
    for (steps, limit, known) in WORKED {
        expect(&rt, rt.alloc(), steps, *limit, known)?;
    }
    Ok(())
}
