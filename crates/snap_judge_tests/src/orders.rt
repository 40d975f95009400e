//! The printed orders of worked histories, and lists that are legal orders or not.
use snap_index::Index;
use snap_order::{build, build_alone, check_order};
use snap_testing::worked::{ATOMIC_RUN, SEEN_PENDING, VIEW_BESIDE_UPDATE};
use snap_testing::{Step, history_of};
use snap_views::{ViewOrder, view_order, view_sums};
use std::alloc::Global;
use std::process::Abort;
use std::test::Fail;
use std::thread::Threads;

// The list is a legal order, and the one that is printed.
fn expect_printed<R: Threads + Abort + Sync>(
    rt: &R,
    alloc: Global,
    index: &Index<'_>,
    order: &[u32],
) -> Result<(), Fail> {
    assert!(rt; check_order(alloc, index, order)?);
    let sums = view_sums(alloc, index)?;
    let ViewOrder::Faultless(chain) = view_order(alloc, index, sums)? else {
        panic!(rt; "two views are a read fault");
    };
    assert!(rt; build_alone(alloc, index, chain)?.as_slice() == order);
    assert!(rt; build(rt, alloc, index)?.as_slice() == order);
    Ok(())
}

// A history's printed order is this list.
fn expect_order<R: Threads + Abort + Sync>(
    rt: &R,
    alloc: Global,
    steps: &[Step<'_>],
    order: &[u32],
) -> Result<(), Fail> {
    let history = history_of(alloc, steps)?;
    let index = Index::build(alloc, &history)?;
    expect_printed(rt, alloc, &index, order)
}

// `views` empty views, and then `updates` updates, one after another.
fn views_then_updates(alloc: Global, views: u32, updates: u32) -> Result<Vec<Step<'static>>, Fail> {
    let mut steps = Vec::new(alloc);
    for _view in 0..views {
        steps.push(Step::View(0))?;
        steps.push(Step::Viewed(0, &[]))?;
    }
    for number in 0..updates {
        steps.push(Step::Update(0, (0, number.saturating_add(1), 5)))?;
        steps.push(Step::Updated(0))?;
    }
    Ok(steps)
}

#[test]
fn calls_of_a_long_history_are_printed_by_several_workers(rt: HostRuntime) -> Result<(), Fail> {
    let alloc = rt.alloc();
    let steps = views_then_updates(alloc, 10_000, 22_768)?;
    let mut order = Vec::new(alloc);
    for number in 0..32_768u32 {
        order.push(number)?;
    }
    expect_order(&rt, alloc, &steps, &order)
}

// Each of these lists is a legal order of an index's calls or not, as it is marked.
fn expect_legal(
    rt: &impl Abort,
    alloc: Global,
    index: &Index<'_>,
    orders: &[(&[u32], bool)],
) -> Result<(), Fail> {
    for (order, is_legal) in orders {
        assert!(rt; check_order(alloc, index, order)? == *is_legal, "{order:?}");
    }
    Ok(())
}

// Each of these lists is a legal order of a history's calls or not, as it is marked.
fn expect_checked(
    rt: &impl Abort,
    alloc: Global,
    steps: &[Step<'_>],
    orders: &[(&[u32], bool)],
) -> Result<(), Fail> {
    let history = history_of(alloc, steps)?;
    let index = Index::build(alloc, &history)?;
    expect_legal(rt, alloc, &index, orders)
}

#[test]
fn of_two_pending_updates_the_one_that_was_seen_is_printed(rt: HostRuntime) -> Result<(), Fail> {
    expect_order(&rt, rt.alloc(), SEEN_PENDING, &[0, 2])
}

#[test]
fn a_view_is_printed_before_an_update_that_it_does_not_show(rt: HostRuntime) -> Result<(), Fail> {
    expect_order(&rt, rt.alloc(), VIEW_BESIDE_UPDATE, &[1, 0])
}

#[test]
fn five_calls_are_printed_by_level_kind_and_number(rt: HostRuntime) -> Result<(), Fail> {
    expect_order(&rt, rt.alloc(), ATOMIC_RUN, &[0, 2, 1, 3, 4])
}

#[test]
fn orders_of_all_calls_are_checked_by_precedence_and_views(rt: HostRuntime) -> Result<(), Fail> {
    let orders: [(&[u32], bool); 6] = [
        (&[0, 2, 1, 3, 4], true),
        (&[0, 2, 3, 1, 4], true),
        (&[0, 1, 2, 3, 4], false),
        (&[2, 0, 1, 3, 4], false),
        (&[0, 2, 1, 4, 3], false),
        (&[0, 2, 3, 4, 1], false),
    ];
    expect_checked(&rt, rt.alloc(), ATOMIC_RUN, &orders)
}

// The `length` lowest digits to base 6 of a number, the lowest first.
fn digits(alloc: Global, number: u32, length: usize) -> Result<Vec<u32>, Fail> {
    let mut rest = number;
    let mut digits = Vec::new(alloc);
    for _place in 0..length {
        digits.push(rest % 6)?;
        rest /= 6;
    }
    Ok(digits)
}

// How many of the first `lists` lists of `length` digits are legal orders.
fn legal_among(alloc: Global, index: &Index<'_>, length: usize, lists: u32) -> Result<u32, Fail> {
    let mut legal = 0u32;
    for number in 0..lists {
        let is_legal = check_order(alloc, index, &digits(alloc, number, length)?)?;
        legal = legal.saturating_add(u32::from(is_legal));
    }
    Ok(legal)
}

// The lengths of the lists of up to four digits, and the number of lists of each length.
const LENGTHS: &[(usize, u32)] = &[(0, 1), (1, 6), (2, 36), (3, 216), (4, 1296)];

// The number of these lists that are legal orders of an index's calls.
fn legal_of(alloc: Global, index: &Index<'_>) -> Result<u32, Fail> {
    let mut legal = 0u32;
    for (length, lists) in LENGTHS {
        legal = legal.saturating_add(legal_among(alloc, index, *length, *lists)?);
    }
    Ok(legal)
}

// The number of these lists that are legal orders of a history's calls.
fn legal_lists(alloc: Global, steps: &[Step<'_>]) -> Result<u32, Fail> {
    let history = history_of(alloc, steps)?;
    let index = Index::build(alloc, &history)?;
    legal_of(alloc, &index)
}

const LEGAL: &[(&[Step<'static>], u32)] = &[
    (SEEN_PENDING, 2),
    (VIEW_BESIDE_UPDATE, 1),
    (ATOMIC_RUN, 0),
];

#[test]
fn of_all_short_lists_few_are_legal_orders(rt: HostRuntime) -> Result<(), Fail> {
    for (steps, legal) in LEGAL {
        assert_eq!(rt; legal_lists(rt.alloc(), steps)?, *legal);
    }
    Ok(())
}
