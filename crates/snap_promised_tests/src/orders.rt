//! The orders of worked histories, and lists that are legal orders or not.
use snap_index::Index;
use snap_order::{build, check_order};
use snap_testing::worked::{ATOMIC_RUN, SEEN_PENDING, VIEW_BESIDE_UPDATE};
use snap_testing::{Step, history_of};
use std::alloc::Global;
use std::process::Abort;
use std::test::Fail;
use std::thread::Threads;

// The printed order of an index is this list, which is a legal order.
fn expect_built<R: Threads + Sync + Abort>(
    rt: &R,
    alloc: Global,
    index: &Index<'_>,
    order: &[u32],
) -> Result<(), Fail> {
    assert!(rt; check_order(alloc, index, order)?);
    assert_eq!(rt; build(rt, alloc, index)?.as_slice(), order);
    Ok(())
}

// The printed order of a history is this list, which is a legal order.
fn expect_order<R: Threads + Sync + Abort>(
    rt: &R,
    alloc: Global,
    steps: &[Step<'_>],
    order: &[u32],
) -> Result<(), Fail> {
    let history = history_of(alloc, steps)?;
    let index = Index::build(alloc, &history)?;
    expect_built(rt, alloc, &index, order)
}

#[test]
fn an_order_is_by_level_kind_and_number(rt: HostRuntime) -> Result<(), Fail> {
    expect_order(&rt, rt.alloc(), SEEN_PENDING, &[0, 2])?;
    expect_order(&rt, rt.alloc(), VIEW_BESIDE_UPDATE, &[1, 0])?;
    expect_order(&rt, rt.alloc(), ATOMIC_RUN, &[0, 2, 1, 3, 4])
}

// Each of these lists is a legal order of an index's calls or not, as it is marked.
fn expect_checked(
    rt: &impl Abort,
    alloc: Global,
    index: &Index<'_>,
    orders: &[(&[u32], bool)],
) -> Result<(), Fail> {
    for (order, is_legal) in orders {
        assert!(rt; check_order(alloc, index, order)? == *is_legal, "{order:?}");
    }
    Ok(())
}

// Each of these lists is a legal order of a history's calls or not, as it is marked.
fn expect_legal(
    rt: &impl Abort,
    alloc: Global,
    steps: &[Step<'_>],
    orders: &[(&[u32], bool)],
) -> Result<(), Fail> {
    let history = history_of(alloc, steps)?;
    let index = Index::build(alloc, &history)?;
    expect_checked(rt, alloc, &index, orders)
}

#[test]
fn any_list_with_each_completed_call_that_explains_the_views_is_legal(
    rt: HostRuntime,
) -> Result<(), Fail> {
    let orders: [(&[u32], bool); 7] = [
        (&[0, 2], true),
        (&[0, 2, 1], true),
        (&[0, 1, 2], false),
        (&[2, 0], false),
        (&[0], false),
        (&[0, 2, 2], false),
        (&[0, 2, 3], false),
    ];
    expect_legal(&rt, rt.alloc(), SEEN_PENDING, &orders)?;
    let orders: [(&[u32], bool); 2] = [(&[1, 0], true), (&[0, 1], false)];
    expect_legal(&rt, rt.alloc(), VIEW_BESIDE_UPDATE, &orders)
}

// The second call of an index is the only update of component 1, and has not ended. Call 0 does not precede call 2.
fn expect_pending(rt: &impl Abort, index: &Index<'_>) -> Result<(), Fail> {
    let update = index.update(1, 1).ok_or("no update")?;
    assert!(rt; update.ended.is_none() && index.update_call(1, 1) == Some(1));
    assert!(rt; index.update(1, 2).is_none() && index.update_count(1) == 1);
    assert!(rt; index.call_count() == 3);
    assert!(rt; !index.precedes(0, 2));
    Ok(())
}

#[test]
fn a_pending_update_is_found_and_precedes_nothing(rt: HostRuntime) -> Result<(), Fail> {
    let history = history_of(rt.alloc(), SEEN_PENDING)?;
    let index = Index::build(rt.alloc(), &history)?;
    expect_pending(&rt, &index)
}
