//! Views made of entries.
use snap_core::{Entry, View, ViewRefusal};
use snap_testing::{Shown, entry};
use std::alloc::{AllocError, Global};
use std::process::Abort;
use std::test::Fail;

// Components, numbers and values of entries, and why they are not a view.
const REFUSED: &[(&[Shown], ViewRefusal)] = &[
    (&[(1, 1, 1), (0, 0, 1)], ViewRefusal::NotRising),
    (&[(1, 1, 1), (1, 2, 1)], ViewRefusal::NotRising),
    (&[(0, 0, 1), (1, 1, 1)], ViewRefusal::ZeroNumber),
    (&[(0, 0, 1)], ViewRefusal::ZeroNumber),
];

// Why these entries are not a view, or nothing if they are one.
fn refusal_of(alloc: Global, shown: &[Shown]) -> Result<Option<ViewRefusal>, AllocError> {
    let mut entries = Vec::new(alloc);
    for &(component, number, value) in shown {
        entries.push(entry(component, number, value))?;
    }
    Ok(View::from_entries(entries).err())
}

#[test]
fn entries_that_do_not_rise_are_refused_before_zero_numbers(rt: HostRuntime) -> Result<(), Fail> {
    let alloc = rt.alloc();
    for (shown, refusal) in REFUSED {
        assert!(rt; refusal_of(alloc, shown)? == Some(*refusal), "of {shown:?}");
    }
    Ok(())
}

fn expect_shown(rt: &impl Abort, view: &View, entries: &[Entry]) {
    assert!(rt; view.entries() == entries);
    for shown in entries {
        let found = (view.number(shown.component), view.value(shown.component));
        assert!(rt; found == (shown.number, shown.value), "{shown:?}");
    }
}

#[test]
fn a_view_shows_its_entries_and_zero_elsewhere(rt: HostRuntime) -> Result<(), Fail> {
    let entries = [entry(0, 2, 11), entry(7, 1, 20), entry(255, u32::MAX, 0)];
    let view = View::from_entries(entries.to_vec(rt.alloc())?)?;
    expect_shown(&rt, &view, &entries);
    assert!(rt; (view.number(8), view.value(8)) == (0, 0));
    Ok(())
}
