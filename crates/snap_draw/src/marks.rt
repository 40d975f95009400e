//! The calls of the first fault of each kind.
ghost use Rattle.std.specs.Prelude.{◌≡◌, ◌++◌, IfOk, OnOk};
ghost use Rattle.std.specs.List.{flat_map};
ghost use Rattle.snap_core.specs.Calls.{calls_of, views_of};
ghost use Rattle.snap_conditions.specs.Tally.{tally_of};
ghost use Rattle.snap_draw.specs.Marks.{kind_marks, mark_at, marks_of, update_mark, view_mark};
ghost use Rattle.snap_draw.specs.Window.{is_marked as spec_is_marked};

use snap_conditions::{Kind, Tally};
use snap_core::Ownership;
use snap_index::Index;
use snap_witness::{concerned, first_fault_of};
use std::alloc::{AllocError, Global};

/// A call of the first fault of a kind, by its number.
#[derive(Clone, Copy)]
pub struct Mark {
    pub kind: Kind,
    pub call: u32,
}

/// Whether a call is one of a first fault.
pub(crate) fn is_marked(marks: &[Mark], number: u32) -> bool
    ensures { result ≡ spec_is_marked marks.now number }
{
    marks.iter().any(|mark| mark.call == number)
}

// Marks a call, if there is one.
fn push_mark(marks: &mut Vec<Mark>, kind: Kind, call: Option<u32>) -> Result<(), AllocError>
    ensures { OnOk result (marks.new.items ≡ marks.old.items ++ mark_at kind call) }
{
    if let Some(call) = call {
        marks.push(Mark { kind, call })?;
    }
    Ok(())
}

// Marks the views of these call numbers.
fn mark_views(marks: &mut Vec<Mark>, kind: Kind, views: &[u32]) -> Result<(), AllocError>
    ensures { OnOk result (marks.new.items ≡ marks.old.items ++ flat_map (view_mark kind) views.now) }
{
    for view in views {
        push_mark(marks, kind, Some(*view))?;
    }
    Ok(())
}

// Marks the updates of these components and numbers, as far as there are such updates.
fn mark_updates<O: Ownership>(
    marks: &mut Vec<Mark>,
    index: &Index<'_, O>,
    kind: Kind,
    updates: &[(u8, u32)],
) -> Result<(), AllocError>
    ensures { OnOk result (marks.new.items ≡ marks.old.items ++ flat_map (update_mark kind (calls_of index.now)) updates.now) }
{
    for update in updates {
        push_mark(marks, kind, index.update_call(update.0, update.1))?;
    }
    Ok(())
}

// Marks the calls that the first fault of a kind concerns, if there is one.
fn mark_kind<O: Ownership>(
    marks: &mut Vec<Mark>,
    index: &Index<'_, O>,
    tally: &Tally,
    kind: Kind,
) -> Result<(), AllocError>
    requires { tally.now ≡ tally_of (calls_of index.now) (views_of (calls_of index.now)) }
    ensures { OnOk result (marks.new.items ≡ marks.old.items ++ kind_marks (calls_of index.now) tally.now kind) }
{
    match first_fault_of(index, tally, kind) {
        Some(fault) => {
            let calls = concerned(*marks.allocator(), index, &fault)?;
            mark_views(marks, kind, &calls.views)?;
            mark_updates(marks, index, kind, &calls.updates)
        }
        None => Ok(()),
    }
}

/// The calls that the first fault of each kind concerns, as an explanation has them.
pub(crate) fn marks<O: Ownership>(
    alloc: Global,
    index: &Index<'_, O>,
    tally: &Tally,
) -> Result<Vec<Mark>, AllocError>
    requires { tally.now ≡ tally_of (calls_of index.now) (views_of (calls_of index.now)) }
    ensures { IfOk result (λ marks. marks.items ≡ marks_of (calls_of index.now) tally.now) }
{
    let mut marks = Vec::new(alloc);
    for kind in &Kind::ALL {
        mark_kind(&mut marks, index, tally, *kind)?;
    }
    Ok(marks)
}
