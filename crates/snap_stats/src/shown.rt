//! What the completed views show.
ghost use Rattle.std.specs.Prelude.{◌≡◌, ◌≤◌, ◌<◌, ℕ, All, count_by, get_or, length, map, IfOk};
ghost use Rattle.snap_core.specs.Calls.{calls_of, views_of};
ghost use Rattle.snap_core.specs.Entries.{AreEntries, component_count};
ghost use Rattle.snap_core.specs.Events.{event_cap};
ghost use Rattle.snap_core.specs.Orders.{is_update};
ghost use Rattle.snap_stats.specs.Shown.{is_unshown};
ghost use Rattle.snap_stats.specs.inside.Marks.{AreCountedMore, AreLeft, AreTaken, AreViewCounts};

use snap_core::{COMPONENT_COUNT, Entry, Ownership};
use snap_index::{CallOp, Index};
use std::alloc::{AllocError, Global};

// Marks the calls that are updates.
fn update_marks<O: Ownership>(alloc: Global, index: &Index<'_, O>) -> Result<Vec<bool>, AllocError>
    ensures { IfOk result (λ marks. marks.items ≡ map is_update (calls_of index.now)) }
{
    let mut marks = Vec::new(alloc);
    for number in 0..index.call_count() {
        let Some(call) = index.call(number) else {
            unreachable!()
        };
        marks.push(matches!(call.op, CallOp::Update(_)))?;
    }
    Ok(marks)
}

// Takes the mark of each update that the entries list.
fn take_marks<O: Ownership>(marks: &mut [bool], index: &Index<'_, O>, entries: &[Entry])
    requires { length marks.old ≡ length (calls_of index.now) }
    ensures { AreTaken (calls_of index.now) entries.now marks.old marks.new }
{
    // what is known about the history of the index
    let _events = index.event_count();
    for entry in entries {
        if let Some(number) = index.update_call(entry.component, entry.number) {
            marks[number as usize] = false;
        }
    }
}

// Takes the mark of each update that a completed view shows.
fn take_shown<O: Ownership>(marks: &mut [bool], index: &Index<'_, O>)
    requires size { length marks.old ≡ length (calls_of index.now) }
    requires marks { marks.old ≡ map is_update (calls_of index.now) }
    ensures { AreLeft (calls_of index.now) (views_of (calls_of index.now)) marks.new }
{
    for place in 0..index.view_count() {
        let Some(view) = index.view(place) else {
            unreachable!()
        };
        take_marks(marks, index, view.entries());
    }
}

fn count_marks(marks: &[bool]) -> usize
    ensures { result ≡ count_by (λ mark. mark) marks.now }
{
    let mut count = 0;
    for &mark in marks {
        if mark {
            count += 1;
        }
    }
    count
}

/// The number of updates, and the number of those that no completed view shows.
pub(crate) fn update_counts<O: Ownership>(
    alloc: Global,
    index: &Index<'_, O>,
) -> Result<(usize, usize), AllocError>
    ensures all { IfOk result (λ counts. counts.0 ≡ count_by is_update (calls_of index.now)) }
    ensures unshown { IfOk result (λ counts. counts.1 ≡ count_by (is_unshown (calls_of index.now)) (calls_of index.now)) }
{
    let mut marks = update_marks(alloc, index)?;
    let all = count_marks(&marks);
    take_shown(&mut marks, index);
    Ok((all, count_marks(&marks)))
}

// Counts each component of some entries once more.
fn count_components(counts: &mut [usize], entries: &[Entry])
    requires size { length counts.old ≡ component_count }
    requires few { All (λ n. n ≤ event_cap) counts.old }
    requires entries { AreEntries entries.now }
    ensures { AreCountedMore entries.now counts.old counts.new }
{
    for entry in entries {
        counts[entry.component as usize] += 1;
    }
}

/// The number of completed views that show each component.
pub(crate) fn views_by_component<O: Ownership>(
    alloc: Global,
    index: &Index<'_, O>,
) -> Result<Vec<usize>, AllocError>
    ensures size { IfOk result (λ counts. length counts.items ≡ component_count) }
    ensures counts { IfOk result (λ counts. AreViewCounts (views_of (calls_of index.now)) counts.items) }
{
    // what is known about the history of the index
    let _events = index.event_count();
    let mut counts = vec![in alloc; 0usize; COMPONENT_COUNT]?;
    for place in 0..index.view_count() {
        let Some(view) = index.view(place) else {
            unreachable!()
        };
        count_components(&mut counts, view.entries());
    }
    Ok(counts)
}
