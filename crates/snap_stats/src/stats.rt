//! The counts of a history.
ghost use Rattle.std.specs.Prelude.{◌≡◌, IfOk};
ghost use Rattle.snap_core.specs.Calls.{calls_of};
ghost use Rattle.snap_stats.specs.Lines.{shows_concurrency as spec_shows_concurrency};
ghost use Rattle.snap_stats.specs.Overlaps.{longest_call, most_open as spec_most_open};
ghost use Rattle.snap_stats.specs.Shown.{writer_of as spec_writer_of};
ghost use Rattle.snap_stats.specs.Stats.{components_of, overlapping_of, stats_of as spec_stats_of};

use crate::open::{longest, most_open};
use crate::overlaps::{Overlapping, count_overlaps};
use crate::processes::process_count;
use crate::shown::{update_counts, views_by_component};
use crate::span::{Kind, spans_of};
use snap_core::{COMPONENT_COUNT, Ownership};
use snap_index::Index;
use std::alloc::{AllocError, Global};

/// The counts of a history.
#[derive(Clone, Copy, PartialEq, Eq, Debug)]
pub struct Stats {
    pub events: usize,
    pub calls: usize,
    /// The calls without an end.
    pub pending: usize,
    /// The completed views.
    pub views: usize,
    /// The updates, pending ones among them.
    pub updates: usize,
    /// The updates that no completed view shows.
    pub unshown: usize,
    /// The processes that have a call.
    pub processes: usize,
    /// The components that have an update.
    pub components: usize,
    /// The greatest number of calls that are open at once.
    pub most_open: usize,
    /// The events of the longest completed call, its begin and its end among them.
    pub longest: usize,
    pub overlapping: Overlapping,
}

/// The counts of a component.
#[derive(Clone, Copy, PartialEq, Eq, Debug)]
pub struct ComponentStats {
    pub component: u8,
    /// The process of its updates.
    pub writer: u16,
    pub updates: usize,
    /// The completed views that show it.
    pub views: usize,
}

impl Stats {
    /// Whether some completed view overlaps an update. Otherwise precedence alone determines what each view of a regular history shows.
    pub fn shows_concurrency(&self) -> bool
        ensures { result ≡ spec_shows_concurrency self.now }
    {
        self.overlapping.update > 0
    }
}

// The numbers of views that overlap other calls.
fn overlapping_in<O: Ownership>(
    alloc: Global,
    index: &Index<'_, O>,
) -> Result<Overlapping, AllocError>
    ensures { IfOk result (λ found. found ≡ overlapping_of (calls_of index.now)) }
{
    // what is known about the history of the index
    let _events = index.event_count();
    let updates = spans_of(alloc, index, Kind::Update)?;
    let views = spans_of(alloc, index, Kind::View)?;
    count_overlaps(alloc, &updates, &views)
}

// The greatest number of calls that are open at once, and the number of events that the longest lasts.
fn open_in<O: Ownership>(alloc: Global, index: &Index<'_, O>) -> Result<(usize, usize), AllocError>
    ensures most { IfOk result (λ found. found.0 ≡ spec_most_open (calls_of index.now)) }
    ensures longest { IfOk result (λ found. found.1 ≡ longest_call (calls_of index.now)) }
{
    // what is known about the history of the index
    let _events = index.event_count();
    let calls = spans_of(alloc, index, Kind::Any)?;
    let most = most_open(alloc, &calls)?;
    Ok((most, longest(&calls)))
}

// The process of the first update of a component, or 0 if it has none.
fn writer_of<O: Ownership>(index: &Index<'_, O>, component: u8) -> u16
    ensures { result ≡ spec_writer_of (calls_of index.now) component }
{
    match index.update(component, 1) {
        Some(call) => call.process,
        None => 0,
    }
}

// The counts of each component that has an update, in rising order.
fn components_in<O: Ownership>(
    alloc: Global,
    index: &Index<'_, O>,
) -> Result<Vec<ComponentStats>, AllocError>
    ensures { IfOk result (λ components. components.items ≡ components_of (calls_of index.now)) }
{
    let views = views_by_component(alloc, index)?;
    let mut components = Vec::new(alloc);
    for k in 0..COMPONENT_COUNT {
        let component = k as u8;
        let updates = index.update_count(component) as usize;
        if updates > 0 {
            components.push(ComponentStats {
                component,
                writer: writer_of(index, component),
                updates,
                views: views[k],
            })?;
        }
    }
    Ok(components)
}

/// The counts of a history, and those of each component that has an update, in rising order of the components. The error is lack of memory.
pub fn stats_of<O: Ownership>(
    alloc: Global,
    index: &Index<'_, O>,
) -> Result<(Stats, Vec<ComponentStats>), AllocError>
    ensures counts { IfOk result (λ shown. shown.0 ≡ spec_stats_of index.now) }
    ensures components { IfOk result (λ shown. shown.1.items ≡ components_of (calls_of index.now)) }
{
    let (updates, unshown) = update_counts(alloc, index)?;
    let processes = process_count(alloc, index)?;
    let (most_open, longest) = open_in(alloc, index)?;
    let overlapping = overlapping_in(alloc, index)?;
    let components = components_in(alloc, index)?;
    let stats = Stats {
        events: index.event_count() as usize,
        calls: index.call_count() as usize,
        pending: index.pending_count() as usize,
        views: index.view_count() as usize,
        updates,
        unshown,
        processes,
        components: components.len(),
        most_open,
        longest,
        overlapping,
    };
    Ok((stats, components))
}
