//! A completed view, looked up once.
ghost use Rattle.std.specs.Prelude.{◌<◌, length};
ghost use Rattle.snap_core.specs.Calls.{calls_of, views_of};
ghost use Rattle.snap_views.specs.Seen.{IsSeen, view_in};

use snap_core::{Entry, Ownership};
use snap_index::{Call, Index};

/// A completed view of an index.
#[derive(Clone, Copy)]
pub struct SeenView<'i> {
    /// The number of its call, from 0.
    pub call_number: u32,
    /// Its call.
    pub call: Call,
    /// What it shows, by component.
    pub entries: &'i [Entry],
}

/// The completed view at a place in the order of call numbers, counted from 0. There must be one.
pub fn view_at<'i, O: Ownership>(index: &'i Index<'_, O>, place: u32) -> SeenView<'i>
    requires { place < length (views_of (calls_of index.now)) }
    ensures { IsSeen (view_in (calls_of index.entry.now) place) result }
{
    let Some(call_number) = index.view_call(place) else {
        unreachable!()
    };
    let Some(call) = index.call(call_number) else {
        unreachable!()
    };
    let Some(view) = index.view(place) else {
        unreachable!()
    };
    SeenView {
        call_number,
        call: *call,
        entries: view.entries(),
    }
}
