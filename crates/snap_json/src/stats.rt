//! The line of statistics.
ghost use Rattle.std.specs.Prelude.{◌≡◌, ◌++◌, ◌∷◌, [], IfOk, OnOk, codes};
ghost use Rattle.std.specs.List.{flat_map};
ghost use Rattle.json.specs.Json.{array};
ghost use Rattle.json.specs.Token as token;
ghost use Rattle.json.specs.Tree.{json_tokens};
ghost use Rattle.snap_json.specs.Stats.{component_items, component_json, open_fields, overlap_fields, size_fields, stats_json};
ghost use Rattle.snap_json.specs.Values.{IsLineOf, field_tokens};

use crate::line::Line;
use crate::object::begin_text;
use snap_stats::{ComponentStats, Overlapping, Stats};
use std::alloc::{AllocError, Global};

// Adds the numbers of events, calls and others.
fn put_sizes(line: &mut Line, stats: &Stats) -> Result<(), AllocError>
    ensures { OnOk result (line.new.writer.tokens ≡ line.old.writer.tokens ++ field_tokens (size_fields stats.now)) }
{
    line.number("events", stats.events as u64)?;
    line.number("calls", stats.calls as u64)?;
    line.number("pending", stats.pending as u64)?;
    line.number("views", stats.views as u64)?;
    line.number("updates", stats.updates as u64)?;
    line.number("processes", stats.processes as u64)?;
    line.number("components", stats.components as u64)
}

// Adds the numbers of views that overlap other calls.
fn put_overlaps(line: &mut Line, overlapping: &Overlapping) -> Result<(), AllocError>
    ensures { OnOk result (line.new.writer.tokens ≡ line.old.writer.tokens ++ field_tokens (overlap_fields overlapping.now)) }
{
    line.number("overlap_update", overlapping.update as u64)?;
    line.number("overlap_view", overlapping.view as u64)?;
    line.number("overlap_nothing", overlapping.nothing as u64)
}

// Adds the number of updates that no view shows, how long calls are open, and whether that shows concurrency.
fn put_open(line: &mut Line, stats: &Stats) -> Result<(), AllocError>
    ensures { OnOk result (line.new.writer.tokens ≡ line.old.writer.tokens ++ field_tokens (open_fields stats.now)) }
{
    line.number("unshown", stats.unshown as u64)?;
    line.number("most_open", stats.most_open as u64)?;
    line.number("longest", stats.longest as u64)?;
    line.truth("shows_concurrency", stats.shows_concurrency())
}

fn put_component(line: &mut Line, component: &ComponentStats) -> Result<(), AllocError>
    ensures { OnOk result (line.new.writer.tokens ≡ line.old.writer.tokens ++ json_tokens (component_json component.now)) }
{
    line.begin_object()?;
    line.number("component", u64::from(component.component))?;
    line.number("writer", u64::from(component.writer))?;
    line.number("updates", component.updates as u64)?;
    line.number("views", component.views as u64)?;
    line.end_object()
}

fn put_each(line: &mut Line, components: &[ComponentStats]) -> Result<(), AllocError>
    ensures { OnOk result (line.new.writer.tokens ≡ line.old.writer.tokens ++ flat_map (λ c. json_tokens (component_json c)) components.now) }
{
    for component in components {
        put_component(line, component)?;
    }
    Ok(())
}

// Adds the array of components with its key.
fn put_components(line: &mut Line, components: &[ComponentStats]) -> Result<(), AllocError>
    ensures { OnOk result (line.new.writer.tokens ≡ line.old.writer.tokens ++ field_tokens ((codes "by_component", array (component_items components.now)) ∷ [])) }
{
    line.key("by_component")?;
    line.begin_array()?;
    put_each(line, components)?;
    line.end_array()
}

/// The line of statistics: the name, the exit status, the counts of a history, and those of each component that has an update.
pub fn stats_line(
    alloc: Global,
    name: &str,
    status: u8,
    stats: &Stats,
    components: &[ComponentStats],
) -> Result<Vec<u8>, AllocError>
    ensures { IfOk result (λ line. IsLineOf (stats_json name.now status stats.now components.now) line.items) }
{
    let mut line = begin_text(alloc, name, status)?;
    put_sizes(&mut line, stats)?;
    put_overlaps(&mut line, &stats.overlapping)?;
    put_open(&mut line, stats)?;
    put_components(&mut line, components)?;
    line.end_object()?;
    line.finish()
}
