//! The text of what a run has shown.
ghost use Rattle.std.specs.Prelude.{◌≡◌, ◌++◌, IfOk, OnOk};
ghost use Rattle.std.specs.List.{flat_map};
ghost use Rattle.snap_report.specs.Lines.{line_text, text_of};
ghost use Rattle.snap_stats.specs.Lines.{component_line, number_line, open_lines, overlap_lines, size_lines, stats_text as spec_stats_text, warning_lines};

use crate::overlaps::Overlapping;
use crate::stats::{ComponentStats, Stats};
use snap_report::put_number;
use std::alloc::{AllocError, Global};

fn put_line(out: &mut Vec<u8>, what: &[u8], number: usize) -> Result<(), AllocError>
    ensures { OnOk result (out.new.items ≡ out.old.items ++ line_text (number_line what.now number)) }
{
    out.extend_from_slice(what)?;
    put_number(out, b" ", number as u64)?;
    out.extend_from_slice(b"\n")
}

// Adds the numbers of events, calls and others.
fn put_sizes(out: &mut Vec<u8>, stats: &Stats) -> Result<(), AllocError>
    ensures { OnOk result (out.new.items ≡ out.old.items ++ text_of (size_lines stats.now)) }
{
    put_line(out, b"events", stats.events)?;
    put_line(out, b"calls", stats.calls)?;
    put_line(out, b"pending", stats.pending)?;
    put_line(out, b"views", stats.views)?;
    put_line(out, b"updates", stats.updates)?;
    put_line(out, b"processes", stats.processes)?;
    put_line(out, b"components", stats.components)
}

// Adds the numbers of views that overlap other calls.
fn put_overlaps(out: &mut Vec<u8>, overlapping: &Overlapping) -> Result<(), AllocError>
    ensures { OnOk result (out.new.items ≡ out.old.items ++ text_of (overlap_lines overlapping.now)) }
{
    put_line(out, b"views that overlap an update", overlapping.update)?;
    put_line(out, b"views that overlap another view", overlapping.view)?;
    put_line(out, b"views that overlap nothing", overlapping.nothing)
}

// Adds the number of updates that no view shows, and how long calls are open.
fn put_open(out: &mut Vec<u8>, stats: &Stats) -> Result<(), AllocError>
    ensures { OnOk result (out.new.items ≡ out.old.items ++ text_of (open_lines stats.now)) }
{
    put_line(out, b"updates that no view shows", stats.unshown)?;
    put_line(out, b"most calls open at once", stats.most_open)?;
    put_line(out, b"events of the longest call", stats.longest)
}

fn put_component(out: &mut Vec<u8>, component: &ComponentStats) -> Result<(), AllocError>
    ensures { OnOk result (out.new.items ≡ out.old.items ++ line_text (component_line component.now)) }
{
    put_number(out, b"component ", u64::from(component.component))?;
    put_number(out, b" writer ", u64::from(component.writer))?;
    put_number(out, b" updates ", component.updates as u64)?;
    put_number(out, b" views ", component.views as u64)?;
    out.extend_from_slice(b"\n")
}

fn put_components(out: &mut Vec<u8>, components: &[ComponentStats]) -> Result<(), AllocError>
    ensures { OnOk result (out.new.items ≡ out.old.items ++ flat_map (λ c. line_text (component_line c)) components.now) }
{
    for component in components {
        put_component(out, component)?;
    }
    Ok(())
}

// Adds a warning if the run shows nothing of concurrency.
fn put_warning(out: &mut Vec<u8>, stats: &Stats) -> Result<(), AllocError>
    ensures { OnOk result (out.new.items ≡ out.old.items ++ text_of (warning_lines stats.now)) }
{
    if stats.shows_concurrency() {
        return Ok(());
    }
    if stats.most_open > 1 {
        out.extend_from_slice(
            b"no view overlapped an update: this run shows nothing of concurrency\n",
        )
    } else {
        out.extend_from_slice(b"nothing overlapped: this run shows nothing of concurrency\n")
    }
}

/// What a run has shown, one fact on each line.
pub fn stats_text(
    alloc: Global,
    stats: &Stats,
    components: &[ComponentStats],
) -> Result<Vec<u8>, AllocError>
    ensures { IfOk result (λ text. text.items ≡ spec_stats_text stats.now components.now) }
{
    let mut out = Vec::new(alloc);
    put_sizes(&mut out, stats)?;
    put_overlaps(&mut out, &stats.overlapping)?;
    put_open(&mut out, stats)?;
    put_components(&mut out, components)?;
    put_warning(&mut out, stats)?;
    Ok(out)
}
