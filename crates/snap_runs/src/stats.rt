//! What a history has shown, as an object with a name or as lines.
ghost use Rattle.std.specs.Prelude.{IfOk};
ghost use Rattle.std.specs.Option.{option_copied};
ghost use Rattle.snap_runs.specs.Stats.{CountsHistory, WritesStats};

use crate::object::object_name;
use snap_check::Status;
use snap_core::{AnyWriters, History};
use snap_index::Index;
use snap_json::stats_line;
use snap_stats::{stats_of, stats_text};
use std::alloc::{AllocError, Global};

// What is written of a history.
fn stats_out(
    alloc: Global,
    name: Option<&[u8]>,
    history: &History<AnyWriters>,
) -> Result<Vec<u8>, AllocError>
    ensures { IfOk result (λ out. WritesStats (option_copied name.entry) history.now.events out.items) }
{
    let index = Index::build(alloc, history)?;
    let (counts, components) = stats_of(alloc, &index)?;
    match name {
        Some(name) => {
            let shown = object_name(alloc, name)?;
            stats_line(alloc, &shown, Status::Recorded.code(), &counts, &components)
        }
        None => stats_text(alloc, &counts, &components),
    }
}

/// The status of a history that is not judged, and what it has shown.
pub(crate) fn counted(
    alloc: Global,
    name: Option<&[u8]>,
    history: &History<AnyWriters>,
) -> Result<(Status, Vec<u8>), AllocError>
    ensures { IfOk result (λ answer. CountsHistory (option_copied name.entry) history.now.events answer.0 answer.1.items) }
{
    let out = stats_out(alloc, name, history)?;
    Ok((Status::Recorded, out))
}
