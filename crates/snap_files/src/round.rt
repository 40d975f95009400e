//! Rounds of names: the workers judge the texts of a round in parallel, and memory holds the reports of one round.
ghost use Rattle.std.specs.Prelude.{◌≡◌, ◌≤◌, ◌<◌, ◌+◌, ◌-◌, ◌*◌, IfOk, length, min, take, drop};
ghost use Rattle.snap_files.specs.inside.Files.{AreAnswered};

use crate::crew::Crew;
use crate::format::FileOptions;
use crate::page::{Answer, check_name};
use snap_names::Opener;
use snap_threads::Cutting;
use std::alloc::{AllocError, Global};
use std::thread::{Threads, map_chunks};

/// The greatest number of names of a round for each worker.
const SHARE_LIMIT: usize = 8;

/// The names of the round that begins at a place: as many shares as there are workers, or all names that are left.
pub(crate) fn round_at(names: &[Vec<u8>], from: usize, cutting: Cutting) -> &[Vec<u8>]
    requires { from < length names.now }
    ensures some { 0 < length result.now }
    ensures count { length result.now ≡ min (length names.now - from) (cutting.workers * SHARE_LIMIT) }
    ensures within { from + length result.now ≤ length names.now }
    ensures names { result.now ≡ take (length result.now) (drop from names.now) }
{
    let left = &names[from..];
    &left[..left.len().min(cutting.workers() as usize * SHARE_LIMIT)]
}

// The cutting of each text of a round. A text among others has one worker, and a text alone has all of them.
fn cutting_in(names: &[Vec<u8>], cutting: Cutting) -> Cutting {
    if names.len() > 1 {
        Cutting::new(cutting.pieces(), 1).unwrap_or(cutting)
    } else {
        cutting
    }
}

// What is answered and written for each of some names, one after another.
fn pages_in_turn<Rt: Threads + Sync, O: Opener>(
    crew: &Crew<'_, Rt>,
    alloc: Global,
    opener: &O,
    names: &[Vec<u8>],
    options: FileOptions,
) -> Result<Vec<(Answer, Vec<u8>)>, AllocError>
    ensures { IfOk result (λ pages. AreAnswered (O.opens opener.now) options names.now pages.items) }
{
    let mut pages = Vec::new(alloc);
    for name in names {
        let page = check_name(crew, alloc, opener, name, options);
        pages.push(page)?;
    }
    Ok(pages)
}

/// What is answered and written for each name of a round. Each share of the names has a thread of its own, if one can be started.
pub(crate) fn pages_of<Rt: Threads + Sync, O: Opener>(
    crew: &Crew<'_, Rt>,
    alloc: Global,
    opener: &O,
    names: &[Vec<u8>],
    options: FileOptions,
) -> Result<Vec<(Answer, Vec<u8>)>, AllocError>
    ensures { IfOk result (λ pages. AreAnswered (O.opens opener.now) options names.now pages.items) }
{
    let Crew { rt, cutting } = *crew;
    let own = cutting_in(names, cutting);
    let size = names.len().div_ceil(cutting.workers() as usize).max(1);
    let mut shares = map_chunks(
        rt,
        alloc,
        names,
        size,
        &|_, share: &[Vec<u8>]| -> Result<Vec<(Answer, Vec<u8>)>, AllocError>
            ensures { IfOk result (λ pages. AreAnswered (O.opens opener.entry.now) options share.now pages.items) }
        { pages_in_turn(&Crew { rt, cutting: own }, alloc, opener, share, options) },
    )?;
    let mut behind = Vec::new(alloc);
    while let Some(share) = shares.pop() {
        let mut pages = share?;
        pages.append(&mut behind)?;
        behind = pages;
    }
    Ok(behind)
}
