//! The begins and ends of cut calls, and their order.
ghost use Rattle.std.specs.Prelude.{◌≡◌, ◌++◌, map, None, IfOk, OnOk};
ghost use Rattle.std.specs.List.{flat_map};
ghost use Rattle.snap_core.specs.Calls.{Updates, Views};
ghost use Rattle.snap_versions.specs.inside.RankedMoments.{AreInOrder, ranked, ranked_of};
ghost use Rattle.snap_versions.specs.inside.Updates.{begin_among, end_among, update_calls};

use crate::moment::Moment;
use crate::update::Update;
use snap_core::{Event, View};
use std::alloc::{AllocError, Global};

/// A moment, with the number of its update, 0 for a view. Of two moments at one place the lower number comes first.
#[derive(Drop)]
pub(crate) struct Ranked {
    number: u32,
    moment: Moment,
}

/// Adds the begin and the end of a view, which is not cut.
pub(crate) fn push_view(
    moments: &mut Vec<Ranked>,
    process: u16,
    answer: Option<View>,
    begun: u32,
    ended: Option<u32>,
) -> Result<(), AllocError>
    requires { answer ≡ None → ended ≡ None }
    ensures { OnOk result (moments.new.items ≡ moments.old.items ++ ranked process (Views answer) begun ended begun ended) }
{
    moments.push(Ranked {
        number: 0,
        moment: Moment {
            at: begun,
            place: begun,
            event: Event::BeginView { process },
        },
    })?;
    if let Some(at) = ended
        && let Some(view) = answer
    {
        moments.push(Ranked {
            number: 0,
            moment: Moment {
                at,
                place: at,
                event: Event::EndView { process, view },
            },
        })?;
    }
    Ok(())
}

// Adds the begin and the end of an update that is cut to two times.
fn push_update(
    moments: &mut Vec<Ranked>,
    update: Update,
    begun: u32,
    ended: Option<u32>,
) -> Result<(), AllocError>
    ensures { OnOk result
        (moments.new.items ≡ moments.old.items ++ ranked update.process (Updates update.entry) update.begun update.ended begun ended) }
{
    let Update { process, entry, .. } = update;
    moments.push(Ranked {
        number: entry.number,
        moment: Moment {
            at: begun,
            place: update.begun,
            event: Event::BeginUpdate { process, entry },
        },
    })?;
    if let Some(at) = ended {
        moments.push(Ranked {
            number: entry.number,
            moment: Moment {
                at,
                place: update.ended.unwrap_or(update.begun),
                event: Event::EndUpdate { process },
            },
        })?;
    }
    Ok(())
}

/// Adds the begins and ends of updates, which are cut to these times.
pub(crate) fn push_updates(
    moments: &mut Vec<Ranked>,
    updates: &[Update],
    begins: &[u32],
    ends: &[Option<u32>],
) -> Result<(), AllocError>
    requires begins { begins.now ≡ map (begin_among updates.now) updates.now }
    requires ends { ends.now ≡ map (end_among updates.now) updates.now }
    ensures { OnOk result
        (moments.new.items ≡ moments.old.items ++ flat_map (ranked_of (update_calls updates.now)) (update_calls updates.now)) }
{
    for i in 0..updates.len() {
        push_update(moments, updates[i], begins[i], ends[i])?;
    }
    Ok(())
}

/// The moments by place, and those at one place by number.
pub(crate) fn in_order(alloc: Global, mut moments: Vec<Ranked>) -> Result<Vec<Moment>, AllocError>
    ensures { IfOk result (λ told. AreInOrder moments.items told.items) }
{
    moments.sort_unstable_by_key(|ranked| (ranked.moment.at, ranked.number));
    moments
        .into_iter()
        .map(|ranked| ranked.moment)
        .collect(alloc)
}
