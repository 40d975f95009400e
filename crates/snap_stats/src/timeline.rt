//! The begins and the ends of calls. A search counts those before a place.
ghost use Rattle.std.specs.Prelude.{◌≡◌, ◌-◌, not, nat_lt, count_by, IfOk};
ghost use Rattle.std.specs.List.Sorted.{IsNonDecreasing};
ghost use Rattle.snap_core.specs.Calls.{is_before};
ghost use Rattle.snap_stats.specs.inside.Spans.{AreTimesOf};

use crate::span::Span;
use std::alloc::{AllocError, Global};

/// The places where calls begin and end, each in rising order.
#[derive(Drop)]
pub(crate) struct Timeline {
    begins: Vec<u32>,
    ends: Vec<u32>,
    ghost begins_rise: { IsNonDecreasing begins.items },
    ghost ends_rise: { IsNonDecreasing ends.items },
}

// The number of numbers below a limit.
fn count_less(numbers: &[u32], limit: u32) -> usize
    requires { IsNonDecreasing numbers.now }
    ensures { result ≡ count_by (λ x. nat_lt x limit) numbers.now }
{
    numbers.partition_point(|&number| number < limit)
}

// The number of places at an end or before it, or of all places if there is no end.
fn count_up_to(places: &[u32], ended: Option<u32>) -> usize
    requires { IsNonDecreasing places.now }
    ensures { result ≡ count_by (λ x. not (is_before ended x)) places.now }
{
    match ended {
        Some(ended) => places.partition_point(|&place| place <= ended),
        None => places.len(),
    }
}

impl Timeline {
    /// The begins and the ends of some calls.
    pub(crate) fn new(alloc: Global, spans: &[Span]) -> Result<Timeline, AllocError>
        ensures { IfOk result (λ times. AreTimesOf spans.now times.begins.items times.ends.items) }
    {
        let mut begins = Vec::new(alloc);
        let mut ends = Vec::new(alloc);
        for span in spans {
            begins.push(span.begun)?;
            if let Some(ended) = span.ended {
                ends.push(ended)?;
            }
        }
        begins.sort_unstable();
        ends.sort_unstable();
        Ok(Timeline { begins, ends })
    }

    /// The number of calls that have begun by an end, minus the number of those that have ended before a begin.
    pub(crate) fn count_met(&self, begun: u32, ended: Option<u32>) -> usize
        ensures { result ≡ count_by (λ x. not (is_before ended x)) self.now.begins.items - count_by (λ x. nat_lt x begun) self.now.ends.items }
    {
        count_up_to(&self.begins, ended).saturating_sub(count_less(&self.ends, begun))
    }
}
