//! A search that begins where its answer is likely to be.
ghost use Rattle.std.specs.Prelude.{◌≤◌, length};
ghost use Rattle.snap_order.specs.inside.Near.{PartsAt};

// The number of places that pass a test, if those that pass come before those that do not. The search begins at `near`. The closer
// the answer is to it, the fewer places are tested, and any number will do.
#[inline]
pub(crate) fn partition_near<F: Fn(&u32) -> bool>(places: &[u32], near: usize, test: F) -> usize
    requires { F.IsAlwaysCallable test }
    ensures bound { result ≤ length places.now }
    ensures parted { PartsAt F.Fn test places.now result }
{
    let (before, behind) = places.split_at(near.min(places.len()));
    let passing = partition_from_end(before, &test);
    if passing < before.len() {
        passing
    } else {
        passing + partition_from_start(behind, &test)
    }
}

// The answer of `partition_near`, for places of which most are likely to pass. The search goes back from the last place in steps
// that double, until one passes, and then halves the last step.
#[inline]
fn partition_from_end<F: Fn(&u32) -> bool>(places: &[u32], test: &F) -> usize
    requires { F.IsAlwaysCallable test.now }
    ensures bound { result ≤ length places.now }
    ensures parted { PartsAt F.Fn test.now places.now result }
{
    let len = places.len();
    // the number of places at the end that are known not to pass
    let mut failing = 0;
    // the distance of the next place from the last one
    let mut back = 0;
    while back < len && !test(&places[len - 1 - back]) {
        failing = back + 1;
        back += failing;
    }
    let low = len.saturating_sub(back);
    low + places[low..len - failing].partition_point(test)
}

// The answer of `partition_near`, for places of which few are likely to pass. The search goes on from the first place in steps
// that double, until one does not pass, and then halves the last step.
#[inline]
fn partition_from_start<F: Fn(&u32) -> bool>(places: &[u32], test: &F) -> usize
    requires { F.IsAlwaysCallable test.now }
    ensures bound { result ≤ length places.now }
    ensures parted { PartsAt F.Fn test.now places.now result }
{
    // the number of places at the start that are known to pass
    let mut passing = 0;
    // the next place to be tested
    let mut ahead = 0;
    while ahead < places.len() && test(&places[ahead]) {
        passing = ahead + 1;
        ahead += passing;
    }
    let high = ahead.min(places.len());
    passing + places[passing..high].partition_point(test)
}
