//! Histories, their calls, their faults and their orders.
ghost use Rattle.snap_core.specs.Calls.{calls_of};
ghost use Rattle.snap_threads.specs.Claiming.{IsClaimOf};
ghost use Rattle.snap_theory.specs.Faults.{HasNoFault};

use crate::fault::{Fault, expect};
use snap_core::{Entry, Event, EventRefusal, History, OpenGate, View};
use snap_index::Index;
use snap_order::{build, check_order};
use snap_pairs::{Claim, Claims, tally_and_chain};
use snap_testing::worked::{ATOMIC_RUN, CROSSED_VIEWS, FOUR_WAYS, SEEN_PENDING};
use snap_testing::{Step, history_of};
use snap_threads::{Cutting, PIECE_LIMIT, WORKER_LIMIT};
use std::alloc::Global;
use std::thread::Threads;

// Pushes an event. If memory is refused, the history is as long as before and the same event comes back, and it is pushed again.
fn push_event(history: &mut History, event: Event) -> Result<(), Fault> {
    let length = history.len();
    let (process, is_begin) = (event.process(), event.is_begin());
    let Err((back, refusal)) = history.push(event) else {
        return expect(history.len() > length);
    };
    let is_back = back.process() == process && back.is_begin() == is_begin;
    expect(refusal == EventRefusal::Memory && is_back && history.len() == length)?;
    match history.push(back) {
        Ok(()) => expect(history.len() > length),
        Err((_again, refusal)) => {
            expect(refusal == EventRefusal::Memory && history.len() == length)?;
            Err(Fault::Memory)
        }
    }
}

// Begins an update of the last process and the last component, and views of 20 processes.
fn push_begins(history: &mut History) -> Result<(), Fault> {
    let update = Event::BeginUpdate {
        process: 65535,
        entry: LAST,
    };
    push_event(history, update)?;
    for process in 0..20 {
        push_event(history, Event::BeginView { process })?;
    }
    Ok(())
}

// Ends a view with one entry.
fn push_end(alloc: Global, history: &mut History) -> Result<(), Fault> {
    match View::from_entries(vec![in alloc; LAST]?) {
        Ok(view) => push_event(history, Event::EndView { process: 7, view }),
        Err(_refused) => Err(Fault::Wrong),
    }
}

// Pushes an event that is refused.
fn push_busy(history: &mut History) -> Result<(), Fault> {
    match history.push(Event::BeginView { process: 0 }) {
        Ok(()) => Err(Fault::Wrong),
        Err((_back, refusal)) => expect(refusal == EventRefusal::Busy),
    }
}

// The first entry of the last component.
const LAST: Entry = Entry {
    component: 255,
    number: 1,
    value: 7,
};

/// Events of many processes, the last process and the last component among them, and one that is refused.
pub(crate) fn push(alloc: Global) -> Result<(), Fault> {
    let mut history = History::new(alloc);
    push_begins(&mut history)?;
    push_end(alloc, &mut history)?;
    push_busy(&mut history)?;
    expect(history.len() == 22)
}

/// The view shows one of two pending updates.
pub(crate) fn index(alloc: Global) -> Result<(), Fault> {
    let history = history_of(alloc, SEEN_PENDING)?;
    let index = Index::build(alloc, &history)?;
    expect(index.call_count() == 3 && index.pending_count() == 2 && index.view_count() == 1)?;
    expect(index.update_call(1, 1) == Some(1) && index.update_call(1, 2).is_none())
}

// The printed order of an index.
fn printed<R: Threads + Sync>(rt: &R, alloc: Global, index: &Index<'_>) -> Result<Vec<u32>, Fault>
    requires { HasNoFault (calls_of index.now) }
{
    Ok(build(rt, alloc, index)?)
}

// The order of an index is this one. If memory is refused, it is made once more.
fn expect_printed<R: Threads + Sync>(
    rt: &R,
    alloc: Global,
    index: &Index<'_>,
    known: &[u32],
) -> Result<(), Fault>
    requires { HasNoFault (calls_of index.now) }
{
    let order = match printed(rt, alloc, index) {
        Err(Fault::Memory) => printed(rt, alloc, index)?,
        answer => answer?,
    };
    expect(order.as_slice() == known)
}

// This order of an index is legal, and printed, and its reverse is not.
fn expect_order<R: Threads + Sync>(rt: &R, alloc: Global, index: &Index<'_>) -> Result<(), Fault> {
    expect(!check_order(alloc, index, &[2, 0])?)?;
    if !check_order(alloc, index, &[0, 2])? {
        return Err(Fault::Wrong);
    }
    expect_printed(rt, alloc, index, &[0, 2])
}

/// The update that was shown and then the view are a legal order, and the one that is printed.
pub(crate) fn order<R: Threads + Sync>(rt: &R, alloc: Global) -> Result<(), Fault> {
    let history = history_of(alloc, SEEN_PENDING)?;
    let index = Index::build(alloc, &history)?;
    expect_order(rt, alloc, &index)
}

// The tally of an index by this cutting has this number of read faults and no other fault.
fn expect_cut<R: Threads + Sync>(
    rt: &R,
    alloc: Global,
    index: &Index<'_>,
    cutting: Cutting,
    count: u64,
) -> Result<(), Fault> {
    let (found, _chain) = tally_and_chain(rt, alloc, index, cutting, &OpenGate)?;
    expect(found.integrity.count() == 0 && found.proximity.count() == 0)?;
    expect(found.read.count() == count && found.write.count() == 0)
}

// The tally of a history by this cutting has this number of read faults and no other fault.
fn expect_read_faults<R: Threads + Sync>(
    rt: &R,
    alloc: Global,
    steps: &[Step<'_>],
    cutting: Cutting,
    count: u64,
) -> Result<(), Fault> {
    let history = history_of(alloc, steps)?;
    let index = Index::build(alloc, &history)?;
    expect_cut(rt, alloc, &index, cutting, count)
}

/// Two views disagree, and as many workers as there may be find it.
pub(crate) fn tally_of_pieces<R: Threads + Sync>(rt: &R, alloc: Global) -> Result<(), Fault> {
    let Ok(cutting) = Cutting::new(PIECE_LIMIT, WORKER_LIMIT) else {
        return Err(Fault::Wrong);
    };
    expect_read_faults(rt, alloc, CROSSED_VIEWS, cutting, 2)
}

/// Four views disagree about components far from one another, whose numbers several threads read.
pub(crate) fn tally_of_parts<R: Threads + Sync>(rt: &R, alloc: Global) -> Result<(), Fault> {
    expect_read_faults(rt, alloc, FOUR_WAYS, Cutting::usual(), 12)
}

// With two workers an index has this number of read faults, and its views are a chain or not. If memory is refused, it is judged once more.
fn expect_by_two<R: Threads + Sync>(
    rt: &R,
    alloc: Global,
    index: &Index<'_>,
    count: u64,
    is_chain: bool,
) -> Result<(), Fault> {
    let Ok(cutting) = Cutting::new(2, 2) else {
        return Err(Fault::Wrong);
    };
    let (found, chain) = match tally_and_chain(rt, alloc, index, cutting, &OpenGate) {
        Ok(both) => both,
        Err(_refused) => tally_and_chain(rt, alloc, index, cutting, &OpenGate)?,
    };
    expect(found.read.count() == count && chain.is_some() == is_chain)
}

// With two workers a history has this number of read faults, and its views are a chain or not.
fn expect_tally_and_chain<R: Threads + Sync>(
    rt: &R,
    alloc: Global,
    steps: &[Step<'_>],
    count: u64,
    is_chain: bool,
) -> Result<(), Fault> {
    let history = history_of(alloc, steps)?;
    let index = Index::build(alloc, &history)?;
    expect_by_two(rt, alloc, &index, count, is_chain)
}

/// Tallies by two workers, with a chain if there is no read fault.
pub(crate) fn tallies_and_chains<R: Threads + Sync>(rt: &R, alloc: Global) -> Result<(), Fault> {
    expect_tally_and_chain(rt, alloc, ATOMIC_RUN, 0, true)?;
    expect_tally_and_chain(rt, alloc, CROSSED_VIEWS, 2, false)
}

// The first of two claims draws two of three pieces, and the second one.
fn draw_three(counter: &Claims, first: &mut Claim, second: &mut Claim) -> Result<(), Fault>
    requires first { IsClaimOf counter.now first.old }
    requires second { IsClaimOf counter.now second.old }
    ensures first { IsClaimOf counter.now first.new }
    ensures second { IsClaimOf counter.now second.new }
{
    expect(counter.draw(first) == Some(0) && counter.draw(second) == Some(1))?;
    expect(counter.draw(first) == Some(2) && counter.draw(second).is_none())
}

/// The first claim draws two of three pieces, and both claims close the counter.
pub(crate) fn claims(alloc: Global) -> Result<(), Fault> {
    let Ok(cutting) = Cutting::new(3, 2) else {
        return Err(Fault::Wrong);
    };
    let (counter, mut claims) = Claims::start(alloc, cutting)?;
    let Some(mut second) = claims.pop() else {
        return Err(Fault::Wrong);
    };
    let Some(mut first) = claims.pop() else {
        return Err(Fault::Wrong);
    };
    draw_three(&counter, &mut first, &mut second)?;
    let both = vec![in alloc; first, second]?;
    expect(counter.close(both).is_ok())
}
