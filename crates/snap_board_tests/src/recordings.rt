//! Recordings of plans by workers.
use snap_core::{Entry, Event, Gate, Limit, OpenGate};
use snap_record::{
    Plan, PlanRefusal, Recording, Step, record_plan, rounds_plan, rounds_plan_within,
};
use snap_testing::{Meeting, entry};
use std::alloc::Global;
use std::process::Abort;
use std::sync::atomic::{AtomicU64, Ordering};
use std::test::Fail;

mod scans;

/// A gate that counts its calls, each weighed by its worker and its turn.
#[derive(Drop)]
struct Count {
    calls: AtomicU64,
}

impl Gate for Count {
    fn at(&self, worker: u32, turn: u32) {
        self.calls.fetch_add(1 << ((worker % 4) * 16 + (turn % 4) * 4), Ordering::SeqCst);
    }
}

/// A list of `steps` stores of 0.
fn stores(alloc: Global, steps: usize) -> Result<Vec<Step>, Fail> {
    Ok(vec![in alloc; Step::Store(0); steps]?)
}

/// Two lists, of `first` and of `second` stores.
fn two_lists(alloc: Global, first: usize, second: usize) -> Result<Vec<Vec<Step>>, Fail> {
    let mut lists = Vec::new(alloc);
    lists.push(stores(alloc, first)?)?;
    lists.push(stores(alloc, second)?)?;
    Ok(lists)
}

/// `count` lists of one store each.
fn lists(alloc: Global, count: u32) -> Result<Vec<Vec<Step>>, Fail> {
    let mut lists = Vec::new(alloc);
    for _ in 0..count {
        lists.push(stores(alloc, 1)?)?;
    }
    Ok(lists)
}

#[test]
fn an_open_gate_holds_nobody_up() {
    for turn in 0..3 {
        OpenGate.at(0, turn);
    }
}

/// Why lists are not a plan, or nothing if they are one.
fn refusal(lists: Vec<Vec<Step>>) -> Option<PlanRefusal> {
    Plan::new(lists).err()
}

#[test]
fn plans_have_two_to_eight_lists(rt: HostRuntime) -> Result<(), Fail> {
    let refused = Some(PlanRefusal::Workers);
    for (count, known) in [
        (0, refused),
        (1, refused),
        (2, None),
        (8, None),
        (9, refused),
    ] {
        assert!(rt;
            refusal(lists(rt.alloc(), count)?) == known,
            "{count} lists"
        );
    }
    Ok(())
}

#[test]
fn plans_have_steps_within_the_limit(rt: HostRuntime) -> Result<(), Fail> {
    let alloc = rt.alloc();
    let long = two_lists(alloc, 16384, 16385)?;
    assert!(rt; refusal(long) == Some(PlanRefusal::TooLong));
    let full = two_lists(alloc, 16384, 16384)?;
    assert!(rt; refusal(full).is_none());
    Ok(())
}

/// Why lists are not a plan by the greatest limit, or nothing if they are one.
fn greatest_refusal(lists: Vec<Vec<Step>>) -> Option<PlanRefusal> {
    Plan::with_limit(lists, Limit::greatest()).err()
}

#[test]
fn plans_have_more_steps_by_the_greatest_limit(rt: HostRuntime) -> Result<(), Fail> {
    let alloc = rt.alloc();
    let long = two_lists(alloc, 262144, 262145)?;
    assert!(rt; greatest_refusal(long) == Some(PlanRefusal::TooLong));
    let full = two_lists(alloc, 262144, 262144)?;
    assert!(rt; greatest_refusal(full).is_none());
    Ok(())
}

// The numbers of workers and rounds of plans, and why each is refused.
const ROUNDS: &[(u32, u32, Option<PlanRefusal>)] = &[
    (2, 2048, None),
    (2, 0, Some(PlanRefusal::TooLong)),
    (2, 2049, Some(PlanRefusal::TooLong)),
    (8, 2048, None),
    (8, 0, Some(PlanRefusal::TooLong)),
    (1, 0, Some(PlanRefusal::Workers)),
    (9, 0, Some(PlanRefusal::Workers)),
];

#[test]
fn rounds_are_limited(rt: HostRuntime) {
    for &(workers, rounds, known) in ROUNDS {
        let found = rounds_plan(rt.alloc(), workers, rounds, false).err();
        assert!(rt; found == known, "{workers} workers in {rounds} rounds");
    }
}

#[test]
fn there_are_more_rounds_by_the_greatest_limit(rt: HostRuntime) {
    for (rounds, known) in [(32768, None), (32769, Some(PlanRefusal::TooLong))] {
        let plan = rounds_plan_within(rt.alloc(), 8, rounds, false, Limit::greatest());
        assert!(rt; plan.err() == known, "{rounds} rounds");
    }
}

/// The plan of two workers with these steps.
fn two_scripts(alloc: Global, first: &[Step], second: &[Step]) -> Result<Plan, Fail> {
    let mut lists = Vec::new(alloc);
    lists.push(Vec::from_slice(alloc, first)?)?;
    lists.push(Vec::from_slice(alloc, second)?)?;
    Ok(Plan::new(lists)?)
}

/// Worker 0 stores 5 and collects, worker 1 stores 6 and collects.
fn two_stores(alloc: Global) -> Result<Plan, Fail> {
    two_scripts(
        alloc,
        &[Step::Store(5), Step::View],
        &[Step::Store(6), Step::View],
    )
}

/// Whether some view of the process shows 0:1:5, and some view 1:1:6.
fn shows(recording: &Recording, of: u16) -> (bool, bool) {
    let mut both = (false, false);
    for event in recording.history.events() {
        if let Event::EndView { process, view } = event {
            if *process == of {
                both.0 = both.0 || (view.number(0) == 1 && view.value(0) == 5);
                both.1 = both.1 || (view.number(1) == 1 && view.value(1) == 6);
            }
        }
    }
    both
}

// The number of events that begin an update of this entry, by the process of its component.
fn begins_of(recording: &Recording, want: Entry) -> usize {
    let events = recording.history.events().iter();
    events
        .filter(|event| match event {
            Event::BeginUpdate { process, entry } => {
                *process == u16::from(want.component) && *entry == want
            }
            _ => false,
        })
        .count()
}

/// Whether some event begins an update of this entry, by the process of its component.
fn begins(recording: &Recording, want: Entry) -> bool {
    begins_of(recording, want) > 0
}

// A recording has the events of `two_stores`.
fn expect_two_stores(rt: &impl Abort, recording: &Recording) {
    assert!(rt; recording.history.len() == 8 && recording.interfered == 0);
    assert!(rt; recording.stamps.as_slice() == [0, 1, 2, 3, 4, 5, 6, 7].as_slice());
    assert!(rt; begins(recording, entry(0, 1, 5)) && begins(recording, entry(1, 1, 6)));
    assert!(rt; shows(recording, 0).0 && shows(recording, 1).1);
}

#[test]
fn each_worker_sees_its_own_store(rt: HostRuntime) -> Result<(), Fail> {
    let alloc = rt.alloc();
    let plan = two_stores(alloc)?;
    let recording = record_plan(&rt, alloc, &plan, &OpenGate)?;
    expect_two_stores(&rt, &recording);
    Ok(())
}

// A view of each process shows both stores.
fn expect_both_shown(rt: &impl Abort, recording: &Recording) {
    for process in 0..2 {
        let seen = shows(recording, process);
        assert!(rt; seen.0 && seen.1);
    }
}

#[test]
fn two_workers_meet_behind_their_stores(rt: HostRuntime) -> Result<(), Fail> {
    let alloc = rt.alloc();
    let plan = two_stores(alloc)?;
    let gate = Meeting::at_turn(1);
    let recording = record_plan(&rt, alloc, &plan, &gate)?;
    assert!(rt; gate.was_held());
    expect_both_shown(&rt, &recording);
    Ok(())
}

/// Each worker stores its number and collects.
fn store_numbers(alloc: Global, workers: u32) -> Result<Plan, Fail> {
    let mut scripts = Vec::new(alloc);
    for worker in 0..workers {
        scripts.push(vec![in alloc; Step::Store(worker), Step::View]?)?;
    }
    Ok(Plan::new(scripts)?)
}

/// Whether this event ends a view that shows, of each component below 8, its first store, of its own number.
fn shows_eight_numbers(event: &Event) -> bool {
    match event {
        Event::EndView { process: _, view } => {
            view.entries().len() == 8
                && (0..8u8).all(|k| view.number(k) == 1 && view.value(k) == u32::from(k))
        }
        _ => false,
    }
}

// The number of such views.
fn views_of_eight(recording: &Recording) -> usize {
    let events = recording.history.events().iter();
    events.filter(|event| shows_eight_numbers(event)).count()
}

#[test]
fn eight_workers_meet_behind_their_stores(rt: HostRuntime) -> Result<(), Fail> {
    let alloc = rt.alloc();
    let plan = store_numbers(alloc, 8)?;
    let gate = Meeting::of(8, 1);
    let recording = record_plan(&rt, alloc, &plan, &gate)?;
    assert!(rt; gate.was_held());
    assert_eq!(rt; recording.history.len(), 32);
    assert_eq!(rt; views_of_eight(&recording), 8);
    Ok(())
}

// Whether the stamps are 0, 1, 2 and so on.
fn are_in_turn(stamps: &[u64]) -> bool {
    stamps
        .iter()
        .enumerate()
        .all(|(k, stamp)| *stamp == k as u64)
}

#[test]
fn two_workers_in_64_rounds_have_512_events(rt: HostRuntime) -> Result<(), Fail> {
    let alloc = rt.alloc();
    let plan = rounds_plan(alloc, 2, 64, false)?;
    let recording = record_plan(&rt, alloc, &plan, &OpenGate)?;
    assert_eq!(rt; recording.history.len(), 512);
    assert!(rt; are_in_turn(&recording.stamps));
    assert!(rt; begins(&recording, entry(1, 64, 65_600)));
    Ok(())
}

// A recording has the 16,384 updates of two components, and no others.
fn expect_updates(rt: &impl Abort, recording: &Recording) {
    for component in 0..2 {
        assert_eq!(rt; begins_of(recording, entry(component, 1, 0)), 1);
        assert_eq!(rt; begins_of(recording, entry(component, 16384, 0)), 1);
        assert_eq!(rt; begins_of(recording, entry(component, 16385, 0)), 0);
    }
}

#[test]
fn two_lists_of_16384_stores_have_65536_events(rt: HostRuntime) -> Result<(), Fail> {
    let alloc = rt.alloc();
    let plan = Plan::new(two_lists(alloc, 16384, 16384)?)?;
    let recording = record_plan(&rt, alloc, &plan, &OpenGate)?;
    assert!(rt; recording.history.len() == 65_536 && recording.stamps.len() == 65_536);
    assert!(rt; recording.stamps[0] == 0 && recording.stamps[65_535] == 65_535);
    expect_updates(&rt, &recording);
    Ok(())
}

#[test]
fn the_gate_is_called_before_each_step_and_at_the_end(rt: HostRuntime) -> Result<(), Fail> {
    let alloc = rt.alloc();
    let plan = two_stores(alloc)?;
    let gate = Count {
        calls: AtomicU64::new(0),
    };
    assert!(rt; record_plan(&rt, alloc, &plan, &gate).is_ok());
    assert_eq!(rt; gate.calls.load(Ordering::SeqCst), 0x0111_0111);
    Ok(())
}
