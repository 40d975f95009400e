//! Plans, their limits, and the recordings of their calls.
use snap_core::{Entry, Event, OpenGate};
use snap_record::{Plan, PlanRefusal, Recording, Step, record_plan, rounds_plan};
use snap_testing::entry;
use std::alloc::{AllocError, Global};
use std::process::Abort;
use std::sync::Wait;
use std::test::Fail;
use std::thread::Threads;

// Lists of stores of 0, of these lengths.
fn stores(alloc: Global, lengths: &[usize]) -> Result<Vec<Vec<Step>>, AllocError> {
    let mut lists = Vec::new(alloc);
    for length in lengths {
        lists.push(vec![in alloc; Step::Store(0); *length]?)?;
    }
    Ok(lists)
}

const REFUSED: Option<PlanRefusal> = Some(PlanRefusal::TooLong);

// The lengths of lists, and why they are not a plan.
const LENGTHS: &[(&[usize], Option<PlanRefusal>)] = &[
    (&[1], Some(PlanRefusal::Workers)),
    (&[1, 1, 1, 1, 1, 1, 1, 1, 1], Some(PlanRefusal::Workers)),
    (&[4096, 4096], None),
    (&[16384, 16384], None),
    (&[16384, 16385], REFUSED),
];

#[test]
fn a_plan_has_2_to_8_lists_and_at_most_65536_events(rt: HostRuntime) -> Result<(), Fail> {
    for (lengths, known) in LENGTHS {
        let found = Plan::new(stores(rt.alloc(), *lengths)?).err();
        assert!(rt; found == *known, "{lengths:?}");
    }
    Ok(())
}

// Two lists: the first has `steps` scans of `tries` tries, and the second is empty.
fn scans(alloc: Global, steps: usize, tries: u32) -> Result<Vec<Vec<Step>>, AllocError> {
    Ok(vec![in alloc; vec![in alloc; Step::Scan(tries); steps]?, Vec::new(alloc)]?)
}

// The number of scans, their tries, and why they are not a plan.
const SCANS: &[(usize, u32, Option<PlanRefusal>)] = &[
    (1, 0, REFUSED),
    (1, 1025, REFUSED),
    (1022, 1024, None),
    (1023, 1024, REFUSED),
];

#[test]
fn a_scan_has_1_to_1024_tries_and_a_list_at_most_1048576_ticks(
    rt: HostRuntime,
) -> Result<(), Fail> {
    for (steps, tries, known) in SCANS {
        let found = Plan::new(scans(rt.alloc(), *steps, *tries)?).err();
        assert!(rt; found == *known, "{steps} scans of {tries} tries");
    }
    Ok(())
}

// The numbers of workers and rounds of plans, and why each is refused.
const ROUNDS: &[(u32, u32, Option<PlanRefusal>)] = &[
    (2, 0, REFUSED),
    (2, 2049, REFUSED),
    (3, 0, REFUSED),
    (1, 0, Some(PlanRefusal::Workers)),
    (9, 0, Some(PlanRefusal::Workers)),
];

// The number of events of `workers` workers in 2,048 rounds.
fn events_of<R: Threads + Wait + Sync>(rt: &R, alloc: Global, workers: u32) -> Result<usize, Fail> {
    let plan = rounds_plan(alloc, workers, 2048, false)?;
    Ok(record_plan(rt, alloc, &plan, &OpenGate)?.history.len())
}

#[test]
fn rounds_are_1_to_2048_of_2_to_8_workers(rt: HostRuntime) -> Result<(), Fail> {
    for (workers, rounds, known) in ROUNDS {
        let found = rounds_plan(rt.alloc(), *workers, *rounds, false).err();
        assert!(rt; found == *known, "{workers} workers in {rounds} rounds");
    }
    assert_eq!(rt; events_of(&rt, rt.alloc(), 2)?, 16_384);
    assert_eq!(rt; events_of(&rt, rt.alloc(), 8)?, 65_536);
    Ok(())
}

/// The plan of two workers, each of which stores its value and then makes another call.
pub(crate) fn two_stores(alloc: Global, values: (u32, u32), then: Step) -> Result<Plan, Fail> {
    let first = [Step::Store(values.0), then].to_vec(alloc)?;
    let second = [Step::Store(values.1), then].to_vec(alloc)?;
    Ok(Plan::new(vec![in alloc; first, second]?)?)
}

/// Whether this begins the update of an entry by the process of its component.
fn begins(event: &Event, want: Entry) -> bool {
    match event {
        Event::BeginUpdate { process, entry } => {
            *process == u16::from(want.component) && *entry == want
        }
        _ => false,
    }
}

/// Whether this ends a view of a process that shows an entry.
pub(crate) fn shows(event: &Event, by: u16, want: Entry) -> bool {
    match event {
        Event::EndView { process, view } => {
            *process == by
                && view.number(want.component) == want.number
                && view.value(want.component) == want.value
        }
        _ => false,
    }
}

// The process of a component has begun an update of this entry, and ended a view that shows it.
fn expect_own(rt: &impl Abort, recording: &Recording, want: Entry) {
    let process = u16::from(want.component);
    let events = recording.history.events();
    assert!(rt; events.iter().any(|event| begins(event, want)));
    assert!(rt; events.iter().any(|event| shows(event, process, want)));
}

// Two workers have each made two calls, the first of which stored 5 or 6. The stamps are 0, 1, 2 and so on.
fn expect_two_stores(rt: &impl Abort, recording: &Recording) {
    assert!(rt; recording.history.len() == 8 && recording.interfered == 0);
    assert!(rt; recording.stamps.as_slice() == [0, 1, 2, 3, 4, 5, 6, 7].as_slice());
    expect_own(rt, recording, entry(0, 1, 5));
    expect_own(rt, recording, entry(1, 1, 6));
}

#[test]
fn each_worker_makes_its_calls_and_sees_its_own_store(rt: HostRuntime) -> Result<(), Fail> {
    let plan = two_stores(rt.alloc(), (5, 6), Step::View)?;
    expect_two_stores(&rt, &record_plan(&rt, rt.alloc(), &plan, &OpenGate)?);
    Ok(())
}
