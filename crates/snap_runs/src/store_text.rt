//! The history that a text of a store tells, once its updates are cut.
ghost use Rattle.std.specs.Prelude.{◌≡◌, ◌≤◌, IfOk, IfSome, List, MatchOption, length, map};
ghost use Rattle.snap_core.specs.Counting.{failures_in, inner_of};
ghost use Rattle.snap_core.specs.Events.{event_cap};
ghost use Rattle.snap_csv.specs.Answers.{Counts};
ghost use Rattle.snap_format.specs.Faults.{fault_of};
ghost use Rattle.snap_format.specs.Stamps.{events_of, places_of};
ghost use Rattle.snap_format.specs.declared.stamped.Stamped.{Stamped};
ghost use Rattle.snap_runs.specs.StoreTexts.{AnswersSorted, AnswersStore, HasRecords, record_at as spec_record_at};

use snap_core::{AnyWriters, Counted, Event, EventRefusal, History, Limit};
use snap_csv::{ReadRefusal, Stamped, fault_for, read_stamped_events};
use snap_text::TextFault;
use snap_versions::{Store, store_history};
use std::alloc::{AllocError, Global};
use std::io::Read;

/// What a text of a store tells.
#[derive(Drop)]
pub(crate) enum StoreText {
    /// The history of the cut calls, and the record of each of its events in the text.
    History(History<AnyWriters>, Vec<u32>),
    /// The versions contradict time: an update ended at the first record, and one of its component with a lower version began at the
    /// second, which is later.
    Contradiction { ended: u32, begun: u32 },
}

// The events and their records.
fn parted(alloc: Global, sorted: Vec<Stamped>) -> Result<(Vec<Event>, Vec<u32>), AllocError>
    ensures events { IfOk result (λ parts. parts.0.items ≡ events_of sorted.items) }
    ensures records { IfOk result (λ parts. parts.1.items ≡ places_of sorted.items) }
{
    let mut events = Vec::with_capacity(alloc, sorted.len())?;
    let mut records = Vec::with_capacity(alloc, sorted.len())?;
    'each: for Stamped {
        at: _,
        place,
        event,
    } in sorted {
        events.push(event)?;
        records.push(place)?;
    }
    Ok((events, records))
}

// The record of the event at a place; 0 past the end.
fn record_at(records: &[u32], place: usize) -> u32
    ensures { result ≡ spec_record_at records.now place }
{
    match records.get(place) {
        Some(record) => *record,
        None => 0,
    }
}

// The records of the events at some places.
fn records_at(alloc: Global, records: &[u32], places: &[u32]) -> Result<Vec<u32>, AllocError>
    ensures { IfOk result (λ found. found.items ≡ map (spec_record_at records.now) places.now) }
{
    let mut found = Vec::with_capacity(alloc, places.len())?;
    for i in 0..places.len() {
        found.push(record_at(records, places[i] as usize))?;
    }
    Ok(found)
}

// The fault of a text for an event that no store may have.
fn refused_at(place: u32, refusal: EventRefusal) -> ReadRefusal
    ensures { MatchOption (fault_of refusal) (result ≡ ReadRefusal.Memory) (λ fault. result ≡ ReadRefusal.Text place fault) }
{
    match fault_for(refusal) {
        Some(fault) => ReadRefusal::Text { place, fault },
        None => ReadRefusal::Memory,
    }
}

// What events tell, which are in the order of their stamps, by their records.
fn told(
    alloc: Global,
    events: &[Event],
    records: &[u32],
    limit: Limit,
) -> Result<StoreText, ReadRefusal>
    requires { length events.now ≤ event_cap }
    ensures told { (sorted : List Stamped) → events.now ≡ events_of sorted → records.now ≡ places_of sorted → AnswersSorted limit sorted result }
    ensures each { IfOk result HasRecords }
{
    match store_history(alloc, events, limit)? {
        Store::Cut(history, places) => {
            let records = records_at(alloc, records, &places)?;
            Ok(StoreText::History(history, records))
        }
        Store::Refused(place, refusal) => Err(refused_at(record_at(records, place), refusal)),
        Store::Contradiction { ended, begun } => Ok(StoreText::Contradiction {
            ended: record_at(records, ended as usize),
            begun: record_at(records, begun as usize),
        }),
        Store::TooMany => Err(ReadRefusal::Text {
            place: events.len() as u32 + 1,
            fault: TextFault::TooMany,
        }),
    }
}

/// What the text of a reader tells of a store, by a limit of events.
pub(crate) fn read_store<R: Read>(
    alloc: Global,
    reader: &mut Counted<R>,
    room: &mut Vec<u8>,
    limit: Limit,
) -> Result<StoreText, ReadRefusal>
    ensures text { IfSome (R.remaining (inner_of reader.old)) (λ text. AnswersStore limit text result) }
    ensures each { IfOk result HasRecords }
    ensures counts { Counts (failures_in reader.old) (failures_in reader.new) result }
{
    let sorted = read_stamped_events(alloc, reader, room, limit)?;
    let (events, records) = parted(alloc, sorted)?;
    told(alloc, &events, &records, limit)
}
