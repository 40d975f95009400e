//! Histories, and why an event is refused.
ghost use Rattle.std.specs.Prelude.{◌≡◌, ◌≤◌, ◌⊎◌, ◌↔◌, [], ◌∷◌, ◌++◌, length, OnOk, OnErr, IfErr, IsTrue, slice_get};
ghost use Rattle.std.specs.Option.{option_copied};
ghost use Rattle.snap_core.specs.Bounded.{IsAtMost, IsBoundedBy, IsBoundedOrdered};
ghost use Rattle.snap_core.specs.Events.{event_cap};
ghost use Rattle.snap_core.specs.UsualLimits.{one_writer, usual_limit};
ghost use Rattle.snap_core.specs.declared.writers.Writers.TheVariants.{One};
ghost use Rattle.snap_core.specs.Refusals.{breaks_writer as spec_breaks_writer, breaks_order as spec_breaks_order, refusal_of};

use crate::event::Event;
use crate::limit::Limit;
use crate::ownership::{AnyWriters, OneWriter, Ownership};
use crate::tables::Tables;
use crate::writers::Writers;
use std::alloc::Global;
use std::marker::{Model, PhantomData};

/// The greatest number of events of a history, whatever limit a caller chooses.
pub const EVENT_CAP: usize = 1_048_576;

/// Why an event is refused, in the order in which the reasons are tested.
#[derive(Clone, Copy, PartialEq, Eq, Debug)]
pub enum EventRefusal {
    /// The history has as many events as its limit.
    TooMany,
    /// A begin, and the process has an open call.
    Busy,
    /// An end, and the process has no open call.
    Idle,
    /// An end of the other kind than the open call.
    OtherOp,
    /// An update of a component that another process writes.
    Writer,
    /// An update whose number is not the next of its component.
    Number,
    /// An end of an update before that of a lower number of its component. Only where a component has many writers.
    Order,
    /// Memory ran out.
    Memory,
}

/// A list of events in which each process alternates begins and ends of calls. The updates of a component are numbered 1, 2, 3
/// by their begins. Each component has one writer. On a board of `AnyWriters` each process may write it, if the limit says so: then its
/// updates may overlap, and they end in the order of their numbers. The list has at most as many events as its limit.
#[derive(Drop)]
pub struct History<O: Ownership = OneWriter> {
    events: Vec<Event>,
    tables: Tables,
    limit: Limit,
    board: PhantomData<O>,
}

impl<O: Ownership> Model for History<O> {
    ghost use Rattle.std.specs.Prelude.{◌≤◌, length};
    ghost use Rattle.snap_core.specs.Limited.{LimitedEvents};

    ghost Value = { LimitedEvents };

    ghost use Rattle.snap_core.specs.Bounded.{IsAtMost};
    ghost use Rattle.snap_core.specs.inside.Tables.{IsRecalled};

    ghost view = { λ h. record { events = h.events.items; limit = h.limit } };

    ghost invariant = { λ h. IsRecalled h.limit.writers h.tables h.events.items × (length h.events.items ≤ h.limit.events) × IsAtMost O.writers h.limit.writers };
}

impl History {
    /// The history without events, with the usual limit. It takes no memory.
    pub fn new(alloc: Global) -> History
        ensures events { result.events ≡ [] }
        ensures limit { result.limit ≡ usual_limit }
    {
        History {
            events: Vec::new(alloc),
            tables: Tables::new(alloc),
            limit: Limit::usual(),
            board: PhantomData,
        }
    }

    /// The history without events, with this limit of events, and one writer of each component. It takes no memory.
    pub fn with_limit(alloc: Global, limit: Limit) -> History
        ensures events { result.events ≡ [] }
        ensures limit { result.limit ≡ one_writer limit }
    {
        History {
            events: Vec::new(alloc),
            tables: Tables::new(alloc),
            limit: Limit {
                events: limit.events,
                writers: Writers::One,
            },
            board: PhantomData,
        }
    }
}

impl History<AnyWriters> {
    /// The history without events, with this limit. It takes no memory.
    pub fn of_any(alloc: Global, limit: Limit) -> History<AnyWriters>
        ensures events { result.events ≡ [] }
        ensures limit { result.limit ≡ limit }
    {
        History {
            events: Vec::new(alloc),
            tables: Tables::new(alloc),
            limit,
            board: PhantomData,
        }
    }

    /// The same history, where the type says that each component has one writer. The limit must say so too.
    pub fn into_one(self) -> History
        requires writers { self.limit.writers ≡ One }
        ensures { result ≡ self }
    {
        self.on_board()
    }
}

impl<O: Ownership> History<O> {
    /// The same history, where the type doesn't say how many writers a component has.
    pub fn into_any(self) -> History<AnyWriters>
        ensures { result ≡ self }
    {
        self.on_board()
    }

    // The same history, whose type allows as many writers as its limit.
    fn on_board<B: Ownership>(self) -> History<B>
        requires { IsAtMost B.writers self.limit.writers }
        ensures { result ≡ self }
    {
        History {
            events: self.events,
            tables: self.tables,
            limit: self.limit,
            board: PhantomData,
        }
    }

    /// The number of its events, at most its limit.
    pub fn len(&self) -> usize
        ensures len { result ≡ length self.now.events }
        ensures limit { result ≤ self.now.limit.events }
        ensures cap { self.now.limit.events ≤ event_cap }
    {
        let _limit = self.limit.events();
        self.events.len()
    }

    /// Whether it has as many events as its limit.
    pub fn is_full(&self) -> bool
        ensures { IsTrue result ↔ (self.now.limit.events ≤ length self.now.events) }
    {
        self.events.len() >= self.limit.events()
    }

    /// The event at a place, counted from 0; none if `i` is at or past the end.
    pub fn event(&self, i: usize) -> Option<&Event>
        ensures { option_copied result ≡ slice_get self.now.events i }
    {
        self.events.get(i)
    }

    /// The events in their order.
    pub fn events(&self) -> &[Event]
        ensures events { result.now ≡ self.now.events }
        ensures history { IsBoundedBy O.writers self.now.events }
        ensures limited { IsBoundedBy self.now.limit.writers self.now.events }
        ensures ordered { IsBoundedOrdered self.now.events }
    {
        &self.events
    }

    /// Appends an event, in constant time except for the growth of its tables. A refused event comes back with the first
    /// refusal that applies, and the history is unchanged.
    #[inline(always)]
    pub fn push(&mut self, event: Event) -> Result<(), (Event, EventRefusal)>
        ensures ok { OnOk result (self.new.events ≡ self.old.events ++ event ∷ []) }
        ensures accepted { OnOk result (refusal_of self.old.limit self.old.events event ≡ None) }
        ensures kept { OnErr result (self.new ≡ self.old) }
        ensures back { IfErr result (λ e. e.0 ≡ event) }
        ensures reason { IfErr result (λ e. (refusal_of self.old.limit self.old.events event ≡ Some e.1) ⊎ (e.1 ≡ EventRefusal.Memory)) }
        ensures limit { self.new.limit ≡ self.old.limit }
    {
        if let Some(refusal) = self.refusal(&event) {
            return Err((event, refusal));
        }
        event.fits();
        let process = event.process();
        let begun = event.begun();
        if self.tables.make_room(process, begun).is_err() {
            return Err((event, EventRefusal::Memory));
        }
        if let Err(failed) = self.events.push(event) {
            return Err((failed.value, EventRefusal::Memory));
        }
        self.tables.note(process, begun);
        Ok(())
    }

    /// The first refusal that applies to an event, lack of memory aside; none if the event may be appended.
    pub fn refusal(&self, event: &Event) -> Option<EventRefusal>
        ensures { result ≡ refusal_of self.now.limit self.now.events event.now }
    {
        if self.events.len() >= self.limit.events() {
            Some(EventRefusal::TooMany)
        } else if self.tables.is_busy(event) {
            Some(EventRefusal::Busy)
        } else if self.tables.is_idle(event) {
            Some(EventRefusal::Idle)
        } else if self.tables.is_other(event) {
            Some(EventRefusal::OtherOp)
        } else if self.breaks_writer(event) {
            Some(EventRefusal::Writer)
        } else if self.tables.has_other_number(event) {
            Some(EventRefusal::Number)
        } else if self.breaks_order(event) {
            Some(EventRefusal::Order)
        } else {
            None
        }
    }

    // Whether a component has one writer, and an event begins an update of it by another process.
    fn breaks_writer(&self, event: &Event) -> bool
        ensures { result ≡ spec_breaks_writer self.now.limit.writers self.now.events event.now }
    {
        match self.limit.writers() {
            Writers::One => self.tables.has_other_writer(event),
            Writers::Many => false,
        }
    }

    // Whether a component has many writers, and an event ends an update of it out of order.
    fn breaks_order(&self, event: &Event) -> bool
        ensures { result ≡ spec_breaks_order self.now.limit.writers self.now.events event.now }
    {
        match self.limit.writers() {
            Writers::One => false,
            Writers::Many => self.tables.ends_early(event),
        }
    }
}
