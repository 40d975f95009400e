//! A recording that is followed, line by line.
ghost use Rattle.std.specs.Prelude.{◌≡◌, ◌≢◌, ◌≤◌, ◌<◌, ◌++◌, ◌∷◌, [], ◌↔◌, ℕ, List, None, Some, IsTrue, IfErr, IfNone, IfOk, IfSome, OnErr, OnOk, drop, false, true, length};
ghost use Rattle.snap_core.specs.declared.limit.Limit.{Limit};
ghost use Rattle.snap_core.specs.declared.event.Event.{Event};
ghost use Rattle.snap_core.specs.Calls.{calls_of};
ghost use Rattle.snap_core.specs.Bounded.{IsHistoryBy};
ghost use Rattle.snap_follow.specs.inside.Counts.{CountsOpen};
ghost use Rattle.snap_follow.specs.inside.Refusals.{ended_by};
ghost use Rattle.snap_follow.specs.declared.follow.Ended.TheVariants as ends;
ghost use Rattle.snap_follow.specs.declared.form.Form.TheVariants as forms;
ghost use Rattle.snap_core.specs.Regular.{IsRegular};
ghost use Rattle.snap_csv.specs.OneLine.{AnswersLine};
ghost use Rattle.snap_format.specs.Rows.{rows_of};
ghost use Rattle.snap_theory.specs.Versions.{IsAtomicBy};
ghost use Rattle.snap_theory.specs.Windows.{IsQuiet};
ghost use Rattle.snap_windows.specs.Taken.{HasTaken};
ghost use Rattle.snap_windows.specs.Verdicts.{IsVerdict};
ghost use Rattle.snap_follow.specs.Misses.{MissesNext};
ghost use Rattle.snap_follow.specs.Spans.{HasOneMore};
ghost use Rattle.snap_follow.specs.Followed.{EndsText, HasNoRecord, HasRead, IsLack, IsLate, IsNext, ReadsLine, RefusesLine, RefusesStamp, RefusesStamped, TakesFirst, WaitsWithin};
ghost use Rattle.snap_follow.specs.inside.Waits.{TakesTurn, WaitsAfter};

use crate::form::{Form, agrees, header_of};
use crate::quotes::without_quotes;
use crate::span::{Place, Span};
use crate::waiting::{Turn, Waiting};
use snap_core::{Event, EventRefusal, Limit};
use snap_csv::{ReadRefusal, fault_for, read_line, read_stamped_line};
use snap_text::{Known, TextFault};
use snap_windows::{Verdict, WindowJudge};
use std::alloc::{AllocError, Global};

/// A window that has ended: what it is, from what the windows before it left.
#[derive(Clone, Copy)]
pub struct Window {
    pub verdict: Verdict,
    pub span: Span,
}

/// Why a recording is followed no further.
#[derive(Clone, Copy)]
pub enum Ended {
    /// A record is not part of a history, or a window has no room for it.
    Refused { place: Place, fault: TextFault },
    /// The stamp of a record is not above that of one that the judge was given.
    Late { place: Place },
    /// Memory ran out.
    Memory,
}

impl From<AllocError> for Ended {
    ghost from_gives = { λ _ ended. ended ≡ ends.Memory };

    fn from(_error: AllocError) -> Ended {
        Ended::Memory
    }
}

/// A recording that is followed: everything that its lines have said so far.
#[derive(Drop)]
pub struct Follow {
    pub(crate) judge: WindowJudge,
    known: Known,
    // room for a line without its quotes
    bare: Vec<u8>,
    // the header of the texts, once one was read; whether that of the text at hand was, and the record that was read last
    form: Option<Form>,
    pub(crate) headed: bool,
    place: Place,
    // the records that wait, the most that may, and the stamp that the judge was given last
    waiting: Waiting,
    late: u32,
    given: Option<u64>,
    // the number of events from which on a window ends at a moment without an open call, and the number of open calls
    least: usize,
    open_calls: u64,
    // the window at hand
    span: Span,
}

// Whether a stamp is not above that which the judge was given last.
fn is_late(given: Option<u64>, at: u64) -> bool
    ensures { IsTrue result ↔ IsLate given at }
{
    match given {
        Some(last) => at <= last,
        None => false,
    }
}

// Why a recording ends, if the judge has refused the event of the record at a place.
fn ended_by_refusal(place: Place, refusal: EventRefusal) -> Ended
    ensures { result ≡ ended_by place refusal }
{
    match fault_for(refusal) {
        Some(fault) => Ended::Refused { place, fault },
        None => Ended::Memory,
    }
}

// The number of calls that are open after an event.
fn open_behind(before: u64, event: &Event) -> u64
    ensures { CountsOpen before event.now result }
{
    if event.is_begin() {
        before.saturating_add(1)
    } else {
        before.saturating_sub(1)
    }
}

impl Follow {
    /// A recording of which nothing was read. A window ends at the first moment without an open call from `least` events on. The limit
    /// `most` says how many events it has at most, and whether a component may have many writers. At most `late` records with stamps wait.
    pub fn new(alloc: Global, least: u32, most: Limit, late: u32) -> Follow
        ensures { HasRead result least most [] [] [] }
    {
        let place = Place { text: 0, number: 0 };
        Follow {
            judge: WindowJudge::new(alloc, most),
            known: Known::new(alloc),
            bare: Vec::new(alloc),
            form: None,
            headed: false,
            place,
            waiting: Waiting::new(alloc),
            late,
            given: None,
            least: least as usize,
            open_calls: 0,
            span: Span::behind(place),
        }
    }

    /// The place of the record that was read last. It is record 0 if the text at hand has none so far.
    pub fn place(&self) -> Place
        ensures { result ≡ self.now.place }
    {
        self.place
    }

    /// The place of the next record of the text at hand.
    pub fn next_place(&self) -> Place
        ensures { IsNext self.now.place result }
    {
        Place {
            text: self.place.text,
            number: self.place.number.saturating_add(1),
        }
    }

    // The refusal of the record that was read last.
    fn refused(&self, fault: TextFault) -> Ended
        ensures { result ≡ ends.Refused self.now.place fault }
    {
        Ended::Refused {
            place: self.place,
            fault,
        }
    }

    // The refusal of the next record.
    fn refused_next(&mut self, fault: TextFault) -> Ended
        ensures { (self.new.waiting ≡ self.old.waiting) × (self.new.late ≡ self.old.late) }
    {
        self.place = self.next_place();
        self.refused(fault)
    }

    // Takes a line before which the text has no record. If it has one, that must be the header.
    fn take_header(&mut self, alloc: Global, line: &[u8]) -> Result<(), Ended>
        requires { self.old.headed ≡ false }
        ensures read { OnOk result (ReadsLine self.old self.new line.now) }
        ensures refused { IfErr result (λ why. RefusesLine self.old line.now why) }
        ensures waits { (self.new.waiting ≡ self.old.waiting) × (self.new.late ≡ self.old.late) }
    {
        let Some(header) = header_of(alloc, line)? else {
            return Ok(());
        };
        self.place = self.next_place();
        let Some(form) = header else {
            return Err(self.refused(TextFault::Header));
        };
        if !agrees(self.form, form) {
            return Err(self.refused(TextFault::Header));
        }
        self.form = Some(form);
        self.headed = true;
        Ok(())
    }

    // Takes the event of the record at a place.
    fn take_event(&mut self, alloc: Global, event: &Event, place: Place) -> Result<(), Ended>
        ensures taken { OnOk result ((before since : List Event) → HasTaken self.old.judge before since → HasTaken self.new.judge before (since ++ event.now ∷ [])) }
        ensures kept { (self.new.headed ≡ self.old.headed) × (self.new.form ≡ self.old.form) × (self.new.place ≡ self.old.place) × (self.new.waiting ≡ self.old.waiting) × (self.new.given ≡ self.old.given) × (self.new.late ≡ self.old.late) }
        ensures rule { (self.new.least ≡ self.old.least) × (self.new.judge.most ≡ self.old.judge.most) }
        ensures counted { OnOk result (CountsOpen self.old.open_calls event.now self.new.open_calls) }
        ensures span { OnOk result (HasOneMore self.old.span event.now place self.new.span) }
        ensures missed { OnOk result (MissesNext self.old.judge event.now self.old.span.missed place self.new.span.missed) }
        ensures refused { IfErr result (λ why. (before since : List Event) → HasTaken self.old.judge before since → IsHistoryBy self.old.judge.most.writers (before ++ (since ++ event.now ∷ [])) → IsLack self.old.judge since why) }
    {
        let missed = match self.judge.take(alloc, event) {
            Ok(missed) => missed,
            Err(refusal) => return Err(ended_by_refusal(place, refusal)),
        };
        self.span = self.span.with(event, place, missed);
        self.open_calls = open_behind(self.open_calls, event);
        Ok(())
    }

    /// Whether a record waits.
    pub fn has_waiting(&self) -> bool
        ensures { IsTrue result ↔ (self.now.waiting.turns.items ≢ []) }
    {
        !self.waiting.is_empty()
    }

    /// Gives the record that waits with the least stamp to the judge, if one waits.
    pub fn take_waiting(&mut self, alloc: Global) -> Result<(), Ended>
        ensures taken { OnOk result (TakesFirst self.old self.new) }
        ensures fewer { OnOk result (self.new.waiting.turns.items ≡ drop 1 self.old.waiting.turns.items) }
        ensures late { self.new.late ≡ self.old.late }
        ensures refused { OnErr result (self.old.waiting.turns.items ≢ []) }
    {
        let Some(turn) = self.waiting.take_first() else {
            return Ok(());
        };
        self.given = Some(turn.at);
        self.take_event(alloc, &turn.event, turn.place)
    }

    // The event of a line under the header.
    fn read_event(&mut self, alloc: Global, line: &[u8]) -> Result<Option<Event>, ReadRefusal>
        ensures event { AnswersLine 0 (rows_of line.now) result }
        ensures same { (self.new.judge ≡ self.old.judge) × (self.new.span ≡ self.old.span) × (self.new.least ≡ self.old.least) × (self.new.open_calls ≡ self.old.open_calls) }
        ensures kept { (self.new.headed ≡ self.old.headed) × (self.new.form ≡ self.old.form) × (self.new.waiting ≡ self.old.waiting) × (self.new.given ≡ self.old.given) × (self.new.place ≡ self.old.place) }
        ensures late { self.new.late ≡ self.old.late }
    {
        let line = without_quotes(line, &mut self.bare)?;
        read_line(alloc, &mut self.known, line, 0)
    }

    // Takes a line under a header with stamps. Its record waits. If more wait than may, that with the least stamp goes to the judge.
    fn take_stamped(&mut self, alloc: Global, line: &[u8]) -> Result<(), Ended>
        requires { (self.old.headed ≡ true) × (self.old.form ≡ Some forms.Stamped) }
        ensures read { OnOk result (ReadsLine self.old self.new line.now) }
        ensures refused { IfErr result (λ why. RefusesLine self.old line.now why) }
        ensures waits { OnOk result (WaitsWithin self.old self.new) }
        ensures stamped { IfErr result (RefusesStamped self.old line.now) }
    {
        let line = without_quotes(line, &mut self.bare)?;
        let (at, event) = match read_stamped_line(alloc, &mut self.known, line, 0) {
            Ok(None) => return Ok(()),
            Ok(Some(found)) => found,
            Err(ReadRefusal::Text { place: _, fault }) => return Err(self.refused_next(fault)),
            Err(_) => return Err(Ended::Memory),
        };
        self.place = self.next_place();
        self.take_turn(alloc, at, event)
    }

    // Takes the event of the record that was read last, by its stamp.
    fn take_turn(&mut self, alloc: Global, at: u64, event: Event) -> Result<(), Ended>
        ensures turn { OnOk result (TakesTurn self.old at event self.new) }
        ensures waits { OnOk result (WaitsAfter self.old.late (length self.old.waiting.turns.items) (length self.new.waiting.turns.items)) }
        ensures late { self.new.late ≡ self.old.late }
        ensures refused { IfErr result (RefusesStamp self.old.given self.old.waiting.turns.items self.old.late at) }
    {
        let place = self.place;
        if is_late(self.given, at) {
            return Err(Ended::Late { place });
        }
        if !self.waiting.add(Turn { at, place, event })? {
            return Err(self.refused(TextFault::Repeated));
        }
        if self.waiting.len() > self.late as usize {
            self.take_waiting(alloc)?;
        }
        Ok(())
    }

    // Takes a line under a header without stamps.
    fn take_plain(&mut self, alloc: Global, line: &[u8]) -> Result<(), Ended>
        requires { (self.old.headed ≡ true) × (self.old.form ≢ Some forms.Stamped) }
        ensures read { OnOk result (ReadsLine self.old self.new line.now) }
        ensures refused { IfErr result (λ why. RefusesLine self.old line.now why) }
        ensures waits { (self.new.waiting ≡ self.old.waiting) × (self.new.late ≡ self.old.late) }
    {
        let event = match self.read_event(alloc, line) {
            Ok(None) => return Ok(()),
            Ok(Some(event)) => event,
            Err(ReadRefusal::Text { place: _, fault }) => return Err(self.refused_next(fault)),
            Err(_) => return Err(Ended::Memory),
        };
        self.place = self.next_place();
        let place = self.place;
        self.take_event(alloc, &event, place)
    }

    /// Reads the next line of the text at hand. A line without a record says nothing. The first record is the header, and each other
    /// one an event. With stamps its event waits, and that of the least stamp comes if more wait than may. After a refusal the recording
    /// is followed no further.
    pub fn take_line(&mut self, alloc: Global, line: &[u8]) -> Result<(), Ended>
        ensures read { OnOk result (ReadsLine self.old self.new line.now) }
        ensures refused { IfErr result (λ why. RefusesLine self.old line.now why) }
        ensures waits { OnOk result (WaitsWithin self.old self.new) }
        ensures stamped { IfErr result (RefusesStamped self.old line.now) }
    {
        if line.is_empty() {
            return Ok(());
        }
        if !self.headed {
            return self.take_header(alloc, line);
        }
        match self.form {
            Some(Form::Stamped) => self.take_stamped(alloc, line),
            _ => self.take_plain(alloc, line),
        }
    }

    /// Goes on to the next text of the recording, whose first record is a header too. Numbers go on, and calls may be open. A text
    /// without a header is refused. No record may wait.
    pub fn end_text(&mut self) -> Result<(), Ended>
        ensures ended { OnOk result (EndsText self.old self.new) }
        ensures refused { OnErr result (HasNoRecord self.old) }
    {
        if !self.headed {
            return Err(self.refused_next(TextFault::Header));
        }
        self.headed = false;
        self.place = Place {
            text: self.place.text.saturating_add(1),
            number: 0,
        };
        Ok(())
    }

    /// Ends the window at hand exactly if it has enough events and no call is open. The error is want of memory.
    pub fn cut(&mut self, alloc: Global) -> Result<Option<Window>, AllocError>
        ensures same { OnOk result ((least : ℕ) (most : Limit) (texts : List (List (List ℕ))) (lines : List (List ℕ)) (events : List Event) → HasRead self.old least most texts lines events → HasRead self.new least most texts lines events) }
        ensures window { IfOk result (λ found. IfSome found (λ window. (least : ℕ) (most : Limit) (texts : List (List (List ℕ))) (lines : List (List ℕ)) (events : List Event) (h : HasRead self.old least most texts lines events) → IsVerdict most.writers window.verdict h.before h.since)) }
        ensures enough { IfOk result (λ found. IfSome found (λ window. (least : ℕ) (most : Limit) (texts : List (List (List ℕ))) (lines : List (List ℕ)) (events : List Event) (h : HasRead self.old least most texts lines events) → least ≤ length h.since)) }
        ensures begun { IfOk result (λ found. IfSome found (λ window. (least : ℕ) (most : Limit) (texts : List (List (List ℕ))) (lines : List (List ℕ)) (events : List Event) (h : HasRead self.old least most texts lines events) → (n : HasRead self.new least most texts lines events) × (n.before ≡ h.before ++ h.since) × (n.since ≡ []) × (n.places ≡ h.places))) }
        ensures span { IfOk result (λ found. IfSome found (λ window. window.span ≡ self.old.span)) }
        ensures kept { IfOk result (λ found. IfNone found (self.new ≡ self.old)) }
        ensures waits { self.new.waiting ≡ self.old.waiting }
        ensures ends { IfOk result (λ found. IfNone found ((least : ℕ) (most : Limit) (texts : List (List (List ℕ))) (lines : List (List ℕ)) (events : List Event) (h : HasRead self.old least most texts lines events) → IsQuiet events → length h.since < least)) }
    {
        if self.open_calls > 0 || self.judge.len() < self.least {
            return Ok(None);
        }
        let Some(verdict) = self.judge.cut(alloc)? else {
            return Ok(None);
        };
        let span = self.span;
        self.span = Span::behind(self.place);
        Ok(Some(Window { verdict, span }))
    }

    /// Ends the recording, in which calls may be open: its last window, and what the whole is. The error is want of memory.
    pub fn finish(self, alloc: Global) -> Result<(Window, Verdict), AllocError>
        ensures span { IfOk result (λ x. x.0.span ≡ self.span) }
        ensures window { IfOk result (λ x. (least : ℕ) (most : Limit) (texts : List (List (List ℕ))) (lines : List (List ℕ)) (events : List Event) (h : HasRead self least most texts lines events) → IsVerdict most.writers x.0.verdict h.before h.since) }
        ensures regular { IfOk result (λ x. (least : ℕ) (most : Limit) (texts : List (List (List ℕ))) (lines : List (List ℕ)) (events : List Event) → HasRead self least most texts lines events → IsTrue x.1.regular ↔ IsRegular (calls_of events)) }
        ensures atomic { IfOk result (λ x. (least : ℕ) (most : Limit) (texts : List (List (List ℕ))) (lines : List (List ℕ)) (events : List Event) → HasRead self least most texts lines events → IsTrue x.1.atomic ↔ IsAtomicBy most.writers (calls_of events)) }
    {
        let span = self.span;
        let (verdict, whole) = self.judge.finish(alloc)?;
        Ok((Window { verdict, span }, whole))
    }
}
