//! The judge of windows.
ghost use Rattle.std.specs.Prelude.{◌≡◌, ◌≤◌, ◌++◌, ◌∷◌, [], ◌↔◌, ◌⊎◌, List, IsTrue, OnOk, OnErr, IfOk, IfErr, IfNone, IfSome, MatchOption, length};
ghost use Rattle.snap_core.specs.declared.event.Event.{Event};
ghost use Rattle.snap_core.specs.declared.history.EventRefusal.TheVariants as refusal;
ghost use Rattle.snap_core.specs.Bounded.{IsHistoryBy};
ghost use Rattle.snap_core.specs.Events.{IsSingleWriter};
ghost use Rattle.snap_core.specs.declared.writers.Writers.TheVariants.{One};
ghost use Rattle.snap_core.specs.Refusals.{breaks_writer as spec_breaks_writer, has_other_writer as spec_has_other_writer};
ghost use Rattle.snap_core.specs.Calls.{calls_of};
ghost use Rattle.snap_core.specs.Regular.{IsRegular};
ghost use Rattle.snap_theory.specs.Versions.{IsAtomicBy};
ghost use Rattle.snap_theory.specs.Windows.{IsQuiet, left_by};
ghost use Rattle.snap_windows.specs.Missed.{EventMisses, EventShowsNoLess};
ghost use Rattle.snap_windows.specs.Taken.{HasTaken};
ghost use Rattle.snap_windows.specs.Verdicts.{IsVerdict};
ghost use Rattle.snap_windows.specs.Last.{HasLast};
ghost use Rattle.snap_windows.specs.inside.Refused.{first_refusal};

use crate::last::{Wrote, none, note};
use crate::missed::missed_by;
use crate::renumber::renumbered_event;
use snap_conditions::{is_atomic, is_regular};
use snap_core::{AnyWriters, COMPONENT_COUNT, Entry, Event, EventRefusal, History, Limit, Writers};
use snap_index::Index;
use snap_tally::tally_and_chain_alone;
use std::alloc::{AllocError, Global};

/// Whether events are regular, and atomic. For a window, this is from what the windows before it left.
#[derive(Clone, Copy)]
pub struct Verdict {
    pub regular: bool,
    pub atomic: bool,
}

/// A judge of a recording of any length. It takes the events one by one, and judges a window of them at a moment at which no call
/// is open. It keeps only the events of the current window.
#[derive(Drop)]
pub struct WindowJudge {
    // the last update of each component in the ended windows, and in all events
    left: [Option<Wrote>; COMPONENT_COUNT],
    last: [Option<Wrote>; COMPONENT_COUNT],
    // the events of the current window, with numbers from 1, and whether their views show what was left or more
    window: History<AnyWriters>,
    shows: bool,
    // the verdicts on the ended windows together
    regular: bool,
    atomic: bool,
    most: Limit,
}

// Whether an event begins an update of a component that another process wrote.
fn has_other_writer(left: &[Option<Wrote>; COMPONENT_COUNT], event: &Event) -> bool
    ensures { (es : List Event) → HasLast left.now es → IsSingleWriter es → result ≡ spec_has_other_writer es event.now }
{
    match event {
        Event::BeginUpdate { process, entry } => match left[usize::from(entry.component)] {
            Some(wrote) => wrote.process != *process,
            None => false,
        },
        _ => false,
    }
}

impl WindowJudge {
    /// The judge that has taken nothing. `most` is the limit of a window: how many events it has at most, and whether a component of
    /// the recording may have many writers.
    pub fn new(alloc: Global, most: Limit) -> WindowJudge
        ensures taken { HasTaken result [] [] }
        ensures limit { result.most ≡ most }
    {
        WindowJudge {
            left: none(),
            last: none(),
            window: History::of_any(alloc, most),
            shows: true,
            regular: true,
            atomic: true,
            most,
        }
    }

    // Whether an event begins an update of a component that another process wrote, where a component has one writer.
    fn breaks_writer(&self, event: &Event) -> bool
        ensures { (before : List Event) → HasLast self.now.left before → (self.now.most.writers ≡ One → IsSingleWriter before) → result ≡ spec_breaks_writer self.now.most.writers before event.now }
    {
        match self.most.writers() {
            Writers::One => has_other_writer(&self.left, event),
            Writers::Many => false,
        }
    }

    // The first refusal that applies to an event, which is also given with numbers from 1. Lack of memory is left out.
    fn refusal(&self, renumbered: &Event, event: &Event) -> Option<EventRefusal>
        ensures { (before : List Event) → HasLast self.now.left before → (self.now.most.writers ≡ One → IsSingleWriter before) → self.now.window.limit ≡ self.now.most → result ≡ first_refusal self.now.most self.now.window.events renumbered.now before event.now }
    {
        let found = self.window.refusal(renumbered);
        match found {
            None | Some(EventRefusal::Number) => {
                if self.breaks_writer(event) {
                    Some(EventRefusal::Writer)
                } else {
                    found
                }
            }
            _ => found,
        }
    }

    /// Takes the next event of the recording. It may end a view that shows less of some component than what the earlier windows left.
    /// Then the answer is the entry that was left of the first such component. A refused event is not taken, and the judge is
    /// unchanged. There are three reasons: the recording would not be a history, the window has as many events as its limit, or
    /// memory ran out.
    pub fn take(&mut self, alloc: Global, event: &Event) -> Result<Option<Entry>, EventRefusal>
        ensures taken { OnOk result ((before since : List Event) → HasTaken self.old before since → HasTaken self.new before (since ++ event.now ∷ [])) }
        ensures missed { IfOk result (λ found. (before since : List Event) → HasTaken self.old before since → MatchOption found (EventShowsNoLess (left_by before) event.now) (EventMisses (left_by before) event.now)) }
        ensures kept { OnErr result (self.new ≡ self.old) }
        ensures refused { IfErr result (λ why. (before since : List Event) → HasTaken self.old before since → IsHistoryBy self.old.most.writers (before ++ (since ++ event.now ∷ [])) → (why ≡ refusal.TooMany) ⊎ (why ≡ refusal.Memory)) }
        ensures most { IfErr result (λ why. (before since : List Event) → HasTaken self.old before since → why ≡ refusal.TooMany → self.old.most.events ≤ length since) }
        ensures limit { self.new.most ≡ self.old.most }
    {
        event.fits();
        let Ok(renumbered) = renumbered_event(alloc, &self.left, event) else {
            return Err(EventRefusal::Memory);
        };
        if let Some(refusal) = self.refusal(&renumbered, event) {
            return Err(refusal);
        }
        let missed = missed_by(&self.left, event);
        if let Err((_, refusal)) = self.window.push(renumbered) {
            return Err(refusal);
        }
        note(&mut self.last, event);
        self.shows &= missed.is_none();
        Ok(missed)
    }

    /// The number of events of the current window.
    pub fn len(&self) -> usize
        ensures { (before since : List Event) → HasTaken self.now before since → result ≡ length since }
    {
        self.window.len()
    }

    // The verdict on the current window, and whether no call is open.
    fn judge(&self, alloc: Global) -> Result<(Verdict, bool), AllocError>
        ensures window { IfOk result (λ x. (before since : List Event) → HasTaken self.now before since → IsVerdict self.now.most.writers x.0 before since) }
        ensures quiet { IfOk result (λ x. (before since : List Event) → HasTaken self.now before since → IsTrue x.1 ↔ IsQuiet (before ++ since)) }
    {
        // this call shows what is known of the window's history
        let _events = self.window.events();
        let index = Index::build(alloc, &self.window)?;
        let (tally, _chain) = tally_and_chain_alone(alloc, &index)?;
        let verdict = Verdict {
            regular: self.shows & is_regular(&tally),
            atomic: self.shows & is_atomic(&tally),
        };
        Ok((verdict, index.pending_count() == 0))
    }

    /// Ends the current window, and answers its verdict; none if a call is open, and then nothing changes. The next window begins
    /// from what was left. The error is lack of memory, and then nothing changes.
    pub fn cut(&mut self, alloc: Global) -> Result<Option<Verdict>, AllocError>
        ensures cut { IfOk result (λ found. IfSome found (λ v. (before since : List Event) → HasTaken self.old before since → HasTaken self.new (before ++ since) [])) }
        ensures window { IfOk result (λ found. IfSome found (λ v. (before since : List Event) → HasTaken self.old before since → IsVerdict self.old.most.writers v before since)) }
        ensures open { IfOk result (λ found. IfNone found ((before since : List Event) → HasTaken self.old before since → ¬ IsQuiet (before ++ since))) }
        ensures kept { IfOk result (λ found. IfNone found (self.new ≡ self.old)) }
        ensures lacking { OnErr result (self.new ≡ self.old) }
        ensures limit { self.new.most ≡ self.old.most }
    {
        let (verdict, quiet) = self.judge(alloc)?;
        if !quiet {
            return Ok(None);
        }
        self.left = self.last;
        self.window = History::of_any(alloc, self.most);
        self.shows = true;
        self.regular &= verdict.regular;
        self.atomic &= verdict.atomic;
        Ok(Some(verdict))
    }

    /// Ends the recording, in which calls may be open: the verdict on its last window, and the verdict on the whole.
    pub fn finish(self, alloc: Global) -> Result<(Verdict, Verdict), AllocError>
        ensures window { IfOk result (λ x. (before since : List Event) → HasTaken self before since → IsVerdict self.most.writers x.0 before since) }
        ensures regular { IfOk result (λ x. (before since : List Event) → HasTaken self before since → IsTrue x.1.regular ↔ IsRegular (calls_of (before ++ since))) }
        ensures atomic { IfOk result (λ x. (before since : List Event) → HasTaken self before since → IsTrue x.1.atomic ↔ IsAtomicBy self.most.writers (calls_of (before ++ since))) }
    {
        let (verdict, _) = self.judge(alloc)?;
        let whole = Verdict {
            regular: self.regular & verdict.regular,
            atomic: self.atomic & verdict.atomic,
        };
        Ok((verdict, whole))
    }
}
