//! The course of a recording that is followed: its bytes are cut into lines, and its windows are answered.
ghost use Rattle.std.specs.Prelude.{◌≡◌, ◌≢◌, ◌↔◌, ◌⊎◌, ◌++◌, ◌∷◌, [], ℕ, List, drop, false, true, IfOk, IsTrue, OnOk};
ghost use Rattle.snap_core.specs.declared.limit.Limit.{Limit};
ghost use Rattle.snap_core.specs.declared.event.Event.{Event};
ghost use Rattle.snap_follow.specs.Followed.{HasRead, IsStatusOf, StopsAt};
ghost use Rattle.snap_follow.specs.inside.Courses.{EndsBytes, EndsWindow, HasFollowed, HasJudged, HasNoneSoFar, HasWaiting, IsBegun, IsTooLong, StopsIn, StopsLast, TakesBytes, TakesLast, TakesLine, TakesMore};
ghost use Rattle.snap_follow.specs.inside.Refusals.{IsRefusal};
ghost use Rattle.snap_follow.specs.inside.Sums.{HasToldAll};

use crate::answers::Answers;
use crate::follow::{Ended, Follow};
use crate::sums::status_of;
use memchr::memchr2;
use snap_core::Limit;
use snap_text::TextFault;
use std::alloc::{AllocError, Global};
use std::mem;

/// The most bytes that a record may have. A record of a history has far fewer.
pub const RECORD_LIMIT: usize = 1_048_576;

/// The course of a recording so far.
#[derive(Drop)]
pub(crate) struct Course {
    pub(crate) follow: Follow,
    pub(crate) answers: Answers,
    // the begin of a line whose end has not come
    pub(crate) rest: Vec<u8>,
}

impl Course {
    /// A recording of which nothing was read.
    pub(crate) fn new(alloc: Global, least: u32, most: Limit, late: u32) -> Course
        ensures { HasFollowed result [] least most [] [] [] }
    {
        Course {
            follow: Follow::new(alloc, least, most, late),
            answers: Answers::new(alloc),
            rest: Vec::new(alloc),
        }
    }

    /// Whether a line has begun whose end has not come.
    pub(crate) fn has_rest(&self) -> bool
        ensures { IsTrue result ↔ (self.now.rest.items ≢ []) }
    {
        !self.rest.is_empty()
    }

    // Answers why the recording is followed no further.
    fn refuse(&mut self, ended: Ended) -> Result<(), AllocError>
        ensures rest { self.new.rest ≡ self.old.rest }
        ensures refused { OnOk result (IsRefusal ended) }
    {
        match ended {
            Ended::Refused { place, fault } => self.answers.add_refusal(place, fault),
            Ended::Late { place } => self.answers.add_late(place),
            Ended::Memory => Err(AllocError),
        }
    }

    // Ends the window at hand and answers it, if one may end here.
    fn end_window(&mut self, alloc: Global) -> Result<(), AllocError>
        ensures rest { self.new.rest ≡ self.old.rest }
        ensures waits { self.new.follow.waiting ≡ self.old.follow.waiting }
        ensures ended { OnOk result (EndsWindow self.old self.new) }
    {
        if let Some(window) = self.follow.cut(alloc)? {
            self.answers.add_window(&window)?;
        }
        Ok(())
    }

    // Takes a line, and ends a window if one may end there. Answers whether the recording is followed further.
    fn take_line(&mut self, alloc: Global, line: &[u8]) -> Result<bool, AllocError>
        ensures rest { self.new.rest ≡ self.old.rest }
        ensures read { IfOk result (λ goes_on. goes_on ≡ true → TakesLine self.old self.new line.now) }
        ensures refused { IfOk result (λ goes_on. goes_on ≡ false → StopsAt self.old.follow line.now) }
    {
        if let Err(ended) = self.follow.take_line(alloc, line) {
            self.refuse(ended)?;
            return Ok(false);
        }
        self.end_window(alloc)?;
        Ok(true)
    }

    // Takes the first of the records that wait, if one waits, and ends a window if one may end there. Answers whether the recording is
    // followed further.
    fn take_first(&mut self, alloc: Global) -> Result<bool, AllocError>
        ensures rest { self.new.rest ≡ self.old.rest }
        ensures taken { IfOk result (λ goes_on. goes_on ≡ true → TakesMore self.old self.new) }
        ensures fewer { IfOk result (λ goes_on. goes_on ≡ true → self.new.follow.waiting.turns.items ≡ drop 1 self.old.follow.waiting.turns.items) }
        ensures refused { IfOk result (λ goes_on. goes_on ≡ false → HasWaiting self.old.follow) }
    {
        if let Err(ended) = self.follow.take_waiting(alloc) {
            self.refuse(ended)?;
            return Ok(false);
        }
        self.end_window(alloc)?;
        Ok(true)
    }

    /// Takes all records that wait, in the order of their stamps. Answers whether the recording is followed further.
    pub(crate) fn take_waiting(&mut self, alloc: Global) -> Result<bool, AllocError>
        ensures rest { self.new.rest ≡ self.old.rest }
        ensures taken { IfOk result (λ goes_on. goes_on ≡ true → TakesMore self.old self.new) }
        ensures all { IfOk result (λ goes_on. goes_on ≡ true → self.new.follow.waiting.turns.items ≡ []) }
        ensures refused { IfOk result (λ goes_on. goes_on ≡ false → HasWaiting self.old.follow) }
    {
        'turns: while self.follow.has_waiting() {
            if !self.take_first(alloc)? {
                return Ok(false);
            }
        }
        Ok(true)
    }

    // Takes the rest as a line. Answers whether the recording is followed further.
    fn take_rest(&mut self, alloc: Global) -> Result<bool, AllocError>
        ensures rest { self.new.rest.items ≡ [] }
        ensures read { IfOk result (λ goes_on. goes_on ≡ true → TakesLine self.old self.new self.old.rest.items) }
        ensures refused { IfOk result (λ goes_on. goes_on ≡ false → StopsAt self.old.follow self.old.rest.items) }
    {
        let line = mem::replace(&mut self.rest, Vec::new(alloc));
        self.take_line(alloc, &line)
    }

    /// Takes the rest as a line, if there is any, since nothing comes after it. Answers whether the recording is followed further.
    pub(crate) fn take_last(&mut self, alloc: Global) -> Result<bool, AllocError>
        ensures rest { self.new.rest.items ≡ [] }
        ensures read { IfOk result (λ goes_on. goes_on ≡ true → TakesLast self.old self.new) }
        ensures refused { IfOk result (λ goes_on. goes_on ≡ false → StopsAt self.old.follow self.old.rest.items) }
    {
        if self.rest.is_empty() {
            return Ok(true);
        }
        self.take_rest(alloc)
    }

    // Refuses the next record if it has begun with more bytes than a record may have. Answers whether the recording is followed further.
    fn check_length(&mut self) -> Result<bool, AllocError>
        ensures same { (self.new.rest ≡ self.old.rest) × (self.new.follow ≡ self.old.follow) }
        ensures kept { IfOk result (λ goes_on. goes_on ≡ true → self.new.answers ≡ self.old.answers) }
        ensures refused { IfOk result (λ goes_on. goes_on ≡ false → IsTooLong self.old.rest.items) }
    {
        if self.rest.len() <= RECORD_LIMIT {
            return Ok(true);
        }
        let place = self.follow.next_place();
        self.answers.add_refusal(place, TextFault::TooLong)?;
        Ok(false)
    }

    // Takes the line that begins with the rest and ends with these bytes. Answers whether the recording is followed further.
    fn take_joined(&mut self, alloc: Global, bytes: &[u8]) -> Result<bool, AllocError>
        ensures rest { IfOk result (λ goes_on. goes_on ≡ true → self.new.rest.items ≡ []) }
        ensures read { IfOk result (λ goes_on. goes_on ≡ true → TakesLine self.old self.new (self.old.rest.items ++ bytes.now)) }
        ensures refused { IfOk result (λ goes_on. goes_on ≡ false → IsTooLong (self.old.rest.items ++ bytes.now) ⊎ StopsAt self.old.follow (self.old.rest.items ++ bytes.now)) }
    {
        if self.rest.is_empty() {
            return self.take_line(alloc, bytes);
        }
        self.rest.extend_from_slice(bytes)?;
        Ok(self.check_length()? && self.take_rest(alloc)?)
    }

    /// Takes the lines of a piece. It keeps the begin of a line without an end. Answers whether the recording is followed further.
    pub(crate) fn take_piece(&mut self, alloc: Global, piece: &[u8]) -> Result<bool, AllocError>
        ensures taken { IfOk result (λ goes_on. goes_on ≡ true → TakesBytes self.old self.new piece.now) }
        ensures refused { IfOk result (λ goes_on. goes_on ≡ false → StopsIn self.old piece.now) }
    {
        let mut left = piece;
        while let Some(at) = memchr2(b'\n', b'\r', left) {
            if !self.take_joined(alloc, &left[..at])? {
                return Ok(false);
            }
            left = &left[at + 1..];
        }
        self.rest.extend_from_slice(left)?;
        self.check_length()
    }

    /// Goes on to the next text, since this one is whole. Answers whether the recording is followed further.
    pub(crate) fn end_text(&mut self, alloc: Global) -> Result<bool, AllocError>
        ensures ended { IfOk result (λ goes_on. goes_on ≡ true → EndsBytes self.old self.new) }
        ensures refused { IfOk result (λ goes_on. goes_on ≡ false → StopsLast self.old) }
    {
        if !self.take_last(alloc)? {
            return Ok(false);
        }
        if !self.take_waiting(alloc)? {
            return Ok(false);
        }
        if let Err(ended) = self.follow.end_text() {
            self.refuse(ended)?;
            return Ok(false);
        }
        Ok(true)
    }

    /// Refuses a recording without any record. Answers whether it has one.
    pub(crate) fn check_begun(&mut self) -> Result<bool, AllocError>
        ensures same { (self.new.rest ≡ self.old.rest) × (self.new.follow ≡ self.old.follow) }
        ensures kept { IfOk result (λ goes_on. goes_on ≡ true → self.new.answers ≡ self.old.answers) }
        ensures begun { IfOk result (λ goes_on. goes_on ≡ true → IsBegun self.old.follow) }
        ensures refused { IfOk result (λ goes_on. goes_on ≡ false → HasNoneSoFar self.old.follow) }
    {
        let last = self.follow.place();
        if last.text > 0 || last.number > 0 {
            return Ok(true);
        }
        let place = self.follow.next_place();
        self.answers.add_refusal(place, TextFault::Header)?;
        Ok(false)
    }

    /// Ends the recording, in which calls may be open. It answers the exit status of the whole.
    pub(crate) fn finish(self, alloc: Global) -> Result<(u8, Answers), AllocError>
        ensures status { IfOk result (λ x. (least : ℕ) (most : Limit) (texts : List (List (List ℕ))) (lines : List (List ℕ)) (events : List Event) → HasRead self.follow least most texts lines events → IsStatusOf most.writers events x.0) }
        ensures told { IfOk result (λ x. (gone : List ℕ) (least : ℕ) (most : Limit) (texts : List (List (List ℕ))) (lines : List (List ℕ)) (events : List Event) (h : HasJudged self.follow self.answers gone least most texts lines events) → HasToldAll x.1 gone least most h.read.places events) }
    {
        let Course {
            follow,
            mut answers,
            rest: _,
        } = self;
        let (window, whole) = follow.finish(alloc)?;
        answers.add_last(&window)?;
        Ok((status_of(whole), answers))
    }
}
