//! The texts of a recording, piece by piece.
ghost use Rattle.std.specs.Prelude.{◌≡◌, ◌≢◌, ◌≤◌, ◌<◌, ℕ, List, [], true, false, length, IsSome, None, Some, IfOk, IfErr, IfSome, OnOk};
ghost use Rattle.snap_core.specs.declared.limit.Limit.{Limit};
ghost use Rattle.snap_follow.specs.Recordings.{CanBeFollowed};
ghost use Rattle.snap_follow.specs.inside.Courses.{HasFollowed, StopsIn, StopsLast, TakesBytesFor};
ghost use Rattle.snap_follow.specs.Texts.{AreNone};
ghost use Rattle.snap_follow.specs.inside.Runs.{EndsAll, EndsAtHand, EndsLast, GoesOnFrom, IsDone, IsReadOut, IsUnderWay, OnRefusal, ReadsText, SeesNone, StopsEnd, StopsInRest};
ghost use Rattle.snap_follow.specs.inside.Stops.{IsNoWrite, StopLeaves, StopTells, StopsBy, TellsNothing};
ghost use Rattle.snap_follow.specs.inside.Sums.{WritesLines};
ghost use Rattle.snap_follow.specs.Written.{HasSent, Leaves};
ghost use Rattle.snap_follow.specs.declared.run.FollowFault.TheVariants as faults;
ghost use Rattle.snap_follow.specs.declared.pieces.Stop.TheVariants as stops;

use crate::answers::Answers;
use crate::course::Course;
use crate::run::{FollowFault, Until};
use crate::texts::{Lost, Opened, Texts, TextsFault};
use snap_core::Counted;
use std::alloc::{AllocError, Global};
use std::io::{Read, Write};
use std::sync::Wait;
use std::thread;
use std::time::{Clock, Duration};

// The most bytes that are read at once.
const PIECE: usize = 65_536;

// The length of a pause in milliseconds, and the number of pauses in a second.
const PAUSE: u64 = 100;

const PAUSES_A_SECOND: u64 = 10;

/// Why a recording is read no further, though it has not ended.
#[derive(Drop)]
pub(crate) enum Stop {
    /// A line says which record is refused.
    Refused,
    Lost(Lost),
    Fault(FollowFault),
}

impl From<AllocError> for Stop {
    ghost from_gives = { λ _ stop. stop ≡ stops.Fault faults.Memory };

    fn from(_error: AllocError) -> Stop {
        Stop::Fault(FollowFault::Memory)
    }
}

impl From<TextsFault> for Stop {
    ghost from_gives = { λ fault stop. (stop ≢ stops.Refused) × IsNoWrite stop × StopsBy fault stop };

    fn from(fault: TextsFault) -> Stop {
        match fault {
            TextsFault::Lost(lost) => Stop::Lost(lost),
            TextsFault::Memory => Stop::Fault(FollowFault::Memory),
        }
    }
}

// The text at hand, how many of its bytes were read, and whether another one was found after it.
#[derive(Drop)]
struct AtHand<R> {
    text: Option<R>,
    read: u64,
    has_next: bool,
}

impl<R: Read> AtHand<R> {
    // Reads what is there now: no bytes if there is no text.
    fn read(&mut self, piece: &mut [u8]) -> Result<usize, Stop>
        ensures bound { IfOk result (λ n. n ≤ length piece.new) }
        ensures bytes { IfOk result (λ n. ReadsText R.remaining self.old.text self.new.text n piece.new) }
        ensures next { self.new.has_next ≡ self.old.has_next }
        ensures failed { IfErr result (λ stop. stop ≡ stops.Fault faults.Read) }
    {
        let Some(text) = &mut self.text else {
            return Ok(0);
        };
        let Ok(length) = text.read(piece) else {
            return Err(Stop::Fault(FollowFault::Read));
        };
        self.read = self.read.saturating_add(length as u64);
        Ok(length)
    }
}

/// Writes the lines that are still to be written.
pub(crate) fn write_lines<W: Write>(
    writer: &mut Counted<W>,
    answers: &mut Answers,
) -> Result<(), FollowFault>
    ensures wrote { Leaves W.contents writer.old writer.new result }
    ensures all { OnOk result ((sent : HasSent W.contents writer.old writer.new) × WritesLines answers.old answers.new sent.out) }
    ensures failed { IfErr result (λ fault. fault ≡ faults.Write) }
{
    if answers.lines().is_empty() {
        return Ok(());
    }
    match writer.send(answers.lines()) {
        Ok(()) => {
            answers.clear_lines();
            Ok(())
        }
        Err(_) => Err(FollowFault::Write),
    }
}

// Whether it is over after this many pauses without anything new.
fn is_over(until: Until, pauses: u64) -> bool {
    match until {
        Until::Ever => false,
        Until::Idle(seconds) => pauses >= u64::from(seconds) * PAUSES_A_SECOND,
        Until::End => true,
    }
}

// Takes the lines of a piece, and writes those of the windows that end in it.
fn take_piece<W: Write>(
    alloc: Global,
    course: &mut Course,
    writer: &mut Counted<W>,
    piece: &[u8],
) -> Result<(), Stop>
    ensures taken { OnOk result ((sent : HasSent W.contents writer.old writer.new) × TakesBytesFor sent.out course.old course.new piece.now) }
    ensures refused { IfErr result (λ stop. OnRefusal stop (StopsIn course.old piece.now)) }
    ensures stopped { IfErr result (λ stop. StopLeaves W.contents writer.old writer.new stop) }
    ensures tells { IfErr result TellsNothing }
{
    let goes_on = course.take_piece(alloc, piece)?;
    if let Err(fault) = write_lines(writer, &mut course.answers) {
        return Err(Stop::Fault(fault));
    }
    if goes_on { Ok(()) } else { Err(Stop::Refused) }
}

// Ends the text at hand, if there is one. Answers whether the recording is followed further.
fn end_text<R>(alloc: Global, at_hand: &AtHand<R>, course: &mut Course) -> Result<bool, AllocError>
    ensures ended { IfOk result (λ goes_on. goes_on ≡ true → EndsAtHand at_hand.now.text course.old course.new) }
    ensures refused { IfOk result (λ goes_on. goes_on ≡ false → IsSome at_hand.now.text × StopsLast course.old) }
{
    match &at_hand.text {
        Some(_) => course.end_text(alloc),
        None => Ok(true),
    }
}

// Takes a text that was opened for the one at hand.
fn take_opened<R: Drop>(
    at_hand: &mut AtHand<R>,
    course: &mut Course,
    opened: Opened<R>,
) -> Result<(), AllocError>
    ensures text { at_hand.new.text ≡ Some opened.text }
    ensures next { at_hand.new.has_next ≡ false }
    ensures same { (course.new.rest ≡ course.old.rest) × (course.new.follow ≡ course.old.follow) }
    ensures kept { (course.new.answers.lines ≡ course.old.answers.lines) × (course.new.answers.sums ≡ course.old.answers.sums) }
{
    let Opened { text, name } = opened;
    *at_hand = AtHand {
        text: Some(text),
        read: 0,
        has_next: false,
    };
    match name {
        Some(name) => course.answers.add_name(name),
        None => Ok(()),
    }
}

// Leaves the text at hand, which is whole, and opens the next.
fn open_next<T: Texts>(
    alloc: Global,
    texts: &mut T,
    at_hand: &mut AtHand<T::Text>,
    course: &mut Course,
) -> Result<(), Stop>
    ensures opened { OnOk result (at_hand.old.has_next ≡ true → IsReadOut T.Text.remaining at_hand.old.text → GoesOnFrom T.Text.remaining course.old at_hand.old (T.left texts.old) course.new at_hand.new (T.left texts.new)) }
    ensures none { OnOk result (at_hand.new.text ≡ None → (texts.new ≡ texts.old) × (at_hand.old.text ≡ None)) }
    ensures refused { IfErr result (λ stop. OnRefusal stop (IsSome at_hand.old.text × StopsLast course.old)) }
    ensures no_write { IfErr result IsNoWrite }
    ensures tells { IfErr result (StopTells (T.loses texts.new) ⊥) }
{
    if !end_text(alloc, at_hand, course)? {
        return Err(Stop::Refused);
    }
    match texts.open_next(alloc, at_hand.read)? {
        Some(opened) => Ok(take_opened(at_hand, course, opened)?),
        None => {
            at_hand.has_next = false;
            Ok(())
        }
    }
}

// Takes the rest of the last text as a line, if what has ended is whole. Answers whether the recording is followed further.
fn end_last(alloc: Global, course: &mut Course, until: Until) -> Result<bool, AllocError>
    ensures ended { IfOk result (λ goes_on. goes_on ≡ true → EndsLast until course.old course.new) }
    ensures refused { IfOk result (λ goes_on. goes_on ≡ false → StopsInRest until course.old) }
{
    match until {
        Until::End => course.take_last(alloc),
        Until::Ever | Until::Idle(_) => Ok(true),
    }
}

// Ends the last text, and takes all records that wait. Answers whether the recording is followed further.
fn end_turns(alloc: Global, course: &mut Course, until: Until) -> Result<bool, AllocError>
    ensures ended { IfOk result (λ goes_on. goes_on ≡ true → EndsLast until course.old course.new) }
    ensures all { IfOk result (λ goes_on. goes_on ≡ true → course.new.follow.waiting.turns.items ≡ []) }
    ensures refused { IfOk result (λ goes_on. goes_on ≡ false → StopsEnd until course.old) }
{
    Ok(end_last(alloc, course, until)? && course.take_waiting(alloc)?)
}

// Ends the course. Answers whether the recording has a record and is not refused.
fn end_course(alloc: Global, course: &mut Course, until: Until) -> Result<bool, AllocError>
    ensures ended { IfOk result (λ goes_on. goes_on ≡ true → EndsAll until course.old course.new) }
    ensures refused { IfOk result (λ goes_on. goes_on ≡ false → StopsEnd until course.old) }
{
    Ok(end_turns(alloc, course, until)? && course.check_begun()?)
}

// Ends the reading. If what has ended is whole, its last line needs no end.
fn end_reading<R>(
    alloc: Global,
    at_hand: &AtHand<R>,
    course: &mut Course,
    until: Until,
) -> Result<(), Stop>
    ensures ended { OnOk result ((IsSome at_hand.now.text) × EndsAll until course.old course.new) }
    ensures refused { IfErr result (λ stop. OnRefusal stop ((IsSome at_hand.now.text) × StopsEnd until course.old)) }
    ensures no_write { IfErr result IsNoWrite }
    ensures tells { IfErr result (StopTells (λ _. ⊥) (at_hand.now.text ≡ None)) }
{
    if at_hand.text.is_none() {
        return Err(Stop::Fault(FollowFault::NoText));
    }
    if !end_course(alloc, course, until)? {
        return Err(Stop::Refused);
    }
    Ok(())
}

// The number of pauses since something came, and in all, and whether to look for texts that have come.
#[derive(Drop)]
struct Pauses {
    idle: u64,
    all: u64,
    is_look_due: bool,
}

impl Pauses {
    // One pause more. Texts are looked for once a second, and before the end.
    fn rest<C: Clock>(&mut self, clock: &C, until: Until) {
        thread::sleep(clock, Duration::from_millis(PAUSE));
        self.idle = self.idle.saturating_add(1);
        self.all = self.all.saturating_add(1);
        self.is_look_due = self.all % PAUSES_A_SECOND == 0 || is_over(until, self.idle);
    }
}

// Goes on if nothing comes from the text at hand: to the next text, to a look for one, or to a pause. Answers whether reading goes on.
fn go_on<T: Texts, C: Clock>(
    alloc: Global,
    texts: &mut T,
    clock: &C,
    at_hand: &mut AtHand<T::Text>,
    pauses: &mut Pauses,
    course: &mut Course,
    until: Until,
) -> Result<bool, Stop>
    ensures on { IfOk result (λ goes_on. goes_on ≡ true → IsReadOut T.Text.remaining at_hand.old.text → GoesOnFrom T.Text.remaining course.old at_hand.old (T.left texts.old) course.new at_hand.new (T.left texts.new)) }
    ensures over { IfOk result (λ goes_on. goes_on ≡ false → IfSome (T.left texts.old) (λ later. later ≡ []) × (course.new ≡ course.old) × (at_hand.new ≡ at_hand.old)) }
    ensures sees { IfOk result (λ _. (first : T) → SeesNone T.count T.looked first texts.old at_hand.old.text pauses.old.is_look_due → SeesNone T.count T.looked first texts.new at_hand.new.text pauses.new.is_look_due) }
    ensures none { IfOk result (λ goes_on. goes_on ≡ false → (¬ T.waits texts.new) × (pauses.new.is_look_due ≡ false)) }
    ensures refused { IfErr result (λ stop. OnRefusal stop ((at_hand.old.has_next ≡ true) × IsSome at_hand.old.text × StopsLast course.old)) }
    ensures no_write { IfErr result IsNoWrite }
    ensures tells { IfErr result (StopTells (T.loses texts.new) ⊥) }
{
    if at_hand.has_next {
        // the next text was there before the last look at this one, so nothing more comes here
        open_next(alloc, texts, at_hand, course)?;
        pauses.idle = 0;
        return Ok(true);
    }
    if texts.has_next() {
        at_hand.has_next = true;
        return Ok(true);
    }
    if pauses.is_look_due {
        texts.look(alloc)?;
        pauses.is_look_due = false;
        return Ok(true);
    }
    if is_over(until, pauses.idle) {
        return Ok(false);
    }
    pauses.rest(clock, until);
    Ok(true)
}

// Reads what is there, and takes it, as long as that is asked for.
fn read_pieces<Rt: Wait, T: Texts, W: Write, C: Clock>(
    rt: &Rt,
    alloc: Global,
    texts: &mut T,
    writer: &mut Counted<W>,
    clock: &C,
    course: &mut Course,
    until: Until,
    at_hand: &mut AtHand<T::Text>,
    piece: &mut [u8],
) -> Result<(), Stop>
    requires { 0 < length piece.old }
    ensures done { OnOk result ((sent : HasSent W.contents writer.old writer.new) × ((least : ℕ) (most : Limit) (all : List (List ℕ)) → IsUnderWay T.Text.remaining course.old at_hand.old (T.left texts.old) [] least most all → IsDone course.new until sent.out least most all)) }
    ensures refused { IfErr result (λ stop. OnRefusal stop ((least : ℕ) (most : Limit) (all : List (List ℕ)) → IsUnderWay T.Text.remaining course.old at_hand.old (T.left texts.old) [] least most all → ¬ CanBeFollowed most until all)) }
    ensures stopped { IfErr result (λ stop. StopLeaves W.contents writer.old writer.new stop) }
    ensures tells { IfErr result (StopTells (T.loses texts.new) (((least : ℕ) (most : Limit) (all : List (List ℕ)) → IsUnderWay T.Text.remaining course.old at_hand.old (T.left texts.old) [] least most all → all ≡ []) × AreNone T.count T.waits T.looked texts.old texts.new)) }
{
    let mut pauses = Pauses {
        idle: 0,
        all: 0,
        is_look_due: true,
    };
    'pieces: for _ in rt.forever() {
        let length = at_hand.read(piece)?;
        if length > 0 {
            take_piece(alloc, course, writer, &piece[..length])?;
            pauses.idle = 0;
        } else if !go_on(alloc, texts, clock, at_hand, &mut pauses, course, until)? {
            return end_reading(alloc, at_hand, course, until);
        }
    }
    unreachable!()
}

/// Reads all texts, and takes what they have, as long as that is asked for.
pub(crate) fn read_all<Rt: Wait, T: Texts, W: Write, C: Clock>(
    rt: &Rt,
    alloc: Global,
    texts: &mut T,
    writer: &mut Counted<W>,
    clock: &C,
    course: &mut Course,
    until: Until,
) -> Result<(), Stop>
    ensures done { OnOk result ((sent : HasSent W.contents writer.old writer.new) × ((least : ℕ) (most : Limit) → HasFollowed course.old [] least most [] [] [] → IfSome (T.left texts.old) (IsDone course.new until sent.out least most))) }
    ensures refused { IfErr result (λ stop. OnRefusal stop ((least : ℕ) (most : Limit) → HasFollowed course.old [] least most [] [] [] → IfSome (T.left texts.old) (λ all. ¬ CanBeFollowed most until all))) }
    ensures stopped { IfErr result (λ stop. StopLeaves W.contents writer.old writer.new stop) }
    ensures tells { IfErr result (StopTells (T.loses texts.new) (((least : ℕ) (most : Limit) → HasFollowed course.old [] least most [] [] [] → IfSome (T.left texts.old) (λ all. all ≡ [])) × AreNone T.count T.waits T.looked texts.old texts.new)) }
{
    let mut piece = Vec::new(alloc);
    piece.resize(PIECE, 0)?;
    let mut at_hand = AtHand {
        text: None,
        read: 0,
        has_next: false,
    };
    read_pieces(
        rt,
        alloc,
        texts,
        writer,
        clock,
        course,
        until,
        &mut at_hand,
        &mut piece,
    )
}
