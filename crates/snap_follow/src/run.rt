//! The run that follows a recording, from its texts to a writer.
ghost use Rattle.std.specs.Prelude.{◌≡◌, ◌≢◌, ◌<◌, ◌↔◌, ◌++◌, ◌∷◌, ℕ, List, [], IsTrue, IsSome, Some, None, IfErr, IfOk, IfSome, OnOk};
ghost use Rattle.std.specs.Io.KnownBytes.{Appends};
ghost use Rattle.snap_core.specs.declared.limit.Limit.{Limit};
ghost use Rattle.snap_core.specs.Counting.{inner_of};
ghost use Rattle.snap_core.specs.declared.counted.Counted.{Counted};
ghost use Rattle.snap_core.specs.declared.event.Event.{Event};
ghost use Rattle.snap_follow.specs.Followed.{HasRead, IsStatusOf};
ghost use Rattle.snap_follow.specs.Recordings.{AreFollowed, AreWritten};
ghost use Rattle.snap_follow.specs.Texts.{AreNone};
ghost use Rattle.snap_follow.specs.Windows.{Told, sums_text};
ghost use Rattle.snap_follow.specs.Written.{Leaves};
ghost use Rattle.snap_follow.specs.inside.Courses.{HasJudged};
ghost use Rattle.snap_follow.specs.inside.Stops.{StopLeaves, TellsRest};
ghost use Rattle.snap_follow.specs.inside.Sums.{AreSums};
ghost use Rattle.snap_follow.specs.declared.pieces.Stop.TheVariants as stops;
ghost use Rattle.snap_follow.specs.declared.run.FollowFault.TheVariants as faults;

use crate::answers::Answers;
use crate::course::Course;
use crate::pieces::{Stop, read_all, write_lines};
use crate::texts::{Lost, Texts};
use snap_core::{Counted, Limit};
use std::alloc::{AllocError, Global};
use std::io::Write;
use std::sync::Wait;
use std::time::Clock;
use thiserror::Error;

// The exit statuses of a recording that is refused, and of one that can't be judged.
const REFUSED: u8 = 3;

const FAILED: u8 = 4;

/// How long a recording is followed.
#[derive(Clone, Copy)]
pub enum Until {
    /// For ever.
    Ever,
    /// Until nothing has come for this many seconds.
    Idle(u32),
    /// To its end. What ends there is whole, so its last line needs no end.
    End,
}

/// How a recording is followed.
#[derive(Clone, Copy)]
pub struct FollowOptions {
    /// A window ends at the first moment without an open call from this many events on. If that is more than it may have, none ends
    /// before the recording does.
    pub least: u32,
    /// The limit of a window: the most events that it may have, and whether a component may have many writers.
    pub most: Limit,
    /// The most records with stamps that wait for others. A record may come up to this many records late.
    pub late: u32,
    /// How long it is followed.
    pub until: Until,
    /// The number of completed views that all windows together must have.
    pub views: u32,
}

/// How a recording ended.
#[derive(Drop)]
pub struct Followed {
    /// The exit status. It is 0 if the whole is atomic, 1 if it is only regular, and 2 if it is neither. It is 3 if a window was
    /// refused, and 4 if the recording could not be followed further. None if it has fewer completed views than were asked for.
    pub code: Option<u8>,
    /// Whether the last line has no end. It is left out, since its writer may not have finished it.
    pub has_rest: bool,
    /// The name at which the recording could not be followed further.
    pub lost: Option<Lost>,
}

/// Why a recording was not followed to its end.
#[derive(Debug, Drop, Error)]
pub enum FollowFault {
    #[error("there are no recordings")]
    NoText,
    #[error("read failed")]
    Read,
    #[error("write failed")]
    Write,
    #[error("out of memory")]
    Memory,
}

impl From<AllocError> for FollowFault {
    ghost from_gives = { λ _ fault. fault ≡ faults.Memory };

    fn from(_error: AllocError) -> FollowFault {
        FollowFault::Memory
    }
}

// Writes the last lines, and the sums.
fn write_end<W: Write>(writer: &mut Counted<W>, answers: &mut Answers) -> Result<(), FollowFault>
    ensures wrote { Leaves W.contents writer.old writer.new result }
    ensures told { OnOk result ((told : List Told) → AreSums told answers.old.sums → Appends (W.contents (inner_of writer.old)) (W.contents (inner_of writer.new)) (answers.old.lines ++ sums_text told)) }
    ensures sums { OnOk result (answers.new.sums ≡ answers.old.sums) }
    ensures tells { IfErr result (λ fault. fault ≢ faults.NoText) }
{
    answers.add_sums()?;
    write_lines(writer, answers)
}

// The exit status, if the windows have as many completed views as were asked for.
fn code_of(answers: &Answers, code: u8, views: u32) -> Option<u8>
    ensures code { IfSome result (λ given. given ≡ code) }
    ensures few { result ≡ None ↔ answers.now.sums.views < views }
{
    if answers.views() < u64::from(views) {
        return None;
    }
    Some(code)
}

// The end of a recording that was followed to its end.
fn end_whole<W: Write>(
    alloc: Global,
    course: Course,
    writer: &mut Counted<W>,
    views: u32,
) -> Result<Followed, FollowFault>
    ensures lost { IfOk result (λ followed. followed.lost ≡ None) }
    ensures rest { IfOk result (λ followed. IsTrue followed.has_rest ↔ (course.rest.items ≢ [])) }
    ensures code { IfOk result (λ followed. IfSome followed.code (λ code. (least : ℕ) (most : Limit) (texts : List (List (List ℕ))) (lines : List (List ℕ)) (events : List Event) → HasRead course.follow least most texts lines events → IsStatusOf most.writers events code)) }
    ensures told { IfOk result (λ followed. (gone : List ℕ) (least : ℕ) (most : Limit) (texts : List (List (List ℕ))) (lines : List (List ℕ)) (events : List Event) (h : HasJudged course.follow course.answers gone least most texts lines events)
        → TellsRest (W.contents (inner_of writer.old)) (W.contents (inner_of writer.new)) gone least most h.read.places events views followed.code) }
    ensures wrote { Leaves W.contents writer.old writer.new result }
    ensures tells { IfErr result (λ fault. fault ≢ faults.NoText) }
{
    let has_rest = course.has_rest();
    let (code, mut answers) = course.finish(alloc)?;
    write_end(writer, &mut answers)?;
    Ok(Followed {
        code: code_of(&answers, code, views),
        has_rest,
        lost: None,
    })
}

// The end of a recording that was followed no further.
fn end_early<W: Write>(
    answers: &mut Answers,
    writer: &mut Counted<W>,
    stop: Stop,
) -> Result<Followed, FollowFault>
    ensures refused { IfOk result (λ followed. followed.lost ≡ None → (stop ≡ stops.Refused) × (followed.code ≡ Some 3)) }
    ensures lost { IfOk result (λ followed. IsSome followed.lost → followed.code ≡ Some 4) }
    ensures name { IfOk result (λ followed. IfSome followed.lost (λ lost. stop ≡ stops.Lost lost)) }
    ensures none { IfErr result (λ fault. fault ≡ faults.NoText → stop ≡ stops.Fault faults.NoText) }
    ensures wrote { (first : Counted W) → StopLeaves W.contents first writer.old stop → Leaves W.contents first writer.new result }
{
    let (code, lost) = match stop {
        Stop::Refused => (REFUSED, None),
        Stop::Lost(lost) => {
            answers.add_failure()?;
            (FAILED, Some(lost))
        }
        Stop::Fault(fault) => return Err(fault),
    };
    write_end(writer, answers)?;
    Ok(Followed {
        code: Some(code),
        has_rest: false,
        lost,
    })
}

/// Follows a recording: reads its texts line by line, judges it window by window, and writes a line for each window and then the
/// sums. A read that answers nothing is tried again after a pause, until another text is there. Each line goes out before more is
/// read. A fault of a reader, of the writer or of memory ends it without sums, and so does a recording without any text.
///
/// Only whole lines go out, however it ends. After `Write` a front of whole lines went out, perhaps all of them. `Write` comes only
/// if the writer's count of failures rose, or is at its last value. Otherwise that count is as it was.
///
/// `NoText` comes only if texts were looked for, and none was found or opened. A name is lost only where the texts lose it.
pub fn follow_run<Rt: Wait, T: Texts, W: Write, C: Clock>(
    rt: &Rt,
    alloc: Global,
    texts: &mut T,
    writer: &mut Counted<W>,
    clock: &C,
    asked: FollowOptions,
) -> Result<Followed, FollowFault>
    ensures whole { IfOk result (λ followed. IfSome (T.left texts.old) (λ all. AreFollowed asked all followed)) }
    ensures told { IfOk result (λ followed. IfSome (T.left texts.old) (λ all. AreWritten asked all followed (W.contents (inner_of writer.old)) (W.contents (inner_of writer.new)))) }
    ensures lost { IfOk result (λ followed. IsSome followed.lost → followed.code ≡ Some 4) }
    ensures name { IfOk result (λ followed. IfSome followed.lost (T.loses texts.new)) }
    ensures none { IfErr result (λ fault. fault ≡ faults.NoText → IfSome (T.left texts.old) (λ all. all ≡ [])) }
    ensures looked { IfErr result (λ fault. fault ≡ faults.NoText → AreNone T.count T.waits T.looked texts.old texts.new) }
    ensures wrote { Leaves W.contents writer.old writer.new result }
{
    let mut course = Course::new(alloc, asked.least, asked.most, asked.late);
    match read_all(rt, alloc, texts, writer, clock, &mut course, asked.until) {
        Ok(()) => end_whole(alloc, course, writer, asked.views),
        Err(stop) => end_early(&mut course.answers, writer, stop),
    }
}
