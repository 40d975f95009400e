//! Lines that are read before it is their turn.
ghost use Rattle.std.specs.Prelude.{◌≡◌, ◌≢◌, ◌<◌, ◌≤◌, ◌∷◌, [], ℕ, List, All, IfNone, IfOk, IfSome, drop, length};
ghost use Rattle.std.specs.List.Sorted.{IsPermutation};
ghost use Rattle.snap_plain.specs.Ahead.{IsAhead, IsPieceOf, SpellsNone, StopsFor};
ghost use Rattle.snap_plain.specs.Lines.{BeginsLine, BeginsLines, BeginsOtherwise, HasRows, SpellsAll, spells_event};
ghost use Rattle.snap_plain.specs.Turns.{TakesAhead, TakesOn};

use crate::fields::four_first;
use crate::front::behind_newlines;
use crate::pieces::Piece;
use snap_core::{AnyWriters, Event, History, Limit};
use snap_format::{ReadRefusal, row_limit, take_event};
use snap_text::Known;
use std::alloc::{AllocError, Global};

// The size in bytes of the shortest record: `end,0,view,` and the newline that ends its line.
const SHORTEST: usize = 12;

/// Why the reading of a piece stopped.
#[derive(Clone, Copy, PartialEq, Eq)]
pub(crate) enum Stop {
    /// All lines of the piece are read.
    End,
    /// More events are read than a history may have.
    Full,
    /// The next line spells no event.
    Fault,
    /// Memory ran out.
    Memory,
}

/// The events of the lines from one place to before another, and why no further line was read.
#[derive(Drop)]
pub(crate) struct Ahead {
    pub(crate) from: usize,
    pub(crate) to: usize,
    pub(crate) events: Vec<Event>,
    pub(crate) stop: Stop,
}

/// The event of the first line of a text, and the lines after it. None if that line has a fault by itself, or if there is no line.
/// The error is want of memory.
#[inline(always)]
pub(crate) fn event_first<'t>(
    alloc: Global,
    known: &mut Known,
    text: &'t [u8],
) -> Result<Option<(Event, &'t [u8])>, AllocError>
    ensures some { IfOk result (λ first. IfSome first (λ x. BeginsLine x.0 x.1.now text.now)) }
    ensures none { IfOk result (λ first. IfNone first (BeginsOtherwise spells_event text.now)) }
{
    let line = behind_newlines(text, 0);
    if line.is_empty() {
        return Ok(None);
    }
    let Some(((event, process, op, data), rest)) = four_first(line) else {
        return Ok(None);
    };
    match snap_text::event_of_fields(alloc, known, event, process, op, data)? {
        Ok(event) => Ok(Some((event, rest))),
        Err(_) => Ok(None),
    }
}

// Takes the events of lines in order, until at most `stop` bytes are left. It stops sooner at a line with a fault by itself, if memory
// runs out, or after one event more than a history may have. The answer is the lines after these, and why it stopped before them.
fn read_lines<'t>(
    alloc: Global,
    text: &'t [u8],
    stop: usize,
    limit: Limit,
    events: &mut Vec<Event>,
) -> (&'t [u8], Stop)
    requires { events.old.items ≡ [] }
    ensures lines { BeginsLines events.new.items result.0.now text.now }
    ensures stops { StopsFor (length result.0.now ≤ stop) (limit.events < length events.new.items) (BeginsOtherwise spells_event result.0.now) result.1 }
{
    let mut known = Known::new(alloc);
    let mut left = text;
    'each: while events.len() < row_limit(limit) as usize {
        // no further than the end of the piece, where another one goes on
        left = behind_newlines(left, stop);
        if left.len() <= stop {
            return (left, Stop::End);
        }
        let Ok(first) = event_first(alloc, &mut known, left) else {
            return (left, Stop::Memory);
        };
        let Some((event, rest)) = first else {
            return (left, Stop::Fault);
        };
        if events.push(event).is_err() {
            return (left, Stop::Memory);
        }
        left = rest;
    }
    (left, Stop::Full)
}

/// What is read of a piece, as far as its lines have no fault by themselves and memory suffices.
pub(crate) fn read_piece(alloc: Global, lines: &[u8], piece: Piece, limit: Limit) -> Ahead
    requires { IsPieceOf lines.now piece }
    ensures ahead { IsAhead lines.now result }
    ensures from { result.from ≡ piece.from }
    ensures stops { StopsFor (piece.to ≤ result.to) (limit.events < length result.events.items) (SpellsNone lines.now piece.from result.to) result.stop }
{
    let Piece { from, to } = piece;
    // a list that grows would be moved again and again
    let most = to.saturating_sub(from) / SHORTEST + 1;
    match Vec::with_capacity(alloc, most.min(row_limit(limit) as usize)) {
        Ok(mut events) => {
            let (left, stop) = read_lines(
                alloc,
                &lines[from..],
                lines.len() - to,
                limit,
                &mut events,
            );
            Ahead {
                from,
                to: lines.len().saturating_sub(left.len()),
                events,
                stop,
            }
        }
        Err(_) => Ahead {
            from,
            to: from,
            events: Vec::new(alloc),
            stop: Stop::Memory,
        },
    }
}

// Adds events that were read ahead to a history, in order, up to the first fault.
fn take_all(history: &mut History<AnyWriters>, events: Vec<Event>) -> Result<(), ReadRefusal>
    ensures takes { (rest : List ℕ) → TakesAhead history.old.limit (SpellsAll events.items (HasRows rest)) (HasRows rest) history.old.events history.new.events result }
    ensures limit { history.new.limit ≡ history.old.limit }
{
    'each: for event in events {
        let place = history.len() as u32 + 2;
        take_event(history, place, event)?;
    }
    Ok(())
}

// Takes out of the parts that were read ahead the one that begins at a place, if there is one.
fn take_from(ahead: &mut Vec<Ahead>, place: usize) -> Option<Ahead>
    ensures taken { IfSome result (λ one. IsPermutation ahead.old.items (one ∷ ahead.new.items)) }
    ensures from { IfSome result (λ one. one.from ≡ place) }
    ensures none { IfNone result ((ahead.new.items ≡ ahead.old.items) × All (λ one. one.from ≢ place) ahead.old.items) }
{
    for at in 0..ahead.len() {
        if ahead[at].from == place {
            return Some(ahead.swap_remove(at));
        }
    }
    None
}

/// Adds to a history what was read ahead of `behind`, the lines that it does not have yet. It goes on while one part begins where
/// the one before it ends. The answer is the lines after these, or the first fault.
pub(crate) fn take_ahead<'t>(
    lines: &'t [u8],
    behind: &'t [u8],
    ahead: &mut Vec<Ahead>,
    history: &mut History<AnyWriters>,
) -> Result<&'t [u8], ReadRefusal>
    requires { All (IsAhead lines.now) ahead.old.items }
    ensures takes { TakesOn history.old.limit lines.now behind.now history.old.events history.new.events result }
    ensures limit { history.new.limit ≡ history.old.limit }
    ensures ahead { All (IsAhead lines.now) ahead.new.items }
{
    let mut behind = behind;
    'each: while let Some(next) = take_from(ahead, lines.len().saturating_sub(behind.len())) {
        take_all(history, next.events)?;
        behind = &lines[next.to..];
    }
    Ok(behind)
}
