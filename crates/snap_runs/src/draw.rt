//! The picture of a history.
ghost use Rattle.std.specs.Prelude.{◌≡◌, [], IfOk, IsSome, is_some, length, map};
ghost use Rattle.std.specs.Option.{ForSome, option_map_or};
ghost use Rattle.snap_core.specs.declared.writers.Writers.{Writers};
ghost use Rattle.snap_core.specs.Bounded.{IsHistoryBy};
ghost use Rattle.snap_core.specs.Calls.{calls_of, views_of};
ghost use Rattle.snap_conditions.specs.Tally.{tally_of};
ghost use Rattle.snap_theory.specs.Levels.{printed_order};
ghost use Rattle.snap_report.specs.Reports.{has_no_fault};
ghost use Rattle.snap_runs.specs.Drawing.{AnswersHistory, DrawsHistory, IsDrawing, IsSaid};
ghost use Rattle.snap_draw.specs.declared.window.Place.TheVariants.{Faults};

use crate::markup::{Markup, Said};
use snap_check::{Judging, Status, status_of};
use snap_conditions::Tally;
use snap_core::{AnyWriters, History};
use snap_draw::{Numbering, Picture, has_call, parts_of, shapes_of};
use snap_explain::{explain, sentences};
use snap_index::Index;
use std::alloc::{AllocError, Global};

// The numbers of an order, none if there is no order.
fn numbers_of<'x>(order: Option<&'x [u32]>) -> &'x [u32]
    ensures { result.now ≡ option_map_or (λ numbers. numbers.now) order.entry [] }
{
    match order {
        Some(numbers) => numbers,
        None => &[],
    }
}

// What a picture has of the explanation of a history. The numbers of the printed order are given exactly if the tally has no fault.
fn said_of(
    alloc: Global,
    index: &Index<'_, AnyWriters>,
    tally: &Tally,
    records: &[u32],
    order: Option<&[u32]>,
    said: Said,
) -> Result<Vec<u8>, AllocError>
    requires tally { tally.now ≡ tally_of (calls_of index.now) (views_of (calls_of index.now)) }
    requires each { length records.now ≡ length index.now }
    requires given { is_some order ≡ has_no_fault tally.now }
    requires order { ForSome order (λ numbers. numbers.now ≡ map (λ c. c.number) (printed_order (calls_of index.now))) }
    ensures { IfOk result (λ text. IsSaid said records.now (calls_of index.now) text.items) }
{
    match said {
        Said::Whole(listed) => explain(alloc, index, tally, records, order, listed),
        Said::Sentences => sentences(alloc, index, tally, records),
    }
}

// The picture of a history by its index, the tally of all its completed views, its numbering, and its printed order. The numbers of that
// order are given exactly if the tally has no fault.
fn picture_of<'x, M: Markup>(
    alloc: Global,
    markup: &M,
    index: &'x Index<'_, AnyWriters>,
    tally: &Tally,
    numbering: Numbering<'x>,
    order: Option<&'x [u32]>,
) -> Result<Vec<u8>, AllocError>
    requires tally { tally.now ≡ tally_of (calls_of index.now) (views_of (calls_of index.now)) }
    requires each { length numbering.records.now ≡ length index.now }
    requires given { is_some order ≡ has_no_fault tally.now }
    requires order { ForSome order (λ numbers. numbers.now ≡ map (λ c. c.number) (printed_order (calls_of index.now))) }
    ensures { IfOk result (λ text. IsDrawing (M.draws markup.now) M.holds (M.says markup.now) M.writes index.now numbering.entry.records.now numbering.entry.sources.now text.items) }
{
    let records = numbering.records;
    let said = said_of(alloc, index, tally, records, order, markup.said())?;
    let order = numbers_of(order);
    let window = markup.part();
    let shapes = shapes_of(alloc, index, tally, order, window)?;
    let parts = parts_of(alloc, index, tally, order, window, markup.held())?;
    markup.text(
        alloc,
        &Picture {
            shapes: &shapes,
            parts: &parts,
            index,
            numbering,
            order,
            said: &said,
        },
    )
}

// The status of a history, and its picture by its index and its numbering.
fn drawn_by<J: Judging, M: Markup>(
    judging: &J,
    alloc: Global,
    markup: &M,
    index: &Index<'_, AnyWriters>,
    numbering: Numbering<'_>,
    bytes: usize,
) -> Result<(Status, Vec<u8>), AllocError>
    requires ready { J.ready }
    requires each { length numbering.records.now ≡ length index.now }
    ensures { IfOk result (λ answer. (writers : Writers) → IsHistoryBy writers index.now → DrawsHistory (M.draws markup.now) M.holds (M.says markup.now) M.writes writers index.now numbering.entry.records.now numbering.entry.sources.now answer.0 answer.1.items) }
{
    let (tally, chain) = judging.tally_and_chain(alloc, index, bytes)?;
    let order = judging.order(alloc, index, &tally, chain, bytes)?;
    let text = picture_of(alloc, markup, &*index, &tally, numbering, order.as_deref())?;
    Ok((status_of(index, &tally), text))
}

/// The status of the history of a text with this number of bytes, and its picture by its numbering.
pub(crate) fn drawn<J: Judging, M: Markup>(
    judging: &J,
    alloc: Global,
    markup: &M,
    history: &History<AnyWriters>,
    numbering: Numbering<'_>,
    bytes: usize,
) -> Result<(Status, Vec<u8>), AllocError>
    requires ready { J.ready }
    requires each { length numbering.records.now ≡ length history.now.events }
    ensures { IfOk result (λ answer. (writers : Writers) → IsHistoryBy writers history.now.events → DrawsHistory (M.draws markup.now) M.holds (M.says markup.now) M.writes writers history.now.events numbering.entry.records.now numbering.entry.sources.now answer.0 answer.1.items) }
{
    let index = Index::build(alloc, history)?;
    drawn_by(judging, alloc, markup, &index, numbering, bytes)
}

/// The answer to the history of a text with this number of bytes, and its picture by the records of its events; or nothing if it lacks the
/// call that the window names.
pub(crate) fn answered<J: Judging, M: Markup>(
    judging: &J,
    alloc: Global,
    markup: &M,
    history: &History<AnyWriters>,
    records: &[u32],
    bytes: usize,
) -> Result<(Option<Status>, Vec<u8>), AllocError>
    requires ready { J.ready }
    requires each { length records.now ≡ length history.now.events }
    ensures answer { IfOk result (λ answer. (writers : Writers) → IsHistoryBy writers history.now.events → AnswersHistory (M.draws markup.now) M.holds (M.says markup.now) M.writes writers history.now.events records.now answer.0 answer.1.items) }
    ensures given { (M.draws markup.now).place ≡ Faults → IfOk result (λ answer. IsSome answer.0) }
{
    let index = Index::build(alloc, history)?;
    if !has_call(markup.part().place, index.call_count()) {
        return Ok((None, Vec::new(alloc)));
    }
    let numbering = Numbering {
        records,
        sources: &[],
    };
    let (status, text) = drawn_by(judging, alloc, markup, &index, numbering, bytes)?;
    Ok((Some(status), text))
}
