//! The lines of an order.
ghost use Rattle.std.specs.Prelude.{true, ◌≡◌, ◌<◌, ◌++◌, [], ◌∷◌, All, IfOk, OnOk, codes, decimal, length};
ghost use Rattle.std.specs.List.{AllZip};
ghost use Rattle.rayon.specs.Lists.{chunks_of};
ghost use Rattle.snap_core.specs.Calls.{call_numbered, calls_of, entries_of, is_view};
ghost use Rattle.snap_report.specs.Lines.{line_text, text_of};
ghost use Rattle.snap_report.specs.Orders.{HasLine, calls_numbered};
ghost use Rattle.snap_report.specs.Reports.{call_line, order_lines};
ghost use Rattle.snap_report.specs.inside.Parts.{IsTextOf, lines_text};

use crate::words::{Group, put_number, put_update_line, put_view_line};
use rayon::prelude::*;
use snap_core::{Entry, Ownership};
use snap_index::{CallOp, Index};
use std::alloc::{AllocError, Global};
use std::thread::Threads;

// This many lines are worth a thread of their own: fewer are written in less time than a thread takes to start.
const LINES_A_THREAD: usize = 16_384;

// What a completed view shows.
fn shown<'i, O: Ownership>(index: &'i Index<'_, O>, call: u32) -> &'i [Entry]
    requires below { call < length (calls_of index.now) }
    requires view { is_view (call_numbered (calls_of index.now) call) ≡ true }
    ensures { result.now ≡ entries_of (call_numbered (calls_of index.entry.now) call).operation }
{
    let Some(view) = index.answer(call) else {
        unreachable!()
    };
    view.entries()
}

fn put_call_line<O: Ownership>(
    out: &mut Vec<u8>,
    known: &mut Vec<Group>,
    index: &Index<'_, O>,
    number: u32,
) -> Result<(), AllocError>
    requires { HasLine (calls_of index.now) number }
    ensures { OnOk result (out.new.items ≡ out.old.items ++ line_text (call_line (call_numbered (calls_of index.now) number))) }
{
    let Some(call) = index.call(number) else {
        unreachable!()
    };
    match call.op {
        CallOp::Update(entry) => put_update_line(out, number, call.process, &entry),
        CallOp::View => put_view_line(out, known, number, call.process, shown(index, number)),
    }
}

// Adds the lines of the calls with these numbers.
fn put_lines<O: Ownership>(
    out: &mut Vec<u8>,
    index: &Index<'_, O>,
    numbers: &[u32],
) -> Result<(), AllocError>
    requires { All (HasLine (calls_of index.now)) numbers.now }
    ensures { OnOk result (out.new.items ≡ out.old.items ++ lines_text (calls_of index.now) numbers.now) }
{
    let mut known = Vec::new(*out.allocator());
    for number in numbers {
        put_call_line(out, &mut known, index, *number)?;
    }
    Ok(())
}

fn lines_of<O: Ownership>(
    alloc: Global,
    index: &Index<'_, O>,
    numbers: &[u32],
) -> Result<Vec<u8>, AllocError>
    requires { All (HasLine (calls_of index.now)) numbers.now }
    ensures { IsTextOf (calls_of index.now) numbers.now result }
{
    let mut lines = Vec::new(alloc);
    put_lines(&mut lines, index, numbers)?;
    Ok(lines)
}

// The lines of each block of `size` calls, each in a thread of its own. The last block may be shorter.
fn lines_of_blocks<R: Threads + Sync, O: Ownership + Sync>(
    rt: &R,
    alloc: Global,
    index: &Index<'_, O>,
    numbers: &[u32],
    size: usize,
) -> Result<Vec<Result<Vec<u8>, AllocError>>, AllocError>
    requires some { 0 < size }
    requires calls { All (HasLine (calls_of index.now)) numbers.now }
    ensures { IfOk result (λ texts. AllZip (IsTextOf (calls_of index.now)) (chunks_of size numbers.now) texts.items) }
{
    numbers
        .par_chunks(size)
        .map(
            |block: &[u32]| -> Result<Vec<u8>, AllocError>
                requires { All (HasLine (calls_of index.now)) block.now }
                ensures { IsTextOf (calls_of index.entry.now) block.now result }
            { lines_of(alloc, index, block) },
        )
        .with_min_len(1)
        .collect(rt, alloc)
}

// Adds the lines of blocks of `size` calls.
fn put_blocks<R: Threads + Sync, O: Ownership + Sync>(
    rt: &R,
    out: &mut Vec<u8>,
    index: &Index<'_, O>,
    numbers: &[u32],
    size: usize,
) -> Result<(), AllocError>
    requires some { 0 < size }
    requires calls { All (HasLine (calls_of index.now)) numbers.now }
    ensures { OnOk result (out.new.items ≡ out.old.items ++ lines_text (calls_of index.now) numbers.now) }
{
    let texts = lines_of_blocks(rt, *out.allocator(), index, numbers, size)?;
    for text in &texts {
        match text {
            Ok(lines) => out.extend_from_slice(lines)?,
            Err(_) => return Err(AllocError),
        }
    }
    Ok(())
}

fn put_head(out: &mut Vec<u8>, order: &[u32]) -> Result<(), AllocError>
    ensures { OnOk result (out.new.items ≡ out.old.items ++ line_text (codes "order" ∷ decimal (length order.now) ∷ [])) }
{
    put_number(out, b"order ", order.len() as u64)?;
    out.extend_from_slice(b"\n")
}

/// Adds the lines of an order, which is given by the numbers of its calls.
pub(crate) fn put_order<O: Ownership>(
    out: &mut Vec<u8>,
    index: &Index<'_, O>,
    order: &[u32],
) -> Result<(), AllocError>
    requires { All (HasLine (calls_of index.now)) order.now }
    ensures { OnOk result (out.new.items ≡ out.old.items ++ text_of (order_lines (calls_numbered (calls_of index.now) order.now))) }
{
    put_head(out, order)?;
    put_lines(out, index, order)
}

/// Adds the lines of an order, which at most `workers` threads share. Each has 16,384 lines or more.
pub(crate) fn put_order_shared<R: Threads + Sync, O: Ownership + Sync>(
    rt: &R,
    out: &mut Vec<u8>,
    index: &Index<'_, O>,
    order: &[u32],
    workers: u32,
) -> Result<(), AllocError>
    requires { All (HasLine (calls_of index.now)) order.now }
    ensures { OnOk result (out.new.items ≡ out.old.items ++ text_of (order_lines (calls_numbered (calls_of index.now) order.now))) }
{
    let blocks = (workers as usize).min(order.len() / LINES_A_THREAD);
    if blocks < 2 {
        return put_order(out, index, order);
    }
    put_head(out, order)?;
    put_blocks(rt, out, index, order, order.len() / blocks)
}
