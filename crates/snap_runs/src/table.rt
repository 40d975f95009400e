//! The table of the calls of a history beside those that they are made from.
ghost use Rattle.std.specs.Prelude.{◌≡◌, ◌<◌, ◌++◌, All, IfOk, OnOk, length, map};
ghost use Rattle.std.specs.Option.{ForSome};
ghost use Rattle.snap_core.specs.Calls.{call_numbered, calls_of};
ghost use Rattle.snap_runs.specs.Mapping.{columns, end_word, map_line, map_text};

use snap_core::AnyWriters;
use snap_index::Index;
use snap_report::{put_call, put_number};
use std::alloc::{AllocError, Global};

// Adds the record of a call's end, if it has one.
fn put_end(out: &mut Vec<u8>, records: &[u32], ended: Option<u32>) -> Result<(), AllocError>
    requires { ForSome ended (λ place. place < length records.now) }
    ensures { OnOk result (out.new.items ≡ out.old.items ++ end_word records.now ended) }
{
    match ended {
        Some(ended) => put_number(out, b"", u64::from(records[ended as usize])),
        None => Ok(()),
    }
}

// Adds the number of a call, its process, and the records of its begin and its end, with a comma between two.
fn put_columns(
    out: &mut Vec<u8>,
    index: &Index<'_, AnyWriters>,
    records: &[u32],
    number: u32,
) -> Result<(), AllocError>
    requires each { length records.now ≡ length index.now }
    requires below { number < length (calls_of index.now) }
    ensures { OnOk result (out.new.items ≡ out.old.items ++ columns records.now (call_numbered (calls_of index.now) number)) }
{
    // what is known of the history that the index is of
    let _events = index.event_count();
    let Some(call) = index.call(number) else {
        unreachable!()
    };
    put_call(out, b"", number)?;
    put_number(out, b",", u64::from(call.process))?;
    put_number(out, b",", u64::from(records[call.begun as usize]))?;
    out.extend_from_slice(b",")?;
    put_end(out, records, call.ended)
}

// Adds the columns of a call, and those of the call that it is made from, by their two numbers.
fn put_line(
    out: &mut Vec<u8>,
    left: &Index<'_, AnyWriters>,
    mine: &[u32],
    index: &Index<'_, AnyWriters>,
    theirs: &[u32],
    pair: (u32, u32),
) -> Result<(), AllocError>
    requires mine { length mine.now ≡ length left.now }
    requires number { pair.0 < length (calls_of left.now) }
    requires theirs { length theirs.now ≡ length index.now }
    requires source { pair.1 < length (calls_of index.now) }
    ensures { OnOk result (out.new.items ≡ out.old.items
        ++ map_line mine.now theirs.now (call_numbered (calls_of left.now) pair.0, call_numbered (calls_of index.now) pair.1)) }
{
    put_columns(out, left, mine, pair.0)?;
    out.extend_from_slice(b",")?;
    put_columns(out, index, theirs, pair.1)?;
    out.extend_from_slice(b"\n")
}

/// The table of the calls of `left`, by the numbers of the calls of `index` that they are made from, in their order. The records of the
/// events of both are given.
pub(crate) fn table_of(
    alloc: Global,
    left: &Index<'_, AnyWriters>,
    mine: &[u32],
    index: &Index<'_, AnyWriters>,
    theirs: &[u32],
    sources: &[u32],
) -> Result<Vec<u8>, AllocError>
    requires mine { length mine.now ≡ length left.now }
    requires theirs { length theirs.now ≡ length index.now }
    requires each { length sources.now ≡ length (calls_of left.now) }
    requires within { All (λ n. n < length (calls_of index.now)) sources.now }
    ensures { IfOk result (λ out. out.items ≡ map_text mine.now theirs.now (calls_of left.now) (map (call_numbered (calls_of index.now)) sources.now)) }
{
    // there are no more numbers than calls
    let count = left.call_count();
    let mut out = Vec::new(alloc);
    out.extend_from_slice(b"call,process,begin,end,of call,of process,of begin,of end\n")?;
    for number in 0..count {
        let pair = (number, sources[number as usize]);
        put_line(&mut out, left, mine, index, theirs, pair)?;
    }
    Ok(out)
}
