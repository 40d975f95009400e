//! Why a text is not a history.
ghost use Rattle.std.specs.Prelude.{◌≡◌, ◌++◌, IfOk, OnOk, decimal, map, nat_lt, option_map};
ghost use Rattle.std.specs.List.{flat_map};
ghost use Rattle.snap_core.specs.Events.{event_cap};
ghost use Rattle.snap_explain.specs.Refusals.{IsRefusalExplanation, byte_words as spec_byte_words, converter_text, event_words as spec_event_words, is_log as spec_is_log, limit_of, mistake_text, quoted, record_text, fault_told, told_of, rule_of as spec_rule_of};

use crate::mistake::{Mistake, record_mistake};
use snap_core::{EVENT_CAP, Limit};
use snap_csv::{bytes_within, record_of};
use snap_names::put_shown;
use snap_report::{put_number, refusal_text};
use snap_text::TextFault;
use std::alloc::{AllocError, Global};

// The rule that a fault breaks, with a newline. If that is a limit, the words before its number.
fn rule_of(fault: TextFault) -> &'static str
    ensures { result.now ≡ spec_rule_of fault }
{
    match fault {
        TextFault::Header => {
            "the first record is event,process,op,data, or at,event,process,op,data where records have stamps\n"
        }
        TextFault::Fields => "a record has four fields, or five where records have stamps\n",
        TextFault::TooMany => "a history has at most ",
        TextFault::BadEvent => "the field event is begin or end\n",
        TextFault::BadProcess => {
            "the field process is a number from 0 to 65535, without a sign or leading zeros\n"
        }
        TextFault::BadOp => "the field op is update or view\n",
        TextFault::BadData => {
            "the begin of an update has one entry in the field data\n\
            the end of a view has entries with rising components and one space between two, or none\n\
            any other record has an empty field data\n\
            an entry is COMPONENT:NUMBER:VALUE, from 0:1:0 to 255:4294967295:4294967295, without signs or leading zeros\n"
        }
        TextFault::Busy => "a process begins a call only after its last one has ended\n",
        TextFault::Idle => "a process ends only a call that it has begun and not yet ended\n",
        TextFault::OtherOp => "the end of a call has the field op of its begin\n",
        TextFault::Writer =>
            "a component is written by one process only; --writers many takes others too\n",
        TextFault::Number => {
            "an update has the next number of its component, which is one more than the updates of it that began before\n"
        }
        TextFault::Order => {
            "an update ends after all updates of its component with lower numbers have ended\n"
        }
        TextFault::TooLong => "a text has at most ",
        TextFault::BadAt => {
            "the field at is a number from 0 to 18446744073709551615, without a sign or leading zeros\n"
        }
        TextFault::Repeated => "no two records have the same stamp\n",
    }
}

// Adds a number between the words before and after it.
fn put_count(
    out: &mut Vec<u8>,
    before: &[u8],
    number: usize,
    after: &[u8],
) -> Result<(), AllocError>
    ensures { OnOk result (out.new.items ≡ out.old.items ++ (before.now ++ decimal number ++ after.now)) }
{
    put_number(out, before, number as u64)?;
    out.extend_from_slice(after)
}

// Adds what is wrong with a field data.
fn put_mistake(out: &mut Vec<u8>, mistake: Mistake) -> Result<(), AllocError>
    ensures { OnOk result (out.new.items ≡ out.old.items ++ mistake_text mistake) }
{
    match mistake {
        Mistake::BeginOfView => out.extend_from_slice(
            b"the begin of a view has an empty field data, and this one is not empty\n",
        ),
        Mistake::EndOfUpdate => out.extend_from_slice(
            b"the end of an update has an empty field data, and this one is not empty\n",
        ),
        Mistake::NoEntry => out.extend_from_slice(
            b"the begin of an update has one entry in the field data, and this one has none\n",
        ),
        Mistake::Spaces { entry } => put_count(
            out,
            b"entry ",
            entry,
            b" is empty: one space stands between two entries, and none before the first or after the last\n",
        ),
        Mistake::Parts { entry, parts } => {
            put_number(out, b"entry ", entry as u64)?;
            put_count(
                out,
                b" has not the 3 parts of COMPONENT:NUMBER:VALUE, but ",
                parts,
                b"\n",
            )
        }
        Mistake::Component { entry } => put_count(
            out,
            b"the component of entry ",
            entry,
            b" is not a number from 0 to 255 without a sign or leading zeros\n",
        ),
        Mistake::Number { entry } => put_count(
            out,
            b"the number of entry ",
            entry,
            b" is not a number from 1 to 4294967295 without a sign or leading zeros\n",
        ),
        Mistake::Value { entry } => put_count(
            out,
            b"the value of entry ",
            entry,
            b" is not a number from 0 to 4294967295 without a sign or leading zeros\n",
        ),
        Mistake::Several { entries } => put_count(
            out,
            b"the begin of an update has one entry in the field data, and this one has ",
            entries,
            b"\n",
        ),
        Mistake::Fall { entry } => put_count(
            out,
            b"the component of entry ",
            entry,
            b" is not below that of the next entry\n",
        ),
    }
}

// Adds the first mistake in the field data of a record, if there is a record.
fn put_told(out: &mut Vec<u8>, found: Option<&[Vec<u8>]>) -> Result<(), AllocError>
    ensures { OnOk result (out.new.items ≡ out.old.items ++ told_of (option_map (λ fields. map (λ f. f.items) fields.now) found.entry)) }
{
    let Some(fields) = found else {
        return Ok(());
    };
    match record_mistake(fields) {
        Some(mistake) => put_mistake(out, mistake),
        None => Ok(()),
    }
}

// Whether the first field of a record begins with a brace or a bracket, as the logs of other tools do.
fn is_log(fields: &[Vec<u8>]) -> bool
    ensures { result ≡ spec_is_log (map (λ f. f.items) fields.now) }
{
    match fields.first() {
        Some(field) => matches!(field.first(), Some(b'{' | b'[')),
        None => false,
    }
}

// Adds what makes histories of the log that a record begins, if it begins one.
fn put_converter(out: &mut Vec<u8>, found: Option<&[Vec<u8>]>) -> Result<(), AllocError>
    ensures { OnOk result (out.new.items ≡ out.old.items ++ converter_text (option_map (λ fields. map (λ f. f.items) fields.now) found.entry)) }
{
    match found {
        Some(fields) if is_log(fields) => out.extend_from_slice(
            b"a text that begins with { or [ may be a log of Jepsen: snapjudge-from-jepsen makes histories of it (docs/JEPSEN.md)\n",
        ),
        _ => Ok(()),
    }
}

// Adds the first mistake in the field data of a record if that field is its fault, or what converts the text if its header is. Of any
// other fault it adds nothing.
fn put_fault(
    out: &mut Vec<u8>,
    fault: TextFault,
    found: Option<&[Vec<u8>]>,
) -> Result<(), AllocError>
    ensures { OnOk result (out.new.items ≡ out.old.items ++ fault_told fault (option_map (λ fields. map (λ f. f.items) fields.now) found.entry)) }
{
    match fault {
        TextFault::BadData => put_told(out, found),
        TextFault::Header => put_converter(out, found),
        _ => Ok(()),
    }
}

// Whether a greater limit may be chosen.
fn has_more(limit: Limit) -> bool
    ensures { result ≡ nat_lt limit.events event_cap }
{
    limit.events() < EVENT_CAP
}

// The words after the number of events that a history may have: if there may be more, also by which option.
fn event_words(limit: Limit) -> &'static str
    ensures { result.now ≡ spec_event_words limit }
{
    if has_more(limit) {
        " events; --events N allows up to 1048576\n"
    } else {
        " events\n"
    }
}

// The words after the number of bytes that a text may have: if there may be more, also by which option.
fn byte_words(limit: Limit) -> &'static str
    ensures { result.now ≡ spec_byte_words limit }
{
    if has_more(limit) {
        " bytes; --events N allows 1024 for each of up to 1048576 events\n"
    } else {
        " bytes\n"
    }
}

// Adds the number of the limit that a fault breaks, and the words after it. Adds nothing if the rule is not a limit.
fn put_limit(out: &mut Vec<u8>, fault: TextFault, limit: Limit) -> Result<(), AllocError>
    ensures { OnOk result (out.new.items ≡ out.old.items ++ limit_of limit fault) }
{
    match fault {
        TextFault::TooMany => put_count(out, b"", limit.events(), event_words(limit).as_bytes()),
        TextFault::TooLong => put_count(
            out,
            b"",
            bytes_within(limit),
            byte_words(limit).as_bytes(),
        ),
        _ => Ok(()),
    }
}

// Adds the fields of a record, each in quotes after a space, with the escapes of a name.
fn put_fields(out: &mut Vec<u8>, fields: &[Vec<u8>]) -> Result<(), AllocError>
    ensures { OnOk result (out.new.items ≡ out.old.items ++ flat_map quoted (map (λ f. f.items) fields.now)) }
{
    for field in fields {
        out.extend_from_slice(b" \"")?;
        put_shown(out, field)?;
        out.extend_from_slice(b"\"")?;
    }
    Ok(())
}

// Adds the fields of the record of a number, or that there is none.
fn put_record(out: &mut Vec<u8>, place: u32, found: Option<&[Vec<u8>]>) -> Result<(), AllocError>
    ensures { OnOk result (out.new.items ≡ out.old.items ++ record_text place (option_map (λ fields. map (λ f. f.items) fields.now) found.entry)) }
{
    let Some(fields) = found else {
        return out.extend_from_slice(b"  no record of the text has that number\n");
    };
    put_number(out, b"  record ", u64::from(place))?;
    out.extend_from_slice(b" has the fields")?;
    put_fields(out, fields)?;
    out.extend_from_slice(b"\n")
}

/// Why a text is not a history within a limit of events, by its first fault and the place of that. The explanation has the line of the
/// report, the rule that is broken, in sentences, and the fields of the record at that place. Each field is in quotes after a space,
/// and shown as a name is. Before the rule of a field data is the first mistake in that field. Before the rule of a header is what makes
/// histories of the text, if that begins as a log of Jepsen does. If no record has that number, a line says so in place of the fields. So
/// it is for the text as a whole, which is place 0. The error is want of memory.
pub fn explain_refusal(
    alloc: Global,
    text: &[u8],
    place: u32,
    fault: TextFault,
    limit: Limit,
) -> Result<Vec<u8>, AllocError>
    ensures { IfOk result (λ explained. IsRefusalExplanation limit text.now place fault explained.items) }
{
    let record = record_of(alloc, text, place)?;
    let mut out = refusal_text(alloc, place, fault)?;
    put_fault(&mut out, fault, record.as_deref())?;
    out.extend_from_slice(rule_of(fault).as_bytes())?;
    put_limit(&mut out, fault, limit)?;
    put_record(&mut out, place, record.as_deref())?;
    Ok(out)
}
