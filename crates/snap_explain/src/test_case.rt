//! The test case of a text in a document of JUnit.
ghost use Rattle.std.specs.Prelude.{◌≡◌, ◌++◌, IfOk, OnOk};
ghost use Rattle.snap_explain.specs.TestCases.{case_front, element_front, element_of, element_text, ended_case, first_line, passed_case};

use crate::mistake::first_part;
use crate::xml::put_xml;
use snap_names::put_shown;
use std::alloc::{AllocError, Global};

/// How the case of a text ends that does not pass.
#[derive(Clone, Copy)]
pub enum Ending {
    /// The text was judged, and did not pass.
    Failure,
    /// The text was not judged.
    Error,
}

// The name of the element of a case that does not pass.
fn element_of(ending: Ending) -> &'static [u8]
    ensures { result.now ≡ element_of ending }
{
    match ending {
        Ending::Failure => b"failure",
        Ending::Error => b"error",
    }
}

// A text up to its first line feed.
fn first_line(text: &[u8]) -> &[u8]
    ensures { result.now ≡ first_line text.now }
{
    let (line, _) = first_part(text, b'\n');
    line
}

// The tag of a case up to the end of its name.
fn case_front(alloc: Global, name: &[u8]) -> Result<Vec<u8>, AllocError>
    ensures { IfOk result (λ front. front.items ≡ case_front name.now) }
{
    let mut shown = Vec::new(alloc);
    put_shown(&mut shown, name)?;
    let mut front = Vec::new(alloc);
    front.extend_from_slice(b"<testcase classname=\"snapjudge\" time=\"0\" name=\"")?;
    put_xml(&mut front, &shown)?;
    Ok(front)
}

/// The case of a text that passes. Its name is shown as in a report.
pub fn passed_case(alloc: Global, name: &[u8]) -> Result<Vec<u8>, AllocError>
    ensures { IfOk result (λ text. text.items ≡ passed_case name.now) }
{
    let mut text = case_front(alloc, name)?;
    text.extend_from_slice(b"\"/>\n")?;
    Ok(text)
}

// Adds the begin of the element of a case that has these sentences.
fn put_element_front(out: &mut Vec<u8>, ending: Ending, said: &[u8]) -> Result<(), AllocError>
    ensures { OnOk result (out.new.items ≡ out.old.items ++ element_front ending said.now) }
{
    out.extend_from_slice(b"<")?;
    out.extend_from_slice(element_of(ending))?;
    out.extend_from_slice(b" message=\"")?;
    put_xml(out, first_line(said))?;
    out.extend_from_slice(b"\">")
}

// Adds the element of a case with its sentences.
fn put_element(out: &mut Vec<u8>, ending: Ending, said: &[u8]) -> Result<(), AllocError>
    ensures { OnOk result (out.new.items ≡ out.old.items ++ element_text ending said.now) }
{
    put_element_front(out, ending, said)?;
    put_xml(out, said)?;
    out.extend_from_slice(b"</")?;
    out.extend_from_slice(element_of(ending))?;
    out.extend_from_slice(b">\n")
}

/// The case of a text that does not pass, with the sentences that say why. Its name is shown as in a report.
pub fn ended_case(
    alloc: Global,
    ending: Ending,
    name: &[u8],
    said: &[u8],
) -> Result<Vec<u8>, AllocError>
    ensures { IfOk result (λ text. text.items ≡ ended_case ending name.now said.now) }
{
    let mut text = case_front(alloc, name)?;
    text.extend_from_slice(b"\">\n")?;
    put_element(&mut text, ending, said)?;
    text.extend_from_slice(b"</testcase>\n")?;
    Ok(text)
}
