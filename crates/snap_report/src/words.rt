//! Words of lines.
ghost use Rattle.std.specs.Prelude.{◌≡◌, ◌+◌, ◌*◌, ◌≤◌, ◌++◌, OnOk, codes, decimal, drop, length};
ghost use Rattle.std.specs.List.{flat_map};
ghost use Rattle.snap_report.specs.Lines.{call_word, entry_word, process_word, update_word};

use itoa::write_digits;
use snap_core::{Entry, are_same};
use snap_text::{ENTRY_SIZE, write_entry, write_number, write_text};
use std::alloc::{AllocError, Global};

/// Adds a text, and after it a number.
pub fn put_number(out: &mut Vec<u8>, text: &[u8], number: u64) -> Result<(), AllocError>
    ensures { OnOk result (out.new.items ≡ out.old.items ++ text.now ++ decimal number) }
{
    out.extend_from_slice(text)?;
    let mut digits = [0u8; 20];
    let at = write_digits(number, &mut digits, 20);
    out.extend_from_slice(&digits[at..])
}

/// Adds a text, and after it the number of a call, counted from 1.
pub fn put_call(out: &mut Vec<u8>, text: &[u8], call: u32) -> Result<(), AllocError>
    ensures { OnOk result (out.new.items ≡ out.old.items ++ text.now ++ call_word call) }
{
    put_number(out, text, u64::from(call) + 1)
}

/// Adds a text, and after it an update by its component and its number.
pub fn put_update(
    out: &mut Vec<u8>,
    text: &[u8],
    component: u8,
    number: u32,
) -> Result<(), AllocError>
    ensures { OnOk result (out.new.items ≡ out.old.items ++ text.now ++ update_word component number) }
{
    put_number(out, text, u64::from(component))?;
    put_number(out, b":", u64::from(number))
}

/// Adds a text, and after it an entry as component, number and value.
pub fn put_entry(out: &mut Vec<u8>, text: &[u8], entry: &Entry) -> Result<(), AllocError>
    ensures { OnOk result (out.new.items ≡ out.old.items ++ text.now ++ entry_word entry.now) }
{
    put_update(out, text, entry.component, entry.number)?;
    put_number(out, b":", u64::from(entry.value))
}

// The most entries that are put together.
const GROUP: usize = 16;

// The most bytes that a group takes, each entry after a space.
const GROUP_SIZE: usize = GROUP * (1 + ENTRY_SIZE);

// The number of entries of a view that are put together. A view mostly differs from the one before in one entry, and the whole
// group of that entry is written again. If there are few entries, small groups leave more of them to be copied. If there are many,
// most are copied either way, and each comparison of a group costs time.
fn group_length(entries: usize) -> usize
    ensures { (1 ≤ result) × (result ≤ GROUP) }
{
    match entries {
        0..32 => 4,
        32..128 => 8,
        _ => GROUP,
    }
}

/// Entries that were added, and their words.
#[derive(Drop)]
pub(crate) struct Group {
    entries: Vec<Entry>,
    text: Vec<u8>,
    ghost spelled: { text.items ≡ flat_map (λ entry. codes " " ++ entry_word entry) entries.items },
}

// Writes entries, each after a space, so that the last ends at `end`. Answers the place of the first byte.
fn write_entries(entries: &[Entry], buffer: &mut [u8], end: usize) -> usize
    requires room { 26 * length entries.now ≤ end }
    requires within { end ≤ length buffer.old }
    ensures start { (result ≤ end) × (end ≤ result + 26 * length entries.now) }
    ensures written { drop result buffer.new ≡ flat_map (λ entry. codes " " ++ entry_word entry) entries.now ++ drop end buffer.old }
    ensures same { length buffer.new ≡ length buffer.old }
{
    let mut at = end;
    let mut i = entries.len();
    while i > 0 {
        i -= 1;
        at = write_entry(b" ", &entries[i], buffer, at);
    }
    at
}

impl Group {
    fn new(alloc: Global) -> Group {
        Group {
            entries: Vec::new(alloc),
            text: Vec::new(alloc),
        }
    }

    // Makes it the group of other entries, in the memory that it has. The entries get their room before the text is put. So an
    // error of memory leaves a group without entries.
    fn set(&mut self, entries: &[Entry]) -> Result<(), AllocError>
        requires { length entries.now ≤ GROUP }
        ensures { OnOk result (self.new.entries.items ≡ entries.now) }
    {
        let mut buffer = [0u8; GROUP_SIZE];
        let at = write_entries(entries, &mut buffer, GROUP_SIZE);
        self.entries.clear();
        self.text.clear();
        self.entries.reserve(entries.len())?;
        self.text.extend_from_slice(&buffer[at..])?;
        self.entries.extend_from_slice(entries)
    }
}

// Adds the entries of a group, each after a space. The known group becomes theirs, if it is not already, and its text is copied.
fn put_group(out: &mut Vec<u8>, known: &mut Group, entries: &[Entry]) -> Result<(), AllocError>
    requires { length entries.now ≤ GROUP }
    ensures { OnOk result (out.new.items ≡ out.old.items ++ flat_map (λ entry. codes " " ++ entry_word entry) entries.now) }
{
    if !are_same(&known.entries, entries) {
        known.set(entries)?;
    }
    out.extend_from_slice(&known.text)
}

// Adds entries, each after a space. Those of one view are often those of the view before it. So groups of them are compared with
// the groups that were added before.
fn put_groups(
    out: &mut Vec<u8>,
    known: &mut Vec<Group>,
    entries: &[Entry],
) -> Result<(), AllocError>
    ensures { OnOk result (out.new.items ≡ out.old.items ++ flat_map (λ entry. codes " " ++ entry_word entry) entries.now) }
{
    let most = group_length(entries.len());
    let mut place = 0;
    let mut left = entries;
    while !left.is_empty() {
        let (group, rest) = left.split_at(left.len().min(most));
        if place == known.len() {
            known.push(Group::new(*out.allocator()))?;
        }
        put_group(out, &mut known[place], group)?;
        place += 1;
        left = rest;
    }
    Ok(())
}

// The most bytes of a call's line before its last words: its number, its process and ` update `.
const FRONT_SIZE: usize = 25;

// The most bytes of the line of an update.
const UPDATE_SIZE: usize = FRONT_SIZE + ENTRY_SIZE + 1;

// Writes the front of a call's line, up to the word of its operation, so that it ends at `end`. Answers the place of the first byte.
fn write_front(number: u32, process: u16, does: &[u8], buffer: &mut [u8], end: usize) -> usize
    requires word { length does.now ≤ 8 }
    requires room { FRONT_SIZE ≤ end }
    requires within { end ≤ length buffer.old }
    ensures start { (result ≤ end) × (end ≤ result + FRONT_SIZE) }
    ensures written { drop result buffer.new ≡ call_word number ++ codes " " ++ process_word process ++ does.now ++ drop end buffer.old }
    ensures same { length buffer.new ≡ length buffer.old }
{
    let at = write_text(does, buffer, end);
    let at = write_number(b" p", u64::from(process), buffer, at);
    write_number(b"", u64::from(number) + 1, buffer, at)
}

/// Adds the line of an update, in one piece.
pub(crate) fn put_update_line(
    out: &mut Vec<u8>,
    number: u32,
    process: u16,
    entry: &Entry,
) -> Result<(), AllocError>
    ensures { OnOk result (out.new.items ≡ out.old.items ++ call_word number ++ codes " " ++ process_word process
        ++ codes " update " ++ entry_word entry.now ++ codes "\n") }
{
    let mut line = [0u8; UPDATE_SIZE];
    let at = write_text(b"\n", &mut line, UPDATE_SIZE);
    let at = write_entry(b"", entry, &mut line, at);
    let at = write_front(number, process, b" update ", &mut line, at);
    out.extend_from_slice(&line[at..])
}

fn put_view_front(out: &mut Vec<u8>, number: u32, process: u16) -> Result<(), AllocError>
    ensures { OnOk result (out.new.items ≡ out.old.items ++ call_word number ++ codes " " ++ process_word process ++ codes " view") }
{
    let mut front = [0u8; FRONT_SIZE];
    let at = write_front(number, process, b" view", &mut front, FRONT_SIZE);
    out.extend_from_slice(&front[at..])
}

pub(crate) fn put_view_line(
    out: &mut Vec<u8>,
    known: &mut Vec<Group>,
    number: u32,
    process: u16,
    entries: &[Entry],
) -> Result<(), AllocError>
    ensures { OnOk result (out.new.items ≡ out.old.items ++ call_word number ++ codes " " ++ process_word process
        ++ codes " view" ++ flat_map (λ entry. codes " " ++ entry_word entry) entries.now ++ codes "\n") }
{
    put_view_front(out, number, process)?;
    put_groups(out, known, entries)?;
    out.extend_from_slice(b"\n")
}
