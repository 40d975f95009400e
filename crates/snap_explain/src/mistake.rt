//! What is wrong with the field data of a record.
ghost use Rattle.std.specs.Prelude.{◌≡◌, ◌<◌, ◌∷◌, [], IfSome, length, map, option_map};
ghost use Rattle.snap_text.specs.Fields.{parts, three};
ghost use Rattle.snap_explain.specs.Mistakes.{component_of as spec_component_of, data_mistake as spec_data_mistake, entries_in, entry_mistake as spec_entry_mistake, first_fall as spec_first_fall, first_mistake as spec_first_mistake, is_number as spec_is_number, numbers_mistake as spec_numbers_mistake, record_mistake as spec_record_mistake, update_mistake as spec_update_mistake, view_mistake as spec_view_mistake, words_mistake as spec_words_mistake};
ghost use Rattle.snap_explain.specs.inside.Parts.{parts_after};

use memchr::memchr;
use snap_text::stamp_of;

/// A mistake in the field data, in the order in which the mistakes are looked for. Entries are counted from 1.
#[derive(Clone, Copy)]
pub(crate) enum Mistake {
    /// The begin of a view has a field that is not empty.
    BeginOfView,
    /// The end of an update has a field that is not empty.
    EndOfUpdate,
    /// The begin of an update has an empty field.
    NoEntry,
    /// The place of an entry is empty, since there is a space too many.
    Spaces { entry: usize },
    /// An entry does not have three parts.
    Parts { entry: usize, parts: usize },
    /// The component of an entry is not a number of its range.
    Component { entry: usize },
    /// The number of an entry is not a number of its range.
    Number { entry: usize },
    /// The value of an entry is not a number of its range.
    Value { entry: usize },
    /// The begin of an update has more than one entry.
    Several { entries: usize },
    /// The component of an entry is not below that of the next one.
    Fall { entry: usize },
}

/// A text up to its first mark, and what is after that mark.
pub(crate) fn first_part(text: &[u8], mark: u8) -> (&[u8], Option<&[u8]>)
    ensures parts { parts mark text.now ≡ result.0.now ∷ parts_after mark result.1 }
    ensures shorter { IfSome result.1 (λ rest. length rest.now < length text.now) }
{
    match memchr(mark, text) {
        Some(at) => (&text[..at], Some(&text[at + 1..])),
        None => (text, None),
    }
}

// The number of parts that a text has between its marks.
fn count_parts(text: &[u8], mark: u8) -> usize
    ensures { result ≡ length (parts mark text.now) }
{
    let mut count = 1;
    let (_, mut left) = first_part(text, mark);
    while let Some(rest) = left {
        count += 1;
        (_, left) = first_part(rest, mark);
    }
    count
}

// Whether a part is a number from `least` on and below `limit`: its decimal, without a sign or leading zeros.
fn is_number(part: &[u8], least: u64, limit: u64) -> bool
    ensures { result ≡ spec_is_number least limit part.now }
{
    matches!(stamp_of(part), Some(number) if number < limit && least <= number)
}

// The first mistake in the three parts of an entry.
fn numbers_mistake(entry: usize, component: &[u8], number: &[u8], value: &[u8]) -> Option<Mistake>
    ensures { result ≡ spec_numbers_mistake entry (component.now, number.now, value.now) }
{
    if !is_number(component, 0, 1 << 8) {
        Some(Mistake::Component { entry })
    } else if !is_number(number, 1, 1 << 32) {
        Some(Mistake::Number { entry })
    } else if !is_number(value, 0, 1 << 32) {
        Some(Mistake::Value { entry })
    } else {
        None
    }
}

// The parts of a text between its marks, if there are three.
fn three_parts(text: &[u8], mark: u8) -> Option<(&[u8], &[u8], &[u8])>
    ensures { option_map (λ x. (x.0.now, x.1.now, x.2.now)) result ≡ three (parts mark text.now) }
{
    let (first, rest) = first_part(text, mark);
    let (second, rest) = first_part(rest?, mark);
    let (third, rest) = first_part(rest?, mark);
    match rest {
        None => Some((first, second, third)),
        Some(_) => None,
    }
}

// The first mistake in the entry of a place.
#[tactic(auto, unfolding(crate::specs::Mistakes::entry_mistake))]
fn entry_mistake(entry: usize, text: &[u8]) -> Option<Mistake>
    ensures { result ≡ spec_entry_mistake entry text.now }
{
    if text.is_empty() {
        return Some(Mistake::Spaces { entry });
    }
    match three_parts(text, b':') {
        Some((component, number, value)) => numbers_mistake(entry, component, number, value),
        None => Some(Mistake::Parts {
            entry,
            parts: count_parts(text, b':'),
        }),
    }
}

// The first mistake in any entry of a field.
fn first_mistake(field: &[u8]) -> Option<Mistake>
    ensures { result ≡ spec_first_mistake 1 (entries_in field.now) }
{
    let mut place = 0;
    let mut left = Some(field);
    while let Some(text) = left {
        place += 1;
        let (entry, rest) = first_part(text, b' ');
        if let Some(mistake) = entry_mistake(place, entry) {
            return Some(mistake);
        }
        left = rest;
    }
    None
}

// The component of an entry, 0 if there is none.
fn component_of(entry: &[u8]) -> u64
    ensures { result ≡ spec_component_of entry.now }
{
    let (component, _) = first_part(entry, b':');
    match stamp_of(component) {
        Some(number) if number < 1 << 8 => number,
        _ => 0,
    }
}

// The first entry of a field whose component is not below that of the next one.
fn first_fall(field: &[u8]) -> Option<Mistake>
    ensures { result ≡ spec_first_fall 1 (entries_in field.now) }
{
    let mut place = 1;
    let (mut entry, mut left) = first_part(field, b' ');
    while let Some(text) = left {
        let (next, rest) = first_part(text, b' ');
        if component_of(next) <= component_of(entry) {
            return Some(Mistake::Fall { entry: place });
        }
        place += 1;
        entry = next;
        left = rest;
    }
    None
}

// The first mistake in the field of the begin of an update.
#[tactic(auto, unfolding(crate::specs::Mistakes::update_mistake))]
fn update_mistake(field: &[u8]) -> Option<Mistake>
    ensures { result ≡ spec_update_mistake field.now }
{
    if field.is_empty() {
        return Some(Mistake::NoEntry);
    }
    if let Some(mistake) = first_mistake(field) {
        return Some(mistake);
    }
    match count_parts(field, b' ') {
        1 => None,
        entries => Some(Mistake::Several { entries }),
    }
}

// The first mistake in the field of the end of a view.
#[tactic(auto, unfolding(crate::specs::Mistakes::view_mistake))]
fn view_mistake(field: &[u8]) -> Option<Mistake>
    ensures { result ≡ spec_view_mistake field.now }
{
    if field.is_empty() {
        return None;
    }
    if let Some(mistake) = first_mistake(field) {
        return Some(mistake);
    }
    first_fall(field)
}

// The first mistake in a field, by whether the call begins there and whether it is an update.
fn data_mistake(begins: bool, updates: bool, field: &[u8]) -> Option<Mistake>
    ensures { result ≡ spec_data_mistake begins updates field.now }
{
    match (begins, updates) {
        (true, true) => update_mistake(field),
        (false, false) => view_mistake(field),
        _ if field.is_empty() => None,
        (true, false) => Some(Mistake::BeginOfView),
        (false, true) => Some(Mistake::EndOfUpdate),
    }
}

// The first mistake in the field data of a record whose fields event and op are words that they may be.
fn words_mistake(event: &[u8], op: &[u8], field: &[u8]) -> Option<Mistake>
    ensures { result ≡ spec_words_mistake event.now op.now field.now }
{
    data_mistake(
        event == b"begin".as_slice(),
        op == b"update".as_slice(),
        field,
    )
}

/// The first mistake in the field data of a record of four fields, or of five if the first is a stamp. Any other record has none.
#[tactic(auto, unfolding(crate::specs::Mistakes::record_mistake))]
pub(crate) fn record_mistake(fields: &[Vec<u8>]) -> Option<Mistake>
    ensures { result ≡ spec_record_mistake (map (λ f. f.items) fields.now) }
{
    match fields {
        [event, _, op, field] => words_mistake(event, op, field),
        [_, event, _, op, field] => words_mistake(event, op, field),
        _ => None,
    }
}
