//! The fields of a record of `csv`.
ghost use Rattle.std.specs.Prelude.{◌≡◌, ◌≢◌, ◌<◌, ◌∷◌, [], length, MatchOption, Some, None};
ghost use Rattle.csv.specs.Records.{field_at, fields_of};
ghost use Rattle.snap_format.specs.Layout.{is_header_row, is_stamped_header_row};

use csv::ByteRecord;
use snap_format::{are_header, are_stamped_header};

// The field at a place that a record has, counted from 0.
#[inline(always)]
fn field(row: &ByteRecord, place: usize) -> &[u8]
    requires { place < length (fields_of row.now) }
    ensures { Some result.now ≡ field_at (fields_of row.now) place }
{
    match row.get(place) {
        Some(field) => field,
        None => unreachable!(),
    }
}

/// The fields of a record that has four.
pub(crate) fn four_fields(row: &ByteRecord) -> Option<(&[u8], &[u8], &[u8], &[u8])>
    ensures { MatchOption result (length (fields_of row.now) ≢ 4) (λ x. fields_of row.now ≡ x.0.now ∷ x.1.now ∷ x.2.now ∷ x.3.now ∷ []) }
{
    if row.len() != 4 {
        return None;
    }
    Some((field(row, 0), field(row, 1), field(row, 2), field(row, 3)))
}

/// The fields of a record that has five.
pub(crate) fn five_fields(row: &ByteRecord) -> Option<(&[u8], &[u8], &[u8], &[u8], &[u8])>
    ensures { MatchOption result (length (fields_of row.now) ≢ 5) (λ x. fields_of row.now ≡ x.0.now ∷ x.1.now ∷ x.2.now ∷ x.3.now ∷ x.4.now ∷ []) }
{
    if row.len() != 5 {
        return None;
    }
    Some((
        field(row, 0),
        field(row, 1),
        field(row, 2),
        field(row, 3),
        field(row, 4),
    ))
}

/// Whether a record is the header.
pub(crate) fn is_header(row: &ByteRecord) -> bool
    ensures { result ≡ is_header_row (fields_of row.now) }
{
    match four_fields(row) {
        Some(fields) => are_header(fields),
        None => false,
    }
}

/// Whether a record is the header of a text whose records have stamps.
pub(crate) fn is_stamped_header(row: &ByteRecord) -> bool
    ensures { result ≡ is_stamped_header_row (fields_of row.now) }
{
    match five_fields(row) {
        Some(fields) => are_stamped_header(fields),
        None => false,
    }
}
