//! The kinds of a block's rows: rows with the same numbers, found by a hash of these.
ghost use Rattle.std.specs.Prelude.{◌≡◌, ◌≤◌, ◌<◌, ◌+◌, IsTrue, IfOk};
ghost use Rattle.snap_grid.specs.inside.Kept.{HaveRows};
ghost use Rattle.snap_grid.specs.inside.Kinds.{AreAlike, AreKinds};
ghost use Rattle.snap_masks.specs.Limits.{row_limit};

use crate::kind::Kind;
use snap_masks::Column;
use std::alloc::{AllocError, Global};
use std::marker::Model;

// The number of places for the kinds that were seen last.
const PLACES: usize = 1024;

// Whether two rows have the same number in each column.
fn are_alike(columns: &[Column], a: usize, b: usize) -> bool
    requires a { HaveRows columns.now (a + 1) }
    requires b { HaveRows columns.now (b + 1) }
    ensures { IsTrue result → AreAlike columns.now a b }
{
    for j in 0..columns.len() {
        if columns[j].number(a) != columns[j].number(b) {
            return false;
        }
    }
    true
}

// A place for each of `count` rows from `from` on. Rows with the same numbers have the same place.
fn places_of(
    alloc: Global,
    columns: &[Column],
    from: usize,
    count: usize,
) -> Result<Vec<u32>, AllocError>
    requires small { from ≤ row_limit }
    requires few { count ≤ 512 }
    requires rows { HaveRows columns.now (from + count) }
{
    let mut places = Vec::with_capacity(alloc, count)?;
    for _row in 0..count {
        places.push(0)?;
    }
    for j in 0..columns.len() {
        mix(&mut places, columns[j].rows(from, from + count));
    }
    fold(&mut places);
    Ok(places)
}

// Mixes a column's numbers into the places of its rows.
fn mix(places: &mut [u32], numbers: &[u32]) {
    for i in 0..places.len().min(numbers.len()) {
        places[i] = (places[i] ^ numbers[i])
            .wrapping_mul(0x9E37_79B1)
            .rotate_left(15);
    }
}

// Mixes the higher bits of places into their lowest ten, which find a place. Numbers that differ in high bits alone need it.
fn fold(places: &mut [u32]) {
    for i in 0..places.len() {
        places[i] ^= (places[i] >> 10) ^ (places[i] >> 20);
    }
}

// The kinds of a block's rows.
#[derive(Drop)]
pub(crate) struct Kinds {
    kinds: Vec<Kind>,
}

impl Model for Kinds {
    ghost use Rattle.std.specs.Prelude.{List};
    ghost use Rattle.snap_grid.specs.declared.kind.Kind.{Kind};

    ghost Value = { List Kind };

    ghost view = { λ k. k.kinds.items };
}

impl Kinds {
    // The kinds of `count` rows from `from` on. A row finds an earlier equal row unless another row has taken its place since.
    pub(crate) fn of(
        alloc: Global,
        columns: &[Column],
        from: usize,
        count: usize,
    ) -> Result<Kinds, AllocError>
        requires small { from ≤ row_limit }
        requires few { count ≤ 512 }
        requires rows { HaveRows columns.now (from + count) }
        ensures { IfOk result (λ kinds. AreKinds columns.now from count kinds) }
    {
        let places = places_of(alloc, columns, from, count)?;
        let mut last = [0; PLACES];
        let mut kinds: Vec<Kind> = Vec::with_capacity(alloc, count)?;
        for row in 0..count {
            let place = places.get(row).map_or(0, |place| *place) as usize % PLACES;
            let known = usize::from(last[place]);
            if known < kinds.len()
                && are_alike(columns, from + usize::from(kinds[known].row), from + row)
            {
                let kind = kinds[known];
                kinds[known] = Kind {
                    row: kind.row,
                    times: kind.times + 1,
                };
            } else {
                last[place] = kinds.len() as u16;
                kinds.push(Kind {
                    row: row as u16,
                    times: 1,
                })?;
            }
        }
        Ok(Kinds { kinds })
    }

    pub(crate) fn all(&self) -> &[Kind]
        ensures { result.now ≡ self.now }
    {
        &self.kinds
    }
}
