//! Masks: sets of up to 512 rows, a bit for each.
ghost use Rattle.std.specs.Prelude.{◌≡◌, ◌≤◌, ◌<◌, true, ◌^◌, ℕ, bit_or, bit_and, bit_xor, count_ones, IsTrue};
ghost use Rattle.snap_masks.specs.Masks.{IsFirstBit, mask_below};

use std::marker::Model;
use std::simd::prelude::*;

/// The number of rows of a block, and of bits of a mask.
pub const WIDTH: usize = 512;

// The number of lanes of 64 bits of a mask.
const LANES: usize = 8;

/// A mask of up to 512 rows.
#[derive(Drop)]
pub struct Mask {
    lanes: [u64; LANES],
}

impl Model for Mask {
    ghost use Rattle.std.specs.Prelude.{ℕ};
    ghost use Rattle.snap_masks.specs.Masks.{number_of_lanes, AreLanes};

    ghost Value = { ℕ };

    ghost view = { λ m. number_of_lanes m.lanes };

    ghost invariant = { λ m. AreLanes m.lanes };
}

impl Mask {
    /// The mask of no row.
    #[inline]
    pub fn none() -> Mask
        ensures { result ≡ 0 }
    {
        Mask { lanes: [0; LANES] }
    }

    /// A copy of the mask.
    #[inline]
    pub fn copy(&self) -> Mask
        ensures { result ≡ self.now }
    {
        Mask { lanes: self.lanes }
    }

    /// Whether it has no row.
    #[inline]
    pub fn is_none(&self) -> bool
        ensures { IsTrue result → self.now ≡ 0 }
    {
        u64x8::from_array(self.lanes).reduce_or() == 0
    }

    // Sets the bit of a row.
    pub(crate) fn set(&mut self, row: usize)
        requires { row < 512 }
        ensures { self.new ≡ bit_or self.old (2 ^ row) }
    {
        self.lanes[row / 64] |= 1 << (row % 64);
    }

    /// The rows of this mask or another.
    #[inline]
    pub fn or(&self, other: &Mask) -> Mask
        ensures { result ≡ bit_or self.now other.now }
    {
        Mask {
            lanes: (u64x8::from_array(self.lanes) | u64x8::from_array(other.lanes)).to_array(),
        }
    }

    /// The rows of this mask and another.
    #[inline]
    pub fn and(&self, other: &Mask) -> Mask
        ensures { result ≡ bit_and self.now other.now }
    {
        Mask {
            lanes: (u64x8::from_array(self.lanes) & u64x8::from_array(other.lanes)).to_array(),
        }
    }

    /// The rows of exactly one of this mask and another.
    #[inline]
    pub fn xor(&self, other: &Mask) -> Mask
        ensures { result ≡ bit_xor self.now other.now }
    {
        Mask {
            lanes: (u64x8::from_array(self.lanes) ^ u64x8::from_array(other.lanes)).to_array(),
        }
    }

    /// The number of its rows.
    #[inline]
    pub fn count(&self) -> u32
        ensures { result ≡ count_ones self.now }
    {
        let mut count = 0;
        for lane in 0..LANES {
            count += self.lanes[lane].count_ones();
        }
        count
    }

    /// The first of its rows; none if it is empty.
    pub fn first(&self) -> Option<usize>
        ensures { IsFirstBit self.now result }
    {
        for lane in 0..LANES {
            if self.lanes[lane] != 0 {
                return Some(64 * lane + self.lanes[lane].trailing_zeros() as usize);
            }
        }
        None
    }
}

/// The mask of the first `count` rows, at most 512.
pub fn mask_of_all(count: usize) -> Mask
    requires { count ≤ 512 }
    ensures { result ≡ mask_below (λ a. true) count }
{
    let mut mask = Mask::none();
    for row in 0..count {
        mask.set(row);
    }
    mask
}
