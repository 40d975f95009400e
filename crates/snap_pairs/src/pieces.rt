//! The pieces into which the views are cut.
ghost use Rattle.std.specs.Prelude.{◌≡◌, ◌≤◌};
ghost use Rattle.snap_pairs.specs.inside.Pieces.{block_from, piece_start};

use snap_grid::WIDTH;
use snap_threads::Cutting;

// The first view of a piece, which is the end of the piece before it.
pub(crate) fn start_of(cutting: Cutting, piece: u32, views: u32) -> u32
    requires { piece ≤ cutting.pieces }
    ensures start { result ≡ piece_start cutting.pieces piece views }
    ensures inside { result ≤ views }
{
    (u64::from(piece) * u64::from(views) / u64::from(cutting.pieces())) as u32
}

// The first view, at a place or after it, with which a block of views begins, or the end of the views if none does.
pub(crate) fn block_at(place: u32, views: u32) -> u32
    ensures start { result ≡ block_from place views }
    ensures inside { result ≤ views }
{
    let width = WIDTH as u64;
    let block = (u64::from(place) + width - 1) / width;
    (block * width).min(u64::from(views)) as u32
}
