//! The ground behind labels, so that the line of the printed order does not lead through them.
use super::calls::room_of;
use super::parts::put_parts;
use super::points::{Point, spread};
use super::scale::{WIDE, scaled, x_of, y_of};
use crate::picture::Picture;
use crate::words::short_label;
use snap_core::Ownership;
use snap_report::put_number;
use std::alloc::{AllocError, Global};

// Adds ground for this number of characters.
fn put_back(out: &mut Vec<u8>, x: u64, y: u64, characters: usize) -> Result<(), AllocError> {
    let width = scaled(characters, WIDE as u64, 0);
    put_parts(
        out,
        &[(b"<rect x=\"", x), (b"\" y=\"", y), (b"\" width=\"", width)],
        b"\" height=\"13\"/>",
    )
}

// Adds the ground behind the label of each call, above its bar.
fn put_label_backs<O: Ownership>(
    alloc: Global,
    out: &mut Vec<u8>,
    picture: &Picture<'_, '_, O>,
    width: usize,
) -> Result<(), AllocError> {
    for bar in &picture.shapes.bars {
        let label = short_label(alloc, picture, bar)?;
        let shown = label.len().min(room_of(&picture.shapes.bars, bar, width));
        put_back(out, x_of(bar.begin), y_of(bar.lane, 3), shown)?;
    }
    Ok(())
}

// Adds the ground behind the place of each point, below its bar.
fn put_place_backs(alloc: Global, out: &mut Vec<u8>, points: &[Point]) -> Result<(), AllocError> {
    for point in points {
        let mut digits = Vec::new(alloc);
        put_number(&mut digits, b"", point.place)?;
        let half = scaled(digits.len(), WIDE as u64, 0) / 2;
        let x = spread(points, point).saturating_sub(half);
        put_back(out, x, y_of(point.lane, 39), digits.len())?;
    }
    Ok(())
}

/// Adds the ground behind the labels of the calls and behind the places of these points, for a picture of this width. It covers no
/// bar.
pub(crate) fn put_backs<O: Ownership>(
    alloc: Global,
    out: &mut Vec<u8>,
    picture: &Picture<'_, '_, O>,
    points: &[Point],
    width: usize,
) -> Result<(), AllocError> {
    if points.is_empty() {
        return Ok(());
    }
    out.extend_from_slice(b"<g data-id=\"backs\" fill=\"--ground\">")?;
    put_label_backs(alloc, out, picture, width)?;
    put_place_backs(alloc, out, points)?;
    out.extend_from_slice(b"</g>\n")
}
