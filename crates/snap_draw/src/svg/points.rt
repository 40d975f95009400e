//! Where the calls of a printed order take effect.
use super::parts::put_parts;
use super::scale::{COLUMN, x_of, y_of};
use crate::shapes::Bar;
use std::alloc::{AllocError, Global};

/// The point of a call: its place in the order, counted from 1, its lane, and the column after which it is.
#[derive(Clone, Copy)]
pub(crate) struct Point {
    pub(crate) place: u64,
    pub(crate) lane: usize,
    pub(crate) column: usize,
}

fn bar_of(bars: &[Bar], number: u32) -> Option<&Bar> {
    for bar in bars {
        if bar.drawn.number == number {
            return Some(bar);
        }
    }
    None
}

// The points of the calls that are drawn, in the order of their places. Each is right of its call's begin, and of the points before
// it.
pub(crate) fn points_of(
    alloc: Global,
    bars: &[Bar],
    order: &[u32],
) -> Result<Vec<Point>, AllocError> {
    let mut points = Vec::new(alloc);
    let mut column = 0;
    let mut place = 0u64;
    for number in order {
        place = place.saturating_add(1);
        if let Some(bar) = bar_of(bars, *number) {
            column = bar.begin.max(column);
            points.push(Point {
                place,
                lane: bar.lane,
                column,
            })?;
        }
    }
    Ok(points)
}

/// How far from the left a point is. Points after one column share the room up to the next.
pub(crate) fn spread(points: &[Point], point: &Point) -> u64 {
    let mut all = 0u64;
    let mut nth = 0u64;
    for other in points {
        if other.column == point.column {
            all = all.saturating_add(1);
            if other.place <= point.place {
                nth = nth.saturating_add(1);
            }
        }
    }
    let step = nth.saturating_mul(COLUMN) / all.saturating_add(1).max(1);
    x_of(point.column).saturating_add(step)
}

/// Adds the line of the printed order, through the points where the calls take effect. It lies below the bars and their labels.
pub(crate) fn put_line(out: &mut Vec<u8>, points: &[Point]) -> Result<(), AllocError> {
    if points.is_empty() {
        return Ok(());
    }
    out.extend_from_slice(
        b"<g data-id=\"order\"><path class=\"line\" fill=\"none\" stroke=\"--line\" stroke-width=\"1.5\" stroke-opacity=\"0.8\" stroke-linejoin=\"round\" d=\"",
    )?;
    let mut step: &[u8] = b"M ";
    for point in points {
        let x = spread(points, point);
        put_parts(out, &[(step, x), (b" ", y_of(point.lane, 27))], b"")?;
        step = b" L ";
    }
    out.extend_from_slice(b"\"/></g>\n")
}

// Adds a point, on its bar, and its place in the order.
fn put_place(out: &mut Vec<u8>, point: &Point, x: u64) -> Result<(), AllocError> {
    put_parts(
        out,
        &[
            (b"<circle class=\"point\" cx=\"", x),
            (b"\" cy=\"", y_of(point.lane, 27)),
            (
                b"\" r=\"4\" stroke=\"--ground\" stroke-width=\"1.5\"/><text class=\"place\" data-id=\"place-",
                point.place,
            ),
            (b"\" x=\"", x),
            (b"\" y=\"", y_of(point.lane, 49)),
            (b"\">", point.place),
        ],
        b"</text>",
    )
}

/// Adds these points and their places.
pub(crate) fn put_places(out: &mut Vec<u8>, points: &[Point]) -> Result<(), AllocError> {
    if points.is_empty() {
        return Ok(());
    }
    out.extend_from_slice(
        b"<g data-id=\"places\" fill=\"--line\" font-weight=\"bold\" text-anchor=\"middle\">",
    )?;
    for point in points {
        put_place(out, point, spread(points, point))?;
    }
    out.extend_from_slice(b"</g>\n")
}
