//! A picture of shapes, as SVG.
ghost use Rattle.std.specs.Prelude.{IfOk, OnOk};
ghost use Rattle.snap_draw.specs.Ends.{EndsPage, EndsSvg};

use crate::picture::{Picture, front_of, is_sentence, verdict_of};
use crate::shapes::Shapes;
use crate::words::{place_at, record_at, short_label};
use backs::put_backs;
use calls::{next_of, put_calls};
use colours::{put_coloured, put_colours};
use held::{put_extent, put_piece, put_reasons, put_steps};
use look::{GROUND, WHOLE};
use page::{HEAD, MOVES, STYLE, TAIL};
use parts::{put_escaped, put_parts};
use points::{points_of, put_line, put_places};
use scale::{LANE, MARGIN, TOP, WIDE, across, right_of, scaled, x_of, y_of};
use script::SCRIPT;
use snap_core::Ownership;
use snap_options::Scheme;
use std::alloc::{AllocError, Global};
use strip::put_strip;

mod backs;
mod calls;
mod colours;
mod held;
mod look;
mod page;
mod parts;
mod points;
mod scale;
mod script;
mod strip;

// The last labels make a picture wider than its columns by at most this much.
const LABEL_ROOM: usize = 240;

// The number of sentences on faults, and the length of the longest.
fn extent_of(said: &[u8]) -> (usize, usize) {
    let mut sentences = 0usize;
    let mut longest = 0;
    for line in said.split(|byte| *byte == b'\n').skip(1) {
        if is_sentence(line) {
            sentences = sentences.saturating_add(1);
            longest = line.len().max(longest);
        }
    }
    (sentences, longest)
}

fn foot_of(shapes: &Shapes) -> u64 {
    scaled(shapes.lanes.len(), LANE, TOP)
}

// Where the label of the last call of a lane would end on the right, the farthest of all lanes.
fn labels_end<O: Ownership>(
    alloc: Global,
    picture: &Picture<'_, '_, O>,
) -> Result<usize, AllocError> {
    let mut end = 0usize;
    for bar in &picture.shapes.bars {
        if next_of(&picture.shapes.bars, bar).is_none() {
            let label = short_label(alloc, picture, bar)?.len();
            end = across(bar.begin)
                .saturating_add(label.saturating_mul(WIDE))
                .max(end);
        }
    }
    Ok(end)
}

// The width of a picture: all columns, the longest sentence, and the labels, of which long ones are cut.
fn width_of<O: Ownership>(
    alloc: Global,
    picture: &Picture<'_, '_, O>,
) -> Result<usize, AllocError> {
    let (_marks, longest) = extent_of(picture.said);
    let columns = across(picture.shapes.columns);
    let labels = labels_end(alloc, picture)?
        .saturating_add(MARGIN)
        .min(columns.saturating_add(LABEL_ROOM));
    Ok(
        longest
            .saturating_mul(WIDE)
            .saturating_add(64)
            .max(columns)
            .max(labels),
    )
}

// Adds the first line, with the size.
fn put_size<O: Ownership>(
    out: &mut Vec<u8>,
    picture: &Picture<'_, '_, O>,
    width: u64,
) -> Result<(), AllocError> {
    let (marks, _longest) = extent_of(picture.said);
    let height = foot_of(picture.shapes).saturating_add(scaled(marks, 20, 26));
    put_parts(
        out,
        &[
            (
                b"<svg data-id=\"run\" xmlns=\"http://www.w3.org/2000/svg\" viewBox=\"0 0 ",
                width,
            ),
            (b" ", height),
            (b"\" width=\"", width),
            (b"\" height=\"", height),
        ],
        b"\"",
    )?;
    out.extend_from_slice(WHOLE)?;
    out.extend_from_slice(b" role=\"group\" aria-label=\"")?;
    put_escaped(out, verdict_of(picture.said))?;
    out.extend_from_slice(b"\">\n")
}

// Adds the first line, the ground, and the verdict.
fn put_head<O: Ownership>(
    out: &mut Vec<u8>,
    picture: &Picture<'_, '_, O>,
    width: usize,
) -> Result<(), AllocError> {
    put_size(out, picture, width as u64)?;
    out.extend_from_slice(GROUND)?;
    out.extend_from_slice(
        b"<text data-id=\"verdict\" x=\"8\" y=\"20\" font-size=\"13\" font-weight=\"bold\">",
    )?;
    put_escaped(out, front_of(verdict_of(picture.said)))?;
    out.extend_from_slice(b"</text>\n")
}

// Adds the number of the record of each event above its column.
fn put_records(out: &mut Vec<u8>, shapes: &Shapes, records: &[u32]) -> Result<(), AllocError> {
    out.extend_from_slice(b"<g data-id=\"records\" fill=\"--quiet\" text-anchor=\"middle\">")?;
    for column in 0..shapes.columns {
        if let Some(place) = place_at(&shapes.bars, column) {
            let record = record_at(records, place);
            put_parts(
                out,
                &[(b"<text x=\"", x_of(column)), (b"\" y=\"70\">", record)],
                b"</text>",
            )?;
        }
    }
    out.extend_from_slice(b"</g>\n")
}

fn put_lanes(out: &mut Vec<u8>, shapes: &Shapes) -> Result<(), AllocError> {
    for (lane, process) in shapes.lanes.iter().enumerate() {
        let process = u64::from(*process);
        put_parts(
            out,
            &[
                (b"<g class=\"lane\" data-id=\"lane-", process),
                (
                    b"\"><text class=\"name\" font-weight=\"bold\" x=\"8\" y=\"",
                    y_of(lane, 31),
                ),
                (b"\">p", process),
                (b"</text><path class=\"line\" d=\"M 64 ", y_of(lane, 27)),
                (b" H ", right_of(shapes.columns)),
            ],
            b"\" fill=\"none\" stroke=\"--faint\"/></g>\n",
        )?;
    }
    Ok(())
}

// Adds a sentence at a height.
fn put_mark(out: &mut Vec<u8>, line: &[u8], y: u64) -> Result<(), AllocError> {
    out.extend_from_slice(b"<g class=\"mark\" data-id=\"fault-")?;
    put_escaped(out, front_of(line))?;
    out.extend_from_slice(b"\" fill=\"--fault\" font-weight=\"bold\"><title>")?;
    put_escaped(out, line)?;
    put_parts(out, &[(b"</title><text x=\"8\" y=\"", y)], b"\">")?;
    put_escaped(out, line)?;
    out.extend_from_slice(b"</text></g>\n")
}

// Adds the sentence on the first fault of each kind.
fn put_marks<O: Ownership>(
    out: &mut Vec<u8>,
    picture: &Picture<'_, '_, O>,
) -> Result<(), AllocError> {
    let mut y = foot_of(picture.shapes).saturating_add(26);
    for line in picture.said.split(|byte| *byte == b'\n').skip(1) {
        if is_sentence(line) {
            put_mark(out, line, y)?;
            y = y.saturating_add(20);
        }
    }
    Ok(())
}

// Adds what lies below the calls: the head, the strip, the records and the lanes.
fn put_ground<O: Ownership>(
    out: &mut Vec<u8>,
    picture: &Picture<'_, '_, O>,
    width: usize,
) -> Result<(), AllocError> {
    put_head(out, picture, width)?;
    put_strip(
        out,
        picture.shapes,
        picture.index,
        picture.numbering.records,
    )?;
    put_records(out, picture.shapes, picture.numbering.records)?;
    put_lanes(out, picture.shapes)
}

// Adds the calls and the faults, with the points of the printed order.
fn put_run<O: Ownership>(
    alloc: Global,
    out: &mut Vec<u8>,
    picture: &Picture<'_, '_, O>,
    width: usize,
) -> Result<(), AllocError> {
    let points = points_of(alloc, &picture.shapes.bars, picture.order)?;
    put_line(out, &points)?;
    put_backs(alloc, out, picture, &points, width)?;
    put_calls(alloc, out, picture, width)?;
    put_marks(out, picture)?;
    put_places(out, &points)
}

// A picture up to its end, with its colours by name.
fn uncoloured<O: Ownership>(
    alloc: Global,
    picture: &Picture<'_, '_, O>,
) -> Result<Vec<u8>, AllocError> {
    let mut out = Vec::new(alloc);
    let width = width_of(alloc, picture)?;
    put_ground(&mut out, picture, width)?;
    put_run(alloc, &mut out, picture, width)?;
    Ok(out)
}

fn put_svg<O: Ownership>(
    alloc: Global,
    out: &mut Vec<u8>,
    picture: &Picture<'_, '_, O>,
    scheme: Scheme,
) -> Result<(), AllocError>
    ensures { OnOk result (EndsSvg out.new.items) }
{
    let named = uncoloured(alloc, picture)?;
    put_coloured(out, &named, scheme)?;
    out.extend_from_slice(b"</svg>\n")
}

/// The picture as SVG, in the colours of a scheme. The error is want of memory.
pub fn svg_of<O: Ownership>(
    alloc: Global,
    picture: &Picture<'_, '_, O>,
    scheme: Scheme,
) -> Result<Vec<u8>, AllocError>
    ensures { IfOk result (λ text. EndsSvg text.items) }
{
    let mut out = Vec::new(alloc);
    put_svg(alloc, &mut out, picture, scheme)?;
    Ok(out)
}

// Adds the pieces of a long history, each as its picture, which the script shows.
fn put_pieces<O: Ownership>(
    alloc: Global,
    out: &mut Vec<u8>,
    picture: &Picture<'_, '_, O>,
) -> Result<(), AllocError> {
    for shapes in picture.parts {
        let piece = Picture {
            shapes,
            parts: &[],
            index: picture.index,
            numbering: picture.numbering,
            order: picture.order,
            said: picture.said,
        };
        put_piece(out, shapes)?;
        put_svg(alloc, out, &piece, Scheme::Light)?;
        out.extend_from_slice(b"</template>\n")?;
    }
    Ok(())
}

// Adds what a page has below its picture.
fn put_tail<O: Ownership>(
    alloc: Global,
    out: &mut Vec<u8>,
    picture: &Picture<'_, '_, O>,
) -> Result<(), AllocError> {
    out.extend_from_slice(MOVES)?;
    put_extent(out, picture)?;
    out.extend_from_slice(TAIL)?;
    put_reasons(out, picture.said)?;
    put_steps(alloc, out, picture)?;
    put_pieces(alloc, out, picture)?;
    out.extend_from_slice(SCRIPT)
}

// Adds the page around the picture, and the picture. The style of the page gives the picture its colours.
fn put_page<O: Ownership>(
    alloc: Global,
    out: &mut Vec<u8>,
    picture: &Picture<'_, '_, O>,
    scheme: Option<Scheme>,
) -> Result<(), AllocError>
    ensures { OnOk result (EndsPage out.new.items) }
{
    out.extend_from_slice(HEAD)?;
    put_colours(out, scheme)?;
    out.extend_from_slice(STYLE)?;
    put_svg(alloc, out, picture, Scheme::Light)?;
    put_tail(alloc, out, picture)?;
    out.extend_from_slice(b"</html>\n")
}

/// The picture on a page, which a browser shows without any other file. The page has the colours of a scheme, or if none is given those
/// of the reader's system. The error is want of memory.
pub fn page_of<O: Ownership>(
    alloc: Global,
    picture: &Picture<'_, '_, O>,
    scheme: Option<Scheme>,
) -> Result<Vec<u8>, AllocError>
    ensures { IfOk result (λ text. EndsPage text.items) }
{
    let mut out = Vec::new(alloc);
    put_page(alloc, &mut out, picture, scheme)?;
    Ok(out)
}
