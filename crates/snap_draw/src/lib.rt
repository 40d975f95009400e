//! A history as a timeline, and the picture of that: SVG, a page around it, or lines of characters.
#![tactic(auto)]

mod drawn;
mod kinds;
mod layout;
mod lines;
mod marks;
mod picture;
mod pieces;
mod shapes;
mod svg;
mod window;
mod words;

pub use drawn::Drawn;
pub use lines::{explained_lines, text_lines};
pub use marks::Mark;
pub use picture::{Numbering, Picture};
pub use pieces::parts_of;
pub use shapes::{Bar, Shapes, shapes_of};
pub use svg::{page_of, svg_of};
pub use window::{PAGE_CALLS, Place, Window, has_call};
