//! The ways to write a picture.
ghost use Rattle.std.specs.Prelude.{◌≡◌, ℕ, List, IfOk};
ghost use Rattle.snap_core.specs.declared.event.Event.{Event};
ghost use Rattle.snap_draw.specs.declared.shapes.Shapes.{Shapes};
ghost use Rattle.snap_draw.specs.declared.window.Window.{Window};
ghost use Rattle.snap_draw.specs.Window.{usual_lines};
ghost use Rattle.snap_options.specs.declared.limits.TheConstants.{MOST_CALLS};
ghost use Rattle.snap_runs.specs.Markups.{is_lines, is_page, is_svg};
ghost use Rattle.snap_runs.specs.declared.markup.Said.{Said};
ghost use Rattle.snap_runs.specs.declared.markup.Said.TheVariants.{Sentences, Whole};

use snap_core::AnyWriters;
use snap_draw::{Picture, Window, explained_lines, page_of, svg_of, text_lines};
use snap_explain::Entries;
use snap_options::{MOST_CALLS, Scheme};
use std::alloc::{AllocError, Global};

/// What a picture has of the explanation of a history.
#[derive(Clone, Copy)]
pub(crate) enum Said {
    /// All of it, which lists these entries of the views of a fault.
    Whole(Entries),
    /// The verdict and the faults: of an atomic history the first line alone, without the calls of its order.
    Sentences,
}

/// A way to write a picture as text.
pub(crate) trait Markup {
    // which calls of a history it draws
    ghost draws: { Self → Window };

    // the most calls of a longer history that it holds in pieces
    ghost holds: { ℕ };

    // what it has of the explanation
    ghost says: { Self → Said };

    // what it may write of the events of a history, their records, the numbers of its calls in a run, its shapes, those of its pieces,
    // the numbers of its printed order, and its explanation
    ghost writes: { List Event → List ℕ → List ℕ → Shapes → List Shapes → List ℕ → List ℕ → List ℕ → Type 0 };

    /// Which calls of a history are drawn.
    fn part(&self) -> Window
        ensures { result ≡ draws self.now };

    /// The most calls of a longer history that are held in pieces.
    fn held(&self) -> usize
        ensures { result ≡ holds };

    /// What it has of the explanation.
    fn said(&self) -> Said
        ensures { result ≡ says self.now };

    /// The text of a picture. The error is want of memory.
    fn text(
        &self,
        alloc: Global,
        picture: &Picture<'_, '_, AnyWriters>,
    ) -> Result<Vec<u8>, AllocError>
        ensures { IfOk result (λ text. writes picture.now.index.now picture.now.numbering.records.now picture.now.numbering.sources.now picture.now.shapes.now picture.now.parts.now picture.now.order.now picture.now.said.now text.items) };
}

/// SVG alone, of a window, in the colours of a scheme.
#[derive(Clone, Copy)]
pub(crate) struct Svg {
    pub scheme: Scheme,
    pub window: Window,
}

/// A page with the SVG of a window in it, in the colours of a scheme. If none is given, it has those of the reader's system. Of a longer
/// history it holds other calls too.
#[derive(Clone, Copy)]
pub(crate) struct Page {
    pub scheme: Option<Scheme>,
    pub window: Window,
}

/// Lines of characters, of a window.
#[derive(Clone, Copy)]
pub(crate) struct Lines {
    pub window: Window,
}

/// The explanation, which lists these entries of the views of a fault, with the usual lines of characters below it.
#[derive(Clone, Copy)]
pub(crate) struct Explained {
    pub listed: Entries,
}

// only the end of their bytes is proved, and the rest is tested

impl Markup for Svg {
    ghost draws = { λ markup. markup.window };

    ghost holds = { 0 };

    ghost says = { λ _. Sentences };

    ghost writes = { is_svg };

    fn part(&self) -> Window {
        self.window
    }

    fn held(&self) -> usize {
        0
    }

    fn said(&self) -> Said {
        Said::Sentences
    }

    fn text(
        &self,
        alloc: Global,
        picture: &Picture<'_, '_, AnyWriters>,
    ) -> Result<Vec<u8>, AllocError> {
        svg_of(alloc, picture, self.scheme)
    }
}

impl Markup for Page {
    ghost draws = { λ markup. markup.window };

    ghost holds = { MOST_CALLS };

    ghost says = { λ _. Sentences };

    ghost writes = { is_page };

    fn part(&self) -> Window {
        self.window
    }

    fn held(&self) -> usize {
        MOST_CALLS as usize
    }

    fn said(&self) -> Said {
        Said::Sentences
    }

    fn text(
        &self,
        alloc: Global,
        picture: &Picture<'_, '_, AnyWriters>,
    ) -> Result<Vec<u8>, AllocError> {
        page_of(alloc, picture, self.scheme)
    }
}

impl Markup for Lines {
    ghost draws = { λ markup. markup.window };

    ghost holds = { 0 };

    ghost says = { λ _. Sentences };

    ghost writes = { is_lines };

    fn part(&self) -> Window {
        self.window
    }

    fn held(&self) -> usize {
        0
    }

    fn said(&self) -> Said {
        Said::Sentences
    }

    fn text(
        &self,
        alloc: Global,
        picture: &Picture<'_, '_, AnyWriters>,
    ) -> Result<Vec<u8>, AllocError> {
        text_lines(alloc, picture)
    }
}

impl Markup for Explained {
    ghost draws = { λ _. usual_lines };

    ghost holds = { 0 };

    ghost says = { λ markup. Whole markup.listed };

    ghost writes = { is_lines };

    fn part(&self) -> Window {
        Window::usual_lines()
    }

    fn held(&self) -> usize {
        0
    }

    fn said(&self) -> Said {
        Said::Whole(self.listed)
    }

    fn text(
        &self,
        alloc: Global,
        picture: &Picture<'_, '_, AnyWriters>,
    ) -> Result<Vec<u8>, AllocError> {
        explained_lines(alloc, picture)
    }
}
