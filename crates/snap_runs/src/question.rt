//! What may be asked of a text.

use snap_draw::Window;
use snap_explain::{Detail, Entries};
use snap_options::Scheme;

/// The name of a text as the system has it, and the number of completed views that its history needs.
#[derive(Clone, Copy)]
pub struct Named<'n> {
    pub name: &'n [u8],
    pub views: u32,
}

/// What may be asked of a text, besides its report. Each is what a command of the program writes.
#[derive(Clone, Copy)]
pub enum Question<'n> {
    /// Why is it not atomic, or not a history? The answer is `explain`'s. For an atomic history it is an order of its calls. Otherwise it
    /// has sentences for each kind of fault: one for the first fault of each of the first completed views that have one. Below a
    /// sentence is each call concerned, with the records of its begin and its end.
    Explanation(Detail),
    /// The answer of `explain --draw`, which lists these entries of the views of a fault: the explanation, and a picture below it.
    ExplanationDrawn(Entries),
    /// The answer of `check --format json`: the numbers and the verdicts of a history, and of each kind of fault the first, with its calls
    /// and their records. If the text is not a history, or has too few completed views, the object says so, and the status is `Refused`.
    /// U+FFFD replaces what is not UTF-8 in the name.
    Object(Named<'n>),
    /// The answer of `check --format junit`. The case of a history passes if it is atomic, and else it has a failure that explains it. If
    /// the history has too few completed views, there is no status, and its case has a failure that says so. The case of any other text
    /// has an error that explains its first fault.
    TestCase(Named<'n>),
    /// The answer of `shrink`: the text of a history that has the same first fault, of at most four of the calls, in at most eight events.
    /// An atomic history is written as it is, without stamps.
    Witness,
    /// The answer of `shrink --draw`: the picture of that witness, or of the history itself if it is atomic. Each call of a witness has its
    /// own number, and the one that it has in the history.
    WitnessDrawn,
    /// The answer of `shrink --map`: a header, and a line for each call of what `shrink` writes. A line has the number of the call, its
    /// process, and the records of its begin and its end in that text. The columns of the call of the history that it is made from
    /// follow. A pending call has no record of an end.
    WitnessMap,
    /// The answer of `draw`: a page with a window of the history, in a scheme or in that of the reader's system. There is no status, and
    /// nothing is written, if the history lacks the call that a window names.
    Page(Option<Scheme>, Window),
    /// The answer of `draw --svg`: the picture of a window, as SVG alone.
    Svg(Scheme, Window),
    /// The answer of `draw --text`: the picture of a window, in lines of characters.
    Lines(Window),
    /// What has the history shown? The answer is `stats`': an object with a name, or lines if none is given. Nothing is judged, so the
    /// status of a history is `Recorded`. U+FFFD replaces what is not UTF-8 in the name.
    Counts(Option<&'n [u8]>),
}
