//! The words of `draw`, and its help.
ghost use Rattle.std.specs.Prelude.{◌≡◌, IfOk, false};
ghost use Rattle.clap.specs.Words.{app_of};
ghost use Rattle.clap.specs.declared.builder.command.Command.TheViews.{out-Command as fields_of};
ghost use Rattle.snap_words.specs.CommandLine.{draw_app};

use crate::command::command_of;
use crate::word::{EVENTS, FILE, Takes, WRITERS, Word};
use clap::Command;
use snap_core::EVENT_CAP;
use snap_options::MOST_CALLS;
use std::alloc::{AllocError, Global};

const ABOUT: &str =
    "Reads a history from a file or standard input and writes a picture of it to standard output";

const EXAMPLE: &str = "\
The picture is a page for a browser, which needs no other file. Each process has a lane, and
each call a bar from its begin to its end. The calls of the first fault of each kind are
marked, and a sentence says what the fault is. Where the history is atomic, a line leads
through the points at which its calls take effect. A call that is chosen on the page is shown
with its records.

Of a history of more than 60 calls a window of 60 is drawn: the calls of the first faults, and
the first others that overlap one of them. Where there is no fault, these are the first calls.
--calls chooses another number, from 1 to 2000. --from begins the window with a call, and --around
has half of the window before the call. Calls have the numbers that a report and a picture show.
A page of a longer history holds up to 2000 calls, and goes through them window by window.

With --svg only the picture is written, without the page around it, as for a document. With
--text the picture is made of lines of characters, as for a terminal or a mail, of at most 12
calls. An update stands between [ ], a view between ( ), and a pending call ends in >. A call of
a first fault has an exclamation mark, and below it stands the kind of the fault; of an atomic
history the place of each call in the printed order stands there. What is wrong is said below.

A page is light or dark as the reader's system is, and --svg is light. With --light or --dark
either is so always. For a picture in dots, `rsvg-convert run.svg > run.png` makes one.

    snapjudge draw run.csv > run.html
    snapjudge draw --svg run.csv > run.svg
    snapjudge draw --text run.csv
    snapjudge draw --around 1234 run.csv > run.html

Exit status:
    0  the history is atomic
    1  it is regular, and not atomic
    2  it is not regular
    3  the text is not a history: the one line that is written names the record and its fault
    4  reading, writing or memory failed, or the file can't be opened
    5  the words of the command line were not taken, or the history has no call of that number";

const WORDS: &[Word<'static>] = &[
    Word {
        id: "svg",
        long: Some("svg"),
        short: None,
        takes: Takes::Nothing,
        help: "Write the picture as SVG, without a page around it",
    },
    Word {
        id: "text",
        long: Some("text"),
        short: None,
        takes: Takes::Nothing,
        help: "Write the picture as lines of characters; not with --svg",
    },
    Word {
        id: "light",
        long: Some("light"),
        short: None,
        takes: Takes::Nothing,
        help: "Draw with dark ink on a light ground; not with --text",
    },
    Word {
        id: "dark",
        long: Some("dark"),
        short: None,
        takes: Takes::Nothing,
        help: "Draw with light ink on a dark ground; not with --light or --text",
    },
    Word {
        id: "calls",
        long: Some("calls"),
        short: None,
        takes: Takes::Number {
            name: "N",
            least: 1,
            most: MOST_CALLS as i64,
        },
        help: "How many calls a window has, from 1 to 2000, or with --text to 12",
    },
    Word {
        id: "from",
        long: Some("from"),
        short: None,
        takes: Takes::Number {
            name: "CALL",
            least: 1,
            most: EVENT_CAP as i64,
        },
        help: "Begin the window with this call",
    },
    Word {
        id: "around",
        long: Some("around"),
        short: None,
        takes: Takes::Number {
            name: "CALL",
            least: 1,
            most: EVENT_CAP as i64,
        },
        help: "Draw the calls around this one; not with --from",
    },
    EVENTS,
    WRITERS,
    FILE,
];

pub(crate) fn draw_command<'a>(alloc: Global) -> Result<Command<'a>, AllocError>
    ensures { IfOk result (λ command. (app_of command ≡ draw_app) × ((fields_of command).has_globals ≡ false)) }
{
    command_of(alloc, "draw", ABOUT, EXAMPLE, WORDS)
}
