//! The words of `check`, and its help.
ghost use Rattle.std.specs.Prelude.{◌≡◌, IfOk, false};
ghost use Rattle.clap.specs.Words.{app_of};
ghost use Rattle.clap.specs.declared.builder.command.Command.TheViews.{out-Command as fields_of};
ghost use Rattle.snap_words.specs.CommandLine.{check_app};

use crate::command::command_of;
use crate::word::{CUT, EVENTS, FILES, NUMBER_LIMIT, Takes, WRITERS, Word};
use clap::Command;
use snap_core::EVENT_CAP;
use snap_threads::{PIECE_LIMIT, WORKER_LIMIT};
use std::alloc::{AllocError, Global};

const ABOUT: &str =
    "Reads a history from a file or standard input and writes its report to standard output";

const EXAMPLE: &str = "\
A history is a text of records, one event each, under a header:

    event,process,op,data
    begin,0,update,0:1:7
    end,0,update,
    begin,1,view,
    end,1,view,0:1:7

Process 0 writes the value 7 into component 0, as its update 1; process 1 then takes a
view, and sees it. An update begins with COMPONENT:NUMBER:VALUE, a view ends with what it
shows, entries of the same form with spaces between. `snapjudge check history.csv` prints:

    events 4 calls 2 pending 0 views 1
    regular yes
    monotone yes
    atomic yes
    order 2
    1 p0 update 0:1:7
    2 p1 view 0:1:7

An atomic history's report ends with an order of its calls that explains every view. Any
other history's report ends with a line for each kind of fault: how many there are, and
the first one.

With --quiet it prints only the lines of the three verdicts, or the one line of a text that
is not a history. With --views N a history with fewer than N completed views has status 3:
nothing is printed, and standard error says so. So a script that judges runs does not take an
empty recording for a good one.

A history has at most 65,536 events, and its text 67,108,864 bytes. With --events N it may have N
events, up to 1,048,576, and its text N times 1,024 bytes. Memory and time rise with them.

A component has one writer. With --writers many each process may write it. Its updates are numbered
as they begin, may overlap, and end in the order of their numbers. Such a history is atomic if an
order of its calls explains every view and keeps the numbers of each component rising.

Of several files the reports stand in the order of the names. Each line has the file's name and
a colon before it, and the status is the greatest. A file that can't be opened or read counts
as 4: standard error says why, and the others are judged all the same.

With --format json each history is answered by one JSON object on a line, which has its file's
name. It holds the status, the verdicts and the first fault of each kind with its calls and
their records. A file that can't be read has an object too, with the reason. Not with --quiet.

With --format junit one document of JUnit answers for all files, for systems that read the results
of tests. It has a test case for each file. If the history is not atomic, or has too few views, the
case has a failure with the sentences of explain. A file that is refused or can't be read is an
error. The document comes once all files are judged. Not with --quiet.

With --summary the reports are left out. Once all files are judged it prints how many there are, and
how many have each status, with the first of them. Not with --quiet, and not with --format json or junit.

With --follow one recording is judged while it grows, window by window: a file, or all *.csv below a
folder. Each window ends at a moment at which no call is open, and the next one begins from what was
left. Each is answered by a line, and the sums come at the end. With --idle N that is when nothing has
come for N seconds. Records with stamps may come up to 1,000 records late, or N with --late N. Not
with --quiet, --format json or junit, or --summary, nor with --pieces, --workers or --color.

With --cut one history is judged whose updates a store numbered, such as by its revisions: of each component
a greater number is a later version. Updates without an end that no view shows are left out, and the others
are numbered 1, 2 and so on. The time of each is cut to what the order of the versions allows. Then the
history is judged as with --writers many. Only that, --quiet, --events and --no-progress go with it.

On a terminal a line on standard error shows how far it is, where there are more than 100 files or a
second has passed. --no-progress leaves it out. The verdicts have colours there, unless --color never
is asked for or the variable NO_COLOR is set. Elsewhere there is neither.

Exit status:
    0  the history is atomic
    1  it is regular, and not atomic
    2  it is not regular
    3  the text is not a history: the one line of the report names the record and its fault;
       or it has fewer completed views than --views asks for
    4  reading, writing or memory failed, or a file can't be opened
    5  the words of the command line were not taken";

const WORDS: &[Word<'static>] = &[
    Word {
        id: "pieces",
        long: Some("pieces"),
        short: None,
        takes: Takes::Number {
            name: "P",
            least: 1,
            most: PIECE_LIMIT as i64,
        },
        help: "Into how many pieces the views of a long history are cut, from 1 to 1024: where it is not given, 256, or 1 for one worker",
    },
    Word {
        id: "workers",
        long: Some("workers"),
        short: None,
        takes: Takes::Number {
            name: "W",
            least: 1,
            most: WORKER_LIMIT as i64,
        },
        help: "How many threads share the pieces, from 1 to 8: 2 where it is not given",
    },
    Word {
        id: "list",
        long: Some("files-from"),
        short: None,
        takes: Takes::Text { name: "LIST" },
        help: "Judge the files named in LIST too, one a line; - is standard input",
    },
    Word {
        id: "null",
        long: Some("null"),
        short: Some('0'),
        takes: Takes::Nothing,
        help: "The names in LIST end with a zero byte",
    },
    Word {
        id: "folder",
        long: Some("recursive"),
        short: Some('r'),
        takes: Takes::Text { name: "FOLDER" },
        help: "Judge all *.csv below FOLDER too, in the order of their names",
    },
    Word {
        id: "quiet",
        long: Some("quiet"),
        short: Some('q'),
        takes: Takes::Nothing,
        help: "Write the lines of the verdicts alone",
    },
    Word {
        id: "views",
        long: Some("views"),
        short: None,
        takes: Takes::NumberOr {
            name: "N",
            least: 0,
            most: NUMBER_LIMIT as i64,
            usual: "0",
        },
        help: "How many completed views the history must have, from 0 to half of its events: 32768",
    },
    EVENTS,
    WRITERS,
    Word {
        id: "format",
        long: Some("format"),
        short: None,
        takes: Takes::TextOr {
            name: "FORMAT",
            usual: "plain",
        },
        help: "Write reports, a JSON object for each history, or a document of JUnit: plain, json or junit",
    },
    Word {
        id: "summary",
        long: Some("summary"),
        short: None,
        takes: Takes::Nothing,
        help: "Write how many files have each status, and the first of them, in place of reports",
    },
    Word {
        id: "follow",
        long: Some("follow"),
        short: None,
        takes: Takes::Nothing,
        help: "Judge one recording while it grows, window by window",
    },
    Word {
        id: "window",
        long: Some("window"),
        short: None,
        takes: Takes::Number {
            name: "N",
            least: 1,
            most: EVENT_CAP as i64,
        },
        help: "With --follow, end a window at the first moment without an open call from N events on: 1000, or half of --events if that is less",
    },
    Word {
        id: "idle",
        long: Some("idle"),
        short: None,
        takes: Takes::Number {
            name: "SECONDS",
            least: 0,
            most: NUMBER_LIMIT as i64,
        },
        help: "With --follow, end once nothing has come for so long; else, and of 0, wait for ever",
    },
    Word {
        id: "late",
        long: Some("late"),
        short: None,
        takes: Takes::Number {
            name: "N",
            least: 0,
            most: EVENT_CAP as i64,
        },
        help: "With --follow, let N records with stamps wait, so that a record may come so many records late: 1000 where it is not given",
    },
    CUT,
    Word {
        id: "no-progress",
        long: Some("no-progress"),
        short: None,
        takes: Takes::Nothing,
        help: "Do not show on a terminal how far it is",
    },
    Word {
        id: "color",
        long: Some("color"),
        short: None,
        takes: Takes::Text { name: "WHEN" },
        help: "Colour the verdicts: auto, always or never. Without it, and of auto, they have colours on a terminal",
    },
    FILES,
];

pub(crate) fn check_command<'a>(alloc: Global) -> Result<Command<'a>, AllocError>
    ensures { IfOk result (λ command. (app_of command ≡ check_app) × ((fields_of command).has_globals ≡ false)) }
{
    command_of(alloc, "check", ABOUT, EXAMPLE, WORDS)
}
