//! The words of `explain`, and its help.
ghost use Rattle.std.specs.Prelude.{◌≡◌, IfOk, false};
ghost use Rattle.clap.specs.Words.{app_of};
ghost use Rattle.clap.specs.declared.builder.command.Command.TheViews.{out-Command as fields_of};
ghost use Rattle.snap_words.specs.CommandLine.{explain_app};

use crate::command::command_of;
use crate::word::{CUT, EVENTS, FILE, Takes, WRITERS, Word};
use clap::Command;
use snap_options::FAULT_LIMIT;
use std::alloc::{AllocError, Global};

const ABOUT: &str =
    "Reads a history from a file or standard input and writes to standard output what its faults are, call by call";

const EXAMPLE: &str = "\
Of a history that is not atomic the first fault of each kind is told in a sentence, and below
it stands a line for each call concerned: its number in the order of begins, its process, the
records of its begin and its end, and what it wrote or showed. The header is record 1. From
the history

    event,process,op,data
    begin,0,update,0:1:7
    begin,1,view,
    end,1,view,0:1:7
    begin,2,view,
    end,2,view,
    end,0,update,

it makes

    regular, and not atomic
    read: view 2 shows more of component 0 than view 3, and had ended before that view began
      view 2 shows 0:1; view 3 shows 0:0
      call 2 of process 1, records 3 and 4: view 0:1:7
      call 3 of process 2, records 5 and 6: view
      call 1 of process 0, records 2 and 7: update 0:1:7

Of an atomic history it writes the calls in an order that explains each view. Of a text that
is not a history it says which rule is broken, and which record breaks it.

With --faults N it tells of more than one fault of a kind: of each kind the first fault of
each of the first N views that have one. The kinds come one after the other.

Of a view with more than 16 entries it lists those of the fault's components, and counts the
others. With --all it lists all.

With --cut it explains a history whose updates a store numbered, as `snapjudge check --cut` judges it.

With --draw it adds a picture of the calls concerned, and of calls that overlap them. The
picture is lines of characters, as `snapjudge draw --text` writes them.

Exit status:
    0  the history is atomic
    1  it is regular, and not atomic
    2  it is not regular
    3  the text is not a history: the first line names the record and its fault
    4  reading, writing or memory failed, or the file can't be opened
    5  the words of the command line were not taken";

const WORDS: &[Word<'static>] = &[
    CUT,
    Word {
        id: "draw",
        long: Some("draw"),
        short: None,
        takes: Takes::Nothing,
        help: "Write a picture of the calls below",
    },
    Word {
        id: "all",
        long: Some("all"),
        short: None,
        takes: Takes::Nothing,
        help: "List all entries of the views of a fault",
    },
    Word {
        id: "faults",
        long: Some("faults"),
        short: None,
        takes: Takes::NumberOr {
            name: "N",
            least: 1,
            most: FAULT_LIMIT as i64,
            usual: "1",
        },
        help: "Of how many views with a fault of a kind to tell, from 1 to 1000; not with --draw",
    },
    EVENTS,
    WRITERS,
    FILE,
];

pub(crate) fn explain_command<'a>(alloc: Global) -> Result<Command<'a>, AllocError>
    ensures { IfOk result (λ command. (app_of command ≡ explain_app) × ((fields_of command).has_globals ≡ false)) }
{
    command_of(alloc, "explain", ABOUT, EXAMPLE, WORDS)
}
