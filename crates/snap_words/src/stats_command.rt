//! The words of `stats`, and its help.
ghost use Rattle.std.specs.Prelude.{◌≡◌, IfOk, false};
ghost use Rattle.clap.specs.Words.{app_of};
ghost use Rattle.clap.specs.declared.builder.command.Command.TheViews.{out-Command as fields_of};
ghost use Rattle.snap_words.specs.CommandLine.{stats_app};

use crate::command::command_of;
use crate::word::{EVENTS, FILES, FORMAT, WRITERS, Word};
use clap::Command;
use std::alloc::{AllocError, Global};

const ABOUT: &str =
    "Reads a history from a file or standard input and writes to standard output what the run has shown";

const EXAMPLE: &str = "\
It gives no verdict. It says whether a verdict is worth much: where no view overlaps an update,
a run shows nothing of concurrency, and a line at the end says so. From the history

    event,process,op,data
    begin,0,update,0:1:7
    begin,1,view,
    end,1,view,0:1:7
    begin,2,view,
    end,2,view,
    end,0,update,

it makes

    events 6
    calls 3
    pending 0
    views 2
    updates 1
    processes 3
    components 1
    views that overlap an update 2
    views that overlap another view 0
    views that overlap nothing 0
    updates that no view shows 0
    most calls open at once 2
    events of the longest call 6
    component 0 writer 0 updates 1 views 1

Two calls overlap where neither ends before the other begins. Views are completed views. A
call without an end is pending, and overlaps all that comes after its begin.

Of several files the counts stand in the order of the names. Each line has the file's name and a
colon before it, and the status is the greatest. A file that can't be opened or read counts as 4:
standard error says why, and the others are counted all the same.

Exit status:
    0  the history was counted
    3  the text is not a history: the one line that is written names the record and its fault
    4  reading, writing or memory failed, or a file can't be opened
    5  the words of the command line were not taken";

const WORDS: &[Word<'static>] = &[FORMAT, EVENTS, WRITERS, FILES];

pub(crate) fn stats_command<'a>(alloc: Global) -> Result<Command<'a>, AllocError>
    ensures { IfOk result (λ command. (app_of command ≡ stats_app) × ((fields_of command).has_globals ≡ false)) }
{
    command_of(alloc, "stats", ABOUT, EXAMPLE, WORDS)
}
