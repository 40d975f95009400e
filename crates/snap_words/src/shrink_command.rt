//! The words of `shrink`, and its help.
ghost use Rattle.std.specs.Prelude.{◌≡◌, IfOk, false};
ghost use Rattle.clap.specs.Words.{app_of};
ghost use Rattle.clap.specs.declared.builder.command.Command.TheViews.{out-Command as fields_of};
ghost use Rattle.snap_words.specs.CommandLine.{shrink_app};

use crate::command::command_of;
use crate::word::{EVENTS, FILE, Takes, WRITERS, Word};
use clap::Command;
use std::alloc::{AllocError, Global};

const ABOUT: &str =
    "Reads a history from a file or standard input and writes a witness of its first fault to standard output";

const EXAMPLE: &str = "\
A witness is a history of at most four calls of the one that was read, with the same fault.
A call keeps its process, its value and its place before or behind the others; an update
becomes update 1 of its component, and a view shows what is left of what it showed. Of the
kinds of fault the first is taken, in the order integrity, proximity, read, write, and of
that kind the fault that `snapjudge check` prints. From the history

    event,process,op,data
    begin,0,update,0:1:7
    end,0,update,
    begin,0,update,0:2:8
    begin,1,view,
    end,1,view,0:2:8
    begin,2,view,
    end,2,view,0:1:7
    end,0,update,

it takes both views and update 0:2, which the second misses:

    event,process,op,data
    begin,0,update,0:1:8
    begin,1,view,
    end,1,view,0:1:8
    begin,2,view,
    end,2,view,
    end,0,update,

An atomic history has no fault, and is written as it is, without stamps.

With --draw the picture of that history is written in its place, by lines of characters as
`snapjudge draw --text` writes it. Below each call of a witness stands the number that it has
in the history that was read. A picture is not a history, so it can't be judged.

With --map a table is written in its place, with a line for each call of that history: its
number, its process, and the records of its begin and its end, and then those that the call
has in the history that was read. A pending call has no record of an end. Here the table is

    call,process,begin,end,of call,of process,of begin,of end
    1,0,2,7,2,0,4,9
    2,1,3,4,3,1,5,6
    3,2,5,6,4,2,7,8

Exit status, of the history that was read:
    0  it is atomic
    1  it is regular, and not atomic
    2  it is not regular
    3  the text is not a history: the one line that is written names the record and its fault
    4  reading, writing or memory failed, or the file can't be opened
    5  the words of the command line were not taken";

const WORDS: &[Word<'static>] = &[
    Word {
        id: "draw",
        long: Some("draw"),
        short: None,
        takes: Takes::Nothing,
        help: "Write the picture of the witness in its place",
    },
    Word {
        id: "map",
        long: Some("map"),
        short: None,
        takes: Takes::Nothing,
        help: "Write which calls of the history the witness keeps in its place",
    },
    EVENTS,
    WRITERS,
    FILE,
];

pub(crate) fn shrink_command<'a>(alloc: Global) -> Result<Command<'a>, AllocError>
    ensures { IfOk result (λ command. (app_of command ≡ shrink_app) × ((fields_of command).has_globals ≡ false)) }
{
    command_of(alloc, "shrink", ABOUT, EXAMPLE, WORDS)
}
