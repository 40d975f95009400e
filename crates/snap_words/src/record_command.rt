//! The words of `record`, and its help.
ghost use Rattle.std.specs.Prelude.{◌≡◌, IfOk, false};
ghost use Rattle.clap.specs.Words.{app_of};
ghost use Rattle.clap.specs.declared.builder.command.Command.TheViews.{out-Command as fields_of};
ghost use Rattle.snap_words.specs.CommandLine.{record_app};

use crate::command::command_of;
use crate::ranges::ROUND_EVENTS;
use crate::word::{NUMBER_LIMIT, Takes, Word};
use clap::Command;
use snap_core::EVENT_CAP;
use snap_record::{LEAST_WORKERS, WORKER_LIMIT};
use std::alloc::{AllocError, Global};

const ABOUT: &str =
    "Records the history of a running board and writes it, or its report, to standard output";

const EXAMPLE: &str = "\
W threads work on a board of atomic words, one word for each. Worker w, counted from 0, does
in each round i, counted from 1, a store of the value w * 65536 + i to its word, and then a
view, which reads the words one by one. The history has a begin and an end of each of these
calls, in the order in which they were stamped: it is always regular, and atomic or not as
the run went. `snapjudge record --rounds 1` prints, in one of its runs:

    event,process,op,data
    begin,0,update,0:1:1
    end,0,update,
    begin,0,view,
    begin,1,update,1:1:65537
    end,0,view,0:1:1
    end,1,update,
    begin,1,view,
    end,1,view,0:1:1 1:1:65537

With --scan a worker scans in place of taking a view: it reads all words again and again, and
draws a stamp between two readings, until two readings in a row are equal; this equal reading
is its view. The history is then always atomic. A scan that has found none after 64 stamps is
left out.

Within some calls a thread gives up its turn, so that calls overlap: before one of the readings
of a view, and before or after the write of a store. --seed N draws where, by the stamp of the
call. Another N draws other places. The same N draws the same places for the same stamps. It may
bring a run back, but need not: the system decides when threads run.

With --judge it prints the history's report in place of the history: see
`snapjudge check --help`. With --stamped each record has its event's stamp before the other
fields, and the header the word at. Not both can be asked for.

There are at most 2,048 rounds, of four events for each of eight workers. With --events N there
may be N / 32 rounds, and without --rounds there are no more than that. To judge such a history,
give `snapjudge check` the same N.

Exit status:
    0  the history was written, or with --judge it is atomic
    1  with --judge: it is regular, and not atomic
    4  writing or memory failed
    5  the words of the command line were not taken";

const WORDS: &[Word<'static>] = &[
    Word {
        id: "workers",
        long: Some("workers"),
        short: None,
        takes: Takes::NumberOr {
            name: "W",
            least: LEAST_WORKERS as i64,
            most: WORKER_LIMIT as i64,
            usual: "2",
        },
        help: "How many threads work on the board, each with a word of its own",
    },
    Word {
        id: "rounds",
        long: Some("rounds"),
        short: None,
        takes: Takes::Number {
            name: "R",
            least: 0,
            most: NUMBER_LIMIT as i64,
        },
        help: "In how many rounds each of them stores and views, from 1 to a 32nd of the events, which is 2048: 16, or a 32nd of --events if that is less",
    },
    Word {
        id: "events",
        long: Some("events"),
        short: None,
        takes: Takes::NumberOr {
            name: "N",
            least: ROUND_EVENTS as i64,
            most: EVENT_CAP as i64,
            usual: "65536",
        },
        help: "How many events a history may have, from 32 to 1048576, of 1024 bytes of text each",
    },
    Word {
        id: "seed",
        long: Some("seed"),
        short: None,
        takes: Takes::NumberOr {
            name: "N",
            least: 0,
            most: NUMBER_LIMIT as i64,
            usual: "0",
        },
        help: "Which places within calls a thread gives up its turn at, from 0 to 4294967295",
    },
    Word {
        id: "judge",
        long: Some("judge"),
        short: None,
        takes: Takes::Nothing,
        help: "Write the report of the history, and not the history",
    },
    Word {
        id: "scan",
        long: Some("scan"),
        short: None,
        takes: Takes::Nothing,
        help: "Scan in place of each view",
    },
    Word {
        id: "stamped",
        long: Some("stamped"),
        short: None,
        takes: Takes::Nothing,
        help: "Write the stamp of each event before it; not with --judge",
    },
];

pub(crate) fn record_command<'a>(alloc: Global) -> Result<Command<'a>, AllocError>
    ensures { IfOk result (λ command. (app_of command ≡ record_app) × ((fields_of command).has_globals ≡ false)) }
{
    command_of(alloc, "record", ABOUT, EXAMPLE, WORDS)
}
