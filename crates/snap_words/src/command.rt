//! The commands of the program, and its help.
ghost use Rattle.std.specs.Prelude.{◌≡◌, IfOk, codes, false, map};
ghost use Rattle.clap.specs.Words.{app_of, new_app};
ghost use Rattle.clap.specs.declared.builder.command.Command.TheViews.{out-Command as fields_of};
ghost use Rattle.snap_words.specs.CommandLine.{app_for, needs_subcommand, program_app};
ghost use Rattle.snap_words.specs.inside.Tables.{rule_in};
ghost use Rattle.snap_words.specs.Tables.{with_rules};

use crate::check_command::check_command;
use crate::draw_command::draw_command;
use crate::explain_command::explain_command;
use crate::record_command::record_command;
use crate::shrink_command::shrink_command;
use crate::stats_command::stats_command;
use crate::word::{Word, argument_of};
use clap::Command;
use std::alloc::{AllocError, Global};

#[derive(Clone, Copy)]
enum Kind {
    Check,
    Shrink,
    Explain,
    Draw,
    Stats,
    Record,
}

// All commands, in the order in which the help names them.
const KINDS: &[Kind] = &[
    Kind::Check,
    Kind::Shrink,
    Kind::Explain,
    Kind::Draw,
    Kind::Stats,
    Kind::Record,
];

const ABOUT: &str =
    "Judges a recorded history of a single-writer board: is it regular, is it atomic, and why not?";

const EXAMPLES: &str = "\
Examples:
    snapjudge record --rounds 4 > run.csv             record a run of two threads
    snapjudge check run.csv                           judge it
    snapjudge check first.csv second.csv              judge each, with the file's name before each line
    snapjudge check --quiet --views 1 run.csv         the verdicts alone, of at least one view
    snapjudge check --summary runs/*.csv              how many there are of each verdict, and the first
    snapjudge check --follow --idle 60 grows.csv      judge one that still grows, window by window
    snapjudge check --cut store.csv                   judge one whose updates a store numbered as versions
    snapjudge shrink run.csv > witness.csv            cut it down to the calls of its first fault
    snapjudge explain run.csv                         say of its faults what happened, call by call
    snapjudge draw run.csv > run.html                 draw it as a page for a browser
    snapjudge stats run.csv                           count what of it overlaps

    snapjudge --version, snapjudge -V                 print the version";

// A command that takes further words.
fn with_words<'a>(
    alloc: Global,
    command: Command<'a>,
    words: &[Word<'a>],
) -> Result<Command<'a>, AllocError>
    requires { (fields_of command).has_globals ≡ false }
    ensures { IfOk result (λ with. (app_of with ≡ with_rules (app_of command.entry) (map rule_in words.entry.now)) × ((fields_of with).has_globals ≡ false)) }
{
    let mut command = command;
    for word in words {
        command = command.arg(argument_of(alloc, word))?;
    }
    Ok(command)
}

/// A command with its name, what its help says before and after its words, and these words.
pub(crate) fn command_of<'a>(
    alloc: Global,
    name: &'a str,
    about: &'a str,
    more: &'a str,
    words: &[Word<'a>],
) -> Result<Command<'a>, AllocError>
    ensures { IfOk result (λ command. (app_of command ≡ with_rules (new_app name.entry.now) (map rule_in words.entry.now)) × ((fields_of command).has_globals ≡ false)) }
{
    let command = Command::new(alloc, name).about(about).after_help(more);
    with_words(alloc, command, words)
}

fn command_for<'a>(alloc: Global, kind: Kind) -> Result<Command<'a>, AllocError>
    ensures { IfOk result (λ command. (app_of command ≡ app_for kind) × ((fields_of command).has_globals ≡ false)) }
{
    match kind {
        Kind::Check => check_command(alloc),
        Kind::Shrink => shrink_command(alloc),
        Kind::Explain => explain_command(alloc),
        Kind::Draw => draw_command(alloc),
        Kind::Stats => stats_command(alloc),
        Kind::Record => record_command(alloc),
    }
}

// The program without its commands.
fn bare_program<'a>(alloc: Global) -> Command<'a>
    ensures { app_of result ≡ needs_subcommand (new_app (codes "snapjudge")) }
{
    Command::new(alloc, "snapjudge")
        .about(ABOUT)
        .after_help(EXAMPLES)
        .subcommand_required(true)
}

/// The program, with its commands and their words.
pub(crate) fn program<'a>(alloc: Global) -> Result<Command<'a>, AllocError>
    ensures { IfOk result (λ command. app_of command ≡ program_app) }
{
    let mut program = bare_program(alloc);
    for kind in KINDS {
        let command = command_for(alloc, *kind)?;
        program = program.subcommand(command)?;
    }
    Ok(program)
}
