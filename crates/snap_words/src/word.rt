//! A word that a command takes, and the parser's argument for it.
ghost use Rattle.std.specs.Prelude.{◌≡◌, false};
ghost use Rattle.clap.specs.Words.{rule_of};
ghost use Rattle.snap_words.specs.inside.Tables.{named_rule, number_between, rule_in};

use clap::builder::ValueParser;
use clap::{Arg, ArgAction};
use snap_core::EVENT_CAP;
use std::alloc::Global;

/// What follows a word. The help has a name for it.
#[derive(Clone, Copy)]
pub(crate) enum Takes<'a> {
    /// Nothing: the word is a flag.
    Nothing,
    /// A text, if the word is given.
    Text {
        name: &'a str,
    },
    /// A text, which is the usual one if the word is not given.
    TextOr {
        name: &'a str,
        usual: &'a str,
    },
    /// Any number of texts.
    Texts {
        name: &'a str,
    },
    /// A number from the least to the most, if the word is given.
    Number {
        name: &'a str,
        least: i64,
        most: i64,
    },
    /// A number from the least to the most, which is the usual one if the word is not given.
    NumberOr {
        name: &'a str,
        least: i64,
        most: i64,
        usual: &'a str,
    },
}

/// A word that a command takes. One that is neither long nor short is only the text that follows.
#[derive(Clone, Copy)]
pub(crate) struct Word<'a> {
    /// The name by which a job asks for it.
    pub(crate) id: &'a str,
    /// Its spelling after two hyphens.
    pub(crate) long: Option<&'a str>,
    /// Its spelling after one hyphen.
    pub(crate) short: Option<char>,
    pub(crate) takes: Takes<'a>,
    pub(crate) help: &'a str,
}

/// The greatest number that a word can have.
pub(crate) const NUMBER_LIMIT: u32 = 4_294_967_295;

/// The limit of events of a command that reads a history.
pub(crate) const EVENTS: Word<'static> = Word {
    id: "events",
    long: Some("events"),
    short: None,
    takes: Takes::NumberOr {
        name: "N",
        least: 1,
        most: EVENT_CAP as i64,
        usual: "65536",
    },
    help: "How many events a history may have, from 1 to 1048576, of 1024 bytes of text each",
};

/// How many writers a component may have, of a command that reads a history.
pub(crate) const WRITERS: Word<'static> = Word {
    id: "writers",
    long: Some("writers"),
    short: None,
    takes: Takes::Text { name: "WRITERS" },
    help: "How many processes may write a component: one or many. Without it one; of many the updates may overlap, and end in the order of their numbers",
};

/// Whether the updates of a history are cut first, of a command that judges one.
pub(crate) const CUT: Word<'static> = Word {
    id: "cut",
    long: Some("cut"),
    short: None,
    takes: Takes::Nothing,
    help: "Cut the updates of a store with versions to the times that these allow, first",
};

/// The format of a command that writes lines or objects.
pub(crate) const FORMAT: Word<'static> = Word {
    id: "format",
    long: Some("format"),
    short: None,
    takes: Takes::TextOr {
        name: "FORMAT",
        usual: "plain",
    },
    help: "Write lines, or a JSON object for each history: plain or json",
};

/// The files of a command that takes several.
pub(crate) const FILES: Word<'static> = Word {
    id: "file",
    long: None,
    short: None,
    takes: Takes::Texts { name: "FILE" },
    help: "The histories; without one, and of -, standard input is read",
};

/// The file of a command that takes one.
pub(crate) const FILE: Word<'static> = Word {
    id: "file",
    long: None,
    short: None,
    takes: Takes::Text { name: "FILE" },
    help: "The history; without it, and of -, standard input is read",
};

// The argument of a word, without what follows it.
fn named_argument<'a>(alloc: Global, word: &Word<'a>) -> Arg<'a>
    ensures rule { rule_of result ≡ named_rule word.entry.now }
    ensures own { result.global ≡ false }
{
    let mut argument = Arg::new(alloc, word.id).help(word.help);
    if let Some(long) = word.long {
        argument = argument.long(long);
    }
    if let Some(short) = word.short {
        argument = argument.short(short);
    }
    argument
}

// The parser of a number of 32 bits from the least to the most.
fn number_parser<'a>(least: i64, most: i64) -> ValueParser<'a>
    ensures { result ≡ number_between least most }
{
    clap::value_parser!(u32).range(least..=most)
}

pub(crate) fn argument_of<'a>(alloc: Global, word: &Word<'a>) -> Arg<'a>
    ensures rule { rule_of result ≡ rule_in word.entry.now }
    ensures own { result.global ≡ false }
{
    let argument = named_argument(alloc, word);
    match word.takes {
        Takes::Nothing => argument.action(ArgAction::SetTrue),
        Takes::Text { name } => argument.value_name(name),
        Takes::TextOr { name, usual } => argument.value_name(name).default_value(usual),
        Takes::Texts { name } => argument.value_name(name).action(ArgAction::Append),
        Takes::Number { name, least, most } => argument
            .value_name(name)
            .value_parser(number_parser(least, most)),
        Takes::NumberOr {
            name,
            least,
            most,
            usual,
        } => argument
            .value_name(name)
            .value_parser(number_parser(least, most))
            .default_value(usual),
    }
}
