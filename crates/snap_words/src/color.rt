//! The setting of colours of the verdicts, and the word for it.
ghost use Rattle.std.specs.Prelude.{◌≡◌, Some, codes};
ghost use Rattle.clap.specs.Words.{first_of, found_of, rows_of};
ghost use Rattle.snap_words.specs.Jobs.{SaysColor, color_text};
ghost use Rattle.snap_words.specs.declared.color.Color.{Color};

use clap::ArgMatches;

/// When the verdicts of reports have colours.
#[derive(Clone, Copy)]
pub enum Color {
    /// If standard output is a terminal, and the environment does not ask for none.
    Auto,
    /// Always.
    Always,
    /// Never.
    Never,
}

// The setting that a word names, or nothing if it is not known.
fn color_of(word: &str) -> Option<Color>
    ensures given { (color : Color) → word.now ≡ color_text color → result ≡ Some color }
{
    match word {
        "auto" => Some(Color::Auto),
        "always" => Some(Color::Always),
        "never" => Some(Color::Never),
        _ => None,
    }
}

/// The setting of colours that the options name, or nothing if the word is not known.
pub(crate) fn color_in(matches: &ArgMatches<'_>) -> Option<Color>
    ensures given { (color : Color) → SaysColor (first_of (codes "color") (rows_of (found_of matches.now))) color → result ≡ Some color }
{
    match matches.get_str("color") {
        Some(word) => color_of(word),
        None => Some(Color::Auto),
    }
}
