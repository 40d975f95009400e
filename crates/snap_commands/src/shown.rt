//! Whether the answers of a check have colours, and whether a line shows the progress.
use crate::progress::Progress;
use snap_words::{Color, Format, Options};
use std::env;
use std::env::VarError;
use std::io::IsTerminal;

// Whether the environment asks for no colours: its variable is set, and not to an empty text.
fn has_no_color(host: &HostRuntime) -> bool {
    match env::var(host, "NO_COLOR") {
        Ok(text) => !text.as_str().is_empty(),
        Err(VarError::NotPresent) => false,
        Err(_) => true,
    }
}

/// Whether the verdicts of reports have colours. Other formats have none.
pub fn in_colors(host: &HostRuntime, asked: Options) -> bool {
    match asked.color {
        _ if asked.format != Format::Plain => false,
        Color::Auto => host.stdout().is_terminal() && !has_no_color(host),
        Color::Always => true,
        Color::Never => false,
    }
}

/// The line of progress over this many files, if there is to be one.
pub fn progress_of(
    host: &HostRuntime,
    files: usize,
    asked: Options,
) -> Option<Progress<'_, HostRuntime>> {
    if asked.no_progress || !host.stderr().is_terminal() {
        return None;
    }
    Progress::new(host, host.alloc(), host.stderr(), files)
}
