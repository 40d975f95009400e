//! What the options of a check mean for each of its files.
ghost use Rattle.std.specs.Prelude.{◌≡◌};
ghost use Rattle.snapjudge.specs.Checks.{options_of};

use snap_core::Limit;
use snap_files::FileOptions;
use snap_words::{Format, Options};

/// The options for each file of a check with these options. Those for a document are those for reports.
pub(crate) fn file_options(limit: Limit, asked: Options) -> FileOptions
    ensures { result ≡ options_of limit asked }
{
    let json = asked.format == Format::Json;
    FileOptions::new(json, asked.quiet, asked.views, limit, asked.finer)
}
