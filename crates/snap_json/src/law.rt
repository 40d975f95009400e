//! A law of names.
ghost use Rattle.snap_json.specs.Laws.{HasOneName};

/// No two names have the same line: the escapes of a name can be undone.
pub fn one_name()
    ensures { HasOneName }
{}
