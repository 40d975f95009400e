//! The opener of the files that are named.
use crate::failure::Failure;
use snap_core::Counted;
use snap_names::{Opener, System, SystemText, Trouble, trouble_line};
use std::fs::File;

/// The opener of the files of the system.
pub fn system(rt: &HostRuntime) -> System<'_, HostRuntime> {
    System {
        files: rt,
        input: rt.stdin(),
    }
}

/// The text of a file, or of standard input if it is absent. It says why it can't be opened.
pub fn open_only(rt: &HostRuntime, file: &Option<Vec<u8>>) -> Result<SystemText<File>, Failure> {
    match file {
        Some(name) => open_named(rt, name),
        None => open_named(rt, b"-"),
    }
}

/// Says why a name can't be opened or read.
pub(crate) fn say_trouble(rt: &HostRuntime, name: &[u8], trouble: Trouble) {
    let mut errors = Counted::new(rt.stderr());
    if let Ok(line) = trouble_line(rt.alloc(), name, trouble) {
        let _ = errors.send(&line);
    }
}

/// The text of a name. It says why it can't be opened.
pub(crate) fn open_named(rt: &HostRuntime, name: &[u8]) -> Result<SystemText<File>, Failure> {
    match system(rt).open(name) {
        Ok(text) => Ok(text),
        Err(trouble) => {
            say_trouble(rt, name, trouble);
            Err(Failure::Unopened)
        }
    }
}
