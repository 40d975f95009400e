//! The names that a check takes from a list and from below a folder.
use crate::failure::Failure;
use crate::files::open_named;
use snap_core::Counted;
use snap_names::{NamesFault, SystemFolders, names_below, read_names, reason_line};
use snap_words::{Input, names_input_twice};

/// Says a reason about a name.
pub(crate) fn say(rt: &HostRuntime, name: &[u8], reason: &str) {
    let mut errors = Counted::new(rt.stderr());
    if let Ok(line) = reason_line(rt.alloc(), name, reason) {
        let _ = errors.send(&line);
    }
}

fn say_fault(rt: &HostRuntime, name: &[u8], fault: &NamesFault) -> Failure {
    if let Ok(reason) = format!(in rt.alloc(); "{fault}") {
        say(rt, name, &reason);
    }
    Failure::Unopened
}

/// Says that there are no recordings.
pub(crate) fn say_none(rt: &HostRuntime) -> Failure {
    let _ = eprintln!(rt; "snapjudge: there are no recordings");
    Failure::Unopened
}

// Adds the names in a list to some names.
fn add_list(
    rt: &HostRuntime,
    names: &mut Vec<Vec<u8>>,
    list: &[u8],
    null: bool,
) -> Result<(), Failure> {
    let text = open_named(rt, list)?;
    match read_names(rt.alloc(), text, if null { 0 } else { b'\n' }) {
        Ok(mut listed) => Ok(names.append(&mut listed)?),
        Err(fault) => Err(say_fault(rt, list, &fault)),
    }
}

// Adds the names of the recordings below a folder to some names.
fn add_folder(rt: &HostRuntime, names: &mut Vec<Vec<u8>>, folder: &[u8]) -> Result<(), Failure> {
    let folders = SystemFolders { files: rt };
    match names_below(rt.alloc(), &folders, folder) {
        Ok(mut below) => Ok(names.append(&mut below)?),
        Err(fault) => Err(say_fault(rt, folder, &fault)),
    }
}

// Adds the names in the list of an input. It says if standard input is named twice.
fn add_listed(
    rt: &HostRuntime,
    names: &mut Vec<Vec<u8>>,
    list: &Option<Vec<u8>>,
    null: bool,
) -> Result<(), Failure> {
    let Some(name) = list else {
        return Ok(());
    };
    add_list(rt, names, name, null)?;
    if names_input_twice(names, list) {
        say(rt, name, "- is standard input, and can be named once");
        return Err(Failure::Unopened);
    }
    Ok(())
}

/// The names among the words, then those in the list, then those below the folder. It says if there is none at all.
pub fn names_of(rt: &HostRuntime, input: Input) -> Result<Vec<Vec<u8>>, Failure> {
    let Input {
        files: mut names,
        list,
        null,
        folder,
    } = input;
    add_listed(rt, &mut names, &list, null)?;
    if let Some(folder) = &folder {
        add_folder(rt, &mut names, folder)?;
    }
    if names.is_empty() {
        return Err(say_none(rt));
    }
    Ok(names)
}
