//! The places of the standard streams.
use std::fs::File;
use std::os::fd::AsRawFd;

// The greatest descriptor of a standard stream.
const LAST_STREAM: i32 = 2;

/// What holds the place of a closed standard stream, if one is closed. Otherwise the next file would take that place, and be read
/// or written for the stream. A folder can be neither read nor written, so the stream still fails.
pub(crate) fn held_place(files: &HostRuntime) -> Option<File> {
    match File::open(files, "/") {
        Ok(folder) if folder.as_raw_fd() <= LAST_STREAM => Some(folder),
        _ => None,
    }
}
