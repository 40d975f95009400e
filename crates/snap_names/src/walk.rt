//! The recordings below a folder.
ghost use Rattle.std.specs.Prelude.{◌≡◌, ◌<◌, ◌++◌, [], IfErr, IfOk, OnOk, flat_map, length, option_map, slice_index_or};
ghost use Rattle.snap_names.specs.Lists.{byte_lists};
ghost use Rattle.snap_names.specs.Walks.{EndsWalk, IsWalk, found_in, found_listed, inner_in, inner_listed, is_taken, path_in};

use crate::fault::NamesFault;
use crate::folders::{Entry, Folders, Kind};
use crate::list::add_name;
use std::alloc::{AllocError, Global};

/// The greatest number of folders that one walk lists, the first included.
pub const FOLDER_LIMIT: usize = 1_048_576;

/// The path of what a folder has under a name.
pub(crate) fn path_in(alloc: Global, folder: &[u8], name: &[u8]) -> Result<Vec<u8>, AllocError>
    ensures { IfOk result (λ path. path.items ≡ path_in folder.now name.now) }
{
    let mut path = Vec::from_slice(alloc, folder)?;
    if !folder.ends_with(b"/") {
        path.push(b'/')?;
    }
    path.extend_from_slice(name)?;
    Ok(path)
}

impl Entry {
    // Whether the name is one of a recording. An entry of unknown kind is taken too, so that nothing is lost.
    fn is_taken(&self) -> bool
        ensures { result ≡ is_taken self.now }
    {
        match self.kind {
            Kind::File => self.name.ends_with(b".csv"),
            Kind::Unknown => true,
            Kind::Folder | Kind::Link | Kind::Other => false,
        }
    }
}

// Adds the folders in a folder to the waiting ones, and the recordings in it to the names.
fn take_entries(
    alloc: Global,
    folder: &[u8],
    entries: &[Entry],
    waiting: &mut Vec<Vec<u8>>,
    names: &mut Vec<Vec<u8>>,
) -> Result<(), AllocError>
    ensures waiting { OnOk result (byte_lists waiting.new.items ≡ byte_lists waiting.old.items ++ flat_map (inner_in folder.now) entries.now) }
    ensures names { OnOk result (byte_lists names.new.items ≡ byte_lists names.old.items ++ flat_map (found_in folder.now) entries.now) }
{
    for entry in entries {
        if entry.kind == Kind::Folder {
            waiting.push(path_in(alloc, folder, &entry.name)?)?;
        }
        if entry.is_taken() {
            names.push(path_in(alloc, folder, &entry.name)?)?;
        }
    }
    Ok(())
}

// Adds what a listing of a folder has, as `take_entries`. A folder that can't be listed is added to the names itself.
fn take_listing(
    alloc: Global,
    folder: &[u8],
    listing: &Option<Vec<Entry>>,
    waiting: &mut Vec<Vec<u8>>,
    names: &mut Vec<Vec<u8>>,
) -> Result<(), AllocError>
    ensures waiting { OnOk result (byte_lists waiting.new.items ≡ byte_lists waiting.old.items ++ inner_listed folder.now (option_map (λ entries. entries.items) listing.now)) }
    ensures names { OnOk result (byte_lists names.new.items ≡ byte_lists names.old.items ++ found_listed folder.now (option_map (λ entries. entries.items) listing.now)) }
{
    match listing {
        Some(entries) => take_entries(alloc, folder, entries, waiting, names),
        None => add_name(alloc, names, folder),
    }
}

// A copy of the name at a place.
fn copy_at(alloc: Global, names: &[Vec<u8>], at: usize) -> Result<Vec<u8>, AllocError>
    requires { at < length names.now }
    ensures { IfOk result (λ copy. copy.items ≡ slice_index_or (byte_lists names.now) at []) }
{
    Vec::from_slice(alloc, &names[at])
}

/// The names of the recordings below a folder, in the order of their bytes. A folder that can't be listed is one of the names,
/// so that a check says why. A link to a folder is not followed. Only more than `FOLDER_LIMIT` folders are refused.
pub fn names_below<F: Folders>(
    alloc: Global,
    folders: &F,
    start: &[u8],
) -> Result<Vec<Vec<u8>>, NamesFault>
    ensures walk { IfOk result (λ names. IsWalk (F.lists folders.now) start.now names.items) }
    ensures refused { IfErr result (λ why. EndsWalk (F.lists folders.now) start.now why) }
{
    let mut waiting = Vec::new(alloc);
    let mut names = Vec::new(alloc);
    add_name(alloc, &mut waiting, start)?;
    let mut at = 0;
    while at < waiting.len() {
        if at == FOLDER_LIMIT {
            return Err(NamesFault::TooManyFolders);
        }
        let copy = copy_at(alloc, &waiting, at)?;
        let folder = copy.as_slice();
        let listing = folders.list(alloc, folder)?;
        take_listing(alloc, folder, &listing, &mut waiting, &mut names)?;
        at += 1;
    }
    names.sort_unstable();
    Ok(names)
}
