//! The names in lists, and those below folders from memory.
ghost use Rattle.std.specs.Prelude.{⊤};

use snap_names::{Entry, Folders, Kind, NamesFault, names_below, names_in, read_names};
use snap_testing::Drip;
use std::alloc::{AllocError, Global};
use std::test::Fail;

// Whether the names are exactly these.
fn are(names: &[Vec<u8>], wanted: &[&[u8]]) -> bool {
    if names.len() != wanted.len() {
        return false;
    }
    for (name, one) in names.iter().zip(wanted) {
        if name.as_slice() != *one {
            return false;
        }
    }
    true
}

// Lists, the bytes that end their names, and the names.
const LISTS: &[(&[u8], u8, &[&[u8]])] = &[
    (b"", b'\n', &[]),
    (b"a.csv", b'\n', &[b"a.csv"]),
    (b"a.csv\n", b'\n', &[b"a.csv"]),
    (b"a b\n-c\n\xff", b'\n', &[b"a b", b"-c", b"\xff"]),
    (b"a\nb\0c\0", 0, &[b"a\nb", b"c"]),
    (b"\r\n \n", b'\n', &[b"\r", b" "]),
];

#[test]
fn a_list_is_cut_at_its_ends(rt: HostRuntime) -> Result<(), Fail> {
    for (text, end, wanted) in LISTS {
        let Ok(names) = names_in(rt.alloc(), text, *end) else {
            return Err(Fail::from("a list is cut at its ends"));
        };
        if !are(&names, wanted) {
            return Err(Fail::from("a list is cut at its ends"));
        }
        let Ok(names) = read_names(rt.alloc(), Drip::new(text, 0), *end) else {
            return Err(Fail::from("a list is cut at its ends"));
        };
        if !are(&names, wanted) {
            return Err(Fail::from("a list is cut at its ends"));
        }
    }
    Ok(())
}

// Lists with an empty name, and the number of its line.
const LACKING: &[(&[u8], usize)] = &[
    (b"\n", 1),
    (b"\na", 1),
    (b"a\n\n", 2),
    (b"a\nb\n\nc\n\n", 3),
];

#[test]
fn the_first_empty_name_is_told(rt: HostRuntime) -> Result<(), Fail> {
    for (text, wanted) in LACKING {
        match names_in(rt.alloc(), text, b'\n') {
            Err(NamesFault::Empty(number)) if number == *wanted => {}
            _ => return Err(Fail::from("the first empty name is told")),
        }
    }
    Ok(())
}

#[test]
fn an_interrupted_read_of_a_list_is_tried_again(rt: HostRuntime) -> Result<(), Fail> {
    match read_names(rt.alloc(), Drip::new(b"a\nb\nc\n", 2), b'\n') {
        Ok(names) if are(&names, &[b"a", b"b", b"c"]) => Ok(()),
        _ => Err(Fail::from("the names were lost")),
    }
}

// A tree: `t/locked` can't be listed.
struct Tree;

const TREE: &[(&str, &[(&str, Kind)])] = &[
    (
        "t",
        &[
            ("b.csv", Kind::File),
            ("sub", Kind::Folder),
            ("locked", Kind::Folder),
            ("a.csv", Kind::File),
            ("a.txt", Kind::File),
            ("link.csv", Kind::Link),
            ("lost", Kind::Unknown),
            ("pipe.csv", Kind::Other),
            ("d.csv", Kind::Folder),
            ("empty", Kind::Folder),
        ],
    ),
    (
        "t/sub",
        &[
            ("sub-.csv", Kind::File),
            (".csv", Kind::File),
            ("csv", Kind::File),
        ],
    ),
    ("t/d.csv", &[("x.CSV", Kind::File), ("y.csv", Kind::File)]),
    ("t/empty", &[]),
    ("/", &[("a.csv", Kind::File)]),
];

impl Folders for Tree {
    ghost lists = { λ _ _ _. ⊤ };

    fn list(&self, alloc: Global, folder: &[u8]) -> Result<Option<Vec<Entry>>, AllocError> {
        for (path, names) in TREE {
            if path.as_bytes() == folder {
                let mut entries = Vec::new(alloc);
                for (name, kind) in *names {
                    let name = Vec::from_slice(alloc, name.as_bytes())?;
                    entries.push(Entry { name, kind: *kind })?;
                }
                return Ok(Some(entries));
            }
        }
        Ok(None)
    }
}

// Folders of the tree, and the names below them.
const BELOW: &[(&[u8], &[&[u8]])] = &[
    (
        b"t",
        &[
            b"t/a.csv",
            b"t/b.csv",
            b"t/d.csv/y.csv",
            b"t/locked",
            b"t/lost",
            b"t/sub/.csv",
            b"t/sub/sub-.csv",
        ],
    ),
    (b"t/empty", &[]),
    (b"none", &[b"none"]),
    (b"/", &[b"/a.csv"]),
];

#[test]
fn names_below_a_folder_stand_in_order(rt: HostRuntime) -> Result<(), Fail> {
    for (folder, wanted) in BELOW {
        let Ok(names) = names_below(rt.alloc(), &Tree, folder) else {
            return Err(Fail::from("names below a folder stand in order"));
        };
        if !are(&names, wanted) {
            return Err(Fail::from("names below a folder stand in order"));
        }
    }
    Ok(())
}
