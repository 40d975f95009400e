//! The number of files with each exit status, and the first of them.
ghost use Rattle.std.specs.Prelude.{◌≡◌, ◌++◌, ◌+◌, ◌<◌, ◌^◌, ◌∷◌, [], ℕ, List, IfOk, OnOk, find, map, length, vec_items};
ghost use Rattle.snap_files.specs.inside.Sums.{AreSums, IsFirst, IsKind, greatest_of};
ghost use Rattle.snap_files.specs.Sums.{Judged, first_text, has_code, kind_text, sums_text, with_code};

use snap_names::put_shown;
use snap_report::put_number;
use std::alloc::{AllocError, Global};

/// The number of files with an exit status, and the place of the first of them among the names.
#[derive(Clone, Copy)]
pub(crate) struct Kind {
    code: u8,
    files: usize,
    first: Option<usize>,
}

impl Kind {
    // No file has this exit status.
    fn none_of(code: u8) -> Kind
        ensures { IsKind code [] result }
    {
        Kind {
            code,
            files: 0,
            first: None,
        }
    }

    // Counts the file at a place, if it has the exit status of this kind.
    fn add(&mut self, place: usize, code: u8)
        ensures { (kind : ℕ) (files : List Judged) (name : List ℕ) → place ≡ length files → length files + 1 < 2 ^ 64
            → IsKind kind files self.old → IsKind kind (files ++ with_code name code ∷ []) self.new }
    {
        if code == self.code {
            self.files = self.files.saturating_add(1);
            self.first = self.first.or(Some(place));
        }
    }
}

// Adds the first file of a kind.
fn put_first(out: &mut Vec<u8>, first: Option<usize>, names: &[Vec<u8>]) -> Result<(), AllocError>
    ensures { (code : ℕ) (files : List Judged) → map (λ file. file.name) files ≡ map vec_items names.now → IsFirst code files first
        → OnOk result (out.new.items ≡ out.old.items ++ first_text (find (has_code code) files)) }
{
    let Some(place) = first else {
        return Ok(());
    };
    let Some(name) = names.get(place) else {
        return Ok(());
    };
    out.extend_from_slice(b" first ")?;
    put_shown(out, name)
}

fn put_kind(out: &mut Vec<u8>, word: &[u8], kind: Kind, names: &[Vec<u8>]) -> Result<(), AllocError>
    ensures { (code : ℕ) (files : List Judged) → map (λ file. file.name) files ≡ map vec_items names.now → IsKind code files kind
        → OnOk result (out.new.items ≡ out.old.items ++ kind_text word.now code files) }
{
    put_number(out, word, kind.files as u64)?;
    put_first(out, kind.first, names)?;
    Ok(out.push(b'\n')?)
}

/// The number of files, the greatest of their exit statuses, and the number of files with each.
#[derive(Clone, Copy)]
pub(crate) struct Sums {
    files: usize,
    greatest: u8,
    atomic: Kind,
    only_regular: Kind,
    not_regular: Kind,
    refused: Kind,
    failed: Kind,
}

impl Sums {
    /// No file.
    pub(crate) fn new() -> Sums
        ensures { AreSums [] result }
    {
        Sums {
            files: 0,
            greatest: 0,
            atomic: Kind::none_of(0),
            only_regular: Kind::none_of(1),
            not_regular: Kind::none_of(2),
            refused: Kind::none_of(3),
            failed: Kind::none_of(4),
        }
    }

    /// Counts the next file.
    pub(crate) fn add(&mut self, code: u8)
        ensures { (files : List Judged) (name : List ℕ) → length files + 1 < 2 ^ 64 → AreSums files self.old → AreSums (files ++ with_code name code ∷ []) self.new }
    {
        let place = self.files;
        self.files = place.saturating_add(1);
        self.greatest = code.max(self.greatest);
        self.atomic.add(place, code);
        self.only_regular.add(place, code);
        self.not_regular.add(place, code);
        self.refused.add(place, code);
        self.failed.add(place, code);
    }

    /// The greatest exit status.
    pub(crate) fn greatest(&self) -> u8
        ensures { (files : List Judged) → AreSums files self.now → result ≡ greatest_of files }
    {
        self.greatest
    }

    /// The lines of the sums over these names.
    pub(crate) fn text(&self, alloc: Global, names: &[Vec<u8>]) -> Result<Vec<u8>, AllocError>
        ensures { (files : List Judged) → map (λ file. file.name) files ≡ map vec_items names.now → AreSums files self.now → IfOk result (λ text. text.items ≡ sums_text files) }
    {
        let mut out = Vec::new(alloc);
        put_number(&mut out, b"files ", self.files as u64)?;
        out.push(b'\n')?;
        put_kind(&mut out, b"atomic ", self.atomic, names)?;
        put_kind(&mut out, b"only-regular ", self.only_regular, names)?;
        put_kind(&mut out, b"not-regular ", self.not_regular, names)?;
        put_kind(&mut out, b"refused ", self.refused, names)?;
        put_kind(&mut out, b"failed ", self.failed, names)?;
        Ok(out)
    }
}
