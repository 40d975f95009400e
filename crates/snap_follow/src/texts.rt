//! Where the texts of a recording come from.
ghost use Rattle.std.specs.Prelude.{⊤, ◌≡◌, ◌≢◌, ◌↔◌, ◌+◌, ℕ, List, [], Option, Some, None, IsTrue, IfErr, IfOk, IfSome, OnOk, MatchOption};
ghost use Rattle.snap_follow.specs.Texts.{Comes, IsShorter, OnLost, alone, taken};

use snap_names::{Lengths, Trouble};
use std::alloc::{AllocError, Global};
use std::io::Read;

/// Why no more text comes.
#[derive(Clone, Copy)]
pub enum Reason {
    /// The text can't be opened.
    Unopened(Trouble),
    /// A later name was read before this one came.
    Late,
    /// The text has changed since a later one began.
    Changed,
    /// The text at hand has become shorter.
    Shorter,
    /// There are too many folders.
    TooManyFolders,
}

/// A name at which a recording ends too soon.
#[derive(Drop)]
pub struct Lost {
    pub name: Vec<u8>,
    pub reason: Reason,
}

/// Why a recording has no next text.
#[derive(Drop)]
pub enum TextsFault {
    /// The recording ends at this name, for this reason.
    Lost(Lost),
    /// Memory ran out.
    Memory,
}

impl From<AllocError> for TextsFault {
    fn from(_error: AllocError) -> TextsFault {
        TextsFault::Memory
    }
}

/// A text of a recording.
#[derive(Drop)]
pub struct Opened<R> {
    /// The text, as a reader.
    pub text: R,
    /// Its name. None if the recording has only one text.
    pub name: Option<Vec<u8>>,
}

/// The texts of a recording, one after the other.
pub trait Texts {
    ghost use Rattle.snap_follow.specs.declared.texts.Lost.{Lost};

    type Text: Read + Drop;

    /// The bytes of the texts that are still to be opened, if they are known. Then no other text comes.
    ghost left: { Self → Option (List (List ℕ)) };

    /// The number of texts that were opened.
    ghost count: { Self → ℕ };

    /// A text was found after those that were opened.
    ghost waits: { Self → Type 0 };

    /// Texts may have been looked for.
    ghost looked: { Self → Type 0 };

    /// The recording may end too soon at this name, for this reason.
    ghost loses: { Self → Lost → Type 0 };

    /// Whether a text was found after those that were opened.
    fn has_next(&self) -> bool
        ensures known { IfSome (left self.now) (λ texts. IsTrue result ↔ (texts ≢ [])) }
        ensures found { IsTrue result ↔ waits self.now };

    /// Looks for texts that have come.
    fn look(&mut self, alloc: Global) -> Result<(), TextsFault>
        ensures known { OnOk result (IfSome (left self.old) (λ texts. left self.new ≡ Some texts)) }
        ensures same { OnOk result (count self.new ≡ count self.old) }
        ensures done { OnOk result (looked self.new) }
        ensures lost { IfErr result (OnLost (loses self.new)) };

    /// Opens the next text that was found, and leaves the one before it, of which `read` bytes were read. None if none was found.
    fn open_next(
        &mut self,
        alloc: Global,
        read: u64,
    ) -> Result<Option<Opened<Self::Text>>, TextsFault>
        ensures known { IfOk result (λ found. MatchOption found (IfSome (left self.old) (λ texts. texts ≡ [])) (λ opened. Comes (left self.old) (left self.new) (Self.Text.remaining opened.text))) }
        ensures counts { IfOk result (λ found. MatchOption found (self.new ≡ self.old) (λ _. count self.new ≡ count self.old + 1)) }
        ensures lost { IfErr result (OnLost (loses self.new)) };
}

// A name at which the recording ends.
pub(crate) fn lost_at(alloc: Global, name: &[u8], reason: Reason) -> TextsFault
    ensures { OnLost (λ lost. (lost.name.items ≡ name.now) × (lost.reason ≡ reason)) result }
{
    match Vec::from_slice(alloc, name) {
        Ok(name) => TextsFault::Lost(Lost { name, reason }),
        Err(_) => TextsFault::Memory,
    }
}

/// The greatest length in bytes that the text of a name has had.
#[derive(Clone, Copy)]
pub(crate) struct Longest {
    bytes: u64,
}

impl Longest {
    /// The length of nothing: 0 bytes.
    pub(crate) fn nothing() -> Longest {
        Longest { bytes: 0 }
    }

    /// The length that it has now. What has no length, as a pipe or a text that is not there, has 0 bytes.
    pub(crate) fn of<O: Lengths>(opener: &O, name: &[u8]) -> Longest {
        let bytes = opener.length(name).unwrap_or(0);
        Longest { bytes }
    }

    /// Reads the length that it has now. Answers whether that is less than before. A text that is gone is not shorter.
    pub(crate) fn has_shrunk<O: Lengths>(&mut self, opener: &O, name: &[u8]) -> bool {
        let Some(bytes) = opener.length(name) else {
            return false;
        };
        let has_shrunk = bytes < self.bytes;
        self.bytes = self.bytes.max(bytes);
        has_shrunk
    }
}

/// A recording that is the text of a name, which must not become shorter.
#[derive(Drop)]
pub struct FileText<'a, R, O> {
    text: OneText<R>,
    opener: &'a O,
    name: &'a [u8],
    longest: Longest,
}

impl<'a, R, O: Lengths> FileText<'a, R, O> {
    /// The recording that is this text, of this name.
    pub fn new(text: R, opener: &'a O, name: &'a [u8]) -> FileText<'a, R, O>
        ensures { result.text.text ≡ Some text }
    {
        let longest = Longest::of(opener, name);
        FileText {
            text: OneText::new(text),
            opener,
            name,
            longest,
        }
    }
}

impl<R: Read + Drop, O: Lengths> Texts for FileText<'_, R, O> {
    type Text = R;

    ghost left = { λ texts. alone R.remaining texts.text.text };

    ghost count = { λ texts. taken texts.text.text };

    ghost waits = { λ texts. texts.text.text ≢ None };

    ghost looked = { λ _. ⊤ };

    // only what has become shorter is lost
    ghost loses = { λ texts lost. IsShorter texts.name.now lost };

    fn has_next(&self) -> bool {
        self.text.has_next()
    }

    fn look(&mut self, alloc: Global) -> Result<(), TextsFault> {
        if self.longest.has_shrunk(self.opener, self.name) {
            return Err(lost_at(alloc, self.name, Reason::Shorter));
        }
        Ok(())
    }

    fn open_next(&mut self, alloc: Global, read: u64) -> Result<Option<Opened<R>>, TextsFault> {
        self.text.open_next(alloc, read)
    }
}

/// A recording that is one text.
#[derive(Drop)]
pub struct OneText<R> {
    text: Option<R>,
}

impl<R> OneText<R> {
    /// The recording that is this text.
    pub fn new(text: R) -> OneText<R>
        ensures { result.text ≡ Some text }
    {
        OneText { text: Some(text) }
    }
}

impl<R: Read + Drop> Texts for OneText<R> {
    type Text = R;

    ghost left = { λ texts. alone R.remaining texts.text };

    ghost count = { λ texts. taken texts.text };

    ghost waits = { λ texts. texts.text ≢ None };

    ghost looked = { λ _. ⊤ };

    ghost loses = { λ _ _. ⊥ };

    fn has_next(&self) -> bool {
        self.text.is_some()
    }

    fn look(&mut self, _alloc: Global) -> Result<(), TextsFault> {
        Ok(())
    }

    fn open_next(&mut self, _alloc: Global, _read: u64) -> Result<Option<Opened<R>>, TextsFault> {
        match self.text.take() {
            Some(text) => Ok(Some(Opened { text, name: None })),
            None => Ok(None),
        }
    }
}
