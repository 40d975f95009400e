//! A recording whose texts are below a folder.
ghost use Rattle.std.specs.Prelude.{⊤, ◌≡◌, ◌<◌, ◌^◌, ◌+◌, ◌-◌, IfOk, None, OnOk, length};
ghost use Rattle.snap_follow.specs.Texts.{WasListed};
ghost use Rattle.snap_follow.specs.inside.Folders.{KeepsFolder};
ghost use Rattle.snap_names.specs.Walks.{IsWalk};

use crate::texts::{Longest, Lost, Opened, Reason, Texts, TextsFault, lost_at};
use snap_names::{Folders, Lengths, NamesFault, Opener, Trouble, names_below};
use std::alloc::{AllocError, Global};

/// The texts below a folder, in the order of the bytes of their names. New ones may come after them.
#[derive(Drop)]
pub struct FolderTexts<'a, F, O> {
    folders: &'a F,
    opener: &'a O,
    folder: &'a [u8],
    // the names of the texts that were found, in their order, and the number of those that were opened
    names: Vec<Vec<u8>>,
    opened: usize,
    // the number of bytes that were read of each text that was left
    lengths: Vec<u64>,
    // the greatest length that the text at hand has had
    longest: Longest,
}

impl<'a, F, O> FolderTexts<'a, F, O> {
    /// The texts below a folder, none of which was opened.
    pub fn new(
        alloc: Global,
        folders: &'a F,
        opener: &'a O,
        folder: &'a [u8],
    ) -> FolderTexts<'a, F, O> {
        FolderTexts {
            folders,
            opener,
            folder,
            names: Vec::new(alloc),
            opened: 0,
            lengths: Vec::new(alloc),
            longest: Longest::nothing(),
        }
    }

    fn add_name(&mut self, name: Vec<u8>) -> Result<(), AllocError>
        ensures same { KeepsFolder self.old self.new }
    {
        Ok(self.names.push(name)?)
    }

    // Leaves the text at hand, of which `read` bytes were read, and goes on to the next.
    fn leave(&mut self, read: u64) -> Result<(), AllocError>
        ensures { OnOk result (self.old.opened < 2 ^ 64 - 1 → self.new.opened ≡ self.old.opened + 1) }
    {
        if self.opened > 0 {
            self.lengths.push(read)?;
        }
        self.opened = self.opened.saturating_add(1);
        Ok(())
    }
}

impl<F, O: Lengths> FolderTexts<'_, F, O> {
    // Refuses the text at hand if it has become shorter.
    fn check_longest(&mut self, alloc: Global) -> Result<(), TextsFault>
        ensures same { KeepsFolder self.old self.new }
    {
        let Some(before) = self.opened.checked_sub(1) else {
            return Ok(());
        };
        let Some(name) = self.names.get(before) else {
            return Ok(());
        };
        if self.longest.has_shrunk(self.opener, name) {
            return Err(lost_at(alloc, name, Reason::Shorter));
        }
        Ok(())
    }

    // Whether a text that was left has another length now.
    fn has_changed(&self, place: usize, name: &[u8]) -> bool {
        match (self.lengths.get(place), self.opener.length(name)) {
            (Some(read), Some(length)) => *read != length,
            _ => false,
        }
    }

    // Takes a name that was listed after those that were found.
    fn take_name(&mut self, alloc: Global, name: Vec<u8>) -> Result<(), TextsFault>
        ensures same { KeepsFolder self.old self.new }
    {
        // a folder that can't be listed is itself among the names, and so is what may not be a text
        if name.as_slice() == self.folder || !name.ends_with(b".csv") {
            return Err(lost_at(alloc, &name, Reason::Unopened(Trouble::Unopened)));
        }
        match self.names.binary_search(&name) {
            Ok(place) if self.has_changed(place, &name) => {
                Err(lost_at(alloc, &name, Reason::Changed))
            }
            Ok(_) => Ok(()),
            Err(place) if place < self.names.len() => Err(lost_at(alloc, &name, Reason::Late)),
            Err(_) => Ok(self.add_name(name)?),
        }
    }
}

impl<F: Folders, O> FolderTexts<'_, F, O> {
    // The names below the folder.
    fn listed(&self, alloc: Global) -> Result<Vec<Vec<u8>>, TextsFault>
        ensures { IfOk result (λ names. IsWalk (F.lists self.now.folders.now) self.now.folder.now names.items) }
    {
        match names_below(alloc, self.folders, self.folder) {
            Ok(names) => Ok(names),
            Err(NamesFault::TooManyFolders) => {
                Err(lost_at(alloc, self.folder, Reason::TooManyFolders))
            }
            Err(_) => Err(TextsFault::Memory),
        }
    }
}

impl<F: Folders, O: Lengths> FolderTexts<'_, F, O> {
    // Takes the names below the folder up to this one.
    fn take_names(&mut self, alloc: Global, last: &[u8]) -> Result<(), TextsFault>
        ensures same { KeepsFolder self.old self.new }
    {
        for name in self.listed(alloc)? {
            if name.as_slice() <= last {
                self.take_name(alloc, name)?;
            }
        }
        Ok(())
    }
}

impl<F: Folders, O: Opener + Lengths> Texts for FolderTexts<'_, F, O> {
    type Text = O::Text;

    // the files of a folder may change at any time
    ghost left = { λ _. None };

    ghost count = { λ texts. texts.opened };

    ghost waits = { λ texts. texts.opened < length texts.names.items };

    ghost looked = { λ texts. WasListed (F.lists texts.folders.now) texts.folder.now };

    ghost loses = { λ _ _. ⊤ };

    fn has_next(&self) -> bool {
        self.opened < self.names.len()
    }

    fn look(&mut self, alloc: Global) -> Result<(), TextsFault> {
        self.check_longest(alloc)?;
        // What comes while a folder is listed may be shown without what came before it. So the names up to the last one are listed
        // once more, when all before that are there.
        match self.listed(alloc)?.last() {
            Some(last) => self.take_names(alloc, last),
            None => Ok(()),
        }
    }

    fn open_next(
        &mut self,
        alloc: Global,
        read: u64,
    ) -> Result<Option<Opened<O::Text>>, TextsFault> {
        let Some(known) = self.names.get(self.opened) else {
            return Ok(None);
        };
        let name = Vec::from_slice(alloc, known)?;
        self.leave(read)?;
        self.longest = Longest::of(self.opener, &name);
        match self.opener.open(&name) {
            Ok(text) => Ok(Some(Opened {
                text,
                name: Some(name),
            })),
            Err(trouble) => Err(TextsFault::Lost(Lost {
                name,
                reason: Reason::Unopened(trouble),
            })),
        }
    }
}
