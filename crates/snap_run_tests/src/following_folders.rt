//! Recordings whose texts are below a folder, and come while they are followed.
ghost use Rattle.std.specs.Prelude.{⊤};

use super::checks::same;
use super::following::{end_of, no_naps, options};
use snap_core::Counted;
use snap_follow::{FolderTexts, Until, follow_run};
use snap_names::{Entry, Folders, Kind, Lengths, Opener, Trouble};
use snap_testing::Drip;
use std::alloc::{AllocError, Global};
use std::sync::atomic::{AtomicUsize, Ordering};
use std::test::Fail;

// A text of a folder: its name there, and its content, or nothing if it can't be opened.
type Page = (&'static str, Option<&'static str>);

// A folder `t` that shows `step` more texts at every second listing. If `step` is 2, each other listing leaves out the first of the
// two. The length of one text differs from what is read.
#[derive(Drop)]
struct Binder {
    pages: &'static [Page],
    step: usize,
    changed: &'static [u8],
    listed: AtomicUsize,
}

impl Binder {
    // The content of the text of a path, if it has one and can be opened.
    fn text(&self, path: &[u8]) -> Option<&'static str> {
        for (name, text) in self.pages {
            if path.strip_prefix(b"t/") == Some(name.as_bytes()) {
                return *text;
            }
        }
        None
    }
}

impl Folders for Binder {
    ghost lists = { λ _ _ _. ⊤ };

    fn list(&self, alloc: Global, _folder: &[u8]) -> Result<Option<Vec<Entry>>, AllocError> {
        let listed = self.listed.fetch_add(1, Ordering::Relaxed);
        let shown = (listed / 2).saturating_mul(self.step);
        let mut entries = Vec::new(alloc);
        for (place, (name, _)) in self.pages.iter().take(shown).enumerate() {
            let is_left_out = self.step == 2 && listed % 2 == 0 && place.saturating_add(2) == shown;
            if !is_left_out {
                let name = Vec::from_slice(alloc, name.as_bytes())?;
                let kind = Kind::File;
                entries.push(Entry { name, kind })?;
            }
        }
        Ok(Some(entries))
    }
}

impl Opener for Binder {
    type Text = Drip<'static>;

    ghost opens = { λ _ _ _. ⊤ };

    fn open(&self, name: &[u8]) -> Result<Drip<'static>, Trouble> {
        match self.text(name) {
            Some(text) => Ok(Drip::new(text.as_bytes(), 0)),
            None => Err(Trouble::Unopened),
        }
    }

    fn unread(&self, _name: &[u8], _text: &Counted<Drip<'static>>) -> Trouble {
        Trouble::Unread
    }
}

impl Lengths for Binder {
    fn length(&self, name: &[u8]) -> Option<u64> {
        let more = u64::from(name == self.changed);
        let text = self.text(name)?;
        Some((text.len() as u64).saturating_add(more))
    }
}

const FIRST: &str = "\
event,process,op,data
begin,0,update,0:1:7
end,0,update,
";

const SECOND: &str = "\
event,process,op,data
begin,1,view,
end,1,view,0:1:7
";

// The texts of a folder, the number that come at once, and the one that changes. Then how the run ends, its status, and the lines
// of the windows with the first of the sums.
type Recording = (
    &'static [Page],
    usize,
    &'static [u8],
    &'static str,
    Option<u8>,
    &'static str,
);

const RECORDINGS: &[Recording] = &[
    // a call is open at the end of each text, and what is not a recording is left out
    (
        &[
            (
                "1.csv",
                Some("event,process,op,data\nbegin,0,update,0:1:7\nend,0,update,\nbegin,1,view,\n"),
            ),
            ("2.txt", None),
            (
                "2.csv",
                Some(
                    "event,process,op,data\nend,1,view,0:1:7\nbegin,1,view,\nbegin,0,update,0:2:8\n",
                ),
            ),
            (
                "3.csv",
                Some(
                    "event,process,op,data\nend,1,view,0:2:8\nend,0,update,\nbegin,2,view,\nend,2,view,0:2:8\n",
                ),
            ),
        ],
        1,
        b"",
        "whole",
        Some(0),
        "window 1 events 2 atomic from 2 of t/1.csv to 3 of t/1.csv\nwindow 2 events 2 atomic from 4 of t/1.csv to 2 of t/2.csv\n\
         window 3 events 4 atomic from 3 of t/2.csv to 3 of t/3.csv\nwindow 4 events 2 atomic from 4 of t/3.csv to 5 of t/3.csv\n\
         windows 4 events 10 views 3\n",
    ),
    // what the text before left is not shown
    (
        &[
            ("1.csv", Some(FIRST)),
            (
                "a\nb.csv",
                Some("event,process,op,data\nbegin,1,view,\nend,1,view,\n"),
            ),
        ],
        1,
        b"",
        "whole",
        Some(2),
        "window 1 events 2 atomic from 2 of t/1.csv to 3 of t/1.csv\n\
         window 2 events 2 not-regular from 2 of t/a\\nb.csv to 3 of t/a\\nb.csv misses 0:1:7 in record 3 of t/a\\nb.csv\n\
         windows 2 events 4 views 1\n",
    ),
    // the last line of a whole text needs no line end
    (
        &[
            (
                "1.csv",
                Some("event,process,op,data\nbegin,0,update,0:1:7\nend,0,update,"),
            ),
            ("2.csv", Some(SECOND)),
        ],
        1,
        b"",
        "whole",
        Some(0),
        "window 1 events 2 atomic from 2 of t/1.csv to 3 of t/1.csv\nwindow 2 events 2 atomic from 2 of t/2.csv to 3 of t/2.csv\n\
         windows 2 events 4 views 1\n",
    ),
    // numbers go on from text to text
    (
        &[("1.csv", Some(FIRST)), ("2.csv", Some(FIRST))],
        1,
        b"",
        "whole",
        Some(3),
        "window 1 events 2 atomic from 2 of t/1.csv to 3 of t/1.csv\nwindow 2 refused record 2 of t/2.csv: number\n\
         windows 2 events 2 views 0\n",
    ),
    // a text without a header
    (
        &[("1.csv", Some("")), ("2.csv", Some(SECOND))],
        1,
        b"",
        "whole",
        Some(3),
        "window 1 refused record 1 of t/1.csv: header\nwindows 1 events 0 views 0\n",
    ),
    // an earlier text that comes late
    (
        &[("2.csv", Some(FIRST)), ("1.csv", Some(SECOND))],
        1,
        b"",
        "lost",
        Some(4),
        "window 1 events 2 atomic from 2 of t/2.csv to 3 of t/2.csv\nwindow 2 failed\nwindows 2 events 2 views 0\n",
    ),
    // an earlier text that changes
    (
        &[("1.csv", Some(FIRST)), ("2.csv", Some(SECOND))],
        1,
        b"t/1.csv",
        "lost",
        Some(4),
        "window 1 events 2 atomic from 2 of t/1.csv to 3 of t/1.csv\nwindow 2 events 2 atomic from 2 of t/2.csv to 3 of t/2.csv\n\
         window 3 failed\nwindows 3 events 4 views 1\n",
    ),
    // a text that can't be opened
    (
        &[("1.csv", Some(FIRST)), ("2.csv", None)],
        1,
        b"",
        "lost",
        Some(4),
        "window 1 events 2 atomic from 2 of t/1.csv to 3 of t/1.csv\nwindow 2 failed\nwindows 2 events 2 views 0\n",
    ),
    // a text that is listed before the one that came first
    (
        &[("1.csv", Some(FIRST)), ("2.csv", Some(SECOND))],
        2,
        b"",
        "whole",
        Some(0),
        "window 1 events 2 atomic from 2 of t/1.csv to 3 of t/1.csv\nwindow 2 events 2 atomic from 2 of t/2.csv to 3 of t/2.csv\n\
         windows 2 events 4 views 1\n",
    ),
    // a last text whose header has not come
    (
        &[("1.csv", Some(FIRST)), ("2.csv", Some("event,pro"))],
        1,
        b"",
        "with a rest",
        Some(0),
        "window 1 events 2 atomic from 2 of t/1.csv to 3 of t/1.csv\nwindows 1 events 2 views 0\n",
    ),
    // with stamps each text is judged in their order, and none waits at its end
    (
        &[
            (
                "1.csv",
                Some(
                    "at,event,process,op,data\n3,begin,1,view,\n2,end,0,update,\n1,begin,0,update,0:1:7\n",
                ),
            ),
            (
                "2.csv",
                Some("at,event,process,op,data\n9,end,1,view,0:1:7"),
            ),
        ],
        1,
        b"",
        "with a rest",
        Some(0),
        "window 1 events 2 atomic from 4 of t/1.csv to 3 of t/1.csv\nwindow 2 events 1 atomic from 2 of t/1.csv to 2 of t/1.csv\n\
         windows 2 events 3 views 0\n",
    ),
    // a stamp that is not above those of the text before
    (
        &[
            (
                "1.csv",
                Some("at,event,process,op,data\n3,end,1,view,\n2,begin,1,view,\n"),
            ),
            ("2.csv", Some("at,event,process,op,data\n3,begin,1,view,\n")),
        ],
        1,
        b"",
        "whole",
        Some(3),
        "window 1 events 2 atomic from 3 of t/1.csv to 2 of t/1.csv\nwindow 2 refused record 2 of t/2.csv: late\n\
         windows 2 events 2 views 1\n",
    ),
    // another header than the text before
    (
        &[
            ("1.csv", Some(FIRST)),
            ("2.csv", Some("at,event,process,op,data\n3,begin,1,view,\n")),
        ],
        1,
        b"",
        "whole",
        Some(3),
        "window 1 events 2 atomic from 2 of t/1.csv to 3 of t/1.csv\nwindow 2 refused record 1 of t/2.csv: header\n\
         windows 2 events 2 views 0\n",
    ),
    (&[], 1, b"", "no text", None, ""),
];

#[test]
fn the_texts_of_a_folder_are_one_recording(rt: HostRuntime) -> Result<(), Fail> {
    for (pages, step, changed, how, status, lines) in RECORDINGS {
        let binder = Binder {
            pages: *pages,
            step: *step,
            changed: *changed,
            listed: AtomicUsize::new(0),
        };
        let mut texts = FolderTexts::new(rt.alloc(), &binder, &binder, b"t");
        let asked = options(2, 100, Until::Idle(3), 0)?;
        let mut writer = Counted::new(Vec::new(rt.alloc()));
        let answer = follow_run(&rt, rt.alloc(), &mut texts, &mut writer, &no_naps(), asked);
        same(end_of(&answer), (*how, *status))?;
        assert!(rt; writer.into_inner().starts_with(lines.as_bytes()));
    }
    Ok(())
}
