//! The number of windows, and for each kind their number and the first.
ghost use Rattle.std.specs.Prelude.{◌≡◌, ◌+◌, ◌++◌, ◌∷◌, [], ℕ, List, OnOk, find, length};
ghost use Rattle.snap_follow.specs.Bytes.{AreWholeLines};
ghost use Rattle.snap_follow.specs.Spans.{IsSpanOf, stop};
ghost use Rattle.snap_follow.specs.Windows.{Told, first_text, has_code, kind_text, kind_word, sums_text, verdict_code};
ghost use Rattle.snap_follow.specs.inside.Statuses.{code_of, word_of};
ghost use Rattle.snap_follow.specs.inside.Sums.{AreCounts, AreSums, IsCount, IsFirst};

use crate::follow::Window;
use snap_report::put_number;
use snap_windows::Verdict;
use std::alloc::AllocError;

/// What a window comes to, in the order of the exit statuses.
#[derive(Clone, Copy)]
pub(crate) enum Kind {
    Atomic,
    OnlyRegular,
    NotRegular,
    Refused,
    Failed,
}

impl Kind {
    pub(crate) fn of(verdict: Verdict) -> Kind
        ensures code { code_of result ≡ verdict_code verdict }
        ensures word { word_of result ≡ kind_word verdict }
    {
        if verdict.atomic {
            Kind::Atomic
        } else if verdict.regular {
            Kind::OnlyRegular
        } else {
            Kind::NotRegular
        }
    }

    pub(crate) fn word(self) -> &'static [u8]
        ensures { result.now ≡ word_of self }
    {
        match self {
            Kind::Atomic => b"atomic",
            Kind::OnlyRegular => b"only-regular",
            Kind::NotRegular => b"not-regular",
            Kind::Refused => b"refused",
            Kind::Failed => b"failed",
        }
    }

    pub(crate) fn code(self) -> u8
        ensures { result ≡ code_of self }
    {
        match self {
            Kind::Atomic => 0,
            Kind::OnlyRegular => 1,
            Kind::NotRegular => 2,
            Kind::Refused => 3,
            Kind::Failed => 4,
        }
    }
}

/// The exit status that says what a recording is.
pub(crate) fn status_of(whole: Verdict) -> u8
    ensures { result ≡ verdict_code whole }
{
    Kind::of(whole).code()
}

// The count of the windows with an exit status, and the number of the first of them.
#[derive(Clone, Copy)]
struct Count {
    code: u8,
    windows: u64,
    first: Option<u64>,
}

impl Count {
    // No window has this exit status.
    fn none_of(code: u8) -> Count
        ensures { IsCount code [] result }
    {
        Count {
            code,
            windows: 0,
            first: None,
        }
    }

    // Counts the window of a number, if it has the exit status of this count.
    fn add(&mut self, number: u64, code: u8)
        ensures { (kind : ℕ) (told : List Told) (t : Told) → verdict_code t.window.verdict ≡ code → t.number ≡ number → IsCount kind told self.old → IsCount kind (told ++ t ∷ []) self.new }
    {
        if code == self.code {
            self.windows = self.windows.saturating_add(1);
            self.first = self.first.or(Some(number));
        }
    }
}

// Adds the number of the first window of a kind, if there is one.
fn put_first(out: &mut Vec<u8>, first: Option<u64>) -> Result<(), AllocError>
    ensures { (code : ℕ) (told : List Told) → IsFirst code told first → OnOk result (out.new.items ≡ out.old.items ++ first_text (find (has_code code) told)) }
{
    match first {
        Some(number) => put_number(out, b" first ", number),
        None => Ok(()),
    }
}

// Adds the line of a kind.
fn put_count(out: &mut Vec<u8>, kind: Kind, count: Count) -> Result<(), AllocError>
    ensures text { (told : List Told) → IsCount (code_of kind) told count → OnOk result (out.new.items ≡ out.old.items ++ kind_text (word_of kind) (code_of kind) told) }
    ensures whole { OnOk result (AreWholeLines out.new.items) }
{
    out.extend_from_slice(kind.word())?;
    put_number(out, b" ", count.windows)?;
    put_first(out, count.first)?;
    Ok(out.push(b'\n')?)
}

/// The sums over windows.
#[derive(Clone, Copy)]
pub(crate) struct Sums {
    windows: u64,
    events: u64,
    views: u64,
    atomic: Count,
    only_regular: Count,
    not_regular: Count,
    refused: Count,
    failed: Count,
}

impl Sums {
    pub(crate) fn new() -> Sums
        ensures { AreSums [] result }
    {
        Sums {
            windows: 0,
            events: 0,
            views: 0,
            atomic: Count::none_of(0),
            only_regular: Count::none_of(1),
            not_regular: Count::none_of(2),
            refused: Count::none_of(3),
            failed: Count::none_of(4),
        }
    }

    /// The number of the next window.
    pub(crate) fn next(&self) -> u64
        ensures { (told : List Told) → AreSums told self.now → result ≡ stop (length told + 1) }
    {
        self.windows.saturating_add(1)
    }

    pub(crate) fn views(&self) -> u64
        ensures { result ≡ self.now.views }
    {
        self.views
    }

    /// Counts a window of a kind.
    pub(crate) fn add(&mut self, kind: Kind)
        ensures counts { (told : List Told) (t : Told) → verdict_code t.window.verdict ≡ code_of kind → t.number ≡ stop (length told + 1) → AreCounts told self.old → AreCounts (told ++ t ∷ []) self.new }
        ensures same { (self.new.events ≡ self.old.events) × (self.new.views ≡ self.old.views) }
    {
        let code = kind.code();
        let number = self.windows.saturating_add(1);
        self.windows = number;
        self.atomic.add(number, code);
        self.only_regular.add(number, code);
        self.not_regular.add(number, code);
        self.refused.add(number, code);
        self.failed.add(number, code);
    }

    /// Counts a window that was judged, and its events.
    pub(crate) fn add_window(&mut self, window: &Window)
        ensures { (told : List Told) (t : Told) → t.window ≡ window.now → t.number ≡ stop (length told + 1) → IsSpanOf window.now.span t.events → AreSums told self.old → AreSums (told ++ t ∷ []) self.new }
    {
        self.events = self.events.saturating_add(window.span.events);
        self.views = self.views.saturating_add(window.span.views);
        self.add(Kind::of(window.verdict));
    }

    /// Adds the lines of the sums.
    pub(crate) fn put(&self, out: &mut Vec<u8>) -> Result<(), AllocError>
        ensures text { (told : List Told) → AreSums told self.now → OnOk result (out.new.items ≡ out.old.items ++ sums_text told) }
        ensures whole { OnOk result (AreWholeLines out.new.items) }
    {
        put_number(out, b"windows ", self.windows)?;
        put_number(out, b" events ", self.events)?;
        put_number(out, b" views ", self.views)?;
        out.push(b'\n')?;
        put_count(out, Kind::Atomic, self.atomic)?;
        put_count(out, Kind::OnlyRegular, self.only_regular)?;
        put_count(out, Kind::NotRegular, self.not_regular)?;
        put_count(out, Kind::Refused, self.refused)?;
        put_count(out, Kind::Failed, self.failed)
    }
}
