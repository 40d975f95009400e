//! A line that shows the progress of a check of many texts.
use std::alloc::Global;
use std::io::Write;
use std::rt::Stderr;
use std::sync::atomic::{AtomicU64, Ordering};
use std::time::{Clock, Duration, Instant};

// With more files than this the line comes early.
const MANY: u64 = 100;

// The milliseconds after which the line comes for fewer files, and the time between two lines.
const LATE: u64 = 1000;

const STEP: u64 = 100;

/// A line on standard error that shows how many of some files were opened, and about how long the others will take. Several threads
/// may redraw it in its place.
#[derive(Drop)]
pub struct Progress<'a, R> {
    clock: &'a R,
    alloc: Global,
    errors: Stderr,
    files: u64,
    begun: Instant,
    opened: AtomicU64,
    // The milliseconds from the begin to the last line, or 0 if no line is on the terminal.
    drawn: AtomicU64,
}

fn millis(duration: Duration) -> u64 {
    u64::try_from(duration.as_millis()).unwrap_or(u64::MAX)
}

impl<'a, R: Clock> Progress<'a, R> {
    /// The line for `files` files, not drawn yet, or nothing if the clock can't be read.
    pub fn new(
        clock: &'a R,
        alloc: Global,
        errors: Stderr,
        files: usize,
    ) -> Option<Progress<'a, R>> {
        let begun = Instant::now(clock).ok()?;
        Some(Progress {
            clock,
            alloc,
            errors,
            files: files as u64,
            begun,
            opened: AtomicU64::new(0),
            drawn: AtomicU64::new(0),
        })
    }

    fn draw(&self, opened: u64, passed: u64) {
        let rest = self.files.saturating_sub(opened);
        let share = opened.saturating_mul(100) / self.files.max(1);
        let left = passed.saturating_mul(rest) / opened.max(1) / 1000;
        let files = self.files;
        if let Ok(line) = format!(in self.alloc;
            "\r\x1b[K{opened} of {files} files, {share} %, about {left} s left"
        ) {
            self.write(line.as_bytes());
        }
    }

    fn write(&self, text: &[u8]) {
        let mut errors = self.errors;
        let _ = errors.write(text);
    }

    /// Counts one more opened file, and draws the line if it is time.
    pub fn next(&self) {
        let opened = self.opened.fetch_add(1, Ordering::SeqCst);
        let Ok(since) = self.begun.elapsed(self.clock) else {
            return;
        };
        let passed = millis(since);
        let last = self.drawn.load(Ordering::SeqCst);
        let is_time = passed >= last.saturating_add(STEP) && (self.files > MANY || passed >= LATE);
        if is_time
            && self
                .drawn
                .compare_exchange(last, passed, Ordering::SeqCst, Ordering::SeqCst)
                .is_ok()
        {
            self.draw(opened, passed);
        }
    }

    /// Removes the line, if it is on the terminal.
    pub fn clear(&self) {
        if self.drawn.swap(0, Ordering::SeqCst) > 0 {
            self.write(b"\r\x1b[K");
        }
    }
}
