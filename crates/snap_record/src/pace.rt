//! A gate for the workers of a recording.
use snap_core::Gate;
use std::sync::atomic::{AtomicU64, Ordering};
use std::thread;

/// The number of steps that a worker makes between two meetings.
const STRIDE: u32 = 16;

/// How often a worker looks for the others before it goes on without them.
const LOOKS: u32 = 100_000;

/// How often it looks before it gives up its turn.
const LOOKS_IN_A_TURN: u32 = 1_000;

/// The number of vain waits in a row after which no worker waits.
const WAITS_IN_VAIN: u64 = 64;

/// A gate at which workers keep pace, so that their calls overlap. They meet before their first step, and again after every 16
/// steps. A worker gives up its turn while it waits. Each wait is bounded, so that the run goes on if a worker can't be started.
///
/// After 64 vain waits in a row no worker waits, until the last worker comes to a meeting. So a worker that never comes costs no
/// more than these waits, and the others wait again for one that is late.
#[derive(Drop)]
pub struct Pace {
    workers: u64,
    came: AtomicU64,
    in_vain: AtomicU64,
}

impl Pace {
    /// A gate for `workers` workers, none of whom has come.
    pub fn of(workers: u32) -> Pace {
        Pace {
            workers: u64::from(workers),
            came: AtomicU64::new(0),
            in_vain: AtomicU64::new(0),
        }
    }

    // Whether workers have come at least `least` times in all.
    fn have_come(&self, least: u64) -> bool {
        self.came.load(Ordering::SeqCst) >= least
    }

    // Waits until workers have come `least` times in all, and answers whether they have.
    fn wait_for(&self, least: u64) -> bool {
        for look in 0..LOOKS {
            if self.have_come(least) {
                return true;
            }
            if look % LOOKS_IN_A_TURN == LOOKS_IN_A_TURN - 1 {
                thread::yield_now();
            }
        }
        false
    }

    // The meeting that is complete when workers have come `least` times in all, earlier meetings included.
    fn meet(&self, least: u64) {
        if self.have_come(least) {
            self.in_vain.store(0, Ordering::SeqCst);
        } else if self.in_vain.load(Ordering::SeqCst) < WAITS_IN_VAIN && !self.wait_for(least) {
            self.in_vain.fetch_add(1, Ordering::SeqCst);
        }
    }
}

impl Gate for Pace {
    fn at(&self, _worker: u32, turn: u32) {
        if turn % STRIDE == 0 {
            self.came.fetch_add(1, Ordering::SeqCst);
            let meetings = u64::from(turn / STRIDE) + 1;
            self.meet(meetings.saturating_mul(self.workers));
        }
    }
}
