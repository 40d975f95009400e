//! Gates that show that threads run at the same time.
use snap_core::Gate;
use std::sync::atomic::{AtomicU64, Ordering};
use std::thread;

// The number of looks before a wait gives up.
const TURNS: u32 = 100_000_000;

/// Records who came, and counts those who waited in vain for others to come.
#[derive(Drop)]
pub struct Arrivals {
    // a bit for each who came
    came: AtomicU64,
    missed: AtomicU64,
}

impl Arrivals {
    /// Nobody has come.
    pub fn none() -> Arrivals {
        Arrivals {
            came: AtomicU64::new(0),
            missed: AtomicU64::new(0),
        }
    }

    /// The one with this number, below 64, has come.
    pub fn come(&self, number: u32) {
        self.came.fetch_or(1 << (number % 64), Ordering::SeqCst);
    }

    // The number of those who have come; who comes twice is counted once.
    fn count(&self) -> u32 {
        self.came.load(Ordering::SeqCst).count_ones()
    }

    /// Waits until `least` have come, for 100,000,000 turns at most.
    pub fn wait_for(&self, least: u32) {
        for _ in 0..TURNS {
            if self.count() >= least {
                return;
            }
            thread::yield_now();
        }
        self.missed.fetch_add(1, Ordering::SeqCst);
    }

    /// Whether exactly `number` came, and no wait was in vain.
    pub fn were(&self, number: u32) -> bool {
        self.count() == number && self.missed.load(Ordering::SeqCst) == 0
    }
}

/// A gate at which each worker waits at one turn until all have come.
#[derive(Drop)]
pub struct Meeting {
    pub workers: u32,
    pub turn: u32,
    pub arrivals: Arrivals,
}

impl Meeting {
    /// A gate for two workers who meet at a turn.
    pub fn at_turn(turn: u32) -> Meeting {
        Meeting::of(2, turn)
    }

    /// A gate for `workers` workers who meet at a turn.
    pub fn of(workers: u32, turn: u32) -> Meeting {
        Meeting {
            workers,
            turn,
            arrivals: Arrivals::none(),
        }
    }

    /// Whether all came, and none waited in vain.
    pub fn was_held(&self) -> bool {
        self.arrivals.were(self.workers)
    }
}

impl Gate for Meeting {
    fn at(&self, worker: u32, turn: u32) {
        if turn == self.turn {
            self.arrivals.come(worker);
            self.arrivals.wait_for(self.workers);
        }
    }
}

/// A gate at which worker 0 waits with its first piece until another worker has come to a turn.
#[derive(Drop)]
pub struct Held {
    pub worker: u32,
    pub turn: u32,
    pub arrivals: Arrivals,
}

impl Held {
    /// Worker 0 waits until this worker comes to this turn.
    pub fn until(worker: u32, turn: u32) -> Held {
        Held {
            worker,
            turn,
            arrivals: Arrivals::none(),
        }
    }

    /// Whether the other worker came, and worker 0 did not wait in vain.
    pub fn was_left(&self) -> bool {
        self.arrivals.were(1)
    }
}

impl Gate for Held {
    fn at(&self, worker: u32, turn: u32) {
        if (worker, turn) == (self.worker, self.turn) {
            self.arrivals.come(worker);
        } else if (worker, turn) == (0, 0) {
            self.arrivals.wait_for(1);
        }
    }
}
