//! Gates, at which workers may be held up.
/// A place where workers may be held up. A gate changes no answer.
pub trait Gate: Sync {
    /// The worker of this number comes to this turn, both counted from 0. It goes on when the call returns.
    fn at(&self, worker: u32, turn: u32);
}

/// The gate that holds no worker up.
#[derive(Clone, Copy, Debug)]
pub struct OpenGate;

impl Gate for OpenGate {
    fn at(&self, _worker: u32, _turn: u32) {}
}
