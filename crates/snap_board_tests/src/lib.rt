//! Tests of the public calls on boards, relays and recordings.
#![tactic(auto)]

#[cfg(test)]
mod boards;
#[cfg(test)]
mod recordings;
#[cfg(test)]
mod relays;
