//! What callers may rest on: each promise shown on a worked example, and a caller of each public call with its whole type.
#![tactic(auto)]

#[cfg(test)]
mod boards;
#[cfg(test)]
mod calls;
#[cfg(test)]
mod checked;
#[cfg(test)]
mod claims;
#[cfg(test)]
mod commands;
#[cfg(test)]
mod devices;
#[cfg(test)]
mod histories;
#[cfg(test)]
mod limits;
#[cfg(test)]
mod meetings;
#[cfg(test)]
mod orders;
#[cfg(test)]
mod plans;
#[cfg(test)]
mod recordings;
#[cfg(test)]
mod refusals;
#[cfg(test)]
mod relays;
#[cfg(test)]
mod reports;
#[cfg(test)]
mod scans;
#[cfg(test)]
mod sums;
#[cfg(test)]
mod tallies;
