//! A caller of each public call that does not change, by crate. The type of each is written out, and its conditions are the only
//! ones that the call asks for. So a call with another type, or with another condition, does not compile here.
//! The name of a caller is that of the call, with its type before it. docs/API.md lists the calls.

mod judging;
mod recording;
mod reporting;
mod running;
mod texts;
