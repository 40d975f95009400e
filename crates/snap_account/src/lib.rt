//! What the desks of a board did, as accounts, and the rule of the board's words. The rule has kinds of steps, and says what each
//! does to an account.
#![tactic(auto)]

mod account;
mod limit;
mod rule;

pub use account::{Account, Accounts, Answer, Answered, Doing, Scan};
pub use limit::{TICK_CAP, TICK_LIMIT, TickLimit};
pub use rule::{
    BeginStore, BeginView, BoardRule, ComeIn, EndCall, GiveUp, GoOut, LookOver, MiddleTick,
    ReadWord, Size, WriteWord,
};
