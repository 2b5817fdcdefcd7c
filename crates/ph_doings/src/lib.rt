//! What entries do to payment intents and attempts, and the laws of every list of such doings.
//!
//! An entry does one of a few things: it leaves all as it is; it puts a payment intent into a status, or edits it at its
//! status; it begins an attempt, by a confirmation or an authentication; or by a run of an attempt it takes it up again,
//! parks it, or settles it with its ruling. The past is the list of these doings, the newest first, and what holds of
//! payment intents, attempts, runs and key records is read off it. One definition, `MayDo`, says when each may come.
//!
//! Each law is the contract of a function that does nothing, and speaks of every past in which each doing may come after
//! those before it. A history has them once each of its entries is told as a doing, and each may come where it stands.
#![tactic(auto)]

mod ends;
mod laws;
mod records;
mod rows;
mod worked;

pub use ends::{ends_are_total, live_runs_end};
pub use laws::{
    all_but_the_last_were_challenged, approved_once, attempts_are_unsettled,
    first_parked_is_earliest, live_is_run, processing_has_one_attempt, references_differ,
    runs_are_counted, runs_are_found, runs_stay,
};
pub use records::{key_adds_none, repeat_finds, saved_stays};
pub use rows::{live_runs_may_end, past_is_in_rows, rows_let_come, rows_say_past};
pub use worked::{a_challenge, two_parks};
