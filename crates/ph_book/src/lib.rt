//! The book: a setup and one history of entries, and what follows from it.
#![tactic(auto)]

mod acts;
mod book;
mod calls;
mod endings;
mod hosted;
mod judged;
mod keeping;
mod key_laws;
mod laws;
mod object;
mod replies;
mod room;
mod setup;
mod spares;
mod store;
mod weights;

pub use acts::{Act, Answer, Deed, Entry, Query};
pub use book::Book;
pub use hosted::{Hosted, Kept};
pub use key_laws::{conflict_while_a_run_lives, key_adds_none, repeat_finds, saved_stays};
pub use laws::{
    all_but_the_last_were_challenged, amounts_are_sums, balances_are_sums, disputes_move_once,
    fee_refunds_fit, history_is_legal, ids_differ, live_runs_are_shown, processing_has_one_attempt,
    references_differ, refunds_fit, reversals_fit, runs_follow, transfers_fit,
};
pub use ph_lock::Refused;
pub use setup::Setup;
