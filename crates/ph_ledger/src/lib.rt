//! The ledger of balances: the transactions that were posted, and what of them is available by now.
#![tactic(auto)]

mod laws;
mod ledgers;

pub use laws::{balances_are_sums, only_transactions_count};
pub use ledgers::Ledger;
