//! The JSON documents of objects, from the rows of a history.
#![tactic(auto)]

mod accounts;
mod balances;
mod charges;
mod clocks;
mod disputes;
mod events;
mod fee_refunds;
mod fees;
mod intents;
mod item_docs;
mod refunds;
mod reversals;
mod subjects;
mod transactions;
mod transfers;
mod values;

pub use balances::{balance_doc, has_txns};
pub use clocks::clock_doc;
pub use item_docs::{item_doc, item_text};
pub use values::printed_id;
