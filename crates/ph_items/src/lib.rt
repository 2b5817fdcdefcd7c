//! What a version of an object says: one type for each kind of object, its words, its texts, and copies of it.
#![tactic(auto)]

mod accounts;
mod attempts;
mod charges;
mod clocks;
mod copies;
mod disputes;
mod event_kinds;
mod events;
mod fee_refunds;
mod fees;
mod intents;
mod items;
mod metadata_pairs;
mod movements;
mod orders;
mod payment_methods;
mod refunds;
mod reversals;
mod transactions;
mod transfers;
mod weights;

pub use accounts::{Account, AccountType, PLATFORM};
pub use attempts::{Attempt, AttemptState};
pub use charges::{Capture, Charge, ChargeSort, ChargeStatus};
pub use clocks::CLOCK_LIMIT;
pub use copies::{copy_method, copy_text};
pub use disputes::{Dispute, DisputeStatus};
pub use event_kinds::EventKind;
pub use events::Event;
pub use fee_refunds::FeeRefund;
pub use fees::Fee;
pub use intents::{CancellationReason, CaptureMethod, Intent, IntentStatus, PaymentError};
pub use items::{Item, kind_number};
pub use metadata_pairs::{Metadata, MetadataPair};
pub use movements::Movement;
pub use orders::Order;
pub use payment_methods::PaymentMethod;
pub use refunds::{Refund, RefundReason};
pub use reversals::Reversal;
pub use transactions::{Txn, TxnSource, TxnType};
pub use transfers::Transfer;
