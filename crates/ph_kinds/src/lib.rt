//! The kinds of parameters: what a value of each is, how a form gives it, and what is wrong with anything else.
#![tactic(auto)]

mod authentication;
mod characters;
mod events;
mod flaw;
mod form_values;
mod kept;
mod lists;
mod metadata;
mod methods;
mod numbers;
mod words;

pub use authentication::Authentication;
pub use characters::character_count;
pub use flaw::Flaw;
pub use form_values::{
    account_type_at, address_at, amount_at, authentication_at, cancellation_reason_at,
    capture_method_at, currency_at, events_at, id_at, metadata_at, number_at, payment_method_at,
    refund_reason_at, text_at, truth_at,
};
pub use kept::first_metadata;
pub use lists::{Pairs, Texts};
pub use metadata::Meta;
pub use methods::read_method;
pub use numbers::{read_amount, read_whole};
pub use words::{
    read_account_type, read_authentication, read_cancellation_reason, read_capture_method,
    read_currency, read_refund_reason, read_truth,
};
