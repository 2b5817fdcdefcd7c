//! Webhook signatures: HMAC-SHA-256, the header that an endpoint gets, and the verdict on one.
#![tactic(auto)]

mod decimal_text;
mod headers;
mod items;
mod keyed_hash;
mod laws;
mod verdicts;

pub use headers::header;
pub use keyed_hash::hmac;
pub use laws::header_is_good;
pub use verdicts::{Verdict, verify};
