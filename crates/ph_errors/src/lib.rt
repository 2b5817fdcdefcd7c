//! The errors that the API answers: one table, and the exact body of each.
#![tactic(auto)]

mod api_error;
mod fixed;
mod kinds;
mod payments;
mod refusal;
mod reply_body;
mod requests;

pub use api_error::ApiError;
pub use fixed::Fixed;
pub use kinds::{Code, ErrorKind, decline_code};
pub use refusal::Refusal;
pub use reply_body::{body, error_doc};
