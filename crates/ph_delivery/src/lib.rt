//! One delivery of an event to a webhook endpoint: the request that is sent, what becomes of it, and
//! when it is sent again.
#![tactic(auto)]

mod delivery;
mod job;
mod outcome;
mod request;

pub use delivery::{Delivery, DeliveryState};
pub use job::Job;
pub use outcome::Outcome;
pub use request::delivery_request;
