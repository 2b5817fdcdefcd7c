//! Sends deliveries: a request is written to its far end, and the answer's head says what became of it.
#![tactic(auto)]

mod answer;
mod call;
mod heard;

pub use call::deliver;
