//! The deliveries of webhook events that a book keeps, and which of them is to be sent first.
#![tactic(auto)]

mod hooks;
mod waiting;

pub use hooks::Hooks;
pub use waiting::Waiting;
