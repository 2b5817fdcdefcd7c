//! What calls far ends: a dialer opens a connection to a host and a port, and takes it back.
#![tactic(auto)]

mod dialer;
mod mem_dialer;

pub use dialer::{DialFailed, Dialer};
pub use mem_dialer::{FarEnd, MemDialer};
