//! A lock with passes, over any object that one history describes. Acts are served first come, first served.
#![tactic(auto)]

mod knowledge;
mod lock;
mod object;
mod pass;
mod steps;
pub mod tally;
mod turns;

pub use lock::Lock;
pub use object::{Object, Refused};
pub use pass::{Note, Pass, PassView};
