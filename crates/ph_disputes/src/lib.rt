//! Disputes: what the opening of one, evidence against it and its close add to the rows.
#![tactic(auto)]

mod answers;
mod closing;
mod due;
mod finding;
mod laws;
mod opening;

pub use answers::evidence;
pub use closing::close;
pub use due::open_due;
pub use laws::{answers_keep_sound, openings_keep_sound};
pub use opening::open;
