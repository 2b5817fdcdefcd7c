//! What holds of the rows of every legal history, and of what may be entered after them.
#![tactic(auto)]

mod laws;

pub use laws::entered_stays_sound;
