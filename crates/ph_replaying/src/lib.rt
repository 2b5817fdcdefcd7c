//! The command `replay`: a history's text, entered anew and told.
#![tactic(auto)]

mod commands;
mod telling;

pub use commands::run;
