//! The commands `sign` and `verify`: the signature header of a body, and the verdict on one.
#![tactic(auto)]

mod body;
mod commands;
mod words;

pub use commands::run;
