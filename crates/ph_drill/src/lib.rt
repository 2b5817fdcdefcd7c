//! What is told of a run: the summary of a book's history.
#![tactic(auto)]

mod counts;
mod lines;
mod summary;

pub use summary::write_summary;
