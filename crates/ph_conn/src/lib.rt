//! Sessions over a book: requests are read, entered one after another, and each reply is written before the next request
//! is read. A session has the book for itself, or shares it with others behind a lock.
#![tactic(auto)]

mod alone;
mod answers;
mod desks;
mod endings;
mod locked;
mod reads;
mod rules;
mod sessions;
mod steps;
mod texts;

pub use endings::{Closed, Stop, TalkError};
pub use rules::TalkRules;
pub use sessions::{serve_none, serve_shared, serve_solo};
