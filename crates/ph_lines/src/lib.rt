//! Lines of text, the fields that they are made of, and a source's bytes line by line.
#![tactic(auto)]

mod fields;
mod reading;
mod sources;
mod splits;
mod writing;

pub use fields::Field;
pub use reading::{Unread, bytes, flag, is_ended, number, octets, word};
pub use sources::{LineRead, next_line};
pub use writing::write_line;
