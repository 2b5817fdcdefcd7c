//! Ids of objects, lists of bytes and decimal text: what every other crate of payhost stands on.
#![tactic(auto)]

mod acquirer;
mod byte_list;
mod id_text;
mod ids;
mod memory;
mod numbers;

pub use acquirer::{Decline, Method, Ruling, Why};
pub use byte_list::Bytes;
pub use id_text::{IdText, print_id, read_id};
pub use ids::{Id, Kind};
pub use memory::NoMemory;
pub use numbers::{read_number, sixteen_digits};
