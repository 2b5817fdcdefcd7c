//! The head of a request as a function of its bytes, which is `httparse`'s own reading of them.
#![tactic(auto)]

mod laws;
mod read;

pub use laws::{head_is_one, one_head_is, other_heads_are_none};
pub use read::read_head;
