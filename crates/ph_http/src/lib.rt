//! Requests from bytes, in whatever pieces these come, and replies to bytes.
#![tactic(auto)]

mod credentials;
mod cut;
mod fields;
mod judged;
mod laws;
mod length;
mod lines;
mod message;
mod reply_text;
mod request;
mod talk;
mod tokens;
mod verdict;

pub use laws::{
    a_request_follows_its_continue, closing_statuses_have_reasons, few_bytes_wait, items_are_given,
    items_go_on, items_of_a_front, more_is_no_item, more_only_before_the_end,
    no_end_before_it_is_told, the_end_comes,
};
pub use message::{Next, Raw, Reply};
pub use reply_text::render;
pub use talk::Talk;
