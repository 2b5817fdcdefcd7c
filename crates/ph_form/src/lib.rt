//! Form bodies and queries as trees of texts: `metadata[order]=7` is the text `7` at the key `order` of the map `metadata`.
#![tactic(auto)]

mod entries;
mod fault;
mod form;
mod laws;
mod leaf;
mod names;
mod node;
mod ordered;
mod pairs;
mod read;
mod reading;

pub use fault::FormFault;
pub use form::Form;
pub use laws::{keys_stand_in_brackets, least_number_is_free};
pub use leaf::Leaf;
pub use names::{is_below, is_within};
pub use node::Node;
pub use read::read_form;
