//! JSON documents, and their exact text.
#![tactic(auto)]

mod doc;
mod members;
mod writer;

pub use doc::Doc;
pub use members::Members;
pub use writer::text;
