//! The rows of a history, the view of them that operations read, and the batch of rows that one entry adds.
#![tactic(auto)]

mod batches;
mod list_views;
mod names;
mod rows;
mod scans;
mod views;
mod weights;

pub use batches::{Announced, Batch, version_with};
pub use list_views::ListView;
pub use names::{object_named, owned_named};
pub use rows::Row;
pub use views::View;
pub use weights::weight_with_rows;
