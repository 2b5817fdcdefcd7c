//! A row: one version of one object.

use ph_items::Item;

/// One version of one object, as one entry of the history left it. Rows are never changed or taken back: the
/// present version of an object is its last row.
#[derive(Drop, Debug)]
pub struct Row {
    /// Its position among the rows of the history, from 1.
    pub place: u64,
    /// The number of the object, which is the place of its first version.
    pub object: u64,
    /// The time of the entry that made the row, in seconds since 1970.
    pub at: u64,
    /// The number of the account that the object belongs to.
    pub account: u64,
    /// What the version says.
    pub item: Item,
}
