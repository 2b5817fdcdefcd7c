//! What a call asks under a key.

use crate::shape::Shape;
use ph_base::Bytes;

/// What a call asks under a key.
#[derive(Drop, Debug)]
pub struct Asked {
    /// The number of the account that it is of.
    pub account: u64,
    pub key: Bytes,
    pub shape: Shape,
}
