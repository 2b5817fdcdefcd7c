//! Where a connection leads to.

use ph_base::Bytes;

/// The far end of a connection.
#[derive(Drop, Debug)]
pub struct Address {
    /// A name or a number of a host, as it was given.
    pub host: Bytes,
    /// A port of it.
    pub port: u16,
}
