//! The address of an endpoint.

use ph_base::Bytes;

/// The address of a webhook endpoint.
#[derive(Drop, Debug)]
pub struct Address {
    /// The whole text, as it was given.
    pub url: Bytes,
    /// The host as it was given, never empty; an IPv6 address keeps its brackets.
    pub host: Bytes,
    /// 1 to 65535; 80 where the text has none.
    pub port: u16,
    /// The path with its query, without a fragment; `/` where the text has no path.
    pub path: Bytes,
}
