//! Addresses of endpoints: a text's host, port and path.

use crate::line::{Line, said};
use ph_address::{Address, read_address};
use ph_base::NoMemory;
use std::alloc::Global;

/// `NAME | read | TEXT`: `HOST PORT PATH`, or `none`.
pub fn read(alloc: Global, line: Line) -> Result<Vec<u8>, NoMemory> {
    let text = line.bytes(alloc, 2)?;
    match read_address(alloc, text.as_slice())? {
        Some(address) => parts(alloc, address),
        None => said(alloc, "none"),
    }
}

/// The parts of an address.
pub fn parts(alloc: Global, address: Address) -> Result<Vec<u8>, NoMemory> {
    let port = format!(in alloc; " {} ", address.port)?;
    let mut parts = Vec::from_slice(alloc, address.host.as_slice())?;
    parts.extend_from_slice(port.as_bytes())?;
    parts.extend_from_slice(address.path.as_slice())?;
    Ok(parts)
}
