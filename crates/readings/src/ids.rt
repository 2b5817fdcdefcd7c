//! Ids of objects, and numbers in digits.

use crate::line::{Line, said, unknown};
use ph_base::{Bytes, NoMemory, print_id, read_id, read_number};
use std::alloc::Global;

/// `NAME | id | TEXT`: the kind and the number, and the id printed again. `NAME | number | TEXT`: the number.
/// `NAME | bytes | TEXT`: the text, from a copy.
pub fn read(alloc: Global, line: Line) -> Result<Vec<u8>, NoMemory> {
    let text = line.bytes(alloc, 2)?;
    match line.field(1) {
        "id" => id(alloc, text.as_slice()),
        "number" => number(alloc, text.as_slice()),
        "bytes" => Ok(Bytes::new(text).copy(alloc)?.into_vec()),
        _ => unknown(alloc),
    }
}

fn id(alloc: Global, text: &[u8]) -> Result<Vec<u8>, NoMemory> {
    match read_id(text) {
        Some(id) => {
            let mut out = format!(in alloc; "{:?} {} ", id.kind, id.number)?.into_bytes();
            out.extend_from_slice(print_id(id).as_slice())?;
            Ok(out)
        }
        None => said(alloc, "none"),
    }
}

fn number(alloc: Global, text: &[u8]) -> Result<Vec<u8>, NoMemory> {
    match read_number(text) {
        Some(number) => Ok(number.to_string(alloc)?.into_bytes()),
        None => said(alloc, "none"),
    }
}
