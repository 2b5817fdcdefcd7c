//! Signatures of events: keyed hashes, headers, and what a header is worth.

use crate::line::{Line, unknown};
use ph_base::{Bytes, NoMemory};
use ph_sign::{header, hmac, verify};
use std::alloc::Global;

/// `NAME | hash | KEY | TEXT`: the keyed hash in digits. `NAME | header | MOMENT | BODY | SECRET SECRET ..`: the
/// header. `NAME | verdict | HEADER | SECRET | BODY | NOW | TOLERANCE`: what the header is worth.
pub fn read(alloc: Global, line: Line) -> Result<Vec<u8>, NoMemory> {
    match line.field(1) {
        "hash" => hash(alloc, line),
        "header" => header_text(alloc, line),
        "verdict" => verdict(alloc, line),
        _ => unknown(alloc),
    }
}

fn hash(alloc: Global, line: Line) -> Result<Vec<u8>, NoMemory> {
    let key = line.bytes(alloc, 2)?;
    let text = line.bytes(alloc, 3)?;
    let mut digits = [0u8; 64];
    let _ = hex::encode_to_slice(&hmac(key.as_slice(), text.as_slice()), &mut digits);
    Ok(Vec::from_slice(alloc, &digits)?)
}

// The secrets of a field, apart by blanks.
fn secrets(alloc: Global, field: &str) -> Result<Vec<Bytes>, NoMemory> {
    let mut secrets = Vec::new(alloc);
    for word in field.split_whitespace() {
        secrets.push(Bytes::from_slice(alloc, word.as_bytes())?)?;
    }
    Ok(secrets)
}

fn header_text(alloc: Global, line: Line) -> Result<Vec<u8>, NoMemory> {
    let body = line.bytes(alloc, 3)?;
    let secrets = secrets(alloc, line.field(4))?;
    Ok(header(alloc, secrets.as_slice(), line.number(2), body.as_slice())?.into_vec())
}

fn verdict(alloc: Global, line: Line) -> Result<Vec<u8>, NoMemory> {
    let header = line.bytes(alloc, 2)?;
    let secret = line.bytes(alloc, 3)?;
    let body = line.bytes(alloc, 4)?;
    let verdict = verify(
        header.as_slice(),
        secret.as_slice(),
        body.as_slice(),
        line.number(5),
        line.number(6),
    );
    Ok(format!(in alloc; "{verdict:?}")?.into_bytes())
}
