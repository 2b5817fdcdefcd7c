//! A line of a table, and the escapes of its texts.
//!
//! A backslash begins an escape: `\r`, `\n`, `\t`, `\\`, `\xHH` for a byte, and `\{TEXT*N}` for the text N times, in
//! which `#` stands for the number of the time, from 0. A `|`, and blanks at a text's ends, are written by `\xHH`.

use ph_base::{NoMemory, read_number};
use std::alloc::{AllocError, Global};

/// A line of a table.
#[derive(Clone, Copy)]
pub struct Line<'a> {
    text: &'a str,
}

impl<'a> Line<'a> {
    pub fn new(text: &'a str) -> Self {
        Line { text }
    }

    /// A field as it is written, without the blanks around it; empty where the line has fewer fields.
    pub fn field(self, at: usize) -> &'a str {
        self.text.split('|').nth(at).unwrap_or("").trim()
    }

    /// What a field stands for.
    pub fn bytes(self, alloc: Global, at: usize) -> Result<Vec<u8>, NoMemory> {
        decoded(alloc, self.field(at))
    }

    /// A field's number; 0 where it has none.
    pub fn number(self, at: usize) -> u64 {
        read_number(self.field(at).as_bytes()).unwrap_or(0)
    }
}

/// The answer to a line that no reader understands.
pub fn unknown(alloc: Global) -> Result<Vec<u8>, NoMemory> {
    said(alloc, "not understood")
}

/// The bytes of a text.
pub fn said(alloc: Global, text: &str) -> Result<Vec<u8>, NoMemory> {
    Ok(Vec::from_slice(alloc, text.as_bytes())?)
}

/// What a text with escapes stands for.
pub fn decoded(alloc: Global, text: &str) -> Result<Vec<u8>, NoMemory> {
    let text = repeated(alloc, text)?;
    let mut bytes = Vec::new(alloc);
    let mut behind = Behind::Text;
    for byte in text.as_bytes() {
        behind = step(&mut bytes, behind, *byte)?;
    }
    Ok(bytes)
}

// What the last byte was part of.
#[derive(Clone, Copy)]
enum Behind {
    Text,
    Backslash,
    // `\x`
    Sign,
    // `\x` and the first digit, with its value
    Digit(u8),
}

// Reads one byte.
fn step(bytes: &mut Vec<u8>, behind: Behind, byte: u8) -> Result<Behind, NoMemory> {
    match behind {
        Behind::Text if byte == b'\\' => return Ok(Behind::Backslash),
        Behind::Text => bytes.push(byte)?,
        Behind::Backslash if byte == b'x' => return Ok(Behind::Sign),
        Behind::Backslash => bytes.push(control(byte))?,
        Behind::Sign => return Ok(Behind::Digit(hex_value(byte))),
        Behind::Digit(high) => bytes.push((high << 4) | hex_value(byte))?,
    }
    Ok(Behind::Text)
}

// The byte that stands behind a backslash as this one.
fn control(byte: u8) -> u8 {
    match byte {
        b'r' => b'\r',
        b'n' => b'\n',
        b't' => b'\t',
        other => other,
    }
}

fn hex_value(byte: u8) -> u8 {
    match byte {
        b'0'..=b'9' => byte - b'0',
        b'a'..=b'f' => byte - b'a' + 10,
        _ => 0,
    }
}

/// The text with each `\{TEXT*N}` written out.
pub fn repeated(alloc: Global, text: &str) -> Result<String, NoMemory> {
    let mut out = String::new(alloc);
    let mut pieces = text.split("\\{");
    if let Some(first) = pieces.next() {
        out.push_str(first)?;
    }
    for piece in pieces {
        let (inner, rest) = piece.split_once('}').unwrap_or((piece, ""));
        let (part, times) = inner.split_once('*').unwrap_or((inner, "1"));
        add_times(&mut out, alloc, part, times)?;
        out.push_str(rest)?;
    }
    Ok(out)
}

// Adds a part so many times.
fn add_times(out: &mut String, alloc: Global, part: &str, times: &str) -> Result<(), NoMemory> {
    for time in 0..read_number(times.as_bytes()).unwrap_or(0) {
        add_part(out, alloc, part, time)?;
    }
    Ok(())
}

// Adds a part, with the number of the time for each `#`.
fn add_part(out: &mut String, alloc: Global, part: &str, time: u64) -> Result<(), NoMemory> {
    let number = time.to_string(alloc)?;
    let mut pieces = part.split('#');
    if let Some(first) = pieces.next() {
        out.push_str(first)?;
    }
    for piece in pieces {
        out.push_str(number.as_str())?;
        out.push_str(piece)?;
    }
    Ok(())
}

/// The line that is printed: the name and what was read, with escapes.
pub fn shown(alloc: Global, name: &str, read: &[u8]) -> Result<Vec<u8>, AllocError> {
    let mut out = Vec::from_slice(alloc, name.as_bytes())?;
    out.extend_from_slice(b" | ")?;
    for byte in read {
        show(&mut out, *byte)?;
    }
    out.push(b'\n')?;
    Ok(out)
}

// Adds a byte as it is seen.
fn show(out: &mut Vec<u8>, byte: u8) -> Result<(), AllocError> {
    match byte {
        b'\r' => out.extend_from_slice(b"\\r"),
        b'\n' => out.extend_from_slice(b"\\n"),
        b'\t' => out.extend_from_slice(b"\\t"),
        b'\\' => out.extend_from_slice(b"\\\\"),
        b' '..=b'~' => out.extend_from_slice(&[byte]),
        _ => out.extend_from_slice(&[b'\\', b'x', hex_digit(byte >> 4), hex_digit(byte & 15)]),
    }
}

fn hex_digit(value: u8) -> u8 {
    if value < 10 {
        b'0' + value
    } else if value < 16 {
        b'a' + (value - 10)
    } else {
        b'?'
    }
}
