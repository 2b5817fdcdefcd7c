//! The text of a case.

use ph_base::{NoMemory, read_number};
use std::alloc::Global;

/// The name of a case: the line that begins it.
pub fn name_of(case: &str) -> &str {
    case.lines().next().unwrap_or("").trim()
}

/// The text of a case: its lines that belong to it, each with its LF.
pub fn text_of(alloc: Global, case: &str) -> Result<String, NoMemory> {
    let mut text = String::new(alloc);
    for line in case.lines().skip(1) {
        if belongs(line) {
            add_repeated(&mut text, line)?;
            text.push_str("\n")?;
        }
    }
    Ok(text)
}

// Whether a line of a case belongs to its text.
fn belongs(line: &str) -> bool {
    !line.is_empty() && !line.starts_with('#') && !line.starts_with('~')
}

/// Adds a line, with each `{PART*N}` written out.
pub fn add_repeated(text: &mut String, line: &str) -> Result<(), NoMemory> {
    let mut pieces = line.split('{');
    if let Some(first) = pieces.next() {
        text.push_str(first)?;
    }
    for piece in pieces {
        let (inner, behind) = piece.split_once('}').unwrap_or((piece, ""));
        let (part, times) = inner.split_once('*').unwrap_or((inner, "1"));
        for _ in 0..read_number(times.as_bytes()).unwrap_or(0) {
            text.push_str(part)?;
        }
        text.push_str(behind)?;
    }
    Ok(())
}

/// What a field of a change stands for: each `\n` is an LF, and each `{PART*N}` is written out.
pub fn unescaped(alloc: Global, field: &str) -> Result<String, NoMemory> {
    let mut text = String::new(alloc);
    let mut pieces = field.split("\\n");
    if let Some(first) = pieces.next() {
        add_repeated(&mut text, first)?;
    }
    for piece in pieces {
        text.push_str("\n")?;
        add_repeated(&mut text, piece)?;
    }
    Ok(text)
}
