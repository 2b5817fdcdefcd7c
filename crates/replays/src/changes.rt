//! Changes of a case's text, or of how it is read.

use crate::outcome::{self, Input};
use crate::texts::unescaped;
use ph_base::{NoMemory, read_number};
use std::alloc::Global;

/// The line that is printed for a line of changes, which begins with `~`.
pub fn shown(alloc: Global, line: &str, text: &str) -> Result<String, NoMemory> {
    let change = line.split_once('~').unwrap_or(("", line)).1;
    let name = field(change, 0);
    let said = said(alloc, change, text)?;
    Ok(format!(in alloc; "{name} | {said}\n")?)
}

// What comes of the change.
fn said(alloc: Global, change: &str, text: &str) -> Result<String, NoMemory> {
    let how = field(change, 1);
    let (word, rest) = how.split_once(' ').unwrap_or((how, ""));
    let bytes = text.as_bytes();
    match word {
        "cut" => {
            let kept = bytes.len().saturating_sub(number(rest));
            outcome::line(alloc, &Input::of(front(bytes, kept)))
        }
        "most" => outcome::line(alloc, &Input::of(bytes).in_pieces(number(rest))),
        "fault" => outcome::line(alloc, &Input::of(bytes).with_fault(number(rest))),
        "fronts" => fronts(alloc, bytes),
        _ => {
            let changed = replaced(alloc, text, how, field(change, 2))?;
            outcome::line(alloc, &Input::of(changed.as_bytes()))
        }
    }
}

// The first bytes, at most so many.
fn front(bytes: &[u8], n: usize) -> &[u8] {
    if n <= bytes.len() { &bytes[..n] } else { bytes }
}

// A field of a change, without the blanks around it.
fn field(change: &str, at: usize) -> &str {
    change.split('|').nth(at).unwrap_or("").trim()
}

fn number(word: &str) -> usize {
    read_number(word.as_bytes()).unwrap_or(0) as usize
}

// The text with the first of one part as another. Where there is none, it says so.
fn replaced(alloc: Global, text: &str, from: &str, to: &str) -> Result<String, NoMemory> {
    let from = unescaped(alloc, from)?;
    let to = unescaped(alloc, to)?;
    let mut changed = String::new(alloc);
    match text.split_once(from.as_str()) {
        Some((front, behind)) => {
            changed.push_str(front)?;
            changed.push_str(to.as_str())?;
            changed.push_str(behind)?;
        }
        None => changed.push_str("nothing to change")?,
    }
    Ok(changed)
}

// What comes of each front of the text that isn't all of it: for how many of them, from the shortest, it is the same.
fn fronts(alloc: Global, bytes: &[u8]) -> Result<String, NoMemory> {
    let mut said = String::new(alloc);
    let mut last = String::new(alloc);
    let mut count: u64 = 0;
    for n in 0..bytes.len() {
        let now = outcome::line(alloc, &Input::of(front(bytes, n)))?;
        if now.as_str() != last.as_str() {
            add_count(alloc, &mut said, count, last.as_str())?;
            last = now;
            count = 0;
        }
        count = count.saturating_add(1);
    }
    add_count(alloc, &mut said, count, last.as_str())?;
    Ok(said)
}

fn add_count(alloc: Global, said: &mut String, count: u64, last: &str) -> Result<(), NoMemory> {
    if count > 0 {
        if !said.is_empty() {
            said.push_str(", ")?;
        }
        said.push_str(format!(in alloc; "{count} times {last}")?.as_str())?;
    }
    Ok(())
}
