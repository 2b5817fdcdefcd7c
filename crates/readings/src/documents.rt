//! JSON documents as texts.

use crate::line::{Line, decoded, repeated, unknown};
use ph_base::NoMemory;
use ph_json::{Doc, Members, text};
use std::alloc::Global;

/// `NAME | write | DOCUMENT`: the document's text. The document is written as JSON, with a blank between any two
/// tokens, which commas may follow, and with this program's escapes in place of those of JSON.
pub fn read(alloc: Global, line: Line) -> Result<Vec<u8>, NoMemory> {
    match document(alloc, line.field(2))? {
        Some(doc) => Ok(text(alloc, &doc)?.into_vec()),
        None => unknown(alloc),
    }
}

// What was read, and isn't part of a list or an object yet.
#[derive(Drop)]
enum Piece {
    Doc(Doc),
    Name(Vec<u8>),
    Open,
}

/// The document that is written so, if any is.
pub fn document(alloc: Global, written: &str) -> Result<Option<Doc>, NoMemory> {
    let written = repeated(alloc, written)?;
    let mut parts = Vec::new(alloc);
    for token in written.as_str().split_whitespace() {
        let part = part(&mut parts, alloc, token.trim_end_matches(','))?;
        parts.push(part)?;
    }
    match parts.pop() {
        Some(Piece::Doc(doc)) => Ok(Some(doc)),
        _ => Ok(None),
    }
}

// The part that a token is, or ends.
fn part(parts: &mut Vec<Piece>, alloc: Global, token: &str) -> Result<Piece, NoMemory> {
    match token {
        "[" | "{" => Ok(Piece::Open),
        "]" => Ok(Piece::Doc(list(parts, alloc)?)),
        "}" => Ok(Piece::Doc(object(parts, alloc)?)),
        "null" => Ok(Piece::Doc(Doc::Null)),
        "true" => Ok(Piece::Doc(Doc::Truth(true))),
        "false" => Ok(Piece::Doc(Doc::Truth(false))),
        _ => value(alloc, token),
    }
}

// A name, a text or a number.
fn value(alloc: Global, token: &str) -> Result<Piece, NoMemory> {
    if let Some(name) = token.strip_suffix(':') {
        return Ok(Piece::Name(unquoted(alloc, name)?));
    }
    match token.parse::<i64>() {
        Ok(number) => Ok(Piece::Doc(Doc::Number(number))),
        Err(_) => {
            let text = unquoted(alloc, token)?;
            Ok(Piece::Doc(Doc::text_of(alloc, text.as_slice())?))
        }
    }
}

fn unquoted(alloc: Global, token: &str) -> Result<Vec<u8>, NoMemory> {
    decoded(alloc, token.trim_matches('"'))
}

// The list of the documents behind the last opening.
fn list(parts: &mut Vec<Piece>, alloc: Global) -> Result<Doc, NoMemory> {
    let mut docs = Vec::new(alloc);
    for _ in 0..parts.len() {
        match parts.pop() {
            Some(Piece::Doc(doc)) => docs.push(doc)?,
            _ => break,
        }
    }
    docs.reverse();
    Ok(Doc::list(docs))
}

// The object of the names and documents behind the last opening.
fn object(parts: &mut Vec<Piece>, alloc: Global) -> Result<Doc, NoMemory> {
    let mut members = Members::new(alloc);
    for (name, doc) in pairs(parts, alloc)? {
        put(&mut members, name.as_slice(), doc)?;
    }
    Ok(members.done())
}

// Puts a member, a number and a null by the call for an amount that there may be.
fn put(members: &mut Members, name: &[u8], doc: Doc) -> Result<(), NoMemory> {
    match (str::from_utf8(name), doc) {
        (Ok(key), Doc::Number(number)) => members.number_or_null(key, Some(number)),
        (Ok(key), Doc::Null) => members.number_or_null(key, None),
        (_, doc) => members.put_at(name, doc),
    }
}

// The names and documents behind the last opening, as they were written.
fn pairs(parts: &mut Vec<Piece>, alloc: Global) -> Result<Vec<(Vec<u8>, Doc)>, NoMemory> {
    let mut pairs = Vec::new(alloc);
    for _ in 0..parts.len() {
        let Some(Piece::Doc(doc)) = parts.pop() else {
            break;
        };
        if let Some(Piece::Name(name)) = parts.pop() {
            pairs.push((name, doc))?;
        }
    }
    pairs.reverse();
    Ok(pairs)
}
