//! Bytes of a connection as requests, and replies as bytes.

ghost use Rattle.std.specs.Prelude.{◌≡◌, ◌<◌, IfSome, IsTrue};
ghost use Rattle.ph_http.specs.Replies.{is_status};

use crate::line::{Line, said, unknown};
use ph_base::{Bytes, NoMemory, read_number};
use ph_http::{Next, Raw, Reply, Talk, render};
use std::alloc::Global;

/// `NAME | items | SIZES | BYTES`: the items of the bytes, which are fed in pieces of each of these sizes, apart by
/// blanks. `NAME | fronts | FROM | BYTES`: the items of each front of the bytes with that many bytes or more, by its
/// length where they aren't those of the front before, in pieces of 1, of 7 and in one. `NAME | reply | STATUS | BODY |
/// WORDS`: the reply's bytes; the words are `replayed`, `retry` and `last`.
pub fn read(alloc: Global, line: Line) -> Result<Vec<u8>, NoMemory> {
    match line.field(1) {
        "items" => items(alloc, line),
        "fronts" => fronts(alloc, line),
        "reply" => reply(alloc, line),
        _ => unknown(alloc),
    }
}

fn items(alloc: Global, line: Line) -> Result<Vec<u8>, NoMemory> {
    let bytes = line.bytes(alloc, 3)?;
    in_sizes(alloc, bytes.as_slice(), line.field(2))
}

// The items of the bytes in pieces of each size.
fn in_sizes(alloc: Global, bytes: &[u8], sizes: &str) -> Result<Vec<u8>, NoMemory> {
    let mut first = Vec::new(alloc);
    for size in sizes.split_whitespace() {
        let told = in_pieces(alloc, bytes, size)?;
        if first.is_empty() {
            first = told;
        } else if first.as_slice() != told.as_slice() {
            return Ok(format!(in alloc; "differs in pieces of {size}")?.into_bytes());
        }
    }
    Ok(first)
}

fn in_pieces(alloc: Global, bytes: &[u8], size: &str) -> Result<Vec<u8>, NoMemory> {
    match read_number(size.as_bytes()) {
        Some(size) if 0 < size => told(alloc, bytes, size as usize),
        _ => unknown(alloc),
    }
}

// The items of the bytes, fed in pieces of this size, and then the end.
fn told(alloc: Global, bytes: &[u8], size: usize) -> Result<Vec<u8>, NoMemory>
    requires { 0 < size }
{
    let mut out = Vec::new(alloc);
    let mut talk = Talk::new(alloc);
    for piece in bytes.chunks(size) {
        talk.feed(piece)?;
        if !tell_items(&mut out, alloc, &mut talk)? {
            return Ok(out);
        }
    }
    talk.finish();
    tell_items(&mut out, alloc, &mut talk)?;
    Ok(out)
}

// The items that the talk gives until it wants more, which is then the answer, or ends.
fn tell_items(out: &mut Vec<u8>, alloc: Global, talk: &mut Talk) -> Result<bool, NoMemory>
    ensures { talk.new.ended ≡ talk.old.ended }
{
    for _ in 0..20 {
        match talk.next()? {
            Next::Request(raw) => tell_request(out, &raw)?,
            Next::Continue => out.extend_from_slice(b"100;")?,
            Next::More => return Ok(true),
            Next::Close(status) => {
                tell_close(out, alloc, status)?;
                return Ok(false);
            }
            Next::End => {
                out.extend_from_slice(b"end;")?;
                return Ok(false);
            }
            Next::Cut => {
                out.extend_from_slice(b"cut;")?;
                return Ok(false);
            }
        }
    }
    Ok(false)
}

// The status of a closing reply.
fn tell_close(out: &mut Vec<u8>, alloc: Global, status: u16) -> Result<(), NoMemory> {
    let text = format!(in alloc; "{status};")?;
    out.extend_from_slice(text.as_bytes())?;
    Ok(())
}

// A request: method, path, query, credentials, key, account, body, and whether it is the last.
fn tell_request(out: &mut Vec<u8>, raw: &Raw) -> Result<(), NoMemory> {
    out.extend_from_slice(raw.method.as_slice())?;
    out.extend_from_slice(b" ")?;
    out.extend_from_slice(raw.path.as_slice())?;
    tell_some(out, &raw.query)?;
    tell_some(out, &raw.auth)?;
    tell_some(out, &raw.key)?;
    tell_some(out, &raw.account)?;
    out.extend_from_slice(b" [")?;
    out.extend_from_slice(raw.body.as_slice())?;
    out.extend_from_slice(if raw.close { b"] last;" } else { b"];" })?;
    Ok(())
}

// The text, or a minus sign where there is none.
fn tell_some(out: &mut Vec<u8>, text: &Option<Bytes>) -> Result<(), NoMemory> {
    out.extend_from_slice(b" ")?;
    match text {
        Some(text) => out.extend_from_slice(text.as_slice())?,
        None => out.extend_from_slice(b"-")?,
    }
    Ok(())
}

fn fronts(alloc: Global, line: Line) -> Result<Vec<u8>, NoMemory> {
    let bytes = line.bytes(alloc, 3)?;
    let mut out = Vec::new(alloc);
    let mut before = Vec::new(alloc);
    for (at, _) in bytes.as_slice().iter().enumerate() {
        let front = bytes.as_slice().get(..at + 1).unwrap_or(bytes.as_slice());
        if line.number(2) <= front.len() as u64 {
            before = add_front(&mut out, alloc, front, before)?;
        }
    }
    Ok(out)
}

// Adds a front's length and items where they aren't those of the front before it, and gives them back.
fn add_front(
    out: &mut Vec<u8>,
    alloc: Global,
    front: &[u8],
    before: Vec<u8>,
) -> Result<Vec<u8>, NoMemory> {
    let items = in_sizes(alloc, front, "1 7 100000")?;
    if items.as_slice() != before.as_slice() {
        let length = format!(in alloc; "{}: ", front.len())?;
        out.extend_from_slice(length.as_bytes())?;
        out.extend_from_slice(items.as_slice())?;
        out.push(b' ')?;
    }
    Ok(items)
}

// The status, where it is one that payhost writes a reason for.
fn status(number: u16) -> Option<u16>
    ensures { IfSome result (λ status. IsTrue (is_status status)) }
{
    match number {
        200 | 400 | 401 | 402 | 404 | 409 | 413 | 431 | 500 | 501 | 503 | 505 => Some(number),
        _ => None,
    }
}

/// The bytes of a reply with this status and this body.
pub fn reply_text(
    alloc: Global,
    number: u16,
    body: Bytes,
    words: &str,
) -> Result<Vec<u8>, NoMemory> {
    let Some(status) = status(number) else {
        return said(alloc, "no such status");
    };
    let reply = Reply {
        status,
        body,
        replayed: words.contains("replayed"),
        retry: words.contains("retry"),
    };
    Ok(render(alloc, &reply, words.contains("last"))?.into_vec())
}

fn reply(alloc: Global, line: Line) -> Result<Vec<u8>, NoMemory> {
    let body = Bytes::new(line.bytes(alloc, 3)?);
    match u16::try_from(line.number(2)) {
        Ok(number) => reply_text(alloc, number, body, line.field(4)),
        Err(_) => said(alloc, "no such status"),
    }
}
