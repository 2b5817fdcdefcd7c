//! What a case prints of sessions and of a history.

use crate::worker::Worker;
use ph_bank::{Acquirer, MemAcquirer};
use ph_book::{Deed, Entry};
use ph_io::MemDuplex;
use std::alloc::{AllocError, Global};
use std::str;

/// How a session ended, and the status line of each reply that it wrote.
pub fn session<A: Acquirer>(alloc: Global, worker: &Worker<A>) -> Result<String, AllocError> {
    let mut text = match worker.ended {
        Some(Ok(closed)) => format!(in alloc; "{} replies, {:?}\n", closed.replies, closed.stop)?,
        Some(Err(why)) => format!(in alloc; "broken off: {why:?}\n")?,
        None => format!(in alloc; "not served\n")?,
    };
    for reply in written(&worker.conn).split("HTTP/1.1 ").skip(1) {
        if let Some((status, _)) = reply.split_once("\r\n") {
            text.push_str("  ")?;
            text.push_str(status)?;
            text.push_str("\n")?;
        }
    }
    Ok(text)
}

/// The references that a link was asked of, in order.
pub fn asked(alloc: Global, link: &MemAcquirer) -> Result<String, AllocError> {
    let mut text = String::new(alloc);
    for ask in link.asked() {
        let line = format!(in alloc; "  asked: {}\n", ask.order.reference)?;
        text.push_str(line.as_str())?;
    }
    Ok(text)
}

/// What was written to a connection, which is text.
pub fn written(conn: &MemDuplex) -> &str {
    match str::from_utf8(conn.written()) {
        Ok(text) => text,
        Err(_) => "",
    }
}

/// How many replies of a session are of this status.
pub fn count(conn: &MemDuplex, status: &str) -> usize {
    written(conn)
        .split("HTTP/1.1 ")
        .filter(|reply| reply.starts_with(status))
        .count()
}

/// A line for each entry.
pub fn history(alloc: Global, entries: &[Entry]) -> Result<String, AllocError> {
    let mut text = String::new(alloc);
    for entry in entries {
        let line = match &entry.deed {
            Deed::Call(_) => format!(in alloc; "caller {}: call\n", entry.caller)?,
            Deed::Finish(run, ruling) => format!(in alloc;
                "caller {}: finish {run} {ruling:?}\n",
                entry.caller
            )?,
            Deed::Park(run, why) => format!(in alloc;
                "caller {}: park {run} {why:?}\n",
                entry.caller
            )?,
            Deed::Resume => format!(in alloc; "caller {}: resume\n", entry.caller)?,
            Deed::Tick(moment) => format!(in alloc; "caller {}: tick {moment}\n", entry.caller)?,
        };
        text.push_str(line.as_str())?;
    }
    Ok(text)
}

/// Whether the entries of a caller are these calls, each once and in order: creates of amounts from the first one on, each
/// of ten more than the one before it.
pub fn calls_in_order(
    alloc: Global,
    entries: &[Entry],
    caller: u64,
    first: u32,
    count: u32,
) -> Result<bool, AllocError> {
    let mut next: u32 = 0;
    for entry in entries {
        if entry.caller == caller {
            let amount = first.saturating_add(next.saturating_mul(10));
            let body = format!(in alloc; "amount={amount}&currency=usd")?;
            match &entry.deed {
                Deed::Call(raw) if raw.body.as_slice() == body.as_bytes() => {}
                _ => return Ok(false),
            }
            next = next.saturating_add(1);
        }
    }
    Ok(next == count)
}
