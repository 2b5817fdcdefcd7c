//! The bytes of a reply.
ghost use Rattle.std.specs.Prelude.{◌≡◌, ◌++◌, IfOk, IsTrue, OnOk};
ghost use Rattle.ph_http.specs.Replies.{is_status, length_line, line_if, reason_of, rendered, status_lines};

use crate::message::Reply;
use ph_base::{Bytes, NoMemory};
use std::alloc::Global;

// The reason that a status is written with.
fn reason(status: u16) -> &'static [u8]
    requires status { IsTrue (is_status status) }
    ensures { result.now ≡ reason_of status }
{
    match status {
        200 => b"OK",
        400 => b"Bad Request",
        401 => b"Unauthorized",
        402 => b"Payment Required",
        404 => b"Not Found",
        409 => b"Conflict",
        413 => b"Content Too Large",
        431 => b"Request Header Fields Too Large",
        500 => b"Internal Server Error",
        501 => b"Not Implemented",
        503 => b"Service Unavailable",
        505 => b"HTTP Version Not Supported",
        _ => unreachable!(),
    }
}

// The status line, and the line of the type.
fn push_status(out: &mut Vec<u8>, alloc: Global, status: u16) -> Result<(), NoMemory>
    requires status { IsTrue (is_status status) }
    ensures { OnOk result (out.new.items ≡ out.old.items ++ status_lines status) }
{
    let number = status.to_string(alloc)?;
    out.extend_from_slice(b"HTTP/1.1 ")?;
    out.extend_from_slice(number.as_bytes())?;
    out.extend_from_slice(b" ")?;
    out.extend_from_slice(reason(status))?;
    out.extend_from_slice(b"\r\n")?;
    out.extend_from_slice(b"Content-Type: application/json\r\n")?;
    Ok(())
}

// The line of the body's length.
fn push_length(out: &mut Vec<u8>, alloc: Global, length: usize) -> Result<(), NoMemory>
    ensures { OnOk result (out.new.items ≡ out.old.items ++ length_line length) }
{
    let number = length.to_string(alloc)?;
    out.extend_from_slice(b"Content-Length: ")?;
    out.extend_from_slice(number.as_bytes())?;
    out.extend_from_slice(b"\r\n")?;
    Ok(())
}

// The line with its end, where it applies.
fn push_line_if(out: &mut Vec<u8>, applies: bool, line: &[u8]) -> Result<(), NoMemory>
    ensures { OnOk result (out.new.items ≡ out.old.items ++ line_if applies line.now) }
{
    if applies {
        out.extend_from_slice(line)?;
        out.extend_from_slice(b"\r\n")?;
    }
    Ok(())
}

/// A reply as it is written, the last of its session or not.
#[tactic(auto, unfolding(crate::specs::Replies::rendered))]
pub fn render(alloc: Global, reply: &Reply, close: bool) -> Result<Bytes, NoMemory>
    requires status { IsTrue (is_status reply.now.status) }
    ensures { IfOk result (λ text. text ≡ rendered reply.now close) }
{
    let mut out = Vec::new(alloc);
    push_status(&mut out, alloc, reply.status)?;
    push_length(&mut out, alloc, reply.body.as_slice().len())?;
    push_line_if(&mut out, reply.replayed, b"Idempotent-Replayed: true")?;
    push_line_if(&mut out, reply.retry, b"Stripe-Should-Retry: true")?;
    push_line_if(&mut out, close, b"Connection: close")?;
    out.extend_from_slice(b"\r\n")?;
    out.extend_from_slice(reply.body.as_slice())?;
    Ok(Bytes::new(out))
}
