//! Requests, from a head and a body.
ghost use Rattle.std.specs.Prelude.{◌≡◌, ◌<◌, ◌&&◌, not, All, IfOk, IfSome, length, map, option_map};
ghost use Rattle.httparse.specs.Spans.{IsHeaderWithin, header_bytes};
ghost use Rattle.ph_http.specs.Credentials.{auth_of};
ghost use Rattle.ph_http.specs.Requests.{closes_after, expects, mark_of, path_at, query_at, raw_with};

use crate::credentials::{copied, credentials};
use crate::fields::{ValueTest, any_passes, value_named};
use crate::message::Raw;
use httparse::spans::HeaderSpan;
use ph_base::{Bytes, NoMemory};
use std::alloc::Global;

// Where the first question mark of the target stands.
fn mark_at(target: &[u8]) -> Option<usize>
    ensures value { result ≡ mark_of target.now }
    ensures within { IfSome result (λ i. i < length target.now) }
{
    target.iter().position(|b| *b == b'?')
}

// The target up to its first question mark.
fn path(target: &[u8]) -> &[u8]
    ensures { result.now ≡ path_at (mark_of target.entry.now) target.entry.now }
{
    match mark_at(target) {
        Some(i) => &target[..i],
        None => target,
    }
}

// What follows the first question mark of the target.
fn query(target: &[u8]) -> Option<&[u8]>
    ensures { option_map (λ v. v.now) result ≡ query_at (mark_of target.entry.now) target.entry.now }
{
    let mark = mark_at(target)?;
    Some(&target[mark + 1..])
}

// What the first Authorization header presents.
fn presented(alloc: Global, head: &[u8], headers: &[HeaderSpan]) -> Result<Option<Bytes>, NoMemory>
    requires { All (IsHeaderWithin (length head.now)) headers.now }
    ensures { IfOk result (λ auth. auth ≡ auth_of (map (header_bytes head.now) headers.now)) }
{
    match value_named(head, headers, b"authorization") {
        Some(value) => credentials(alloc, value),
        None => Ok(None),
    }
}

// The session ends after the reply.
fn is_last(head: &[u8], minor: u8, headers: &[HeaderSpan]) -> bool
    requires { All (IsHeaderWithin (length head.now)) headers.now }
    ensures { result ≡ closes_after minor (map (header_bytes head.now) headers.now) }
{
    minor == 0 || any_passes(head, headers, b"connection", ValueTest::ListsClose)
}

/// A head of this version and these headers, with a body of n bytes, asks for a 100 line that wasn't given yet.
#[tactic(auto, unfolding(crate::specs::Requests::expects))]
pub fn is_continue_due(
    head: &[u8],
    minor: u8,
    headers: &[HeaderSpan],
    n: usize,
    continued: bool,
) -> bool
    requires { All (IsHeaderWithin (length head.now)) headers.now }
    ensures { result ≡ (expects minor (map (header_bytes head.now) headers.now) n && not continued) }
{
    minor == 1
        && any_passes(head, headers, b"expect", ValueTest::Expectation)
        && n > 0
        && !continued
}

/// The request of these parts.
#[tactic(auto, unfolding(crate::specs::Requests::raw_with))]
pub fn whole_request(
    alloc: Global,
    head: &[u8],
    method: &[u8],
    target: &[u8],
    minor: u8,
    headers: &[HeaderSpan],
    body: &[u8],
) -> Result<Raw, NoMemory>
    requires { All (IsHeaderWithin (length head.now)) headers.now }
    ensures { IfOk result (λ raw. raw ≡ raw_with method.now target.now minor (map (header_bytes head.now) headers.now) body.now) }
{
    Ok(Raw {
        method: Bytes::from_slice(alloc, method)?,
        path: Bytes::from_slice(alloc, path(target))?,
        query: copied(alloc, query(target))?,
        auth: presented(alloc, head, headers)?,
        key: copied(alloc, value_named(head, headers, b"idempotency-key"))?,
        account: copied(alloc, value_named(head, headers, b"stripe-account"))?,
        body: Bytes::from_slice(alloc, body)?,
        close: is_last(head, minor, headers),
    })
}
