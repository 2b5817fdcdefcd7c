//! Which heads are taken.
ghost use Rattle.std.specs.Prelude.{◌≡◌, All, codes, length, map};
ghost use Rattle.httparse.specs.Spans.{IsHeaderWithin, header_bytes};
ghost use Rattle.ph_http.specs.Headers.{value_of};
ghost use Rattle.ph_http.specs.Verdict.{by_length, has_coding, verdict_of};

use crate::fields::{ValueTest, all_same, any_passes, value_named};
use crate::length::by_digits;
use httparse::spans::HeaderSpan;

/// What a head leads to.
#[derive(Clone, Copy, Debug)]
pub enum Verdict {
    /// The session closes with this status.
    Refuses(u16),
    /// A body of so many bytes belongs to the head.
    Takes(usize),
}

// The method is one that is served.
fn is_served(method: &[u8]) -> bool
    ensures { result ≡ Rattle.ph_http.specs.Verdict.is_served method.now }
{
    method == b"GET".as_slice() || method == b"POST".as_slice() || method == b"DELETE".as_slice()
}

// The body would come in a coding.
fn is_coded(head: &[u8], headers: &[HeaderSpan]) -> bool
    requires { All (IsHeaderWithin (length head.now)) headers.now }
    ensures { result ≡ has_coding (map (header_bytes head.now) headers.now) }
{
    any_passes(head, headers, b"transfer-encoding", ValueTest::Any)
        || any_passes(head, headers, b"content-encoding", ValueTest::Coded)
}

// What the Content-Length headers lead to.
fn body_length(head: &[u8], headers: &[HeaderSpan]) -> Verdict
    requires { All (IsHeaderWithin (length head.now)) headers.now }
    ensures { let fields = map (header_bytes head.now) headers.now in result ≡ by_length (value_of (codes "content-length") fields) fields }
{
    match value_named(head, headers, b"content-length") {
        None => Verdict::Takes(0),
        Some(value) => {
            if all_same(head, headers, b"content-length", value) {
                by_digits(value)
            } else {
                Verdict::Refuses(400)
            }
        }
    }
}

/// What a head of this method and these headers leads to.
#[tactic(auto, unfolding(crate::specs::Verdict::verdict_of))]
pub fn judge(head: &[u8], method: &[u8], headers: &[HeaderSpan]) -> Verdict
    requires { All (IsHeaderWithin (length head.now)) headers.now }
    ensures { result ≡ verdict_of method.now (map (header_bytes head.now) headers.now) }
{
    if is_served(method) && !is_coded(head, headers) {
        body_length(head, headers)
    } else {
        Verdict::Refuses(501)
    }
}
