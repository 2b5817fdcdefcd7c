//! Heads read by `httparse`.
ghost use Rattle.std.specs.Prelude.{◌≡◌, IfNone, IfSome, MatchOption, None, Some, option_map};
ghost use Rattle.httparse.specs.Grammar.{RequestHead};
ghost use Rattle.httparse.specs.Spans.{IsRequestAt, IsRequestWithin};
ghost use Rattle.ph_head.specs.Head.{IsNoHead, IsOneHead};
ghost use Rattle.ph_head.specs.Parts.{parts_at, parts_in};
ghost use Rattle.ph_head.specs.Reader.{head_of};

use httparse::Status;
use httparse::spans::{HeaderSpan, RequestSpans, parse_request};

// The parser's answer, where it read all of the bytes.
fn parsed(bytes: &[u8], room: &mut [HeaderSpan; 64]) -> Option<RequestSpans>
    ensures within { IfSome result (IsRequestWithin bytes.now room.new) }
    ensures read { IfSome result (λ spans. (head : RequestHead) × IsOneHead bytes.now head
        × IsRequestAt bytes.now room.new spans head) }
    ensures none { IfNone result (IsNoHead bytes.now) }
{
    match parse_request(bytes, room) {
        Ok(Status::Complete(spans)) => {
            if spans.len == bytes.len() {
                Some(spans)
            } else {
                None
            }
        }
        _ => None,
    }
}

/// Where the parts of the head stand that the bytes exactly are, its headers in `room`.
/// None where the bytes are no head, more than one, or a head of over 64 headers.
pub fn read_head(bytes: &[u8], room: &mut [HeaderSpan; 64]) -> Option<RequestSpans>
    ensures within { IfSome result (IsRequestWithin bytes.now room.new) }
    ensures parts { option_map (parts_at bytes.now room.new) result ≡ parts_in bytes.now }
{
    parsed(bytes, room)
}
