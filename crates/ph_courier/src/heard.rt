//! What bytes of an answer say.
ghost use Rattle.std.specs.Prelude.{◌≡◌, IfNone, IfSome};
ghost use Rattle.ph_courier.specs.Answers as spec;
ghost use Rattle.ph_courier.specs.Answers.{HasNoStatus, HasStatus};

use httparse::Status;
use httparse::spans::{EMPTY_HEADER_SPAN, parse_response};
use ph_delivery::Outcome;

/// The status of the response head that the bytes begin with, where they begin with one of at most
/// 64 fields.
pub fn status(bytes: &[u8]) -> Option<u16>
    ensures some { IfSome result (HasStatus bytes.now) }
    ensures none { IfNone result (HasNoStatus bytes.now) }
{
    let mut headers = [EMPTY_HEADER_SPAN; 64];
    match parse_response(bytes, &mut headers) {
        Ok(Status::Complete(head)) => Some(head.code),
        _ => None,
    }
}

// Whether a status is one from 200 to 299.
fn is_success(status: u16) -> bool
    ensures { result ≡ spec.is_success status }
{
    200 <= status && status <= 299
}

/// What a status says.
pub fn outcome(status: u16) -> Outcome
    ensures { result ≡ spec.outcome_of status }
{
    if is_success(status) {
        Outcome::Accepted
    } else {
        Outcome::Refused(status)
    }
}
