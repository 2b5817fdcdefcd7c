//! Calls that no request of a session reaches: methods that the host refuses before, and a body that is too large for
//! it.

use ph_base::{Bytes, NoMemory};
use ph_calls::{Call, read_call};
use ph_errors::Refusal;
use ph_http::Raw;
use ph_items::PLATFORM;
use std::alloc::Global;
use std::process::Abort;

fn raw(alloc: Global, method: &[u8], path: &[u8], body: Bytes) -> Result<Raw, NoMemory> {
    Ok(Raw {
        method: Bytes::from_slice(alloc, method)?,
        path: Bytes::from_slice(alloc, path)?,
        query: None,
        auth: None,
        key: None,
        account: None,
        body,
        close: false,
    })
}

// A request's refusal, where it is refused.
fn refusal(rt: &impl Abort, alloc: Global, request: Result<Raw, NoMemory>) -> Option<Refusal> {
    let request = request.expect(rt, "a request");
    read_call(alloc, PLATFORM, &request).err()
}

// The request is no call.
fn is_no_call(rt: &impl Abort, alloc: Global, method: &[u8], path: &[u8]) {
    let request = raw(alloc, method, path, Bytes::new(Vec::new(alloc)));
    match refusal(rt, alloc, request) {
        Some(Refusal::Api(error)) => {
            assert_eq!(rt; error.status, 404);
            assert_eq!(rt;
                error.message.as_slice(),
                b"Unrecognized request URL.".as_slice()
            );
        }
        Some(Refusal::NoMemory) | None => assert!(rt; false),
    }
}

// Another method, and one in another case.
#[test]
fn methods_of_no_call(rt: HostRuntime) {
    for (method, path) in [
        (b"post".as_slice(), b"/v1/payment_intents".as_slice()),
        (b"PUT", b"/v1/payment_intents/x"),
        (b"PUT", b"/v1/refunds"),
        (b"PUT", b"/v1/transfers"),
        (b"PUT", b"/v1/transfers/x/reversals"),
        (b"post", b"/v1/application_fees/x/refunds"),
        (b"PUT", b"/_host/clock"),
    ] {
        is_no_call(&rt, rt.alloc(), method, path);
    }
}

// Evidence of so many characters of four bytes each.
fn evidence(alloc: Global, characters: u64) -> Result<Raw, NoMemory> {
    let mut body = Vec::from_slice(alloc, b"evidence[uncategorized_text]=")?;
    for _ in 0..characters {
        body.extend_from_slice(b"%F0%9F%92%B3")?;
    }
    raw(alloc, b"POST", b"/v1/disputes/x", Bytes::new(body))
}

// 20,000 characters are taken, and one more is refused.
#[test]
fn evidence_in_characters_of_four_bytes(rt: HostRuntime) {
    let alloc = rt.alloc();
    assert!(rt; refusal(&rt, alloc, evidence(alloc, 20_000)).is_none());
    match refusal(&rt, alloc, evidence(alloc, 20_001)) {
        Some(Refusal::Api(error)) => {
            assert_eq!(rt; error.status, 400);
            assert!(rt; is_of_the_text(error.param));
        }
        Some(Refusal::NoMemory) | None => assert!(rt; false),
    }
}

fn is_of_the_text(param: Option<Bytes>) -> bool {
    match param {
        Some(param) => param.as_slice() == b"evidence[uncategorized_text]".as_slice(),
        None => false,
    }
}
