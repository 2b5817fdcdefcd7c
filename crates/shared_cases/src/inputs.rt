//! What clients send.

use std::alloc::{AllocError, Global};

/// Creates of payment intents, one behind another: each is of ten more than the one before it, up from the first amount. Behind the
/// last one the bytes end.
pub fn creates(alloc: Global, first: u32, count: u32) -> Result<Vec<u8>, AllocError> {
    let mut bytes = Vec::new(alloc);
    for i in 0..count {
        let amount = first.saturating_add(i.saturating_mul(10));
        let body = format!(in alloc; "amount={amount}&currency=usd")?;
        let request = post(alloc, "/v1/payment_intents", body.as_str())?;
        bytes.extend_from_slice(request.as_slice())?;
    }
    Ok(bytes)
}

/// A create that is confirmed with this card.
pub fn payment(alloc: Global, card: &str) -> Result<Vec<u8>, AllocError> {
    let body = format!(in alloc; "amount=2000&currency=usd&confirm=true&payment_method={card}")?;
    post(alloc, "/v1/payment_intents", body.as_str())
}

/// A request with this body.
pub fn post(alloc: Global, path: &str, body: &str) -> Result<Vec<u8>, AllocError> {
    let head = format!(in alloc;
        "POST {path} HTTP/1.1\r\nAuthorization: Bearer sk_test_payhost\r\nContent-Length: {}\r\n\r\n",
        body.len()
    )?;
    let mut bytes = head.into_bytes();
    bytes.extend_from_slice(body.as_bytes())?;
    Ok(bytes)
}

/// A create that is confirmed, under this idempotency key.
pub fn keyed_payment(alloc: Global, key: &str) -> Result<Vec<u8>, AllocError> {
    let body = "amount=2000&currency=usd&confirm=true&payment_method=pm_card_visa";
    let head = format!(in alloc;
        "POST /v1/payment_intents HTTP/1.1\r\nAuthorization: Bearer sk_test_payhost\r\nIdempotency-Key: {key}\r\nContent-Length: {}\r\n\r\n",
        body.len()
    )?;
    let mut bytes = head.into_bytes();
    bytes.extend_from_slice(body.as_bytes())?;
    Ok(bytes)
}

/// A retrieve.
pub fn get(alloc: Global, path: &str) -> Result<Vec<u8>, AllocError> {
    let head = format!(in alloc;
        "GET {path} HTTP/1.1\r\nAuthorization: Bearer sk_test_payhost\r\n\r\n"
    )?;
    Ok(head.into_bytes())
}
