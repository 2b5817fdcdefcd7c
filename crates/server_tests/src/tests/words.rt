//! The words of a server, and requests of a client.
ghost use Rattle.std.specs.Prelude.{IfOk};
ghost use Rattle.ph_io.specs.MemGates.{IsUnused};

use ph_base::{Bytes, NoMemory};
use ph_io::{MemDuplex, MemSink, MemSource};
use std::alloc::Global;

/// A create of 20.00 usd, without a payment method.
pub const CREATE: &[u8] =
    b"POST /v1/payment_intents HTTP/1.1\r\nHost: localhost\r\nAuthorization: Bearer sk_test_payhost\r\nContent-Length: 24\r\n\r\namount=2000&currency=usd";

/// A retrieve of the payment intent that the first create makes.
pub const RETRIEVE: &[u8] =
    b"GET /v1/payment_intents/pi_0000000000000002 HTTP/1.1\r\nHost: localhost\r\nAuthorization: Bearer sk_test_payhost\r\n\r\n";

/// A create whose payment is confirmed at once.
pub const PAY: &[u8] =
    b"POST /v1/payment_intents HTTP/1.1\r\nHost: localhost\r\nAuthorization: Bearer sk_test_payhost\r\nContent-Length: 65\r\n\r\namount=2000&currency=usd&payment_method=pm_card_visa&confirm=true";

/// What the create and the retrieve are answered, as the profile has it.
pub const INTENT: &[u8] =
    b"HTTP/1.1 200 OK\r\nContent-Type: application/json\r\nContent-Length: 503\r\n\r\n{\"amount\":2000,\"amount_capturable\":0,\"amount_received\":0,\"application_fee_amount\":null,\"cancellation_reason\":null,\"capture_method\":\"automatic\",\"client_secret\":\"pi_0000000000000002_secret_payhost\",\"created\":1700000000,\"currency\":\"usd\",\"description\":null,\"id\":\"pi_0000000000000002\",\"last_payment_error\":null,\"latest_charge\":null,\"livemode\":false,\"metadata\":{},\"next_action\":null,\"object\":\"payment_intent\",\"payment_method\":null,\"status\":\"requires_payment_method\",\"transfer_data\":null,\"transfer_group\":null}";

/// The words that ask for a server of so many workers, a digit.
pub fn words(alloc: Global, workers: &[u8]) -> Result<Vec<Bytes>, NoMemory> {
    let mut words = Vec::new(alloc);
    words.push(Bytes::from_slice(alloc, b"serve")?)?;
    words.push(Bytes::from_slice(alloc, b"--port")?)?;
    words.push(Bytes::from_slice(alloc, b"1")?)?;
    words.push(Bytes::from_slice(alloc, b"--workers")?)?;
    words.push(Bytes::from_slice(alloc, workers)?)?;
    Ok(words)
}

/// A connection in memory that sends these bytes.
pub fn conn(alloc: Global, bytes: &[u8]) -> Result<MemDuplex, NoMemory>
    ensures { IfOk result IsUnused }
{
    let source = MemSource::new(Vec::from_slice(alloc, bytes)?, 4096, Vec::new(alloc));
    let sink = MemSink::new(alloc, 4096, Vec::new(alloc));
    Ok(MemDuplex::new(source, sink, None))
}
