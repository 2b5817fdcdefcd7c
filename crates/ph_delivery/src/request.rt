//! The request of a delivery.
ghost use Rattle.std.specs.Prelude.{◌≡◌, ◌++◌, length, IfOk, OnOk};
ghost use Rattle.ph_delivery.specs.Requests.{delivery_request, target_lines, signature_line, length_lines, IsSigned};

use ph_base::{Bytes, NoMemory};
use ph_sign::{header, header_is_good};
use std::alloc::Global;

// The request line and the line of the host.
fn push_target(
    out: &mut Vec<u8>,
    alloc: Global,
    host: &[u8],
    port: u16,
    path: &[u8],
) -> Result<(), NoMemory>
    ensures { OnOk result (out.new.items ≡ out.old.items ++ target_lines host.now port path.now) }
{
    let number = port.to_string(alloc)?;
    out.extend_from_slice(b"POST ")?;
    out.extend_from_slice(path)?;
    out.extend_from_slice(b" HTTP/1.1\r\n")?;
    out.extend_from_slice(b"Host: ")?;
    out.extend_from_slice(host)?;
    out.extend_from_slice(b":")?;
    out.extend_from_slice(number.as_bytes())?;
    out.extend_from_slice(b"\r\n")?;
    Ok(())
}

// The line of the signatures, at the moment `at`.
fn push_signature(
    out: &mut Vec<u8>,
    alloc: Global,
    secrets: &[Bytes],
    at: u64,
    body: &[u8],
) -> Result<(), NoMemory>
    ensures { OnOk result (out.new.items ≡ out.old.items ++ signature_line secrets.now at body.now) }
{
    let signatures = header(alloc, secrets, at, body)?;
    out.extend_from_slice(b"Stripe-Signature: ")?;
    out.extend_from_slice(signatures.as_slice())?;
    out.extend_from_slice(b"\r\n")?;
    Ok(())
}

// The line of the body's length, and the lines behind it.
fn push_length(out: &mut Vec<u8>, alloc: Global, length: usize) -> Result<(), NoMemory>
    ensures { OnOk result (out.new.items ≡ out.old.items ++ length_lines length) }
{
    let number = length.to_string(alloc)?;
    out.extend_from_slice(b"Content-Length: ")?;
    out.extend_from_slice(number.as_bytes())?;
    out.extend_from_slice(b"\r\n")?;
    out.extend_from_slice(b"Connection: close\r\n\r\n")?;
    Ok(())
}

/// The request that delivers an event to the endpoint at this host, port and path, as it is sent at
/// the moment `at` (seconds since 1970): its body is the event's, and its header `Stripe-Signature`
/// has a signature of the moment and the body under each of the endpoint's secrets, in their order.
#[tactic(auto, unfolding(crate::specs::Requests::delivery_request))]
pub fn delivery_request(
    alloc: Global,
    host: &[u8],
    port: u16,
    path: &[u8],
    secrets: &[Bytes],
    at: u64,
    body: &[u8],
) -> Result<Bytes, NoMemory>
    ensures text { IfOk result (λ text. text
        ≡ delivery_request host.now port path.now secrets.now at body.now) }

    // Under each secret it is good from the moment that it is sent at on.
    ensures signed { IfOk result (IsSigned secrets.now at body.now) }
{
    header_is_good();
    let mut out = Vec::new(alloc);
    push_target(&mut out, alloc, host, port, path)?;
    out.extend_from_slice(b"User-Agent: payhost\r\nContent-Type: application/json\r\n")?;
    push_signature(&mut out, alloc, secrets, at, body)?;
    push_length(&mut out, alloc, body.len())?;
    out.extend_from_slice(body)?;
    Ok(Bytes::new(out))
}
