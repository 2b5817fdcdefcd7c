//! Signatures, and the header that carries them.
ghost use Rattle.std.specs.Prelude.{◌≡◌, IfOk};
ghost use Rattle.ph_sign.specs.Hmac.{hmac_of};
ghost use Rattle.ph_sign.specs.Signatures.{signature_header, signature_of, signed_text};

use crate::decimal_text::DecimalText;
use crate::keyed_hash::{begun, block_of, ended};
use ph_base::{Bytes, NoMemory};
use sha2::Digest;
use std::alloc::Global;

// The keyed hash of the moment, a dot and the body.
fn digest_of(secret: &[u8], t: u64, body: &[u8]) -> [u8; 32]
    ensures { result ≡ hmac_of secret.now (signed_text t body.now) }
{
    let block = block_of(secret);
    let mut inner = begun(&block);
    inner.update(DecimalText::new(t).as_slice());
    inner.update(b".");
    inner.update(body);
    ended(inner, &block)
}

/// The signature of a body at the moment `t` under a secret: 64 hexadecimal digits in lower case.
pub fn signature(secret: &[u8], t: u64, body: &[u8]) -> [u8; 64]
    ensures { result ≡ signature_of secret.now t body.now }
{
    let mut digits = [0u8; 64];
    let written = hex::encode_to_slice(&digest_of(secret, t, body), &mut digits);
    prove!(written.is_ok());
    digits
}

/// The header of a body that is sent at the moment `t` (seconds): `t=` and the moment, then for each secret in
/// order `,v1=` and the signature under it, as in Stripe's `Stripe-Signature`.
pub fn header(alloc: Global, secrets: &[Bytes], t: u64, body: &[u8]) -> Result<Bytes, NoMemory>
    ensures { IfOk result (λ text. text ≡ signature_header secrets.now t body.now) }
{
    let mut text = Vec::new(alloc);
    text.extend_from_slice(b"t=")?;
    text.extend_from_slice(DecimalText::new(t).as_slice())?;
    'secrets: for secret in secrets {
        text.extend_from_slice(b",v1=")?;
        text.extend_from_slice(&signature(secret.as_slice(), t, body))?;
    }
    Ok(Bytes::new(text))
}
