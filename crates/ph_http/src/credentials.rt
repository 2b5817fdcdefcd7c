//! The credentials that an `Authorization` header presents.
ghost use Rattle.std.specs.Prelude.{◌≡◌, ◌<◌, ◌==◌, IfOk, IfSome, length, option_and_then, option_map};
ghost use Rattle.std.specs.List.{position};
ghost use Rattle.ph_http.specs.Credentials.{before_colon, by_scheme, credentials_in, plain_of, user_of};

use base64::DecodeAllocError;
use base64::engine::general_purpose::STANDARD;
use ph_base::{Bytes, NoMemory};
use std::alloc::Global;

// Where the first such byte stands.
fn byte_at(bytes: &[u8], wanted: u8) -> Option<usize>
    ensures value { result ≡ position (λ b. b == wanted) bytes.now }
    ensures within { IfSome result (λ i. i < length bytes.now) }
{
    bytes.iter().position(|b| *b == wanted)
}

// What the text stands for in base64.
fn plain(alloc: Global, text: &[u8]) -> Result<Option<Vec<u8>>, NoMemory>
    ensures { IfOk result (λ plain. option_map (λ v. v.items) plain ≡ plain_of text.now) }
{
    match STANDARD.decode(alloc, text) {
        Ok(bytes) => Ok(Some(bytes)),
        Err(DecodeAllocError::DecodeError(_)) => Ok(None),
        Err(DecodeAllocError::OutOfMemory) => Err(NoMemory),
    }
}

// The text up to its first colon.
fn name_in(text: &[u8]) -> Option<&[u8]>
    ensures { option_map (λ v. v.now) result ≡ before_colon text.entry.now }
{
    let colon = byte_at(text, b':')?;
    Some(&text[..colon])
}

// The user that Basic credentials name.
fn user(alloc: Global, text: &[u8]) -> Result<Option<Bytes>, NoMemory>
    ensures { IfOk result (λ user. user ≡ user_of text.now) }
{
    match plain(alloc, text)? {
        Some(plain) => copied(alloc, name_in(plain.as_slice())),
        None => Ok(None),
    }
}

/// A copy of the bytes that are there, if any are.
pub fn copied(alloc: Global, bytes: Option<&[u8]>) -> Result<Option<Bytes>, NoMemory>
    ensures { IfOk result (λ copy. copy ≡ option_map (λ b. b.now) bytes.entry) }
{
    match bytes {
        Some(bytes) => Ok(Some(Bytes::from_slice(alloc, bytes)?)),
        None => Ok(None),
    }
}

// The credentials that the text gives under this scheme.
fn under_scheme(alloc: Global, scheme: &[u8], text: &[u8]) -> Result<Option<Bytes>, NoMemory>
    ensures { IfOk result (λ auth. auth ≡ by_scheme scheme.now text.now) }
{
    if scheme.eq_ignore_ascii_case(b"bearer") {
        Ok(Some(Bytes::from_slice(alloc, text)?))
    } else if scheme.eq_ignore_ascii_case(b"basic") {
        user(alloc, text)
    } else {
        Ok(None)
    }
}

/// The credentials of a value of `Authorization`: the text after `Bearer `, or the user of `Basic `.
pub fn credentials(alloc: Global, value: &[u8]) -> Result<Option<Bytes>, NoMemory>
    ensures { IfOk result (λ auth. auth ≡ credentials_in value.now) }
{
    match byte_at(value, b' ') {
        Some(space) => under_scheme(alloc, &value[..space], &value[space + 1..]),
        None => Ok(None),
    }
}
