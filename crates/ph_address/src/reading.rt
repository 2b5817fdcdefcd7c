//! Reading the address of an endpoint.
ghost use Rattle.std.specs.Prelude.{◌≡◌, ◌==◌, drop, IfOk};
ghost use Rattle.std.specs.List.{list_any};
ghost use Rattle.http_uri.specs.ByteClasses.{at_sign};
ghost use Rattle.http_uri.specs.Uri.{uri_authority, uri_data, uri_scheme};
ghost use Rattle.ph_address.specs.Address.{address_from, address_in, address_of, port_from, target_of};

use crate::address::Address;
use http_uri::{Authority, PathAndQuery, Uri, UriError};
use ph_base::{Bytes, NoMemory, read_number};
use std::alloc::Global;

fn has_user(authority: &[u8]) -> bool
    ensures { result ≡ list_any (λ b. b == at_sign) authority.now }
{
    for b in authority {
        if *b == b'@' {
            return true;
        }
    }
    false
}

/// What follows so many bytes.
fn after(text: &[u8], n: usize) -> &[u8]
    ensures { result.now ≡ drop n text.now }
{
    if n < text.len() { &text[n..] } else { b"" }
}

/// The port of what follows a host: 80 for nothing, or a colon and digits. The parser's own port isn't used, since it
/// takes `:` and `:8a` for no port, and `:+80` for 80.
fn port_from(tail: &[u8]) -> Option<u16>
    ensures { result ≡ port_from tail.now }
{
    match tail.split_first() {
        None => Some(80),
        Some((first, digits)) => {
            if *first != b':' {
                return None;
            }
            match read_number(digits) {
                Some(number) => {
                    if 1 <= number && number <= 65535 {
                        Some(number as u16)
                    } else {
                        None
                    }
                }
                None => None,
            }
        }
    }
}

/// The path with its query.
fn target(alloc: Global, kept: &PathAndQuery) -> Result<Bytes, NoMemory>
    ensures { IfOk result (λ b. b ≡ target_of kept.now) }
{
    let mut target = Vec::new(alloc);
    target.extend_from_slice(kept.path().as_bytes())?;
    match kept.query() {
        Some(query) => {
            target.push(b'?')?;
            target.extend_from_slice(query.as_bytes())?;
        }
        None => {}
    }
    Ok(Bytes::new(target))
}

fn address_in(
    alloc: Global,
    url: &[u8],
    scheme: &str,
    authority: &Authority,
    kept: &PathAndQuery,
) -> Result<Option<Address>, NoMemory>
    ensures { IfOk result (λ o. o ≡ address_in url.now scheme.now authority.now kept.now) }
{
    let text = authority.as_str().as_bytes();
    let host = authority.host().as_bytes();
    if scheme.as_bytes() != b"http".as_slice() || has_user(text) || host.is_empty() {
        return Ok(None);
    }
    match port_from(after(text, host.len())) {
        None => Ok(None),
        Some(port) => Ok(Some(Address {
            url: Bytes::from_slice(alloc, url)?,
            host: Bytes::from_slice(alloc, host)?,
            port,
            path: target(alloc, kept)?,
        })),
    }
}

fn address_from(alloc: Global, url: &[u8], uri: &Uri) -> Result<Option<Address>, NoMemory>
    ensures { IfOk result (λ o. o ≡ address_from url.now (uri_scheme uri.now) (uri_authority uri.now) (uri_data uri.now)) }
{
    match uri.scheme_str() {
        None => Ok(None),
        Some(scheme) => match uri.authority() {
            None => Ok(None),
            Some(authority) => match uri.path_and_query() {
                Some(kept) => address_in(alloc, url, scheme, authority, kept),
                None => unreachable!(),
            },
        },
    }
}

/// The address that a text is: an absolute URL (RFC 3986) with the scheme `http` in any case, a host, and no `@` in its
/// authority; after the host stands nothing, or a colon and a port from 1 to 65535 in digits. `None` for any other text.
#[tactic(auto, using(crate::proofs::AddressLemmas::address_of_none, crate::proofs::AddressLemmas::address_of_spelled))]
pub fn read_address(alloc: Global, text: &[u8]) -> Result<Option<Address>, NoMemory>
    ensures { IfOk result (λ o. o ≡ address_of text.now) }
{
    match Uri::from_bytes(alloc, text) {
        Ok(uri) => address_from(alloc, text, &uri),
        Err(UriError::Invalid(_)) => Ok(None),
        Err(_) => Err(NoMemory),
    }
}
