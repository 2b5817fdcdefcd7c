//! Requests to a world, and the setup of its book.
ghost use Rattle.std.specs.Prelude.{◌≤◌, IfOk};
ghost use Rattle.ph_items.specs.Clocks.{clock_limit};

use ph_base::{Bytes, NoMemory};
use ph_book::Setup;
use ph_http::Raw;
use std::alloc::Global;

const KEY: &[u8] = b"sk_test_payhost";

/// A setup that opens in November 2023, with room for so many entries.
pub fn setup_of(alloc: Global, entries: u32) -> Result<Setup, NoMemory>
    ensures { IfOk result (λ setup. setup.opened ≤ clock_limit) }
{
    Ok(Setup {
        key: Bytes::from_slice(alloc, KEY)?,
        opened: 1_700_000_000,
        entries,
        weight: 536_870_912,
    })
}

fn bytes_if(alloc: Global, text: &str) -> Result<Option<Bytes>, NoMemory> {
    match text {
        "-" => Ok(None),
        _ => Ok(Some(Bytes::from_slice(alloc, text.as_bytes())?)),
    }
}

/// A request under an idempotency key, with a body; `-` is none.
pub fn request_of(
    alloc: Global,
    key: &str,
    method: &str,
    path: &str,
    body: &str,
) -> Result<Raw, NoMemory> {
    let body = match body {
        "-" => b"".as_slice(),
        _ => body.as_bytes(),
    };
    Ok(Raw {
        method: Bytes::from_slice(alloc, method.as_bytes())?,
        path: Bytes::from_slice(alloc, path.as_bytes())?,
        query: None,
        auth: Some(Bytes::from_slice(alloc, KEY)?),
        key: bytes_if(alloc, key)?,
        account: None,
        body: Bytes::from_slice(alloc, body)?,
        close: false,
    })
}
