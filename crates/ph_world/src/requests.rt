//! Requests that arrive more than once.
ghost use Rattle.std.specs.Prelude.{◌≡◌, IfOk};

use ph_base::{Bytes, NoMemory};
use ph_http::Raw;
use std::alloc::Global;

// A copy of bytes, where there are any.
fn copy_if(alloc: Global, bytes: &Option<Bytes>) -> Result<Option<Bytes>, NoMemory>
    ensures { IfOk result (λ copy. copy ≡ bytes.now) }
{
    match bytes {
        Some(bytes) => Ok(Some(bytes.copy(alloc)?)),
        None => Ok(None),
    }
}

/// The same request once more.
pub fn copy_of(alloc: Global, raw: &Raw) -> Result<Raw, NoMemory>
    ensures { IfOk result (λ copy. copy ≡ raw.now) }
{
    Ok(Raw {
        method: raw.method.copy(alloc)?,
        path: raw.path.copy(alloc)?,
        query: copy_if(alloc, &raw.query)?,
        auth: copy_if(alloc, &raw.auth)?,
        key: copy_if(alloc, &raw.key)?,
        account: copy_if(alloc, &raw.account)?,
        body: raw.body.copy(alloc)?,
        close: raw.close,
    })
}
