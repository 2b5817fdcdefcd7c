//! A request once more.
ghost use Rattle.std.specs.Prelude.{◌≡◌, IfOk};

use ph_base::NoMemory;
use ph_http::Raw;
use ph_items::copy_text;
use std::alloc::Global;

/// The same request once more.
pub(crate) fn copy_raw(alloc: Global, raw: &Raw) -> Result<Raw, NoMemory>
    ensures { IfOk result (λ copy. copy ≡ raw.now) }
{
    Ok(Raw {
        method: raw.method.copy(alloc)?,
        path: raw.path.copy(alloc)?,
        query: copy_text(alloc, raw.query.as_ref())?,
        auth: copy_text(alloc, raw.auth.as_ref())?,
        key: copy_text(alloc, raw.key.as_ref())?,
        account: copy_text(alloc, raw.account.as_ref())?,
        body: raw.body.copy(alloc)?,
        close: raw.close,
    })
}
