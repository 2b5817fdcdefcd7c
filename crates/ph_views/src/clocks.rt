//! The clock.
ghost use Rattle.std.specs.Prelude.{◌≡◌, IfOk};
ghost use Rattle.ph_views.specs.Clocks.{clock_doc};

use crate::values::put_moment;
use ph_base::NoMemory;
use ph_json::{Doc, Members};
use std::alloc::Global;

/// The document of the clock that shows a moment, in seconds since 1970.
pub fn clock_doc(alloc: Global, now: u64) -> Result<Doc, NoMemory>
    ensures { IfOk result (λ doc. doc ≡ clock_doc now) }
{
    let mut members = Members::new(alloc);
    put_moment(&mut members, "now", now)?;
    members.word("object", "payhost.clock")?;
    Ok(members.done())
}
