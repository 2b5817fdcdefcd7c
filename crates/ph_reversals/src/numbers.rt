//! The number that a new object has.
ghost use Rattle.std.specs.Prelude.{◌≡◌, ◌+◌, ◌<◌, ◌^◌, IfOk};
ghost use Rattle.ph_rows.specs.Batches.{last_place};

use ph_base::NoMemory;
use ph_rows::Batch;

// An object is only numbered up to this, so that those behind it are too.
const MOST: u64 = 1 << 62;

/// The number of the object that the next row begins.
pub fn next_number(batch: &Batch) -> Result<u64, NoMemory>
    ensures number { IfOk result (λ number. number ≡ last_place batch.now + 1) }
    ensures few { IfOk result (λ number. number < 2 ^ 63) }
{
    // No memory holds so many rows that 63 bits don't number them.
    if batch.count() < MOST {
        Ok(batch.count() + 1)
    } else {
        Err(NoMemory)
    }
}
