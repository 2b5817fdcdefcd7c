//! Room that is taken before the first change.
ghost use Rattle.std.specs.Prelude.{◌≡◌, ◌+◌, ◌*◌, ◌^◌, ◌<◌, ◌≤◌, ◌++◌, max, length, vec_capacity, option_to_list, IfSome, OnOk, OnSome};

use crate::acts::Entry;
use crate::spares::{Spare, add_spare};
use crate::store::Store;
use crate::weights::weight_after_row;
use ph_base::NoMemory;
use ph_rows::Row;
use std::alloc::Global;

/// Takes room for so many rows, and for an entry, and beside them for an entry and a row at the end of each live run.
pub fn take_room(
    entries: &mut Vec<Entry>,
    store: &mut Store,
    rows: usize,
    live: usize,
) -> Result<(), NoMemory>
    requires few { (rows < 2 ^ 63) × (live < 2 ^ 63) }
    ensures entries { entries.new.items ≡ entries.old.items }
    ensures entries_room { OnOk result (length entries.new.items + 1 + live ≤ vec_capacity entries.new) }
    ensures entries_kept { vec_capacity entries.old ≤ vec_capacity entries.new }
    ensures rows { store.new.rows ≡ store.old.rows }
    ensures time { store.new.time ≡ store.old.time }
    ensures rows_room { OnOk result (rows + live ≤ store.new.room) }
    ensures rows_kept { store.old.room ≤ store.new.room }
{
    entries.reserve(live + 1)?;
    store.reserve(rows + live)
}

/// Takes room for a run that takes an attempt up again, so that so many are live: for its entry and its row, and beside
/// them for an entry and a row at the end of each live run. The replies to a park of it are made. Gives this weight with
/// that of the row, which has no texts.
pub fn room_to_resume(
    alloc: Global,
    entries: &mut Vec<Entry>,
    store: &mut Store,
    spares: &mut Vec<Spare>,
    weight: u64,
    live: usize,
) -> Option<u64>
    requires few { live < 2 ^ 63 }
    ensures weight { IfSome result (λ sum. (sum ≡ weight + 256) × (sum + 256 * live < 2 ^ 64)) }
    ensures entries { entries.new.items ≡ entries.old.items }
    ensures entries_room { OnSome result (length entries.new.items + 1 + live ≤ vec_capacity entries.new) }
    ensures entries_kept { vec_capacity entries.old ≤ vec_capacity entries.new }
    ensures rows { store.new.rows ≡ store.old.rows }
    ensures time { store.new.time ≡ store.old.time }
    ensures rows_room { OnSome result (1 + live ≤ store.new.room) }
    ensures rows_kept { store.old.room ≤ store.new.room }
    ensures replies { OnSome result (length spares.new.items ≡ length spares.old.items + 1) }
    ensures replies_kept { length spares.old.items ≤ length spares.new.items }
{
    let weight = weight_after_row(weight, live)?;
    match take_room(entries, store, 1, live) {
        Ok(()) => {}
        Err(NoMemory) => return None,
    }
    match add_spare(alloc, spares) {
        Ok(()) => Some(weight),
        Err(NoMemory) => None,
    }
}

/// Adds a row, where there is one. There is room for it, and it takes no memory.
pub fn push_row(store: &mut Store, row: Option<Row>)
    requires { 0 < store.old.room }
    ensures rows { store.new.rows ≡ store.old.rows ++ option_to_list row }
    ensures time { store.new.time ≡ store.old.time }
    ensures room { store.old.room ≤ store.new.room + 1 }
{
    match row {
        Some(row) => store.push_reserved(row),
        None => {}
    }
}

/// How many runs are live once one of them has ended.
pub fn one_less(live: usize) -> usize
    requires { 0 < live }
    ensures { result + 1 ≡ live }
{
    live - 1
}

/// The later of two moments.
pub fn later(one: u64, other: u64) -> u64
    ensures { result ≡ max one other }
{
    if one < other { other } else { one }
}
