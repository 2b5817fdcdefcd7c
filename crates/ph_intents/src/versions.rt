//! Further versions of a payment intent in a batch.
ghost use Rattle.std.specs.Prelude.{◌≡◌, OnOk};
ghost use Rattle.ph_intents.specs.Versions.{with_all_told, with_told, with_version};

use ph_base::NoMemory;
use ph_charges::tell_split;
use ph_items::{EventKind, Intent, Item};
use ph_rows::Batch;
use std::alloc::Global;

/// Adds a further version of a payment intent.
pub fn add_version(
    account: u64,
    object: u64,
    intent: Intent,
    batch: &mut Batch,
) -> Result<(), NoMemory>
    ensures { OnOk result (batch.new ≡ with_version account object intent batch.old) }
{
    batch.change(object, account, Item::Intent(intent))
}

/// Adds a further version of a payment intent, and announces the event that tells of it.
pub fn tell_version(
    account: u64,
    object: u64,
    intent: Intent,
    sort: EventKind,
    batch: &mut Batch,
) -> Result<(), NoMemory>
    ensures { OnOk result (batch.new ≡ with_told account object intent sort batch.old) }
{
    add_version(account, object, intent, batch)?;
    batch.announce(sort, object)
}

/// Adds a further version of a payment intent, and announces the event that tells of it, and behind that the events of the
/// split of its charge.
pub fn tell_all(
    alloc: Global,
    account: u64,
    object: u64,
    intent: Intent,
    sort: EventKind,
    batch: &mut Batch,
) -> Result<(), NoMemory>
    ensures { OnOk result (batch.new ≡ with_all_told account object intent sort batch.old) }
{
    tell_version(account, object, intent, sort, batch)?;
    tell_split(alloc, batch)
}
