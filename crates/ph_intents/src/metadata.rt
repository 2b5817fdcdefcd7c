//! The metadata that an update leaves.
ghost use Rattle.std.specs.Prelude.{◌≡◌, IfOk, OnOk};
ghost use Rattle.ph_intents.specs.Metadata.{merged_metadata, with_change, with_changes};
ghost use Rattle.std.specs.Option.{option_copied};

use ph_base::{Bytes, NoMemory};
use ph_items::Metadata;
use ph_kinds::Meta;
use std::alloc::Global;

// Sets a key to a text, or takes it away where the text is empty.
fn change_key(
    alloc: Global,
    metadata: &mut Metadata,
    key: &Bytes,
    text: &Bytes,
) -> Result<(), NoMemory>
    ensures { OnOk result (metadata.new ≡ with_change metadata.old key.now text.now) }
{
    if text.as_slice().is_empty() {
        metadata.remove(key.as_slice());
        return Ok(());
    }
    metadata.set(key.copy(alloc)?, text.copy(alloc)?)
}

// Changes keys, one after another. Where memory is wanting, some may be changed.
fn change_keys(
    alloc: Global,
    metadata: &mut Metadata,
    named: &[(Bytes, Bytes)],
) -> Result<(), NoMemory>
    ensures { OnOk result (metadata.new ≡ with_changes metadata.old named.now) }
{
    for (key, text) in named {
        change_key(alloc, metadata, key, text)?;
    }
    Ok(())
}

/// The metadata that an update leaves: what it names is changed, and all else stays.
pub fn merged_metadata(
    alloc: Global,
    named: Option<&Meta>,
    kept: &Metadata,
) -> Result<Metadata, NoMemory>
    ensures { IfOk result (λ merged. merged ≡ merged_metadata (option_copied named.entry) kept.now) }
{
    match named {
        Some(Meta::Set(pairs)) => {
            let mut merged = kept.copy(alloc)?;
            change_keys(alloc, &mut merged, pairs.as_slice())?;
            Ok(merged)
        }
        Some(Meta::Clear) => Ok(Metadata::new(alloc)),
        None => kept.copy(alloc),
    }
}
