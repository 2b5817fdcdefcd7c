//! The metadata that a new object keeps of its call.
ghost use Rattle.std.specs.Prelude.{◌≡◌, IfOk, OnOk};
ghost use Rattle.std.specs.Option.{option_copied};
ghost use Rattle.ph_kinds.specs.Kept.{first_metadata, with_keys};

use crate::metadata::Meta;
use ph_base::{Bytes, NoMemory};
use ph_items::Metadata;
use std::alloc::Global;

// Sets keys to their texts, one after another. Where memory is wanting, some may be set.
fn set_keys(
    alloc: Global,
    metadata: &mut Metadata,
    named: &[(Bytes, Bytes)],
) -> Result<(), NoMemory>
    ensures { OnOk result (metadata.new ≡ with_keys metadata.old named.now) }
{
    for (key, text) in named {
        metadata.set(key.copy(alloc)?, text.copy(alloc)?)?;
    }
    Ok(())
}

/// The metadata of a new object: what its call names, an empty text too.
pub fn first_metadata(alloc: Global, named: Option<&Meta>) -> Result<Metadata, NoMemory>
    ensures { IfOk result (λ metadata. metadata ≡ first_metadata (option_copied named.entry)) }
{
    let mut metadata = Metadata::new(alloc);
    if let Some(Meta::Set(pairs)) = named {
        set_keys(alloc, &mut metadata, pairs.as_slice())?;
    }
    Ok(metadata)
}
