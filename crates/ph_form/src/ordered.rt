//! A map that is keyed by names, as the list of its leaves.
ghost use Rattle.std.specs.Prelude.{◌≡◌, map, IfOk};
ghost use Rattle.ph_form.specs.Entries.{leaf_of};
ghost use Rattle.ph_form.specs.Order.{IsInOrder};

use crate::leaf::Leaf;
use ph_base::{Bytes, NoMemory};
use std::alloc::Global;
use std::collections::BTreeMap;

/// The entries of a map, in byte order of their names.
pub fn ordered(alloc: Global, entries: BTreeMap<Vec<u8>, Vec<u8>>) -> Result<Vec<Leaf>, NoMemory>
    ensures leaves { IfOk result (λ leaves. leaves.items ≡ map leaf_of entries.entries) }
    ensures order { IfOk result (λ leaves. IsInOrder leaves.items) }
{
    let mut leaves = Vec::new(alloc);
    for (name, text) in entries {
        let name = Bytes::new(name);
        let text = Bytes::new(text);
        leaves.push(Leaf { name, text })?;
    }
    Ok(leaves)
}
