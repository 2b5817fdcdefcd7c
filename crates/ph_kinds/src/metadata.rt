//! Metadata: a map of texts.
ghost use Rattle.std.specs.Prelude.{◌≡◌, IfOk, map, true};
ghost use Rattle.std.specs.List.{list_all};
ghost use Rattle.ph_form.specs.Order.{is_leaf_utf8};
ghost use Rattle.ph_kinds.specs.Metadata.{is_metadata, is_metadata_entry, pair_of};

use crate::characters::character_count;
use crate::lists::Pairs;
use ph_base::NoMemory;
use ph_form::Leaf;
use std::alloc::Global;

/// What a request says of metadata.
#[derive(Drop, Debug)]
pub enum Meta {
    /// The empty text in place of the map: all keys go.
    Clear,
    /// These keys with these texts, in byte order of the keys.
    Set(Pairs),
}

#[tactic(auto, using(crate::proofs::Utf8Lemmas::utf8_name, crate::proofs::Utf8Lemmas::utf8_text))]
fn is_metadata_entry(entry: &Leaf) -> bool
    requires { is_leaf_utf8 entry.now ≡ true }
    ensures { result ≡ is_metadata_entry entry.now }
{
    let key = character_count(entry.name.as_slice());
    1 <= key && key <= 40 && character_count(entry.text.as_slice()) <= 500
}

/// Whether entries are metadata: at most 50, with keys of 1 to 40 characters and texts of at most 500.
#[tactic(auto, using(crate::proofs::Utf8Lemmas::utf8_at))]
pub fn is_metadata(entries: &[Leaf]) -> bool
    requires { list_all is_leaf_utf8 entries.now ≡ true }
    ensures { result ≡ is_metadata entries.now }
{
    if entries.len() > 50 {
        return false;
    }
    for entry in entries {
        if !is_metadata_entry(entry) {
            return false;
        }
    }
    true
}

/// Entries as pairs of a key and its text.
pub fn pairs_of(alloc: Global, entries: Vec<Leaf>) -> Result<Pairs, NoMemory>
    ensures { IfOk result (λ pairs. pairs ≡ map pair_of entries.items) }
{
    let mut pairs = Vec::new(alloc);
    for entry in entries {
        let Leaf { name, text } = entry;
        pairs.push((name, text))?;
    }
    Ok(Pairs::new(pairs))
}
