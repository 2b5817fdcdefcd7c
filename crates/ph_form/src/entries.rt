//! The entries of a map of a form.
ghost use Rattle.std.specs.Prelude.{◌≡◌, IfOk, IfSome, OnOk, map, option_map, true};
ghost use Rattle.std.specs.List.{list_all};
ghost use Rattle.ph_form.specs.Entries.{leaf_of};
ghost use Rattle.ph_form.specs.Names.{is_below};
ghost use Rattle.ph_form.specs.Order.{is_leaf_utf8, IsWhole, put};
ghost use Rattle.ph_form.specs.Readers.{entries_at, entry_of, is_child, rest_after};

use crate::form::Form;
use crate::leaf::Leaf;
use crate::names::{base, is_below, tail};
use crate::ordered::ordered;
use ph_base::NoMemory;
use std::alloc::Global;
use std::collections::BTreeMap;

/// What follows a name and its `[` in a longer one.
fn rest_after<'a>(upper: &[u8], name: &'a [u8]) -> &'a [u8]
    ensures { result.now ≡ rest_after upper.now name.now }
{
    if upper.len() < name.len() {
        &name[upper.len() + 1..]
    } else {
        b""
    }
}

/// Whether a longer name has one key more, and ends with it.
fn is_child(upper: &[u8], name: &[u8]) -> bool
    ensures { result ≡ is_child upper.now name.now }
{
    tail(rest_after(upper, name)) == b"]".as_slice()
}

/// Adds the entry of a leaf below a name, under its key.
fn add_entry(
    alloc: Global,
    entries: &mut BTreeMap<Vec<u8>, Vec<u8>>,
    upper: &[u8],
    leaf: &Leaf,
) -> Result<(), NoMemory>
    requires below { is_below upper.now leaf.now.name ≡ true }
    requires utf8 { is_leaf_utf8 leaf.now ≡ true }
    requires so_far { list_all is_leaf_utf8 (map leaf_of entries.old.entries) ≡ true }
    ensures entries { OnOk result (map leaf_of entries.new.entries ≡ put (entry_of upper.now leaf.now) (map leaf_of entries.old.entries)) }
    ensures utf8 { OnOk result (list_all is_leaf_utf8 (map leaf_of entries.new.entries) ≡ true) }
{
    let key = Vec::from_slice(alloc, base(rest_after(upper, leaf.name.as_slice())))?;
    let text = Vec::from_slice(alloc, leaf.text.as_slice())?;
    entries.insert(key, text)?;
    Ok(())
}

impl Form {
    #[tactic(auto, using(crate::proofs::EntryLemmas::entries_stop, crate::proofs::EntryLemmas::entries_take, crate::proofs::EntryLemmas::entries_skip, crate::proofs::EntryLemmas::utf8_at))]
    /// The entries of the map at a name, each a text named by its key alone, in byte order of the keys; an empty list
    /// where nothing lies below the name, and `None` where an entry is a map itself.
    pub fn entries(&self, alloc: Global, name: &[u8]) -> Result<Option<Vec<Leaf>>, NoMemory>
        ensures entries { IfOk result (λ o. option_map (λ v. v.items) o ≡ entries_at name.now self.now) }
        ensures whole { IfOk result (λ o. IfSome o (λ v. IsWhole v.items)) }
    {
        let mut entries = BTreeMap::new(alloc);
        let leaves = self.leaves();
        for leaf in leaves {
            if is_below(name, leaf.name.as_slice()) {
                if !is_child(name, leaf.name.as_slice()) {
                    return Ok(None);
                }
                add_entry(alloc, &mut entries, name, leaf)?;
            }
        }
        Ok(Some(ordered(alloc, entries)?))
    }
}
