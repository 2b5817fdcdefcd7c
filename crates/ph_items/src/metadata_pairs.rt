//! Metadata: texts by their names, as a client attaches them to an object.
ghost use Rattle.std.specs.Prelude.{◌≡◌, ◌==◌, true, length, [], IfOk, OnOk, OnErr};
ghost use Rattle.ph_items.specs.Metadata.{with_pair, without_pair, are_ordered};

use ph_base::{Bytes, NoMemory};
use std::alloc::Global;
use std::cmp::Ordering;
use std::marker::Model;

/// One text of the metadata, and its name.
#[derive(Drop, Debug)]
pub struct MetadataPair {
    pub key: Bytes,
    pub value: Bytes,
}

/// Metadata of an object, which contracts see as the list of its pairs: in byte order of the names, each name
/// once.
#[derive(Drop, Debug)]
pub struct Metadata {
    pairs: Vec<MetadataPair>,
}

impl Model for Metadata {
    ghost use Rattle.std.specs.Prelude.{◌≡◌, true, List};
    ghost use Rattle.ph_items.specs.Metadata.{are_ordered};
    ghost use Rattle.ph_items.specs.declared.metadata_pairs.MetadataPair.{MetadataPair};

    ghost Value = { List MetadataPair };

    ghost view = { λ m. m.pairs.items };

    ghost invariant = { λ m. are_ordered m.pairs.items ≡ true };
}

impl Metadata {
    /// No metadata. It takes no memory.
    pub fn new(alloc: Global) -> Self
        ensures { result ≡ [] }
    {
        Metadata {
            pairs: Vec::new(alloc),
        }
    }

    /// The pairs, in byte order of the names.
    pub fn pairs(&self) -> &[MetadataPair]
        ensures pairs { result.now ≡ self.now }
        ensures ordered { are_ordered self.now ≡ true }
    {
        self.pairs.as_slice()
    }

    /// The number of pairs.
    pub fn len(&self) -> usize
        ensures { result ≡ length self.now }
    {
        self.pairs.len()
    }

    /// Whether there is no pair.
    pub fn is_empty(&self) -> bool
        ensures { result ≡ (length self.now == 0) }
    {
        self.pairs.is_empty()
    }

    /// Gives a name its text, in place of the one that it had. Where memory is wanting nothing changes.
    #[tactic(auto, using(crate::proofs::MetadataLemmas::stays_ordered))]
    pub fn set(&mut self, key: Bytes, value: Bytes) -> Result<(), NoMemory>
        ensures ok { OnOk result (self.new ≡ with_pair (record { key = key; value = value }) self.old) }
        ensures err { OnErr result (self.new ≡ self.old) }
    {
        put(&mut self.pairs, MetadataPair { key, value })
    }

    /// Takes a name and its text away; where the name isn't there nothing changes. It takes no memory.
    #[tactic(auto, using(crate::proofs::MetadataLemmas::stays_ordered_without))]
    pub fn remove(&mut self, key: &[u8])
        ensures { self.new ≡ without_pair key.now self.old }
    {
        take_out(&mut self.pairs, key);
    }

    /// The same metadata once more.
    pub fn copy(&self, alloc: Global) -> Result<Self, NoMemory>
        ensures { IfOk result (λ copy. copy ≡ self.now) }
    {
        let mut pairs = Vec::new(alloc);
        for pair in self.pairs.as_slice() {
            pairs.push(MetadataPair {
                key: pair.key.copy(alloc)?,
                value: pair.value.copy(alloc)?,
            })?;
        }
        Ok(Metadata { pairs })
    }
}

// Puts a pair where its name belongs, in place of the pair of its name.
fn put(pairs: &mut Vec<MetadataPair>, new: MetadataPair) -> Result<(), NoMemory>
    ensures ok { OnOk result (pairs.new.items ≡ with_pair new pairs.old.items) }
    ensures err { OnErr result (pairs.new.items ≡ pairs.old.items) }
{
    let mut place = 0;
    while place < pairs.len() {
        match new.key.as_slice().cmp(pairs[place].key.as_slice()) {
            Ordering::Less => break,
            Ordering::Equal => {
                pairs[place] = new;
                return Ok(());
            }
            Ordering::Greater => place += 1,
        }
    }
    pairs.insert(place, new)?;
    Ok(())
}

// Takes the pair of a name away, where there is one.
fn take_out(pairs: &mut Vec<MetadataPair>, name: &[u8])
    ensures { pairs.new.items ≡ without_pair name.now pairs.old.items }
{
    pairs.retain(|pair| pair.key.as_slice() != name);
}
