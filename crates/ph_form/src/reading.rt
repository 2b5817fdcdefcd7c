//! A form while it is read.
ghost use Rattle.std.specs.Prelude.{◌≡◌, ◌≢◌, [], ◌<◌, ◌≤◌, ◌+◌, ◌&&◌, ◌||◌, ◌==◌, ℕ, List, Ok, Err, bytes_eq, not, length, take, slice_index, OnOk, IfOk, IfErr, IsUtf8};
ghost use Rattle.std.specs.List.{list_any};
ghost use Rattle.ph_form.specs.Index.{AreTaken, has_map, IsIndex, IsSet, leaves_in, next_of};
ghost use Rattle.ph_form.specs.Leaves.{added, clashes, filled, is_free, key_or_free, least_free};
ghost use Rattle.ph_form.specs.Names.{child, is_below, is_within};
ghost use Rattle.ph_form.specs.Order.{put};

use crate::fault::FormFault;
use crate::form::Form;
use crate::names::{base, child, keys};
use crate::ordered::ordered;
use ph_base::{Bytes, NoMemory};
use std::alloc::Global;
use std::collections::BTreeMap;

/// The leaves so far, and what finds clashes and free numbers among them at the cost of a few look-ups.
#[derive(Drop)]
pub struct Reading {
    /// The text under each whole name.
    pub leaves: BTreeMap<Vec<u8>, Vec<u8>>,
    /// Each name that has leaves below it, with a number below which all are taken there.
    pub maps: BTreeMap<Vec<u8>, u64>,
}

impl Reading {
    /// No leaves yet.
    pub fn new(alloc: Global) -> Self
        ensures empty { leaves_in result ≡ [] }
        ensures index { IsIndex result }
    {
        Reading {
            leaves: BTreeMap::new(alloc),
            maps: BTreeMap::new(alloc),
        }
    }

    /// The form of the leaves so far.
    pub fn form(self, alloc: Global) -> Result<Form, NoMemory>
        requires { IsIndex self }
        ensures { IfOk result (λ form. form ≡ leaves_in self) }
    {
        let Reading { leaves, maps: _ } = self;
        Ok(Form::new(ordered(alloc, leaves)?))
    }

    fn has_text(&self, name: &[u8]) -> bool
        ensures { result ≡ list_any (λ leaf. bytes_eq name.now leaf.name) (leaves_in self.now) }
    {
        self.leaves.contains_key(name)
    }

    fn has_map(&self, name: &[u8]) -> bool
        ensures { result ≡ has_map self.now name.now }
    {
        self.maps.contains_key(name)
    }

    fn next(&self, name: &[u8]) -> u64
        ensures { result ≡ next_of self.now name.now }
    {
        match self.maps.get(name) {
            Some(next) => *next,
            None => 0,
        }
    }

    /// Whether a `[` stands at this place of a name, and a leaf has the name in front of it.
    fn ends_at(&self, name: &[u8], i: usize) -> bool
        requires { i < length name.now }
        ensures { result ≡ ((slice_index name.now i == 91) && list_any (λ leaf. bytes_eq (take i name.now) leaf.name) (leaves_in self.now)) }
    {
        name[i] == b'[' && self.has_text(&name[..i])
    }

    /// Whether a leaf stands above this name.
    fn passes_text(&self, name: &[u8]) -> bool
        ensures { result ≡ list_any (λ leaf. is_below leaf.name name.now) (leaves_in self.now) }
    {
        let mut passes = false;
        for i in 0..name.len() {
            passes |= self.ends_at(name, i);
        }
        passes
    }

    /// Whether a leaf has this name or lies below it.
    fn is_taken(&self, name: &[u8]) -> bool
        requires { IsIndex self.now }
        ensures { result ≡ list_any (λ leaf. is_within name.now leaf.name) (leaves_in self.now) }
    {
        self.has_text(name) || self.has_map(name)
    }

    /// Whether a name has no place beside the leaves so far.
    #[tactic(auto, using(crate::proofs::IndexLemmas::any_above))]
    fn clashes(&self, name: &[u8]) -> bool
        requires { IsIndex self.now }
        ensures { result ≡ clashes (leaves_in self.now) name.now }
    {
        self.is_taken(name) || self.has_text(name) || self.passes_text(name)
    }

    /// Whether a number is taken below a beginning.
    fn is_number_taken(&self, alloc: Global, beginning: &[u8], n: u64) -> Result<bool, NoMemory>
        requires { IsIndex self.now }
        ensures { IfOk result (λ taken. is_free (leaves_in self.now) beginning.now n ≡ not taken) }
    {
        let number = n.to_string(alloc)?;
        let name = child(alloc, beginning, number.as_bytes())?;
        Ok(self.is_taken(name.as_slice()))
    }

    /// Gives a map its number.
    #[tactic(auto, using(crate::proofs::MapLemmas::at_name_set))]
    fn set(&mut self, alloc: Global, name: &[u8], n: u64) -> Result<(), NoMemory>
        ensures leaves { self.new.leaves ≡ self.old.leaves }
        ensures set { OnOk result (IsSet self.old.maps self.new.maps name.now n) }
    {
        let key = Vec::from_slice(alloc, name)?;
        self.maps.insert(key, n)?;
        Ok(())
    }

    /// The least number with which no leaf so far continues a beginning, where all below `n` are taken.
    fn free_from(&self, alloc: Global, beginning: &[u8], n: u64) -> Result<u64, NoMemory>
        requires index { IsIndex self.now }
        requires taken { AreTaken (leaves_in self.now) beginning.now n }
        requires small { n ≤ length (leaves_in self.now) }
        ensures number { IfOk result (λ n. n ≡ least_free (leaves_in self.now) beginning.now) }
        ensures taken { IfOk result (λ n. AreTaken (leaves_in self.now) beginning.now n) }
        ensures small { IfOk result (λ n. n ≤ length (leaves_in self.now)) }
    {
        let most = self.leaves.len() as u64;
        let mut n = n;
        'numbers: while n < most {
            if !self.is_number_taken(alloc, beginning, n)? {
                return Ok(n);
            }
            n += 1;
        }
        Ok(n)
    }

    /// The least number with which no leaf so far continues a beginning.
    fn least_free(&mut self, alloc: Global, beginning: &[u8]) -> Result<u64, NoMemory>
        requires { IsIndex self.old }
        ensures leaves { OnOk result (self.new.leaves ≡ self.old.leaves) }
        ensures index { OnOk result (IsIndex self.new) }
        ensures number { IfOk result (λ n. n ≡ least_free (leaves_in self.old) beginning.now) }
    {
        let start = self.next(beginning);
        let n = self.free_from(alloc, beginning, start)?;
        if self.has_map(beginning) {
            self.set(alloc, beginning, n)?;
        }
        Ok(n)
    }

    /// The name of a key below a beginning, or of the least free number where the key is empty.
    fn child(&mut self, alloc: Global, beginning: &[u8], key: &[u8]) -> Result<Bytes, NoMemory>
        requires { IsIndex self.old }
        ensures leaves { OnOk result (self.new.leaves ≡ self.old.leaves) }
        ensures index { OnOk result (IsIndex self.new) }
        ensures name { IfOk result (λ b. b ≡ child beginning.now (key_or_free (leaves_in self.old) beginning.now key.now)) }
    {
        if key.is_empty() {
            let number = self.least_free(alloc, beginning)?.to_string(alloc)?;
            child(alloc, beginning, number.as_bytes())
        } else {
            child(alloc, beginning, key)
        }
    }

    /// The name of a base and keys, with each empty key filled.
    fn filled(&mut self, alloc: Global, base: &[u8], keys: &[Bytes]) -> Result<Bytes, NoMemory>
        requires { IsIndex self.old }
        ensures leaves { OnOk result (self.new.leaves ≡ self.old.leaves) }
        ensures index { OnOk result (IsIndex self.new) }
        ensures name { IfOk result (λ b. b ≡ filled (leaves_in self.old) base.now keys.now) }
    {
        let mut name = Bytes::from_slice(alloc, base)?;
        for key in keys {
            name = self.child(alloc, name.as_slice(), key.as_slice())?;
        }
        Ok(name)
    }

    /// Notes the front of a name as a map, where it ends at this place in front of a `[`.
    fn note_at(&mut self, alloc: Global, name: &[u8], i: usize) -> Result<(), NoMemory>
        requires { i < length name.now }
        ensures leaves { self.new.leaves ≡ self.old.leaves }
        ensures maps { OnOk result ((q : List ℕ) → has_map self.new q ≡ (has_map self.old q || (bytes_eq q (take i name.now) && (slice_index name.now i == 91)))) }
        ensures next { OnOk result ((q : List ℕ) → next_of self.new q ≡ next_of self.old q) }
    {
        if name[i] == b'[' {
            if !self.has_map(&name[..i]) {
                self.set(alloc, &name[..i], 0)?;
            }
        }
        Ok(())
    }

    /// Notes each name above this one as a map.
    fn note_above(&mut self, alloc: Global, name: &[u8]) -> Result<(), NoMemory>
        ensures leaves { OnOk result (self.new.leaves ≡ self.old.leaves) }
        ensures maps { OnOk result ((q : List ℕ) → has_map self.new q ≡ (has_map self.old q || is_below q name.now)) }
        ensures next { OnOk result ((q : List ℕ) → next_of self.new q ≡ next_of self.old q) }
    {
        for i in 0..name.len() {
            self.note_at(alloc, name, i)?;
        }
        Ok(())
    }

    /// Puts a text under a name that is whole.
    fn put(&mut self, alloc: Global, name: Bytes, text: &[u8]) -> Result<(), NoMemory>
        requires index { IsIndex self.old }
        requires name { IsUtf8 name }
        requires text { IsUtf8 text.now }
        ensures leaves { OnOk result (leaves_in self.new ≡ put (record { name = name; text = text.now }) (leaves_in self.old)) }
        ensures index { OnOk result (IsIndex self.new) }
        ensures count { OnOk result (length (leaves_in self.new) ≤ length (leaves_in self.old) + 1) }
    {
        self.note_above(alloc, name.as_slice())?;
        let text = Vec::from_slice(alloc, text)?;
        self.leaves.insert(name.into_vec(), text)?;
        Ok(())
    }

    /// Adds the pair at a place, which is the number of pairs before it.
    pub fn add(&mut self, alloc: Global, at: u64, name: &str, text: &str) -> Result<(), FormFault>
        requires index { IsIndex self.old }
        requires count { length (leaves_in self.old) ≤ at }
        ensures added { OnOk result (added at (leaves_in self.old) (name.now, text.now) ≡ Ok (leaves_in self.new)) }
        ensures index { OnOk result (IsIndex self.new) }
        ensures count { OnOk result (length (leaves_in self.new) ≤ at + 1) }
        ensures fault { IfErr result (λ fault. fault ≢ FormFault.NoMemory → added at (leaves_in self.old) (name.now, text.now) ≡ Err fault) }
    {
        let Some(keys) = keys(alloc, name.as_bytes())? else {
            return Err(FormFault::BadName { at });
        };
        let base = base(name.as_bytes());
        if base.is_empty() {
            return Err(FormFault::BadName { at });
        }
        if 4 < keys.len() {
            return Err(FormFault::TooDeep { at });
        }
        let whole = self.filled(alloc, base, &keys)?;
        if self.clashes(whole.as_slice()) {
            return Err(FormFault::Clash { at });
        }
        self.put(alloc, whole, text.as_bytes())?;
        Ok(())
    }
}
