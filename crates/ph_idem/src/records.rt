//! The records of keys.
ghost use Rattle.std.specs.Prelude.{◌≡◌, ◌∷◌, [], None, option_copied, option_map, OnOk, OnErr};
ghost use Rattle.std.specs.List.{find, position};
ghost use Rattle.ph_idem.specs.Records.{found_in, is_attached, is_entry, is_newest, is_of, opened_record, saved_in, taken_back, update_first, with_reference, with_result};

use crate::asked::Asked;
use crate::found::Found;
use crate::key_record::{KeyRecord, Saved};
use crate::shape::Shape;
use ph_base::{Bytes, NoMemory};
use std::alloc::Global;
use std::collections::VecDeque;
use std::marker::Model;

/// The records of keys. Contracts see their list, the newest first, so that a search meets the latest of a key first.
#[derive(Drop, Debug)]
pub struct Records {
    records: VecDeque<KeyRecord>,
}

impl Model for Records {
    ghost use Rattle.std.specs.Prelude.{List};
    ghost use Rattle.ph_idem.specs.declared.key_record.KeyRecord.{KeyRecord};

    ghost Value = { List KeyRecord };

    ghost view = { λ r. r.records.items };
}

// The latest record of an account and key.
fn latest<'a>(records: &'a VecDeque<KeyRecord>, account: u64, key: &[u8]) -> Option<&'a KeyRecord>
    ensures { option_copied result ≡ find (is_of account key.now) records.now.items }
{
    records.iter().find(|record| record.is_of(account, key))
}

// The record that an entry opened.
fn opened_by(records: &VecDeque<KeyRecord>, entry: u64) -> Option<&KeyRecord>
    ensures { option_copied result ≡ find (is_entry entry) records.now.items }
{
    records.iter().find(|record| record.entry == entry)
}

// Where the record that an entry opened stands.
fn place_of(records: &VecDeque<KeyRecord>, entry: u64) -> Option<usize>
    ensures { result ≡ position (is_entry entry) records.now.items }
{
    records.iter().position(|record| record.entry == entry)
}

// The latest record that an attempt is attached to.
fn attached(records: &VecDeque<KeyRecord>, reference: u64) -> Option<&KeyRecord>
    ensures { option_copied result ≡ find (is_attached reference) records.now.items }
{
    records.iter().find(|record| record.is_attached(reference))
}

// Whether the entry of a place opened the newest record.
fn is_newest(records: &VecDeque<KeyRecord>, entry: u64) -> bool
    ensures { result ≡ is_newest entry records.now.items }
{
    match records.front() {
        Some(record) => record.entry == entry,
        None => false,
    }
}

impl Records {
    /// No records. It takes no memory.
    pub fn new(alloc: Global) -> Self
        ensures { result ≡ [] }
    {
        Records {
            records: VecDeque::new(alloc),
        }
    }

    /// What a call of this account, key and shape finds at a moment, in seconds since 1970: the latest record of the
    /// account and key counts, for a day. It takes no memory.
    pub fn find(&self, account: u64, key: &[u8], shape: &Shape, at: u64) -> Found
        ensures { result ≡ found_in account key.now shape.now at self.now }
    {
        match latest(&self.records, account, key) {
            Some(record) => record.found(shape, at),
            None => Found::Fresh,
        }
    }

    /// The reply that was saved for the entry of a place. It takes no memory.
    pub fn saved(&self, entry: u64) -> Option<&Saved>
        ensures { option_copied result ≡ saved_in entry self.now }
    {
        match opened_by(&self.records, entry) {
            Some(record) => record.result.as_ref(),
            None => None,
        }
    }

    /// The record whose call began the attempt of a reference. It takes no memory.
    pub fn waiting(&self, reference: u64) -> Option<&KeyRecord>
        ensures { option_copied result ≡ find (is_attached reference) self.now }
    {
        attached(&self.records, reference)
    }

    /// Opens a record of what a call asks, by the entry of a place at a moment, in seconds since 1970. Where there is no
    /// memory, nothing changes.
    pub fn open(&mut self, asked: Asked, entry: u64, at: u64) -> Result<(), NoMemory>
        ensures opened { OnOk result (self.new ≡ opened_record asked entry at ∷ self.old) }
        ensures refused { OnErr result (self.new ≡ self.old) }
    {
        let Asked {
            account,
            key,
            shape,
        } = asked;
        let record = KeyRecord {
            account,
            key,
            shape,
            entry,
            at,
            reference: None,
            result: None,
        };
        self.records.push_front(record)?;
        Ok(())
    }

    /// Takes the newest record back, where the entry of this place opened it, which isn't entered after all. It takes no
    /// memory.
    pub fn take_back(&mut self, entry: u64)
        ensures { self.new ≡ taken_back entry self.old }
    {
        if is_newest(&self.records, entry) {
            let _record = self.records.pop_front();
        }
    }

    /// Attaches the attempt of a reference to the record that the entry of a place opened: its call waits for the
    /// ruling on that. An entry that opened none changes nothing. It takes no memory.
    pub fn attach(&mut self, entry: u64, reference: u64)
        ensures { self.new ≡ update_first (is_entry entry) (with_reference reference) self.old }
    {
        match place_of(&self.records, entry) {
            Some(i) => self.records[i].attach(reference),
            None => {}
        }
    }

    /// Saves the reply to the call of the entry of a place, where that opened a record. An entry that opened none
    /// changes nothing. It takes no memory: the body is handed over.
    pub fn save(&mut self, entry: u64, status: u16, body: Bytes)
        ensures { self.new ≡ update_first (is_entry entry) (with_result (record { status = status; body = body })) self.old }
    {
        match place_of(&self.records, entry) {
            Some(i) => self.records[i].save(Saved { status, body }),
            None => {}
        }
    }
}
