//! Key records.
ghost use Rattle.std.specs.Prelude.{◌≡◌};
ghost use Rattle.ph_idem.specs.Records as spec;

use crate::found::Found;
use crate::shape::Shape;
use ph_base::Bytes;

/// How long a record is found, in seconds: a day.
const DAY: u64 = 86_400;

/// A reply that was saved.
#[derive(Drop, Debug)]
pub struct Saved {
    pub status: u16,
    pub body: Bytes,
}

/// The record of a call under a key.
#[derive(Drop, Debug)]
pub struct KeyRecord {
    pub account: u64,
    pub key: Bytes,
    pub shape: Shape,
    /// The place of the entry that opened it.
    pub entry: u64,
    /// When it was opened, in seconds since 1970.
    pub at: u64,
    /// The reference of the attempt for whose ruling the call waits.
    pub reference: Option<u64>,
    pub result: Option<Saved>,
}

impl KeyRecord {
    /// Whether it is of this account and key.
    pub(crate) fn is_of(&self, account: u64, key: &[u8]) -> bool
        ensures { result ≡ spec.is_of account key.now self.now }
    {
        self.account == account && self.key.as_slice() == key
    }

    /// Whether its call waits for the ruling on the attempt of this reference, or has waited for it.
    pub(crate) fn is_attached(&self, reference: u64) -> bool
        ensures { result ≡ spec.is_attached reference self.now }
    {
        match self.reference {
            Some(attached) => attached == reference,
            None => false,
        }
    }

    /// Attaches the attempt of a reference.
    pub(crate) fn attach(&mut self, reference: u64)
        ensures { self.new ≡ spec.with_reference reference self.old }
    {
        self.reference = Some(reference);
    }

    /// Saves the reply to its call.
    pub(crate) fn save(&mut self, saved: Saved)
        ensures { self.new ≡ spec.with_result saved self.old }
    {
        self.result = Some(saved);
    }

    /// Whether it isn't found any more at a moment.
    fn is_over(&self, at: u64) -> bool
        ensures { result ≡ spec.is_over_at at self.now }
    {
        match self.at.checked_add(DAY) {
            Some(end) => end <= at,
            None => false,
        }
    }

    /// What an equal call finds of it.
    fn state(&self) -> Found
        ensures { result ≡ spec.state_of self.now }
    {
        match &self.result {
            Some(_) => Found::Saved(self.entry),
            None => match self.reference {
                Some(reference) => Found::Begun(reference),
                None => Found::Begun(0),
            },
        }
    }

    /// What a call of its account and key finds of it at a moment.
    pub(crate) fn found(&self, shape: &Shape, at: u64) -> Found
        ensures { result ≡ spec.found_of shape.now at self.now }
    {
        if self.is_over(at) {
            Found::Fresh
        } else if self.shape.is_same(shape) {
            self.state()
        } else {
            Found::Differs
        }
    }
}
