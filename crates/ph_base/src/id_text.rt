//! Ids as text: the prefix of the kind, then the number in sixteen digits.
ghost use Rattle.std.specs.Prelude.{◌≡◌, ◌++◌, ◌≤◌, length, IfSome, IfNone};
ghost use Rattle.ph_base.specs.Ids.{prefix_of, id_text};
ghost use Rattle.ph_base.specs.declared.ids.Kind.{Kind};
ghost use Rattle.ph_base.specs.declared.ids.Id.{Id};

use crate::ids::{Id, Kind};
use crate::numbers::{read_number, sixteen_digits};
use std::marker::Model;

const KINDS: [Kind; 16] = [
    Kind::Intent,
    Kind::Attempt,
    Kind::Charge,
    Kind::Payment,
    Kind::Refund,
    Kind::Dispute,
    Kind::Transfer,
    Kind::Reversal,
    Kind::Fee,
    Kind::FeeRefund,
    Kind::Txn,
    Kind::Account,
    Kind::Event,
    Kind::Endpoint,
    Kind::Delivery,
    Kind::Payout,
];

/// The text of an id, at most 21 bytes, which contracts see as a list of bytes. It takes no memory.
#[derive(Drop)]
pub struct IdText {
    bytes: [u8; 21],
    len: usize,
}

impl Model for IdText {
    ghost use Rattle.std.specs.Prelude.{ℕ, List, ◌≤◌, take};

    ghost Value = { List ℕ };

    ghost view = { λ t. take t.len t.bytes };

    ghost invariant = { λ t. t.len ≤ 21 };
}

impl IdText {
    /// The text as a slice.
    pub fn as_slice(&self) -> &[u8]
        ensures { result.now ≡ self.now }
    {
        &self.bytes[..self.len]
    }
}

// What the ids of a kind begin with.
fn prefix(kind: Kind) -> &'static [u8]
    ensures { result.now ≡ prefix_of kind }
{
    match kind {
        Kind::Intent => b"pi_",
        Kind::Attempt => b"at_",
        Kind::Charge => b"ch_",
        Kind::Payment => b"py_",
        Kind::Refund => b"re_",
        Kind::Dispute => b"dp_",
        Kind::Transfer => b"tr_",
        Kind::Reversal => b"trr_",
        Kind::Fee => b"fee_",
        Kind::FeeRefund => b"fr_",
        Kind::Txn => b"txn_",
        Kind::Account => b"acct_",
        Kind::Event => b"evt_",
        Kind::Endpoint => b"we_",
        Kind::Delivery => b"dl_",
        Kind::Payout => b"po_",
    }
}

// The kind whose ids begin so.
fn kind_of(front: &[u8]) -> Option<Kind>
    ensures found { IfSome result (λ kind. front.now ≡ prefix_of kind) }
    ensures none { IfNone result ((kind : Kind) → front.now ≡ prefix_of kind → ⊥) }
{
    for kind in KINDS {
        if front == prefix(kind) {
            return Some(kind);
        }
    }
    None
}

// The text of a prefix and sixteen digits.
fn joined(front: &[u8], digits: &[u8]) -> IdText
    requires front { length front.now ≤ 5 }
    requires digits { length digits.now ≡ 16 }
    ensures { result ≡ front.now ++ digits.now }
{
    let mut bytes = [0; 21];
    let n = front.len();
    bytes[..n].copy_from_slice(front);
    bytes[n..n + 16].copy_from_slice(digits);
    IdText { bytes, len: n + 16 }
}

/// The text of an id: the prefix of its kind and its number in sixteen digits, as in `pi_0000000000000002`.
pub fn print_id(id: Id) -> IdText
    ensures { result ≡ id_text id }
{
    joined(prefix(id.kind), &sixteen_digits(id.number))
}

/// The id whose text this is. None exactly where the text is no kind's prefix followed by sixteen digits.
pub fn read_id(text: &[u8]) -> Option<Id>
    ensures found { IfSome result (λ id. text.now ≡ id_text id) }
    ensures only { (id : Id) → text.now ≡ id_text id → result ≡ Some id }
{
    if text.len() < 16 {
        return None;
    }
    let (front, digits) = text.split_at(text.len() - 16);
    let kind = kind_of(front)?;
    let number = read_number(digits)?;
    Some(Id { kind, number })
}
