//! What a version of an object says, by the kind of the object.
ghost use Rattle.std.specs.Prelude.{◌≡◌};
ghost use Rattle.ph_items.specs.Kinds.{kind_of, kind_number};

use crate::accounts::Account;
use crate::attempts::Attempt;
use crate::charges::{Charge, ChargeSort};
use crate::disputes::Dispute;
use crate::events::Event;
use crate::fee_refunds::FeeRefund;
use crate::fees::Fee;
use crate::intents::Intent;
use crate::refunds::Refund;
use crate::reversals::Reversal;
use crate::transactions::Txn;
use crate::transfers::Transfer;
use ph_base::Kind;

/// The fields of a version of an object. The number, the account and the times are the row's.
#[derive(Drop, Debug)]
pub enum Item {
    Account(Account),
    Intent(Intent),
    Attempt(Attempt),
    Charge(Charge),
    Refund(Refund),
    Dispute(Dispute),
    Transfer(Transfer),
    Reversal(Reversal),
    Fee(Fee),
    FeeRefund(FeeRefund),
    Txn(Txn),
    Event(Event),
}

impl Item {
    ghost use Rattle.std.specs.Prelude.{◌≡◌};
    ghost use Rattle.std.specs.Option.{option_copied};
    ghost use Rattle.ph_items.specs.Kinds.{kind_of};
    ghost use Rattle.ph_items.specs.Items.{intent_in, attempt_in, charge_in, card_charge_in, refund_in, dispute_in, transfer_in, reversal_in, fee_in, fee_refund_in, txn_in};

    /// The kind of the object.
    pub fn kind(&self) -> Kind
        ensures { result ≡ kind_of self.now }
    {
        match self {
            Item::Account(_) => Kind::Account,
            Item::Intent(_) => Kind::Intent,
            Item::Attempt(_) => Kind::Attempt,
            Item::Charge(charge) => charge.sort.kind(),
            Item::Refund(_) => Kind::Refund,
            Item::Dispute(_) => Kind::Dispute,
            Item::Transfer(_) => Kind::Transfer,
            Item::Reversal(_) => Kind::Reversal,
            Item::Fee(_) => Kind::Fee,
            Item::FeeRefund(_) => Kind::FeeRefund,
            Item::Txn(_) => Kind::Txn,
            Item::Event(_) => Kind::Event,
        }
    }

    /// The version of a payment intent that it is. None exactly where it is another object's.
    pub fn intent(&self) -> Option<&Intent>
        ensures { option_copied result ≡ intent_in self.now }
    {
        match self {
            Item::Intent(intent) => Some(intent),
            Item::Account(_)
            | Item::Attempt(_)
            | Item::Charge(_)
            | Item::Refund(_)
            | Item::Dispute(_)
            | Item::Transfer(_)
            | Item::Reversal(_)
            | Item::Fee(_)
            | Item::FeeRefund(_)
            | Item::Txn(_)
            | Item::Event(_) => None,
        }
    }

    /// The version of an attempt that it is. None exactly where it is another object's.
    pub fn attempt(&self) -> Option<&Attempt>
        ensures { option_copied result ≡ attempt_in self.now }
    {
        match self {
            Item::Attempt(attempt) => Some(attempt),
            Item::Account(_)
            | Item::Intent(_)
            | Item::Charge(_)
            | Item::Refund(_)
            | Item::Dispute(_)
            | Item::Transfer(_)
            | Item::Reversal(_)
            | Item::Fee(_)
            | Item::FeeRefund(_)
            | Item::Txn(_)
            | Item::Event(_) => None,
        }
    }

    /// The version of a charge that it is. None exactly where it is another object's.
    pub fn charge(&self) -> Option<&Charge>
        ensures { option_copied result ≡ charge_in self.now }
    {
        match self {
            Item::Charge(charge) => Some(charge),
            Item::Account(_)
            | Item::Intent(_)
            | Item::Attempt(_)
            | Item::Refund(_)
            | Item::Dispute(_)
            | Item::Transfer(_)
            | Item::Reversal(_)
            | Item::Fee(_)
            | Item::FeeRefund(_)
            | Item::Txn(_)
            | Item::Event(_) => None,
        }
    }

    /// The version of a card charge that it is. None exactly where it is another object's, or a payment's.
    pub fn card_charge(&self) -> Option<&Charge>
        ensures { option_copied result ≡ card_charge_in self.now }
    {
        let charge = self.charge()?;
        match charge.sort {
            ChargeSort::Card(_) => Some(charge),
            ChargeSort::Payment(_) => None,
        }
    }

    /// The refund that it is. None exactly where it is another object's.
    pub fn refund(&self) -> Option<&Refund>
        ensures { option_copied result ≡ refund_in self.now }
    {
        match self {
            Item::Refund(refund) => Some(refund),
            Item::Account(_)
            | Item::Intent(_)
            | Item::Attempt(_)
            | Item::Charge(_)
            | Item::Dispute(_)
            | Item::Transfer(_)
            | Item::Reversal(_)
            | Item::Fee(_)
            | Item::FeeRefund(_)
            | Item::Txn(_)
            | Item::Event(_) => None,
        }
    }

    /// The version of a dispute that it is. None exactly where it is another object's.
    pub fn dispute(&self) -> Option<&Dispute>
        ensures { option_copied result ≡ dispute_in self.now }
    {
        match self {
            Item::Dispute(dispute) => Some(dispute),
            Item::Account(_)
            | Item::Intent(_)
            | Item::Attempt(_)
            | Item::Charge(_)
            | Item::Refund(_)
            | Item::Transfer(_)
            | Item::Reversal(_)
            | Item::Fee(_)
            | Item::FeeRefund(_)
            | Item::Txn(_)
            | Item::Event(_) => None,
        }
    }

    /// The version of a transfer that it is. None exactly where it is another object's.
    pub fn transfer(&self) -> Option<&Transfer>
        ensures { option_copied result ≡ transfer_in self.now }
    {
        match self {
            Item::Transfer(transfer) => Some(transfer),
            Item::Account(_)
            | Item::Intent(_)
            | Item::Attempt(_)
            | Item::Charge(_)
            | Item::Refund(_)
            | Item::Dispute(_)
            | Item::Reversal(_)
            | Item::Fee(_)
            | Item::FeeRefund(_)
            | Item::Txn(_)
            | Item::Event(_) => None,
        }
    }

    /// The reversal that it is. None exactly where it is another object's.
    pub fn reversal(&self) -> Option<&Reversal>
        ensures { option_copied result ≡ reversal_in self.now }
    {
        match self {
            Item::Reversal(reversal) => Some(reversal),
            Item::Account(_)
            | Item::Intent(_)
            | Item::Attempt(_)
            | Item::Charge(_)
            | Item::Refund(_)
            | Item::Dispute(_)
            | Item::Transfer(_)
            | Item::Fee(_)
            | Item::FeeRefund(_)
            | Item::Txn(_)
            | Item::Event(_) => None,
        }
    }

    /// The version of an application fee that it is. None exactly where it is another object's.
    pub fn fee(&self) -> Option<&Fee>
        ensures { option_copied result ≡ fee_in self.now }
    {
        match self {
            Item::Fee(fee) => Some(fee),
            Item::Account(_)
            | Item::Intent(_)
            | Item::Attempt(_)
            | Item::Charge(_)
            | Item::Refund(_)
            | Item::Dispute(_)
            | Item::Transfer(_)
            | Item::Reversal(_)
            | Item::FeeRefund(_)
            | Item::Txn(_)
            | Item::Event(_) => None,
        }
    }

    /// The fee refund that it is. None exactly where it is another object's.
    pub fn fee_refund(&self) -> Option<&FeeRefund>
        ensures { option_copied result ≡ fee_refund_in self.now }
    {
        match self {
            Item::FeeRefund(fee_refund) => Some(fee_refund),
            Item::Account(_)
            | Item::Intent(_)
            | Item::Attempt(_)
            | Item::Charge(_)
            | Item::Refund(_)
            | Item::Dispute(_)
            | Item::Transfer(_)
            | Item::Reversal(_)
            | Item::Fee(_)
            | Item::Txn(_)
            | Item::Event(_) => None,
        }
    }

    /// The transaction that it is. None exactly where it is another object's.
    pub fn txn(&self) -> Option<&Txn>
        ensures { option_copied result ≡ txn_in self.now }
    {
        match self {
            Item::Txn(txn) => Some(txn),
            Item::Account(_)
            | Item::Intent(_)
            | Item::Attempt(_)
            | Item::Charge(_)
            | Item::Refund(_)
            | Item::Dispute(_)
            | Item::Transfer(_)
            | Item::Reversal(_)
            | Item::Fee(_)
            | Item::FeeRefund(_)
            | Item::Event(_) => None,
        }
    }
}

/// The place of a kind in the list of kinds.
pub fn kind_number(kind: Kind) -> u8
    ensures { result ≡ kind_number kind }
{
    kind as u8
}
