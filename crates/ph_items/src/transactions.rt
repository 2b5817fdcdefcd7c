//! Balance transactions.
ghost use Rattle.std.specs.Prelude.{◌≡◌};

use ph_base::Kind;
use ph_money::{Currency, SignedAmount};

/// What a transaction is made for, as Stripe's `type` names it.
#[derive(Clone, Copy, Debug, PartialEq, Eq)]
pub enum TxnType {
    /// What is captured of a card charge.
    Charge,
    /// What a transfer gives to the account that it goes to.
    Payment,
    Refund,
    /// What a transfer takes from the platform, and what a reversal gives back to it.
    Transfer,
    /// What the platform takes of a charge for itself.
    ApplicationFee,
    /// What the platform gives back of an application fee.
    ApplicationFeeRefund,
    /// What a dispute takes, and gives back where it is won; what a reversal takes from the account that the transfer went to;
    /// what a fee refund gives to the account that the fee was taken from.
    Adjustment,
}

impl TxnType {
    ghost use Rattle.std.specs.Prelude.{◌≡◌};
    ghost use Rattle.ph_items.specs.Words.{txn_type_text};

    /// The word of Stripe's `type`.
    pub fn text(self) -> &'static [u8]
        ensures { result.now ≡ txn_type_text self }
    {
        match self {
            TxnType::Charge => b"charge",
            TxnType::Payment => b"payment",
            TxnType::Refund => b"refund",
            TxnType::Transfer => b"transfer",
            TxnType::ApplicationFee => b"application_fee",
            TxnType::ApplicationFeeRefund => b"application_fee_refund",
            TxnType::Adjustment => b"adjustment",
        }
    }
}

/// The object that a transaction comes from, with its number.
#[derive(Clone, Copy, Debug, PartialEq, Eq)]
pub enum TxnSource {
    Charge(u64),
    Payment(u64),
    Refund(u64),
    Dispute(u64),
    Transfer(u64),
    Reversal(u64),
    Fee(u64),
    FeeRefund(u64),
}

impl TxnSource {
    ghost use Rattle.std.specs.Prelude.{◌≡◌};
    ghost use Rattle.ph_items.specs.Transactions.{source_kind, source_number};

    /// The kind of the object.
    pub fn kind(self) -> Kind
        ensures { result ≡ source_kind self }
    {
        match self {
            TxnSource::Charge(_) => Kind::Charge,
            TxnSource::Payment(_) => Kind::Payment,
            TxnSource::Refund(_) => Kind::Refund,
            TxnSource::Dispute(_) => Kind::Dispute,
            TxnSource::Transfer(_) => Kind::Transfer,
            TxnSource::Reversal(_) => Kind::Reversal,
            TxnSource::Fee(_) => Kind::Fee,
            TxnSource::FeeRefund(_) => Kind::FeeRefund,
        }
    }

    /// The number of the object.
    pub fn number(self) -> u64
        ensures { result ≡ source_number self }
    {
        match self {
            TxnSource::Charge(number)
            | TxnSource::Payment(number)
            | TxnSource::Refund(number)
            | TxnSource::Dispute(number)
            | TxnSource::Transfer(number)
            | TxnSource::Reversal(number)
            | TxnSource::Fee(number)
            | TxnSource::FeeRefund(number) => number,
        }
    }
}

/// A balance transaction: what moves the balance of its account. It is made once and never changes. Amounts are
/// in minor units of its currency.
#[derive(Clone, Copy, Debug, PartialEq, Eq)]
pub struct Txn {
    /// The `type` of the transaction.
    pub sort: TxnType,
    /// What it gives to the balance; what it takes is below 0.
    pub amount: SignedAmount,
    /// What is kept of the amount.
    pub fee: SignedAmount,
    pub currency: Currency,
    /// The moment from which it counts as available, in seconds since 1970.
    pub available_on: u64,
    pub source: TxnSource,
}

impl Txn {
    ghost use Rattle.std.specs.Prelude.{◌≡◌};
    ghost use Rattle.ph_items.specs.Transactions.{net_amount};

    /// The amount less the fee.
    pub fn net(&self) -> i32
        ensures { result ≡ net_amount self.now }
    {
        self.amount.units() - self.fee.units()
    }
}
