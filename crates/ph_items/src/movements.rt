//! What moves a balance.
ghost use Rattle.std.specs.Prelude.{◌≡◌};

use crate::items::Item;
use ph_money::Currency;

/// What a transaction moves on the balance of its account.
#[derive(Clone, Copy, Debug, PartialEq, Eq)]
pub struct Movement {
    pub currency: Currency,
    /// The amount less the fee, in minor units of the currency; what is taken is below 0.
    pub net: i32,
    /// The moment from which it counts as available, in seconds since 1970.
    pub available_on: u64,
}

impl Movement {
    ghost use Rattle.std.specs.Prelude.{◌≡◌, ◌==◌};
    ghost use Rattle.ph_items.specs.Movements.{currency_number};

    /// Whether it moves the balance in a currency.
    pub fn is_in(&self, currency: Currency) -> bool
        ensures { result ≡ (currency_number self.now.currency == currency_number currency) }
    {
        self.currency as u8 == currency as u8
    }
}

impl Item {
    ghost use Rattle.std.specs.Prelude.{◌≡◌};
    ghost use Rattle.ph_items.specs.Movements.{movement_of};

    /// What the item moves on its account's balance: a transaction its amount less its fee, any other item nothing.
    pub fn movement(&self) -> Option<Movement>
        ensures { result ≡ movement_of self.now }
    {
        match self {
            Item::Txn(txn) => Some(Movement {
                currency: txn.currency,
                net: txn.net(),
                available_on: txn.available_on,
            }),
            Item::Account(_)
            | Item::Intent(_)
            | Item::Attempt(_)
            | Item::Charge(_)
            | Item::Refund(_)
            | Item::Dispute(_)
            | Item::Transfer(_)
            | Item::Reversal(_)
            | Item::Fee(_)
            | Item::FeeRefund(_)
            | Item::Event(_) => None,
        }
    }
}
