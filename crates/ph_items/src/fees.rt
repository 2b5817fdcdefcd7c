//! Application fees.

use ph_money::{Amount, Currency};

/// A version of an application fee: what the platform takes of a charge for itself. It belongs to the platform.
#[derive(Clone, Copy, Debug, PartialEq, Eq)]
pub struct Fee {
    /// The number of the connected account that it is taken from.
    pub account: u64,
    /// The number of the card charge.
    pub charge: u64,
    /// In minor units of the currency, and never 0.
    pub amount: Amount,
    /// What was given back of it, in minor units of the currency.
    pub amount_refunded: Amount,
    pub currency: Currency,
    /// The number of the transaction that gives the amount to the platform's balance.
    pub transaction: u64,
    /// The moment from which that transaction counts as available, in seconds since 1970.
    pub available_on: u64,
}
