//! The ledger.
ghost use Rattle.std.specs.Prelude.{◌≡◌, ◌+◌, ◌≤◌, ◌<◌, ◌++◌, ◌∷◌, [], length, IsSome, OnOk, OnErr};
ghost use Rattle.std.specs.List.{filter};
ghost use Rattle.ph_rows.specs.Balances.{available_of, pending_of};
ghost use Rattle.ph_items.specs.Items.{txn_in};
ghost use Rattle.ph_ledger.specs.Steps.{Posts, Advances, after, is_txn, no_ledger, shown};

use ph_base::NoMemory;
use ph_items::Item;
use ph_money::Currency;
use ph_rows::{ListView, Row, View};
use std::alloc::Global;
use std::marker::Model;

/// The transactions that were posted, and the moment to which it was advanced. Each balance is added up when it is
/// asked. Contracts see it as the moment, the posted rows, and for how many more postings it has room.
#[derive(Drop, Debug)]
pub struct Ledger {
    view: ListView,
}

impl Model for Ledger {
    ghost use Rattle.ph_rows.specs.Views.{ListState};

    ghost Value = { ListState };

    ghost view = { λ l. l.view };
}

impl Ledger {
    /// A ledger in which nothing is posted, at the moment 0. It takes no memory.
    pub fn new(alloc: Global) -> Self
        ensures { shown result ≡ no_ledger }
    {
        Ledger {
            view: ListView::new(alloc, 0),
        }
    }

    /// Posts a transaction. Where memory is wanting nothing changes; at 2^32 - 1 postings it always is.
    pub fn post(&mut self, row: &Row) -> Result<(), NoMemory>
        requires { IsSome (txn_in row.now.item) }
        ensures ok { OnOk result (shown self.new ≡ after (shown self.old) (Posts row.now)) }
        ensures err { OnErr result (shown self.new ≡ shown self.old) }
    {
        self.view.push(posting(row))
    }

    /// Takes room for so many postings more. Where memory is wanting, or there would be too many postings, nothing
    /// that it shows changes.
    pub fn reserve(&mut self, more: usize) -> Result<(), NoMemory>
        ensures shown { shown self.new ≡ shown self.old }
        ensures room { OnOk result (more ≤ self.new.room) }
        ensures kept { self.old.room ≤ self.new.room }
    {
        self.view.reserve(more)
    }

    /// Posts a transaction for which there is room. It takes no memory.
    pub fn post_reserved(&mut self, row: &Row)
        requires txn { IsSome (txn_in row.now.item) }
        requires room { 0 < self.old.room }
        ensures posted { shown self.new ≡ after (shown self.old) (Posts row.now) }
        ensures room { self.old.room ≡ self.new.room + 1 }
    {
        self.view.push_reserved(posting(row));
    }

    /// Posts a row for which there is room, where it is one of a transaction. It takes no memory.
    pub fn post_if_txn(&mut self, row: &Row)
        requires { 0 < self.old.room }
        ensures time { self.new.time ≡ self.old.time }
        ensures rows { self.new.rows ≡ self.old.rows ++ filter is_txn (row.now ∷ []) }
        ensures room { self.old.room ≤ self.new.room + 1 }
    {
        if row.item.txn().is_some() {
            self.post_reserved(row);
        }
    }

    /// Posts the transactions among rows for which there is room, in their order. It takes no memory.
    pub fn post_all_reserved(&mut self, rows: &[Row])
        requires { length rows.now ≤ self.old.room }
        ensures time { self.new.time ≡ self.old.time }
        ensures rows { self.new.rows ≡ self.old.rows ++ filter is_txn rows.now }
        ensures room { self.old.room ≤ self.new.room + length rows.now }
    {
        for row in rows {
            self.post_if_txn(row);
        }
    }

    /// The pending balance of an account in a currency, in minor units: what the posted transactions give that count
    /// as available only later. It may be below 0. It takes no memory.
    pub fn pending(&self, account: u64, currency: Currency) -> i64
        ensures { result ≡ pending_of account currency self.now.time self.now.rows }
    {
        self.view.pending(account, currency)
    }

    /// The available balance: what the other posted transactions give. It takes no memory.
    pub fn available(&self, account: u64, currency: Currency) -> i64
        ensures { result ≡ available_of account currency self.now.time self.now.rows }
    {
        self.view.available(account, currency)
    }

    /// Goes on to a moment, in seconds since 1970. It takes no memory.
    pub fn advance(&mut self, now: u64)
        requires { self.old.time ≤ now }
        ensures advanced { shown self.new ≡ after (shown self.old) (Advances now) }
        ensures room { self.new.room ≡ self.old.room }
    {
        self.view.set_time(now);
    }
}

// The row of a transaction once more.
fn posting(row: &Row) -> Row
    requires { IsSome (txn_in row.now.item) }
    ensures { result ≡ row.now }
{
    match &row.item {
        Item::Txn(txn) => Row {
            place: row.place,
            object: row.object,
            at: row.at,
            account: row.account,
            item: Item::Txn(*txn),
        },
        Item::Account(_)
        | Item::Intent(_)
        | Item::Attempt(_)
        | Item::Charge(_)
        | Item::Refund(_)
        | Item::Dispute(_)
        | Item::Transfer(_)
        | Item::Reversal(_)
        | Item::Fee(_)
        | Item::FeeRefund(_)
        | Item::Event(_) => unreachable!(),
    }
}
