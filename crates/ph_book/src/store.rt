//! The rows of a book, and its ledger.
ghost use Rattle.std.specs.Prelude.{◌≡◌, ◌+◌, ◌<◌, ◌≤◌, ◌++◌, ◌∷◌, ◌^◌, [], length, IfOk, OnOk};

use ph_base::{Kind, NoMemory};
use ph_ledger::Ledger;
use ph_money::Currency;
use ph_rows::{ListView, Row, View};
use std::alloc::Global;
use std::marker::Model;

/// A time, rows, and the ledger of the transactions among them at that time, which gives the balances. Contracts see
/// the time, the rows, and for how many more rows it has room.
#[derive(Drop, Debug)]
pub struct Store {
    view: ListView,
    ledger: Ledger,
}

impl Model for Store {
    ghost use Rattle.ph_rows.specs.Views.{ListState};
    ghost use Rattle.ph_book.specs.Stores.{IsLedgerOf, store_state};

    ghost Value = { ListState };

    ghost view = { λ s. store_state s.view s.ledger };

    ghost invariant = { λ s. IsLedgerOf s.view s.ledger };
}

impl Store {
    /// A store of one row, at a time.
    pub fn new(alloc: Global, time: u64, row: Row) -> Result<Store, NoMemory>
        ensures rows { IfOk result (λ store. store.rows ≡ row ∷ []) }
        ensures time { IfOk result (λ store. store.time ≡ time) }
    {
        let mut ledger = Ledger::new(alloc);
        ledger.advance(time);
        let view = ListView::new(alloc, time);
        let mut store = Store { view, ledger };
        store.reserve(1)?;
        store.push_reserved(row);
        Ok(store)
    }

    /// Takes room for so many rows more. Where memory is wanting, or there would be too many rows, the time and the
    /// rows stay as they are.
    pub fn reserve(&mut self, more: usize) -> Result<(), NoMemory>
        ensures time { self.new.time ≡ self.old.time }
        ensures rows { self.new.rows ≡ self.old.rows }
        ensures room { OnOk result (more ≤ self.new.room) }
        ensures kept { self.old.room ≤ self.new.room }
    {
        match self.view.reserve(more) {
            Ok(()) => self.ledger.reserve(more),
            Err(NoMemory) => Err(NoMemory),
        }
    }

    /// Adds rows for which there is room, and posts the transactions among them. It takes no memory.
    pub fn append_reserved(&mut self, more: Vec<Row>)
        requires { length more.items ≤ self.old.room }
        ensures time { self.new.time ≡ self.old.time }
        ensures rows { self.new.rows ≡ self.old.rows ++ more.items }
        ensures room { self.old.room ≤ self.new.room + length more.items }
    {
        self.ledger.post_all_reserved(more.as_slice());
        self.view.append_reserved(more);
    }

    /// Adds a row for which there is room, and posts it where it is a transaction. It takes no memory.
    pub fn push_reserved(&mut self, row: Row)
        requires { 0 < self.old.room }
        ensures time { self.new.time ≡ self.old.time }
        ensures rows { self.new.rows ≡ self.old.rows ++ row ∷ [] }
        ensures room { self.old.room ≤ self.new.room + 1 }
    {
        self.ledger.post_if_txn(&row);
        self.view.push_reserved(row);
    }

    /// Goes on to a moment, in seconds since 1970. It takes no memory.
    pub fn advance(&mut self, now: u64)
        requires { self.old.time ≤ now }
        ensures time { self.new.time ≡ now }
        ensures rows { self.new.rows ≡ self.old.rows }
        ensures room { self.new.room ≡ self.old.room }
    {
        self.ledger.advance(now);
        self.view.set_time(now);
    }

    /// The rows in their order.
    pub fn rows(&self) -> &[Row]
        ensures rows { result.now ≡ self.now.rows }
        ensures few { length result.now < 2 ^ 32 }
    {
        self.view.rows()
    }
}

impl View for Store {
    ghost state = { λ s. record { time = s.time; rows = s.rows } };

    fn time(&self) -> u64 {
        self.view.time()
    }

    fn count(&self) -> u64 {
        self.view.count()
    }

    fn row(&self, place: u64) -> Option<&Row> {
        self.view.row(place)
    }

    fn latest(&self, object: u64) -> Option<&Row> {
        self.view.latest(object)
    }

    fn newest(&self, account: u64, kind: Kind, below: u64) -> Option<&Row> {
        self.view.newest(account, kind, below)
    }

    fn oldest(&self, account: u64, kind: Kind, above: u64) -> Option<&Row> {
        self.view.oldest(account, kind, above)
    }

    fn available(&self, account: u64, currency: Currency) -> i64 {
        self.ledger.available(account, currency)
    }

    fn pending(&self, account: u64, currency: Currency) -> i64 {
        self.ledger.pending(account, currency)
    }
}
