//! A view that keeps its rows in a list and reads them one by one.
ghost use Rattle.std.specs.Prelude.{◌≡◌, ◌<◌, ◌≤◌, ◌+◌, ◌∷◌, ◌++◌, ◌^◌, length, [], OnOk, OnErr};

use crate::rows::Row;
use crate::scans;
use crate::views::View;
use ph_base::{Kind, NoMemory};
use ph_money::Currency;
use std::alloc::Global;
use std::marker::Model;

/// A time, and rows in a list: every look-up of `View` reads the rows one by one. It holds below 2^32 rows, so
/// that each balance fits 64 bits.
#[derive(Drop, Debug)]
pub struct ListView {
    time: u64,
    rows: Vec<Row>,
}

impl Model for ListView {
    ghost use Rattle.std.specs.Prelude.{◌-◌, ◌^◌, ◌<◌, min, length, vec_capacity};
    ghost use Rattle.ph_rows.specs.Views.{ListState};

    ghost Value = { ListState };

    ghost view = { λ v. record {
      time = v.time;
      rows = v.rows.items;
      room = min (vec_capacity v.rows) (2 ^ 32 - 1) - length v.rows.items;
    } };

    ghost invariant = { λ v. length v.rows.items < 2 ^ 32 };
}

impl ListView {
    /// The greatest number of rows.
    pub const MOST: usize = (1 << 32) - 1;

    /// A view without rows. It takes no memory.
    pub fn new(alloc: Global, time: u64) -> Self
        ensures time { result.time ≡ time }
        ensures rows { result.rows ≡ [] }
    {
        ListView {
            time,
            rows: Vec::new(alloc),
        }
    }

    /// Sets the time.
    pub fn set_time(&mut self, time: u64)
        ensures { self.new ≡ record self.old { time = time } }
    {
        self.time = time;
    }

    /// Takes room for so many rows more. Where memory is wanting, or there would be too many rows, the time and
    /// the rows stay as they are.
    pub fn reserve(&mut self, more: usize) -> Result<(), NoMemory>
        ensures time { self.new.time ≡ self.old.time }
        ensures rows { self.new.rows ≡ self.old.rows }
        ensures room { OnOk result (more ≤ self.new.room) }
        ensures kept { self.old.room ≤ self.new.room }
    {
        if more > ListView::MOST - self.rows.len() {
            return Err(NoMemory);
        }
        self.rows.reserve(more)?;
        Ok(())
    }

    /// Adds rows for which there is room. It takes no memory.
    pub fn append_reserved(&mut self, mut more: Vec<Row>)
        requires { length more.items ≤ self.old.room }
        ensures time { self.new.time ≡ self.old.time }
        ensures rows { self.new.rows ≡ self.old.rows ++ more.items }
        ensures room { self.old.room ≤ self.new.room + length more.items }
    {
        match self.rows.append(&mut more) {
            Ok(()) => {}
            Err(_) => unreachable!(),
        }
    }

    /// Adds a row for which there is room. It takes no memory.
    pub fn push_reserved(&mut self, row: Row)
        requires { 0 < self.old.room }
        ensures time { self.new.time ≡ self.old.time }
        ensures rows { self.new.rows ≡ self.old.rows ++ row ∷ [] }
        ensures room { self.old.room ≡ self.new.room + 1 }
    {
        self.rows.push_reserved(row);
    }

    /// Adds a row. Where memory is wanting, or there would be too many rows, the time and the rows stay as they are.
    pub fn push(&mut self, row: Row) -> Result<(), NoMemory>
        ensures time { self.new.time ≡ self.old.time }
        ensures ok { OnOk result (self.new.rows ≡ self.old.rows ++ row ∷ []) }
        ensures err { OnErr result (self.new.rows ≡ self.old.rows) }
    {
        if self.rows.len() == ListView::MOST {
            return Err(NoMemory);
        }
        self.rows.push(row)?;
        Ok(())
    }

    /// The rows in their order.
    pub fn rows(&self) -> &[Row]
        ensures rows { result.now ≡ self.now.rows }
        ensures few { length result.now < 2 ^ 32 }
    {
        self.rows.as_slice()
    }
}

impl View for ListView {
    ghost state = { λ v. record { time = v.time; rows = v.rows } };

    fn time(&self) -> u64 {
        self.time
    }

    fn count(&self) -> u64 {
        self.rows.len() as u64
    }

    fn row(&self, place: u64) -> Option<&Row> {
        scans::row(self.rows.as_slice(), place)
    }

    fn latest(&self, object: u64) -> Option<&Row> {
        scans::latest(self.rows.as_slice(), object)
    }

    fn newest(&self, account: u64, kind: Kind, below: u64) -> Option<&Row> {
        scans::newest(self.rows.as_slice(), account, kind, below)
    }

    fn oldest(&self, account: u64, kind: Kind, above: u64) -> Option<&Row> {
        scans::oldest(self.rows.as_slice(), account, kind, above)
    }

    fn available(&self, account: u64, currency: Currency) -> i64 {
        scans::balance(true, self.rows.as_slice(), account, currency, self.time)
    }

    fn pending(&self, account: u64, currency: Currency) -> i64 {
        scans::balance(false, self.rows.as_slice(), account, currency, self.time)
    }
}
