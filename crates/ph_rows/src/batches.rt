//! The rows that one entry of the history adds.
ghost use Rattle.std.specs.Prelude.{◌≡◌, ◌+◌, ◌<◌, ◌^◌, IfOk, OnOk, OnErr};
ghost use Rattle.std.specs.Option.{option_copied};
ghost use Rattle.ph_rows.specs.Rows.{latest_of};
ghost use Rattle.ph_rows.specs.Batches.{empty_batch, last_place, with_row, with_announced, account_of, event_row, event_rows, made_rows, version_with};

use crate::rows::Row;
use crate::scans;
use crate::views::View;
use ph_base::{Bytes, NoMemory};
use ph_items::{Event, EventKind, Item};
use std::alloc::Global;
use std::marker::Model;

/// An event that is to be made of an object.
#[derive(Clone, Copy, Debug, PartialEq, Eq)]
pub struct Announced {
    pub sort: EventKind,
    pub object: u64,
}

/// The object rows that one entry adds, numbered on from the rows before it, and the events that it announces.
/// A batch that met a want of memory is dropped, and nothing of it is entered.
#[derive(Drop, Debug)]
pub struct Batch {
    began: u64,
    at: u64,
    entry: u64,
    rows: Vec<Row>,
    announced: Vec<Announced>,
}

impl Model for Batch {
    ghost use Rattle.std.specs.Prelude.{◌<◌, ◌^◌};
    ghost use Rattle.ph_rows.specs.Batches.{BatchState};

    ghost Value = { BatchState };

    ghost view = { λ b. record {
      began = b.began;
      at = b.at;
      entry = b.entry;
      rows = b.rows.items;
      announced = b.announced.items;
    } };

    ghost invariant = { λ b. b.began < 2 ^ 62 };
}

impl Batch {
    /// An empty batch for the entry of a place, after so many rows, at a time. It takes no memory.
    pub fn new(alloc: Global, count: u64, at: u64, entry: u64) -> Self
        requires { count < 2 ^ 62 }
        ensures { result ≡ empty_batch count at entry }
    {
        Batch {
            began: count,
            at,
            entry,
            rows: Vec::new(alloc),
            announced: Vec::new(alloc),
        }
    }

    /// The place of the entry that the batch is for.
    pub fn entry(&self) -> u64
        ensures { result ≡ self.now.entry }
    {
        self.entry
    }

    /// The time of the entry, in seconds since 1970.
    pub fn at(&self) -> u64
        ensures { result ≡ self.now.at }
    {
        self.at
    }

    /// The place of its last row, or the count that it began with. What is announced isn't counted.
    pub fn count(&self) -> u64
        ensures { result ≡ last_place self.now }
    {
        self.began + self.rows.len() as u64
    }

    /// Its object rows so far.
    pub fn rows(&self) -> &[Row]
        ensures { result.now ≡ self.now.rows }
    {
        self.rows.as_slice()
    }

    /// Its last row of an object. None exactly where it has none.
    pub fn latest(&self, object: u64) -> Option<&Row>
        ensures { option_copied result ≡ latest_of object self.now.rows }
    {
        scans::latest(self.rows.as_slice(), object)
    }

    /// Adds the first version of a new object, and answers the object's number.
    pub fn add(&mut self, account: u64, item: Item) -> Result<u64, NoMemory>
        ensures object { IfOk result (λ object. object ≡ last_place self.old + 1) }
        ensures ok { OnOk result (self.new ≡ with_row self.old (last_place self.old + 1) account item) }
        ensures err { OnErr result (self.new ≡ self.old) }
    {
        let object = self.began + self.rows.len() as u64 + 1;
        self.change(object, account, item)?;
        Ok(object)
    }

    /// Adds a further version of an object.
    pub fn change(&mut self, object: u64, account: u64, item: Item) -> Result<(), NoMemory>
        ensures ok { OnOk result (self.new ≡ with_row self.old object account item) }
        ensures err { OnErr result (self.new ≡ self.old) }
    {
        let place = self.began + self.rows.len() as u64 + 1;
        self.rows.push(Row {
            place,
            object,
            at: self.at,
            account,
            item,
        })?;
        Ok(())
    }

    /// Announces an event of an object of which the batch has a row.
    pub fn announce(&mut self, sort: EventKind, object: u64) -> Result<(), NoMemory>
        ensures ok { OnOk result (self.new ≡ with_announced self.old sort object) }
        ensures err { OnErr result (self.new ≡ self.old) }
    {
        self.announced.push(Announced { sort, object })?;
        Ok(())
    }

    /// The rows that the entry makes: the object rows, and after them the event rows in the order announced. An
    /// event keeps the idempotency key of its request, where that has one.
    pub fn into_rows(self, alloc: Global, key: Option<&Bytes>) -> Result<Vec<Row>, NoMemory>
        ensures { IfOk result (λ rows. rows.items ≡ made_rows (option_copied key.entry) self) }
    {
        let Batch {
            began,
            at,
            entry: _,
            mut rows,
            announced,
        } = self;
        let count = began + rows.len() as u64;
        let mut events = rows_of_events(
            alloc,
            key,
            at,
            rows.as_slice(),
            count,
            announced.as_slice(),
        )?;
        rows.append(&mut events)?;
        Ok(rows)
    }
}

/// The last version of an object: in the batch of an entry where it stands there, and else in the view of the rows
/// before the entry. None exactly where neither has one.
pub fn version_with<'a, V: View>(view: &'a V, batch: &'a Batch, object: u64) -> Option<&'a Row>
    ensures { option_copied result ≡ version_with (V.state view.now).rows batch.now object }
{
    match batch.latest(object) {
        Some(row) => Some(row),
        None => view.latest(object),
    }
}

// The account of the last version of an object among the rows, or 0 where there is none.
fn account_among(rows: &[Row], object: u64) -> u64
    ensures { result ≡ account_of (latest_of object rows.now) }
{
    match scans::latest(rows, object) {
        Some(row) => row.account,
        None => 0,
    }
}

// The row of an event, at a place.
fn row_of_event(
    alloc: Global,
    key: Option<&Bytes>,
    at: u64,
    rows: &[Row],
    place: u64,
    told: &Announced,
) -> Result<Row, NoMemory>
    ensures { IfOk result (λ row. row ≡ event_row (option_copied key.entry) at rows.now place told.now) }
{
    let key = match key {
        Some(key) => Some(key.copy(alloc)?),
        None => None,
    };
    Ok(Row {
        place,
        object: place,
        at,
        account: account_among(rows, told.object),
        item: Item::Event(Event {
            sort: told.sort,
            object: told.object,
            key,
        }),
    })
}

// The rows of the events announced, at the places after a number of rows.
fn rows_of_events(
    alloc: Global,
    key: Option<&Bytes>,
    at: u64,
    rows: &[Row],
    count: u64,
    announced: &[Announced],
) -> Result<Vec<Row>, NoMemory>
    ensures { let made = event_rows (option_copied key.entry) at rows.now count announced.now in IfOk result (λ events. events.items ≡ made) }
{
    let mut events = Vec::new(alloc);
    for told in announced {
        // No memory holds so many rows that 64 bits don't number them.
        let Some(place) = count.checked_add(events.len() as u64 + 1) else {
            return Err(NoMemory);
        };
        events.push(row_of_event(alloc, key, at, rows, place, told)?)?;
    }
    Ok(events)
}
