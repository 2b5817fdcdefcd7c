//! How many there are: of entries and calls in a history, of attempts, approvals and events among its rows.
ghost use Rattle.std.specs.Prelude.{◌≡◌};
ghost use Rattle.ph_drill.specs.Counts.{calls_in, count_in, counts_of, is_approved, is_call, is_counted, is_object};

use ph_base::Kind;
use ph_book::{Book, Deed, Entry};
use ph_items::{Attempt, AttemptState, kind_number};
use ph_rows::{Row, View};

/// How many there are in a history.
#[derive(Clone, Copy, Debug)]
pub struct Counts {
    /// Entries.
    pub entries: u64,
    /// Entries that are calls.
    pub calls: u64,
    /// Attempts.
    pub attempts: u64,
    /// Attempts that were approved.
    pub approved: u64,
    /// Rows.
    pub rows: u64,
    /// Events.
    pub events: u64,
}

/// Counts what there is in a book's history.
pub fn count_all(book: &Book) -> Counts
    ensures { result ≡ counts_of book.now.setup book.now.history }
{
    let history = book.history();
    Counts {
        entries: history.len() as u64,
        calls: calls(history),
        attempts: count(book, Counted::Attempts),
        approved: count(book, Counted::Approvals),
        rows: book.count(),
        events: count(book, Counted::Events),
    }
}

// What is counted among rows.
#[derive(Clone, Copy)]
enum Counted {
    // attempts
    Attempts,
    // attempts that were approved, each of them once
    Approvals,
    // events
    Events,
}

// How many entries of a history are calls.
fn calls(history: &[Entry]) -> u64
    ensures { result ≡ calls_in history.now }
{
    let mut count = 0;
    for entry in history {
        if is_call(entry) {
            count += 1;
        }
    }
    count
}

// Whether an entry is a call.
fn is_call(entry: &Entry) -> bool
    ensures { result ≡ is_call entry.now.deed }
{
    match entry.deed {
        Deed::Call(_) => true,
        Deed::Finish(_, _) | Deed::Park(_, _) | Deed::Resume | Deed::Tick(_) => false,
    }
}

// How many of these there are among the rows of a view.
fn count<V: View>(view: &V, counted: Counted) -> u64
    ensures { result ≡ count_in counted (V.state view.now).rows }
{
    let mut count = 0;
    for at in 0..view.count() {
        let Some(row) = view.row(at + 1) else {
            unreachable!()
        };
        if is_counted(counted, row) {
            count += 1;
        }
    }
    count
}

// Whether a row counts.
fn is_counted(counted: Counted, row: &Row) -> bool
    ensures { result ≡ is_counted counted row.now }
{
    match counted {
        Counted::Attempts => is_object(Kind::Attempt, row),
        Counted::Approvals => match row.item.attempt() {
            Some(attempt) => is_approved(attempt),
            None => false,
        },
        Counted::Events => is_object(Kind::Event, row),
    }
}

/// Whether a row is the first version of an object of a kind.
pub fn is_object(kind: Kind, row: &Row) -> bool
    ensures { result ≡ is_object kind row.now }
{
    row.object == row.place && kind_number(row.item.kind()) == kind_number(kind)
}

// Whether a version of an attempt says that it was approved.
fn is_approved(attempt: &Attempt) -> bool
    ensures { result ≡ is_approved attempt.now.state }
{
    match attempt.state {
        AttemptState::Approved => true,
        AttemptState::Live
        | AttemptState::Parked
        | AttemptState::Declined
        | AttemptState::Challenged => false,
    }
}
