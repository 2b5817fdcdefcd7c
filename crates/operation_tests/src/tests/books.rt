//! What a book shows beside its answers, and what holds of its history.
ghost use Rattle.ph_book.specs.Tickets.{Holds};

use ph_attempts::Ticket;
use ph_base::{Bytes, Kind, NoMemory, Why};
use ph_book::{
    Act, Answer, Book, Deed, Setup, balances_are_sums, disputes_move_once, fee_refunds_fit,
    history_is_legal, ids_differ, refunds_fit, reversals_fit, transfers_fit,
};
use ph_http::Raw;
use ph_rows::{Row, View};
use std::alloc::Global;
use std::process::Abort;
use std::test::Fail;

const KEY: &[u8] = b"sk_test_payhost";

const BODY: &[u8] = b"amount=2000&currency=usd";

/// A book with ample room, and nothing entered.
pub fn opened(alloc: Global) -> Result<Book, NoMemory> {
    let setup = Setup {
        key: Bytes::from_slice(alloc, KEY)?,
        opened: 1700000000,
        entries: 200_000,
        weight: 536_870_912,
    };
    Book::new(alloc, setup)
}

// The create of 2000 usd.
fn raw(alloc: Global) -> Result<Raw, NoMemory> {
    Ok(Raw {
        method: Bytes::from_slice(alloc, b"POST")?,
        path: Bytes::from_slice(alloc, b"/v1/payment_intents")?,
        query: None,
        auth: Some(Bytes::from_slice(alloc, KEY)?),
        key: None,
        account: None,
        body: Bytes::from_slice(alloc, BODY)?,
        close: false,
    })
}

/// Gives up a run.
pub fn park(book: &mut Book, ticket: Ticket)
    requires held { Holds book.old.setup book.old.history 0 ticket }
{
    match book.apply(0, Act::Park(ticket, Why::Pending)) {
        Ok(Answer::Reply(_)) => {}
        _ => unreachable!(),
    }
}

// The request is answered with 200 at once.
fn is_made(rt: &impl Abort, book: &mut Book, raw: Raw) {
    match book.apply(0, Act::Call(raw)) {
        Ok(Answer::Reply(reply)) => assert_eq!(rt; reply.status, 200),
        Ok(Answer::Wait(ticket)) => {
            park(book, ticket);
            assert!(rt; false);
        }
        Ok(Answer::Done) => unreachable!(),
        Err((Act::Call(_), _)) => assert!(rt; false),
        Err(_) => unreachable!(),
    }
}

fn object_of(row: Option<&Row>) -> u64 {
    row.map_or(0, |row| row.object)
}

// The first entry is the create of caller 0.
fn begins_with_create(rt: &impl Abort, book: &Book) {
    match book.history().first() {
        Some(entry) => {
            assert_eq!(rt; entry.caller, 0);
            match &entry.deed {
                Deed::Call(raw) => assert_eq!(rt; raw.body.as_slice(), BODY),
                Deed::Finish(_, _) | Deed::Park(_, _) | Deed::Resume | Deed::Tick(_) => assert!(rt;
                    false
                ),
            }
        }
        None => assert!(rt; false),
    }
}

#[test]
fn a_book_shows_its_history_and_its_rows(rt: HostRuntime) -> Result<(), Fail> {
    let mut book = opened(rt.alloc())?;
    is_made(&rt, &mut book, raw(rt.alloc())?);
    is_made(&rt, &mut book, raw(rt.alloc())?);
    begins_with_create(&rt, &book);
    assert_eq!(rt; book.setup().key.as_slice(), KEY);
    assert_eq!(rt; book.time(), 1700000000);
    assert_eq!(rt; book.count(), 5);
    assert_eq!(rt; object_of(book.row(5)), 5);
    assert_eq!(rt; object_of(book.row(6)), 0);
    assert_eq!(rt; object_of(book.newest(1, Kind::Intent, 5)), 4);
    assert_eq!(rt; object_of(book.oldest(1, Kind::Event, 3)), 5);
    assert_eq!(rt; object_of(book.latest(1)), 1);
    Ok(())
}

// The laws are of every legal history, and ask for nothing else.
#[test]
fn a_history_keeps_the_laws(rt: HostRuntime) -> Result<(), Fail> {
    let book = opened(rt.alloc())?;
    history_is_legal(&book);
    ids_differ(book.setup(), book.history());
    balances_are_sums(book.setup(), book.history());
    refunds_fit(book.setup(), book.history());
    transfers_fit(book.setup(), book.history());
    reversals_fit(book.setup(), book.history());
    fee_refunds_fit(book.setup(), book.history());
    disputes_move_once(book.setup(), book.history());
    assert_eq!(rt; book.history().len(), 0);
    Ok(())
}
