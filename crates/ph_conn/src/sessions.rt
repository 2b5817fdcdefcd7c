//! A session over a book that no one else has, and one over a lock.
ghost use Rattle.std.specs.Prelude.{◌≡◌, ℕ, map};
ghost use Rattle.ph_io.specs.Told.{SourceState};
ghost use Rattle.ph_lock.specs.Histories.{StartsWith};
ghost use Rattle.ph_lock.specs.Passes.{IsPass, SamePass};
ghost use Rattle.ph_book.specs.History.{doings_of};
ghost use Rattle.ph_book.specs.Legal.{IsLegal};
ghost use Rattle.ph_book.specs.State.{BookState};
ghost use Rattle.ph_bank.specs.Links.{Link};
ghost use Rattle.ph_bank.specs.Patiences.{Granted};
ghost use Rattle.ph_conn.specs.Fronts.{known_alone, known_by};
ghost use Rattle.ph_conn.specs.Laws.{AuthorisedOnce, HoldLaws};
ghost use Rattle.ph_conn.specs.Session.{Session, SoloSession};

use crate::alone::Alone;
use crate::endings::{Closed, Stop, TalkError};
use crate::locked::Locked;
use crate::reads::fetch;
use crate::rules::TalkRules;
use crate::steps::{closed, step};
use crate::texts::part;
use ph_bank::{Acquirer, Patience};
use ph_book::{Book, Hosted, history_is_legal};
use ph_errors::Fixed;
use ph_http::Talk;
use ph_io::{Duplex, Sink, Source};
use ph_lock::{Lock, Pass};
use std::alloc::Global;
use std::sync::Wait;

/// Answers requests until the session ends: each is read from the input, entered in the book as a call of caller 0,
/// and its reply is written to the output before the next one is read. Where a call waits for a ruling, the link is
/// asked while the patience lasts, and the ruling entered, or the run given up, before the reply.
///
/// It ends where the input does, behind the reply to a request that asks for it, after as many replies as the rules
/// allow, and with the closing reply of a request that can't be read. It breaks off where a read or a write fails,
/// where the input ends within a request, where the book has no room for a request, which is answered by 503
/// `history_full`, and for want of memory. Then 503 `no_memory` is written, unless the lost reply is that of a
/// request that was entered; it is the reply to a request whose run was given up for want of memory. A session that
/// gave up a run so breaks off for want of memory, and nothing else, where that last write fails too. It never ends with
/// `KeepFault`.
pub fn serve_solo<S: Source, K: Sink, A: Acquirer, P: Patience>(
    alloc: Global,
    book: &mut Book,
    input: &mut S,
    output: &mut K,
    link: &mut A,
    patience: &mut P,
    rules: &TalkRules,
) -> Result<Closed, TalkError>
    ensures { SoloSession result rules.now.limit
        (record { known = known_alone book.old; link = A.link link.old; counts = P.counts patience.old })
        (record { known = known_alone book.new; link = A.link link.new; counts = P.counts patience.new })
        (S.source input.old) (S.source input.new) (K.sink output.old) (K.sink output.new) }
{
    history_is_legal(book);
    let mut talk = Talk::new(alloc);
    for i in 0..rules.limit {
        let fetched = fetch(&mut talk, input);
        match step(
            alloc, &Alone, book, output, link, patience, rules, i, fetched,
        ) {
            None => {}
            Some(end) => return end,
        }
    }
    Ok(closed(rules.limit, Stop::Limit))
}

/// What a session does for whose book there is no memory: it reads nothing, and 503 `no_memory` is written.
pub fn serve_none<K: Sink>(output: &mut K) -> TalkError
    ensures { (limit : ℕ) (book : BookState) (link : Link) (counts : Granted) (input : SourceState) → IsLegal book.setup book.history
        → SoloSession (Err result) limit (record { known = known_alone book; link = link; counts = counts })
        (record { known = known_alone book; link = link; counts = counts }) input input (K.sink output.old) (K.sink output.new) }
{
    part(output, Fixed::NoMemory, TalkError::NoMemory)
}

/// Answers the requests of a connection as [`serve_solo`] does those of an input, but over the object of a lock, as the
/// caller of a pass of it, so that other callers act between its acts. It may wait at each act.
///
/// The history that it leaves known is legal, so the laws of attempts hold of it: where all callers' links lead to one
/// acquirer that answers a repeated reference as at first, no confirmation is authorised twice.
///
/// Where an entry isn't kept by the store behind the object, it is the session's last but for the park of its run, which
/// is never driven: no reply is written to the request, and the session breaks off with `KeepFault`, or for want of memory.
pub fn serve_shared<R: Wait, O: Hosted, C: Duplex, A: Acquirer, P: Patience>(
    rt: &R,
    alloc: Global,
    lock: &Lock<O>,
    pass: &mut Pass<O>,
    conn: &mut C,
    link: &mut A,
    patience: &mut P,
    rules: &TalkRules,
) -> Result<Closed, TalkError>
    requires lock { pass.old.lock ≡ lock.now }
    ensures same { SamePass pass.old pass.new }
    ensures pass { IsPass O.by O.lawful pass.new }
    ensures front { StartsWith pass.new.front pass.old.front }
    ensures address { C.address conn.new ≡ C.address conn.old }
    ensures session { Session result rules.now.limit
        (record { known = known_by O.setup O.plain O.mark pass.old; link = A.link link.old; counts = P.counts patience.old })
        (record { known = known_by O.setup O.plain O.mark pass.new; link = A.link link.new; counts = P.counts patience.new })
        (C.source conn.old) (C.source conn.new) (C.sink conn.old) (C.sink conn.new) }
    ensures laws { HoldLaws (doings_of (O.setup pass.new.base) (map O.plain pass.new.front)) }
    ensures authorised_once { AuthorisedOnce (doings_of (O.setup pass.new.base) (map O.plain pass.new.front)) (A.link link.new) }
{
    let _ = pass.caller();
    let desk = Locked { rt, lock };
    let mut talk = Talk::new(alloc);
    for i in 0..rules.limit {
        let fetched = fetch(&mut talk, conn);
        match step(alloc, &desk, pass, conn, link, patience, rules, i, fetched) {
            None => {}
            Some(end) => return end,
        }
    }
    Ok(closed(rules.limit, Stop::Limit))
}
