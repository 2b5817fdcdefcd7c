//! What a session does with the next item.
ghost use Rattle.std.specs.Prelude.{◌≡◌, ◌==◌, ◌||◌, ◌<◌, ◌+◌};
ghost use Rattle.ph_conn.specs.Sends.{IsWritable, Sends};
ghost use Rattle.ph_conn.specs.Steps.{ClosesKnown, FailsAtLine, Serves, Steps, closed_as, is_last_of};
ghost use Rattle.std.specs.Prelude.{◌⊎◌};

use crate::answers::{Outcome, answer};
use crate::desks::Desk;
use crate::endings::{Closed, Stop, TalkError};
use crate::reads::Fetched;
use crate::rules::TalkRules;
use crate::texts::{announce, close, part, part_out};
use ph_bank::{Acquirer, Patience};
use ph_base::NoMemory;
use ph_errors::Fixed;
use ph_http::{Raw, render};
use ph_io::{Sink, WriteFailed, write_all};
use std::alloc::Global;

/// Does with what was fetched, behind i replies, what a session does: it answers a request, or ends. `None` is that it
/// goes on.
pub fn step<D: Desk, K: Sink, A: Acquirer, P: Patience>(
    alloc: Global,
    desk: &D,
    held: &mut D::Held,
    output: &mut K,
    link: &mut A,
    patience: &mut P,
    rules: &TalkRules,
    i: u32,
    fetched: Fetched,
) -> Option<Result<Closed, TalkError>>
    requires fits { D.fits desk.now held.old }
    requires left { i < rules.now.limit }
    requires closing { ClosesKnown fetched }
    ensures fits { D.fits desk.now held.new }
    ensures becomes { D.becomes held.old held.new }
    ensures beside { K.beside_sink output.new ≡ K.beside_sink output.old }
    ensures steps { Steps rules.now.limit i fetched result
        (record { known = D.known held.old; link = A.link link.old; counts = P.counts patience.old })
        (record { known = D.known held.new; link = A.link link.new; counts = P.counts patience.new })
        (K.sink output.old) (K.sink output.new) }
{
    match fetched {
        Fetched::Request(raw, continues) => request(
            alloc, desk, held, output, link, patience, rules, i, raw, continues,
        ),
        Fetched::Close(status) => Some(close(output, status, i as u64)),
        Fetched::End => Some(Ok(closed(i, Stop::End))),
        Fetched::Cut => Some(Err(TalkError::Cut)),
        Fetched::ReadFault => Some(Err(TalkError::ReadFault)),
        Fetched::NoMemory => Some(Err(part(output, Fixed::NoMemory, TalkError::NoMemory))),
    }
}

// Answers a request behind the line that it waits for.
fn request<D: Desk, K: Sink, A: Acquirer, P: Patience>(
    alloc: Global,
    desk: &D,
    held: &mut D::Held,
    output: &mut K,
    link: &mut A,
    patience: &mut P,
    rules: &TalkRules,
    i: u32,
    raw: Raw,
    continues: bool,
) -> Option<Result<Closed, TalkError>>
    requires fits { D.fits desk.now held.old }
    requires left { i < rules.now.limit }
    ensures fits { D.fits desk.now held.new }
    ensures becomes { D.becomes held.old held.new }
    ensures beside { K.beside_sink output.new ≡ K.beside_sink output.old }
    ensures serves { Serves rules.now.limit i raw continues result
        (record { known = D.known held.old; link = A.link link.old; counts = P.counts patience.old })
        (record { known = D.known held.new; link = A.link link.new; counts = P.counts patience.new })
        (K.sink output.old) (K.sink output.new)
        ⊎ FailsAtLine continues result
        (record { known = D.known held.old; link = A.link link.old; counts = P.counts patience.old })
        (record { known = D.known held.new; link = A.link link.new; counts = P.counts patience.new })
        (K.sink output.old) (K.sink output.new) }
{
    match announce(output, continues) {
        Ok(()) => {}
        Err(WriteFailed) => return Some(Err(TalkError::WriteFault)),
    }
    let asked = raw.close;
    let outcome = answer(desk, held, link, patience, raw);
    match send(alloc, output, outcome, is_last(asked, i, rules.limit)) {
        Ok(()) => {}
        Err(why) => return Some(Err(why)),
    }
    if asked {
        return Some(Ok(closed(i + 1, Stop::Asked)));
    }
    None
}

/// The end of a session after so many replies.
pub fn closed(replies: u32, stop: Stop) -> Closed
    ensures { result ≡ closed_as replies stop }
{
    Closed {
        replies: replies as u64,
        stop,
    }
}

// The reply to a request is the last one of its session, before which i were written.
fn is_last(asked: bool, i: u32, limit: u32) -> bool
    requires { i < limit }
    ensures { result ≡ is_last_of limit i asked }
{
    asked || i + 1 == limit
}

// Writes what became of a request: its reply, or the last words of a session that breaks off. Of a request of which an
// entry isn't kept it writes nothing.
fn send<K: Sink>(
    alloc: Global,
    output: &mut K,
    outcome: Outcome,
    last: bool,
) -> Result<(), TalkError>
    requires { IsWritable outcome }
    ensures beside { K.beside_sink output.new ≡ K.beside_sink output.old }
    ensures sends { Sends outcome last result (K.sink output.old) (K.sink output.new) }
{
    match outcome {
        Outcome::Reply(reply) => match render(alloc, &reply, last) {
            Ok(text) => match write_all(output, text.as_slice()) {
                Ok(()) => Ok(()),
                Err(WriteFailed) => Err(TalkError::WriteFault),
            },
            Err(NoMemory) => Err(TalkError::NoMemory),
        },
        Outcome::Full => Err(part(output, Fixed::HistoryFull, TalkError::Full)),
        Outcome::Parked => Err(part_out(output)),
        Outcome::Unkept(why) => Err(why),
        Outcome::NoMemory => Err(part(output, Fixed::NoMemory, TalkError::NoMemory)),
    }
}
