//! One request: its call, and the run of it.
ghost use Rattle.std.specs.Prelude.{IfErr};
ghost use Rattle.ph_conn.specs.Answers.{Answers, Calls, Comes, Ended, Finishes, Settles};
ghost use Rattle.ph_conn.specs.Fronts.{MayDo};
ghost use Rattle.ph_conn.specs.Parts.{GivenUp};
ghost use Rattle.ph_base.specs.declared.acquirer.Ruling.{Ruling};
ghost use Rattle.ph_book.specs.declared.acts.Act.{Act};

use crate::desks::Desk;
use crate::endings::TalkError;
use ph_attempts::Ticket;
use ph_bank::{Acquirer, Driven, Patience, drive};
use ph_base::{Ruling, Why};
use ph_book::{Act, Answer, Kept};
use ph_http::{Raw, Reply};
use ph_lock::Refused;

/// What became of a request.
#[derive(Drop)]
pub enum Outcome {
    /// It was entered, and this is its reply.
    Reply(Reply),
    /// It was entered and waited, and there was no memory for the ruling: its run was given up. The reply is 503
    /// `no_memory`.
    Parked,
    /// It was entered, and an entry of it isn't kept: it gets no reply, and the session breaks off for this reason.
    Unkept(TalkError),
    /// The history had no room for it. It isn't entered.
    Full,
    /// There was no memory for it. It isn't entered.
    NoMemory,
}

/// What became of the call of a request.
pub enum Called {
    /// It was entered, and this is its reply.
    Replied(Reply, Kept),
    /// It was entered, and waits for a ruling.
    Waiting(Ticket, Kept),
    /// The history had no room for it.
    Full,
    /// There was no memory for it.
    NoMemory,
}

/// Enters a request as a call. Where it waits for a ruling, the acquirer is asked while patience lasts, and the ruling is
/// entered, or the run given up; for want of memory for the ruling it is given up too. Where the call isn't kept, nothing
/// is asked, and the run is given up.
pub fn answer<D: Desk, A: Acquirer, P: Patience>(
    desk: &D,
    held: &mut D::Held,
    link: &mut A,
    patience: &mut P,
    raw: Raw,
) -> Outcome
    requires fits { D.fits desk.now held.old }
    ensures fits { D.fits desk.now held.new }
    ensures becomes { D.becomes held.old held.new }
    ensures answers { Answers (record { known = D.known held.old; link = A.link link.old; counts = P.counts patience.old })
        (record { known = D.known held.new; link = A.link link.new; counts = P.counts patience.new }) raw result }
{
    match call(desk, held, raw) {
        Called::Replied(reply, kept) => comes(reply, kept),
        Called::Waiting(ticket, kept) => match kept {
            Kept::Yes => {
                let driven = drive(&ticket, link, patience);
                settle(desk, held, ticket, driven)
            }
            Kept::Failed => {
                let _ = park(desk, held, ticket, Why::Failed);
                Outcome::Unkept(TalkError::KeepFault)
            }
            Kept::NoMemory => {
                let _ = park(desk, held, ticket, Why::NoMemory);
                Outcome::Unkept(TalkError::NoMemory)
            }
        },
        Called::Full => Outcome::Full,
        Called::NoMemory => Outcome::NoMemory,
    }
}

// Enters a call.
fn call<D: Desk>(desk: &D, held: &mut D::Held, raw: Raw) -> Called
    requires fits { D.fits desk.now held.old }
    ensures fits { D.fits desk.now held.new }
    ensures becomes { D.becomes held.old held.new }
    ensures calls { Calls (D.known held.old) (D.known held.new) raw result }
{
    match desk.enter(held, Act::Call(raw)) {
        Ok((answer, kept)) => match answer {
            Answer::Reply(reply) => Called::Replied(reply, kept),
            Answer::Wait(ticket) => Called::Waiting(ticket, kept),
            Answer::Done => unreachable!(),
        },
        Err((act, why)) => {
            let Act::Call(_) = act else { unreachable!() };
            match why {
                Refused::Full => Called::Full,
                Refused::NoMemory => Called::NoMemory,
            }
        }
    }
}

// What a reply comes to: where its entry isn't kept, it isn't given.
fn comes(reply: Reply, kept: Kept) -> Outcome
    ensures { Comes reply kept result }
{
    match kept {
        Kept::Yes => Outcome::Reply(reply),
        Kept::Failed => Outcome::Unkept(TalkError::KeepFault),
        Kept::NoMemory => Outcome::Unkept(TalkError::NoMemory),
    }
}

// Ends the run of a ticket by its drive.
fn settle<D: Desk>(desk: &D, held: &mut D::Held, ticket: Ticket, driven: Driven) -> Outcome
    requires fits { D.fits desk.now held.old }
    requires own { (ruling : Ruling) → MayDo (D.known held.old) (Act.Finish ticket ruling) }
    ensures fits { D.fits desk.now held.new }
    ensures becomes { D.becomes held.old held.new }
    ensures settles { Settles (D.known held.old) (D.known held.new) ticket driven result }
{
    match driven {
        Driven::Ready(ruling) => match finish(desk, held, ticket, ruling) {
            Ok((reply, kept)) => comes(reply, kept),
            Err(ticket) => {
                let (_, kept) = park(desk, held, ticket, Why::NoMemory);
                match kept {
                    Kept::Yes => Outcome::Parked,
                    Kept::Failed => Outcome::Unkept(TalkError::NoMemory),
                    Kept::NoMemory => Outcome::Unkept(TalkError::NoMemory),
                }
            }
        },
        Driven::Failed => {
            let (reply, kept) = park(desk, held, ticket, Why::Failed);
            comes(reply, kept)
        }
        Driven::GaveUp => {
            let (reply, kept) = park(desk, held, ticket, Why::Pending);
            comes(reply, kept)
        }
    }
}

// Enters a ruling on the order of a ticket's run. Where there is no memory, the ticket comes back.
fn finish<D: Desk>(
    desk: &D,
    held: &mut D::Held,
    ticket: Ticket,
    ruling: Ruling,
) -> Result<(Reply, Kept), Ticket>
    requires fits { D.fits desk.now held.old }
    requires own { MayDo (D.known held.old) (Act.Finish ticket ruling) }
    ensures fits { D.fits desk.now held.new }
    ensures becomes { D.becomes held.old held.new }
    ensures finishes { Finishes (D.known held.old) (D.known held.new) ticket ruling result }
    ensures still { IfErr result (λ _. MayDo (D.known held.new) (Act.Finish ticket ruling)) }
{
    match desk.enter(held, Act::Finish(ticket, ruling)) {
        Ok((answer, kept)) => {
            let Answer::Reply(reply) = answer else {
                unreachable!()
            };
            Ok((reply, kept))
        }
        Err((act, _)) => {
            let Act::Finish(ticket, _) = act else {
                unreachable!()
            };
            Err(ticket)
        }
    }
}

// Gives up the run of a ticket. That is never refused.
fn park<D: Desk>(desk: &D, held: &mut D::Held, ticket: Ticket, why: Why) -> (Reply, Kept)
    requires fits { D.fits desk.now held.old }
    requires own { MayDo (D.known held.old) (Act.Park ticket why) }
    ensures fits { D.fits desk.now held.new }
    ensures becomes { D.becomes held.old held.new }
    ensures ended { Ended (D.known held.old) (D.known held.new) ticket (GivenUp why) result.0 result.1 }
{
    let entered = desk.enter(held, Act::Park(ticket, why));
    let Ok((answer, kept)) = entered else {
        unreachable!()
    };
    let Answer::Reply(reply) = answer else {
        unreachable!()
    };
    (reply, kept)
}
