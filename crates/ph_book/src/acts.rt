//! Acts, the entries that they become, and the answers to them.

use ph_attempts::Ticket;
use ph_base::{Ruling, Why};
use ph_http::{Raw, Reply};

/// What a caller does. An act with a ticket can't be dropped: it is applied, or comes back.
pub enum Act {
    /// It sends a request.
    Call(Raw),
    /// The acquirer has ruled on the order of a run: its attempt is settled.
    Finish(Ticket, Ruling),
    /// A run is given up before its acquirer has ruled: its attempt waits to be taken up again.
    Park(Ticket, Why),
    /// It takes up the attempt that waits longest: of those that wait to be taken up again, that whose last park stands
    /// earliest.
    Resume,
    /// The clock shows this moment, in seconds since 1970, at most the end of the year 9999: the time becomes the
    /// greater of the two.
    Tick(u64),
}

/// What stands of an act in the history. A run has the place of the entry that began it as its number.
#[derive(Drop, Debug)]
pub enum Deed {
    /// A request.
    Call(Raw),
    /// A ruling on the order of the run with this number.
    Finish(u64, Ruling),
    /// The run with this number was given up.
    Park(u64, Why),
    /// The attempt that waited longest was taken up again, where one waited.
    Resume,
    /// The clock showed this moment.
    Tick(u64),
}

/// An entry of the history.
#[derive(Drop, Debug)]
pub struct Entry {
    /// The number of the caller, below 2^62.
    pub caller: u64,
    pub deed: Deed,
}

/// The answer to an act that was entered.
pub enum Answer {
    /// The reply to a request.
    Reply(Reply),
    /// The request, or the attempt that was taken up again, waits until the acquirer has ruled on the ticket's order:
    /// whoever holds the ticket finishes its run or parks it, and that act's answer is the reply.
    Wait(Ticket),
    /// A moment of the clock was entered, or no attempt waits to be taken up again: nothing is said to it.
    Done,
}

/// What a book is asked of its history. The answer is yes or no.
#[derive(Clone, Copy, Debug, PartialEq, Eq)]
pub enum Query {
    /// Whether an attempt waits to be taken up again.
    AnyParked,
}
