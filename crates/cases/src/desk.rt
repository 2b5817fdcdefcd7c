//! A book, and the tickets in hand.
ghost use Rattle.std.specs.Prelude.{◌≡◌, ◌<◌, ◌≤◌, true, false, [], length, OnOk, OnErr, IfSome};
ghost use Rattle.ph_base.specs.declared.acquirer.Why.TheVariants as why_given;
ghost use Rattle.ph_items.specs.Clocks.{clock_limit};
ghost use Rattle.ph_book.specs.State.{entered};
ghost use Rattle.ph_book.specs.Entries.{finish_entry, park_entry};
ghost use Rattle.ph_book.specs.Tickets.{Holds};

use ph_attempts::Ticket;
use ph_base::{NoMemory, Ruling, Why};
use ph_book::{Act, Answer, Book, Refused, Setup, runs_follow};
use ph_http::{Raw, Reply};
use std::alloc::Global;
use std::marker::Model;

/// What an act comes to.
#[derive(Drop)]
pub enum Said {
    Reply(Reply),
    /// A run was begun: the reference of its attempt.
    Waits(u64),
    Done,
    Full,
}

/// A book, and the tickets of its live runs, the earliest first. Contracts see the book and the tickets.
pub struct Desk {
    book: Book,
    tickets: Vec<Ticket>,
}

impl Model for Desk {
    ghost use Rattle.cases.specs.Desks.{AreHeld, DeskState};

    ghost Value = { DeskState };

    ghost view = { λ d. record { book = d.book; tickets = d.tickets.items } };

    ghost invariant = { λ d. AreHeld d.book.setup d.book.history d.tickets.items };
}

impl Desk {
    /// A book without entries.
    pub fn new(alloc: Global, setup: Setup) -> Result<Desk, NoMemory>
        requires opened { setup.opened ≤ clock_limit }
    {
        Ok(Desk {
            book: Book::new(alloc, setup)?,
            tickets: Vec::new(alloc),
        })
    }

    pub fn book(&self) -> &Book {
        &self.book
    }

    /// The place among the tickets in hand of that with a reference, or of the earliest one.
    pub fn place_of(&self, reference: Option<u64>) -> Option<usize>
        ensures { IfSome result (λ at. at < length self.now.tickets) }
    {
        self.tickets.iter().position(|ticket| match reference {
            Some(reference) => ticket.order().reference == reference,
            None => true,
        })
    }

    /// Enters a request. Where it waits, its ticket is in hand.
    pub fn call(&mut self, raw: Raw) -> Result<Said, NoMemory> {
        self.tickets.reserve(1)?;
        runs_follow(self.book.setup(), self.book.history());
        match self.book.apply(0, Act::Call(raw)) {
            Ok(Answer::Reply(reply)) => Ok(Said::Reply(reply)),
            Ok(Answer::Wait(ticket)) => {
                let reference = ticket.order().reference;
                self.tickets.push_reserved(ticket);
                Ok(Said::Waits(reference))
            }
            Ok(Answer::Done) => unreachable!(),
            Err((act, refused)) => {
                let Act::Call(_) = act else { unreachable!() };
                refusal(refused)
            }
        }
    }

    /// Enters a ruling on the order of the run whose ticket stands at this place.
    pub fn finish(&mut self, at: usize, ruling: Ruling) -> Result<Said, NoMemory>
        requires within { at < length self.old.tickets }
    {
        runs_follow(self.book.setup(), self.book.history());
        let ticket = self.tickets.remove(at);
        match finish(&mut self.book, ticket, ruling) {
            Ok(reply) => Ok(Said::Reply(reply)),
            Err(NoMemory) => Err(NoMemory),
        }
    }

    /// Gives up the run whose ticket stands at this place.
    pub fn park(&mut self, at: usize, why: Why) -> Said
        requires within { at < length self.old.tickets }
        ensures left { length self.new.tickets < length self.old.tickets }
    {
        runs_follow(self.book.setup(), self.book.history());
        let ticket = self.tickets.remove(at);
        Said::Reply(park(&mut self.book, ticket, why))
    }

    /// Takes up the attempt that waits longest. Where one waits, its ticket is in hand.
    pub fn resume(&mut self) -> Result<Said, NoMemory> {
        self.tickets.reserve(1)?;
        runs_follow(self.book.setup(), self.book.history());
        match self.book.apply(0, Act::Resume) {
            Ok(Answer::Wait(ticket)) => {
                let reference = ticket.order().reference;
                self.tickets.push_reserved(ticket);
                Ok(Said::Waits(reference))
            }
            Ok(Answer::Done) => Ok(Said::Done),
            Ok(Answer::Reply(_)) => unreachable!(),
            Err((act, refused)) => {
                let Act::Resume = act else { unreachable!() };
                refusal(refused)
            }
        }
    }

    /// Enters a moment of the clock.
    pub fn tick(&mut self, moment: u64) -> Result<Said, NoMemory>
        requires clock { moment ≤ clock_limit }
    {
        runs_follow(self.book.setup(), self.book.history());
        match self.book.apply(0, Act::Tick(moment)) {
            Ok(answer) => {
                let Answer::Done = answer else { unreachable!() };
                Ok(Said::Done)
            }
            Err((act, refused)) => {
                let Act::Tick(_) = act else { unreachable!() };
                refusal(refused)
            }
        }
    }

    fn is_idle(&self) -> bool
        ensures idle { result ≡ true → self.now.tickets ≡ [] }
        ensures busy { result ≡ false → 0 < length self.now.tickets }
    {
        self.tickets.is_empty()
    }

    /// Gives up the runs that are live.
    pub fn close(mut self) {
        while !self.is_idle() {
            let _ = self.park(0, Why::Pending);
        }
        let Desk { book: _, tickets } = self;
        tickets.destroy_empty();
    }
}

fn refusal(refused: Refused) -> Result<Said, NoMemory> {
    match refused {
        Refused::Full => Ok(Said::Full),
        Refused::NoMemory => Err(NoMemory),
    }
}

// Enters a ruling on the order of a ticket's run. Where there is no memory, the run is given up.
fn finish(book: &mut Book, ticket: Ticket, ruling: Ruling) -> Result<Reply, NoMemory>
    requires own { Holds book.old.setup book.old.history 0 ticket }
    ensures entered { OnOk result (book.new ≡ entered book.old (finish_entry 0 ticket ruling)) }
    ensures given_up { OnErr result (book.new ≡ entered book.old (park_entry 0 ticket why_given.NoMemory)) }
{
    match book.apply(0, Act::Finish(ticket, ruling)) {
        Ok(answer) => {
            let Answer::Reply(reply) = answer else {
                unreachable!()
            };
            Ok(reply)
        }
        Err((act, _)) => {
            let Act::Finish(ticket, _) = act else {
                unreachable!()
            };
            let _ = park(book, ticket, Why::NoMemory);
            Err(NoMemory)
        }
    }
}

// Gives up the run of a ticket.
fn park(book: &mut Book, ticket: Ticket, why: Why) -> Reply
    requires own { Holds book.old.setup book.old.history 0 ticket }
    ensures entered { book.new ≡ entered book.old (park_entry 0 ticket why) }
{
    let entered = book.apply(0, Act::Park(ticket, why));
    let Ok(answer) = entered else { unreachable!() };
    let Answer::Reply(reply) = answer else {
        unreachable!()
    };
    reply
}
