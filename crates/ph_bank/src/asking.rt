//! Links to an acquirer, and the future of one authorisation.

use futures::Future;
use futures::task::{Context, Poll};
use ph_attempts::Ticket;
use ph_base::Ruling;
use ph_items::Order;

/// An acquirer's answer to an ask.
#[derive(Clone, Copy, Debug, PartialEq, Eq)]
pub enum Asked {
    /// It hasn't ruled yet.
    Pending,
    /// It has ruled, and its ruling stays.
    Ruled(Ruling),
}

/// An ask failed: nothing is known of a ruling.
#[derive(Clone, Copy, Debug, PartialEq, Eq)]
pub struct AskFailed;

/// An ask that was made, and its answer.
#[derive(Drop, Debug)]
pub struct Ask {
    pub order: Order,
    pub answer: Result<Asked, AskFailed>,
}

/// The right to one ask. Only a poll of an [`AuthFuture`] makes one, so nothing else can ask.
#[derive(Drop)]
pub struct AskTurn {
    own: (),
}

/// A link to an acquirer.
pub trait Acquirer {
    ghost use Rattle.ph_bank.specs.Links.{AsksOnce, Link};

    ghost link: { Self → Link };

    /// Asks once about this order. A failure is counted, and then nothing is known of a ruling.
    fn ask(&mut self, order: &Order, turn: AskTurn) -> Result<Asked, AskFailed>
        ensures asks { AsksOnce (link self.old) (link self.new) order.now result };
}

/// The authorisation that a ticket is for, as a future: each poll asks once, about the ticket's order. Dropped
/// between two polls, it gives back ticket and link, the link as the last ask left it.
#[derive(Drop)]
pub struct AuthFuture<'a, A: Acquirer> {
    ticket: &'a Ticket,
    link: &'a mut A,
}

ghost use Rattle.std.specs.Prelude.{◌≡◌, ⊤, Result};
ghost use Rattle.futures.specs.Task.{Covers, Keeps};
ghost use Rattle.futures.specs.Poll.{IfReady, OnPending};
ghost use Rattle.ph_base.specs.declared.acquirer.Ruling.{Ruling};
ghost use Rattle.ph_bank.specs.declared.asking.AskFailed.{AskFailed};
ghost use Rattle.ph_bank.specs.Links.{AsksOnce};
ghost use Rattle.ph_bank.specs.Polls.{answer_of};

impl<'a, A: Acquirer> AuthFuture<'a, A> {
    /// The future of a ticket over a link. Neither is asked or changed yet.
    pub fn new(ticket: &'a Ticket, link: &'a mut A) -> AuthFuture<'a, A>
        ensures link { (result.link.ghost_name ≡ link.entry.ghost_name) × (result.link.now ≡ link.old) }
        ensures ticket { result.ticket.now ≡ ticket.now }
    {
        AuthFuture { ticket, link }
    }

    /// A poll without a context: it asks once, about the ticket's order, and is pending exactly where that ask was.
    pub fn ask_once(&mut self) -> Poll<Result<Ruling, AskFailed>>
        ensures link { self.new.link.ghost_name ≡ self.old.link.ghost_name }
        ensures ticket { self.new.ticket.now ≡ self.old.ticket.now }
        ensures asks { AsksOnce (A.link self.old.link.now) (A.link self.new.link.now) self.old.ticket.now.order (answer_of result) }
    {
        let turn = AskTurn { own: () };
        match self.link.ask(self.ticket.order(), turn) {
            Ok(Asked::Pending) => Poll::Pending,
            Ok(Asked::Ruled(ruling)) => Poll::Ready(Ok(ruling)),
            Err(failed) => Poll::Ready(Err(failed)),
        }
    }
}

impl<'a, A: Acquirer> Future for AuthFuture<'a, A> {
    type Output = Result<Ruling, AskFailed>;

    fn poll(&mut self, cx: &mut Context<'_>) -> Poll<Result<Ruling, AskFailed>>
        ensures link { self.new.link.ghost_name ≡ self.old.link.ghost_name }
        ensures ticket { self.new.ticket.now ≡ self.old.ticket.now }
        ensures asks { AsksOnce (A.link self.old.link.now) (A.link self.new.link.now) self.old.ticket.now.order (answer_of result) }
        ensures value { IfReady result (λ _. ⊤) }
        ensures again { OnPending result ⊤ }
        ensures same { OnPending result ((x : Result Ruling AskFailed) → ⊤ → ⊤) }
        ensures registered { OnPending result (Covers cx.new (λ _. ⊥)) }
        ensures kept { Keeps cx.old cx.new }
    {
        match self.ask_once() {
            Poll::Pending => cx.yield_now(),
            ready => ready,
        }
    }
}
