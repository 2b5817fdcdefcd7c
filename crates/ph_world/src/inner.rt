//! What a world is made of, each move of which is carried out where the tickets are in hand.
ghost use Rattle.std.specs.Prelude.{◌≡◌, ◌<◌, ◌≤◌, ◌^◌, true, false, length, Some, option_map, IfOk, IfErr, OnOk, OnErr, IsTrue};
ghost use Rattle.ph_bank.specs.Scripts as script;
ghost use Rattle.ph_items.specs.Clocks.{clock_limit};
ghost use Rattle.ph_book.specs.declared.acts.Deed.TheVariants as deed;
ghost use Rattle.ph_book.specs.Entries.{call_entry, resume_entry, tick_entry};
ghost use Rattle.ph_book.specs.Legal.{is_full};
ghost use Rattle.ph_world.specs.declared.moves.WorldError.TheVariants as error;
ghost use Rattle.ph_world.specs.Flights.{AllInHand, AreApart, flight_in};
ghost use Rattle.ph_world.specs.Moves.{after_move, is_possible, is_refused, moved, replied, has_no_room};
ghost use Rattle.ph_world.specs.Playing.{ended};
ghost use Rattle.ph_world.specs.Worlds.{decided, enter, given_up, new_world, polled};

use crate::ask::Ask;
use crate::moves::{Move, WorldError};
use crate::requests::copy_of;
use crate::tickets::{finish_run, keep, park_all, park_run, place_of};
use ph_attempts::Ticket;
use ph_bank::Decision;
use ph_base::{NoMemory, Ruling, Why};
use ph_book::{Act, Answer, Book, Refused, Setup};
use ph_http::{Raw, Reply};
use ph_items::Order;
use std::alloc::Global;
use std::marker::Model;

/// A book, the tickets of the runs in flight, the earliest first, what was decided, and what was asked.
pub struct Inner {
    alloc: Global,
    book: Book,
    tickets: Vec<Ticket>,
    decisions: Vec<Decision>,
    asks: Vec<Ask>,
}

impl Model for Inner {
    ghost use Rattle.ph_world.specs.Worlds.{WorldState};

    ghost Value = { WorldState };

    ghost view = { λ w. record { book = w.book; flights = w.tickets.items; decisions = w.decisions.items; asks = w.asks.items } };
}

// What was decided of a reference.
fn ruling_of(decisions: &[Decision], reference: u64) -> Option<Ruling>
    ensures { result ≡ script.ruling_of decisions.now reference }
{
    for decision in decisions {
        if decision.reference == reference {
            return Some(decision.ruling);
        }
    }
    None
}

// The order of the run of a number, where it is in flight.
fn order_of(tickets: &[Ticket], run: u64) -> Option<Order>
    ensures { result ≡ option_map (λ flight. flight.order) (flight_in tickets.now run) }
{
    match place_of(tickets, run) {
        None => None,
        Some(at) => Some(*tickets[at].order()),
    }
}

// Why a move was refused that the book refused so.
fn error_of(refused: Refused) -> WorldError
    ensures { result ≡ error.Full → refused ≡ Refused.Full }
{
    match refused {
        Refused::NoMemory => WorldError::NoMemory,
        Refused::Full => WorldError::Full,
    }
}

impl Inner {
    pub fn new(alloc: Global, setup: Setup) -> Result<Inner, NoMemory>
        requires opened { setup.opened ≤ clock_limit }
        ensures { IfOk result (λ world. world ≡ new_world setup) }
    {
        Ok(Inner {
            alloc,
            book: Book::new(alloc, setup)?,
            tickets: Vec::new(alloc),
            decisions: Vec::new(alloc),
            asks: Vec::new(alloc),
        })
    }

    pub fn book(&self) -> &Book
        ensures { result.now ≡ self.now.book }
    {
        &self.book
    }

    pub fn asks(&self) -> u64
        ensures { result ≡ length self.now.asks }
    {
        self.asks.len() as u64
    }

    // Enters a request.
    fn call(&mut self, caller: u64, raw: &Raw) -> Result<Option<Reply>, WorldError>
        requires caller { caller < 2 ^ 62 }
        ensures after { OnOk result (self.new ≡ enter self.old (call_entry caller raw.now)) }
        ensures reply { IfOk result (λ reply. reply ≡ replied self.old.book self.new.book) }
        ensures unchanged { OnErr result (self.new ≡ self.old) }
        ensures full { IfErr result (λ why. why ≡ error.Full → IsTrue (is_full self.old.book.setup self.old.book.history (deed.Call raw.now))) }
        ensures room { OnOk result (is_full self.old.book.setup self.old.book.history (deed.Call raw.now) ≡ false) }
    {
        let Ok(raw) = copy_of(self.alloc, raw) else {
            return Err(WorldError::NoMemory);
        };
        if self.tickets.reserve(1).is_err() {
            return Err(WorldError::NoMemory);
        }
        match self.book.apply(caller, Act::Call(raw)) {
            Ok(answer) => Ok(keep(&mut self.tickets, answer)),
            Err((act, refused)) => {
                let Act::Call(_) = act else { unreachable!() };
                Err(error_of(refused))
            }
        }
    }

    // Takes up the attempt that waits longest.
    fn resume(&mut self, caller: u64) -> Result<Option<Reply>, WorldError>
        requires caller { caller < 2 ^ 62 }
        ensures after { OnOk result (self.new ≡ enter self.old (resume_entry caller)) }
        ensures reply { IfOk result (λ reply. reply ≡ replied self.old.book self.new.book) }
        ensures unchanged { OnErr result (self.new ≡ self.old) }
        ensures full { IfErr result (λ why. why ≡ error.Full → IsTrue (is_full self.old.book.setup self.old.book.history deed.Resume)) }
        ensures room { OnOk result (is_full self.old.book.setup self.old.book.history deed.Resume ≡ false) }
    {
        if self.tickets.reserve(1).is_err() {
            return Err(WorldError::NoMemory);
        }
        match self.book.apply(caller, Act::Resume) {
            Ok(answer) => Ok(keep(&mut self.tickets, answer)),
            Err((act, refused)) => {
                let Act::Resume = act else { unreachable!() };
                Err(error_of(refused))
            }
        }
    }

    // Enters a moment of the clock.
    fn tick(&mut self, moment: u64) -> Result<Option<Reply>, WorldError>
        requires clock { moment ≤ clock_limit }
        ensures after { OnOk result (self.new ≡ enter self.old (tick_entry 0 moment)) }
        ensures reply { IfOk result (λ reply. reply ≡ replied self.old.book self.new.book) }
        ensures unchanged { OnErr result (self.new ≡ self.old) }
        ensures full { IfErr result (λ why. why ≡ error.Full → IsTrue (is_full self.old.book.setup self.old.book.history (deed.Tick moment))) }
        ensures room { OnOk result (is_full self.old.book.setup self.old.book.history (deed.Tick moment) ≡ false) }
    {
        match self.book.apply(0, Act::Tick(moment)) {
            Ok(answer) => {
                let Answer::Done = answer else { unreachable!() };
                Ok(None)
            }
            Err((act, refused)) => {
                let Act::Tick(_) = act else { unreachable!() };
                Err(error_of(refused))
            }
        }
    }

    // Gives up the run of a number, where it is in flight.
    fn give_up(&mut self, run: u64, why: Why) -> Option<Reply>
        requires in_hand { AllInHand self.old.book self.old.flights }
        ensures after { self.new ≡ given_up self.old why (flight_in self.old.flights run) }
        ensures reply { result ≡ replied self.old.book self.new.book }
    {
        park_run(&mut self.book, &mut self.tickets, run, why)
    }

    // Asks under the order of a run, where it is in flight, and enters what is decided of it.
    fn poll(&mut self, run: u64) -> Result<Option<Reply>, NoMemory>
        requires in_hand { AllInHand self.old.book self.old.flights }
        ensures after { OnOk result (self.new ≡ polled self.old (flight_in self.old.flights run)) }
        ensures reply { IfOk result (λ reply. reply ≡ replied self.old.book self.new.book) }
        ensures unchanged { OnErr result (self.new ≡ self.old) }
    {
        match order_of(self.tickets.as_slice(), run) {
            None => Ok(None),
            Some(order) => self.ask(run, &order),
        }
    }

    // Asks under the order of a run in flight, and enters what is decided of it.
    fn ask(&mut self, run: u64, order: &Order) -> Result<Option<Reply>, NoMemory>
        requires in_hand { AllInHand self.old.book self.old.flights }
        requires order { Some order.now ≡ option_map (λ flight. flight.order) (flight_in self.old.flights run) }
        ensures after { OnOk result (self.new ≡ polled self.old (flight_in self.old.flights run)) }
        ensures reply { IfOk result (λ reply. reply ≡ replied self.old.book self.new.book) }
        ensures unchanged { OnErr result (self.new ≡ self.old) }
    {
        self.asks.reserve(1)?;
        let reference = order.reference;
        let ask = Ask { run, order: *order };
        match ruling_of(self.decisions.as_slice(), reference) {
            None => {
                self.asks.push_reserved(ask);
                Ok(None)
            }
            Some(ruling) => {
                let reply = finish_run(&mut self.book, &mut self.tickets, run, ruling)?;
                self.asks.push_reserved(ask);
                Ok(reply)
            }
        }
    }

    // Decides a reference, unless it was decided before.
    fn decide(&mut self, reference: u64, ruling: Ruling) -> Result<(), NoMemory>
        ensures after { OnOk result (self.new ≡ decided self.old reference ruling) }
        ensures unchanged { OnErr result (self.new ≡ self.old) }
    {
        match ruling_of(self.decisions.as_slice(), reference) {
            Some(_) => Ok(()),
            None => {
                self.decisions.reserve(1)?;
                self.decisions.push_reserved(Decision { reference, ruling });
                Ok(())
            }
        }
    }

    // Carries out a move that can be made.
    fn moved(&mut self, m: &Move) -> Result<Option<Reply>, WorldError>
        requires in_hand { AllInHand self.old.book self.old.flights }
        requires possible { is_possible m.now ≡ true }
        ensures after { OnOk result (self.new ≡ moved self.old m.now) }
        ensures reply { IfOk result (λ reply. reply ≡ replied self.old.book self.new.book) }
        ensures unchanged { OnErr result (self.new ≡ self.old) }
        ensures full { IfErr result (λ why. why ≡ error.Full → IsTrue (has_no_room self.old.book m.now)) }
        ensures room { OnOk result (has_no_room self.old.book m.now ≡ false) }
    {
        match m {
            Move::Arrive { caller, raw } => self.call(*caller, raw),
            Move::Poll { run } => match self.poll(*run) {
                Ok(reply) => Ok(reply),
                Err(NoMemory) => Err(WorldError::NoMemory),
            },
            Move::Drop { run } => Ok(self.give_up(*run, Why::Pending)),
            Move::Fail { run } => Ok(self.give_up(*run, Why::Failed)),
            Move::Decide { reference, ruling } => match self.decide(*reference, *ruling) {
                Ok(()) => Ok(None),
                Err(NoMemory) => Err(WorldError::NoMemory),
            },
            Move::Clock { now } => self.tick(*now),
            Move::Resume { caller } => self.resume(*caller),
        }
    }

    /// Carries out a move. One that can't be made changes nothing.
    pub fn step(&mut self, m: &Move) -> Result<Option<Reply>, WorldError>
        requires in_hand { AllInHand self.old.book self.old.flights }
        ensures after { OnOk result (self.new ≡ after_move self.old m.now) }
        ensures reply { IfOk result (λ reply. reply ≡ replied self.old.book self.new.book) }
        ensures unchanged { OnErr result (self.new ≡ self.old) }
        ensures full { IfErr result (λ why. why ≡ error.Full → IsTrue (is_refused self.old.book m.now)) }
        ensures room { OnOk result (is_refused self.old.book m.now ≡ false) }
    {
        if m.is_possible() {
            self.moved(m)
        } else {
            Ok(None)
        }
    }

    /// Gives up each run in flight, in the order of their numbers, and has the book that is left.
    pub fn end(self) -> Book
        requires in_hand { AllInHand self.book self.flights }
        requires apart { AreApart self.flights }
        ensures { result ≡ ended self.book self.flights }
    {
        let Inner {
            alloc: _,
            book,
            tickets,
            decisions: _,
            asks: _,
        } = self;
        park_all(book, tickets)
    }
}
