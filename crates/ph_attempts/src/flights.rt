//! Live runs and their tickets.
ghost use Rattle.std.specs.Prelude.{◌≡◌};

use ph_items::Order;
use std::marker::Model;

/// A live run of an attempt.
#[derive(Clone, Copy, Debug, PartialEq, Eq)]
pub struct Flight {
    /// Who began the run.
    pub caller: u64,
    /// The number of the run: the place of the entry that began it.
    pub run: u64,
    /// What the acquirer is asked.
    pub order: Order,
}

/// An attempt that isn't settled.
#[derive(Clone, Copy, Debug, PartialEq, Eq)]
pub enum Attempt {
    /// A run of it is live.
    Live(Flight),
    /// It waits to be taken up again.
    Parked(Order),
}

impl Attempt {
    ghost use Rattle.std.specs.Prelude.{◌≡◌};
    ghost use Rattle.ph_attempts.specs.Attempts as spec;
    ghost use Rattle.ph_attempts.specs.Attempts.{order_of, reference_of};

    // The attempt of a live run.
    pub(crate) fn live(flight: &Flight) -> Self
        ensures { result ≡ Attempt.Live flight.now }
    {
        Attempt::Live(*flight)
    }

    /// The reference of the attempt.
    pub fn reference(&self) -> u64
        ensures { result ≡ reference_of self.now }
    {
        match self {
            Attempt::Live(flight) => flight.order.reference,
            Attempt::Parked(order) => order.reference,
        }
    }

    // Whether it is live by this run of this caller.
    pub(crate) fn is_live_as(&self, flight: &Flight) -> bool
        ensures { result ≡ spec.is_live_as flight.now self.now }
    {
        match self {
            Attempt::Live(other) => flight.run == other.run && flight.caller == other.caller,
            Attempt::Parked(_) => false,
        }
    }

    // Whether it is the parked attempt of this reference.
    pub(crate) fn is_parked_under(&self, reference: u64) -> bool
        ensures { result ≡ spec.is_parked_under reference self.now }
    {
        match self {
            Attempt::Live(_) => false,
            Attempt::Parked(order) => reference == order.reference,
        }
    }

    // What the acquirer is asked of it.
    pub(crate) fn order(&self) -> Order
        ensures { result ≡ order_of self.now }
    {
        match self {
            Attempt::Live(flight) => flight.order,
            Attempt::Parked(order) => *order,
        }
    }

    /// Whether it waits to be taken up again.
    pub fn is_parked(&self) -> bool
        ensures { result ≡ spec.is_parked self.now }
    {
        matches!(self, Attempt::Parked(_))
    }
}

/// The right to end a live run. It can't be dropped or copied: whoever holds it settles or parks the run.
pub struct Ticket {
    flight: Flight,
}

impl Model for Ticket {
    ghost use Rattle.ph_attempts.specs.declared.flights.Flight.{Flight};

    ghost Value = { Flight };

    ghost view = { λ ticket. ticket.flight };
}

impl Ticket {
    pub(crate) fn new(flight: Flight) -> Self
        ensures { result ≡ flight }
    {
        Ticket { flight }
    }

    // The run, which is no longer the ticket's.
    pub(crate) fn spend(self) -> Flight
        ensures { result ≡ self }
    {
        let Ticket { flight } = self;
        flight
    }

    /// What the acquirer is asked.
    pub fn order(&self) -> &Order
        ensures { result.now ≡ self.now.order }
    {
        &self.flight.order
    }

    /// The number of the run.
    pub fn run(&self) -> u64
        ensures { result ≡ self.now.run }
    {
        self.flight.run
    }

    /// Who began the run.
    pub fn caller(&self) -> u64
        ensures { result ≡ self.now.caller }
    {
        self.flight.caller
    }
}
