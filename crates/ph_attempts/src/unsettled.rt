//! The attempts that aren't settled.
ghost use Rattle.std.specs.Prelude.{◌≡◌, true, [], IfOk, OnErr, IfSome, ◌<◌, vec_capacity, vec_len};
ghost use Rattle.ph_attempts.specs.Attempts.{Begins, Parks, Resumes, Settles, after, has_live, has_parked, is_parked, is_parked_under, without_live, without_parked};
ghost use Rattle.ph_attempts.specs.Attempts as spec;
ghost use Rattle.std.specs.List.{find};

use crate::flights::{Attempt, Flight, Ticket};
use ph_base::NoMemory;
use ph_items::Order;
use std::alloc::Global;
use std::marker::Model;

/// The attempts that aren't settled. Contracts see their list, in which the live ones stand in the order in which their
/// runs began, and the parked ones in the order in which they were last parked.
#[derive(Drop)]
pub struct Attempts {
    attempts: Vec<Attempt>,
}

impl Model for Attempts {
    ghost use Rattle.std.specs.Prelude.{List};
    ghost use Rattle.ph_attempts.specs.declared.flights.Attempt.{Attempt};

    ghost Value = { List Attempt };

    ghost view = { λ a. a.attempts.items };
}

// The parked attempt of this reference.
fn parked_under(attempts: &[Attempt], reference: u64) -> Option<Attempt>
    ensures { result ≡ find (is_parked_under reference) attempts.now }
{
    attempts
        .iter()
        .copied()
        .find(|attempt| attempt.is_parked_under(reference))
}

// The order of the parked attempt of this reference.
fn parked_order(attempts: &[Attempt], reference: u64) -> Order
    requires { has_parked reference attempts.now ≡ true }
    ensures { find (is_parked_under reference) attempts.now ≡ Some (Attempt.Parked result) }
{
    match parked_under(attempts, reference) {
        Some(attempt) => attempt.order(),
        None => unreachable!(),
    }
}

// The first that is parked.
fn first_parked(attempts: &[Attempt]) -> Option<Attempt>
    ensures { result ≡ find is_parked attempts.now }
{
    attempts.iter().copied().find(|attempt| attempt.is_parked())
}

// Takes out what is live by a run, which leaves room for one.
fn take_live(attempts: &mut Vec<Attempt>, flight: &Flight)
    ensures items { attempts.new.items ≡ without_live flight.now attempts.old.items }
    ensures room { has_live flight.now attempts.old.items ≡ true → vec_len attempts.new < vec_capacity attempts.new }
{
    attempts.retain(|attempt| !attempt.is_live_as(flight));
}

// Takes the parked attempt of a reference out, which leaves room for one.
fn take_parked(attempts: &mut Vec<Attempt>, reference: u64)
    ensures items { attempts.new.items ≡ without_parked reference attempts.old.items }
    ensures room { has_parked reference attempts.old.items ≡ true → vec_len attempts.new < vec_capacity attempts.new }
{
    attempts.retain(|attempt| !attempt.is_parked_under(reference));
}

impl Attempts {
    /// No attempts. It takes no memory.
    pub fn new(alloc: Global) -> Self
        ensures { result ≡ [] }
    {
        Attempts {
            attempts: Vec::new(alloc),
        }
    }

    /// Begins an attempt by its first run. Only this takes memory: once it has begun, an attempt can be parked, taken
    /// up again and settled without.
    pub fn begin(&mut self, caller: u64, run: u64, order: Order) -> Result<Ticket, NoMemory>
        ensures ticket { IfOk result (λ ticket. ticket ≡ record { caller = caller; run = run; order = order }) }
        ensures after { IfOk result (λ ticket. self.new ≡ after self.old (Begins ticket)) }
        ensures refused { OnErr result (self.new ≡ self.old) }
    {
        let flight = Flight { caller, run, order };
        self.attempts.push(Attempt::live(&flight))?;
        Ok(Ticket::new(flight))
    }

    /// Settles the attempt of a live run, and gives its order back.
    pub fn settle(&mut self, ticket: Ticket) -> Order
        ensures order { result ≡ ticket.order }
        ensures after { self.new ≡ after self.old (Settles ticket) }
    {
        let flight = ticket.spend();
        take_live(&mut self.attempts, &flight);
        flight.order
    }

    /// Ends a live run without a ruling, and gives its order back: its attempt waits to be taken up again, behind
    /// those that wait already.
    pub fn park(&mut self, ticket: Ticket) -> Order
        requires live { has_live ticket self.old ≡ true }
        ensures order { result ≡ ticket.order }
        ensures after { self.new ≡ after self.old (Parks ticket) }
    {
        let flight = ticket.spend();
        take_live(&mut self.attempts, &flight);
        self.attempts.push_reserved(Attempt::Parked(flight.order));
        flight.order
    }

    /// The reference of the parked attempt whose last park stands earliest.
    pub fn parked(&self) -> Option<u64>
        ensures first { result ≡ spec.first_parked self.now }
        ensures resumable { IfSome result (λ reference. has_parked reference self.now ≡ true) }
    {
        match first_parked(&self.attempts) {
            Some(attempt) => Some(attempt.reference()),
            None => None,
        }
    }

    /// Takes a parked attempt up again, by another run with the order that it began with.
    pub fn resume(&mut self, reference: u64, caller: u64, run: u64) -> Ticket
        requires parked { has_parked reference self.old ≡ true }
        ensures order { find (is_parked_under reference) self.old ≡ Some (Attempt.Parked result.order) }
        ensures run { result ≡ record { caller = caller; run = run; order = result.order } }
        ensures after { self.new ≡ after self.old (Resumes result) }
    {
        let parked = parked_order(&self.attempts, reference);
        take_parked(&mut self.attempts, reference);
        let flight = Flight {
            caller,
            run,
            order: parked,
        };
        self.attempts.push_reserved(Attempt::live(&flight));
        Ticket::new(flight)
    }
}
