//! The deliveries of a book.
ghost use Rattle.std.specs.Prelude.{◌≡◌, [], ◌∷◌, ◌++◌, Some, OnErr, OnOk};
ghost use Rattle.ph_hooks.specs.Due as spec;
ghost use Rattle.ph_hooks.specs.Due.{due_of, first_due, first_of, turns_of};
ghost use Rattle.ph_hooks.specs.State as state;
ghost use Rattle.ph_hooks.specs.State.{all_renewed, empty};

use crate::waiting::{Turn, Waiting};
use ph_base::NoMemory;
use ph_delivery::Delivery;
use std::alloc::Global;
use std::marker::Model;

/// The deliveries of a book, and the endpoints that were deleted.
///
/// Contracts see it as the list of the deliveries, in the order in which they were added, and the
/// list of the deleted endpoints' numbers. `due` looks at each delivery.
#[derive(Drop)]
pub struct Hooks {
    deliveries: Vec<Waiting>,
    deleted: Vec<u64>,
}

impl Model for Hooks {
    ghost use Rattle.ph_hooks.specs.State.{HooksState};

    ghost Value = { HooksState };

    ghost view = { λ h. record { deliveries = h.deliveries.items; deleted = h.deleted.items } };
}

// Whether the endpoint of this number was deleted.
fn is_deleted(deleted: &[u64], endpoint: u64) -> bool
    ensures { result ≡ spec.is_deleted deleted.now endpoint }
{
    deleted.contains(&endpoint)
}

// The turn of a delivery that is due now.
fn due(now: u64, deleted: &[u64], waiting: &Waiting) -> Option<Turn>
    ensures { result ≡ due_of now deleted.now waiting.now }
{
    if is_deleted(deleted, waiting.endpoint) {
        return None;
    }
    match waiting.delivery.due() {
        Some(moment) if moment <= now => Some(Turn {
            moment,
            number: waiting.number,
        }),
        _ => None,
    }
}

// The first of a turn and of others' first.
fn sooner(turn: Turn, others: Option<Turn>) -> Turn
    ensures { Some result ≡ spec.sooner turn others }
{
    match others {
        Some(other) if !turn.comes_first(&other) => other,
        _ => turn,
    }
}

// The first turn of the deliveries that are due now.
fn first(now: u64, deleted: &[u64], deliveries: &[Waiting]) -> Option<Turn>
    ensures { result ≡ first_of (turns_of now deleted.now deliveries.now) }
{
    let mut first = None;
    let mut at = deliveries.len();
    'turns: while at > 0 {
        at -= 1;
        if let Some(turn) = due(now, deleted, &deliveries[at]) {
            first = Some(sooner(turn, first));
        }
    }
    first
}

// One of this number is as far as this, and another stays as it is.
fn renewed(number: u64, delivery: Delivery, waiting: Waiting) -> Waiting
    ensures { result ≡ state.renewed number delivery waiting }
{
    if waiting.number == number {
        Waiting {
            number: waiting.number,
            endpoint: waiting.endpoint,
            delivery,
        }
    } else {
        waiting
    }
}

// Renews each delivery of this number.
fn renew(deliveries: &mut [Waiting], number: u64, delivery: Delivery)
    ensures { deliveries.new ≡ all_renewed number delivery deliveries.old }
{
    'deliveries: for at in 0..deliveries.len() {
        deliveries[at] = renewed(number, delivery, deliveries[at]);
    }
}

impl Hooks {
    /// No deliveries. It takes no memory.
    pub fn new(alloc: Global) -> Hooks
        ensures { result ≡ empty }
    {
        Hooks {
            deliveries: Vec::new(alloc),
            deleted: Vec::new(alloc),
        }
    }

    /// Adds a delivery. Where there is no memory, nothing changes.
    pub fn add(&mut self, waiting: Waiting) -> Result<(), NoMemory>
        ensures added { OnOk result (self.new
            ≡ record self.old { deliveries = self.old.deliveries ++ waiting ∷ [] }) }
        ensures unchanged { OnErr result (self.new ≡ self.old) }
    {
        self.deliveries.push(waiting)?;
        Ok(())
    }

    /// Notes that the endpoint of this number was deleted: from then on its deliveries aren't due.
    /// Where there is no memory, nothing changes.
    pub fn delete(&mut self, endpoint: u64) -> Result<(), NoMemory>
        ensures deleted { OnOk result (self.new
            ≡ record self.old { deleted = self.old.deleted ++ endpoint ∷ [] }) }
        ensures unchanged { OnErr result (self.new ≡ self.old) }
    {
        self.deleted.push(endpoint)?;
        Ok(())
    }

    /// The delivery of this number is as far as this now. Where there is none, nothing changes. It
    /// takes no memory.
    pub fn renew(&mut self, number: u64, delivery: Delivery)
        ensures { self.new ≡ record self.old {
          deliveries = all_renewed number delivery self.old.deliveries;
        } }
    {
        renew(&mut self.deliveries, number, delivery);
    }

    /// The number of the delivery that is to be sent first at this moment: of those that are due and
    /// whose endpoint isn't deleted the one with the least pair of due moment and number. It takes no
    /// memory.
    pub fn due(&self, now: u64) -> Option<u64>
        ensures { result ≡ first_due now self.now }
    {
        match first(now, &self.deleted, &self.deliveries) {
            Some(turn) => Some(turn.number),
            None => None,
        }
    }
}
