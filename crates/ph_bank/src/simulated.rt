//! The simulated acquirer: it rules by an order's method, and takes no memory.
ghost use Rattle.std.specs.Prelude.{◌≡◌, ◌≤◌, false, [], MatchOption};
ghost use Rattle.ph_bank.specs.Links.{AsksOnce};
ghost use Rattle.ph_bank.specs.Patiences.{next_count};
ghost use Rattle.ph_bank.specs.Simulation.{IsPlace, after_ask, answer_to, count_of, is_remembered, link_of, memory_after, simulated_answer};

use crate::asking::{Acquirer, AskFailed, AskTurn, Asked};
use ph_base::{Decline, Method, Ruling};
use ph_items::Order;
use std::marker::Model;

/// How often a reference was asked.
#[derive(Clone, Copy, Debug, PartialEq, Eq)]
pub struct Remembered {
    pub reference: u64,
    pub asks: u64,
}

/// An acquirer that rules by an order's method alone. It counts every ask of a reference, whatever its method, for
/// the 32 references most recently first asked; a new one drops the oldest.
#[derive(Drop)]
pub struct SimAcquirer {
    memory: [Remembered; 32],
    len: usize,
    faults: u64,
}

impl Model for SimAcquirer {
    ghost use Rattle.std.specs.Prelude.{◌≡◌, ◌≤◌, length, take};
    ghost use Rattle.ph_bank.specs.Simulation.{Simulated};

    ghost Value = { Simulated };

    ghost view = { λ s. record { memory = take s.len s.memory; faults = s.faults } };

    ghost invariant = { λ s. (s.len ≤ 32) × (length s.memory ≡ 32) };
}

// How many asks of a reference are remembered.
fn asks_of(memory: &[Remembered], reference: u64) -> u64
    ensures { result ≡ count_of memory.now reference }
{
    for remembered in memory {
        if remembered.reference == reference {
            return remembered.asks;
        }
    }
    0
}

// Where a reference is remembered.
fn place(memory: &[Remembered], reference: u64) -> Option<usize>
    ensures { MatchOption result (is_remembered memory.now reference ≡ false) (IsPlace memory.now reference) }
{
    for (at, remembered) in memory.iter().enumerate() {
        if remembered.reference == reference {
            return Some(at);
        }
    }
    None
}

// The answer to an ask of a method, by how many asks of its reference are remembered.
fn answer(method: Method, asks: u64) -> Result<Asked, AskFailed>
    ensures { result ≡ simulated_answer method asks }
{
    let ruling = match method {
        Method::Visa | Method::Authenticated | Method::Dispute | Method::Bypass => Ruling::Approved,
        Method::Declined => Ruling::Declined(Decline::Generic),
        Method::NoFunds => Ruling::Declined(Decline::NoFunds),
        Method::Challenge => Ruling::Challenge,
        Method::Slow(waits) => {
            if asks < u64::from(waits) {
                return Ok(Asked::Pending);
            }
            Ruling::Approved
        }
        Method::Lost => return Err(AskFailed),
    };
    Ok(Asked::Ruled(ruling))
}

impl SimAcquirer {
    /// An acquirer that remembers nothing yet.
    pub fn new() -> Self
        ensures { result ≡ record { memory = []; faults = 0 } }
    {
        let none = Remembered {
            reference: 0,
            asks: 0,
        };
        SimAcquirer {
            memory: [none; 32],
            len: 0,
            faults: 0,
        }
    }

    // One ask more of a reference, of which so many are remembered.
    fn remember(&mut self, reference: u64, asks: u64)
        requires asks { asks ≡ count_of self.old.memory reference }
        ensures { self.new ≡ record self.old { memory = memory_after self.old.memory reference } }
    {
        match place(&self.memory[..self.len], reference) {
            Some(at) => {
                let asks = asks.saturating_add(1);
                self.memory[at] = Remembered { reference, asks };
            }
            None if self.len < 32 => {
                self.memory[self.len] = Remembered { reference, asks: 1 };
                self.len += 1;
            }
            None => {
                self.memory.rotate_left(1);
                self.memory[31] = Remembered { reference, asks: 1 };
            }
        }
    }

    // How many asks of a reference it remembers.
    fn asks(&self, reference: u64) -> u64
        ensures { result ≡ count_of self.now.memory reference }
    {
        asks_of(&self.memory[..self.len], reference)
    }

    // One failure more.
    fn fail(&mut self)
        ensures after { self.new ≡ record self.old { faults = next_count self.old.faults } }
        ensures later { self.old.faults ≤ self.new.faults }
    {
        self.faults = self.faults.saturating_add(1);
    }
}

impl Acquirer for SimAcquirer {
    ghost link = { λ simulated. link_of simulated };

    fn ask(&mut self, order: &Order, turn: AskTurn) -> Result<Asked, AskFailed>
        ensures asks { AsksOnce (link_of self.old) (link_of self.new) order.now result }
        ensures answer { result ≡ answer_to self.old order.now }
        ensures after { self.new ≡ after_ask self.old order.now }
    {
        let asks = self.asks(order.reference);
        let answer = answer(order.method, asks);
        self.remember(order.reference, asks);
        if answer.is_err() {
            self.fail();
        }
        answer
    }
}
