//! A link in memory, for tests of what stands above: it follows a script, and tells all that it was asked.
ghost use Rattle.std.specs.Prelude.{◌≡◌, ◌<◌, ◌≤◌, ◌+◌, IfOk, length, vec_len, vec_capacity, []};
ghost use Rattle.ph_bank.specs.Links.{AsksOnce};
ghost use Rattle.ph_bank.specs.Scripts as spec;
ghost use Rattle.ph_bank.specs.Scripts.{after_ask, and_decision, answer_by, answer_to, link_of, next_cue, ruling_of};

use crate::asking::{Acquirer, Ask, AskFailed, AskTurn, Asked};
use ph_base::{NoMemory, Ruling};
use ph_items::Order;
use std::alloc::Global;
use std::marker::Model;

/// What the script says of one ask.
#[derive(Clone, Copy, Debug, PartialEq, Eq)]
pub enum Cue {
    /// Nothing is decided: the answer is Pending, unless the reference was decided before.
    Wait,
    /// The reference is decided so, unless it was decided before.
    Decide(Ruling),
    /// The ask fails.
    Fail,
}

/// A decision on a reference, which stays.
#[derive(Clone, Copy, Debug, PartialEq, Eq)]
pub struct Decision {
    pub reference: u64,
    pub ruling: Ruling,
}

/// A link that follows a script: its n-th ask goes by the n-th cue, and waits past the script's end. Once it was asked
/// as often as it has room for, each further ask fails and isn't told.
#[derive(Drop)]
pub struct MemAcquirer {
    cues: Vec<Cue>,
    room: usize,
    asked: Vec<Ask>,
    decisions: Vec<Decision>,
    faults: u64,
}

impl Model for MemAcquirer {
    ghost use Rattle.std.specs.Prelude.{◌≤◌, vec_len, vec_capacity};
    ghost use Rattle.ph_bank.specs.Scripts.{Script, HasRoom};

    ghost Value = { Script };

    ghost view = { λ m. record { cues = m.cues.items; room = m.room; asked = m.asked.items; decisions = m.decisions.items; faults = m.faults } };

    ghost invariant = { λ m. HasRoom m.room (vec_len m.asked) (vec_capacity m.asked) (vec_len m.decisions) (vec_capacity m.decisions) };
}

// The decision on a reference.
fn ruling(decisions: &[Decision], reference: u64) -> Option<Ruling>
    ensures { result ≡ ruling_of decisions.now reference }
{
    for decision in decisions {
        if decision.reference == reference {
            return Some(decision.ruling);
        }
    }
    None
}

// The answer by a decision.
fn answer(decision: Option<Ruling>) -> Asked
    ensures { result ≡ answer_by decision }
{
    match decision {
        Some(ruling) => Asked::Ruled(ruling),
        None => Asked::Pending,
    }
}

// Decides a reference, unless it was decided before.
fn decide(decisions: &mut Vec<Decision>, reference: u64, decided: Ruling)
    requires room { vec_len decisions.old < vec_capacity decisions.old }
    ensures items { decisions.new.items ≡ and_decision (ruling_of decisions.old.items reference) reference decided decisions.old.items }
    ensures capacity { vec_capacity decisions.new ≡ vec_capacity decisions.old }
    ensures len { vec_len decisions.new ≤ vec_len decisions.old + 1 }
{
    if ruling(decisions, reference).is_none() {
        decisions.push_reserved(Decision {
            reference,
            ruling: decided,
        });
    }
}

impl MemAcquirer {
    /// A link that follows these cues and has room for so many asks. Only this takes memory.
    pub fn new(alloc: Global, cues: Vec<Cue>, room: usize) -> Result<Self, NoMemory>
        ensures { IfOk result (λ link. link ≡ record { cues = cues.items; room = room; asked = []; decisions = []; faults = 0 }) }
    {
        Ok(MemAcquirer {
            cues,
            room,
            asked: Vec::with_capacity(alloc, room)?,
            decisions: Vec::with_capacity(alloc, room)?,
            faults: 0,
        })
    }

    /// What it was asked so far, with its answers.
    pub fn asked(&self) -> &[Ask]
        ensures { result.now ≡ self.now.asked }
    {
        &self.asked
    }

    // The cue of the next ask.
    fn cue(&self) -> Cue
        ensures { result ≡ next_cue self.now }
    {
        match self.cues.get(self.asked.len()) {
            Some(cue) => *cue,
            None => Cue::Wait,
        }
    }

    // An ask that there is room for.
    fn answer_on(&mut self, cue: Cue, order: &Order) -> Result<Asked, AskFailed>
        requires room { length self.old.asked < self.old.room }
        ensures answer { result ≡ spec.answer_on cue order.now.reference self.old.decisions }
        ensures after { self.new ≡ spec.asked_on cue self.old order.now }
    {
        let reference = order.reference;
        let answer = match cue {
            Cue::Fail => {
                self.faults = self.faults.saturating_add(1);
                Err(AskFailed)
            }
            Cue::Wait => Ok(answer(ruling(&self.decisions, reference))),
            Cue::Decide(decided) => {
                decide(&mut self.decisions, reference, decided);
                Ok(answer(ruling(&self.decisions, reference)))
            }
        };
        self.asked.push_reserved(Ask {
            order: *order,
            answer,
        });
        answer
    }
}

impl Acquirer for MemAcquirer {
    ghost link = { λ memory. link_of memory };

    fn ask(&mut self, order: &Order, turn: AskTurn) -> Result<Asked, AskFailed>
        ensures asks { AsksOnce (link_of self.old) (link_of self.new) order.now result }
        ensures answer { result ≡ answer_to self.old order.now }
        ensures after { self.new ≡ after_ask self.old order.now }
    {
        if self.asked.len() == self.room {
            self.faults = self.faults.saturating_add(1);
            return Err(AskFailed);
        }
        let cue = self.cue();
        self.answer_on(cue, order)
    }
}
