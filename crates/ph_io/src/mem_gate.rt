//! A gate in memory, some of whose calls fail.
ghost use Rattle.std.specs.Prelude.{◌≡◌, ◌+◌, ◌-◌, ◌^◌, ◌<◌, ◌≤◌, [], ◌∷◌, ◌++◌, length, min, is_err, IfOk, IfSome, IfNone, OnErr, OnOk};
ghost use Rattle.std.specs.Option.{option_to_list};
ghost use Rattle.ph_io.specs.Forms.{told_by_mem, told_by_sink, is_listed};
ghost use Rattle.ph_io.specs.Gates.{IsFresh, Gives, GateEnds, GateFails, TakesBack, return_of};
ghost use Rattle.ph_io.specs.MemGates.{unopened, told_by_gate, IsUnused};

use crate::end::End;
use crate::gate::{Gate, GateFailed};
use crate::mem_duplex::MemDuplex;
use ph_base::NoMemory;
use std::alloc::Global;
use std::collections::VecDeque;
use std::marker::Model;

/// A connection that came back, and how its session ended.
#[derive(Drop)]
pub struct Returned {
    /// The connection as it came back.
    pub conn: MemDuplex,
    /// The end of its session.
    pub end: End,
}

/// Hands out the connections that were added to it, in their order, fails at the calls of `next` of
/// the numbers that it was given, and keeps the connections that come back. The first call has the
/// number 0.
#[derive(Drop)]
pub struct MemGate {
    waiting: VecDeque<MemDuplex>,
    returned: Vec<Returned>,
    // How many connections were added. There is room for as many to come back.
    added: usize,
    ended: bool,
    failing: Vec<u64>,
    calls: u64,
    faults: u64,
}

impl Model for MemGate {
    ghost use Rattle.std.specs.Prelude.{◌+◌, ◌≤◌, length, All, vec_len, vec_capacity};
    ghost use Rattle.ph_io.specs.MemGates.{MemGateState, mem_gate_of, IsUnused};

    ghost Value = { MemGateState };

    ghost view = { λ g. mem_gate_of g.waiting.items g.returned.items g.added g.ended g.failing.items
        g.calls g.faults };

    ghost invariant = { λ g. (length g.waiting.items + length g.returned.items ≤ g.added)
        × (g.added ≤ vec_capacity g.returned) × All IsUnused g.waiting.items };
}

impl MemGate {
    /// A gate to which no connection was added yet. It takes no memory.
    pub fn new(alloc: Global, failing: Vec<u64>) -> Self
        ensures { result ≡ unopened failing.items }
    {
        MemGate {
            waiting: VecDeque::new(alloc),
            returned: Vec::new(alloc),
            added: 0,
            ended: false,
            failing,
            calls: 0,
            faults: 0,
        }
    }

    /// Adds a connection that is to be handed out behind those added before. Where there is no
    /// memory, the gate is as before.
    pub fn add(&mut self, conn: MemDuplex) -> Result<(), NoMemory>
        requires { IsUnused conn }
        ensures added { OnOk result (self.new ≡ record self.old { waiting = self.old.waiting ++ conn ∷ [] }) }
        ensures unchanged { OnErr result (self.new ≡ self.old) }
    {
        let Some(added) = self.added.checked_add(1) else {
            return Err(NoMemory);
        };
        self.returned.reserve(added - self.returned.len())?;
        self.waiting.push_back(conn)?;
        self.added = added;
        Ok(())
    }

    /// The connections that came back, in the order in which they did.
    pub fn returned(&self) -> &[Returned]
        ensures { result.now ≡ self.now.returned }
    {
        self.returned.as_slice()
    }
}

impl Gate for MemGate {
    type Conn = MemDuplex;

    ghost gate = { λ g. told_by_gate g };

    fn next(&mut self) -> Result<Option<MemDuplex>, GateFailed>
        ensures gives { IfOk result (λ next. IfSome next (λ _.
            Gives (told_by_gate self.old) (told_by_gate self.new))) }
        ensures fresh { IfOk result (λ next. IfSome next (λ conn.
            IsFresh (told_by_mem conn.source) (told_by_sink conn.sink))) }
        ensures ends { IfOk result (λ next. IfNone next
            (GateEnds (told_by_gate self.old) (told_by_gate self.new))) }
        ensures fails { OnErr result (GateFails (told_by_gate self.old) (told_by_gate self.new)) }

        ensures listed { is_err result ≡ is_listed self.old.failing self.old.calls }
        ensures first { IfOk result (λ next.
            self.old.waiting ≡ option_to_list next ++ self.new.waiting) }
        ensures none { IfOk result (λ next. IfNone next (self.old.waiting ≡ [])) }
        ensures waiting { OnErr result (self.new.waiting ≡ self.old.waiting) }
        ensures returned { self.new.returned ≡ self.old.returned }
        ensures calls { self.new.calls ≡ min (self.old.calls + 1) (2 ^ 64 - 1) }
        ensures failing { self.new.failing ≡ self.old.failing }
    {
        let call = self.calls;
        self.calls = call.saturating_add(1);
        self.ended = false;
        if self.failing.contains(&call) {
            self.faults = self.faults.saturating_add(1);
            return Err(GateFailed);
        }
        let next = self.waiting.pop_front();
        self.ended = next.is_none();
        Ok(next)
    }

    fn back(&mut self, conn: MemDuplex, end: End)
        requires { 0 < (told_by_gate self.old).out }
        ensures back { TakesBack (told_by_gate self.old) (told_by_gate self.new)
            (return_of (told_by_mem conn.source) (told_by_sink conn.sink) end) }

        ensures waiting { self.new.waiting ≡ self.old.waiting }
        ensures returned { self.new.returned ≡
            self.old.returned ++ record { conn = conn; end = end } ∷ [] }
        ensures calls { self.new.calls ≡ self.old.calls }
        ensures failing { self.new.failing ≡ self.old.failing }
    {
        self.returned.push_reserved(Returned { conn, end });
    }
}
