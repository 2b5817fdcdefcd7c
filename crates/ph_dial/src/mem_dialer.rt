//! A dialer in memory, some of whose dials fail.
ghost use Rattle.std.specs.Prelude.{◌≡◌, ◌+◌, ◌-◌, ◌^◌, ◌<◌, ◌≤◌, [], ◌∷◌, ◌++◌, min, true, Some, IfOk, IsErr, OnErr, OnOk};
ghost use Rattle.ph_io.specs.Forms.{told_by_mem, told_by_sink, is_listed};
ghost use Rattle.ph_io.specs.Gates.{IsFresh};
ghost use Rattle.ph_dial.specs.Dialers.{LeadsTo, Dials, DialFails, HangsUp};
ghost use Rattle.ph_dial.specs.MemDialers.{undialed, told_by_dialer, dialed_as, IsUnused};

use crate::dialer::{DialFailed, Dialer};
use ph_base::{Bytes, NoMemory};
use ph_io::{Address, MemDuplex, MemSink, MemSource};
use std::alloc::Global;
use std::collections::VecDeque;
use std::marker::Model;

/// What stands at the far end of a dial.
#[derive(Drop)]
pub struct FarEnd {
    /// What is read from it.
    pub source: MemSource,
    /// What is written to it.
    pub sink: MemSink,
}

/// Connects to the far ends that were added to it, in their order and whatever the host and the
/// port, fails at the dials of the numbers that it was given, and keeps the connections that come
/// back. The first dial has the number 0. A dial with no far end left fails too, and one that finds
/// no memory.
#[derive(Drop)]
pub struct MemDialer {
    alloc: Global,
    waiting: VecDeque<FarEnd>,
    returned: Vec<MemDuplex>,
    // How many far ends were added. There is room for as many to come back.
    added: usize,
    failing: Vec<u64>,
    dials: u64,
    faults: u64,
}

impl Model for MemDialer {
    ghost use Rattle.std.specs.Prelude.{◌+◌, ◌≤◌, length, All, vec_capacity};
    ghost use Rattle.ph_dial.specs.MemDialers.{MemDialerState, mem_dialer_of, IsUnused};

    ghost Value = { MemDialerState };

    ghost view = { λ d. mem_dialer_of d.waiting.items d.returned.items d.added d.failing.items
        d.dials d.faults };

    ghost invariant = { λ d. (length d.waiting.items + length d.returned.items ≤ d.added)
        × (d.added ≤ vec_capacity d.returned) × All IsUnused d.waiting.items };
}

impl MemDialer {
    /// A dialer to which no far end was added yet. It takes no memory.
    pub fn new(alloc: Global, failing: Vec<u64>) -> Self
        ensures { result ≡ undialed failing.items }
    {
        MemDialer {
            alloc,
            waiting: VecDeque::new(alloc),
            returned: Vec::new(alloc),
            added: 0,
            failing,
            dials: 0,
            faults: 0,
        }
    }

    /// Adds a far end that is to be dialed behind those added before. Where there is no memory, the
    /// dialer is as before.
    pub fn add(&mut self, far: FarEnd) -> Result<(), NoMemory>
        requires { IsUnused far }
        ensures added { OnOk result (self.new ≡ record self.old { waiting = self.old.waiting ++ far ∷ [] }) }
        ensures unchanged { OnErr result (self.new ≡ self.old) }
    {
        let Some(added) = self.added.checked_add(1) else {
            return Err(NoMemory);
        };
        self.returned.reserve(added - self.returned.len())?;
        self.waiting.push_back(far)?;
        self.added = added;
        Ok(())
    }

    /// The connections that came back, in the order in which they did.
    pub fn returned(&self) -> &[MemDuplex]
        ensures { result.now ≡ self.now.returned }
    {
        self.returned.as_slice()
    }

    // A dial that failed, which is counted.
    fn fails(&mut self) -> DialFailed
        ensures { self.new ≡ record self.old { faults = min (self.old.faults + 1) (2 ^ 64 - 1) } }
    {
        self.faults = self.faults.saturating_add(1);
        DialFailed
    }
}

impl Dialer for MemDialer {
    type Conn = MemDuplex;

    ghost dialer = { λ d. told_by_dialer d };

    fn dial(&mut self, host: &Bytes, port: u16) -> Result<MemDuplex, DialFailed>
        ensures dials { IfOk result (λ _. Dials (told_by_dialer self.old) (told_by_dialer self.new)) }
        ensures fresh { IfOk result (λ conn.
            IsFresh (told_by_mem conn.source) (told_by_sink conn.sink)) }
        ensures leads { IfOk result (λ conn.
            LeadsTo (told_by_dialer self.old).calls conn.address host.now port) }
        ensures fails { OnErr result (DialFails (told_by_dialer self.old) (told_by_dialer self.new)) }

        ensures listed { is_listed self.old.failing self.old.dials ≡ true → IsErr result }
        ensures none { self.old.waiting ≡ [] → IsErr result }
        ensures first { IfOk result (λ conn. self.old.waiting
            ≡ record { source = conn.source; sink = conn.sink } ∷ self.new.waiting) }
        ensures waiting { OnErr result (self.new.waiting ≡ self.old.waiting) }
        ensures returned { self.new.returned ≡ self.old.returned }
        ensures dialed { self.new.dials ≡ min (self.old.dials + 1) (2 ^ 64 - 1) }
        ensures failing { self.new.failing ≡ self.old.failing }
    {
        let dial = self.dials;
        self.dials = dial.saturating_add(1);
        if self.failing.contains(&dial) {
            return Err(self.fails());
        }
        let Ok(copy) = host.copy(self.alloc) else {
            return Err(self.fails());
        };
        let Some(far) = self.waiting.pop_front() else {
            return Err(self.fails());
        };
        let address = Address { host: copy, port };
        Ok(MemDuplex::new(far.source, far.sink, Some(address)))
    }

    fn back(&mut self, conn: MemDuplex)
        requires { 0 < (told_by_dialer self.old).out }
        ensures back { HangsUp (told_by_dialer self.old) (told_by_dialer self.new) (dialed_as conn) }

        ensures waiting { self.new.waiting ≡ self.old.waiting }
        ensures returned { self.new.returned ≡ self.old.returned ++ conn ∷ [] }
        ensures dialed { self.new.dials ≡ self.old.dials }
        ensures failing { self.new.failing ≡ self.old.failing }
    {
        self.returned.push_reserved(conn);
    }
}
