//! A gate in memory that tells when a connection has come back.
ghost use Rattle.std.specs.Prelude.{◌≡◌, ◌<◌, IfOk, IfSome, IfNone, OnErr};
ghost use Rattle.ph_io.specs.Forms.{told_by_mem, told_by_sink};
ghost use Rattle.ph_io.specs.Gates.{IsFresh, Gives, GateEnds, GateFails, TakesBack, return_of};
ghost use Rattle.ph_io.specs.MemGates.{told_by_gate};

use ph_io::{End, Gate, GateFailed, MemDuplex, MemGate};
use std::sync::atomic::{AtomicBool, Ordering};

/// A gate in memory that sets a flag, where it has one, when a connection comes back: its reply has been written then.
#[derive(Drop)]
pub struct Telling<'a> {
    pub gate: MemGate,
    pub flag: Option<&'a AtomicBool>,
}

impl<'a> Gate for Telling<'a> {
    type Conn = MemDuplex;

    ghost gate = { λ t. told_by_gate t.gate };

    fn next(&mut self) -> Result<Option<MemDuplex>, GateFailed> {
        self.gate.next()
    }

    fn back(&mut self, conn: MemDuplex, end: End) {
        self.gate.back(conn, end);
        if let Some(flag) = self.flag {
            flag.store(true, Ordering::SeqCst);
        }
    }
}
