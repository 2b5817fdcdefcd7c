//! A sink that never fails.
ghost use Rattle.std.specs.Prelude.{◌≡◌, ℕ, ◌+◌, ◌-◌, ◌^◌, ◌<◌, ◌≤◌, length, take, min, Ok, IfOk, OnErr};
ghost use Rattle.ph_io.specs.Writes.{Takes, WriteFails};
ghost use Rattle.ph_io.specs.Forms.{untold_sink};

use crate::sink::{Sink, WriteFailed};
use std::marker::Model;

/// Takes all bytes and keeps none of them, so that it needs no memory and never fails: its count
/// of faults is 0 for ever. It tells no content; it counts the bytes.
#[derive(Drop)]
pub struct SureSink {
    count: u64,
}

impl Model for SureSink {
    ghost Value = { ℕ };

    ghost view = { λ s. s.count };
}

impl SureSink {
    /// A sink to which nothing was written yet.
    pub fn new() -> Self
        ensures { result ≡ 0 }
    {
        SureSink { count: 0 }
    }

    /// How many bytes were written; it stands still at `u64::MAX`.
    pub fn count(&self) -> u64
        ensures { result ≡ self.now }
    {
        self.count
    }
}

impl Sink for SureSink {
    ghost sink = { λ _. untold_sink 0 };

    fn write(&mut self, piece: &[u8]) -> Result<usize, WriteFailed>
        requires { 0 < length piece.now }

        ensures some { IfOk result (λ n. 0 < n) }
        ensures within { IfOk result (λ n. n ≤ length piece.now) }
        ensures takes { IfOk result (λ n.
            Takes (untold_sink 0) (untold_sink 0) (take n piece.now)) }
        ensures fails { OnErr result (WriteFails (untold_sink 0) (untold_sink 0)) }

        ensures sure { result ≡ Ok (length piece.now) }
        ensures count { self.new ≡ min (self.old + length piece.now) (2 ^ 64 - 1) }
    {
        self.count = self.count.saturating_add(piece.len() as u64);
        Ok(piece.len())
    }
}
