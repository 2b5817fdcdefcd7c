//! A sink in memory, some of whose writes fail.
ghost use Rattle.std.specs.Prelude.{◌≡◌, ◌+◌, ◌-◌, ◌^◌, ◌<◌, ◌≤◌, length, take, min, true, IsErr, IfOk, OnErr};
ghost use Rattle.ph_io.specs.Writes.{Takes, WriteFails};
ghost use Rattle.ph_io.specs.Forms.{MemSinkState, unwritten, told_by_sink, is_listed};

use crate::sink::{Sink, WriteFailed};
use std::alloc::Global;
use std::marker::Model;

/// Keeps the bytes that it is given, takes at most so many in a write, and fails at the writes of
/// the numbers that it was given. The first write has the number 0. A write that finds no memory
/// fails too.
#[derive(Drop)]
pub struct MemSink {
    bytes: Vec<u8>,
    most: usize,
    failing: Vec<u64>,
    writes: u64,
    faults: u64,
}

impl Model for MemSink {
    ghost Value = { MemSinkState };

    ghost view = { λ s. record {
      bytes = s.bytes.items;
      faults = s.faults;
      most = s.most;
      failing = s.failing.items;
      writes = s.writes;
    } };

    ghost invariant = { λ s. 0 < s.most };
}

impl MemSink {
    /// A sink to which nothing was written yet. It takes no memory.
    pub fn new(alloc: Global, most: usize, failing: Vec<u64>) -> Self
        requires { 0 < most }
        ensures { result ≡ unwritten most failing.items }
    {
        MemSink {
            bytes: Vec::new(alloc),
            most,
            failing,
            writes: 0,
            faults: 0,
        }
    }

    /// The bytes that were written.
    pub fn bytes(&self) -> &[u8]
        ensures { result.now ≡ self.now.bytes }
    {
        self.bytes.as_slice()
    }
}

impl Sink for MemSink {
    ghost sink = { λ s. told_by_sink s };

    fn write(&mut self, piece: &[u8]) -> Result<usize, WriteFailed>
        requires { 0 < length piece.now }

        ensures some { IfOk result (λ n. 0 < n) }
        ensures within { IfOk result (λ n. n ≤ length piece.now) }
        ensures takes { IfOk result (λ n.
            Takes (told_by_sink self.old) (told_by_sink self.new) (take n piece.now)) }
        ensures fails { OnErr result (WriteFails (told_by_sink self.old) (told_by_sink self.new)) }

        ensures listed { is_listed self.old.failing self.old.writes ≡ true → IsErr result }
        ensures count { IfOk result (λ n. n ≡ min self.old.most (length piece.now)) }
        ensures writes { self.new.writes ≡ min (self.old.writes + 1) (2 ^ 64 - 1) }
        ensures most { self.new.most ≡ self.old.most }
        ensures failing { self.new.failing ≡ self.old.failing }
    {
        let call = self.writes;
        self.writes = call.saturating_add(1);
        if self.failing.contains(&call) {
            self.faults = self.faults.saturating_add(1);
            return Err(WriteFailed);
        }
        let n = self.most.min(piece.len());
        match self.bytes.extend_from_slice(&piece[..n]) {
            Ok(()) => Ok(n),
            Err(_) => {
                self.faults = self.faults.saturating_add(1);
                Err(WriteFailed)
            }
        }
    }
}
