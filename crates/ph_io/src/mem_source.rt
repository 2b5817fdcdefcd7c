//! A source in memory, some of whose reads fail.
ghost use Rattle.std.specs.Prelude.{◌≡◌, ◌+◌, ◌-◌, ◌^◌, ◌<◌, ◌≤◌, length, take, min, is_err, IfOk, OnErr};
ghost use Rattle.ph_io.specs.Reads.{Moves, Ends, ReadFails};
ghost use Rattle.ph_io.specs.Forms.{MemSourceState, unread_mem, told_by_mem, is_listed};

use crate::source::{ReadFailed, Source};
use crate::tape::Tape;
use std::marker::Model;

/// Gives the bytes that it was made of, at most so many in a read, and fails at the reads of the
/// numbers that it was given. The first read has the number 0.
#[derive(Drop)]
pub struct MemSource {
    tape: Tape,
    most: usize,
    failing: Vec<u64>,
    reads: u64,
    ends: u64,
    faults: u64,
}

impl Model for MemSource {
    ghost Value = { MemSourceState };

    ghost view = { λ s. record {
      tape = s.tape;
      ends = s.ends;
      faults = s.faults;
      most = s.most;
      failing = s.failing.items;
      reads = s.reads;
    } };

    ghost invariant = { λ s. 0 < s.most };
}

impl MemSource {
    /// A source of these bytes. It takes no memory.
    pub fn new(bytes: Vec<u8>, most: usize, failing: Vec<u64>) -> Self
        requires { 0 < most }
        ensures { result ≡ unread_mem bytes.items most failing.items }
    {
        MemSource {
            tape: Tape::new(bytes),
            most,
            failing,
            reads: 0,
            ends: 0,
            faults: 0,
        }
    }
}

impl Source for MemSource {
    ghost source = { λ s. told_by_mem s };

    fn read(&mut self, room: &mut [u8]) -> Result<usize, ReadFailed>
        requires { 0 < length room.old }

        ensures within { IfOk result (λ n. n ≤ length room.old) }
        ensures moves { IfOk result (λ n. 0 < n →
            Moves (told_by_mem self.old) (told_by_mem self.new) (take n room.new)) }
        ensures ends { IfOk result (λ n. n ≡ 0 →
            Ends (told_by_mem self.old) (told_by_mem self.new)) }
        ensures fails { OnErr result (ReadFails (told_by_mem self.old) (told_by_mem self.new)) }

        ensures listed { is_err result ≡ is_listed self.old.failing self.old.reads }
        ensures count { IfOk result (λ n.
            n ≡ min self.old.most (min (length room.old) (length self.old.tape.left))) }
        ensures reads { self.new.reads ≡ min (self.old.reads + 1) (2 ^ 64 - 1) }
        ensures most { self.new.most ≡ self.old.most }
        ensures failing { self.new.failing ≡ self.old.failing }
    {
        let call = self.reads;
        self.reads = call.saturating_add(1);
        if self.failing.contains(&call) {
            self.faults = self.faults.saturating_add(1);
            return Err(ReadFailed);
        }
        let n = self.tape.read(room, self.most);
        if n == 0 {
            self.ends = self.ends.saturating_add(1);
        }
        Ok(n)
    }
}
