//! A connection in memory, some of whose reads and writes fail.
ghost use Rattle.std.specs.Prelude.{◌≡◌, ◌+◌, ◌-◌, ◌^◌, ◌<◌, ◌≤◌, length, take, min, true, is_err, IsErr, IfOk, OnErr, refl};
ghost use Rattle.ph_io.specs.Reads.{Moves, Ends, ReadFails};
ghost use Rattle.ph_io.specs.Writes.{Takes, WriteFails};
ghost use Rattle.ph_io.specs.Forms.{MemDuplexState, told_by_mem, told_by_sink, is_listed, beside_mem_source, beside_mem_sink};

use crate::address::Address;
use crate::duplex::Duplex;
use crate::mem_sink::MemSink;
use crate::mem_source::MemSource;
use crate::sink::{Sink, WriteFailed};
use crate::source::{ReadFailed, Source};
use std::marker::Model;

/// Reads from a source in memory and writes to a sink in memory, and fails where they do.
#[derive(Drop)]
pub struct MemDuplex {
    source: MemSource,
    sink: MemSink,
    address: Option<Address>,
}

impl Model for MemDuplex {
    ghost Value = { MemDuplexState };

    ghost view = { λ d. record { source = d.source; sink = d.sink; address = d.address } };
}

impl MemDuplex {
    /// A connection that reads from this source and writes to this sink, and leads to this address.
    /// It takes no memory.
    pub fn new(source: MemSource, sink: MemSink, address: Option<Address>) -> Self
        ensures { result ≡ record { source = source; sink = sink; address = address } }
    {
        MemDuplex {
            source,
            sink,
            address,
        }
    }

    /// The bytes that were written.
    pub fn written(&self) -> &[u8]
        ensures { result.now ≡ self.now.sink.bytes }
    {
        self.sink.bytes()
    }
}

impl Source for MemDuplex {
    ghost source = { λ d. told_by_mem d.source };

    ghost beside_source = { beside_mem_source };

    fn read(&mut self, room: &mut [u8]) -> Result<usize, ReadFailed>
        requires { 0 < length room.old }

        ensures within { IfOk result (λ n. n ≤ length room.old) }
        ensures moves { IfOk result (λ n. 0 < n →
            Moves (told_by_mem self.old.source) (told_by_mem self.new.source) (take n room.new)) }
        ensures ends { IfOk result (λ n. n ≡ 0 →
            Ends (told_by_mem self.old.source) (told_by_mem self.new.source)) }
        ensures fails { OnErr result
            (ReadFails (told_by_mem self.old.source) (told_by_mem self.new.source)) }

        ensures listed { is_err result ≡ is_listed self.old.source.failing self.old.source.reads }
        ensures count { IfOk result (λ n. n ≡ min self.old.source.most
            (min (length room.old) (length self.old.source.tape.left))) }
        ensures reads { self.new.source.reads ≡ min (self.old.source.reads + 1) (2 ^ 64 - 1) }
        ensures most { self.new.source.most ≡ self.old.source.most }
        ensures failing { self.new.source.failing ≡ self.old.source.failing }
        ensures sink { self.new.sink ≡ self.old.sink }
        ensures address { self.new.address ≡ self.old.address }
    {
        self.source.read(room)
    }
}

impl Sink for MemDuplex {
    ghost sink = { λ d. told_by_sink d.sink };

    ghost beside_sink = { beside_mem_sink };

    fn write(&mut self, piece: &[u8]) -> Result<usize, WriteFailed>
        requires { 0 < length piece.now }

        ensures some { IfOk result (λ n. 0 < n) }
        ensures within { IfOk result (λ n. n ≤ length piece.now) }
        ensures takes { IfOk result (λ n.
            Takes (told_by_sink self.old.sink) (told_by_sink self.new.sink) (take n piece.now)) }
        ensures fails { OnErr result
            (WriteFails (told_by_sink self.old.sink) (told_by_sink self.new.sink)) }

        ensures listed { is_listed self.old.sink.failing self.old.sink.writes ≡ true → IsErr result }
        ensures count { IfOk result (λ n. n ≡ min self.old.sink.most (length piece.now)) }
        ensures writes { self.new.sink.writes ≡ min (self.old.sink.writes + 1) (2 ^ 64 - 1) }
        ensures most { self.new.sink.most ≡ self.old.sink.most }
        ensures failing { self.new.sink.failing ≡ self.old.sink.failing }
        ensures source { self.new.source ≡ self.old.source }
        ensures address { self.new.address ≡ self.old.address }
    {
        self.sink.write(piece)
    }
}

impl Duplex for MemDuplex {
    ghost address = { λ d. d.address };

    ghost read_keeps = { λ _. refl };

    ghost write_keeps = { λ _. refl };
}
