//! A connection over TCP.
ghost use Rattle.std.specs.Prelude.{◌≡◌, refl, None};
ghost use Rattle.ph_net.specs.Forms.{TcpDuplexState, unused, source_of, sink_of, beside_source_of, beside_sink_of, has_failed};

use ph_io::{Duplex, ReadFailed, Sink, Source, WriteFailed};
use std::io::{Read, Write};
use std::marker::Model;
use std::net::TcpStream;

/// A stream of TCP, with counts of its ends and of the faults of its reads and writes. It tells no
/// content and no address. A write that takes none of a piece counts as a fault. Dropping it closes
/// it.
#[derive(Drop)]
pub struct TcpDuplex {
    stream: TcpStream,
    ends: u64,
    read_faults: u64,
    write_faults: u64,
}

impl Model for TcpDuplex {
    ghost Value = { TcpDuplexState };

    ghost view = { λ d. record {
      ends = d.ends;
      read_faults = d.read_faults;
      write_faults = d.write_faults;
    } };
}

impl TcpDuplex {
    /// A connection over this stream.
    pub fn new(stream: TcpStream) -> Self
        ensures { result ≡ unused }
    {
        TcpDuplex {
            stream,
            ends: 0,
            read_faults: 0,
            write_faults: 0,
        }
    }

    /// Whether a read or a write of it failed.
    pub fn has_failed(&self) -> bool
        ensures { result ≡ has_failed self.now }
    {
        self.read_faults > 0 || self.write_faults > 0
    }
}

impl Source for TcpDuplex {
    ghost source = { source_of };

    ghost beside_source = { beside_source_of };

    fn read(&mut self, room: &mut [u8]) -> Result<usize, ReadFailed> {
        match self.stream.read(room) {
            Ok(n) => {
                if n == 0 {
                    self.ends = self.ends.saturating_add(1);
                }
                Ok(n)
            }
            Err(_) => {
                self.read_faults = self.read_faults.saturating_add(1);
                Err(ReadFailed)
            }
        }
    }
}

impl Sink for TcpDuplex {
    ghost sink = { sink_of };

    ghost beside_sink = { beside_sink_of };

    fn write(&mut self, piece: &[u8]) -> Result<usize, WriteFailed> {
        match self.stream.write(piece) {
            Ok(n) if n > 0 => Ok(n),
            _ => {
                self.write_faults = self.write_faults.saturating_add(1);
                Err(WriteFailed)
            }
        }
    }
}

impl Duplex for TcpDuplex {
    ghost address = { λ _. None };

    ghost read_keeps = { λ _. refl };

    ghost write_keeps = { λ _. refl };
}
