//! A sink over a writer of std.
ghost use Rattle.std.specs.Prelude.{◌≡◌, ◌<◌, ◌≤◌, length, take, IfOk, OnErr};
ghost use Rattle.std.specs.Io.KnownBytes.{WriteAppends};
ghost use Rattle.ph_io.specs.Writes.{Takes, WriteFails};
ghost use Rattle.ph_io.specs.Forms.{untold_sink};

use crate::sink::{Sink, WriteFailed};
use std::io::Write;
use std::marker::Model;

/// A writer of std, as standard output, with a count of its faults. As a sink it tells no content; where the
/// writer tells the bytes that it holds, each write says which of a piece went there. A write that takes none of a
/// piece counts as a fault, and so does one that a signal interrupted.
///
/// It never flushes: give it a writer that keeps nothing back, as standard output is here.
#[derive(Drop)]
pub struct StdSink<W: Write + Drop> {
    writer: W,
    faults: u64,
}

impl<W: Write + Drop> Model for StdSink<W> {
    ghost use Rattle.ph_io.specs.Forms.{StdSinkState};

    ghost Value = { StdSinkState };

    ghost view = { λ s. record { contents = W.contents s.writer; faults = s.faults } };
}

impl<W: Write + Drop> StdSink<W> {
    /// A sink over this writer.
    pub fn new(writer: W) -> Self
        ensures { result ≡ record { contents = W.contents writer; faults = 0 } }
    {
        StdSink { writer, faults: 0 }
    }
}

impl<W: Write + Drop> Sink for StdSink<W> {
    ghost sink = { λ s. untold_sink s.faults };

    fn write(&mut self, piece: &[u8]) -> Result<usize, WriteFailed>
        requires { 0 < length piece.now }

        ensures some { IfOk result (λ n. 0 < n) }
        ensures within { IfOk result (λ n. n ≤ length piece.now) }
        ensures takes { IfOk result (λ n.
            Takes (untold_sink self.old.faults) (untold_sink self.new.faults) (take n piece.now)) }
        ensures fails { OnErr result (WriteFails (untold_sink self.old.faults) (untold_sink self.new.faults)) }

        ensures bytes { WriteAppends self.old.contents self.new.contents result piece.now }
    {
        match self.writer.write(piece) {
            Ok(n) if n > 0 => Ok(n),
            _ => {
                self.faults = self.faults.saturating_add(1);
                Err(WriteFailed)
            }
        }
    }
}
