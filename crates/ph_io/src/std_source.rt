//! A source over a reader of std.
ghost use Rattle.std.specs.Prelude.{◌≡◌, ◌<◌, ◌≤◌, length, take, IfOk, OnErr};
ghost use Rattle.std.specs.Io.KnownBytes.{ReadConsumes};
ghost use Rattle.ph_io.specs.Reads.{Moves, Ends, ReadFails};
ghost use Rattle.ph_io.specs.Forms.{untold_source};

use crate::source::{ReadFailed, Source};
use std::io::Read;
use std::marker::Model;

/// A reader of std, as standard input, with counts of its ends and faults. As a source it tells no content; where
/// the reader tells the bytes that it has still to give, each read says which of them came. A read that a signal
/// interrupted counts as a fault, as any other error does.
#[derive(Drop)]
pub struct StdSource<R: Read + Drop> {
    reader: R,
    ends: u64,
    faults: u64,
}

impl<R: Read + Drop> Model for StdSource<R> {
    ghost use Rattle.ph_io.specs.Forms.{StdSourceState};

    ghost Value = { StdSourceState };

    ghost view = { λ s. record { remaining = R.remaining s.reader; ends = s.ends; faults = s.faults } };
}

impl<R: Read + Drop> StdSource<R> {
    /// A source over this reader.
    pub fn new(reader: R) -> Self
        ensures { result ≡ record { remaining = R.remaining reader; ends = 0; faults = 0 } }
    {
        StdSource {
            reader,
            ends: 0,
            faults: 0,
        }
    }
}

impl<R: Read + Drop> Source for StdSource<R> {
    ghost source = { λ s. untold_source s.ends s.faults };

    fn read(&mut self, room: &mut [u8]) -> Result<usize, ReadFailed>
        requires { 0 < length room.old }

        ensures within { IfOk result (λ n. n ≤ length room.old) }
        ensures moves { IfOk result (λ n. 0 < n →
            Moves (untold_source self.old.ends self.old.faults) (untold_source self.new.ends self.new.faults) (take n room.new)) }
        ensures ends { IfOk result (λ n. n ≡ 0 →
            Ends (untold_source self.old.ends self.old.faults) (untold_source self.new.ends self.new.faults)) }
        ensures fails { OnErr result
            (ReadFails (untold_source self.old.ends self.old.faults) (untold_source self.new.ends self.new.faults)) }

        ensures bytes { ReadConsumes self.old.remaining self.new.remaining result room.new }
    {
        match self.reader.read(room) {
            Ok(n) => {
                if n == 0 {
                    self.ends = self.ends.saturating_add(1);
                }
                Ok(n)
            }
            Err(_) => {
                self.faults = self.faults.saturating_add(1);
                Err(ReadFailed)
            }
        }
    }
}
