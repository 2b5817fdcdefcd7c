//! A source in memory that never fails.
ghost use Rattle.std.specs.Prelude.{◌≡◌, ◌<◌, ◌≤◌, length, take, min, IsOk, IfOk, OnErr};
ghost use Rattle.ph_io.specs.Reads.{Moves, Ends, ReadFails};
ghost use Rattle.ph_io.specs.Forms.{SureSourceState, unread_sure, told_by_sure};

use crate::source::{ReadFailed, Source};
use crate::tape::Tape;
use std::marker::Model;

/// Gives the bytes that it was made of, as many in a read as there is room for, and never fails:
/// its count of faults is 0 for ever.
#[derive(Drop)]
pub struct SureSource {
    tape: Tape,
    ends: u64,
}

impl Model for SureSource {
    ghost Value = { SureSourceState };

    ghost view = { λ s. record { tape = s.tape; ends = s.ends } };
}

impl SureSource {
    /// A source of these bytes. It takes no memory.
    pub fn new(bytes: Vec<u8>) -> Self
        ensures { result ≡ unread_sure bytes.items }
    {
        SureSource {
            tape: Tape::new(bytes),
            ends: 0,
        }
    }
}

impl Source for SureSource {
    ghost source = { λ s. told_by_sure s };

    fn read(&mut self, room: &mut [u8]) -> Result<usize, ReadFailed>
        requires { 0 < length room.old }

        ensures within { IfOk result (λ n. n ≤ length room.old) }
        ensures moves { IfOk result (λ n. 0 < n →
            Moves (told_by_sure self.old) (told_by_sure self.new) (take n room.new)) }
        ensures ends { IfOk result (λ n. n ≡ 0 →
            Ends (told_by_sure self.old) (told_by_sure self.new)) }
        ensures fails { OnErr result (ReadFails (told_by_sure self.old) (told_by_sure self.new)) }

        ensures sure { IsOk result }
        ensures count { IfOk result (λ n. n ≡ min (length room.old) (length self.old.tape.left)) }
    {
        let most = room.len();
        let n = self.tape.read(room, most);
        if n == 0 {
            self.ends = self.ends.saturating_add(1);
        }
        Ok(n)
    }
}
