//! Bytes in memory that are read from the front.
ghost use Rattle.std.specs.Prelude.{◌≡◌, ◌≤◌, ◌++◌, length, take, drop, min};
ghost use Rattle.ph_io.specs.Forms.{TapeState, unread};

use std::marker::Model;

/// Bytes, and how many of them were taken from the front.
#[derive(Drop)]
pub(crate) struct Tape {
    bytes: Vec<u8>,
    at: usize,
}

impl Model for Tape {
    ghost Value = { TapeState };

    ghost view = { λ t. record {
      left = drop t.at t.bytes.items;
      taken = take t.at t.bytes.items;
    } };

    ghost invariant = { λ t. t.at ≤ length t.bytes.items };
}

impl Tape {
    /// A tape of which nothing was taken. It takes no memory.
    pub(crate) fn new(bytes: Vec<u8>) -> Self
        ensures { result ≡ unread bytes.items }
    {
        Tape { bytes, at: 0 }
    }

    /// Moves as many bytes into the front of `room` as are left, at most `most` and at most as
    /// many as it holds, and answers how many.
    pub(crate) fn read(&mut self, room: &mut [u8], most: usize) -> usize
        ensures count { result ≡ min most (min (length room.old) (length self.old.left)) }
        ensures left { self.old.left ≡ take result room.new ++ self.new.left }
        ensures taken { self.new.taken ≡ self.old.taken ++ take result room.new }
    {
        let rest = self.bytes.len() - self.at;
        let n = most.min(room.len().min(rest));
        room[..n].copy_from_slice(&self.bytes[self.at..self.at + n]);
        self.at += n;
        n
    }
}
