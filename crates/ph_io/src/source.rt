//! What bytes are read from.
ghost use Rattle.std.specs.Prelude.{◌≡◌, ◌<◌, ◌≤◌, length, take, IfOk, OnErr};
ghost use Rattle.ph_io.specs.Told.{SourceState, BesideSource, lone_source};
ghost use Rattle.ph_io.specs.Reads.{Moves, Ends, ReadFails};

/// A read that failed. It moved no bytes, and its source counted it.
#[derive(Clone, Copy, Debug, PartialEq, Eq)]
pub struct ReadFailed;

/// A source of bytes, which counts its ends and its faults in counts that never fall.
pub trait Source {
    /// What it tells of itself.
    ghost source: { Self → SourceState };

    /// What it tells beside its source, where it is more than one: its sink and its address.
    ghost beside_source: { Self → BesideSource } = { λ _. lone_source };

    /// Moves bytes from the front of what is left into the front of `room`, at least one and at
    /// most as many as it holds, and answers how many. 0 is the end: where the source tells what
    /// is left, it comes exactly where nothing is.
    fn read(&mut self, room: &mut [u8]) -> Result<usize, ReadFailed>
        requires { 0 < length room.old }

        ensures within { IfOk result (λ n. n ≤ length room.old) }
        ensures moves { IfOk result (λ n. 0 < n →
            Moves (source self.old) (source self.new) (take n room.new)) }
        ensures ends { IfOk result (λ n. n ≡ 0 → Ends (source self.old) (source self.new)) }

        ensures fails { OnErr result (ReadFails (source self.old) (source self.new)) }

        ensures beside { beside_source self.new ≡ beside_source self.old };
}
