//! Moves of a world, and why one is refused.
ghost use Rattle.std.specs.Prelude.{◌≡◌};
ghost use Rattle.ph_world.specs.Moves.{is_caller, is_possible};

use ph_base::Ruling;
use ph_http::Raw;
use ph_items::CLOCK_LIMIT;

// The number of callers that a history may have.
const CALLERS: u64 = 1 << 62;

/// What may happen next. A move that names no run in flight, a decision on a reference that is decided, a caller from
/// 2^62 on and a moment after the year 9999 change nothing.
#[derive(Drop, Debug)]
pub enum Move {
    /// A request of a caller arrives.
    Arrive { caller: u64, raw: Raw },
    /// The future of a run is polled: the acquirer is asked once, and where it has decided, the ruling is entered.
    Poll { run: u64 },
    /// The future of a run is dropped, wherever it stands: its attempt waits to be taken up again.
    Drop { run: u64 },
    /// The link to the acquirer failed for a run: its attempt waits to be taken up again.
    Fail { run: u64 },
    /// The acquirer decides on the attempt of a reference.
    Decide { reference: u64, ruling: Ruling },
    /// The clock shows this moment, in seconds since 1970.
    Clock { now: u64 },
    /// A caller takes up the attempt that waits longest.
    Resume { caller: u64 },
}

/// Why a move was refused. It changed nothing, and the moves before it stand.
#[derive(Clone, Copy, Debug, PartialEq, Eq)]
pub enum WorldError {
    NoMemory,
    /// The history has no room for what the move enters.
    Full,
}

impl Move {
    // Whether it can be made: of a caller that a history may have, and at a moment that a clock shows.
    pub(crate) fn is_possible(&self) -> bool
        ensures { result ≡ is_possible self.now }
    {
        match self {
            Move::Arrive { caller, raw: _ } => *caller < CALLERS,
            Move::Poll { run: _ } => true,
            Move::Drop { run: _ } => true,
            Move::Fail { run: _ } => true,
            Move::Decide {
                reference: _,
                ruling: _,
            } => true,
            Move::Clock { now } => *now <= CLOCK_LIMIT,
            Move::Resume { caller } => *caller < CALLERS,
        }
    }
}
