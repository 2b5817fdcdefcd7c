//! A tally whose acts take a while.
ghost use Rattle.std.specs.Prelude.{◌≡◌, ◌<◌, ◌≤◌, ◌++◌, ◌∷◌, [], length, nat_lt};
ghost use Rattle.ph_lock.specs.Tallies.{sum_of, top_of, amount_of, caller_of, IsTally};

use ph_lock::tally::{Add, Over, Tally};
use ph_lock::{Object, Refused};
use std::alloc::Global;
use std::marker::Model;

/// Work that takes no memory: so many steps of a pseudo-random sequence.
pub fn work(seed: u64, rounds: u32) -> u64 {
    let mut state = seed;
    for _ in 0..rounds {
        state ^= state << 13;
        state ^= state >> 7;
        state ^= state << 17;
    }
    state
}

/// A tally that works before each act. Contracts see the tally.
#[derive(Drop)]
pub struct Busy {
    tally: Tally,
    rounds: u32,
    mixed: u64,
}

impl Model for Busy {
    ghost use Rattle.ph_lock.specs.Tallies.{TallyState};

    ghost Value = { TallyState };

    ghost view = { λ b. b.tally };
}

impl Busy {
    /// An empty tally that takes `limit` entries, and works so many rounds for each.
    pub fn new(alloc: Global, limit: u64, rounds: u32) -> Busy
        requires { limit < 2147483648 }
        ensures { result ≡ record { limit = limit; entries = [] } }
    {
        Busy {
            tally: Tally::new(alloc, limit),
            rounds,
            mixed: 0,
        }
    }

    /// What the work for all acts came to, in whatever order they came.
    pub fn mixed(&self) -> u64 {
        self.mixed
    }
}

impl Object for Busy {
    type Act = Add;

    type Answer = u64;

    type Query = Over;

    type Seen = bool;

    type Entry = (u64, u64);

    type Deed = u64;

    type Base = u64;

    ghost base = { λ t. t.limit };

    ghost blank = { 0 };

    ghost history = { λ t. t.entries };

    ghost top = { λ t. top_of t.entries };

    ghost by = { caller_of };

    ghost deed = { amount_of };

    ghost deed_of = { λ act. act.0 };

    ghost answers = { λ _ before entry sum. sum ≡ sum_of (before ++ entry ∷ []) };

    ghost allows = { λ _ _ _ act. act.0 < 4294967296 };

    ghost lawful = { IsTally };

    ghost full = { λ limit entries _. limit ≤ length entries };

    ghost granted = { λ _. ⊥ };

    ghost sees = { λ _ entries query seen. seen ≡ nat_lt query.0 (length entries) };

    fn apply(&mut self, caller: u64, act: Add) -> Result<u64, (Add, Refused)> {
        self.mixed ^= work(act.0, self.rounds);
        self.tally.apply(caller, act)
    }

    fn look(&self, query: &Over) -> bool {
        self.tally.look(query)
    }

    fn callers(&self) -> u64 {
        self.tally.callers()
    }

    ghost stays = { λ b h more c a _ small. small };
}
