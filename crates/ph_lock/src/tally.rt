//! A small object to try the lock with: a sum of amounts, each with its caller.
ghost use Rattle.std.specs.Prelude.{◌≡◌, ℕ, ◌+◌, ◌^◌, ◌<◌, ◌≤◌, [], ◌∷◌, ◌++◌, length, nat_lt, IfOk, IfErr, IsErr};
ghost use Rattle.ph_lock.specs.Tallies.{sum_of, top_of, amount_of, caller_of, IsTally};
ghost use Rattle.ph_lock.specs.declared.object.Refused.{Refused};

use crate::{Object, Refused};
use std::alloc::Global;
use std::marker::Model;

/// Entries of a caller and an amount, up to a limit, which is its base.
#[derive(Drop)]
pub struct Tally {
    limit: u64,
    entries: Vec<(u64, u64)>,
    sum: u64,
    top: u64,
}

impl Model for Tally {
    ghost use Rattle.ph_lock.specs.Tallies.{TallyState, IsKept};

    ghost Value = { TallyState };

    ghost view = { λ t. record { limit = t.limit; entries = t.entries.items } };

    ghost invariant = { λ t. IsKept t.limit t.entries.items t.sum t.top };
}

/// Adds an amount below 2^32 as an entry. The answer is the sum so far, with it.
#[derive(Clone, Copy, Debug, PartialEq, Eq)]
pub struct Add(pub u64);

/// Asks whether there are more entries than that.
#[derive(Clone, Copy, Debug, PartialEq, Eq)]
pub struct Over(pub u64);

impl Tally {
    /// A tally with no entry, which takes `limit` entries. The limit is below 2^31.
    pub fn new(alloc: Global, limit: u64) -> Tally
        requires { limit < 2147483648 }
        ensures { result ≡ record { limit = limit; entries = [] } }
    {
        Tally {
            limit,
            entries: Vec::new(alloc),
            sum: 0,
            top: 0,
        }
    }

    // Adds an entry where there are room and memory.
    fn add(&mut self, caller: u64, amount: u64) -> Result<u64, Refused>
        requires small { (amount < 4294967296) × (caller < 2 ^ 62) }
        requires lawful { IsTally self.old.limit self.old.entries }
        ensures limit { self.new.limit ≡ self.old.limit }
        ensures lawful { IsTally self.new.limit self.new.entries }
        ensures ok { IfOk result (λ sum. (self.new.entries ≡ self.old.entries ++ (caller, amount) ∷ []) × (sum ≡ sum_of self.new.entries)) }
        ensures err { IfErr result (λ _. self.new.entries ≡ self.old.entries) }
        ensures full { IfErr result (λ why. why ≡ Refused.Full → self.old.limit ≤ length self.old.entries) }
        ensures no_room { self.old.limit ≤ length self.old.entries → IsErr result }
    {
        if self.entries.len() as u64 >= self.limit {
            return Err(Refused::Full);
        }
        if self.entries.push((caller, amount)).is_err() {
            return Err(Refused::NoMemory);
        }
        self.sum += amount;
        self.top = self.top.max(caller + 1);
        Ok(self.sum)
    }
}

impl Object for Tally {
    type Act = Add;

    type Answer = u64;

    type Query = Over;

    type Seen = bool;

    type Entry = (u64, u64);

    type Deed = u64;

    type Base = u64;

    ghost base = { λ t. t.limit };

    ghost blank = { 0 };

    ghost history = { λ t. t.entries };

    ghost top = { λ t. top_of t.entries };

    ghost by = { caller_of };

    ghost deed = { amount_of };

    ghost deed_of = { λ act. act.0 };

    ghost answers = { λ _ before entry sum. sum ≡ sum_of (before ++ entry ∷ []) };

    ghost allows = { λ _ _ _ act. act.0 < 4294967296 };

    ghost lawful = { IsTally };

    ghost full = { λ limit entries _. limit ≤ length entries };

    ghost granted = { λ _. ⊥ };

    ghost sees = { λ _ entries query seen. seen ≡ nat_lt query.0 (length entries) };

    fn apply(&mut self, caller: u64, act: Add) -> Result<u64, (Add, Refused)> {
        match self.add(caller, act.0) {
            Ok(sum) => Ok(sum),
            Err(refused) => Err((act, refused)),
        }
    }

    fn look(&self, query: &Over) -> bool {
        self.entries.len() as u64 > query.0
    }

    fn callers(&self) -> u64 {
        self.top
    }

    ghost stays = { λ b h more c a _ small. small };
}
