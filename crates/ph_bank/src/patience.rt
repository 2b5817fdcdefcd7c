//! How often a pending poll is followed by another.

use std::marker::Model;
use std::thread;

/// Decides after each pending poll whether there is another.
pub trait Patience {
    ghost use Rattle.std.specs.Prelude.{◌≡◌, ℕ};
    ghost use Rattle.ph_bank.specs.Patiences.{Decides, Granted, started};

    ghost left: { Self → ℕ };

    ghost counts: { Self → Granted };

    /// Begins anew. It is called once for each drive, before its first poll.
    fn start(&mut self)
        ensures starts { counts self.new ≡ started (counts self.old) };

    /// Whether to poll once more.
    fn more(&mut self) -> bool
        ensures decides { Decides (counts self.old) (counts self.new) (left self.old) (left self.new) result };
}

/// Grants so many polls after each start. Before each answer it yields the thread, so that what the poll waits for may
/// run.
#[derive(Drop, Debug)]
pub struct Turns {
    turns: u64,
    left: u64,
    starts: u64,
    grants: u64,
    refusals: u64,
}

impl Model for Turns {
    ghost use Rattle.ph_bank.specs.Patiences.{TurnsState};

    ghost Value = { TurnsState };

    ghost view = { λ t. record { turns = t.turns; left = t.left; counts = record { starts = t.starts; grants = t.grants; refusals = t.refusals } } };
}

ghost use Rattle.std.specs.Prelude.{◌≡◌, ◌-◌, nat_lt};
ghost use Rattle.ph_bank.specs.Patiences.{Decides, Granted, counted, started};

impl Turns {
    /// A patience of so many further polls for each drive. Before its first start it grants none.
    pub fn new(turns: u64) -> Self
        ensures turns { result.turns ≡ turns }
        ensures left { result.left ≡ 0 }
        ensures counts { result.counts ≡ record { starts = 0; grants = 0; refusals = 0 } }
    {
        Turns {
            turns,
            left: 0,
            starts: 0,
            grants: 0,
            refusals: 0,
        }
    }
}

impl Patience for Turns {
    ghost left = { λ turns. turns.left };

    ghost counts = { λ turns. turns.counts };

    fn start(&mut self)
        ensures starts { self.new.counts ≡ started self.old.counts }
        ensures turns { self.new.turns ≡ self.old.turns }
        ensures left { self.new.left ≡ self.old.turns }
    {
        self.starts = self.starts.saturating_add(1);
        self.left = self.turns;
    }

    fn more(&mut self) -> bool
        ensures decides { Decides self.old.counts self.new.counts self.old.left self.new.left result }
        ensures turns { self.new.turns ≡ self.old.turns }
        ensures counts { self.new.counts ≡ counted self.old.counts result }
        ensures answer { result ≡ nat_lt 0 self.old.left }
        ensures left { self.new.left ≡ self.old.left - 1 }
    {
        thread::yield_now();
        if self.left > 0 {
            self.left -= 1;
            self.grants = self.grants.saturating_add(1);
            true
        } else {
            self.refusals = self.refusals.saturating_add(1);
            false
        }
    }
}
