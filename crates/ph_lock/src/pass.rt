//! Passes, notes, and what a pass showed last.
ghost use Rattle.std.specs.Prelude.{◌≡◌, ◌<◌, ◌^◌};
ghost use Rattle.ph_lock.specs.Passes.{IsPass};

use crate::Object;
use crate::knowledge::{Knowledge, LockSeat};
use std::marker::Model;
use std::snapshot::Snapshot;

/// One caller of a lock. Contracts see its lock, the base of the lock's object, its caller, its front, which is the
/// history as this caller knows it, and mine, all entries of this caller there, each with its place from 1 on.
#[derive(Drop)]
pub struct Pass<O: Object> {
    pub(crate) seat: LockSeat<O>,
    pub(crate) caller: u64,
}

impl<O: Object> Model for Pass<O> {
    ghost use Rattle.std.specs.Prelude.{◌≡◌, ◌<◌, Some, []};
    ghost use Rattle.ph_lock.specs.Passes.{Shown};
    ghost use Rattle.ph_lock.specs.Seats.{IsSeatOf};

    ghost Value = { Shown O.Entry O.Base };

    ghost view = { λ p. record { lock = p.seat.table_id; base = p.seat.me.0.base; caller = p.caller; front = p.seat.me.0.front; mine = p.seat.me.0.mine } };

    ghost invariant = { λ p. IsSeatOf O.by O.lawful p.caller p.seat.me };
}

impl<O: Object> Pass<O> {
    /// The caller, a number below 2^62 that no other pass of the lock has.
    pub fn caller(&self) -> u64
        ensures caller { result ≡ self.now.caller }
        ensures small { result < 2 ^ 62 }
        ensures pass { IsPass O.by O.lawful self.now }
    {
        self.caller
    }
}

/// What a pass knew, to be handed to another. Contracts see its lock, the base of the lock's object, and the front.
#[derive(Drop)]
pub struct Note<O: Object> {
    pub(crate) seat: LockSeat<O>,
}

impl<O: Object> Model for Note<O> {
    ghost use Rattle.ph_lock.specs.Passes.{Noted};
    ghost use Rattle.ph_lock.specs.Seats.{IsNameless};

    ghost Value = { Noted O.Entry O.Base };

    ghost view = { λ n. record { lock = n.seat.table_id; base = n.seat.me.0.base; front = n.seat.me.0.front } };

    ghost invariant = { λ n. IsNameless O.lawful n.seat.me };
}

/// What a pass showed last: contracts see it as they saw the pass. It has no bytes.
#[derive(Drop)]
pub struct PassView<O: Object> {
    pub(crate) pass: Snapshot<Pass<O>>,
}

impl<O: Object> Model for PassView<O> {
    ghost use Rattle.ph_lock.specs.Passes.{Shown};

    ghost Value = { Shown O.Entry O.Base };

    ghost view = { λ v. v.pass.value };
}
