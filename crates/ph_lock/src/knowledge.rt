//! What a seat at the lock's table knows between two steps.
use crate::Object;
use atomic_table::{Seat, Shared, Table, TableRule};
use std::alloc::Global;
use std::collections::LinkedList;
use std::marker::PhantomData;
use std::snapshot::Snapshot;

/// Where a seat stands in the line of tickets. No value of it is made.
pub enum Stage<E> {
    /// It has no ticket.
    Idle,
    /// It has this ticket.
    Waits(u64),
    /// It has the turn under this ticket, and this was the object's history as the turn began.
    Holds(u64, LinkedList<E>),
    /// It gave the object back and keeps the turn, so that nobody acts any more.
    Closes(u64, LinkedList<E>),
    /// It was taken in by another seat.
    Spent,
}

/// What a seat knows. No value of it is made.
pub struct Knowledge<E, B> {
    /// The base of the lock's object.
    pub base: B,
    /// Its name, which no other seat has. A note has none.
    pub caller: Option<u64>,
    /// A beginning of the object's history.
    pub front: LinkedList<E>,
    /// The caller's entries, with their places from 1 on.
    pub mine: LinkedList<(u64, E)>,
    /// Fronts of seats that were taken in.
    pub remembered: LinkedList<LinkedList<E>>,
    pub stage: Stage<E>,
}

/// What a lock was begun with: its object, and its first caller.
#[derive(Drop)]
pub struct Begin<O> {
    pub object: Snapshot<O>,
    pub caller: u64,
}

/// The rule of a lock, as a type.
pub struct LockRule<O> {
    marker: PhantomData<O>,
}

/// A seat at the table of a lock.
pub type LockSeat<O> = Seat<Option<O>, Knowledge<<O as Object>::Entry, <O as Object>::Base>>;

/// The table of a lock, as its seats share it: three words and one slot.
pub type LockTable<O> = Shared<
    Option<O>,
    Knowledge<<O as Object>::Entry, <O as Object>::Base>,
    Begin<O>,
    LockRule<O>,
>;

/// The table of a lock, with its memory.
pub type OwnTable<O> = Table<
    Option<O>,
    Knowledge<<O as Object>::Entry, <O as Object>::Base>,
    Begin<O>,
    LockRule<O>,
    Global,
>;

impl<O: Object> TableRule<Option<O>, Knowledge<O::Entry, O::Base>, Begin<O>> for LockRule<O> {
    ghost use Rattle.std.specs.Prelude.{[], Some};
    ghost use Rattle.ph_lock.specs.Rule.{Rule};
    ghost use Rattle.ph_lock.specs.declared.knowledge.Stage.TheVariants.{Idle};

    ghost holds = { λ key. Rule O.base O.history O.by O.lawful (O.base key.object.value) };

    ghost first = { λ key. record { base = O.base key.object.value; caller = Some key.caller; front = O.history key.object.value; mine = []; remembered = []; stage = Idle } };
}
