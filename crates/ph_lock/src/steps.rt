//! The steps of the lock, as types: what each tells the seat that makes it.
ghost use Rattle.ph_lock.specs.Steps.{Draws, Turns, Leaves, Takes, Tells, Shuts, fresh_of, both_of, spent_of};

use crate::Object;
use crate::knowledge::Knowledge;
use atomic_table::{Join, Play, Split};
use std::marker::PhantomData;

/// A ticket is drawn.
pub struct Draw<O> {
    marker: PhantomData<O>,
}

impl<O: Object> Play<Option<O>, Knowledge<O::Entry, O::Base>> for Draw<O> {
    ghost then = { Draws };
}

/// The turn is looked for.
pub struct Turn<O> {
    marker: PhantomData<O>,
}

impl<O: Object> Play<Option<O>, Knowledge<O::Entry, O::Base>> for Turn<O> {
    ghost then = { Turns O.base O.history O.by O.lawful };
}

/// The turn is given back.
pub struct Leave<O> {
    marker: PhantomData<O>,
}

impl<O: Object> Play<Option<O>, Knowledge<O::Entry, O::Base>> for Leave<O> {
    ghost then = { Leaves O.base O.history O.by O.lawful };
}

/// A seat is split from another.
pub struct Fresh<O> {
    marker: PhantomData<O>,
}

impl<O: Object> Split<Knowledge<O::Entry, O::Base>> for Fresh<O> {
    ghost left = { λ v. v };

    ghost right = { fresh_of };
}

/// A seat takes in another.
pub struct Merge<O> {
    marker: PhantomData<O>,
}

impl<O: Object> Join<Knowledge<O::Entry, O::Base>> for Merge<O> {
    ghost both = { both_of };

    ghost spent = { spent_of O.blank };
}

/// A seat learns of what it took in.
pub struct Tell<O> {
    marker: PhantomData<O>,
}

impl<O: Object> Play<Option<O>, Knowledge<O::Entry, O::Base>> for Tell<O> {
    ghost then = { Tells O.by O.lawful };
}

/// A seat takes a name.
pub struct Name<O> {
    marker: PhantomData<O>,
}

impl<O: Object> Play<Option<O>, Knowledge<O::Entry, O::Base>> for Name<O> {
    ghost then = { Takes O.by };
}

/// The turn is kept for good.
pub struct Shut<O> {
    marker: PhantomData<O>,
}

impl<O: Object> Play<Option<O>, Knowledge<O::Entry, O::Base>> for Shut<O> {
    ghost then = { Shuts };
}
