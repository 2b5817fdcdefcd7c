//! A delivery among others.
ghost use Rattle.std.specs.Prelude.{◌≡◌};
ghost use Rattle.ph_hooks.specs.Due as spec;

use ph_delivery::Delivery;

/// A delivery with the numbers of its object and of its endpoint's.
#[derive(Clone, Copy, Debug, PartialEq, Eq)]
pub struct Waiting {
    /// The number of the delivery's object.
    pub number: u64,
    /// The number of the endpoint that it goes to.
    pub endpoint: u64,
    /// How far it is.
    pub delivery: Delivery,
}

/// When a delivery is due: by its moment, and of one moment by its number.
#[derive(Clone, Copy, Debug, PartialEq, Eq)]
pub(crate) struct Turn {
    pub(crate) moment: u64,
    pub(crate) number: u64,
}

impl Turn {
    // Whether this turn comes before the other, or is the same.
    pub(crate) fn comes_first(&self, other: &Turn) -> bool
        ensures { result ≡ spec.comes_first self.now other.now }
    {
        self.moment < other.moment || self.moment == other.moment && self.number <= other.number
    }
}
