//! How far a delivery is, and when it is sent again.
ghost use Rattle.std.specs.Prelude.{◌≡◌, ◌<◌, ◌^◌};
ghost use Rattle.ph_delivery.specs.Schedule.{begun_at, due_after, moment_of, taken_of, told_of, wait_after};

use crate::outcome::Outcome;

/// How far a delivery is.
#[derive(Clone, Copy, Debug, PartialEq, Eq)]
pub enum DeliveryState {
    /// It is to be sent from this moment on (seconds since 1970).
    Due(u64),
    /// It was due from this moment on, and was taken to be sent.
    Out(u64),
    /// The endpoint accepted it.
    Accepted,
    /// It was sent four times, and the endpoint never accepted it.
    GivenUp,
}

/// A delivery: how often it was sent, and how far it is.
#[derive(Clone, Copy, Debug, PartialEq, Eq)]
pub struct Delivery {
    /// Of how many attempts the outcome was told, 0 to 4. Those that were dropped don't count.
    pub tries: u8,
    /// How far it is.
    pub state: DeliveryState,
}

/// How long after an attempt that failed the next one is due, in seconds, where there is one: 60
/// after the first, 3,600 after the second and 10,800 after the third. The fourth is the last. The
/// schedule is payhost's own.
fn wait(tries: u8) -> Option<u64>
    ensures { result ≡ wait_after tries }
{
    match tries {
        1 => Some(60),
        2 => Some(3_600),
        3 => Some(10_800),
        _ => None,
    }
}

/// How far a delivery is once so many attempts of it failed, the last of them at this moment.
fn after(tries: u8, now: u64) -> DeliveryState
    requires { now < 2 ^ 63 }
    ensures { result ≡ due_after (wait_after tries) now }
{
    match wait(tries) {
        Some(seconds) => DeliveryState::Due(now + seconds),
        None => DeliveryState::GivenUp,
    }
}

impl Delivery {
    /// A delivery that is due from this moment on, the one of its event.
    pub fn begun(at: u64) -> Delivery
        ensures { result ≡ begun_at at }
    {
        Delivery {
            tries: 0,
            state: DeliveryState::Due(at),
        }
    }

    /// From when on it is to be sent, where it is.
    pub fn due(&self) -> Option<u64>
        ensures { result ≡ moment_of self.now }
    {
        match self.state {
            DeliveryState::Due(moment) => Some(moment),
            DeliveryState::Out(_) | DeliveryState::Accepted | DeliveryState::GivenUp => None,
        }
    }

    /// The delivery once it was taken to be sent. One that isn't due stays as it is.
    pub fn taken(self) -> Delivery
        ensures { result ≡ taken_of self }
    {
        match self.state {
            DeliveryState::Due(moment) => Delivery {
                tries: self.tries,
                state: DeliveryState::Out(moment),
            },
            DeliveryState::Out(_) | DeliveryState::Accepted | DeliveryState::GivenUp => self,
        }
    }

    /// The delivery once the outcome of an attempt was told at this moment. One that was dropped is
    /// as before it was taken. One that isn't out stays as it is.
    pub fn told(self, outcome: Outcome, now: u64) -> Delivery
        requires tries { self.tries < 4 }
        requires now { now < 2 ^ 63 }
        ensures { result ≡ told_of outcome now self }
    {
        let DeliveryState::Out(moment) = self.state else {
            return self;
        };
        match outcome {
            Outcome::Accepted => Delivery {
                tries: self.tries + 1,
                state: DeliveryState::Accepted,
            },
            Outcome::Refused(_) | Outcome::Unreached => Delivery {
                tries: self.tries + 1,
                state: after(self.tries + 1, now),
            },
            Outcome::Dropped => Delivery {
                tries: self.tries,
                state: DeliveryState::Due(moment),
            },
        }
    }
}
