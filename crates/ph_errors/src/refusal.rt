//! How a call is refused.
ghost use Rattle.std.specs.Prelude.{◌≡◌};
ghost use Rattle.ph_errors.specs.Refusal.{refusal_of};

use crate::api_error::ApiError;
use ph_base::NoMemory;

/// A call's refusal: an error that the API answers, or want of memory.
#[derive(Debug, Drop)]
pub enum Refusal {
    Api(ApiError),
    NoMemory,
}

impl Refusal {
    /// The refusal with an error that was to be made.
    pub fn of(made: Result<ApiError, NoMemory>) -> Refusal
        ensures { result ≡ refusal_of made }
    {
        match made {
            Ok(error) => Refusal::Api(error),
            Err(NoMemory) => Refusal::NoMemory,
        }
    }
}

impl From<NoMemory> for Refusal {
    ghost use Rattle.ph_errors.specs.declared.refusal.Refusal.TheVariants as refusal;

    ghost from_gives = { λ _ made. made ≡ refusal.NoMemory };

    fn from(_: NoMemory) -> Self {
        Refusal::NoMemory
    }
}
