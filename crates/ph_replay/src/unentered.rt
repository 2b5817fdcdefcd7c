//! Why an entry wasn't entered anew.
ghost use Rattle.std.specs.Prelude.{◌≡◌};
ghost use Rattle.ph_replay.specs.Unentered.{reason};

use ph_base::NoMemory;
use ph_book::Refused;
use std::alloc::AllocError;

/// Why an entry wasn't entered.
#[derive(Clone, Copy, Debug, PartialEq, Eq)]
pub(crate) enum Unentered {
    /// It may not come after the entries before it.
    Illegal,
    /// There was no memory.
    NoMemory,
}

impl From<NoMemory> for Unentered {
    ghost use Rattle.std.specs.Prelude.{◌≡◌};
    ghost use Rattle.ph_replay.specs.declared.unentered.Unentered.TheVariants as unentered;

    ghost from_gives = { λ _ e. e ≡ unentered.NoMemory };

    fn from(_: NoMemory) -> Self {
        Unentered::NoMemory
    }
}

impl From<AllocError> for Unentered {
    ghost use Rattle.std.specs.Prelude.{◌≡◌};
    ghost use Rattle.ph_replay.specs.declared.unentered.Unentered.TheVariants as unentered;

    ghost from_gives = { λ _ e. e ≡ unentered.NoMemory };

    fn from(_: AllocError) -> Self {
        Unentered::NoMemory
    }
}

/// Why an act that was refused isn't entered.
pub(crate) fn reason_of(refused: Refused) -> Unentered
    ensures { result ≡ reason refused }
{
    match refused {
        Refused::Full => Unentered::Illegal,
        Refused::NoMemory => Unentered::NoMemory,
    }
}
