//! Accounts: the platform's own, and the connected ones.
ghost use Rattle.std.specs.Prelude.{◌≡◌};

use crate::metadata_pairs::Metadata;
use ph_base::Bytes;

/// The number of the platform's own account: it is the first object of every history.
pub const PLATFORM: u64 = 1;

/// The type of a connected account, as Stripe names it. It decides nothing here.
#[derive(Clone, Copy, Debug, PartialEq, Eq)]
pub enum AccountType {
    Standard,
    Express,
    Custom,
}

impl AccountType {
    ghost use Rattle.std.specs.Prelude.{◌≡◌};
    ghost use Rattle.ph_items.specs.Words.{account_type_text};

    /// The word of Stripe's `type`.
    pub fn text(self) -> &'static [u8]
        ensures { result.now ≡ account_type_text self }
    {
        match self {
            AccountType::Standard => b"standard",
            AccountType::Express => b"express",
            AccountType::Custom => b"custom",
        }
    }
}

/// A version of an account. The platform's own account is of the type `standard`, without email and metadata.
#[derive(Drop, Debug)]
pub struct Account {
    /// The `type` of the account.
    pub sort: AccountType,
    pub email: Option<Bytes>,
    pub metadata: Metadata,
}
