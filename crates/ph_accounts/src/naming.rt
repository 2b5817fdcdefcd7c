//! The accounts that texts name: the one that a request is of, and connected ones.
ghost use Rattle.std.specs.Prelude.{◌≡◌};
ghost use Rattle.std.specs.Option.{option_copied};
ghost use Rattle.ph_accounts.specs.Naming.{account_of, connected_named};

use ph_base::{Bytes, Kind};
use ph_items::PLATFORM;
use ph_rows::{View, object_named};

/// The number of the account that a request names by its printed id; the platform's own where it names none. None exactly
/// where there is no such account.
pub fn account_of<V: View>(view: &V, named: Option<&Bytes>) -> Option<u64>
    ensures { result ≡ account_of (V.state view.now).rows (option_copied named.entry) }
{
    match named {
        None => Some(PLATFORM),
        Some(text) => {
            let row = object_named(view, Kind::Account, text.as_slice())?;
            Some(row.object)
        }
    }
}

/// The number of the connected account whose printed id a text is. None exactly where there is no such account, or it is
/// the platform's own.
pub fn connected_named<V: View>(view: &V, text: &[u8]) -> Option<u64>
    ensures { result ≡ connected_named (V.state view.now).rows text.now }
{
    let row = object_named(view, Kind::Account, text)?;
    if row.object == PLATFORM {
        None
    } else {
        Some(row.object)
    }
}
