//! The destination of a payment intent.
ghost use Rattle.std.specs.Prelude.{◌≡◌, IfErr, IfOk, Ok};
ghost use Rattle.std.specs.Option.{option_copied};
ghost use Rattle.ph_calls.specs.Check.{Refuses};
ghost use Rattle.ph_accounts.specs.Naming.{connected_named};
ghost use Rattle.ph_intents.specs.Destinations.{destination_of, to_found};

use ph_accounts::connected_named;
use ph_base::Bytes;
use ph_errors::{ApiError, Refusal};
use ph_rows::View;
use std::alloc::Global;

// The destination that was found, or the refusal of one that isn't there.
fn to_found(alloc: Global, found: Option<u64>) -> Result<Option<u64>, Refusal>
    ensures account { IfOk result (λ account. to_found found ≡ Ok account) }
    ensures refusal { IfErr result (Refuses (to_found found)) }
{
    match found {
        Some(account) => Ok(Some(account)),
        None => {
            let name = b"transfer_data[destination]";
            Err(Refusal::of(ApiError::no_such_object(alloc, name)))
        }
    }
}

/// The number of the connected account that a create names as its destination, or none where it names none. It is
/// refused where there is no such account.
pub fn destination_of<V: View>(
    alloc: Global,
    view: &V,
    named: Option<&Bytes>,
) -> Result<Option<u64>, Refusal>
    ensures account { IfOk result (λ account. destination_of (V.state view.now).rows (option_copied named.entry) ≡ Ok account) }
    ensures refusal { IfErr result (Refuses (destination_of (V.state view.now).rows (option_copied named.entry))) }
{
    let Some(text) = named else {
        return Ok(None);
    };
    to_found(alloc, connected_named(view, text.as_slice()))
}
