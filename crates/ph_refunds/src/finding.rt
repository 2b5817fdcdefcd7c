//! The charge that a refund names.
ghost use Rattle.std.specs.Prelude.{◌≡◌};
ghost use Rattle.std.specs.Option.{option_copied};
ghost use Rattle.ph_refunds.specs.Finding.{latest_charge_named};

use ph_base::Kind;
use ph_rows::{Row, View, object_named};

/// The last version of the latest charge of the payment intent whose printed id a text is, whatever its account. None
/// exactly where there is no such payment intent, or it has no charge.
pub fn latest_charge_named<'a, V: View>(view: &'a V, text: &[u8]) -> Option<&'a Row>
    ensures { option_copied result ≡ latest_charge_named (V.state view.now).rows text.now }
{
    let intent = object_named(view, Kind::Intent, text)?.item.intent()?;
    view.latest(intent.latest_charge?)
}
