//! The object that an event tells of.
ghost use Rattle.std.specs.Prelude.{◌≡◌};
ghost use Rattle.std.specs.Option.{option_copied};
ghost use Rattle.ph_views.specs.Objects.{created_of, version_before};

use ph_rows::{Row, View};

/// When the object of a version was created: the time of its first version, which is this one where the view has
/// no row of the object.
pub fn created<V: View>(view: &V, row: &Row) -> u64
    ensures { result ≡ created_of (V.state view.now).rows row.now }
{
    match view.row(row.object) {
        Some(first) => first.at,
        None => row.at,
    }
}

/// The last version of an object in front of a place. The rows are read backwards from there: the entry of an
/// event made a version of its object, so the search ends among that entry's rows.
pub fn version_before<V: View>(view: &V, place: u64, object: u64) -> Option<&Row>
    ensures { option_copied result ≡ version_before place object (V.state view.now).rows }
{
    let mut at = place.saturating_sub(1).min(view.count());
    while at > 0 {
        let row = match view.row(at) {
            Some(row) => row,
            None => return None,
        };
        if row.object == object {
            return Some(row);
        }
        at -= 1;
    }
    None
}
