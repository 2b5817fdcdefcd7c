//! The object that an id in a path or a parameter names.
ghost use Rattle.std.specs.Prelude.{◌≡◌};
ghost use Rattle.std.specs.Option.{option_copied};
ghost use Rattle.ph_items.specs.Kinds.{is_kind};
ghost use Rattle.ph_rows.specs.Names.{number_named, object_named, owned_named};

use crate::rows::Row;
use crate::views::View;
use ph_base::{Kind, read_id};
use ph_items::kind_number;

// The number whose printed id, as one of the kind, a text is.
fn number_named(kind: Kind, text: &[u8]) -> Option<u64>
    ensures { result ≡ number_named kind text.now }
{
    match read_id(text) {
        Some(id) => {
            if kind_number(id.kind) == kind_number(kind) {
                Some(id.number)
            } else {
                None
            }
        }
        None => None,
    }
}

// Whether a row is a version of an object of the kind.
fn is_of_kind(kind: Kind, row: &Row) -> bool
    ensures { result ≡ is_kind kind row.now.item }
{
    kind_number(row.item.kind()) == kind_number(kind)
}

/// The last version of the object of a kind whose printed id a text is, whatever its account. None exactly where there
/// is none: the text is no id of the kind, no object has that number, or the object is of another kind.
pub fn object_named<'a, V: View>(view: &'a V, kind: Kind, text: &[u8]) -> Option<&'a Row>
    ensures { option_copied result ≡ object_named (V.state view.now).rows kind text.now }
{
    let row = view.latest(number_named(kind, text)?)?;
    if is_of_kind(kind, row) {
        Some(row)
    } else {
        None
    }
}

/// The last version of the object of a kind and an account whose printed id a text is. None exactly where there is
/// none, or where it is another account's.
pub fn owned_named<'a, V: View>(
    view: &'a V,
    account: u64,
    kind: Kind,
    text: &[u8],
) -> Option<&'a Row>
    ensures { option_copied result ≡ owned_named (V.state view.now).rows account kind text.now }
{
    let row = object_named(view, kind, text)?;
    if row.account == account {
        Some(row)
    } else {
        None
    }
}
