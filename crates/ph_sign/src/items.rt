//! The items of a signature header.
ghost use Rattle.std.specs.Prelude.{◌≡◌, false, option_copied, is_some, position};
ghost use Rattle.std.specs.List.{find, list_any, slice_split};
ghost use Rattle.std.specs.Option.{option_map_or};
ghost use Rattle.std.specs.Str.{bytes_eq};
ghost use Rattle.ph_sign.specs.Verdicts.{first_of, is_comma, is_equals, value_in, values_of};

// Where the first `=` stands.
fn place(item: &[u8]) -> Option<usize>
    ensures { result ≡ position is_equals item.now }
{
    item.iter().position(|b| *b == b'=')
}

// The value of an item, where it has this name.
fn value<'a>(name: &[u8], item: &'a [u8]) -> Option<&'a [u8]>
    ensures { option_copied result ≡ value_in name.now item.entry.now }
{
    let Some(at) = place(item) else {
        return None;
    };
    if &item[..at] == name {
        Some(&item[at + 1..])
    } else {
        None
    }
}

// Whether an item has this name, and a value.
fn is_named(name: &[u8], item: &[u8]) -> bool
    ensures { result ≡ is_some (value_in name.now item.now) }
{
    value(name, item).is_some()
}

// Whether an item has this name and this value.
fn is_item(name: &[u8], sought: &[u8], item: &[u8]) -> bool
    ensures { result ≡ option_map_or (λ text. bytes_eq text sought.now) (value_in name.now item.now) false }
{
    match value(name, item) {
        Some(text) => text == sought,
        None => false,
    }
}

// The first item of this name.
fn first_item<'a>(name: &[u8], header: &'a [u8]) -> Option<&'a [u8]>
    ensures { option_copied result ≡ find (λ item. is_some (value_in name.now item)) (slice_split is_comma header.entry.now) }
{
    header
        .split(|b| *b == b',')
        .find(|item| is_named(name, item))
}

/// The value of the first item of this name.
pub fn first_value<'a>(name: &[u8], header: &'a [u8]) -> Option<&'a [u8]>
    ensures { option_copied result ≡ first_of (values_of name.now header.entry.now) }
{
    match first_item(name, header) {
        Some(item) => value(name, item),
        None => None,
    }
}

/// Whether an item of this name has this value.
pub fn has_value(name: &[u8], sought: &[u8], header: &[u8]) -> bool
    ensures { result ≡ list_any (λ text. bytes_eq text sought.now) (values_of name.now header.now) }
{
    header
        .split(|b| *b == b',')
        .any(|item| is_item(name, sought, item))
}
