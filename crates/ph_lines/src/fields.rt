//! What a field of a line may be.
use ph_base::Bytes;

/// A field of a line.
#[derive(Clone, Copy)]
pub enum Field<'a> {
    /// A word as it stands.
    Word(&'a [u8]),
    /// A number in decimal.
    Number(u64),
    /// Bytes: `=` and two digits of lower-case hexadecimal for each; where they are absent, `-`.
    Octets(Option<&'a [u8]>),
    /// Whether something is so: `1` or `0`.
    Flag(bool),
}

impl<'a> Field<'a> {
    ghost use Rattle.std.specs.Prelude.{◌≡◌, Some};
    ghost use Rattle.ph_lines.specs.Fields.{field_text, octets};

    /// The field of bytes that are there.
    pub fn present(bytes: &'a Bytes) -> Self
        ensures { field_text result ≡ octets (Some bytes.now) }
    {
        Field::Octets(Some(bytes.as_slice()))
    }

    /// The field of bytes that may be absent.
    pub fn optional(bytes: &'a Option<Bytes>) -> Self
        ensures { field_text result ≡ octets bytes.now }
    {
        match bytes {
            Some(bytes) => Field::Octets(Some(bytes.as_slice())),
            None => Field::Octets(None),
        }
    }
}
