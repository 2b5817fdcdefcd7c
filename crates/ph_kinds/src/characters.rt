//! Characters of a text.
ghost use Rattle.std.specs.Prelude.{◌≡◌, length, IsUtf8};
ghost use Rattle.std.specs.Str.{chars};

/// The number of characters (Unicode scalar values) of a text.
pub fn character_count(text: &[u8]) -> usize
    requires { IsUtf8 text.now }
    ensures { result ≡ length (chars text.now) }
{
    match str::from_utf8(text) {
        Ok(text) => text.chars().count(),
        Err(_) => unreachable!(),
    }
}
