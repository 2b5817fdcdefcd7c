//! Decimal text.
ghost use Rattle.std.specs.Prelude.{◌≡◌};
ghost use Rattle.ph_base.specs.Numbers.{number_in, padded};

/// The number that a text of decimal digits gives. None exactly where the text is empty, has a byte that
/// isn't a digit, or gives 2^64 or more. Leading zeros are read.
pub fn read_number(text: &[u8]) -> Option<u64>
    ensures { result ≡ number_in text.now }
{
    if text.is_empty() {
        return None;
    }
    let mut number: u64 = 0;
    for b in text {
        if !b.is_ascii_digit() {
            return None;
        }
        let digit = u64::from(*b - b'0');
        if number > (u64::MAX - digit) / 10 {
            return None;
        }
        number = 10 * number + digit;
    }
    Some(number)
}

/// The last sixteen decimal digits, with zeros in front.
pub fn sixteen_digits(number: u64) -> [u8; 16]
    ensures { result ≡ padded 16 number }
{
    let mut bytes = [0; 16];
    let mut rest = number;
    let mut i = 16;
    while i > 0 {
        i -= 1;
        bytes[i] = (rest % 10) as u8 + b'0';
        rest /= 10;
    }
    bytes
}
