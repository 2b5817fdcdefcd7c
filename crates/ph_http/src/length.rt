//! Lengths of bodies, as texts of digits.
ghost use Rattle.std.specs.Prelude.{◌≡◌, ◌==◌, min, true};
ghost use Rattle.ph_http.specs.Digits.{is_number, is_same_number, number_of, without_zeros};
ghost use Rattle.ph_http.specs.Verdict.{by_number};

use crate::verdict::Verdict;

/// The greatest length of a body.
pub const BODY_LIMIT: usize = 65_536;

// The text has digits alone, and at least one.
fn is_digits(text: &[u8]) -> bool
    ensures { result ≡ is_number text.now }
{
    if text.is_empty() {
        return false;
    }
    for digit in text {
        if !digit.is_ascii_digit() {
            return false;
        }
    }
    true
}

// The digits without the zeros in front.
fn significant(digits: &[u8]) -> &[u8]
    ensures { result.now ≡ without_zeros digits.entry.now }
{
    for i in 0..digits.len() {
        if digits[i] != b'0' {
            return &digits[i..];
        }
    }
    &digits[digits.len()..]
}

// The digits of both texts give the same number.
fn agree(a: &[u8], b: &[u8]) -> bool
    requires a { is_number a.now ≡ true }
    requires b { is_number b.now ≡ true }
    ensures { result ≡ (number_of a.now == number_of b.now) }
{
    significant(a) == significant(b)
}

/// Both texts are numbers, of any size, and the same one.
#[tactic(auto, unfolding(crate::specs::Digits::is_same_number))]
pub fn is_same(a: &[u8], b: &[u8]) -> bool
    ensures { result ≡ is_same_number a.now b.now }
{
    is_digits(a) && is_digits(b) && agree(a, b)
}

// The number that the digits give, or the least one above the limit where it is greater.
fn capped(digits: &[u8]) -> usize
    requires { is_number digits.now ≡ true }
    ensures { result ≡ min (number_of digits.now) 65537 }
{
    let mut number: usize = 0;
    for digit in digits {
        number = (10 * number + (*digit - b'0') as usize).min(BODY_LIMIT + 1);
    }
    number
}

/// What the digits of a length lead to.
pub fn by_digits(digits: &[u8]) -> Verdict
    requires { is_number digits.now ≡ true }
    ensures { result ≡ by_number (number_of digits.now) }
{
    let number = capped(digits);
    if number <= BODY_LIMIT {
        Verdict::Takes(number)
    } else {
        Verdict::Refuses(413)
    }
}
