//! The headers that stand at the spans of a head.
ghost use Rattle.std.specs.Prelude.{◌≡◌, ◌≤◌, All, length, map, option_map};
ghost use Rattle.std.specs.Str.{str_eq_ignore_ascii_case};
ghost use Rattle.httparse.specs.Spans.{IsHeaderWithin, header_bytes};
ghost use Rattle.ph_http.specs.Digits.{is_same_number};
ghost use Rattle.ph_http.specs.Headers.{all_values, any_value, has_name, value_of};
ghost use Rattle.ph_http.specs.ValueTests.{passes};

use crate::length::is_same;
use crate::tokens::has_close;
use httparse::spans::HeaderSpan;

/// What is asked of a header's value.
#[derive(Clone, Copy, Debug)]
pub enum ValueTest {
    /// Any value will do.
    Any,
    /// A coding other than `identity`.
    Coded,
    /// `100-continue`.
    Expectation,
    /// A list of tokens of which one is `close`.
    ListsClose,
}

// The value passes the test.
fn does_pass(test: ValueTest, value: &[u8]) -> bool
    ensures { result ≡ passes test value.now }
{
    match test {
        ValueTest::Any => true,
        ValueTest::Coded => !value.eq_ignore_ascii_case(b"identity"),
        ValueTest::Expectation => value.eq_ignore_ascii_case(b"100-continue"),
        ValueTest::ListsClose => has_close(value),
    }
}

// The name is this one, whatever its case.
fn is_named(name: &[u8], wanted: &[u8]) -> bool
    ensures { result ≡ str_eq_ignore_ascii_case name.now wanted.now }
{
    name.eq_ignore_ascii_case(wanted)
}

/// The value of the first header of the name.
#[tactic(auto, unfolding(crate::specs::Headers::value_of))]
pub fn value_named<'b>(head: &'b [u8], headers: &[HeaderSpan], name: &[u8]) -> Option<&'b [u8]>
    requires { All (IsHeaderWithin (length head.now)) headers.now }
    ensures { option_map (λ value. value.now) result ≡ value_of name.now (map (header_bytes head.now) headers.now) }
{
    for header in headers {
        if is_named(header.name.of(head), name) {
            return Some(header.value.of(head));
        }
    }
    None
}

/// Some header of the name has a value that passes the test.
#[tactic(auto, unfolding(crate::specs::Headers::any_value))]
pub fn any_passes(head: &[u8], headers: &[HeaderSpan], name: &[u8], test: ValueTest) -> bool
    requires { All (IsHeaderWithin (length head.now)) headers.now }
    ensures { result ≡ any_value (passes test) name.now (map (header_bytes head.now) headers.now) }
{
    for header in headers {
        if is_named(header.name.of(head), name) && does_pass(test, header.value.of(head)) {
            return true;
        }
    }
    false
}

/// Each header of the name gives the same number as this text, which is one.
#[tactic(auto, unfolding(crate::specs::Headers::all_values))]
pub fn all_same(head: &[u8], headers: &[HeaderSpan], name: &[u8], number: &[u8]) -> bool
    requires { All (IsHeaderWithin (length head.now)) headers.now }
    ensures { result ≡ all_values (is_same_number number.now) name.now (map (header_bytes head.now) headers.now) }
{
    for header in headers {
        if is_named(header.name.of(head), name) && !is_same(number, header.value.of(head)) {
            return false;
        }
    }
    true
}
