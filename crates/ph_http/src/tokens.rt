//! The tokens of a `Connection` header.
ghost use Rattle.std.specs.Prelude.{◌≡◌, ◌<◌, ◌==◌, IfSome, length, reverse};
ghost use Rattle.std.specs.List.{position};
ghost use Rattle.httparse.specs.Grammar.{is_ows, skip_ows, trim_ows};
ghost use Rattle.ph_http.specs.Requests.{lists_close};

// Space or tab.
fn is_blank(byte: u8) -> bool
    ensures { result ≡ is_ows byte }
{
    byte == b' ' || byte == b'\t'
}

// The text without the blanks in front.
fn without_front(text: &[u8]) -> &[u8]
    ensures { result.now ≡ skip_ows text.entry.now }
{
    for i in 0..text.len() {
        if !is_blank(text[i]) {
            return &text[i..];
        }
    }
    &text[text.len()..]
}

// The text without the blanks at the end.
fn without_end(text: &[u8]) -> &[u8]
    ensures { result.now ≡ reverse (skip_ows (reverse text.entry.now)) }
{
    let mut end = text.len();
    while end > 0 && is_blank(text[end - 1]) {
        end -= 1;
    }
    &text[..end]
}

// The text without blanks around it.
#[tactic(auto, unfolding(httparse::specs::Grammar::trim_ows))]
fn trimmed(text: &[u8]) -> &[u8]
    ensures { result.now ≡ trim_ows text.entry.now }
{
    without_end(without_front(text))
}

// The text is the token `close`, with blanks around it or none.
fn is_close(text: &[u8]) -> bool
    ensures { result ≡ Rattle.ph_http.specs.Requests.is_close text.now }
{
    trimmed(text).eq_ignore_ascii_case(b"close")
}

// Where the first comma stands.
fn comma_at(value: &[u8]) -> Option<usize>
    ensures value { result ≡ position (λ b. b == 44) value.now }
    ensures within { IfSome result (λ i. i < length value.now) }
{
    value.iter().position(|b| *b == b',')
}

/// One of the tokens between the commas of the value is `close`.
pub fn has_close(value: &[u8]) -> bool
    ensures { result ≡ lists_close value.now }
{
    let mut rest = value;
    while let Some(comma) = comma_at(rest) {
        if is_close(&rest[..comma]) {
            return true;
        }
        rest = &rest[comma + 1..];
    }
    is_close(rest)
}
