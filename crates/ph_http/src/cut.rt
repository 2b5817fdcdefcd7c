//! Where the head at the front of some bytes ends.
ghost use Rattle.std.specs.Prelude.{◌≡◌, ◌≤◌, length, option_map, Option, IfSome};
ghost use Rattle.ph_http.specs.Cut.{leading, empty_line, to_empty_line, head_len};

/// How many CR and LF bytes they begin with.
pub fn leading_len(bytes: &[u8]) -> usize
    ensures value { result ≡ leading bytes.now }
    ensures within { result ≤ length bytes.now }
{
    let mut i = 0;
    while i < bytes.len() && (bytes[i] == b'\r' || bytes[i] == b'\n') {
        i += 1;
    }
    i
}

// The length of the empty line that they begin with.
fn empty_line_len(bytes: &[u8]) -> usize
    ensures value { result ≡ empty_line bytes.now }
    ensures within { result ≤ length bytes.now }
{
    match bytes {
        [b'\n', ..] => 1,
        [b'\r', b'\n', ..] => 2,
        _ => 0,
    }
}

// Up to the first LF that an empty line follows, and that line with it.
fn empty_line_end(bytes: &[u8]) -> Option<usize>
    ensures value { result ≡ to_empty_line bytes.now }
    ensures within { IfSome result (λ n. n ≤ length bytes.now) }
{
    for i in 0..bytes.len() {
        if bytes[i] == b'\n' {
            let n = empty_line_len(&bytes[i + 1..]);
            if n > 0 {
                return Some(i + 1 + n);
            }
        }
    }
    None
}

/// The length of the head at the front.
#[tactic(auto, unfolding(crate::specs::Cut::head_len))]
pub fn head_end(bytes: &[u8]) -> Option<usize>
    ensures value { result ≡ head_len bytes.now }
    ensures within { IfSome result (λ n. n ≤ length bytes.now) }
{
    let n = leading_len(bytes);
    let end = empty_line_end(&bytes[n..])?;
    Some(end + n)
}
