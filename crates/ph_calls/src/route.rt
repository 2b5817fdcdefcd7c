//! The row of the table that a request is of.
ghost use Rattle.std.specs.Prelude.{◌≡◌, ◌==◌, option_copied};
ghost use Rattle.std.specs.List.{list_any};
ghost use Rattle.ph_calls.specs.Routes.{between, id_at, id_by, route_in, route_of};
ghost use Rattle.ph_calls.specs.Table.{line_of, place, table};

use crate::row::{Path, TableRow};
use crate::table::rows;

fn has_slash(text: &[u8]) -> bool
    ensures { result ≡ list_any (λ b. b == 47) text.now }
{
    for b in text {
        if *b == b'/' {
            return true;
        }
    }
    false
}

/// What stands between a front and a back of a text.
#[tactic(auto, unfolding(crate::specs::Routes::between))]
fn between<'a>(front: &[u8], back: &[u8], text: &'a [u8]) -> Option<&'a [u8]>
    ensures { option_copied result ≡ between front.now back.now text.now }
{
    let begin = front.len();
    if text.len() < begin || text.len() - begin < back.len() {
        return None;
    }
    let end = text.len() - back.len();
    if &text[..begin] == front && &text[end..] == back {
        Some(&text[begin..end])
    } else {
        None
    }
}

/// The id in a path of a form, empty for a form without one.
fn id_at<'a>(form: &Path, path: &'a [u8]) -> Option<&'a [u8]>
    ensures { option_copied result ≡ id_at (place form.now) path.now }
{
    match form {
        Path::Plain(text) => { if path == *text { Some(b"") } else { None } }
        Path::WithId(front, back) => match between(front, back, path) {
            Some(id) => {
                if !id.is_empty() && !has_slash(id) {
                    Some(id)
                } else {
                    None
                }
            }
            None => None,
        },
    }
}

/// The id in the path of a request with a row's method.
fn id_by<'a>(row: &TableRow, method: &[u8], path: &'a [u8]) -> Option<&'a [u8]>
    ensures { option_copied result ≡ id_by (line_of row.now) method.now path.now }
{
    if method == row.method {
        id_at(&row.path, path)
    } else {
        None
    }
}

/// The row of the table whose method and path a request has, and the id in the path.
pub fn find_route<'a>(method: &[u8], path: &'a [u8]) -> Option<(&'static TableRow, &'a [u8])>
    ensures { route_of result ≡ route_in table method.now path.now }
{
    let rows = rows();
    for row in rows {
        match id_by(row, method, path) {
            Some(id) => return Some((row, id)),
            None => {}
        }
    }
    None
}
