//! The names that a call accepts.
ghost use Rattle.std.specs.Prelude.{◌≡◌, IfOk, map};
ghost use Rattle.std.specs.List.{list_any};
ghost use Rattle.ph_form.specs.Names.{is_within};
ghost use Rattle.ph_calls.specs.Parameters.{is_known, unknown_error};

use ph_base::NoMemory;
use ph_errors::ApiError;
use ph_form::{Form, is_within};
use std::alloc::Global;

/// Whether a name is one of these or lies below one.
fn is_among(names: &[&'static [u8]], name: &[u8]) -> bool
    ensures { result ≡ list_any (λ known. is_within known name.now) (map (λ n. n.now) names.now) }
{
    for known in names {
        if is_within(known, name) {
            return true;
        }
    }
    false
}

/// Whether a name is one of these or `expand`, or lies below one of them.
fn is_known(names: &[&'static [u8]], name: &[u8]) -> bool
    ensures { result ≡ is_known (map (λ n. n.now) names.now) name.now }
{
    is_among(names, name) || is_within(b"expand", name)
}

/// The error of the least unknown name. The leaves stand in byte order of their names.
pub fn unknown_error(
    alloc: Global,
    names: &[&'static [u8]],
    form: &Form,
) -> Result<Option<ApiError>, NoMemory>
    ensures { IfOk result (λ error. error ≡ unknown_error (map (λ n. n.now) names.now) form.now) }
{
    let leaves = form.leaves();
    for leaf in leaves {
        if !is_known(names, leaf.name.as_slice()) {
            return Ok(Some(ApiError::parameter_unknown(alloc, leaf.name.as_slice())?));
        }
    }
    Ok(None)
}
