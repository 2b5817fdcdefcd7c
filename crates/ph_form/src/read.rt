//! Reading a form.
ghost use Rattle.std.specs.Prelude.{◌≡◌, ◌≢◌, ℕ, List, false, true, IfOk, IfErr, Ok, Err};
ghost use Rattle.std.specs.List.{list_any};
ghost use Rattle.std.specs.List.Sorted.{IsPermutation};
ghost use Rattle.ph_form.specs.Leaves.{has_empty_key, is_tree, leaves_of};
ghost use Rattle.ph_form.specs.Pairs.{pairs_in};

use crate::fault::FormFault;
use crate::form::Form;
use crate::pairs::pairs;
use crate::reading::Reading;
use std::alloc::Global;

/// The pairs of a query and a body, added in turn.
fn read_pairs(alloc: Global, query: &[u8], body: &[u8]) -> Result<Form, FormFault>
    ensures form { IfOk result (λ form. leaves_of (pairs_in query.now body.now) ≡ Ok form) }
    ensures fault { IfErr result (λ fault. fault ≢ FormFault.NoMemory → leaves_of (pairs_in query.now body.now) ≡ Err fault) }
{
    let pairs = pairs(alloc, query, body)?;
    let mut reading = Reading::new(alloc);
    for i in 0..pairs.len() {
        let pair = &pairs[i];
        reading.add(alloc, i as u64, &pair.0, &pair.1)?;
    }
    Ok(reading.form(alloc)?)
}

/// The form of a query and a body: its leaves, or the fault of the first pair that has one. The pairs are those of the
/// WHATWG URL standard (section 5.1), the query's first; an empty piece between two `&` is none.
pub fn read_form(alloc: Global, query: &[u8], body: &[u8]) -> Result<Form, FormFault>
    ensures form { IfOk result (λ form. leaves_of (pairs_in query.now body.now) ≡ Ok form) }
    ensures fault { IfErr result (λ fault. fault ≢ FormFault.NoMemory → leaves_of (pairs_in query.now body.now) ≡ Err fault) }

    // What has a text has nothing below it.
    ensures tree { IfOk result (λ form. is_tree form ≡ true) }

    // The same pairs in another order give an equal form, where no key is empty.
    ensures any_order { IfOk result (λ form. (pairs : List (List ℕ × List ℕ)) → IsPermutation (pairs_in query.now body.now) pairs
        → list_any has_empty_key pairs ≡ false → leaves_of pairs ≡ Ok form) }
{
    read_pairs(alloc, query, body)
}
