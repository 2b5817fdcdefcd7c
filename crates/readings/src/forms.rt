//! Forms: the leaves of a query and a body, what stands at a name, or the first fault and its place.

ghost use Rattle.std.specs.Prelude.{◌<◌};

use crate::line::{Line, said, unknown};
use ph_base::NoMemory;
use ph_form::{Form, FormFault, Leaf, read_form};
use std::alloc::Global;

/// `NAME | WORD | QUERY | BODY | ..`. The words: `leaves`, each as `name=text;`; `count`, how many; `text | .. | AT`
/// and `node | .. | AT`, what stands there; `entries | .. | AT`, those of a map; `same | .. | QUERY | BODY`, whether
/// the other form is the same.
pub fn read(alloc: Global, line: Line) -> Result<Vec<u8>, NoMemory> {
    match form_at(alloc, line, 2) {
        Ok(form) => told(alloc, line, &form),
        Err(fault) => fault_text(alloc, fault),
    }
}

// The form whose query and body stand from this field on.
fn form_at(alloc: Global, line: Line, at: usize) -> Result<Form, FormFault>
    requires { at < 10 }
{
    let query = line.bytes(alloc, at)?;
    let body = line.bytes(alloc, at + 1)?;
    read_form(alloc, query.as_slice(), body.as_slice())
}

/// The fault and its place.
pub fn fault_text(alloc: Global, fault: FormFault) -> Result<Vec<u8>, NoMemory> {
    let text = match fault {
        FormFault::BadName { at } => format!(in alloc; "bad name at {at}")?,
        FormFault::Clash { at } => format!(in alloc; "clash at {at}")?,
        FormFault::TooDeep { at } => format!(in alloc; "too deep at {at}")?,
        FormFault::NoMemory => return Err(NoMemory),
    };
    Ok(text.into_bytes())
}

// What the line asks of a form.
fn told(alloc: Global, line: Line, form: &Form) -> Result<Vec<u8>, NoMemory> {
    match line.field(1) {
        "leaves" => leaves(alloc, form.leaves()),
        "count" => Ok(form.leaves().len().to_string(alloc)?.into_bytes()),
        "text" => text(alloc, line, form),
        "node" => node(alloc, line, form),
        "entries" => entries(alloc, line, form),
        "same" => same(alloc, line, form),
        _ => unknown(alloc),
    }
}

/// Leaves, each as `name=text;`.
pub fn leaves(alloc: Global, leaves: &[Leaf]) -> Result<Vec<u8>, NoMemory> {
    let mut out = Vec::new(alloc);
    for leaf in leaves {
        out.extend_from_slice(leaf.name.as_slice())?;
        out.push(b'=')?;
        out.extend_from_slice(leaf.text.as_slice())?;
        out.push(b';')?;
    }
    Ok(out)
}

fn text(alloc: Global, line: Line, form: &Form) -> Result<Vec<u8>, NoMemory> {
    let name = line.bytes(alloc, 4)?;
    match form.text(name.as_slice()) {
        Some(text) => Ok(Vec::from_slice(alloc, text)?),
        None => said(alloc, "none"),
    }
}

fn node(alloc: Global, line: Line, form: &Form) -> Result<Vec<u8>, NoMemory> {
    let name = line.bytes(alloc, 4)?;
    let node = form.node(name.as_slice());
    Ok(format!(in alloc; "{node:?}")?.into_bytes())
}

fn entries(alloc: Global, line: Line, form: &Form) -> Result<Vec<u8>, NoMemory> {
    let name = line.bytes(alloc, 4)?;
    match form.entries(alloc, name.as_slice())? {
        Some(entries) => leaves(alloc, entries.as_slice()),
        None => said(alloc, "none"),
    }
}

fn same(alloc: Global, line: Line, form: &Form) -> Result<Vec<u8>, NoMemory> {
    match form_at(alloc, line, 4) {
        Ok(other) if form.is_same(&other) => said(alloc, "the same"),
        Ok(_) => said(alloc, "another"),
        Err(fault) => fault_text(alloc, fault),
    }
}
