//! What is wrong with a form.
ghost use Rattle.std.specs.Prelude.{◌≡◌};

use ph_base::NoMemory;

/// The fault of the first pair that has one. The pairs of the query come first, then those of the body, numbered from 0.
#[derive(Debug, Drop)]
pub enum FormFault {
    /// The name isn't a base followed by keys in brackets.
    BadName { at: u64 },
    /// The place holds a text or a map already, or lies below a text.
    Clash { at: u64 },
    /// There are more than four keys.
    TooDeep { at: u64 },
    /// There was no memory to read the form.
    NoMemory,
}

impl From<NoMemory> for FormFault {
    ghost use Rattle.ph_form.specs.declared.fault.FormFault.{FormFault};
    ghost use Rattle.ph_form.specs.declared.fault.FormFault.TheVariants.{NoMemory as OutOfMemory};

    ghost from_gives = { λ e f. f ≡ OutOfMemory };

    fn from(error: NoMemory) -> Self {
        let NoMemory = error;
        FormFault::NoMemory
    }
}
