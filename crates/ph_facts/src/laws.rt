//! The law of what may be entered.
ghost use Rattle.ph_facts.specs.Entering.{StaysSound};

/// Sound rows stay sound with the rows of a batch that may be entered after them, those of its events included.
pub fn entered_stays_sound()
    ensures { StaysSound }
{}
