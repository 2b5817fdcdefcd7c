//! What a signature header is for, as the contract of a function that does nothing.
ghost use Rattle.ph_sign.specs.Laws.{HeaderIsGood};

/// A header is good under each of its secrets, until the tolerance has passed since its moment.
pub fn header_is_good()
    ensures { HeaderIsGood }
{}
