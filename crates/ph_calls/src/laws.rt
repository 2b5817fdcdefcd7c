//! What holds of everything that is read of a request.
ghost use Rattle.std.specs.Prelude.{ℕ, IfErr, IfOk};
ghost use Rattle.ph_http.specs.declared.message.Raw.{Raw};
ghost use Rattle.ph_calls.specs.Check.{IsNoCall};
ghost use Rattle.ph_calls.specs.Fit.{IsFit};
ghost use Rattle.ph_calls.specs.Reading.{reading_of};

/// Whatever the bytes of a request, the call that it is read as is fit to be carried out: each text that its rows keep
/// is UTF-8, and a clock is set to a time that a clock shows.
pub fn readings_are_fit()
    ensures { (account : ℕ) (raw : Raw) → IfOk (reading_of account raw) IsFit }
{}

/// Whatever the bytes of a request, the error that it is refused by, where it is no call, has status 400 or 404, or 503
/// for want of memory.
pub fn readings_are_refused()
    ensures { (account : ℕ) (raw : Raw) → IfErr (reading_of account raw) IsNoCall }
{}
