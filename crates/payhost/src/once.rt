//! One session over standard input and output.
ghost use Rattle.std.specs.Prelude.{◌≡◌, ℕ};
ghost use Rattle.ph_host.specs.Plans.{plan_of};
ghost use Rattle.ph_host.specs.declared.plans.Plan.TheVariants.{Once};

use ph_bank::{SimAcquirer, Turns};
use ph_base::Bytes;
use ph_host::run_once;
use ph_io::{StdSink, StdSource};

/// Runs what the words ask for over standard input and output, with the simulated acquirer and a patience of so many turns.
pub fn once(rt: &HostRuntime, words: &[Bytes], patience: u32) -> u8
    requires patience { (polls : ℕ) → plan_of words.now ≡ Once polls → patience ≡ polls }
{
    let mut input = StdSource::new(rt.stdin());
    let mut output = StdSink::new(rt.stdout());
    let mut link = SimAcquirer::new();
    let mut patience = Turns::new(u64::from(patience));
    run_once(
        rt.alloc(),
        words,
        &mut input,
        &mut output,
        &mut link,
        &mut patience,
    )
}
