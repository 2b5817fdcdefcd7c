//! How far a replay is, told to a person.

use ph_replay::Watch;
use std::io::IsTerminal;
use std::time::{Duration, Instant};

// How many seconds nothing is told behind a line.
const PAUSE: u64 = 1;

/// Tells on standard error how far a replay is, a line a second, where that is a terminal.
#[derive(Drop)]
pub struct Meter<'a> {
    rt: &'a HostRuntime,
    told: Option<Instant>,
}

impl<'a> Meter<'a> {
    /// One that tells its first line a second from now. Where standard error is no terminal, or the clock can't be read, it
    /// tells none.
    pub fn new(rt: &'a HostRuntime) -> Self {
        let told = if rt.stderr().is_terminal() {
            Instant::now(rt).ok()
        } else {
            None
        };
        Meter { rt, told }
    }
}

impl Watch for Meter<'_> {
    fn entered(&mut self, entries: u64, of: u64) {
        let Some(told) = self.told else { return };
        let Ok(now) = Instant::now(self.rt) else {
            return;
        };
        if now.duration_since(told) >= Duration::from_secs(PAUSE) {
            self.told = Some(now);
            let _ = eprintln!(self.rt; "payhost: {entries} of {of} entries are entered anew");
        }
    }
}
