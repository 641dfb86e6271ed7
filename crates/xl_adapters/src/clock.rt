//! The time.
ghost use Rattle.std.specs.Prelude.{◌≡◌, None};

use std::time;
use std::time::Instant;
use xl_base::{Clock, Moment};

/// A clock that shows the milliseconds since it was made. A reading that fails is the one before.
#[derive(Drop)]
pub struct SteadyClock<R> {
    system: R,
    start: Option<Instant>,
    last: u64,
}

impl<R: time::Clock> SteadyClock<R> {
    /// A clock that starts now.
    pub fn new(system: R) -> SteadyClock<R>
        ensures { result.last ≡ 0 }
    {
        let start = Instant::now(&system).ok();
        SteadyClock {
            system,
            start,
            last: 0,
        }
    }

    /// The milliseconds since the start, if the system tells them.
    fn elapsed(&self) -> Option<u64> {
        let passed = self.start?.elapsed(&self.system).ok()?;
        u64::try_from(passed.as_millis()).ok()
    }
}

impl<R: time::Clock> Clock for SteadyClock<R> {
    ghost told = { λ _. None };

    fn now(&mut self) -> Moment {
        if let Some(now) = self.elapsed() {
            self.last = now;
        }
        Moment(self.last)
    }
}
