ghost use Rattle.std.specs.Prelude.{◌≡◌, ◌≤◌};
ghost use Rattle.es_model.specs.Causes.{HasCause, Rose};

use crate::{Calls, Failed};
use std::marker::Model;

/// The faults of an object in memory, of which listed calls fail. It is seen as their count.
#[derive(Debug, Drop)]
pub struct Faults {
    calls: u64,
    failing: Calls,
    faults: u64,
}

impl Model for Faults {
    ghost use Rattle.std.specs.Prelude.{ℕ};

    ghost Value = { ℕ };

    ghost view = { λ f. f.faults };
}

impl Faults {
    /// No fault yet. The calls with these numbers are to fail, counted from 1.
    pub fn new(failing: Calls) -> Faults
        ensures { result ≡ 0 }
    {
        Faults {
            calls: 0,
            failing,
            faults: 0,
        }
    }

    /// Counts a call, which fails where its number is listed.
    pub fn call(&mut self) -> Result<(), Failed>
        ensures { HasCause self.old self.new result }
    {
        self.calls = self.calls.saturating_add(1);
        if self.failing.as_slice().contains(&self.calls) {
            return Err(self.fail());
        }
        Ok(())
    }

    /// Counts a fault.
    pub fn fail(&mut self) -> Failed
        ensures later { self.old ≤ self.new }
        ensures rose { Rose self.old self.new }
    {
        self.faults = self.faults.saturating_add(1);
        Failed
    }
}
