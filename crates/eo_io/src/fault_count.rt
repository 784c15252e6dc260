//! A count of faults.
ghost use Rattle.std.specs.Prelude.{◌≡◌, ◌≤◌, ◌-◌, ◌^◌};
ghost use Rattle.eo_io.specs.Calls.{one_more};

use std::marker::Model;

/// How often something has failed. The count does not rise above 2^64 - 1.
#[derive(Drop)]
pub(crate) struct FaultCount {
    faults: u64,
}

impl Model for FaultCount {
    ghost use Rattle.std.specs.Prelude.{ℕ};

    ghost Value = { ℕ };

    ghost view = { λ a. a.faults };
}

impl FaultCount {
    pub(crate) fn new() -> FaultCount
        ensures { result ≡ 0 }
    {
        FaultCount { faults: 0 }
    }

    /// Counts one more fault.
    pub(crate) fn raise(&mut self)
        ensures raised { self.new ≡ one_more self.old }
        ensures later { self.old ≤ self.new }
        ensures bounded { self.new ≤ 2 ^ 64 - 1 }
    {
        self.faults = self.faults.saturating_add(1);
    }
}
