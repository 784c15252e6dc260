//! Which calls of the library and the sink in memory fail, and how much each moves.
ghost use Rattle.std.specs.Prelude.{◌≡◌, ◌≤◌, ◌-◌, ◌^◌, OnOk, OnErr};
ghost use Rattle.eo_io.specs.Calls.{first_plan, with_piece, with_failing, fails_next, after_call};

use crate::fault_count::FaultCount;
use std::alloc::{AllocError, Global};
use std::marker::Model;

/// How much each call moves, which calls fail, how many were made, and how many failed.
#[derive(Drop)]
pub(crate) struct CallPlan {
    piece: usize,
    failing: Vec<u64>,
    made: u64,
    faults: FaultCount,
}

impl Model for CallPlan {
    ghost use Rattle.std.specs.Prelude.{◌≤◌};
    ghost use Rattle.eo_io.specs.Calls.{Plan};

    ghost Value = { Plan };

    ghost view = { λ a. record { piece = a.piece; failing = a.failing.items; made = a.made; faults = a.faults } };

    ghost invariant = { λ a. 1 ≤ a.piece };
}

impl CallPlan {
    /// A plan by which no call fails, and each moves as much as it can.
    pub(crate) fn new(alloc: Global) -> CallPlan
        ensures { result ≡ first_plan }
    {
        CallPlan {
            piece: usize::MAX,
            failing: Vec::new(alloc),
            made: 0,
            faults: FaultCount::new(),
        }
    }

    /// Lets a call move at most n bytes, n at least 1.
    pub(crate) fn set_piece(&mut self, n: usize)
        requires { 1 ≤ n }
        ensures { self.new ≡ with_piece n self.old }
    {
        self.piece = n;
    }

    /// Lets the call with this number fail. `Err`: out of memory, and the plan is as before.
    pub(crate) fn fail(&mut self, call: u64) -> Result<(), AllocError>
        ensures ok { OnOk result (self.new ≡ with_failing call self.old) }
        ensures err { OnErr result (self.new ≡ self.old) }
    {
        self.failing.push(call)?;
        Ok(())
    }

    /// How many bytes a call moves at most.
    pub(crate) fn piece(&self) -> usize
        ensures piece { result ≡ self.now.piece }
        ensures positive { 1 ≤ result }
    {
        self.piece
    }

    /// Whether the next call is to fail.
    pub(crate) fn fails_next(&self) -> bool
        ensures { result ≡ fails_next self.now }
    {
        self.failing.contains(&self.made.saturating_add(1))
    }

    /// Counts a call, which failed or not.
    pub(crate) fn count(&mut self, failed: bool)
        ensures after { self.new ≡ after_call failed self.old }
        ensures later { self.old.faults ≤ self.new.faults }
        ensures bounded { self.old.faults ≤ 2 ^ 64 - 1 → self.new.faults ≤ 2 ^ 64 - 1 }
    {
        self.made = self.made.saturating_add(1);
        if failed {
            self.faults.raise();
        }
    }
}
