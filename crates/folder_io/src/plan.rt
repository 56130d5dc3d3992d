//! Which calls of an object in memory are to fail.
ghost use Rattle.std.specs.Prelude.{◌≡◌, ◌≤◌, true, false, IfOk};
ghost use Rattle.folder_io.specs.Plans.{fails_next, after_call, new_plan};

use std::alloc::{AllocError, Global};
use std::marker::Model;

/// The numbers of the calls that are to fail, counted from 1, with the calls made and failed so far.
#[derive(Debug, Drop)]
pub(crate) struct FaultPlan {
    fail: Vec<u64>,
    calls: u64,
    faults: u64,
}

impl Model for FaultPlan {
    ghost use Rattle.folder_io.specs.Plans.{Plan};

    ghost Value = { Plan };

    ghost view = { λ a. record { fail = a.fail.items; calls = a.calls; faults = a.faults } };
}

impl FaultPlan {
    pub(crate) fn new(alloc: Global, fail: &[u64]) -> Result<Self, AllocError>
        ensures { IfOk result (λ plan. plan ≡ new_plan fail.now) }
    {
        Ok(FaultPlan {
            fail: fail.to_vec(alloc)?,
            calls: 0,
            faults: 0,
        })
    }

    pub(crate) fn fails_next(&self) -> bool
        ensures { result ≡ fails_next self.now }
    {
        self.calls < u64::MAX && self.fail.contains(&(self.calls + 1))
    }

    /// Counts a call that was to fail, and did.
    pub(crate) fn count_failed(&mut self)
        requires { fails_next self.old ≡ true }
        ensures after { self.new ≡ after_call self.old }
        ensures rises { self.old.faults ≤ self.new.faults }
    {
        self.calls = self.calls.saturating_add(1);
        self.faults = self.faults.saturating_add(1);
    }

    /// Counts a call that was not to fail.
    pub(crate) fn count_passed(&mut self)
        requires { fails_next self.old ≡ false }
        ensures after { self.new ≡ after_call self.old }
    {
        self.calls = self.calls.saturating_add(1);
    }

    pub(crate) fn faults(&self) -> u64
        ensures { result ≡ self.now.faults }
    {
        self.faults
    }
}
