//! The calls of a device in memory: how many were made, which of them fail, and how many faults there were.
ghost use Rattle.std.specs.Prelude.{◌≡◌, ◌↔◌, ◌+◌, ◌-◌, ◌^◌, ◌≤◌, min, IsErr, Contains};
ghost use Rattle.lara_base.specs.Causes.{HasCause, Counts};
ghost use Rattle.lara_base.specs.Calls.{calls_made, next_call, failing_calls, call_faults};

use crate::list::List;
use crate::streams::Failed;

/// Calls are numbered from 1, and those in a list fail. Each count stops at the last value of its type.
#[derive(Drop)]
pub struct Calls {
    fails: List<u64>,
    made: u64,
    faults: u64,
}

impl Calls {
    /// No call was made yet. The calls with these numbers will fail.
    pub fn new(fails: List<u64>) -> Calls
        ensures made { calls_made result ≡ 0 }
        ensures next { next_call result ≡ 1 }
        ensures fails { failing_calls result ≡ fails }
        ensures faults { call_faults result ≡ 0 }
    {
        Calls {
            fails,
            made: 0,
            faults: 0,
        }
    }

    /// Makes the next call. It fails just where it is listed, and then its fault is counted.
    pub fn make(&mut self) -> Result<(), Failed>
        ensures listed { IsErr result ↔ Contains (failing_calls self.old) (next_call self.old) }
        ensures counts { Counts (call_faults self.old) (call_faults self.new) result }
        ensures cause { HasCause (call_faults self.old) (call_faults self.new) result }
        ensures made { calls_made self.new ≡ next_call self.old }
        ensures next { next_call self.new ≡ min (next_call self.old + 1) (2 ^ 64 - 1) }
        ensures fails { failing_calls self.new ≡ failing_calls self.old }
    {
        self.made = self.made.saturating_add(1);
        if self.fails.as_slice().contains(&self.made) {
            return Err(self.fault());
        }
        Ok(())
    }

    /// Counts a fault of the call that was made.
    pub fn fault(&mut self) -> Failed
        ensures faults { call_faults self.new ≡ min (call_faults self.old + 1) (2 ^ 64 - 1) }
        ensures later { call_faults self.old ≤ call_faults self.new }
        ensures made { calls_made self.new ≡ calls_made self.old }
        ensures next { next_call self.new ≡ next_call self.old }
        ensures fails { failing_calls self.new ≡ failing_calls self.old }
    {
        self.faults = self.faults.saturating_add(1);
        Failed
    }

    /// The number of calls so far.
    pub fn made(&self) -> u64
        ensures { result ≡ calls_made self.now }
    {
        self.made
    }
}
