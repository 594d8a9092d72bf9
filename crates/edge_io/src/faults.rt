ghost use Rattle.std.specs.Prelude.{◌≡◌, ◌+◌, ◌-◌, ◌^◌, ◌≤◌, ◌↔◌, min, IsErr, Contains, OnOk, OnErr};

use crate::failed::Failed;

/// Which calls of a form over memory fail, by their numbers from 0, and how many have failed.
#[derive(Drop)]
pub(crate) struct Faults {
    failing: Vec<u64>,
    calls: u64,
    pub(crate) count: u64,
}

impl Faults {
    pub(crate) fn new(failing: Vec<u64>) -> Self
        ensures { result ≡ record { failing = failing; calls = 0; count = 0 } }
    {
        Faults {
            failing,
            calls: 0,
            count: 0,
        }
    }

    /// Counts a call. It fails exactly where its number is listed.
    pub(crate) fn next_call(&mut self) -> Result<(), Failed>
        ensures fails { IsErr result ↔ Contains self.old.failing.items self.old.calls }
        ensures failing { self.new.failing ≡ self.old.failing }
        ensures calls { self.new.calls ≡ min (self.old.calls + 1) (2 ^ 64 - 1) }
        ensures ok { OnOk result (self.new.count ≡ self.old.count) }
        ensures err { OnErr result (self.new.count ≡ min (self.old.count + 1) (2 ^ 64 - 1)) }
        ensures counts { self.old.count ≤ self.new.count }
    {
        let number = self.calls;
        self.calls = number.saturating_add(1);
        if self.failing.contains(&number) {
            return Err(self.fault());
        }
        Ok(())
    }

    /// Counts a fault.
    pub(crate) fn fault(&mut self) -> Failed
        ensures failing { self.new.failing ≡ self.old.failing }
        ensures calls { self.new.calls ≡ self.old.calls }
        ensures counts { self.old.count ≤ self.new.count }
        ensures count { self.new.count ≡ min (self.old.count + 1) (2 ^ 64 - 1) }
    {
        self.count = self.count.saturating_add(1);
        Failed
    }
}
