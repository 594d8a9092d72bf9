ghost use Rattle.std.specs.Prelude.{◌≡◌, ◌+◌, ◌<◌, ◌↔◌, IfOk, IsErr, OnErr, min};
ghost use Rattle.nas_count.specs.Estimate.{nas_count_limit};

use std::marker::Model;

/// Every NAS COUNT is below this: it has 24 bits, 16 of overflow counter and 8 of sequence number (TS
/// 24.301 4.4.3.1).
pub const LIMIT: u32 = 1 << 24;

/// No NAS COUNT is left under these keys.
#[derive(Clone, Copy, Debug, PartialEq, Eq)]
pub struct CountSpent;

/// A sender's NAS COUNT (TS 24.301 4.4.3.1). A contract sees it as the next COUNT, 2^24 where none is
/// left. It is not copied, so that no COUNT is taken twice.
#[derive(Drop)]
pub struct TxCount {
    next: u32,
}

impl Model for TxCount {
    ghost use Rattle.std.specs.Prelude.{ℕ, ◌≤◌};
    ghost use Rattle.nas_count.specs.Estimate.{nas_count_limit};

    ghost Value = { ℕ };

    ghost view = { λ c. c.next };

    ghost invariant = { λ c. c.next ≤ nas_count_limit };

    ghost inverse = { λ next. record { next = next } };
}

impl TxCount {
    /// The COUNT of a context that an authentication made: 0 comes next (TS 24.301 4.4.3.1).
    pub fn new() -> TxCount
        ensures { result ≡ 0 }
    {
        TxCount { next: 0 }
    }

    /// Takes the next COUNT, once. None is left exactly where the next one would be 2^24.
    pub fn take(&mut self) -> Result<u32, CountSpent>
        ensures count { IfOk result (λ count. count ≡ self.old) }
        ensures below { IfOk result (λ count. count < nas_count_limit) }
        ensures moves { IfOk result (λ count. self.new ≡ count + 1) }
        ensures spent { IsErr result ↔ (self.old ≡ nas_count_limit) }
        ensures err { OnErr result (self.new ≡ self.old) }
    {
        if self.next == LIMIT {
            return Err(CountSpent);
        }
        let count = self.next;
        self.next += 1;
        Ok(count)
    }

    /// Leaves out so many COUNTs, to 2^24 at the most.
    pub fn skip(&mut self, n: u32)
        ensures { self.new ≡ min (self.old + n) nas_count_limit }
    {
        self.next = self.next.saturating_add(n).min(LIMIT);
    }
}
