ghost use Rattle.std.specs.Prelude.{◌≡◌, ◌+◌, ◌<◌, ◌≤◌, ◌↔◌, IfOk, IsErr};
ghost use Rattle.key_model.specs.Least.{least};
ghost use Rattle.nas_count.specs.Estimate.{nas_count_limit, estimate_of};

use crate::{CountSpent, LIMIT};
use std::marker::Model;

/// A receiver's NAS COUNT (TS 24.301 4.4.3.1). A contract sees it as the next COUNT, the one above the
/// last that was accepted; it is 0 where none was, and 2^24 where none can come any more.
#[derive(Clone, Copy)]
pub struct RxCount {
    next: u32,
}

impl Model for RxCount {
    ghost use Rattle.std.specs.Prelude.{ℕ, ◌≤◌};
    ghost use Rattle.nas_count.specs.Estimate.{nas_count_limit};

    ghost Value = { ℕ };

    ghost view = { λ c. c.next };

    ghost invariant = { λ c. c.next ≤ nas_count_limit };

    ghost inverse = { λ next. record { next = next } };
}

impl RxCount {
    /// The COUNT of a context that an authentication made: 0 comes next (TS 24.301 4.4.3.1).
    pub fn new() -> RxCount
        ensures { result ≡ 0 }
    {
        RxCount { next: 0 }
    }

    /// The COUNT of a received sequence number (TS 24.301 4.4.3.1): the least at or above the next one
    /// that ends in this number. None is left exactly where that one is 2^24 or more.
    #[tactic(auto, unfolding(crate::specs::Estimate::estimate_of))]
    pub fn estimate(&self, sn: u8) -> Result<u32, CountSpent>
        ensures value { result ≡ estimate_of self.now sn }
        ensures least { IfOk result (λ count. count ≡ least self.now sn 256) }
        ensures at_or_above { IfOk result (λ count. self.now ≤ count) }
        ensures below { IfOk result (λ count. count < nas_count_limit) }
        ensures spent { IsErr result ↔ (nas_count_limit ≤ least self.now sn 256) }
    {
        let count = least(self.next, sn);
        if count >= LIMIT {
            return Err(CountSpent);
        }
        Ok(count)
    }

    /// Takes a COUNT whose message was verified as the last accepted one: at or above the next one, and below 2^24.
    pub fn accept(&mut self, count: u32)
        requires at_or_above { self.old ≤ count }
        requires below { count < nas_count_limit }
        ensures { self.new ≡ count + 1 }
    {
        self.next = count + 1;
    }
}

// The least number at or above `low` that ends in this sequence number.
#[tactic(auto, unfolding(key_model::specs::Least::least))]
fn least(low: u32, sn: u8) -> u32
    requires { low ≤ nas_count_limit }
    ensures value { result ≡ least low sn 256 }
    ensures at_or_above { low ≤ result }
{
    low + (u32::from(sn) + (256 - low % 256)) % 256
}
