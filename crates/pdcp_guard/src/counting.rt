ghost use Rattle.std.specs.Prelude.{◌≡◌, ◌+◌, ◌<◌, ◌≤◌, ◌↔◌, IfErr, IfOk, IsErr};
ghost use Rattle.key_model.specs.Least.{least};
ghost use Rattle.pdcp_guard.specs.Counts.{count_limit, in_32_bits, skipped};

use crate::PdcpFault;
use std::marker::Model;

/// Every PDCP COUNT is below this: it has 32 bits (TS 36.323 6.3.5).
pub const LIMIT: u64 = 1 << 32;

// The COUNTs of a radio bearer: the next one to send with, and the next one that a receiver expects.
// 2^32 stands where none is left.
#[derive(Drop)]
pub(crate) struct Counts {
    send: u64,
    receive: u64,
}

impl Model for Counts {
    ghost use Rattle.std.specs.Prelude.{◌≤◌};
    ghost use Rattle.pdcp_guard.specs.Counts.{Counts as NextCounts, count_limit};

    ghost Value = { NextCounts };

    ghost view = { λ c. record { send = c.send; receive = c.receive } };

    ghost invariant = { λ c. (c.send ≤ count_limit) × (c.receive ≤ count_limit) };

    ghost inverse = { λ c. record { send = c.send; receive = c.receive } };
}

impl Counts {
    // Both COUNTs start at 0 (TS 36.323 7.1).
    pub(crate) fn new() -> Counts
        ensures { result ≡ record { send = 0; receive = 0 } }
    {
        Counts {
            send: 0,
            receive: 0,
        }
    }

    // The next COUNT to send with.
    #[tactic(auto, unfolding(crate::specs::Counts::in_32_bits))]
    pub(crate) fn next(&self) -> Result<u32, PdcpFault>
        ensures value { result ≡ in_32_bits self.now.send }
        ensures count { IfOk result (λ count. count ≡ self.now.send) }
        ensures spent { IsErr result ↔ (self.now.send ≡ count_limit) }
        ensures cause { IfErr result (λ fault. fault ≡ PdcpFault.CountSpent) }
    {
        in_32_bits(self.send)
    }

    // Takes a COUNT to send with.
    pub(crate) fn sent(&mut self, count: u32)
        ensures { self.new ≡ record { send = count + 1; receive = self.old.receive } }
    {
        self.send = u64::from(count) + 1;
    }

    // Leaves out so many COUNTs to send with, to 2^32 at the most.
    pub(crate) fn skip(&mut self, n: u32)
        ensures { self.new ≡ record { send = skipped self.old.send n; receive = self.old.receive } }
    {
        self.send = (self.send + u64::from(n)).min(LIMIT);
    }

    // Takes the COUNT of a PDU that was received.
    pub(crate) fn received(&mut self, count: u32)
        ensures { self.new ≡ record { send = self.old.send; receive = count + 1 } }
    {
        self.receive = u64::from(count) + 1;
    }

    // The COUNT of a PDU that was received, from its sequence number of so many values.
    pub(crate) fn estimate(&self, sn: u32, values: u32) -> Result<u32, PdcpFault>
        requires below { sn < values }
        requires eighteen_bits { values ≤ 262144 }
        ensures value { result ≡ in_32_bits (least self.now.receive sn values) }
        ensures least { IfOk result (λ count. count ≡ least self.now.receive sn values) }
        ensures at_or_above { IfOk result (λ count. self.now.receive ≤ count) }
        ensures spent { IfErr result (λ _. count_limit ≤ least self.now.receive sn values) }
        ensures cause { IfErr result (λ fault. fault ≡ PdcpFault.CountSpent) }
    {
        count_from(self.receive, sn, values)
    }
}

/// The COUNT of a PDU that was received (TS 36.323 5.1.2): the least at or above the next expected one with its sequence
/// number, of so many values. `CountSpent` is the answer exactly where that has more than 32 bits.
///
/// The next expected COUNT is at most 2^32, and a sequence number has at most 18 bits.
pub fn count_from(next: u64, sn: u32, values: u32) -> Result<u32, PdcpFault>
    requires next { next ≤ count_limit }
    requires below { sn < values }
    requires eighteen_bits { values ≤ 262144 }
    ensures value { result ≡ in_32_bits (least next sn values) }
    ensures least { IfOk result (λ count. count ≡ least next sn values) }
    ensures at_or_above { IfOk result (λ count. next ≤ count) }
    ensures spent { IfErr result (λ _. count_limit ≤ least next sn values) }
    ensures cause { IfErr result (λ fault. fault ≡ PdcpFault.CountSpent) }
{
    in_32_bits(least(next, sn, values))
}

// A COUNT that has 32 bits.
#[tactic(auto, unfolding(crate::specs::Counts::in_32_bits))]
fn in_32_bits(count: u64) -> Result<u32, PdcpFault>
    ensures value { result ≡ in_32_bits count }
    ensures count { IfOk result (λ same. same ≡ count) }
    ensures spent { IsErr result ↔ (count_limit ≤ count) }
    ensures cause { IfErr result (λ fault. fault ≡ PdcpFault.CountSpent) }
{
    if count >= LIMIT {
        return Err(PdcpFault::CountSpent);
    }
    Ok(count as u32)
}

// The least number at or above `low` with this remainder modulo so many values.
#[tactic(auto, unfolding(key_model::specs::Least::least))]
fn least(low: u64, sn: u32, values: u32) -> u64
    requires low { low ≤ count_limit }
    requires below { sn < values }
    requires eighteen_bits { values ≤ 262144 }
    ensures value { result ≡ least low sn values }
    ensures at_or_above { low ≤ result }
{
    let values = u64::from(values);
    low + (u64::from(sn) + (values - low % values)) % values
}
