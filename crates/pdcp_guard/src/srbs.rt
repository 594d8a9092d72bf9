ghost use Rattle.std.specs.Prelude.{◌≡◌, ℕ, ◌+◌, ◌-◌, ◌%◌, ◌<◌, ◌≤◌, ◌∷◌, ◌↔◌, IfErr, IfOk, IsErr, IsTrue, List, OnErr, length};
ghost use Rattle.nas_guard.specs.Open.{first_in};
ghost use Rattle.pdcp_guard.specs.Counts.{after_send, expects_next, new_bearer, send_count, sends_next, skipped};
ghost use Rattle.key_model.specs.Least.{least};
ghost use Rattle.rec_base.specs.Bearer.{IsSrb};
ghost use Rattle.rec_base.specs.Lengths.{longest_record};
ghost use Rattle.pdcp_guard.specs.Srb.{SrbHasNoCount, SrbOpens, SrbRefuses, srb_count, srb_opened, srb_opened_at, srb_sealed, srb_sent_by, srb_sn};
ghost use Rattle.pdcp_guard.specs.Counts.{count_limit};

use crate::counting::Counts;
use crate::{AsKeys, PdcpFault, PdcpOpened, PdcpSent};
use rec_base::{Bearer, Dir, Octets};
use std::marker::Model;

/// A signalling radio bearer: integrity protected, and ciphered where its caller says so (TS 36.323 5.6
/// and 5.7). A contract sees it as the bearer and its COUNTs.
///
/// It is neither `Copy` nor `Clone`, so that no COUNT is sent twice.
#[derive(Drop)]
pub struct Srb {
    bearer: Bearer,
    counts: Counts,
}

impl Model for Srb {
    ghost use Rattle.pdcp_guard.specs.Counts.{BearerState};

    ghost Value = { BearerState };

    ghost use Rattle.rec_base.specs.Bearer.{IsSrb};

    ghost view = { λ b. record { bearer = b.bearer; counts = b.counts } };

    ghost invariant = { λ b. IsSrb b.bearer };

    ghost inverse = { λ b. record { bearer = b.bearer; counts = b.counts } };
}

impl Srb {
    /// A new bearer, SRB1 or SRB2: both COUNTs start at 0 (TS 36.323 7.1).
    pub fn new(bearer: Bearer) -> Srb
        requires { IsSrb bearer }
        ensures { result ≡ new_bearer bearer }
    {
        Srb {
            bearer,
            counts: Counts::new(),
        }
    }

    /// Makes the PDU of a text under the next COUNT, which it takes (TS 36.323 5.6 and 5.7).
    ///
    /// `cipher` says whether the bearer is ciphered. The text has at most 201 octets. Where the next COUNT
    /// would be 2^32, the answer is `CountSpent` and the bearer stays as it is.
    pub fn send(
        &mut self,
        keys: &AsKeys,
        dir: Dir,
        cipher: bool,
        text: &[u8],
    ) -> Result<PdcpSent, PdcpFault>
        requires { length text.now ≤ 201 }
        ensures value { result ≡ srb_sent_by keys.now cipher self.old.bearer dir text.now (send_count self.old) }
        ensures new { self.new ≡ after_send self.old (send_count self.old) }
        ensures pdu { IfOk result (λ sent. sent.pdu ≡ srb_sealed keys.now cipher self.old.bearer sent.count dir text.now) }
        ensures count { IfOk result (λ sent. sent.count ≡ self.old.counts.send) }
        ensures moves { IfOk result (λ sent. self.new ≡ sends_next self.old (sent.count + 1)) }

        // A receiver whose next expected COUNT is no more than 31 below opens it to the text.
        ensures opens { IfOk result (λ sent. (next : ℕ) → next ≤ sent.count → sent.count - next < 32
            → srb_opened keys.now cipher self.old.bearer next dir sent.pdu ≡ Ok (record { count = sent.count; text = text.now })) }

        ensures spent { IsErr result ↔ (self.old.counts.send ≡ count_limit) }
        ensures cause { IfErr result (λ fault. fault ≡ PdcpFault.CountSpent) }
        ensures err { OnErr result (self.new ≡ self.old) }
    {
        let count = self.counts.next()?;
        self.counts.sent(count);
        let pdu = sealed(keys, cipher, self.bearer, count, dir, text);
        Ok(PdcpSent { pdu, count })
    }

    /// Opens a PDU under the least COUNT at or above the next expected one with its sequence number, and
    /// leaves the bearer as it is (TS 36.323 5.1.2.2).
    ///
    /// The PDU has at most 1,536 octets. Where causes of refusal stand together, the first of `Short`,
    /// `BadHeader`, `CountSpent` and `MacFails` is the answer.
    pub fn open(
        &self,
        keys: &AsKeys,
        dir: Dir,
        cipher: bool,
        pdu: &[u8],
    ) -> Result<PdcpOpened, PdcpFault>
        requires { length pdu.now ≤ longest_record }
        ensures value { result ≡ srb_opened keys.now cipher self.now.bearer self.now.counts.receive dir pdu.now }
        ensures opens { IfOk result (SrbOpens keys.now cipher self.now.bearer self.now.counts.receive dir pdu.now) }
        ensures refused { IfErr result (SrbRefuses keys.now cipher self.now.bearer self.now.counts.receive dir pdu.now) }
        ensures at_or_above { IfOk result (λ o. self.now.counts.receive ≤ o.count) }
        ensures was_sealed { IfOk result (λ o. pdu.now ≡ srb_sealed keys.now cipher self.now.bearer o.count dir o.text) }

        // A PDU that was made under these keys and this bearer and direction, ciphered or not as here, opens
        // to its text where its COUNT is the one expected: the least with its sequence number.
        ensures intact { (count : ℕ) (text : List ℕ) → pdu.now ≡ srb_sealed keys.now cipher self.now.bearer count dir text
            → count < count_limit → least self.now.counts.receive (count % 32) 32 ≡ count
            → result ≡ Ok (record { count = count; text = text }) }
    {
        let count = self.count_of(pdu)?;
        opened_at(keys, cipher, self.bearer, count, dir, pdu)
    }

    /// Takes the COUNT of a PDU that opened as the last received one: the next COUNT is then expected.
    ///
    /// The COUNT is at or above the next expected one, as `open` ensures of each PDU that it opens
    /// (`at_or_above`). So the expected COUNT never falls, and no COUNT is taken twice.
    pub fn accept(&mut self, count: u32)
        requires { self.old.counts.receive ≤ count }
        ensures { self.new ≡ expects_next self.old (count + 1) }
    {
        self.counts.received(count);
    }

    /// Leaves out so many COUNTs to send with, to 2^32 at the most.
    pub fn skip(&mut self, n: u32)
        ensures next { self.new ≡ sends_next self.old (skipped self.old.counts.send n) }
        ensures in_range { self.old.counts.send ≤ count_limit }
    {
        self.counts.skip(n);
    }

    /// Whether no COUNT is left to send with.
    pub fn spent(&self) -> bool
        ensures spent { IsTrue result ↔ (self.now.counts.send ≡ count_limit) }
        ensures in_range { self.now.counts.send ≤ count_limit }
    {
        self.counts.next().is_err()
    }

    // The COUNT of a PDU.
    #[tactic(auto, unfolding(crate::specs::Srb::srb_count))]
    fn count_of(&self, pdu: &[u8]) -> Result<u32, PdcpFault>
        ensures value { result ≡ srb_count self.now.counts.receive pdu.now }
        ensures long { IfOk result (λ _. 5 ≤ length pdu.now) }
        ensures reserved { IfOk result (λ _. first_in pdu.now < 32) }
        ensures count { IfOk result (λ count. count ≡ least self.now.counts.receive (srb_sn pdu.now) 32) }
        ensures at_or_above { IfOk result (λ count. self.now.counts.receive ≤ count) }
        ensures refused { IfErr result (SrbHasNoCount self.now.counts.receive pdu.now) }
    {
        if pdu.len() < 5 {
            return Err(PdcpFault::Short);
        }
        let first = pdu[0];
        if first >= 32 {
            return Err(PdcpFault::BadHeader(first));
        }
        self.counts.estimate(u32::from(first % 32), 32)
    }
}

// A header octet and the octets behind it.
fn with_header(header: u8, behind: &[u8]) -> Octets
    requires { length behind.now < longest_record }
    ensures { result ≡ header ∷ behind.now }
{
    let mut octets = Octets::new();
    octets.append(&[header]);
    octets.append(behind);
    octets
}

// The PDU of a text under a COUNT.
#[tactic(auto, unfolding(crate::specs::Srb::srb_sealed))]
fn sealed(keys: &AsKeys, cipher: bool, bearer: Bearer, count: u32, dir: Dir, text: &[u8]) -> Octets
    requires { length text.now ≤ 201 }
    ensures { result ≡ srb_sealed keys.now cipher bearer count dir text.now }
{
    let header = (count % 32) as u8;
    let mac = keys.srb_mac(bearer, count, dir, header, text);
    let mut plain = Octets::new();
    plain.append(text);
    plain.append(&mac);
    let sent = keys.srb_ciphered(cipher, bearer, count, dir, plain.as_slice());
    with_header(header, sent.as_slice())
}

// The text of a PDU at a COUNT, where its MAC-I is right.
#[tactic(auto, unfolding(crate::specs::Srb::srb_opened_at))]
fn opened_at(
    keys: &AsKeys,
    cipher: bool,
    bearer: Bearer,
    count: u32,
    dir: Dir,
    pdu: &[u8],
) -> Result<PdcpOpened, PdcpFault>
    requires long { 5 ≤ length pdu.now }
    requires length { length pdu.now ≤ longest_record }
    ensures { result ≡ srb_opened_at keys.now cipher bearer count dir pdu.now }
{
    let plain = keys.srb_ciphered(cipher, bearer, count, dir, &pdu[1..]);
    let (front, mac) = plain.as_slice().split_at(pdu.len() - 5);
    let wanted = keys.srb_mac(bearer, count, dir, pdu[0], front);
    let mut got = [0; 4];
    got.copy_from_slice(mac);
    if wanted != got {
        return Err(PdcpFault::MacFails { count, wanted, got });
    }
    let mut text = Octets::new();
    text.append(front);
    Ok(PdcpOpened { count, text })
}
