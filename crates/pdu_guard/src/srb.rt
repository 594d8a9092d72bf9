ghost use Rattle.std.specs.Prelude.{◌≡◌, ◌+◌, ◌-◌, ◌<◌, ◌≤◌, ◌∷◌, ◌++◌, IfErr, IfOk, OnErr, drop, length};
ghost use Rattle.nas_guard.specs.Open.{first_in};
ghost use Rattle.pdcp_guard.specs.Counts.{count_limit};
ghost use Rattle.pdcp_guard.specs.Srb.{srb_count, srb_header};
ghost use Rattle.pdu_guard.specs.Checks.{is_checked};
ghost use Rattle.pdu_guard.specs.Srb.{longest_sdu, srb_mac_of, srb_pdu, srb_pdu_at, srb_pdu_got, srb_pdu_opened, srb_pdu_text, srb_sent};

use crate::checks::{is_checked, is_taken};
use alg_suite::{Ciphering, GivenKey, Integrity, cipher, mac};
use pdcp_guard::{PdcpFault, count_from};
use rec_base::Dir;

/// The greatest number of octets of a PDCP SDU (TS 36.323 4.3.1).
pub const LONGEST_SDU: usize = 8188;

/// What both ends of a signalling radio bearer have (TS 36.323 5.6 and 5.7).
#[derive(Clone, Copy)]
pub struct SrbKeys {
    /// KRRCenc.
    pub enc: GivenKey,
    /// KRRCint.
    pub int: GivenKey,
    /// The encryption algorithm; EEA0 for PDUs that are not ciphered.
    pub eea: Ciphering,
    /// The integrity algorithm.
    pub eia: Integrity,
    /// BEARER, of 5 bits: the identity minus 1, so 0 for SRB1 and 1 for SRB2.
    pub bearer: u8,
}

/// Makes the PDU of a text at a COUNT (TS 36.323 5.6, 5.7 and 6.2.2): it goes into `pdu`, five octets longer than the text.
#[tactic(auto, unfolding(crate::specs::Srb::srb_pdu))]
pub fn seal_srb(keys: &SrbKeys, count: u32, dir: Dir, text: &[u8], pdu: &mut [u8])
    requires bearer { keys.now.bearer < 32 }
    requires room { length pdu.old ≡ length text.now + 5 }
    ensures { pdu.new ≡ srb_pdu keys.now count dir text.now }
{
    write_plain(keys, count, dir, text, pdu);
    let (_, sent) = pdu.split_at_mut(1);
    cipher(keys.eea, &keys.enc, count, keys.bearer, dir, sent);
}

// The header octet, the text and its MAC-I, before ciphering.
fn write_plain(keys: &SrbKeys, count: u32, dir: Dir, text: &[u8], pdu: &mut [u8])
    requires bearer { keys.now.bearer < 32 }
    requires room { length pdu.old ≡ length text.now + 5 }
    ensures { pdu.new ≡ srb_header count ∷ (text.now ++ srb_mac_of keys.now count dir (srb_header count ∷ text.now)) }
{
    let (covered, end) = pdu.split_at_mut(text.len() + 1);
    write_covered((count % 32) as u8, text, covered);
    end.copy_from_slice(&mac(keys.eia, &keys.int, count, keys.bearer, dir, covered));
}

// An octet and a text after it.
fn write_covered(first: u8, text: &[u8], covered: &mut [u8])
    requires { length covered.old ≡ length text.now + 1 }
    ensures { covered.new ≡ first ∷ text.now }
{
    let (front, rest) = covered.split_at_mut(1);
    front.copy_from_slice(&[first]);
    rest.copy_from_slice(text);
}

/// The COUNT of a PDU: the least at or above `next`, of at most 2^32, with its 5 bits (TS 36.323 5.1.2.2).
///
/// The answer is `Short` for fewer than five octets, else `BadHeader` where one of the three reserved bits is set, else
/// `CountSpent` where that COUNT is 2^32 or more.
#[tactic(auto, unfolding(pdcp_guard::specs::Srb::srb_count))]
pub fn srb_count(next: u64, pdu: &[u8]) -> Result<u32, PdcpFault>
    requires { next ≤ count_limit }
    ensures value { result ≡ srb_count next pdu.now }
    ensures long { IfOk result (λ _. 5 ≤ length pdu.now) }
{
    if pdu.len() < 5 {
        return Err(PdcpFault::Short);
    }
    let first = pdu[0];
    if first >= 32 {
        return Err(PdcpFault::BadHeader(first));
    }
    count_from(next, u32::from(first), 32)
}

/// What is found of a PDU that opens.
#[derive(Clone, Copy)]
pub struct SrbFound {
    /// COUNT.
    pub count: u32,
    /// Whether its MAC-I was compared: under EIA0 nothing is checked.
    pub checked: bool,
}

/// Opens a PDU at the least COUNT at or above `next`, of at most 2^32, with its 5 bits (TS 36.323 5.1.2.2): its text, five
/// octets shorter and of at most 8,188, goes into `text`.
///
/// Where causes stand together the answer is the first of `Short`, `BadHeader`, `CountSpent` and `MacFails`, and `text` is as it
/// was. Under EIA0 any MAC-I is taken (TS 33.401 B.0), and the answer says that it was not compared.
pub fn open_srb(
    keys: &SrbKeys,
    next: u64,
    dir: Dir,
    pdu: &[u8],
    text: &mut [u8],
) -> Result<SrbFound, PdcpFault>
    requires bearer { keys.now.bearer < 32 }
    requires next { next ≤ count_limit }
    requires length { length pdu.now ≤ longest_sdu + 5 }
    requires room { length text.old ≡ length pdu.now - 5 }
    ensures opens { IfOk result (λ found. srb_pdu_opened keys.now next dir pdu.now ≡ Ok (record { count = found.count; checked = found.checked; text = text.new })) }
    ensures refused { IfErr result (λ fault. srb_pdu_opened keys.now next dir pdu.now ≡ Err fault) }
    ensures err { OnErr result (text.new ≡ text.old) }
{
    let count = srb_count(next, pdu)?;
    open_at(keys, count, dir, pdu, text)?;
    Ok(SrbFound {
        count,
        checked: is_checked(keys.eia),
    })
}

/// The text of a PDU at a COUNT, whatever its MAC-I is (TS 36.323 5.6): it goes into `text`, five octets shorter than the PDU,
/// which has 5 to 8,193 octets.
#[tactic(auto, unfolding(crate::specs::Srb::srb_pdu_text))]
pub fn srb_text(keys: &SrbKeys, count: u32, dir: Dir, pdu: &[u8], text: &mut [u8])
    requires bearer { keys.now.bearer < 32 }
    requires long { 5 ≤ length pdu.now }
    requires length { length pdu.now ≤ longest_sdu + 5 }
    requires room { length text.old ≡ length pdu.now - 5 }
    ensures { text.new ≡ srb_pdu_text keys.now count dir pdu.now }
{
    let mut buffer = [0; 8193];
    let plain = &mut buffer[..pdu.len()];
    decipher(keys, count, dir, pdu, plain);
    text.copy_from_slice(&plain[1..pdu.len() - 4]);
}

// The text of a PDU at a COUNT, where its MAC-I is right.
#[tactic(auto, unfolding(crate::specs::Srb::srb_pdu_text, crate::specs::Srb::srb_pdu_got, crate::specs::Srb::srb_pdu_at))]
fn open_at(
    keys: &SrbKeys,
    count: u32,
    dir: Dir,
    pdu: &[u8],
    text: &mut [u8],
) -> Result<(), PdcpFault>
    requires bearer { keys.now.bearer < 32 }
    requires long { 5 ≤ length pdu.now }
    requires length { length pdu.now ≤ longest_sdu + 5 }
    requires room { length text.old ≡ length pdu.now - 5 }
    ensures opens { IfOk result (λ _. srb_pdu_at keys.now count dir pdu.now ≡ Ok (record { count = count; checked = is_checked keys.now.eia; text = text.new })) }
    ensures refused { IfErr result (λ fault. srb_pdu_at keys.now count dir pdu.now ≡ Err fault) }
    ensures err { OnErr result (text.new ≡ text.old) }
{
    let mut buffer = [0; 8193];
    let plain = &mut buffer[..pdu.len()];
    decipher(keys, count, dir, pdu, plain);
    let (covered, end) = plain.split_at(pdu.len() - 4);
    let wanted = mac(keys.eia, &keys.int, count, keys.bearer, dir, covered);
    let mut got = [0; 4];
    got.copy_from_slice(end);
    if !is_taken(keys.eia, &wanted, &got) {
        return Err(PdcpFault::MacFails { count, wanted, got });
    }
    text.copy_from_slice(&covered[1..]);
    Ok(())
}

// The plain octets of a PDU, its header first.
fn decipher(keys: &SrbKeys, count: u32, dir: Dir, pdu: &[u8], plain: &mut [u8])
    requires bearer { keys.now.bearer < 32 }
    requires long { 5 ≤ length pdu.now }
    requires room { length plain.old ≡ length pdu.now }
    ensures { plain.new ≡ first_in pdu.now ∷ srb_sent keys.now count dir (drop 1 pdu.now) }
{
    plain.copy_from_slice(pdu);
    let (_, sent) = plain.split_at_mut(1);
    cipher(keys.eea, &keys.enc, count, keys.bearer, dir, sent);
}
