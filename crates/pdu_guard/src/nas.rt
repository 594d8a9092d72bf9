ghost use Rattle.std.specs.Prelude.{◌≡◌, ◌+◌, ◌-◌, ◌<◌, ◌≤◌, IfErr, IfOk, OnErr, length};
ghost use Rattle.nas_count.specs.Estimate.{nas_count_limit};
ghost use Rattle.nas_guard.specs.Open.{header_in, sent_in};
ghost use Rattle.pdu_guard.specs.Nas.{mac_checked, nas_covered, nas_head_of, nas_mac_of, nas_opened, nas_pdu, nas_sent};

use crate::checks::{is_checked, is_taken};
use alg_suite::{Ciphering, GivenKey, Integrity, cipher, mac};
use nas_count::RxCount;
use nas_guard::OpenFault;
use rec_base::Dir;

/// What both ends of a NAS security context have (TS 33.401 6.2).
#[derive(Clone, Copy)]
pub struct NasKeys {
    /// KNASenc.
    pub enc: GivenKey,
    /// KNASint.
    pub int: GivenKey,
    /// The encryption algorithm.
    pub eea: Ciphering,
    /// The integrity algorithm.
    pub eia: Integrity,
}

/// What the front of a protected NAS message says.
#[derive(Clone, Copy)]
pub struct NasHead {
    /// The security header type, 1 to 4 (TS 24.301 9.3.1).
    pub header: u8,
    /// The NAS COUNT, of 24 bits.
    pub count: u32,
}

/// Protects a text of any length at a COUNT of 24 bits (TS 24.301 4.4.3.3 and 4.4.3.4): the octets as sent, six more than the
/// text's, go into `pdu`.
///
/// `header` is the security header type, 1 to 4.
#[tactic(auto, unfolding(crate::specs::Nas::nas_pdu))]
pub fn seal_nas(keys: &NasKeys, header: u8, count: u32, dir: Dir, text: &[u8], pdu: &mut [u8])
    requires above_plain { 1 ≤ header }
    requires at_most_four { header ≤ 4 }
    requires count { count < nas_count_limit }
    requires room { length pdu.old ≡ length text.now + 6 }
    ensures { pdu.new ≡ nas_pdu keys.now header count dir text.now }
{
    let (front, message) = pdu.split_at_mut(5);
    write_covered(keys, header, count, dir, text, message);
    let [a, b, c, d] = nas_mac(keys, count, dir, message);
    front.copy_from_slice(&[16 * header + 7, a, b, c, d]);
}

// What the MAC covers: the sequence number, and the text as sent.
fn write_covered(keys: &NasKeys, header: u8, count: u32, dir: Dir, text: &[u8], message: &mut [u8])
    requires header { header ≤ 4 }
    requires room { length message.old ≡ length text.now + 1 }
    ensures { message.new ≡ nas_covered keys.now header count dir text.now }
{
    let (first, sent) = message.split_at_mut(1);
    first.copy_from_slice(&[(count % 256) as u8]);
    sent.copy_from_slice(text);
    cipher_nas(keys, header, count, dir, sent);
}

// The MAC over a sequence number and a text as sent.
pub(crate) fn nas_mac(keys: &NasKeys, count: u32, dir: Dir, covered: &[u8]) -> [u8; 4]
    ensures { result ≡ nas_mac_of keys.now count dir covered.now }
{
    mac(keys.eia, &keys.int, count, 0, dir, covered)
}

// Makes the text as sent of a text in place, or the text of a text as sent: ciphered at the header types 2 and 4.
#[tactic(auto, unfolding(crate::specs::Nas::nas_sent))]
fn cipher_nas(keys: &NasKeys, header: u8, count: u32, dir: Dir, text: &mut [u8])
    ensures { text.new ≡ nas_sent keys.now header count dir text.old }
{
    if header == 2 || header == 4 {
        cipher(keys.eea, &keys.enc, count, 0, dir, text);
    }
}

/// The header type and the COUNT of a protected NAS message: the least COUNT at or above `next`, of at most 2^24, with the
/// message's sequence number (TS 24.301 4.4.3.1).
///
/// The answer is `Short` for fewer than six octets, else `BadHeader` if the first octet is not that of a protected message,
/// else `CountSpent` if that COUNT is 2^24 or more.
#[tactic(auto, unfolding(crate::specs::Nas::nas_head_of))]
pub fn nas_head(next: u32, pdu: &[u8]) -> Result<NasHead, OpenFault>
    requires { next ≤ nas_count_limit }
    ensures value { result ≡ nas_head_of next pdu.now }
    ensures long { IfOk result (λ _. 6 ≤ length pdu.now) }
    ensures header { IfOk result (λ head. head.header ≡ header_in pdu.now) }
{
    if pdu.len() < 6 {
        return Err(OpenFault::Short);
    }
    let first = pdu[0];
    let header = first / 16;
    if first % 16 != 7 || header < 1 || header > 4 {
        return Err(OpenFault::BadHeader(first));
    }
    match expecting(next).estimate(pdu[5]) {
        Ok(count) => Ok(NasHead { header, count }),
        Err(_) => Err(OpenFault::CountSpent),
    }
}

/// What is found of a NAS message that opens.
#[derive(Clone, Copy)]
pub struct NasFound {
    /// The security header type, 1 to 4 (TS 24.301 9.3.1).
    pub header: u8,
    /// The NAS COUNT, of 24 bits.
    pub count: u32,
    /// Whether its MAC was compared: under EIA0 nothing is checked.
    pub checked: bool,
}

/// Opens a protected NAS message of any length at the least COUNT at or above `next`, of at most 2^24, with its sequence number
/// (TS 24.301 4.4.3.1, 4.4.3.3 and 4.4.3.4): its text, six octets shorter, goes into `text`.
///
/// Where causes stand together the answer is the first of `Short`, `BadHeader`, `CountSpent` and `MacFails`, and `text` is as it
/// was. Under EIA0 any MAC is taken (TS 33.401 B.0), and the answer says that it was not compared.
pub fn open_nas(
    keys: &NasKeys,
    next: u32,
    dir: Dir,
    pdu: &[u8],
    text: &mut [u8],
) -> Result<NasFound, OpenFault>
    requires next { next ≤ nas_count_limit }
    requires room { length text.old ≡ length pdu.now - 6 }
    ensures opens { IfOk result (λ found. nas_opened keys.now next dir pdu.now ≡ Ok (record { header = found.header; count = found.count; checked = found.checked; text = text.new })) }
    ensures refused { IfErr result (λ fault. nas_opened keys.now next dir pdu.now ≡ Err fault) }
    ensures err { OnErr result (text.new ≡ text.old) }
{
    let head = nas_head(next, pdu)?;
    check_mac(keys, head.count, dir, pdu)?;
    nas_text(keys, head.header, head.count, dir, pdu, text);
    Ok(NasFound {
        header: head.header,
        count: head.count,
        checked: is_checked(keys.eia),
    })
}

/// The text of a protected NAS message at a COUNT, whatever its MAC is (TS 24.301 4.4.5): it goes into `text`, six octets
/// shorter than the message, which has six octets or more.
///
/// `header` is the security header type, 1 to 4.
pub fn nas_text(keys: &NasKeys, header: u8, count: u32, dir: Dir, pdu: &[u8], text: &mut [u8])
    requires long { 6 ≤ length pdu.now }
    requires room { length text.old ≡ length pdu.now - 6 }
    ensures { text.new ≡ nas_sent keys.now header count dir (sent_in pdu.now) }
{
    text.copy_from_slice(&pdu[6..]);
    cipher_nas(keys, header, count, dir, text);
}

// Whether the MAC of a message is right at a COUNT.
#[tactic(auto, unfolding(crate::specs::Nas::mac_checked))]
fn check_mac(keys: &NasKeys, count: u32, dir: Dir, pdu: &[u8]) -> Result<(), OpenFault>
    requires { 6 ≤ length pdu.now }
    ensures { result ≡ mac_checked keys.now count dir pdu.now }
{
    let wanted = nas_mac(keys, count, dir, &pdu[5..]);
    let mut got = [0; 4];
    got.copy_from_slice(&pdu[1..5]);
    if !is_taken(keys.eia, &wanted, &got) {
        return Err(OpenFault::MacFails { count, wanted, got });
    }
    Ok(())
}

// A receiver that expects this COUNT next.
pub(crate) fn expecting(next: u32) -> RxCount
    requires { next ≤ nas_count_limit }
    ensures { result ≡ next }
{
    let mut rx = RxCount::new();
    if next > 0 {
        rx.accept(next - 1);
    }
    rx
}
