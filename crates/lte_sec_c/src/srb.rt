// PDUs of signalling radio bearers (TS 36.323 5.6 and 5.7).
ghost use Rattle.std.specs.Prelude.{◌≡◌, ◌≢◌, ◌+◌, ◌<◌, ◌≤◌, ◌↔◌, IsTrue, drop, length, take};
ghost use Rattle.pdcp_guard.specs.Counts.{count_limit};
ghost use Rattle.pdcp_guard.specs.Srb.{srb_count};
ghost use Rattle.pdu_guard.specs.Srb.{longest_sdu, srb_pdu};
ghost use Rattle.lte_sec_c.specs.Found.{found_after, status_after, text_after};
ghost use Rattle.lte_sec_c.specs.Srb.{is_other, is_srb, is_srb_opening, srb_expects, srb_keys_in, srb_opens, srb_opens_at, srb_send_status, srb_sends};
ghost use Rattle.lte_sec_c.specs.Ranges.{dir_of};
ghost use Rattle.lte_sec_c.specs.Status.{done, status_of};

use crate::fault::{DONE, Fault};
use crate::found::Found;
use crate::ranges::{dir_of, eea_of, eia_of, is_direction, is_identity};
use alg_suite::GivenKey;
use pdcp_guard::LIMIT;
use pdu_guard::{LONGEST_SDU, SrbKeys, open_srb, seal_srb, srb_count};

/// A signalling radio bearer: its keys and COUNTs.
#[repr(C)]
pub struct SrbContext {
    /// KRRCenc, all 32 octets.
    pub enc_key: [u8; 32],
    /// KRRCint, all 32 octets.
    pub int_key: [u8; 32],
    /// The next COUNT to send, at most 2^32, where none is left.
    pub send: u64,
    /// The next COUNT to receive, at most 2^32, where none is left.
    pub receive: u64,
    /// BEARER, of 5 bits: the identity minus 1.
    pub bearer: u32,
    /// The identity of the encryption algorithm, 0 to 3; 0 also for PDUs that are not ciphered.
    pub eea: u32,
    /// The identity of the integrity algorithm, 0 to 3.
    pub eia: u32,
}

/// Makes the PDU of a text under the next COUNT, which it takes.
#[unsafe(no_mangle)]
pub extern "C" fn ltesec_srb_send(
    context: &mut SrbContext,
    direction: u32,
    text: &[u8],
    pdu: &mut [u8],
    written: &mut usize,
) -> u32
    ensures status { result ≡ srb_send_status context.old direction text.now (length pdu.old) }
    ensures sealed { result ≡ done → take written.new pdu.new ≡ srb_pdu (srb_keys_in context.old) context.old.send (dir_of direction) text.now }
    ensures written { result ≡ done → written.new ≡ length text.now + 5 }
    ensures behind { result ≡ done → drop written.new pdu.new ≡ drop written.new pdu.old }
    ensures moves { result ≡ done → context.new ≡ srb_sends context.old (context.old.send + 1) }
    ensures kept { result ≢ done → (context.new ≡ context.old) × (pdu.new ≡ pdu.old) × (written.new ≡ written.old) }
{
    if !is_srb(context) || !is_direction(direction) || text.len() > LONGEST_SDU {
        return Fault::OutOfRange.status();
    }
    let count = context.send;
    if count == LIMIT {
        return Fault::CountSpent.status();
    }
    if pdu.len() < text.len() + 5 {
        return Fault::NoRoom.status();
    }
    let (sent, _) = pdu.split_at_mut(text.len() + 5);
    seal_srb(
        &keys_in(context),
        count as u32,
        dir_of(direction),
        text,
        sent,
    );
    *written = text.len() + 5;
    context.send = count + 1;
    DONE
}

/// Opens a PDU under the least COUNT at or above the next one to receive with its sequence number, and leaves the bearer as it is.
#[unsafe(no_mangle)]
pub extern "C" fn ltesec_srb_open(
    context: &SrbContext,
    direction: u32,
    pdu: &[u8],
    text: &mut [u8],
    found: &mut Found,
) -> u32
    ensures status { result ≡ status_after (srb_opens context.now context.now.receive direction pdu.now (length text.old)) }
    ensures text { text.new ≡ text_after text.old (srb_opens context.now context.now.receive direction pdu.now (length text.old)) }
    ensures found { found.new ≡ found_after found.old (srb_opens context.now context.now.receive direction pdu.now (length text.old)) }
{
    open(context, context.receive, direction, pdu, text, found)
}

/// Opens a PDU at this COUNT, whatever the bearer expects: one with another sequence number is refused.
#[unsafe(no_mangle)]
pub extern "C" fn ltesec_srb_open_at(
    context: &SrbContext,
    count: u32,
    direction: u32,
    pdu: &[u8],
    text: &mut [u8],
    found: &mut Found,
) -> u32
    ensures status { result ≡ status_after (srb_opens_at context.now count direction pdu.now (length text.old)) }
    ensures text { text.new ≡ text_after text.old (srb_opens_at context.now count direction pdu.now (length text.old)) }
    ensures found { found.new ≡ found_after found.old (srb_opens_at context.now count direction pdu.now (length text.old)) }
{
    let count = u64::from(count);
    if !is_opening(context, count, direction, pdu) {
        return Fault::OutOfRange.status();
    }
    if is_other(count, pdu) {
        return Fault::OtherCount.status();
    }
    open(context, count, direction, pdu, text, found)
}

/// Takes the COUNT of a PDU that opened as the last received one: the one after it is the next to receive.
#[unsafe(no_mangle)]
pub extern "C" fn ltesec_srb_accept(context: &mut SrbContext, count: u32) -> u32
    ensures done { result ≡ done ↔ (IsTrue (is_srb context.old) × (context.old.receive ≤ count)) }
    ensures moves { result ≡ done → context.new ≡ srb_expects context.old (count + 1) }
    ensures cause { result ≢ done → result ≡ status_of Fault.OutOfRange }
    ensures kept { result ≢ done → context.new ≡ context.old }
{
    let count = u64::from(count);
    if !is_srb(context) || count < context.receive {
        return Fault::OutOfRange.status();
    }
    context.receive = count + 1;
    DONE
}

// Opens a PDU where this COUNT is expected next.
fn open(
    context: &SrbContext,
    next: u64,
    direction: u32,
    pdu: &[u8],
    text: &mut [u8],
    found: &mut Found,
) -> u32
    ensures status { result ≡ status_after (srb_opens context.now next direction pdu.now (length text.old)) }
    ensures text { text.new ≡ text_after text.old (srb_opens context.now next direction pdu.now (length text.old)) }
    ensures found { found.new ≡ found_after found.old (srb_opens context.now next direction pdu.now (length text.old)) }
{
    if !is_opening(context, next, direction, pdu) {
        return Fault::OutOfRange.status();
    }
    let length = pdu.len().saturating_sub(5);
    if text.len() < length {
        return Fault::NoRoom.status();
    }
    let (front, _) = text.split_at_mut(length);
    match open_srb(&keys_in(context), next, dir_of(direction), pdu, front) {
        Ok(opened) => {
            found.opens(0, opened.count, length, opened.checked);
            DONE
        }
        Err(fault) => found.refuses(Fault::of_pdcp(fault)),
    }
}

// Whether a bearer is in range.
fn is_srb(context: &SrbContext) -> bool
    ensures { result ≡ is_srb context.now }
{
    is_identity(context.eea)
        && is_identity(context.eia)
        && context.bearer < 32
        && context.send <= LIMIT
        && context.receive <= LIMIT
}

// Whether what an opening needs is in range.
fn is_opening(context: &SrbContext, next: u64, direction: u32, pdu: &[u8]) -> bool
    ensures { result ≡ is_srb_opening context.now next direction pdu.now }
{
    is_srb(context) && next <= LIMIT && is_direction(direction) && pdu.len() <= LONGEST_SDU + 5
}

// Whether a PDU has another COUNT than this one.
fn is_other(count: u64, pdu: &[u8]) -> bool
    requires { count ≤ count_limit }
    ensures { result ≡ is_other count (srb_count count pdu.now) }
{
    match srb_count(count, pdu) {
        Ok(found) => u64::from(found) != count,
        Err(_) => false,
    }
}

// The keys of a bearer.
fn keys_in(context: &SrbContext) -> SrbKeys
    requires { context.now.bearer < 32 }
    ensures { result ≡ srb_keys_in context.now }
{
    let (enc, int) = (context.enc_key, context.int_key);
    SrbKeys {
        enc: GivenKey::of_octets(enc),
        int: GivenKey::of_octets(int),
        eea: eea_of(context.eea),
        eia: eia_of(context.eia),
        bearer: context.bearer as u8,
    }
}
