// PDUs of data radio bearers (TS 36.323 5.6).
ghost use Rattle.std.specs.Prelude.{◌≡◌, ◌≢◌, ◌+◌, ◌<◌, ◌≤◌, drop, length, take};
ghost use Rattle.pdcp_guard.specs.Counts.{count_limit};
ghost use Rattle.pdu_guard.specs.Drb.{drb_count_of, drb_pdu};
ghost use Rattle.lte_sec_c.specs.Found.{found_after, status_after, text_after};
ghost use Rattle.lte_sec_c.specs.Drb.{drb_after, drb_header, drb_keys_in, drb_opens, drb_opens_at, drb_send_status, drb_sends, is_bits, is_drb, is_drb_opening, numbers_by};
ghost use Rattle.lte_sec_c.specs.Ranges.{dir_of};
ghost use Rattle.lte_sec_c.specs.Srb.{is_other};
ghost use Rattle.lte_sec_c.specs.Status.{done};

use crate::fault::{DONE, Fault};
use crate::found::Found;
use crate::ranges::{dir_of, eea_of, is_direction, is_identity};
use alg_suite::GivenKey;
use pdcp_guard::LIMIT;
use pdu_guard::{DrbKeys, Numbers, drb_count, open_drb, seal_drb};

/// A data radio bearer: its key and COUNTs.
#[repr(C)]
pub struct DrbContext {
    /// KUPenc, all 32 octets.
    pub enc_key: [u8; 32],
    /// The next COUNT to send, at most 2^32, where none is left.
    pub send: u64,
    /// The next COUNT to receive, at most 2^32, where none is left.
    pub receive: u64,
    /// BEARER, of 5 bits: the identity minus 1.
    pub bearer: u32,
    /// The identity of the encryption algorithm, 0 to 3.
    pub eea: u32,
    /// The bits of the sequence numbers: 7, 12, 15 or 18.
    pub bits: u32,
}

/// Makes the PDU of a text under the next COUNT, which it takes.
#[unsafe(no_mangle)]
pub extern "C" fn ltesec_drb_send(
    context: &mut DrbContext,
    direction: u32,
    text: &[u8],
    pdu: &mut [u8],
    written: &mut usize,
) -> u32
    ensures status { result ≡ drb_send_status context.old direction text.now (length pdu.old) }
    ensures sealed { result ≡ done → take written.new pdu.new ≡ drb_pdu (drb_keys_in context.old) context.old.send (dir_of direction) text.now }
    ensures written { result ≡ done → written.new ≡ drb_header context.old + length text.now }
    ensures behind { result ≡ done → drop written.new pdu.new ≡ drop written.new pdu.old }
    ensures moves { result ≡ done → context.new ≡ drb_sends context.old (context.old.send + 1) }
    ensures kept { result ≢ done → (context.new ≡ context.old) × (pdu.new ≡ pdu.old) × (written.new ≡ written.old) }
{
    if !is_drb(context) || !is_direction(direction) {
        return Fault::OutOfRange.status();
    }
    let count = context.send;
    if count == LIMIT {
        return Fault::CountSpent.status();
    }
    let keys = keys_in(context);
    let length = keys.numbers.header_octets() + text.len();
    if pdu.len() < length {
        return Fault::NoRoom.status();
    }
    let (sent, _) = pdu.split_at_mut(length);
    seal_drb(&keys, count as u32, dir_of(direction), text, sent);
    *written = length;
    context.send = count + 1;
    DONE
}

/// Opens a PDU under the least COUNT at or above the next one to receive with its sequence number, and takes that COUNT: the
/// one after it is the next to receive. This is the rule of RLC UM (5.1.2.1.3). Nothing is verified on a DRB.
#[unsafe(no_mangle)]
pub extern "C" fn ltesec_drb_receive(
    context: &mut DrbContext,
    direction: u32,
    pdu: &[u8],
    text: &mut [u8],
    found: &mut Found,
) -> u32
    ensures status { result ≡ status_after (drb_opens context.old context.old.receive direction pdu.now (length text.old)) }
    ensures text { text.new ≡ text_after text.old (drb_opens context.old context.old.receive direction pdu.now (length text.old)) }
    ensures found { found.new ≡ found_after found.old (drb_opens context.old context.old.receive direction pdu.now (length text.old)) }
    ensures moves { context.new ≡ drb_after context.old (drb_opens context.old context.old.receive direction pdu.now (length text.old)) }
{
    let status = open(context, context.receive, direction, pdu, text, found);
    if status == DONE {
        context.receive = u64::from(found.count) + 1;
    }
    status
}

/// Opens a PDU at this COUNT, whatever the bearer expects: one with another sequence number is refused.
#[unsafe(no_mangle)]
pub extern "C" fn ltesec_drb_open_at(
    context: &DrbContext,
    count: u32,
    direction: u32,
    pdu: &[u8],
    text: &mut [u8],
    found: &mut Found,
) -> u32
    ensures status { result ≡ status_after (drb_opens_at context.now count direction pdu.now (length text.old)) }
    ensures text { text.new ≡ text_after text.old (drb_opens_at context.now count direction pdu.now (length text.old)) }
    ensures found { found.new ≡ found_after found.old (drb_opens_at context.now count direction pdu.now (length text.old)) }
{
    let count = u64::from(count);
    if !is_opening(context, count, direction) {
        return Fault::OutOfRange.status();
    }
    if is_other(count, numbers_by(context.bits), pdu) {
        return Fault::OtherCount.status();
    }
    open(context, count, direction, pdu, text, found)
}

// Opens a PDU where this COUNT is expected next.
fn open(
    context: &DrbContext,
    next: u64,
    direction: u32,
    pdu: &[u8],
    text: &mut [u8],
    found: &mut Found,
) -> u32
    ensures status { result ≡ status_after (drb_opens context.now next direction pdu.now (length text.old)) }
    ensures text { text.new ≡ text_after text.old (drb_opens context.now next direction pdu.now (length text.old)) }
    ensures found { found.new ≡ found_after found.old (drb_opens context.now next direction pdu.now (length text.old)) }
{
    if !is_opening(context, next, direction) {
        return Fault::OutOfRange.status();
    }
    let keys = keys_in(context);
    let length = pdu.len().saturating_sub(keys.numbers.header_octets());
    if text.len() < length {
        return Fault::NoRoom.status();
    }
    let (front, _) = text.split_at_mut(length);
    match open_drb(&keys, next, dir_of(direction), pdu, front) {
        Ok(count) => {
            found.opens(0, count, length, false);
            DONE
        }
        Err(fault) => found.refuses(Fault::of_pdcp(fault)),
    }
}

// Whether a bearer is in range.
pub(crate) fn is_drb(context: &DrbContext) -> bool
    ensures { result ≡ is_drb context.now }
{
    is_identity(context.eea)
        && is_bits(context.bits)
        && context.bearer < 32
        && context.send <= LIMIT
        && context.receive <= LIMIT
}

// Whether sequence numbers have so many bits.
fn is_bits(bits: u32) -> bool
    ensures { result ≡ is_bits bits }
{
    bits == 7 || bits == 12 || bits == 15 || bits == 18
}

// The sequence numbers of so many bits.
pub(crate) fn numbers_by(bits: u32) -> Numbers
    ensures { result ≡ numbers_by bits }
{
    match bits {
        7 => Numbers::Seven,
        12 => Numbers::Twelve,
        15 => Numbers::Fifteen,
        _ => Numbers::Eighteen,
    }
}

// Whether what an opening needs is in range.
fn is_opening(context: &DrbContext, next: u64, direction: u32) -> bool
    ensures { result ≡ is_drb_opening context.now next direction }
{
    is_drb(context) && next <= LIMIT && is_direction(direction)
}

// Whether a PDU has another COUNT than this one.
fn is_other(count: u64, numbers: Numbers, pdu: &[u8]) -> bool
    requires { count ≤ count_limit }
    ensures { result ≡ is_other count (drb_count_of numbers count pdu.now) }
{
    match drb_count(count, numbers, pdu) {
        Ok(found) => u64::from(found) != count,
        Err(_) => false,
    }
}

// The keys of a bearer.
pub(crate) fn keys_in(context: &DrbContext) -> DrbKeys
    requires { context.now.bearer < 32 }
    ensures { result ≡ drb_keys_in context.now }
{
    let enc = context.enc_key;
    DrbKeys {
        enc: GivenKey::of_octets(enc),
        eea: eea_of(context.eea),
        bearer: context.bearer as u8,
        numbers: numbers_by(context.bits),
    }
}
