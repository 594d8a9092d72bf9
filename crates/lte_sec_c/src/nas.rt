// NAS messages (TS 24.301 4.4).
ghost use Rattle.std.specs.Prelude.{◌≡◌, ◌≢◌, ◌+◌, ◌<◌, ◌≤◌, ◌↔◌, IsTrue, drop, length, take};
ghost use Rattle.nas_count.specs.Estimate.{nas_count_limit};
ghost use Rattle.lte_sec_c.specs.Found.{found_after, status_after, text_after};
ghost use Rattle.lte_sec_c.specs.Nas.{is_header, is_nas, nas_expects, nas_keys_in, has_other, is_nas_opening, nas_opens, nas_opens_at, nas_seal_status, nas_sends};
ghost use Rattle.pdu_guard.specs.Nas.{nas_head_of, nas_pdu};
ghost use Rattle.lte_sec_c.specs.Ranges.{dir_of};
ghost use Rattle.lte_sec_c.specs.Status.{done, status_of};

use crate::fault::{DONE, Fault};
use crate::found::Found;
use crate::ranges::{dir_of, eea_of, eia_of, is_direction, is_identity};
use alg_suite::GivenKey;
use nas_count::LIMIT;
use pdu_guard::{NasKeys, nas_head, open_nas, seal_nas};

/// A NAS security context (TS 33.401 6.2 and 8.1).
#[repr(C)]
pub struct NasContext {
    /// KNASenc, all 32 octets.
    pub enc_key: [u8; 32],
    /// KNASint, all 32 octets.
    pub int_key: [u8; 32],
    /// The next COUNT to send, at most 2^24, where none is left.
    pub send: u32,
    /// The next COUNT to receive, at most 2^24, where none is left.
    pub receive: u32,
    /// The identity of the encryption algorithm, 0 to 3.
    pub eea: u32,
    /// The identity of the integrity algorithm, 0 to 3.
    pub eia: u32,
}

/// Protects a text under the next COUNT, which it takes (4.4.3.3 and 4.4.3.4).
#[unsafe(no_mangle)]
pub extern "C" fn ltesec_nas_seal(
    context: &mut NasContext,
    header: u32,
    direction: u32,
    text: &[u8],
    pdu: &mut [u8],
    written: &mut usize,
) -> u32
    ensures status { result ≡ nas_seal_status context.old header direction text.now (length pdu.old) }
    ensures sealed { result ≡ done → take written.new pdu.new ≡ nas_pdu (nas_keys_in context.old) header context.old.send (dir_of direction) text.now }
    ensures written { result ≡ done → written.new ≡ length text.now + 6 }
    ensures behind { result ≡ done → drop written.new pdu.new ≡ drop written.new pdu.old }
    ensures moves { result ≡ done → context.new ≡ nas_sends context.old (context.old.send + 1) }
    ensures kept { result ≢ done → (context.new ≡ context.old) × (pdu.new ≡ pdu.old) × (written.new ≡ written.old) }
{
    if !is_nas(context) || !is_header(header) || !is_direction(direction) {
        return Fault::OutOfRange.status();
    }
    let count = context.send;
    if count == LIMIT {
        return Fault::CountSpent.status();
    }
    if pdu.len() < 6 || pdu.len() - 6 < text.len() {
        return Fault::NoRoom.status();
    }
    let (sent, _) = pdu.split_at_mut(text.len() + 6);
    seal_nas(
        &keys_in(context),
        header as u8,
        count,
        dir_of(direction),
        text,
        sent,
    );
    *written = text.len() + 6;
    context.send = count + 1;
    DONE
}

/// Opens a message under the least COUNT at or above the next one to receive with its sequence number, and leaves the context
/// as it is (4.4.3.1, 4.4.3.3 and 4.4.3.4).
#[unsafe(no_mangle)]
pub extern "C" fn ltesec_nas_open(
    context: &NasContext,
    direction: u32,
    pdu: &[u8],
    text: &mut [u8],
    found: &mut Found,
) -> u32
    ensures status { result ≡ status_after (nas_opens context.now context.now.receive direction pdu.now (length text.old)) }
    ensures text { text.new ≡ text_after text.old (nas_opens context.now context.now.receive direction pdu.now (length text.old)) }
    ensures found { found.new ≡ found_after found.old (nas_opens context.now context.now.receive direction pdu.now (length text.old)) }
{
    open(context, context.receive, direction, pdu, text, found)
}

/// Opens a message at this COUNT, whatever the context expects: one with another sequence number is refused.
#[unsafe(no_mangle)]
pub extern "C" fn ltesec_nas_open_at(
    context: &NasContext,
    count: u32,
    direction: u32,
    pdu: &[u8],
    text: &mut [u8],
    found: &mut Found,
) -> u32
    ensures status { result ≡ status_after (nas_opens_at context.now count direction pdu.now (length text.old)) }
    ensures text { text.new ≡ text_after text.old (nas_opens_at context.now count direction pdu.now (length text.old)) }
    ensures found { found.new ≡ found_after found.old (nas_opens_at context.now count direction pdu.now (length text.old)) }
{
    if count >= LIMIT || !is_opening(context, count, direction) {
        return Fault::OutOfRange.status();
    }
    if has_other(count, pdu) {
        return Fault::OtherCount.status();
    }
    open(context, count, direction, pdu, text, found)
}

/// Takes the COUNT of a message that opened as the last accepted one (4.4.3.1): the one after it is the next to receive.
#[unsafe(no_mangle)]
pub extern "C" fn ltesec_nas_accept(context: &mut NasContext, count: u32) -> u32
    ensures done { result ≡ done ↔ (IsTrue (is_nas context.old) × (context.old.receive ≤ count) × (count < nas_count_limit)) }
    ensures moves { result ≡ done → context.new ≡ nas_expects context.old (count + 1) }
    ensures cause { result ≢ done → result ≡ status_of Fault.OutOfRange }
    ensures kept { result ≢ done → context.new ≡ context.old }
{
    if !is_nas(context) || count < context.receive || count >= LIMIT {
        return Fault::OutOfRange.status();
    }
    context.receive = count + 1;
    DONE
}

// Opens a message where this COUNT comes next.
fn open(
    context: &NasContext,
    next: u32,
    direction: u32,
    pdu: &[u8],
    text: &mut [u8],
    found: &mut Found,
) -> u32
    ensures status { result ≡ status_after (nas_opens context.now next direction pdu.now (length text.old)) }
    ensures text { text.new ≡ text_after text.old (nas_opens context.now next direction pdu.now (length text.old)) }
    ensures found { found.new ≡ found_after found.old (nas_opens context.now next direction pdu.now (length text.old)) }
{
    if !is_opening(context, next, direction) {
        return Fault::OutOfRange.status();
    }
    let length = pdu.len().saturating_sub(6);
    if text.len() < length {
        return Fault::NoRoom.status();
    }
    let (front, _) = text.split_at_mut(length);
    match open_nas(&keys_in(context), next, dir_of(direction), pdu, front) {
        Ok(opened) => {
            found.opens(
                u32::from(opened.header),
                opened.count,
                length,
                opened.checked,
            );
            DONE
        }
        Err(fault) => found.refuses(Fault::of_nas(fault)),
    }
}

// Whether a context is in range.
fn is_nas(context: &NasContext) -> bool
    ensures { result ≡ is_nas context.now }
{
    is_identity(context.eea)
        && is_identity(context.eia)
        && context.send <= LIMIT
        && context.receive <= LIMIT
}

// Whether what an opening needs is in range.
fn is_opening(context: &NasContext, next: u32, direction: u32) -> bool
    ensures { result ≡ is_nas_opening context.now next direction }
{
    is_nas(context) && next <= LIMIT && is_direction(direction)
}

// Whether a message has another COUNT than this one.
fn has_other(count: u32, pdu: &[u8]) -> bool
    requires { count < nas_count_limit }
    ensures { result ≡ has_other count (nas_head_of count pdu.now) }
{
    match nas_head(count, pdu) {
        Ok(head) => head.count != count,
        Err(_) => false,
    }
}

// Whether this is a security header type of a protected message.
fn is_header(header: u32) -> bool
    ensures { result ≡ is_header header }
{
    header >= 1 && header <= 4
}

// The keys of a context.
fn keys_in(context: &NasContext) -> NasKeys
    ensures { result ≡ nas_keys_in context.now }
{
    let (enc, int) = (context.enc_key, context.int_key);
    NasKeys {
        enc: GivenKey::of_octets(enc),
        int: GivenKey::of_octets(int),
        eea: eea_of(context.eea),
        eia: eia_of(context.eia),
    }
}
