ghost use Rattle.std.specs.Prelude.{◌≡◌, ◌-◌, ◌<◌, ◌≤◌, IfOk, OnErr, length};
ghost use Rattle.pdcp_guard.specs.Counts.{count_limit};
ghost use Rattle.pdu_guard.specs.Am.{am_count_of, count_at, counted, is_outside, place_of};
ghost use Rattle.pdu_guard.specs.Drb.{drb_pdu_text, header_octets, values_of};

use crate::drb::{DrbKeys, Numbers, drb_text};
use rec_base::Dir;

/// What becomes of a PDU of a data radio bearer on RLC AM.
#[derive(Clone, Copy)]
pub enum AmFate {
    /// It is kept, and the next COUNT is the one behind its own.
    New,
    /// It is kept, and the next COUNT stays: it came late, but within the reordering window.
    Late,
    /// It is outside the reordering window: its text is for header decompression alone, and is discarded.
    Discarded,
}

/// What is found of a PDU.
#[derive(Clone, Copy)]
pub struct AmFound {
    /// The COUNT at which it is deciphered.
    pub count: u32,
    /// What becomes of it.
    pub fate: AmFate,
}

/// Why a PDU has no COUNT.
#[derive(Clone, Copy, Debug)]
pub enum AmFault {
    /// The header is not whole.
    Short,
    /// D/C is 0, or a reserved bit is set, in the first octet, which this holds.
    BadHeader(u8),
    /// The COUNT would be 2^32 or more.
    CountSpent,
    /// The HFN would be before the first, 0.
    BeforeFirst,
}

// The HFN of a PDU, by the one of the next COUNT.
#[derive(Clone, Copy)]
pub(crate) enum Hfn {
    Before,
    Same,
    After,
}

// With which HFN a sequence number is taken, and what becomes of the PDU.
#[derive(Clone, Copy)]
pub(crate) struct Place {
    pub(crate) hfn: Hfn,
    pub(crate) fate: AmFate,
}

/// The COUNT of a PDU of a data radio bearer on RLC AM, and what becomes of it (TS 36.323 5.1.2.1.2), where `next` is the next
/// COUNT (RX_HFN and Next_PDCP_RX_SN) and `last` is Last_Submitted_PDCP_RX_SN: the sequence number of the last text that was
/// handed on, and at first the greatest one (7.1).
///
/// The answer is `Short` where the header is not whole, else `BadHeader` where D/C is 0 or a reserved bit is set, else
/// `BeforeFirst` where RX_HFN is 0 and the rule takes the HFN before, else `CountSpent` where that COUNT is 2^32 or more.
#[tactic(auto, unfolding(crate::specs::Am::am_count_of, crate::specs::Am::am_count_at))]
pub fn am_count(numbers: Numbers, last: u32, next: u64, pdu: &[u8]) -> Result<AmFound, AmFault>
    requires last { last < values_of numbers }
    requires next { next ≤ count_limit }
    ensures value { result ≡ am_count_of numbers last next pdu.now }
    ensures long { IfOk result (λ _. header_octets numbers ≤ length pdu.now) }
{
    if pdu.len() < numbers.header_octets() {
        return Err(AmFault::Short);
    }
    let first = pdu[0];
    if !numbers.is_data(first) {
        return Err(AmFault::BadHeader(first));
    }
    let number = numbers.number_in(pdu);
    let values = u64::from(numbers.values());
    let place = placed(numbers.values() / 2, last, (next % values) as u32, number);
    count_at(values, next / values, u64::from(number), place)
}

// With which HFN a sequence number is taken, and what becomes of the PDU.
#[tactic(auto, unfolding(crate::specs::Am::place_of))]
fn placed(window: u32, last: u32, next: u32, number: u32) -> Place
    requires window { window ≤ 262144 }
    requires last { last < 262144 }
    requires next { next < 262144 }
    requires number { number < 262144 }
    ensures { result ≡ place_of window last next number }
{
    if is_outside(window, last, number) {
        let hfn = if next < number {
            Hfn::Before
        } else {
            Hfn::Same
        };
        return Place {
            hfn,
            fate: AmFate::Discarded,
        };
    }
    if number + window < next {
        return Place {
            hfn: Hfn::After,
            fate: AmFate::New,
        };
    }
    if next + window <= number {
        return Place {
            hfn: Hfn::Before,
            fate: AmFate::Late,
        };
    }
    if next <= number {
        return Place {
            hfn: Hfn::Same,
            fate: AmFate::New,
        };
    }
    Place {
        hfn: Hfn::Same,
        fate: AmFate::Late,
    }
}

// Whether a sequence number is outside the reordering window.
fn is_outside(window: u32, last: u32, number: u32) -> bool
    requires window { window ≤ 262144 }
    requires last { last < 262144 }
    requires number { number < 262144 }
    ensures { result ≡ is_outside window last number }
{
    last + window < number || number <= last && last < number + window
}

// The COUNT of HFN and sequence number.
fn count_at(values: u64, hfn: u64, number: u64, place: Place) -> Result<AmFound, AmFault>
    requires values { values ≤ 262144 }
    requires hfn { hfn ≤ count_limit }
    requires number { number < 262144 }
    ensures { result ≡ count_at values hfn number place }
{
    match place.hfn {
        Hfn::Before => {
            if hfn == 0 {
                return Err(AmFault::BeforeFirst);
            }
            counted((hfn - 1) * values + number, place.fate)
        }
        Hfn::Same => counted(hfn * values + number, place.fate),
        Hfn::After => counted((hfn + 1) * values + number, place.fate),
    }
}

// A COUNT of 32 bits.
fn counted(count: u64, fate: AmFate) -> Result<AmFound, AmFault>
    ensures { result ≡ counted count fate }
{
    if count > 0xffff_ffff {
        return Err(AmFault::CountSpent);
    }
    Ok(AmFound {
        count: count as u32,
        fate,
    })
}

/// Opens a PDU of any length of a data radio bearer on RLC AM at the COUNT of `am_count`: its text, shorter by the header, goes
/// into `text`, also where it is discarded.
///
/// Nothing is verified on a DRB: any PDU with a good header opens to some text. Where causes of refusal stand together the answer
/// is the first of `Short`, `BadHeader`, `BeforeFirst` and `CountSpent`, and `text` is as it was.
pub fn open_am(
    keys: &DrbKeys,
    last: u32,
    next: u64,
    dir: Dir,
    pdu: &[u8],
    text: &mut [u8],
) -> Result<AmFound, AmFault>
    requires bearer { keys.now.bearer < 32 }
    requires last { last < values_of keys.now.numbers }
    requires next { next ≤ count_limit }
    requires room { length text.old ≡ length pdu.now - header_octets keys.now.numbers }
    ensures value { result ≡ am_count_of keys.now.numbers last next pdu.now }
    ensures text { IfOk result (λ found. text.new ≡ drb_pdu_text keys.now found.count dir pdu.now) }
    ensures err { OnErr result (text.new ≡ text.old) }
{
    let found = am_count(keys.numbers, last, next, pdu)?;
    drb_text(keys, found.count, dir, pdu, text);
    Ok(found)
}
