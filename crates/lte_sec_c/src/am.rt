// PDUs of data radio bearers on RLC AM (TS 36.323 5.1.2.1.2).
ghost use Rattle.std.specs.Prelude.{◌≡◌, length};
ghost use Rattle.lte_sec_c.specs.Am.{am_after, am_found, am_opens, fate_after, is_am, next_after, number_of};
ghost use Rattle.lte_sec_c.specs.Found.{found_after, status_after, text_after};

use crate::drb::{DrbContext, is_drb, keys_in, numbers_by};
use crate::fault::{DONE, Fault};
use crate::found::Found;
use crate::ranges::{dir_of, is_direction};
use pdu_guard::{AmFate, AmFound, open_am};

/// Opens a PDU on RLC AM at the COUNT that the reordering window gives it, tells what becomes of it, and moves the next COUNT behind a
/// new one. `last` is Last_Submitted_PDCP_RX_SN. Nothing is verified on a DRB.
#[unsafe(no_mangle)]
pub extern "C" fn ltesec_drb_receive_am(
    context: &mut DrbContext,
    last: u32,
    direction: u32,
    pdu: &[u8],
    text: &mut [u8],
    found: &mut Found,
    fate: &mut u32,
) -> u32
    ensures status { result ≡ status_after (am_opens context.old direction pdu.now (am_found context.old last direction pdu.now (length text.old))) }
    ensures text { text.new ≡ text_after text.old (am_opens context.old direction pdu.now (am_found context.old last direction pdu.now (length text.old))) }
    ensures found { found.new ≡ found_after found.old (am_opens context.old direction pdu.now (am_found context.old last direction pdu.now (length text.old))) }
    ensures fate { fate.new ≡ fate_after fate.old (am_found context.old last direction pdu.now (length text.old)) }
    ensures moves { context.new ≡ am_after context.old (am_found context.old last direction pdu.now (length text.old)) }
{
    if !is_am(context, last, direction) {
        return Fault::OutOfRange.status();
    }
    let keys = keys_in(context);
    let length = pdu.len().saturating_sub(keys.numbers.header_octets());
    if text.len() < length {
        return Fault::NoRoom.status();
    }
    let (front, _) = text.split_at_mut(length);
    match open_am(&keys, last, context.receive, dir_of(direction), pdu, front) {
        Ok(taken) => {
            found.opens(0, taken.count, length, false);
            *fate = number_of(taken.fate);
            context.receive = next_after(context.receive, taken);
            DONE
        }
        Err(fault) => found.refuses(Fault::of_am(fault)),
    }
}

// Whether what a receiver needs is in range.
fn is_am(context: &DrbContext, last: u32, direction: u32) -> bool
    ensures { result ≡ is_am context.now last direction }
{
    is_drb(context)
        && context.bits != 7
        && last < numbers_by(context.bits).values()
        && is_direction(direction)
}

// A fate as C has it.
fn number_of(fate: AmFate) -> u32
    ensures { result ≡ number_of fate }
{
    match fate {
        AmFate::New => 0,
        AmFate::Late => 1,
        AmFate::Discarded => 2,
    }
}

// The next COUNT after a PDU.
fn next_after(next: u64, found: AmFound) -> u64
    ensures { result ≡ next_after next found }
{
    match found.fate {
        AmFate::New => u64::from(found.count) + 1,
        AmFate::Late | AmFate::Discarded => next,
    }
}
