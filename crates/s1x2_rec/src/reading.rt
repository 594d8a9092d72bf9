// Reading a record of S1 or X2.
ghost use Rattle.std.specs.Prelude.{◌≡◌};
ghost use Rattle.s1x2_rec.specs.Reading.{read_record};

use crate::CoreRecord;
use crate::reading_s1::{
    context_modification, context_release, handover_cancel, handover_command, handover_notify,
    handover_request, handover_request_ack, handover_required, initial_context, path_switch_answer,
    path_switch_request,
};
use crate::reading_x2::{x2_ack, x2_cancel, x2_release, x2_request};
use rec_base::{RecFault, u8_at};

// The record that the octets spell, or the first fault.
#[tactic(auto, unfolding(crate::specs::Reading::read_record, rec_fields::specs::Form::read_as))]
pub(crate) fn record_of(octets: &[u8]) -> Result<CoreRecord, RecFault>
    ensures { result ≡ read_record octets.now }
{
    if octets.is_empty() {
        return Err(RecFault::Short);
    }
    match u8_at(octets, 0) {
        0x20 => initial_context(octets),
        0x21 => context_release(octets),
        0x22 => path_switch_request(octets),
        0x23 => path_switch_answer(octets),
        0x24 => handover_required(octets),
        0x25 => handover_request(octets),
        0x26 => handover_request_ack(octets),
        0x27 => handover_command(octets),
        0x28 => handover_notify(octets),
        0x29 => handover_cancel(octets),
        0x30 => x2_request(octets),
        0x31 => x2_ack(octets),
        0x32 => x2_cancel(octets),
        0x33 => x2_release(octets),
        0x34 => context_modification(octets),
        _ => Err(RecFault::BadKind),
    }
}
