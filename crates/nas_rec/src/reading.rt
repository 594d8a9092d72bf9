// Reading a NAS text.
ghost use Rattle.std.specs.Prelude.{◌≡◌, ◌<◌, [], length};
ghost use Rattle.rec_fields.specs.Form.{Of, read_as, record_by};
ghost use Rattle.nas_rec.specs.Forms.{command, reject, any_text};
ghost use Rattle.nas_rec.specs.Reading.{read_nas};

use crate::NasRecord;
use rec_base::{RecFault, u8_at};
use rec_fields::{algs_at, caps_at, octet_in, sized, text_of};

// The record that the octets spell, or the first fault.
#[tactic(auto, unfolding(crate::specs::Reading::read_nas, rec_fields::specs::Form::read_as))]
pub(crate) fn record_of(octets: &[u8]) -> Result<NasRecord, RecFault>
    ensures { result ≡ read_nas octets.now }
{
    if octets.is_empty() {
        return Err(RecFault::Short);
    }
    match u8_at(octets, 0) {
        0x01 => command(octets),
        0x02 => without_fields(octets, NasRecord::SecurityModeComplete),
        0x03 => reject(octets),
        0x04 => without_fields(octets, NasRecord::ServiceRequest),
        0x05 => data(octets),
        _ => Err(RecFault::BadKind),
    }
}

#[tactic(auto, unfolding(rec_fields::specs::Form::read_as))]
fn command(octets: &[u8]) -> Result<NasRecord, RecFault>
    ensures { result ≡ record_by command octets.now }
{
    sized(octets, 5)?;
    let ksi = octet_in(octets, 1, 0, 6)?;
    let algs = algs_at(octets, 2)?;
    let caps = caps_at(octets, 3);
    Ok(NasRecord::SecurityModeCommand { ksi, algs, caps })
}

#[tactic(auto, unfolding(rec_fields::specs::Form::read_as))]
fn reject(octets: &[u8]) -> Result<NasRecord, RecFault>
    ensures { result ≡ record_by reject octets.now }
{
    sized(octets, 2)?;
    let cause = octet_in(octets, 1, 23, 24)?;
    Ok(NasRecord::SecurityModeReject { cause })
}

#[tactic(auto, unfolding(rec_fields::specs::Form::read_as))]
fn without_fields(octets: &[u8], fixed: NasRecord) -> Result<NasRecord, RecFault>
    ensures { result ≡ read_as (Of []) (λ none. fixed) octets.now }
{
    sized(octets, 1)?;
    Ok(fixed)
}

#[tactic(auto, unfolding(rec_fields::specs::Form::read_as))]
fn data(octets: &[u8]) -> Result<NasRecord, RecFault>
    requires { 0 < length octets.now }
    ensures { result ≡ record_by any_text octets.now }
{
    let text = text_of(octets)?;
    Ok(NasRecord::NasData(text))
}
