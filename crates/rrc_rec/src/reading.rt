// Reading an RRC text.
ghost use Rattle.std.specs.Prelude.{◌≡◌, ◌<◌, [], length};
ghost use Rattle.rec_fields.specs.Form.{Of, read_as, record_by};
ghost use Rattle.rrc_rec.specs.Forms.{command, reconfiguration, any_text, key_change};
ghost use Rattle.rrc_rec.specs.Reading.{read_rrc};

use crate::RrcRecord;
use rec_base::{RecFault, u8_at};
use rec_fields::{algs_at, cell_at, from_one_at, ncc_at, sized, station_at, text_of};

// The record that the octets spell, or the first fault.
#[tactic(auto, unfolding(crate::specs::Reading::read_rrc, rec_fields::specs::Form::read_as))]
pub(crate) fn record_of(octets: &[u8]) -> Result<RrcRecord, RecFault>
    ensures { result ≡ read_rrc octets.now }
{
    if octets.is_empty() {
        return Err(RecFault::Short);
    }
    match u8_at(octets, 0) {
        0x01 => command(octets),
        0x02 => without_fields(octets, RrcRecord::SecurityModeComplete),
        0x03 => reconfiguration(octets),
        0x04 => without_fields(octets, RrcRecord::ReconfigurationComplete),
        0x05 => data(octets),
        0x06 => key_change(octets),
        _ => Err(RecFault::BadKind),
    }
}

#[tactic(auto, unfolding(rec_fields::specs::Form::read_as))]
fn command(octets: &[u8]) -> Result<RrcRecord, RecFault>
    ensures { result ≡ record_by command octets.now }
{
    sized(octets, 7)?;
    let algs = algs_at(octets, 1)?;
    let station = station_at(octets, 2)?;
    let air = from_one_at(octets, 3)?;
    Ok(RrcRecord::SecurityModeCommand { algs, station, air })
}

#[tactic(auto, unfolding(rec_fields::specs::Form::read_as))]
fn reconfiguration(octets: &[u8]) -> Result<RrcRecord, RecFault>
    ensures { result ≡ record_by reconfiguration octets.now }
{
    sized(octets, 14)?;
    let cell = cell_at(octets, 1)?;
    let ncc = ncc_at(octets, 7)?;
    let algs = algs_at(octets, 8)?;
    let station = station_at(octets, 9)?;
    let air = from_one_at(octets, 10)?;
    Ok(RrcRecord::Reconfiguration {
        cell,
        ncc,
        algs,
        station,
        air,
    })
}

#[tactic(auto, unfolding(rec_fields::specs::Form::read_as))]
fn without_fields(octets: &[u8], fixed: RrcRecord) -> Result<RrcRecord, RecFault>
    ensures { result ≡ read_as (Of []) (λ none. fixed) octets.now }
{
    sized(octets, 1)?;
    Ok(fixed)
}

#[tactic(auto, unfolding(rec_fields::specs::Form::read_as))]
fn data(octets: &[u8]) -> Result<RrcRecord, RecFault>
    requires { 0 < length octets.now }
    ensures { result ≡ record_by any_text octets.now }
{
    let text = text_of(octets)?;
    Ok(RrcRecord::RrcData(text))
}

#[tactic(auto, unfolding(rec_fields::specs::Form::read_as))]
fn key_change(octets: &[u8]) -> Result<RrcRecord, RecFault>
    ensures { result ≡ record_by key_change octets.now }
{
    sized(octets, 13)?;
    let cell = cell_at(octets, 1)?;
    let algs = algs_at(octets, 7)?;
    let station = station_at(octets, 8)?;
    let air = from_one_at(octets, 9)?;
    Ok(RrcRecord::KeyChange {
        cell,
        algs,
        station,
        air,
    })
}
