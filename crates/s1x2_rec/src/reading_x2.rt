// Reading the records between two stations, by kind.
ghost use Rattle.std.specs.Prelude.{◌≡◌};
ghost use Rattle.rec_fields.specs.Form.{record_by};
ghost use Rattle.s1x2_rec.specs.Forms.{x2_request, x2_ack, x2_cancel, x2_release};

use crate::CoreRecord;
use annex_a_keys::Star;
use rec_base::{RecFault, key_at};
use rec_fields::{algs_at, caps_at, cell_at, from_one_at, ncc_at, sized, station_at};

#[tactic(auto, unfolding(rec_fields::specs::Form::read_as))]
pub(crate) fn x2_request(octets: &[u8]) -> Result<CoreRecord, RecFault>
    ensures { result ≡ record_by x2_request octets.now }
{
    sized(octets, 51)?;
    let conn = from_one_at(octets, 1)?;
    let source = station_at(octets, 5)?;
    let attempt = from_one_at(octets, 6)?;
    let cell = cell_at(octets, 10)?;
    let caps = caps_at(octets, 16);
    let ncc = ncc_at(octets, 18)?;
    let star = Star::of_octets(key_at(octets, 19));
    Ok(CoreRecord::X2Request {
        conn,
        source,
        attempt,
        cell,
        caps,
        ncc,
        star,
    })
}

#[tactic(auto, unfolding(rec_fields::specs::Form::read_as))]
pub(crate) fn x2_ack(octets: &[u8]) -> Result<CoreRecord, RecFault>
    ensures { result ≡ record_by x2_ack octets.now }
{
    sized(octets, 20)?;
    let conn = from_one_at(octets, 1)?;
    let attempt = from_one_at(octets, 5)?;
    let cell = cell_at(octets, 9)?;
    let algs = algs_at(octets, 15)?;
    let air = from_one_at(octets, 16)?;
    Ok(CoreRecord::X2Ack {
        conn,
        attempt,
        cell,
        algs,
        air,
    })
}

#[tactic(auto, unfolding(rec_fields::specs::Form::read_as))]
pub(crate) fn x2_cancel(octets: &[u8]) -> Result<CoreRecord, RecFault>
    ensures { result ≡ record_by x2_cancel octets.now }
{
    sized(octets, 10)?;
    let conn = from_one_at(octets, 1)?;
    let source = station_at(octets, 5)?;
    let attempt = from_one_at(octets, 6)?;
    Ok(CoreRecord::X2Cancel {
        conn,
        source,
        attempt,
    })
}

#[tactic(auto, unfolding(rec_fields::specs::Form::read_as))]
pub(crate) fn x2_release(octets: &[u8]) -> Result<CoreRecord, RecFault>
    ensures { result ≡ record_by x2_release octets.now }
{
    sized(octets, 9)?;
    let conn = from_one_at(octets, 1)?;
    let attempt = from_one_at(octets, 5)?;
    Ok(CoreRecord::X2Release { conn, attempt })
}
