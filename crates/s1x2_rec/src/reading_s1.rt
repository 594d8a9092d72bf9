// Reading the records between station and core, by kind.
ghost use Rattle.std.specs.Prelude.{◌≡◌};
ghost use Rattle.rec_fields.specs.Form.{record_by};
ghost use Rattle.s1x2_rec.specs.Forms.{initial_context, context_release, path_switch_request, path_switch_answer, handover_required, handover_request, handover_request_ack, handover_command, handover_notify, handover_cancel, context_modification};

use crate::CoreRecord;
use annex_a_keys::{Kenb, Nh};
use rec_base::{RecFault, key_at};
use rec_fields::{algs_at, caps_at, cell_at, from_one_at, ncc_at, sized, station_at};

#[tactic(auto, unfolding(rec_fields::specs::Form::read_as))]
pub(crate) fn initial_context(octets: &[u8]) -> Result<CoreRecord, RecFault>
    ensures { result ≡ record_by initial_context octets.now }
{
    sized(octets, 45)?;
    let conn = from_one_at(octets, 1)?;
    let cell = cell_at(octets, 5)?;
    let caps = caps_at(octets, 11);
    let kenb = Kenb::of_octets(key_at(octets, 13));
    Ok(CoreRecord::InitialContext {
        conn,
        cell,
        caps,
        kenb,
    })
}

#[tactic(auto, unfolding(rec_fields::specs::Form::read_as))]
pub(crate) fn context_release(octets: &[u8]) -> Result<CoreRecord, RecFault>
    ensures { result ≡ record_by context_release octets.now }
{
    sized(octets, 5)?;
    let conn = from_one_at(octets, 1)?;
    Ok(CoreRecord::ContextRelease { conn })
}

#[tactic(auto, unfolding(rec_fields::specs::Form::read_as))]
pub(crate) fn path_switch_request(octets: &[u8]) -> Result<CoreRecord, RecFault>
    ensures { result ≡ record_by path_switch_request octets.now }
{
    sized(octets, 18)?;
    let conn = from_one_at(octets, 1)?;
    let station = station_at(octets, 5)?;
    let number = from_one_at(octets, 6)?;
    let cell = cell_at(octets, 10)?;
    let caps = caps_at(octets, 16);
    Ok(CoreRecord::PathSwitchRequest {
        conn,
        station,
        number,
        cell,
        caps,
    })
}

#[tactic(auto, unfolding(rec_fields::specs::Form::read_as))]
pub(crate) fn path_switch_answer(octets: &[u8]) -> Result<CoreRecord, RecFault>
    ensures { result ≡ record_by path_switch_answer octets.now }
{
    sized(octets, 42)?;
    let conn = from_one_at(octets, 1)?;
    let number = from_one_at(octets, 5)?;
    let ncc = ncc_at(octets, 9)?;
    let nh = Nh::of_octets(key_at(octets, 10));
    Ok(CoreRecord::PathSwitchAnswer {
        conn,
        number,
        ncc,
        nh,
    })
}

#[tactic(auto, unfolding(rec_fields::specs::Form::read_as))]
pub(crate) fn handover_required(octets: &[u8]) -> Result<CoreRecord, RecFault>
    ensures { result ≡ record_by handover_required octets.now }
{
    sized(octets, 16)?;
    let conn = from_one_at(octets, 1)?;
    let station = station_at(octets, 5)?;
    let attempt = from_one_at(octets, 6)?;
    let cell = cell_at(octets, 10)?;
    Ok(CoreRecord::HandoverRequired {
        conn,
        station,
        attempt,
        cell,
    })
}

#[tactic(auto, unfolding(rec_fields::specs::Form::read_as))]
pub(crate) fn handover_request(octets: &[u8]) -> Result<CoreRecord, RecFault>
    ensures { result ≡ record_by handover_request octets.now }
{
    sized(octets, 51)?;
    let conn = from_one_at(octets, 1)?;
    let source = station_at(octets, 5)?;
    let attempt = from_one_at(octets, 6)?;
    let cell = cell_at(octets, 10)?;
    let caps = caps_at(octets, 16);
    let ncc = ncc_at(octets, 18)?;
    let nh = Nh::of_octets(key_at(octets, 19));
    Ok(CoreRecord::HandoverRequest {
        conn,
        source,
        attempt,
        cell,
        caps,
        ncc,
        nh,
    })
}

#[tactic(auto, unfolding(rec_fields::specs::Form::read_as))]
pub(crate) fn handover_request_ack(octets: &[u8]) -> Result<CoreRecord, RecFault>
    ensures { result ≡ record_by handover_request_ack octets.now }
{
    sized(octets, 22)?;
    let conn = from_one_at(octets, 1)?;
    let source = station_at(octets, 5)?;
    let attempt = from_one_at(octets, 6)?;
    let cell = cell_at(octets, 10)?;
    let ncc = ncc_at(octets, 16)?;
    let algs = algs_at(octets, 17)?;
    let air = from_one_at(octets, 18)?;
    Ok(CoreRecord::HandoverRequestAck {
        conn,
        source,
        attempt,
        cell,
        ncc,
        algs,
        air,
    })
}

#[tactic(auto, unfolding(rec_fields::specs::Form::read_as))]
pub(crate) fn handover_command(octets: &[u8]) -> Result<CoreRecord, RecFault>
    ensures { result ≡ record_by handover_command octets.now }
{
    sized(octets, 21)?;
    let conn = from_one_at(octets, 1)?;
    let attempt = from_one_at(octets, 5)?;
    let cell = cell_at(octets, 9)?;
    let ncc = ncc_at(octets, 15)?;
    let algs = algs_at(octets, 16)?;
    let air = from_one_at(octets, 17)?;
    Ok(CoreRecord::HandoverCommand {
        conn,
        attempt,
        cell,
        ncc,
        algs,
        air,
    })
}

#[tactic(auto, unfolding(rec_fields::specs::Form::read_as))]
pub(crate) fn handover_notify(octets: &[u8]) -> Result<CoreRecord, RecFault>
    ensures { result ≡ record_by handover_notify octets.now }
{
    sized(octets, 12)?;
    let conn = from_one_at(octets, 1)?;
    let station = station_at(octets, 5)?;
    let cell = cell_at(octets, 6)?;
    Ok(CoreRecord::HandoverNotify {
        conn,
        station,
        cell,
    })
}

#[tactic(auto, unfolding(rec_fields::specs::Form::read_as))]
pub(crate) fn handover_cancel(octets: &[u8]) -> Result<CoreRecord, RecFault>
    ensures { result ≡ record_by handover_cancel octets.now }
{
    sized(octets, 16)?;
    let conn = from_one_at(octets, 1)?;
    let source = station_at(octets, 5)?;
    let attempt = from_one_at(octets, 6)?;
    let cell = cell_at(octets, 10)?;
    Ok(CoreRecord::HandoverCancel {
        conn,
        source,
        attempt,
        cell,
    })
}

#[tactic(auto, unfolding(rec_fields::specs::Form::read_as))]
pub(crate) fn context_modification(octets: &[u8]) -> Result<CoreRecord, RecFault>
    ensures { result ≡ record_by context_modification octets.now }
{
    sized(octets, 41)?;
    let conn = from_one_at(octets, 1)?;
    let next = from_one_at(octets, 5)?;
    let kenb = Kenb::of_octets(key_at(octets, 9));
    Ok(CoreRecord::ContextModification { conn, next, kenb })
}
