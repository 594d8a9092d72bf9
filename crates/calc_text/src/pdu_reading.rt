// The lines of PDUs, and of a phone's chain.
ghost use Rattle.std.specs.Prelude.{◌≡◌, ◌≤◌, ◌<◌, length, IfOk, IfSome};
ghost use Rattle.calc_text.specs.Answer.{IsRequest};
ghost use Rattle.calc_text.specs.Field.{Reads};
ghost use Rattle.calc_text.specs.PduReading.{nas_of, nas_text_of, seal_nas_of, service_pdu_of, service_of, reestablishment_of, bearer_inputs_of, drb_octets_of, srb_of, seal_srb_of, drb_of, seal_drb_of, reach_of, pdu_named};

use crate::fields::{Field, LineFault};
use crate::line_fields::Fields;
use crate::requests::{
    BearerInputs, DrbOctets, NasPdu, NasText, Reestablishment, Request, ServicePdu, SrbPdu, SrbText,
};
use annex_a_keys::{Kasme, Kenb, Nh};
use pdu_guard::Phone;

// A NAS message, whose algorithms are given or any.
#[tactic(auto, unfolding(crate::specs::PduReading::nas_of))]
fn nas(fields: &Fields) -> Result<Request, LineFault>
    ensures reads { Reads result (nas_of fields.now) }
    ensures fits { IfOk result IsRequest }
{
    fields.sized(5)?;
    let kasme = fields.key(0, Field::Kasme)?;
    let algorithms = fields.algorithms_or_any(1)?;
    let count = fields.count_or_any(2)?;
    let dir = fields.direction(3)?;
    let pdu = fields.octets(4, Field::Pdu)?;
    let taken = NasPdu {
        kasme,
        count,
        dir,
        pdu,
    };
    match algorithms {
        Some(algorithms) => Ok(Request::Nas(algorithms, taken)),
        None => Ok(Request::TryNas(taken)),
    }
}

// A NAS message to be protected.
#[tactic(auto, unfolding(crate::specs::PduReading::nas_text_of))]
fn nas_text(fields: &Fields) -> Result<NasText, LineFault>
    ensures reads { Reads result (nas_text_of fields.now) }
    ensures count { IfOk result (λ n. n.count < 0x1000000) }
    ensures above_plain { IfOk result (λ n. 1 ≤ n.header) }
    ensures at_most_four { IfOk result (λ n. n.header ≤ 4) }
{
    fields.sized(6)?;
    let kasme = fields.key(0, Field::Kasme)?;
    let algorithms = fields.algorithms(1)?;
    let count = fields.nas_count(2)?;
    let dir = fields.direction(3)?;
    let header = fields.number(4, 1, 4, Field::Type)?;
    let text = fields.octets(5, Field::Text)?;
    Ok(NasText {
        kasme,
        algorithms,
        count,
        dir,
        header: header as u8,
        text,
    })
}

fn seal_nas(fields: &Fields) -> Result<Request, LineFault>
    ensures reads { Reads result (seal_nas_of fields.now) }
    ensures fits { IfOk result IsRequest }
{
    Ok(Request::SealNas(nas_text(fields)?))
}

// A Service Request, at a COUNT or at any.
#[tactic(auto, unfolding(crate::specs::PduReading::service_pdu_of))]
fn service_pdu(fields: &Fields) -> Result<ServicePdu, LineFault>
    requires { 3 ≤ length fields.now }
    ensures reads { Reads result (service_pdu_of fields.now) }
    ensures count { IfOk result (λ s. IfSome s.count (λ n. n < 0x1000000)) }
{
    let kasme = fields.key(0, Field::Kasme)?;
    let count = fields.count_or_any(1)?;
    let pdu = fields.key(2, Field::Pdu)?;
    Ok(ServicePdu { kasme, count, pdu })
}

// The same under 128-EIA2, or under the algorithm of a fourth field, which may be any.
#[tactic(auto, unfolding(crate::specs::PduReading::service_of))]
fn service_request(fields: &Fields) -> Result<Request, LineFault>
    ensures reads { Reads result (service_of fields.now) }
    ensures fits { IfOk result IsRequest }
{
    fields.between(3, 4)?;
    let taken = service_pdu(fields)?;
    if fields.is_last_any(3) {
        return Ok(Request::TryServiceRequest(taken));
    }
    let eia = fields.last_eia(3)?;
    Ok(Request::ServiceRequest(eia, taken))
}

// A phone that re-establishes its connection.
#[tactic(auto, unfolding(crate::specs::PduReading::reestablishment_of))]
fn reestablishment(fields: &Fields) -> Result<Request, LineFault>
    ensures reads { Reads result (reestablishment_of fields.now) }
    ensures fits { IfOk result IsRequest }
{
    fields.sized(5)?;
    let kenb = fields.key(0, Field::Key)?;
    let eia = fields.eia(1)?;
    let cell_identity = fields.number(2, 0, 0xfff_ffff, Field::CellIdentity)?;
    let pci = fields.number(3, 0, 503, Field::Pci)?;
    let c_rnti = fields.number(4, 0, 0xffff, Field::CRnti)?;
    Ok(Request::ShortMacI(Reestablishment {
        kenb,
        eia,
        cell_identity,
        pci: pci as u16,
        c_rnti: c_rnti as u16,
    }))
}

// What protects a PDU of a radio bearer.
#[tactic(auto, unfolding(crate::specs::PduReading::bearer_inputs_of))]
fn bearer_inputs(fields: &Fields) -> Result<BearerInputs, LineFault>
    requires { 5 ≤ length fields.now }
    ensures reads { Reads result (bearer_inputs_of fields.now) }
    ensures bearer { IfOk result (λ inputs. inputs.bearer < 32) }
{
    let kenb = fields.key(0, Field::Key)?;
    let algorithms = fields.algorithms(1)?;
    let count = fields.number(2, 0, 0xffff_ffff, Field::Count)?;
    let bearer = fields.number(3, 0, 31, Field::Bearer)?;
    let dir = fields.direction(4)?;
    Ok(BearerInputs {
        kenb,
        algorithms,
        count,
        bearer: bearer as u8,
        dir,
    })
}

// Octets of a data radio bearer.
#[tactic(auto, unfolding(crate::specs::PduReading::drb_octets_of))]
fn drb_octets(fields: &Fields, field: Field) -> Result<DrbOctets, LineFault>
    ensures reads { Reads result (drb_octets_of field fields.now) }
    ensures bearer { IfOk result (λ d. d.inputs.bearer < 32) }
{
    fields.sized(7)?;
    let inputs = bearer_inputs(fields)?;
    let numbers = fields.numbers(5)?;
    let octets = fields.octets(6, field)?;
    Ok(DrbOctets {
        inputs,
        numbers,
        octets,
    })
}

// A PDU of a signalling radio bearer, whose algorithms are given or any.
#[tactic(auto, unfolding(crate::specs::PduReading::srb_of))]
fn srb(fields: &Fields) -> Result<Request, LineFault>
    ensures reads { Reads result (srb_of fields.now) }
    ensures fits { IfOk result IsRequest }
{
    fields.sized(6)?;
    let kenb = fields.key(0, Field::Key)?;
    let algorithms = fields.algorithms_or_any(1)?;
    let count = fields.number(2, 0, 0xffff_ffff, Field::Count)?;
    let bearer = fields.number(3, 0, 31, Field::Bearer)?;
    let dir = fields.direction(4)?;
    let pdu = fields.few_octets(5, 8193, Field::Pdu)?;
    let taken = SrbPdu {
        kenb,
        count,
        bearer: bearer as u8,
        dir,
        pdu,
    };
    match algorithms {
        Some(algorithms) => Ok(Request::Srb(algorithms, taken)),
        None => Ok(Request::TrySrb(taken)),
    }
}

// A text of a signalling radio bearer.
#[tactic(auto, unfolding(crate::specs::PduReading::seal_srb_of))]
fn seal_srb(fields: &Fields) -> Result<Request, LineFault>
    ensures reads { Reads result (seal_srb_of fields.now) }
    ensures fits { IfOk result IsRequest }
{
    fields.sized(6)?;
    let inputs = bearer_inputs(fields)?;
    let text = fields.few_octets(5, 8188, Field::Text)?;
    Ok(Request::SealSrb(SrbText { inputs, text }))
}

fn drb(fields: &Fields) -> Result<Request, LineFault>
    ensures reads { Reads result (drb_of fields.now) }
    ensures fits { IfOk result IsRequest }
{
    Ok(Request::Drb(drb_octets(fields, Field::Pdu)?))
}

fn seal_drb(fields: &Fields) -> Result<Request, LineFault>
    ensures reads { Reads result (seal_drb_of fields.now) }
    ensures fits { IfOk result IsRequest }
{
    Ok(Request::SealDrb(drb_octets(fields, Field::Text)?))
}

// A phone and its chain, and a handover command.
#[tactic(auto, unfolding(crate::specs::PduReading::reach_of))]
fn reach(fields: &Fields) -> Result<Request, LineFault>
    ensures reads { Reads result (reach_of fields.now) }
    ensures fits { IfOk result IsRequest }
{
    fields.sized(7)?;
    let root = fields.key(0, Field::Kasme)?;
    let active = fields.key(1, Field::Key)?;
    let own = fields.number(2, 0, 7, Field::NccInUse)?;
    let sync = fields.key(3, Field::Sync)?;
    let ncc = fields.number(4, 0, 7, Field::Ncc)?;
    let cell = fields.cell(5, 6)?;
    let phone = Phone {
        root: Kasme::of_octets(root),
        active: Kenb::of_octets(active),
        sync: Nh::of_octets(sync),
        ncc: own as u8,
    };
    Ok(Request::Reach {
        phone,
        ncc: ncc as u8,
        cell,
    })
}

// The line of this first word.
#[tactic(auto, unfolding(crate::specs::PduReading::pdu_named))]
pub(crate) fn pdu_named(name: &[u8], fields: &Fields) -> Result<Request, LineFault>
    ensures reads { Reads result (pdu_named name.now fields.now) }
    ensures fits { IfOk result IsRequest }
{
    match name {
        _ if name == b"nas".as_slice() => nas(fields),
        _ if name == b"seal-nas".as_slice() => seal_nas(fields),
        _ if name == b"service-request".as_slice() => service_request(fields),
        _ if name == b"short-mac-i".as_slice() => reestablishment(fields),
        _ if name == b"srb".as_slice() => srb(fields),
        _ if name == b"seal-srb".as_slice() => seal_srb(fields),
        _ if name == b"drb".as_slice() => drb(fields),
        _ if name == b"seal-drb".as_slice() => seal_drb(fields),
        _ if name == b"reach".as_slice() => reach(fields),
        _ => Err(LineFault::Bad(Field::Word)),
    }
}
