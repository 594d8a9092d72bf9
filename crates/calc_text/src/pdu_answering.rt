// What the lines of PDUs of radio bearers, and of a phone's chain, give.
ghost use Rattle.std.specs.Prelude.{◌≡◌, ◌<◌, ◌≤◌, length, IfOk, OnErr};
ghost use Rattle.std.specs.String.{string_bytes};
ghost use Rattle.growth.specs.Growth.{WasRefused};
ghost use Rattle.pdu_guard.specs.Srb.{srb_pdu_opened};
ghost use Rattle.pdu_guard.specs.Drb.{drb_pdu_opened};
ghost use Rattle.calc_text.specs.Answer.{gives};
ghost use Rattle.calc_text.specs.PduAnswer.{srb_keys, drb_keys, srb_answer, srb_line, drb_answer, drb_line, way, reached_line, reach_line};
ghost use Rattle.calc_text.specs.declared.requests.Request.TheVariants.{SealSrb as SealSrbOf, SealDrb as SealDrbOf};

use crate::line_texts::{bad_header, mac_fails, opens, short, spent};
use crate::octet_texts::written;
use crate::requests::{Algorithms, BearerInputs, DrbOctets, SrbPdu, SrbText};
use alg_suite::GivenKey;
use annex_a_keys::{AlgType, Cell, Kenb};
use pdcp_guard::PdcpFault;
use pdu_guard::{
    DrbKeys, Numbers, Phone, SrbKeys, open_drb, open_srb, reach, seal_drb, seal_srb, srb_text,
};
use rec_base::Dir;
use std::alloc::{AllocError, Global};

// The keys of a signalling radio bearer.
pub(crate) fn srb_keys(kenb: &[u8; 32], algorithms: Algorithms, bearer: u8) -> SrbKeys
    ensures value { result ≡ srb_keys kenb.now algorithms bearer }
    ensures bearer { result.bearer ≡ bearer }
{
    let kenb = Kenb::of_octets(*kenb).keyed();
    let (enc, _) = kenb.alg(AlgType::RrcEnc, algorithms.eea.identity());
    let (int, _) = kenb.alg(AlgType::RrcInt, algorithms.eia.identity());
    SrbKeys {
        enc: GivenKey::from(enc),
        int: GivenKey::from(int),
        eea: algorithms.eea,
        eia: algorithms.eia,
        bearer,
    }
}

// The keys of a data radio bearer.
fn drb_keys(inputs: &BearerInputs, numbers: Numbers) -> DrbKeys
    ensures value { result ≡ drb_keys inputs.now numbers }
    ensures bearer { result.bearer ≡ inputs.now.bearer }
    ensures numbers { result.numbers ≡ numbers }
{
    let kenb = inputs.kenb;
    let (enc, _) = Kenb::of_octets(kenb).alg(AlgType::UpEnc, inputs.algorithms.eea.identity());
    DrbKeys {
        enc: GivenKey::from(enc),
        eea: inputs.algorithms.eea,
        bearer: inputs.bearer,
        numbers,
    }
}

// What a PDU of a signalling radio bearer opens to.
#[tactic(auto, unfolding(pdcp_guard::specs::Srb::srb_count))]
pub(crate) fn srb(alloc: Global, algorithms: Algorithms, s: &SrbPdu) -> Result<String, AllocError>
    requires bearer { s.now.bearer < 32 }
    requires few { length s.now.pdu ≤ 8193 }
    ensures line { IfOk result (λ line. string_bytes line ≡ srb_line algorithms s.now) }
    ensures refused { OnErr result WasRefused }
{
    let pdu = s.pdu.as_slice();
    if pdu.len() < 5 {
        return short(alloc);
    }
    let kenb = s.kenb;
    let keys = srb_keys(&kenb, algorithms, s.bearer);
    opened_srb(alloc, &keys, s.count, s.dir, pdu)
}

// What a PDU of a signalling radio bearer opens to that is not short.
fn opened_srb(
    alloc: Global,
    keys: &SrbKeys,
    next: u32,
    dir: Dir,
    pdu: &[u8],
) -> Result<String, AllocError>
    requires bearer { keys.now.bearer < 32 }
    requires long { 5 ≤ length pdu.now }
    requires few { length pdu.now ≤ 8193 }
    ensures line { IfOk result (λ line. string_bytes line ≡ srb_answer keys.now dir pdu.now (srb_pdu_opened keys.now next dir pdu.now)) }
    ensures refused { OnErr result WasRefused }
{
    let mut text = growth::from_elem(alloc, 0, pdu.len() - 5)?;
    match open_srb(keys, u64::from(next), dir, pdu, text.as_mut_slice()) {
        Ok(found) => opens(alloc, found.count, text.as_slice(), found.checked),
        Err(PdcpFault::Short) => short(alloc),
        Err(PdcpFault::BadHeader(octet)) => bad_header(alloc, octet),
        Err(PdcpFault::CountSpent) => spent(alloc),
        Err(PdcpFault::MacFails { count, wanted, got }) => {
            srb_text(keys, count, dir, pdu, text.as_mut_slice());
            mac_fails(alloc, count, &wanted, &got, text.as_slice())
        }
    }
}

// The PDU of a text of a signalling radio bearer.
pub(crate) fn sealed_srb(alloc: Global, s: &SrbText) -> Result<String, AllocError>
    requires { s.now.inputs.bearer < 32 }
    ensures line { IfOk result (λ line. string_bytes line ≡ gives (SealSrbOf s.now)) }
    ensures refused { OnErr result WasRefused }
{
    let kenb = s.inputs.kenb;
    let keys = srb_keys(&kenb, s.inputs.algorithms, s.inputs.bearer);
    let text = s.text.as_slice();
    let mut pdu = growth::from_elem(alloc, 0, text.len() + 5)?;
    seal_srb(
        &keys,
        s.inputs.count,
        s.inputs.dir,
        text,
        pdu.as_mut_slice(),
    );
    written(alloc, pdu.as_slice())
}

// What a PDU of a data radio bearer opens to.
pub(crate) fn drb(alloc: Global, d: &DrbOctets) -> Result<String, AllocError>
    requires { d.now.inputs.bearer < 32 }
    ensures line { IfOk result (λ line. string_bytes line ≡ drb_line (drb_keys d.now.inputs d.now.numbers) d.now.inputs.count d.now.inputs.dir d.now.octets) }
    ensures refused { OnErr result WasRefused }
{
    let keys = drb_keys(&d.inputs, d.numbers);
    opened_drb(
        alloc,
        &keys,
        d.inputs.count,
        d.inputs.dir,
        d.octets.as_slice(),
    )
}

fn opened_drb(
    alloc: Global,
    keys: &DrbKeys,
    next: u32,
    dir: Dir,
    pdu: &[u8],
) -> Result<String, AllocError>
    requires { keys.now.bearer < 32 }
    ensures line { IfOk result (λ line. string_bytes line ≡ drb_answer (drb_pdu_opened keys.now next dir pdu.now)) }
    ensures refused { OnErr result WasRefused }
{
    let size = pdu.len().saturating_sub(keys.numbers.header_octets());
    let mut text = growth::from_elem(alloc, 0, size)?;
    match open_drb(keys, u64::from(next), dir, pdu, text.as_mut_slice()) {
        Ok(count) => opens(alloc, count, text.as_slice(), true),
        Err(PdcpFault::Short) => short(alloc),
        Err(PdcpFault::BadHeader(octet)) => bad_header(alloc, octet),
        Err(PdcpFault::CountSpent) => spent(alloc),
        Err(PdcpFault::MacFails { count, wanted, got }) => mac_fails(
            alloc,
            count,
            &wanted,
            &got,
            &[],
        ),
    }
}

// The PDU of a text of a data radio bearer.
pub(crate) fn sealed_drb(alloc: Global, d: &DrbOctets) -> Result<String, AllocError>
    requires { d.now.inputs.bearer < 32 }
    ensures line { IfOk result (λ line. string_bytes line ≡ gives (SealDrbOf d.now)) }
    ensures refused { OnErr result WasRefused }
{
    let keys = drb_keys(&d.inputs, d.numbers);
    let text = d.octets.as_slice();
    let mut pdu = growth::from_elem(alloc, 0, keys.numbers.header_octets() + text.len())?;
    seal_drb(
        &keys,
        d.inputs.count,
        d.inputs.dir,
        text,
        pdu.as_mut_slice(),
    );
    written(alloc, pdu.as_slice())
}

// What a phone makes of a handover command.
#[tactic(auto, unfolding(crate::specs::PduAnswer::reached_line))]
pub(crate) fn reached(
    alloc: Global,
    phone: &Phone,
    ncc: u8,
    cell: &Cell,
) -> Result<String, AllocError>
    requires own { phone.now.ncc ≤ 7 }
    requires ncc { ncc ≤ 7 }
    ensures line { IfOk result (λ line. string_bytes line ≡ reach_line phone.now ncc cell.now) }
    ensures refused { OnErr result WasRefused }
{
    let reached = reach(phone, ncc, cell);
    let way = way(reached.steps);
    let steps = reached.steps;
    let sync = growth::encode(alloc, &reached.sync.octets())?;
    let star = growth::encode(alloc, &reached.star.octets())?;
    growth::format(alloc, format_args!("{way} {steps} {sync} {star}"))
}

fn way(steps: u8) -> &'static str
    ensures { result.now ≡ way steps }
{
    if steps == 0 { "horizontal" } else { "vertical" }
}
