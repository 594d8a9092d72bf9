ghost use Rattle.std.specs.Prelude.{◌≡◌, ◌<◌, IfOk, OnErr};
ghost use Rattle.std.specs.String.{string_bytes};
ghost use Rattle.growth.specs.Growth.{WasRefused};
ghost use Rattle.calc_text.specs.Ciphering.{enciphered, mac_under};
ghost use Rattle.calc_text.specs.Answer.{IsRequest, gives, bad_text, line, is_silent, answer_to};
ghost use Rattle.calc_text.specs.PduAnswer.{written};

use crate::ciphering::mac_under;
use crate::fields::{Field, LineFault};
use crate::nas_answering::{nas, sealed_nas, service_request};
use crate::nas_trying::{try_nas, try_service_request};
use crate::octet_texts::written;
use crate::pdu_answering::{drb, reached, sealed_drb, sealed_srb, srb};
use crate::recovering::recovered;
use crate::requests::{KeyedText, Request};
use crate::srb_trying::try_srb;
use alg_suite::{Ciphering, Integrity};
use annex_a_keys::{Kasme, Kenb, Nh};
use hmac_kdf::{KdfInput, kdf};
use kasme_kdf::kasme;
use std::alloc::{AllocError, Global};

/// The answer to a line.
#[derive(Drop)]
pub struct Answer {
    /// What is written for it: a line, or nothing for a line that says nothing.
    pub text: String,
    /// Whether it is a good line.
    pub good: bool,
}

/// The answer to a line, which has no line feed. The one error is want of memory.
#[tactic(auto, unfolding(crate::specs::Answer::answer_to))]
pub fn answer_to(alloc: Global, line: &[u8]) -> Result<Answer, AllocError>
    ensures text { IfOk result (λ answer. string_bytes answer.text ≡ (answer_to line.now).text) }
    ensures good { IfOk result (λ answer. answer.good ≡ (answer_to line.now).good) }
    ensures refused { OnErr result WasRefused }
{
    if is_silent(line) {
        return Ok(Answer {
            text: String::new(alloc),
            good: true,
        });
    }
    match Request::read(alloc, line) {
        Ok(request) => Ok(Answer {
            text: line_of(alloc, given(alloc, request)?)?,
            good: true,
        }),
        Err(LineFault::Bad(field)) => Ok(Answer {
            text: line_of(alloc, refusal(alloc, field)?)?,
            good: false,
        }),
        Err(LineFault::Memory) => Err(AllocError),
    }
}

// A line of the output.
fn line_of(alloc: Global, text: String) -> Result<String, AllocError>
    ensures text { IfOk result (λ t. string_bytes t ≡ line (string_bytes text)) }
    ensures refused { OnErr result WasRefused }
{
    growth::format(alloc, format_args!("{text}\n"))
}

// Whether a line says nothing.
fn is_silent(line: &[u8]) -> bool
    ensures { result ≡ is_silent line.now }
{
    match line {
        [] => true,
        [first, ..] => *first == b'#',
    }
}

// What a request gives.
fn given(alloc: Global, request: Request) -> Result<String, AllocError>
    requires { IsRequest request }
    ensures line { IfOk result (λ text. string_bytes text ≡ gives request) }
    ensures refused { OnErr result WasRefused }
{
    match request {
        Request::Kasme(k) => written(alloc, &kasme(&k.ck, &k.ik, &k.plmn, &k.sqn_xor_ak)),
        Request::Kenb { kasme, count } => {
            written(alloc, &Kasme::of_octets(kasme).kenb(count).0.octets())
        }
        Request::Nh { kasme, sync } => {
            written(
                alloc,
                &Kasme::of_octets(kasme)
                    .nh_next(&Nh::of_octets(sync))
                    .0
                    .octets(),
            )
        }
        Request::Star { key, cell } => {
            written(alloc, &Kenb::of_octets(key).star(&cell).0.octets())
        }
        Request::Alg { key, alg } => written(alloc, &kdf(&key, &KdfInput::Alg(alg.kind, alg.id))),
        Request::Cipher(eea, taken) => ciphered(alloc, eea, taken),
        Request::Mac(eia, taken) => mac(alloc, eia, &taken),
        Request::Nas(algorithms, n) => nas(alloc, algorithms, &n),
        Request::TryNas(n) => try_nas(alloc, &n),
        Request::SealNas(n) => sealed_nas(alloc, &n),
        Request::ServiceRequest(eia, s) => service_request(alloc, eia, &s),
        Request::TryServiceRequest(s) => try_service_request(alloc, &s),
        Request::ShortMacI(r) => recovered(alloc, &r),
        Request::Srb(algorithms, s) => srb(alloc, algorithms, &s),
        Request::TrySrb(s) => try_srb(alloc, &s),
        Request::SealSrb(s) => sealed_srb(alloc, &s),
        Request::Drb(d) => drb(alloc, &d),
        Request::SealDrb(d) => sealed_drb(alloc, &d),
        Request::Reach { phone, ncc, cell } => reached(alloc, &phone, ncc, &cell),
    }
}

// A text enciphered or deciphered.
fn ciphered(alloc: Global, eea: Ciphering, taken: KeyedText) -> Result<String, AllocError>
    requires { taken.inputs.bearer < 32 }
    ensures line { IfOk result (λ line. string_bytes line ≡ written (enciphered eea taken.inputs taken.text)) }
    ensures refused { OnErr result WasRefused }
{
    let KeyedText { inputs, mut text } = taken;
    text.cipher(eea, &inputs);
    written(alloc, text.as_slice())
}

// The MAC of a text.
fn mac(alloc: Global, eia: Integrity, taken: &KeyedText) -> Result<String, AllocError>
    requires { taken.now.inputs.bearer < 32 }
    ensures line { IfOk result (λ line. string_bytes line ≡ written (mac_under eia taken.now.inputs taken.now.text)) }
    ensures refused { OnErr result WasRefused }
{
    let mac = mac_under(eia, &taken.inputs, taken.text.as_slice());
    written(alloc, &mac)
}

// What is bad in a line.
#[tactic(auto, unfolding(crate::specs::Answer::bad_text))]
fn refusal(alloc: Global, field: Field) -> Result<String, AllocError>
    ensures line { IfOk result (λ text. string_bytes text ≡ bad_text field) }
    ensures refused { OnErr result WasRefused }
{
    let name = field.name();
    growth::format(alloc, format_args!("bad {name}"))
}
