// What the lines of NAS messages give.
ghost use Rattle.std.specs.Prelude.{◌≡◌, ◌<◌, ◌≤◌, length, IfOk, IfSome, OnErr};
ghost use Rattle.std.specs.String.{string_bytes};
ghost use Rattle.growth.specs.Growth.{WasRefused};
ghost use Rattle.pdu_guard.specs.Nas.{nas_head_of, nas_opened};
ghost use Rattle.pdu_guard.specs.Search.{nas_search};
ghost use Rattle.pdu_guard.specs.ShortMacs.{service_checked};
ghost use Rattle.calc_text.specs.Answer.{IsRequest, gives};
ghost use Rattle.calc_text.specs.PduAnswer.{any_nas_answer, any_service_line, nas_answer, nas_at, nas_int, nas_keys, nas_line, service_answer, service_line};
ghost use Rattle.calc_text.specs.declared.requests.Request.TheVariants.{SealNas as SealNasOf};

use crate::line_texts::{
    bad_header, mac_fails, nas_opens, no_count, opens_at, short, short_mac_fails, spent,
};
use crate::octet_texts::written;
use crate::requests::{Algorithms, NasPdu, NasText, ServicePdu};
use alg_suite::{GivenKey, Integrity};
use annex_a_keys::{AlgType, Kasme};
use nas_guard::OpenFault;
use pdu_guard::{
    NasKeys, ServiceFault, check_service_request, find_nas, find_service_request, is_checked,
    nas_head, nas_text, open_nas, seal_nas,
};
use rec_base::Dir;
use std::alloc::{AllocError, Global};

// The key of NAS integrity.
pub(crate) fn nas_int(kasme: &[u8; 32], eia: Integrity) -> GivenKey
    ensures { result ≡ nas_int kasme.now eia }
{
    let (int, _) = Kasme::of_octets(*kasme).nas_alg(AlgType::NasInt, eia.identity());
    GivenKey::from(int)
}

// The keys of NAS.
pub(crate) fn nas_keys(kasme: &[u8; 32], algorithms: Algorithms) -> NasKeys
    ensures { result ≡ nas_keys kasme.now algorithms }
{
    let kasme = Kasme::of_octets(*kasme).keyed();
    let (enc, _) = kasme.nas_alg(AlgType::NasEnc, algorithms.eea.identity());
    let (int, _) = kasme.nas_alg(AlgType::NasInt, algorithms.eia.identity());
    NasKeys {
        enc: GivenKey::from(enc),
        int: GivenKey::from(int),
        eea: algorithms.eea,
        eia: algorithms.eia,
    }
}

// What a NAS message opens to, at a COUNT or at any.
pub(crate) fn nas(alloc: Global, algorithms: Algorithms, n: &NasPdu) -> Result<String, AllocError>
    requires { IfSome n.now.count (λ count. count < 0x1000000) }
    ensures line { IfOk result (λ line. string_bytes line ≡ nas_line algorithms n.now) }
    ensures refused { OnErr result WasRefused }
{
    let kasme = n.kasme;
    let keys = nas_keys(&kasme, algorithms);
    match n.count {
        Some(next) => opened_nas(alloc, &keys, next, n.dir, n.pdu.as_slice()),
        None => any_nas(alloc, &keys, n.dir, n.pdu.as_slice()),
    }
}

// What a NAS message opens to at a COUNT.
#[tactic(auto, unfolding(pdu_guard::specs::Nas::nas_head_of))]
fn opened_nas(
    alloc: Global,
    keys: &NasKeys,
    next: u32,
    dir: Dir,
    pdu: &[u8],
) -> Result<String, AllocError>
    requires { next < 0x1000000 }
    ensures line { IfOk result (λ line. string_bytes line ≡ nas_answer keys.now dir pdu.now (nas_opened keys.now next dir pdu.now)) }
    ensures refused { OnErr result WasRefused }
{
    if pdu.len() < 6 {
        return short(alloc);
    }
    let mut text = growth::from_elem(alloc, 0, pdu.len() - 6)?;
    match open_nas(keys, next, dir, pdu, text.as_mut_slice()) {
        Ok(found) => nas_opens(
            alloc,
            found.header,
            found.count,
            text.as_slice(),
            found.checked,
        ),
        Err(OpenFault::Short) => short(alloc),
        Err(OpenFault::BadHeader(octet)) => bad_header(alloc, octet),
        Err(OpenFault::CountSpent) => spent(alloc),
        Err(OpenFault::MacFails { count, wanted, got }) => {
            nas_text(keys, pdu[0] / 16, count, dir, pdu, text.as_mut_slice());
            mac_fails(alloc, count, &wanted, &got, text.as_slice())
        }
    }
}

// What a NAS message opens to at the least COUNT at which its MAC is right.
fn any_nas(alloc: Global, keys: &NasKeys, dir: Dir, pdu: &[u8]) -> Result<String, AllocError>
    ensures line { IfOk result (λ line. string_bytes line ≡ any_nas_answer keys.now dir pdu.now (nas_head_of 0 pdu.now)) }
    ensures refused { OnErr result WasRefused }
{
    match nas_head(0, pdu) {
        Ok(head) => found_nas(alloc, keys, head.header, dir, pdu),
        Err(OpenFault::Short) => short(alloc),
        Err(OpenFault::BadHeader(octet)) => bad_header(alloc, octet),
        Err(OpenFault::CountSpent) => spent(alloc),
        // No head has this fault.
        Err(OpenFault::MacFails { .. }) => spent(alloc),
    }
}

// What a NAS message of this header type opens to at the least COUNT at which its MAC is right.
fn found_nas(
    alloc: Global,
    keys: &NasKeys,
    header: u8,
    dir: Dir,
    pdu: &[u8],
) -> Result<String, AllocError>
    requires { 6 ≤ length pdu.now }
    ensures line { IfOk result (λ line. string_bytes line ≡ nas_at keys.now header dir pdu.now (nas_search keys.now dir pdu.now)) }
    ensures refused { OnErr result WasRefused }
{
    match find_nas(keys, dir, pdu) {
        Some(count) => {
            let mut text = growth::from_elem(alloc, 0, pdu.len() - 6)?;
            nas_text(keys, header, count, dir, pdu, text.as_mut_slice());
            nas_opens(alloc, header, count, text.as_slice(), is_checked(keys.eia))
        }
        None => no_count(alloc),
    }
}

// A NAS message, protected.
pub(crate) fn sealed_nas(alloc: Global, n: &NasText) -> Result<String, AllocError>
    requires { IsRequest (SealNasOf n.now) }
    ensures line { IfOk result (λ line. string_bytes line ≡ gives (SealNasOf n.now)) }
    ensures refused { OnErr result WasRefused }
{
    let kasme = n.kasme;
    let keys = nas_keys(&kasme, n.algorithms);
    let text = n.text.as_slice();
    let mut pdu = growth::from_elem(alloc, 0, text.len() + 6)?;
    seal_nas(&keys, n.header, n.count, n.dir, text, pdu.as_mut_slice());
    written(alloc, pdu.as_slice())
}

// Whether the short MAC of a Service Request is right, at a COUNT or at any.
pub(crate) fn service_request(
    alloc: Global,
    eia: Integrity,
    s: &ServicePdu,
) -> Result<String, AllocError>
    requires { IfSome s.now.count (λ count. count < 0x1000000) }
    ensures line { IfOk result (λ line. string_bytes line ≡ service_line eia s.now) }
    ensures refused { OnErr result WasRefused }
{
    let (kasme, pdu) = (s.kasme, s.pdu);
    let int = nas_int(&kasme, eia);
    match s.count {
        Some(next) => checked_service_request(alloc, eia, &int, next, &pdu),
        None => any_service_request(alloc, eia, &int, &pdu),
    }
}

// Whether the short MAC of a Service Request is right at a COUNT.
fn checked_service_request(
    alloc: Global,
    eia: Integrity,
    int: &GivenKey,
    next: u32,
    pdu: &[u8; 4],
) -> Result<String, AllocError>
    requires { next < 0x1000000 }
    ensures line { IfOk result (λ line. string_bytes line ≡ service_answer (service_checked eia int.now next pdu.now)) }
    ensures refused { OnErr result WasRefused }
{
    match check_service_request(eia, int, next, pdu) {
        Ok(found) => opens_at(alloc, found.count, found.checked),
        Err(ServiceFault::BadHeader(octet)) => bad_header(alloc, octet),
        Err(ServiceFault::CountSpent) => spent(alloc),
        Err(ServiceFault::MacFails { count, wanted, got }) => {
            short_mac_fails(alloc, count, &wanted, &got)
        }
    }
}

// The least COUNT at which the short MAC of a Service Request is right.
fn any_service_request(
    alloc: Global,
    eia: Integrity,
    int: &GivenKey,
    pdu: &[u8; 4],
) -> Result<String, AllocError>
    ensures line { IfOk result (λ line. string_bytes line ≡ any_service_line eia int.now pdu.now) }
    ensures refused { OnErr result WasRefused }
{
    if pdu[0] != 0xc7 {
        return bad_header(alloc, pdu[0]);
    }
    match find_service_request(eia, int, pdu) {
        Some(count) => opens_at(alloc, count, is_checked(eia)),
        None => no_count(alloc),
    }
}
