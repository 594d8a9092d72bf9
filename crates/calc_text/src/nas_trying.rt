// What the lines of NAS messages give of which no algorithm is known.
ghost use Rattle.std.specs.Prelude.{◌≡◌, ◌≤◌, ◌<◌, IfOk, IfSome, OnErr, length};
ghost use Rattle.std.specs.Option.{option_map};
ghost use Rattle.std.specs.String.{string_bytes};
ghost use Rattle.growth.specs.Growth.{WasRefused};
ghost use Rattle.calc_text.specs.Trying.{ciphered_texts, count_by, count_given, named_text, nas_fit, nas_fit_by, nas_fit_line, nas_keys_by, nas_right_at, nas_tried, nas_trial_line, other, plain_text, service_counts, service_right_at, service_trial_line, text_by, texts_or_none, tried};

use crate::line_texts::{bad_header, short, spent};
use crate::nas_answering::{nas_int, nas_keys};
use crate::octet_texts::written;
use crate::requests::{Algorithms, NasPdu, ServicePdu};
use crate::trying::{Fit, is_nas, mistaken, no_algorithm, other};
use alg_suite::{Ciphering, GivenKey, Integrity, mac};
use nas_guard::OpenFault;
use pdu_guard::{
    NasKeys, ServiceFault, check_service_request, find_nas, find_service_request, nas_head,
    nas_text,
};
use rec_base::Dir;
use std::alloc::{AllocError, Global};

// Under which algorithms the MAC of a NAS message is right.
pub(crate) fn try_nas(alloc: Global, n: &NasPdu) -> Result<String, AllocError>
    requires { IfSome n.now.count (λ count. count < 0x1000000) }
    ensures line { IfOk result (λ line. string_bytes line ≡ nas_trial_line n.now) }
    ensures refused { OnErr result WasRefused }
{
    match nas_head(n.count.unwrap_or(0), n.pdu.as_slice()) {
        Ok(head) => {
            let count = count_given(n.count, head.count);
            either_way(alloc, n, head.header, count)
        }
        Err(OpenFault::Short) => short(alloc),
        Err(OpenFault::BadHeader(octet)) => bad_header(alloc, octet),
        Err(OpenFault::CountSpent) => spent(alloc),
        // No head has this fault.
        Err(OpenFault::MacFails { .. }) => no_algorithm(alloc),
    }
}

// A COUNT where one was given.
fn count_given(given: Option<u32>, count: u32) -> Option<u32>
    ensures { result ≡ count_given given count }
{
    match given {
        Some(_) => Some(count),
        None => None,
    }
}

// In the direction given, else in the other.
fn either_way(
    alloc: Global,
    n: &NasPdu,
    header: u8,
    count: Option<u32>,
) -> Result<String, AllocError>
    requires { 6 ≤ length n.now.pdu }
    ensures line { IfOk result (λ line. string_bytes line ≡ tried n.now.dir (nas_tried n.now header count n.now.dir) (nas_tried n.now header count (other n.now.dir))) }
    ensures refused { OnErr result WasRefused }
{
    if let Some(line) = tried(alloc, n, header, count, n.dir)? {
        return Ok(line);
    }
    let dir = other(n.dir);
    let line = tried(alloc, n, header, count, dir)?;
    mistaken(alloc, dir, line)
}

// In one direction.
fn tried(
    alloc: Global,
    n: &NasPdu,
    header: u8,
    count: Option<u32>,
    dir: Dir,
) -> Result<Option<String>, AllocError>
    requires { 6 ≤ length n.now.pdu }
    ensures line { IfOk result (λ line. option_map string_bytes line ≡ nas_tried n.now header count dir) }
    ensures refused { OnErr result WasRefused }
{
    match fit(n, count, dir) {
        Some(fit) => Ok(Some(fit_line(alloc, n, header, dir, fit)?)),
        None => Ok(None),
    }
}

// The first integrity algorithm under which the MAC is right.
fn fit(n: &NasPdu, count: Option<u32>, dir: Dir) -> Option<Fit>
    requires { 6 ≤ length n.now.pdu }
    ensures { result ≡ nas_fit n.now count dir }
{
    if let Some(fit) = fit_by(n, count, dir, Integrity::Eia1) {
        return Some(fit);
    }
    if let Some(fit) = fit_by(n, count, dir, Integrity::Eia2) {
        return Some(fit);
    }
    fit_by(n, count, dir, Integrity::Eia3)
}

fn fit_by(n: &NasPdu, count: Option<u32>, dir: Dir, eia: Integrity) -> Option<Fit>
    requires { 6 ≤ length n.now.pdu }
    ensures { result ≡ nas_fit_by n.now count dir eia }
{
    let keys = keys_by(n, Ciphering::Eea0, eia);
    match right_at(&keys, count, dir, n.pdu.as_slice()) {
        Some(count) => Some(Fit { eia, count }),
        None => None,
    }
}

fn keys_by(n: &NasPdu, eea: Ciphering, eia: Integrity) -> NasKeys
    ensures { result ≡ nas_keys_by n.now.kasme eea eia }
{
    let kasme = n.kasme;
    nas_keys(&kasme, Algorithms { eea, eia })
}

// The COUNT at which the MAC is right: this one, or the least of all.
fn right_at(keys: &NasKeys, count: Option<u32>, dir: Dir, pdu: &[u8]) -> Option<u32>
    requires { 6 ≤ length pdu.now }
    ensures { result ≡ nas_right_at keys.now count dir pdu.now }
{
    match count {
        Some(count) => {
            let wanted = mac(keys.eia, &keys.int, count, 0, dir, &pdu[5..]);
            if wanted.as_slice() == &pdu[1..5] {
                Some(count)
            } else {
                None
            }
        }
        None => find_nas(keys, dir, pdu),
    }
}

// A NAS message under the integrity algorithm found.
#[tactic(auto, unfolding(crate::specs::Trying::nas_fit_line))]
fn fit_line(alloc: Global, n: &NasPdu, header: u8, dir: Dir, fit: Fit) -> Result<String, AllocError>
    requires { 6 ≤ length n.now.pdu }
    ensures line { IfOk result (λ line. string_bytes line ≡ nas_fit_line n.now header dir fit) }
    ensures refused { OnErr result WasRefused }
{
    let texts = if header == 2 || header == 4 {
        ciphered_texts(alloc, n, header, dir, fit)?
    } else {
        plain_text(alloc, &n.pdu.as_slice()[6..])?
    };
    let count = fit.count;
    let eia = fit.eia.identity();
    growth::format(
        alloc,
        format_args!("opens {header} {count} eia{eia}{texts}"),
    )
}

// Its text by each encryption algorithm under which that is a NAS message.
#[tactic(auto, unfolding(crate::specs::Trying::ciphered_texts))]
fn ciphered_texts(
    alloc: Global,
    n: &NasPdu,
    header: u8,
    dir: Dir,
    fit: Fit,
) -> Result<String, AllocError>
    requires { 6 ≤ length n.now.pdu }
    ensures texts { IfOk result (λ texts. string_bytes texts ≡ ciphered_texts n.now header dir fit) }
    ensures refused { OnErr result WasRefused }
{
    let zero = text_by(alloc, n, header, dir, fit, Ciphering::Eea0)?;
    let one = text_by(alloc, n, header, dir, fit, Ciphering::Eea1)?;
    let two = text_by(alloc, n, header, dir, fit, Ciphering::Eea2)?;
    let three = text_by(alloc, n, header, dir, fit, Ciphering::Eea3)?;
    let texts = growth::format(alloc, format_args!("{zero}{one}{two}{three}"))?;
    texts_or_none(alloc, texts)
}

fn texts_or_none(alloc: Global, texts: String) -> Result<String, AllocError>
    ensures text { IfOk result (λ text. string_bytes text ≡ texts_or_none (string_bytes texts)) }
    ensures refused { OnErr result WasRefused }
{
    if texts.is_empty() {
        growth::from_str(alloc, " no NAS message")
    } else {
        Ok(texts)
    }
}

fn text_by(
    alloc: Global,
    n: &NasPdu,
    header: u8,
    dir: Dir,
    fit: Fit,
    eea: Ciphering,
) -> Result<String, AllocError>
    requires { 6 ≤ length n.now.pdu }
    ensures text { IfOk result (λ text. string_bytes text ≡ text_by n.now header dir fit eea) }
    ensures refused { OnErr result WasRefused }
{
    let pdu = n.pdu.as_slice();
    let keys = keys_by(n, eea, fit.eia);
    let mut text = growth::from_elem(alloc, 0, pdu.len() - 6)?;
    nas_text(&keys, header, fit.count, dir, pdu, text.as_mut_slice());
    named_text(alloc, eea, text.as_slice())
}

fn named_text(alloc: Global, eea: Ciphering, text: &[u8]) -> Result<String, AllocError>
    ensures text { IfOk result (λ t. string_bytes t ≡ named_text eea text.now) }
    ensures refused { OnErr result WasRefused }
{
    if !is_nas(text) {
        return Ok(String::new(alloc));
    }
    let identity = eea.identity();
    let text = growth::encode(alloc, text)?;
    growth::format(alloc, format_args!(" eea{identity} {text}"))
}

// A text that is not ciphered.
#[tactic(auto, unfolding(crate::specs::Trying::plain_text))]
fn plain_text(alloc: Global, text: &[u8]) -> Result<String, AllocError>
    ensures text { IfOk result (λ t. string_bytes t ≡ plain_text text.now) }
    ensures refused { OnErr result WasRefused }
{
    let note = if is_nas(text) { "" } else { " no NAS message" };
    let text = written(alloc, text)?;
    growth::format(alloc, format_args!(" {text}{note}"))
}

// Under which algorithms the short MAC of a Service Request is right.
pub(crate) fn try_service_request(alloc: Global, s: &ServicePdu) -> Result<String, AllocError>
    requires { IfSome s.now.count (λ count. count < 0x1000000) }
    ensures line { IfOk result (λ line. string_bytes line ≡ service_trial_line s.now) }
    ensures refused { OnErr result WasRefused }
{
    let (kasme, pdu) = (s.kasme, s.pdu);
    let int = nas_int(&kasme, Integrity::Eia1);
    match check_service_request(Integrity::Eia1, &int, s.count.unwrap_or(0), &pdu) {
        Err(ServiceFault::BadHeader(octet)) => bad_header(alloc, octet),
        Err(ServiceFault::CountSpent) => spent(alloc),
        Ok(_) | Err(ServiceFault::MacFails { .. }) => counts(alloc, s),
    }
}

#[tactic(auto, unfolding(crate::specs::Trying::service_counts))]
fn counts(alloc: Global, s: &ServicePdu) -> Result<String, AllocError>
    requires { IfSome s.now.count (λ count. count < 0x1000000) }
    ensures line { IfOk result (λ line. string_bytes line ≡ service_counts s.now) }
    ensures refused { OnErr result WasRefused }
{
    let one = count_by(alloc, s, Integrity::Eia1)?;
    let two = count_by(alloc, s, Integrity::Eia2)?;
    let three = count_by(alloc, s, Integrity::Eia3)?;
    let counts = growth::format(alloc, format_args!("{one}{two}{three}"))?;
    if counts.is_empty() {
        no_algorithm(alloc)
    } else {
        growth::format(alloc, format_args!("opens{counts}"))
    }
}

fn count_by(alloc: Global, s: &ServicePdu, eia: Integrity) -> Result<String, AllocError>
    requires { IfSome s.now.count (λ count. count < 0x1000000) }
    ensures text { IfOk result (λ text. string_bytes text ≡ count_by s.now eia) }
    ensures refused { OnErr result WasRefused }
{
    let (kasme, pdu) = (s.kasme, s.pdu);
    let int = nas_int(&kasme, eia);
    match service_right_at(eia, &int, s.count, &pdu) {
        Some(count) => {
            let identity = eia.identity();
            growth::format(alloc, format_args!(" {count} eia{identity}"))
        }
        None => Ok(String::new(alloc)),
    }
}

fn service_right_at(
    eia: Integrity,
    int: &GivenKey,
    count: Option<u32>,
    pdu: &[u8; 4],
) -> Option<u32>
    requires { IfSome count (λ count. count < 0x1000000) }
    ensures { result ≡ service_right_at eia int.now count pdu.now }
{
    match count {
        Some(next) => match check_service_request(eia, int, next, pdu) {
            Ok(found) => Some(found.count),
            Err(_) => None,
        },
        None => find_service_request(eia, int, pdu),
    }
}
