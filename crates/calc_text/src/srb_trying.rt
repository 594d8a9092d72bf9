// What the line of a PDU of a signalling radio bearer gives of which no algorithm is known.
ghost use Rattle.std.specs.Prelude.{◌≡◌, ◌≤◌, ◌<◌, IfOk, OnErr, length};
ghost use Rattle.std.specs.Option.{option_map};
ghost use Rattle.std.specs.String.{string_bytes};
ghost use Rattle.growth.specs.Growth.{WasRefused};
ghost use Rattle.calc_text.specs.Trying.{other, srb_fit_by, srb_fit_line, srb_trial_line, srb_tried, srb_under, tried};

use crate::line_texts::{bad_header, short, spent};
use crate::octet_texts::written;
use crate::pdu_answering::srb_keys;
use crate::requests::{Algorithms, SrbPdu};
use crate::trying::{mistaken, no_algorithm, other};
use alg_suite::{Ciphering, Integrity};
use pdcp_guard::PdcpFault;
use pdu_guard::{open_srb, srb_count};
use rec_base::Dir;
use std::alloc::{AllocError, Global};

// Under which algorithms the MAC-I of a PDU is right.
pub(crate) fn try_srb(alloc: Global, s: &SrbPdu) -> Result<String, AllocError>
    requires bearer { s.now.bearer < 32 }
    requires few { length s.now.pdu ≤ 8193 }
    ensures line { IfOk result (λ line. string_bytes line ≡ srb_trial_line s.now) }
    ensures refused { OnErr result WasRefused }
{
    match srb_count(u64::from(s.count), s.pdu.as_slice()) {
        Ok(_) => either_way(alloc, s),
        Err(PdcpFault::Short) => short(alloc),
        Err(PdcpFault::BadHeader(octet)) => bad_header(alloc, octet),
        Err(PdcpFault::CountSpent) => spent(alloc),
        // No head has this fault.
        Err(PdcpFault::MacFails { .. }) => no_algorithm(alloc),
    }
}

// In the direction given, else in the other.
fn either_way(alloc: Global, s: &SrbPdu) -> Result<String, AllocError>
    requires bearer { s.now.bearer < 32 }
    requires long { 5 ≤ length s.now.pdu }
    requires few { length s.now.pdu ≤ 8193 }
    ensures line { IfOk result (λ line. string_bytes line ≡ tried s.now.dir (srb_tried s.now s.now.dir) (srb_tried s.now (other s.now.dir))) }
    ensures refused { OnErr result WasRefused }
{
    if let Some(line) = tried(alloc, s, s.dir)? {
        return Ok(line);
    }
    let dir = other(s.dir);
    let line = tried(alloc, s, dir)?;
    mistaken(alloc, dir, line)
}

// In one direction.
fn tried(alloc: Global, s: &SrbPdu, dir: Dir) -> Result<Option<String>, AllocError>
    requires bearer { s.now.bearer < 32 }
    requires long { 5 ≤ length s.now.pdu }
    requires few { length s.now.pdu ≤ 8193 }
    ensures line { IfOk result (λ line. option_map string_bytes line ≡ srb_tried s.now dir) }
    ensures refused { OnErr result WasRefused }
{
    if let Some(line) = under(alloc, s, dir, Ciphering::Eea0)? {
        return Ok(Some(line));
    }
    if let Some(line) = under(alloc, s, dir, Ciphering::Eea1)? {
        return Ok(Some(line));
    }
    if let Some(line) = under(alloc, s, dir, Ciphering::Eea2)? {
        return Ok(Some(line));
    }
    under(alloc, s, dir, Ciphering::Eea3)
}

// Under one encryption algorithm.
fn under(alloc: Global, s: &SrbPdu, dir: Dir, eea: Ciphering) -> Result<Option<String>, AllocError>
    requires bearer { s.now.bearer < 32 }
    requires long { 5 ≤ length s.now.pdu }
    requires few { length s.now.pdu ≤ 8193 }
    ensures line { IfOk result (λ line. option_map string_bytes line ≡ srb_under s.now dir eea) }
    ensures refused { OnErr result WasRefused }
{
    if let Some(line) = fit_by(alloc, s, dir, eea, Integrity::Eia1)? {
        return Ok(Some(line));
    }
    if let Some(line) = fit_by(alloc, s, dir, eea, Integrity::Eia2)? {
        return Ok(Some(line));
    }
    fit_by(alloc, s, dir, eea, Integrity::Eia3)
}

// Under both algorithms.
fn fit_by(
    alloc: Global,
    s: &SrbPdu,
    dir: Dir,
    eea: Ciphering,
    eia: Integrity,
) -> Result<Option<String>, AllocError>
    requires bearer { s.now.bearer < 32 }
    requires long { 5 ≤ length s.now.pdu }
    requires few { length s.now.pdu ≤ 8193 }
    ensures line { IfOk result (λ line. option_map string_bytes line ≡ srb_fit_by s.now dir eea eia) }
    ensures refused { OnErr result WasRefused }
{
    let pdu = s.pdu.as_slice();
    let kenb = s.kenb;
    let keys = srb_keys(&kenb, Algorithms { eea, eia }, s.bearer);
    let mut text = growth::from_elem(alloc, 0, pdu.len() - 5)?;
    match open_srb(&keys, u64::from(s.count), dir, pdu, text.as_mut_slice()) {
        Ok(found) => Ok(Some(fit_line(alloc, eea, eia, found.count, text.as_slice())?)),
        Err(_) => Ok(None),
    }
}

#[tactic(auto, unfolding(crate::specs::Trying::srb_fit_line))]
fn fit_line(
    alloc: Global,
    eea: Ciphering,
    eia: Integrity,
    count: u32,
    text: &[u8],
) -> Result<String, AllocError>
    ensures line { IfOk result (λ line. string_bytes line ≡ srb_fit_line eea eia count text.now) }
    ensures refused { OnErr result WasRefused }
{
    let text = written(alloc, text)?;
    let (eia, eea) = (eia.identity(), eea.identity());
    growth::format(
        alloc,
        format_args!("opens {count} eia{eia} eea{eea} {text}"),
    )
}
