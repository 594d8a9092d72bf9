// The fields of a body, read at a place. An error is the place of the first bad octet: where octets are
// wanting, the end.
ghost use Rattle.std.specs.Prelude.{◌≡◌, ◌≢◌, ◌+◌, ◌-◌, ◌^◌, ◌<◌, ◌≤◌, nat_lt, if◌then◌else◌, length, IfOk, OnOk, Ok, Err};
ghost use Rattle.role_wire.specs.Codes.{srbs, drbs, bearers, nas_alone, nas_or_bearer, ho_kinds, eeas, eeas_but};
ghost use Rattle.role_wire.specs.Field.{number_in, coded_at, key_at, caps_at, cell_at, rest_at, ends_at};
ghost use Rattle.role_wire.specs.Frame.{body_limit};

use alg_choice::{Caps, Eea};
use annex_a_keys::{Cell, GREATEST_PCI};
use lte_events::HoKind;
use rec_base::{Bearer, Bounded, u8_at, u16_at, u32_at};

// Nothing, where so many octets stand from a place on; else the end.
fn room(octets: &[u8], place: usize, width: usize) -> Result<(), u16>
    requires body { length octets.now ≤ body_limit }
    requires place { place ≤ body_limit }
    requires width { width ≤ 32 }
    ensures value { result ≡ (if nat_lt (length octets.now) (place + width) then Err (length octets.now) else Ok tt) }
    ensures within { OnOk result (place + width ≤ length octets.now) }
{
    if octets.len() < place + width {
        return Err(octets.len() as u16);
    }
    Ok(())
}

// An octet from `low` to `high`.
#[tactic(auto, unfolding(crate::specs::Field::number_in))]
pub(crate) fn octet_in(octets: &[u8], place: usize, low: u8, high: u8) -> Result<u8, u16>
    requires body { length octets.now ≤ body_limit }
    requires place { place ≤ body_limit }
    ensures value { result ≡ number_in low high octets.now place 1 }
    ensures range { IfOk result (λ n. (low ≤ n) × (n ≤ high)) }
    ensures within { OnOk result (place + 1 ≤ length octets.now) }
{
    room(octets, place, 1)?;
    let n = u8_at(octets, place);
    if n < low || high < n {
        return Err(place as u16);
    }
    Ok(n)
}

// A number of four octets, at least `low`.
#[tactic(auto, unfolding(crate::specs::Field::number_in))]
pub(crate) fn number_from(octets: &[u8], place: usize, low: u32) -> Result<u32, u16>
    requires body { length octets.now ≤ body_limit }
    requires place { place ≤ body_limit }
    ensures value { result ≡ number_in low (2 ^ 32 - 1) octets.now place 4 }
    ensures within { OnOk result (place + 4 ≤ length octets.now) }
{
    room(octets, place, 4)?;
    let n = u32_at(octets, place);
    if n < low {
        return Err(place as u16);
    }
    Ok(n)
}

// A signalling bearer.
#[tactic(auto, unfolding(crate::specs::Field::coded_at))]
pub(crate) fn srb_at(octets: &[u8], place: usize) -> Result<Bearer, u16>
    requires body { length octets.now ≤ body_limit }
    requires place { place ≤ body_limit }
    ensures value { result ≡ coded_at srbs octets.now place }
    ensures within { OnOk result (place + 1 ≤ length octets.now) }
{
    room(octets, place, 1)?;
    match u8_at(octets, place) {
        0x01 => Ok(Bearer::Srb1),
        0x02 => Ok(Bearer::Srb2),
        _ => Err(place as u16),
    }
}

// A data bearer.
#[tactic(auto, unfolding(crate::specs::Field::coded_at))]
pub(crate) fn drb_at(octets: &[u8], place: usize) -> Result<Bearer, u16>
    requires body { length octets.now ≤ body_limit }
    requires place { place ≤ body_limit }
    ensures value { result ≡ coded_at drbs octets.now place }
    ensures within { OnOk result (place + 1 ≤ length octets.now) }
{
    room(octets, place, 1)?;
    match u8_at(octets, place) {
        0x81 => Ok(Bearer::Drb1),
        0x82 => Ok(Bearer::Drb2),
        0x83 => Ok(Bearer::Drb3),
        0x84 => Ok(Bearer::Drb4),
        _ => Err(place as u16),
    }
}

// Any bearer.
#[tactic(auto, unfolding(crate::specs::Field::coded_at))]
pub(crate) fn bearer_at(octets: &[u8], place: usize) -> Result<Bearer, u16>
    requires body { length octets.now ≤ body_limit }
    requires place { place ≤ body_limit }
    ensures value { result ≡ coded_at bearers octets.now place }
    ensures within { OnOk result (place + 1 ≤ length octets.now) }
{
    room(octets, place, 1)?;
    match Bearer::of_octet(u8_at(octets, place)) {
        Some(bearer) => Ok(bearer),
        None => Err(place as u16),
    }
}

// 00 for NAS, or a bearer.
#[tactic(auto, unfolding(crate::specs::Field::coded_at))]
pub(crate) fn nas_or_bearer_at(octets: &[u8], place: usize) -> Result<Option<Bearer>, u16>
    requires body { length octets.now ≤ body_limit }
    requires place { place ≤ body_limit }
    ensures value { result ≡ coded_at nas_or_bearer octets.now place }
    ensures within { OnOk result (place + 1 ≤ length octets.now) }
{
    room(octets, place, 1)?;
    let octet = u8_at(octets, place);
    if octet == 0x00 {
        return Ok(None);
    }
    match Bearer::of_octet(octet) {
        Some(bearer) => Ok(Some(bearer)),
        None => Err(place as u16),
    }
}

// 00 for NAS.
#[tactic(auto, unfolding(crate::specs::Field::coded_at))]
pub(crate) fn nas_at(octets: &[u8], place: usize) -> Result<(), u16>
    requires body { length octets.now ≤ body_limit }
    requires place { place ≤ body_limit }
    ensures value { result ≡ coded_at nas_alone octets.now place }
    ensures within { OnOk result (place + 1 ≤ length octets.now) }
{
    room(octets, place, 1)?;
    match u8_at(octets, place) {
        0x00 => Ok(()),
        _ => Err(place as u16),
    }
}

// A kind of handover.
#[tactic(auto, unfolding(crate::specs::Field::coded_at))]
pub(crate) fn ho_kind_at(octets: &[u8], place: usize) -> Result<HoKind, u16>
    requires body { length octets.now ≤ body_limit }
    requires place { place ≤ body_limit }
    ensures value { result ≡ coded_at ho_kinds octets.now place }
    ensures within { OnOk result (place + 1 ≤ length octets.now) }
{
    room(octets, place, 1)?;
    match u8_at(octets, place) {
        0x00 => Ok(HoKind::X2),
        0x01 => Ok(HoKind::S1),
        0x02 => Ok(HoKind::Intra),
        _ => Err(place as u16),
    }
}

// An encryption algorithm, by its identity (TS 33.401 5.1.3.2).
#[tactic(auto, unfolding(crate::specs::Field::coded_at))]
pub(crate) fn eea_at(octets: &[u8], place: usize) -> Result<Eea, u16>
    requires body { length octets.now ≤ body_limit }
    requires place { place ≤ body_limit }
    ensures value { result ≡ coded_at eeas octets.now place }
    ensures within { OnOk result (place + 1 ≤ length octets.now) }
{
    room(octets, place, 1)?;
    match u8_at(octets, place) {
        0x00 => Ok(Eea::Eea0),
        0x02 => Ok(Eea::Eea2),
        _ => Err(place as u16),
    }
}

// An encryption algorithm other than a first one.
#[tactic(auto, unfolding(crate::specs::Field::coded_at))]
pub(crate) fn other_eea_at(octets: &[u8], place: usize, first: Eea) -> Result<Eea, u16>
    requires body { length octets.now ≤ body_limit }
    requires place { place ≤ body_limit }
    ensures value { result ≡ coded_at (eeas_but first) octets.now place }
    ensures within { OnOk result (place + 1 ≤ length octets.now) }
    ensures other { IfOk result (λ second. second ≢ first) }
{
    room(octets, place, 1)?;
    match (first, u8_at(octets, place)) {
        (Eea::Eea0, 0x02) => Ok(Eea::Eea2),
        (Eea::Eea2, 0x00) => Ok(Eea::Eea0),
        _ => Err(place as u16),
    }
}

// A key of 32 octets.
#[tactic(auto, unfolding(crate::specs::Field::key_at))]
pub(crate) fn key_at(octets: &[u8], place: usize) -> Result<[u8; 32], u16>
    requires body { length octets.now ≤ body_limit }
    requires place { place ≤ body_limit }
    ensures value { result ≡ key_at octets.now place }
    ensures within { OnOk result (place + 32 ≤ length octets.now) }
{
    room(octets, place, 32)?;
    Ok(rec_base::key_at(octets, place))
}

// The capabilities of a phone (TS 24.301 9.9.3.36).
#[tactic(auto, unfolding(crate::specs::Field::caps_at))]
pub(crate) fn caps_at(octets: &[u8], place: usize) -> Result<Caps, u16>
    requires body { length octets.now ≤ body_limit }
    requires place { place ≤ body_limit }
    ensures value { result ≡ caps_at octets.now place }
    ensures within { OnOk result (place + 2 ≤ length octets.now) }
{
    room(octets, place, 2)?;
    Ok(Caps {
        eea: u8_at(octets, place),
        eia: u8_at(octets, place + 1),
    })
}

// PCI and EARFCN-DL, two fields.
#[tactic(auto, unfolding(crate::specs::Field::cell_at, crate::specs::Field::number_in))]
pub(crate) fn cell_at(octets: &[u8], place: usize) -> Result<Cell, u16>
    requires body { length octets.now ≤ body_limit }
    requires place { place ≤ 4000 }
    ensures value { result ≡ cell_at octets.now place }
    ensures within { OnOk result (place + 6 ≤ length octets.now) }
{
    room(octets, place, 2)?;
    let pci = u16_at(octets, place);
    if pci > GREATEST_PCI {
        return Err(place as u16);
    }
    room(octets, place + 2, 4)?;
    let earfcn = u32_at(octets, place + 2);
    match Cell::new(pci, earfcn) {
        Ok(cell) => Ok(cell),
        Err(_) => Err((place + 2) as u16),
    }
}

// What stands to the end, at most `N` octets.
#[tactic(auto, unfolding(crate::specs::Field::rest_at))]
pub(crate) fn rest_at<const N: usize>(octets: &[u8], place: usize) -> Result<Bounded<N>, u16>
    requires body { length octets.now ≤ body_limit }
    requires place { place ≤ length octets.now }
    ensures { result ≡ rest_at N octets.now place }
{
    let rest = &octets[place..];
    if rest.len() > N {
        return Err((place + N) as u16);
    }
    let mut out = Bounded::new();
    out.append(rest);
    Ok(out)
}

// The body ends here.
#[tactic(auto, unfolding(crate::specs::Field::ends_at))]
pub(crate) fn ends_at(octets: &[u8], place: usize) -> Result<(), u16>
    requires place { place ≤ body_limit }
    ensures { result ≡ ends_at octets.now place }
{
    if place < octets.len() {
        return Err(place as u16);
    }
    Ok(())
}
