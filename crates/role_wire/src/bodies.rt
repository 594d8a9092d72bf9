// What stands in a body behind its kind, one function for each form. An error is the place of the first
// bad octet, counted from the kind.
ghost use Rattle.std.specs.Prelude.{◌≡◌, ◌<◌, ◌≤◌, length};
ghost use Rattle.rec_base.specs.Bearer.{octet_of};
ghost use Rattle.role_wire.specs.Codes.{bearers, nas_alone, nas_octet, nas_or_bearer, skip_octet};
ghost use Rattle.role_wire.specs.Body.{nothing_of, caps_of, auth_of, auth_caps_of, pdu_of, air_of, station_air_of, user_of, rrc_of, nas_of, skip_of, connect_of, start_of};
ghost use Rattle.role_wire.specs.Frame.{body_limit};

use crate::fields::{
    bearer_at, caps_at, cell_at, drb_at, ends_at, ho_kind_at, key_at, nas_at, nas_or_bearer_at,
    number_from, octet_in, rest_at, srb_at,
};
use alg_choice::Caps;
use annex_a_keys::{Cell, Kasme};
use lte_events::HoKind;
use rec_base::{Bearer, Octets, ShortText, UserText};

// No field.
#[tactic(auto, unfolding(crate::specs::Body::nothing_of))]
pub(crate) fn nothing(octets: &[u8]) -> Result<(), u16>
    ensures { result ≡ nothing_of octets.now }
{
    ends_at(octets, 1)
}

// Capabilities.
#[tactic(auto, unfolding(crate::specs::Body::caps_of))]
pub(crate) fn caps(octets: &[u8]) -> Result<Caps, u16>
    requires { length octets.now ≤ body_limit }
    ensures { result ≡ caps_of octets.now }
{
    let caps = caps_at(octets, 1)?;
    ends_at(octets, 3)?;
    Ok(caps)
}

// KSI, 0 to 6, and KASME.
#[tactic(auto, unfolding(crate::specs::Body::auth_of))]
pub(crate) fn auth(octets: &[u8]) -> Result<(u8, Kasme), u16>
    requires { length octets.now ≤ body_limit }
    ensures { result ≡ auth_of octets.now }
{
    let ksi = octet_in(octets, 1, 0, 6)?;
    let kasme = key_at(octets, 2)?;
    ends_at(octets, 34)?;
    Ok((ksi, Kasme::of_octets(kasme)))
}

// KSI, 0 to 6, KASME and capabilities.
#[tactic(auto, unfolding(crate::specs::Body::auth_caps_of))]
pub(crate) fn auth_caps(octets: &[u8]) -> Result<(u8, Kasme, Caps), u16>
    requires { length octets.now ≤ body_limit }
    ensures { result ≡ auth_caps_of octets.now }
{
    let ksi = octet_in(octets, 1, 0, 6)?;
    let kasme = key_at(octets, 2)?;
    let caps = caps_at(octets, 34)?;
    ends_at(octets, 36)?;
    Ok((ksi, Kasme::of_octets(kasme), caps))
}

// A PDU or record, at most 1,536 octets.
#[tactic(auto, unfolding(crate::specs::Body::pdu_of))]
pub(crate) fn pdu(octets: &[u8]) -> Result<Octets, u16>
    requires body { length octets.now ≤ body_limit }
    requires kind { 0 < length octets.now }
    ensures { result ≡ pdu_of octets.now }
{
    rest_at(octets, 1)
}

// Air address, bearer and PDU.
#[tactic(auto, unfolding(crate::specs::Body::air_of))]
pub(crate) fn air(octets: &[u8]) -> Result<(u32, Bearer, Octets), u16>
    requires { length octets.now ≤ body_limit }
    ensures { result ≡ air_of octets.now }
{
    let air = number_from(octets, 1, 0)?;
    let bearer = bearer_at(octets, 5)?;
    let pdu = rest_at(octets, 6)?;
    Ok((air, bearer, pdu))
}

// Station, 0 to 7, air address, bearer and PDU.
#[tactic(auto, unfolding(crate::specs::Body::station_air_of))]
pub(crate) fn station_air(octets: &[u8]) -> Result<(u8, u32, Bearer, Octets), u16>
    requires { length octets.now ≤ body_limit }
    ensures { result ≡ station_air_of octets.now }
{
    let station = octet_in(octets, 1, 0, 7)?;
    let air = number_from(octets, 2, 0)?;
    let bearer = bearer_at(octets, 6)?;
    let pdu = rest_at(octets, 7)?;
    Ok((station, air, bearer, pdu))
}

// DRB and user text, at most 1,500 octets.
#[tactic(auto, unfolding(crate::specs::Body::user_of))]
pub(crate) fn user(octets: &[u8]) -> Result<(Bearer, UserText), u16>
    requires { length octets.now ≤ body_limit }
    ensures { result ≡ user_of octets.now }
{
    let bearer = drb_at(octets, 1)?;
    let text = rest_at(octets, 2)?;
    Ok((bearer, text))
}

// SRB and RRC text, at most 200 octets.
#[tactic(auto, unfolding(crate::specs::Body::rrc_of))]
pub(crate) fn rrc(octets: &[u8]) -> Result<(Bearer, ShortText), u16>
    requires { length octets.now ≤ body_limit }
    ensures { result ≡ rrc_of octets.now }
{
    let bearer = srb_at(octets, 1)?;
    let text = rest_at(octets, 2)?;
    Ok((bearer, text))
}

// NAS text, at most 200 octets.
#[tactic(auto, unfolding(crate::specs::Body::nas_of))]
pub(crate) fn nas(octets: &[u8]) -> Result<ShortText, u16>
    requires body { length octets.now ≤ body_limit }
    requires kind { 0 < length octets.now }
    ensures { result ≡ nas_of octets.now }
{
    rest_at(octets, 1)
}

// NAS or a bearer, and how many COUNTs are skipped.
#[tactic(auto, unfolding(crate::specs::Body::skip_of))]
pub(crate) fn skip_any(octets: &[u8]) -> Result<(Option<Bearer>, u32), u16>
    requires { length octets.now ≤ body_limit }
    ensures { result ≡ skip_of skip_octet nas_or_bearer octets.now }
{
    let bearer = nas_or_bearer_at(octets, 1)?;
    let n = number_from(octets, 2, 0)?;
    ends_at(octets, 6)?;
    Ok((bearer, n))
}

// A bearer, and how many COUNTs are skipped.
#[tactic(auto, unfolding(crate::specs::Body::skip_of))]
pub(crate) fn skip_bearer(octets: &[u8]) -> Result<(Bearer, u32), u16>
    requires { length octets.now ≤ body_limit }
    ensures { result ≡ skip_of octet_of bearers octets.now }
{
    let bearer = bearer_at(octets, 1)?;
    let n = number_from(octets, 2, 0)?;
    ends_at(octets, 6)?;
    Ok((bearer, n))
}

// NAS, and how many COUNTs are skipped.
#[tactic(auto, unfolding(crate::specs::Body::skip_of))]
pub(crate) fn skip_nas(octets: &[u8]) -> Result<((), u32), u16>
    requires { length octets.now ≤ body_limit }
    ensures { result ≡ skip_of nas_octet nas_alone octets.now }
{
    let of_nas = nas_at(octets, 1)?;
    let n = number_from(octets, 2, 0)?;
    ends_at(octets, 6)?;
    Ok((of_nas, n))
}

// A cell.
#[tactic(auto, unfolding(crate::specs::Body::connect_of))]
pub(crate) fn connect(octets: &[u8]) -> Result<Cell, u16>
    requires { length octets.now ≤ body_limit }
    ensures { result ≡ connect_of octets.now }
{
    let cell = cell_at(octets, 1)?;
    ends_at(octets, 7)?;
    Ok(cell)
}

// A kind of handover, and a cell.
#[tactic(auto, unfolding(crate::specs::Body::start_of))]
pub(crate) fn start(octets: &[u8]) -> Result<(HoKind, Cell), u16>
    requires { length octets.now ≤ body_limit }
    ensures { result ≡ start_of octets.now }
{
    let kind = ho_kind_at(octets, 1)?;
    let cell = cell_at(octets, 2)?;
    ends_at(octets, 8)?;
    Ok((kind, cell))
}
