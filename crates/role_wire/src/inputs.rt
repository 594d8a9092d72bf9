// A body, read by its kind. An error is the place of the first bad octet, counted from the kind.
ghost use Rattle.std.specs.Prelude.{◌≡◌, ◌<◌, ◌≤◌, length, OnOk, IfOk};
ghost use Rattle.rec_fields.specs.Layout.{by_kind};
ghost use Rattle.role_wire.specs.Spelling.{body_spelling};
ghost use Rattle.role_wire.specs.Ranges.{IsRole, IsFrame};
ghost use Rattle.role_wire.specs.Frame.{body_limit};
ghost use Rattle.role_wire.specs.Reading.{body_by, phone_rows, phone_act_rows, station_rows, station_act_rows, core_rows, core_act_rows, setup_rows, input_of, body_of};

use crate::bodies::{
    air, auth, auth_caps, caps, connect, nas, nothing, pdu, rrc, skip_any, skip_bearer, skip_nas,
    start, station_air, user,
};
use crate::setups::first;
use crate::{FrameIn, RoleSetup};
use edge_io::Role;
use lte_events::{ActorIn, CoreAct, CoreIn, PhoneAct, PhoneIn, StationAct, StationIn};
use rec_base::u8_at;

// The body of a frame, the first of a session or a later one.
pub(crate) fn body(role: Role, first: bool, octets: &[u8]) -> Result<FrameIn, u16>
    requires size { length octets.now ≤ body_limit }
    requires role { IsRole role }
    ensures value { result ≡ body_of role first octets.now }
    ensures some { OnOk result (0 < length octets.now) }
    ensures found { IfOk result (λ frame. (octets.now ≡ body_spelling frame) × IsFrame role first frame) }
{
    body_of(role, first, octets)
}

// The same, by the place of the frame.
#[tactic(auto, unfolding(crate::specs::Reading::body_of))]
fn body_of(role: Role, first: bool, octets: &[u8]) -> Result<FrameIn, u16>
    requires { length octets.now ≤ body_limit }
    ensures value { result ≡ body_of role first octets.now }
    ensures some { OnOk result (0 < length octets.now) }
{
    if first {
        Ok(FrameIn::Setup(setup(role, octets)?))
    } else {
        Ok(FrameIn::Input(input(role, octets)?))
    }
}

// What the actor of a role starts with.
#[tactic(auto, unfolding(crate::specs::Reading::body_by))]
fn setup(role: Role, octets: &[u8]) -> Result<RoleSetup, u16>
    requires { length octets.now ≤ body_limit }
    ensures value { result ≡ body_by (setup_rows role) octets.now }
    ensures some { OnOk result (0 < length octets.now) }
{
    if octets.is_empty() {
        return Err(0);
    }
    match (role, u8_at(octets, 0)) {
        (Role::Phone, 0x00) => Ok(RoleSetup::Phone(caps(octets)?)),
        (Role::Station(_), 0x00) => {
            let (priority, number, cells) = first(octets)?;
            Ok(RoleSetup::Station(priority, number, cells))
        }
        (Role::Core, 0x00) => {
            let (priority, number, cells) = first(octets)?;
            Ok(RoleSetup::Core(priority, number, cells))
        }
        (Role::Core, 0x06) => {
            let (priority, number, cells) = first(octets)?;
            Ok(RoleSetup::StandardCore(priority, number, cells))
        }
        _ => Err(0),
    }
}

// An input of the actor of a role.
fn input(role: Role, octets: &[u8]) -> Result<ActorIn, u16>
    requires { length octets.now ≤ body_limit }
    ensures value { result ≡ input_of role octets.now }
    ensures some { OnOk result (0 < length octets.now) }
{
    match role {
        Role::Phone => Ok(ActorIn::Phone(phone_input(octets)?)),
        Role::Station(id) => Ok(ActorIn::Station(id, station_input(octets)?)),
        Role::Core => Ok(ActorIn::Core(core_input(octets)?)),
    }
}

// An input of the phone.
#[tactic(auto, unfolding(crate::specs::Reading::body_by))]
fn phone_input(octets: &[u8]) -> Result<PhoneIn, u16>
    requires { length octets.now ≤ body_limit }
    ensures value { result ≡ body_by phone_rows octets.now }
    ensures some { OnOk result (0 < length octets.now) }
{
    if octets.is_empty() {
        return Err(0);
    }
    match u8_at(octets, 0) {
        0x01 => {
            let (ksi, kasme) = auth(octets)?;
            Ok(PhoneIn::Auth(ksi, kasme))
        }
        0x02 => Ok(PhoneIn::Nas(pdu(octets)?)),
        0x03 => {
            let (station, air, bearer, pdu) = station_air(octets)?;
            Ok(PhoneIn::Air(station, air, bearer, pdu))
        }
        kind => phone_act(kind, octets),
    }
}

// An act of the phone.
fn phone_act(kind: u8, octets: &[u8]) -> Result<PhoneIn, u16>
    requires body { length octets.now ≤ body_limit }
    requires kind { 0 < length octets.now }
    ensures { result ≡ by_kind 0 phone_act_rows kind octets.now }
{
    match kind {
        0x10 => {
            nothing(octets)?;
            Ok(PhoneIn::Act(PhoneAct::ServiceRequest))
        }
        0x11 => {
            nothing(octets)?;
            Ok(PhoneIn::Act(PhoneAct::ResendComplete))
        }
        0x12 => {
            nothing(octets)?;
            Ok(PhoneIn::Act(PhoneAct::GoIdle))
        }
        0x13 => {
            let (bearer, text) = user(octets)?;
            Ok(PhoneIn::Act(PhoneAct::SendUser(bearer, text)))
        }
        0x14 => {
            let (bearer, text) = rrc(octets)?;
            Ok(PhoneIn::Act(PhoneAct::SendRrc(bearer, text)))
        }
        0x15 => Ok(PhoneIn::Act(PhoneAct::SendNas(nas(octets)?))),
        0x16 => {
            let (bearer, n) = skip_any(octets)?;
            Ok(PhoneIn::Act(PhoneAct::Skip(bearer, n)))
        }
        _ => Err(0),
    }
}

// An input of a station.
#[tactic(auto, unfolding(crate::specs::Reading::body_by))]
fn station_input(octets: &[u8]) -> Result<StationIn, u16>
    requires { length octets.now ≤ body_limit }
    ensures value { result ≡ body_by station_rows octets.now }
    ensures some { OnOk result (0 < length octets.now) }
{
    if octets.is_empty() {
        return Err(0);
    }
    match u8_at(octets, 0) {
        0x03 => {
            let (air, bearer, pdu) = air(octets)?;
            Ok(StationIn::Air(air, bearer, pdu))
        }
        0x04 => Ok(StationIn::S1(pdu(octets)?)),
        0x05 => Ok(StationIn::X2(pdu(octets)?)),
        kind => station_act(kind, octets),
    }
}

// An act of a station.
fn station_act(kind: u8, octets: &[u8]) -> Result<StationIn, u16>
    requires { length octets.now ≤ body_limit }
    ensures { result ≡ by_kind 0 station_act_rows kind octets.now }
{
    match kind {
        0x13 => {
            let (bearer, text) = user(octets)?;
            Ok(StationIn::Act(StationAct::SendUser(bearer, text)))
        }
        0x14 => {
            let (bearer, text) = rrc(octets)?;
            Ok(StationIn::Act(StationAct::SendRrc(bearer, text)))
        }
        0x16 => {
            let (bearer, n) = skip_bearer(octets)?;
            Ok(StationIn::Act(StationAct::Skip(bearer, n)))
        }
        0x30 => {
            let (kind, cell) = start(octets)?;
            Ok(StationIn::Act(StationAct::Start(kind, cell)))
        }
        0x31 => {
            nothing(octets)?;
            Ok(StationIn::Act(StationAct::Command))
        }
        0x32 => {
            nothing(octets)?;
            Ok(StationIn::Act(StationAct::Cancel))
        }
        0x33 => {
            nothing(octets)?;
            Ok(StationIn::Act(StationAct::Ask))
        }
        _ => Err(0),
    }
}

// An input of the core.
#[tactic(auto, unfolding(crate::specs::Reading::body_by))]
fn core_input(octets: &[u8]) -> Result<CoreIn, u16>
    requires { length octets.now ≤ body_limit }
    ensures value { result ≡ body_by core_rows octets.now }
    ensures some { OnOk result (0 < length octets.now) }
{
    if octets.is_empty() {
        return Err(0);
    }
    match u8_at(octets, 0) {
        0x01 => {
            let (ksi, kasme, caps) = auth_caps(octets)?;
            Ok(CoreIn::Auth(ksi, kasme, caps))
        }
        0x02 => Ok(CoreIn::Nas(pdu(octets)?)),
        0x04 => Ok(CoreIn::S1(pdu(octets)?)),
        kind => core_act(kind, octets),
    }
}

// An act of the core.
fn core_act(kind: u8, octets: &[u8]) -> Result<CoreIn, u16>
    requires body { length octets.now ≤ body_limit }
    requires kind { 0 < length octets.now }
    ensures { result ≡ by_kind 0 core_act_rows kind octets.now }
{
    match kind {
        0x15 => Ok(CoreIn::Act(CoreAct::SendNas(nas(octets)?))),
        0x16 => {
            let (_, n) = skip_nas(octets)?;
            Ok(CoreIn::Act(CoreAct::Skip(n)))
        }
        0x20 => {
            nothing(octets)?;
            Ok(CoreIn::Act(CoreAct::StartSmc))
        }
        0x21 => Ok(CoreIn::Act(CoreAct::Connect(connect(octets)?))),
        0x22 => {
            nothing(octets)?;
            Ok(CoreIn::Act(CoreAct::Release))
        }
        _ => Err(0),
    }
}
