// Writing the frames that an actor is told.
ghost use Rattle.std.specs.Prelude.{◌≡◌, ℕ, Bool, ◌+◌, ◌≤◌, ◌<◌, List, ◌∷◌, ◌++◌, length, map, Ok};
ghost use Rattle.std.specs.List.{flat_map};
ghost use Rattle.rec_base.specs.BigEndian.{octets_of};
ghost use Rattle.rec_base.specs.Bearer.{octet_of};
ghost use Rattle.rec_base.specs.Lengths.{longest_packet, longest_record};
ghost use Rattle.alg_choice.specs.Algs.{identity_of};
ghost use Rattle.edge_io.specs.declared.peers.Role.{Role};
ghost use Rattle.role_wire.specs.Codes.{skip_octet, ho_octet};
ghost use Rattle.role_wire.specs.Spelling.{setup_octets, phone_octets, phone_act_octets, station_octets, station_act_octets, core_octets, core_act_octets, first_octets, site_octets};
ghost use Rattle.role_wire.specs.Ranges.{IsFrame, IsFrameIn, IsSetup};
ghost use Rattle.role_wire.specs.Frame.{body_limit, framed, frame_spelling, frame_at};

use crate::{Frame, FrameIn, RoleSetup};
use alg_choice::Priority;
use lte_events::{
    ActorIn, Cells, CoreAct, CoreIn, HoKind, PhoneAct, PhoneIn, StationAct, StationIn,
};
use rec_base::{Bearer, Bounded};
use rec_fields::{list_of, put_cell, put_u16, put_u32};

// A body: at most 4,096 octets.
pub(crate) type Body = Bounded<4096>;

// A body behind its length.
#[tactic(auto, unfolding(crate::specs::Frame::framed))]
pub(crate) fn framed(body: &Body) -> Frame
    ensures framed { result ≡ framed body.now }
    ensures within { length result ≤ 2 + body_limit }
{
    let octets = body.as_slice();
    let mut out = Frame::new();
    put_u16(&mut out, octets.len() as u16);
    out.append(octets);
    out
}

/// The frame of what an actor is told: the length of its body in two octets, and the body. In it a KSI
/// is 0 to 6 and a station 0 to 7, user text goes on a DRB and RRC text on an SRB, and the Setup of a
/// station or the core has a first number of at least 1 and at least one cell.
pub fn input_frame(frame: &FrameIn) -> Frame
    requires { IsFrameIn frame.now }
    ensures spelled { result ≡ frame_spelling frame.now }
    // What is written is read again, whatever stands behind it.
    ensures again { (role : Role) (first : Bool) (rest : List ℕ) → IsFrame role first frame.now
        → frame_at role first (result ++ rest) ≡ Ok frame.now }
{
    written(frame)
}

// The same, by what the frame is.
fn written(frame: &FrameIn) -> Frame
    requires { IsFrameIn frame.now }
    ensures spelled { result ≡ frame_spelling frame.now }
    ensures within { length result ≤ 2 + body_limit }
{
    match frame {
        FrameIn::Setup(setup) => setup_frame(setup),
        FrameIn::Input(input) => actor_frame(input),
    }
}

/// The frame of an input, as `input_frame` writes it, also of one that is out of its ranges.
#[tactic(auto, unfolding(crate::specs::Spelling::body_spelling))]
pub fn actor_frame(input: &ActorIn) -> Frame
    ensures spelled { result ≡ frame_spelling (FrameIn.Input input.now) }
    ensures within { length result ≤ 2 + body_limit }
{
    let body = match input {
        ActorIn::Phone(input) => phone_body(input),
        ActorIn::Station(_, input) => station_body(input),
        ActorIn::Core(input) => core_body(input),
    };
    framed(&body)
}

/// The frame of what an actor starts with, as `input_frame` writes it.
#[tactic(auto, unfolding(crate::specs::Spelling::body_spelling))]
pub fn setup_frame(setup: &RoleSetup) -> Frame
    requires { IsSetup setup.now }
    ensures spelled { result ≡ frame_spelling (FrameIn.Setup setup.now) }
    ensures within { length result ≤ 2 + body_limit }
{
    framed(&setup_body(setup))
}

// An input of the phone.
fn phone_body(input: &PhoneIn) -> Body
    ensures { result ≡ phone_octets input.now }
{
    match input {
        PhoneIn::Auth(ksi, kasme) => {
            let mut out = list_of(&[0x01, *ksi]);
            out.append(&kasme.octets());
            out
        }
        PhoneIn::Act(act) => phone_act_body(act),
        PhoneIn::Nas(pdu) => with_octets(0x02, pdu.as_slice()),
        PhoneIn::Air(station, air, bearer, pdu) => {
            let mut out = list_of(&[0x03, *station]);
            put_u32(&mut out, *air);
            out.append(&[bearer.octet()]);
            out.append(pdu.as_slice());
            out
        }
    }
}

// An act of the phone.
fn phone_act_body(act: &PhoneAct) -> Body
    ensures { result ≡ phone_act_octets act.now }
{
    match act {
        PhoneAct::ServiceRequest => list_of(&[0x10]),
        PhoneAct::ResendComplete => list_of(&[0x11]),
        PhoneAct::GoIdle => list_of(&[0x12]),
        PhoneAct::SendUser(bearer, text) => on_bearer(0x13, *bearer, text.as_slice()),
        PhoneAct::SendRrc(bearer, text) => on_bearer(0x14, *bearer, text.as_slice()),
        PhoneAct::SendNas(text) => with_octets(0x15, text.as_slice()),
        PhoneAct::Skip(bearer, n) => skip_body(skip_octet(*bearer), *n),
    }
}

// An input of a station.
fn station_body(input: &StationIn) -> Body
    ensures { result ≡ station_octets input.now }
{
    match input {
        StationIn::Act(act) => station_act_body(act),
        StationIn::Air(air, bearer, pdu) => {
            let mut out = list_of(&[0x03]);
            put_u32(&mut out, *air);
            out.append(&[bearer.octet()]);
            out.append(pdu.as_slice());
            out
        }
        StationIn::S1(record) => with_octets(0x04, record.as_slice()),
        StationIn::X2(record) => with_octets(0x05, record.as_slice()),
    }
}

// An act of a station.
fn station_act_body(act: &StationAct) -> Body
    ensures { result ≡ station_act_octets act.now }
{
    match act {
        StationAct::Start(kind, cell) => {
            let mut out = list_of(&[0x30, ho_octet(*kind)]);
            put_cell(&mut out, cell);
            out
        }
        StationAct::Command => list_of(&[0x31]),
        StationAct::Cancel => list_of(&[0x32]),
        StationAct::Ask => list_of(&[0x33]),
        StationAct::SendUser(bearer, text) => on_bearer(0x13, *bearer, text.as_slice()),
        StationAct::SendRrc(bearer, text) => on_bearer(0x14, *bearer, text.as_slice()),
        StationAct::Skip(bearer, n) => skip_body(bearer.octet(), *n),
    }
}

// An input of the core.
fn core_body(input: &CoreIn) -> Body
    ensures { result ≡ core_octets input.now }
{
    match input {
        CoreIn::Auth(ksi, kasme, caps) => {
            let mut out = list_of(&[0x01, *ksi]);
            out.append(&kasme.octets());
            out.append(&[caps.eea, caps.eia]);
            out
        }
        CoreIn::Act(act) => core_act_body(act),
        CoreIn::Nas(pdu) => with_octets(0x02, pdu.as_slice()),
        CoreIn::S1(record) => with_octets(0x04, record.as_slice()),
    }
}

// An act of the core.
fn core_act_body(act: &CoreAct) -> Body
    ensures { result ≡ core_act_octets act.now }
{
    match act {
        CoreAct::StartSmc => list_of(&[0x20]),
        CoreAct::Connect(cell) => {
            let mut out = list_of(&[0x21]);
            put_cell(&mut out, cell);
            out
        }
        CoreAct::Release => list_of(&[0x22]),
        CoreAct::SendNas(text) => with_octets(0x15, text.as_slice()),
        CoreAct::Skip(n) => skip_body(0x00, *n),
    }
}

// A kind and octets to the end.
fn with_octets(kind: u8, octets: &[u8]) -> Body
    requires { length octets.now ≤ longest_record }
    ensures { result ≡ kind ∷ octets.now }
{
    let mut out = list_of(&[kind]);
    out.append(octets);
    out
}

// A kind, a bearer and a text to the end.
fn on_bearer(kind: u8, bearer: Bearer, text: &[u8]) -> Body
    requires { length text.now ≤ longest_packet }
    ensures { result ≡ kind ∷ octet_of bearer ∷ text.now }
{
    let mut out = list_of(&[kind, bearer.octet()]);
    out.append(text);
    out
}

// A Skip: what is skipped, and how many COUNTs.
fn skip_body(what: u8, n: u32) -> Body
    ensures { result ≡ 0x16 ∷ what ∷ octets_of 4 n }
{
    let mut out = list_of(&[0x16, what]);
    put_u32(&mut out, n);
    out
}

// The octet of what a Skip of the phone names.
fn skip_octet(bearer: Option<Bearer>) -> u8
    ensures { result ≡ skip_octet bearer }
{
    match bearer {
        None => 0x00,
        Some(bearer) => bearer.octet(),
    }
}

// The octet of a kind of handover.
fn ho_octet(kind: HoKind) -> u8
    ensures { result ≡ ho_octet kind }
{
    match kind {
        HoKind::X2 => 0x00,
        HoKind::S1 => 0x01,
        HoKind::Intra => 0x02,
    }
}

// What an actor starts with.
fn setup_body(setup: &RoleSetup) -> Body
    requires { IsSetup setup.now }
    ensures { result ≡ setup_octets setup.now }
{
    match setup {
        RoleSetup::Phone(caps) => list_of(&[0x00, caps.eea, caps.eia]),
        RoleSetup::Station(order, first, cells) => first_body(0x00, order, *first, cells),
        RoleSetup::Core(order, first, cells) => first_body(0x00, order, *first, cells),
        RoleSetup::StandardCore(order, first, cells) => first_body(0x06, order, *first, cells),
    }
}

// The Setup of a station or the core, of this kind.
fn first_body(kind: u8, order: &Priority, first: u32, cells: &Cells) -> Body
    ensures { result ≡ kind ∷ first_octets order.now first cells.now }
{
    let mut out = order_body(kind, order);
    put_u32(&mut out, first);
    put_cells(&mut out, cells);
    out
}

// The kind of a Setup, and a priority behind its count.
fn order_body(kind: u8, order: &Priority) -> Body
    ensures octets { result ≡ kind ∷ length order.now ∷ map identity_of order.now }
    ensures count { length result ≤ 4 }
{
    let first = order.first().identity();
    match order.second() {
        None => list_of(&[kind, 1, first]),
        Some(second) => list_of(&[kind, 2, first, second.identity()]),
    }
}

// Appends the cells of all stations behind their count.
fn put_cells(out: &mut Body, cells: &Cells)
    requires { length out.old ≤ 8 }
    ensures { out.new ≡ out.old ++ length cells.now ∷ flat_map site_octets cells.now }
{
    out.append(&[cells.len() as u8]);
    for i in 0..cells.len() {
        let (station, cell) = cells.at(i);
        out.append(&[station]);
        put_cell(out, &cell);
    }
}
