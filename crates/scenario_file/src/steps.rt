// The steps of a scenario: for each word of `do` its other fields, in their order, and the event.
ghost use Rattle.std.specs.Prelude.{◌≡◌, ◌≤◌, ◌<◌, ◌∷◌, [], IfOk, OnOk};
ghost use Rattle.toml.specs.View.{table_view};
ghost use Rattle.alg_choice.specs.Caps.{IsCaps};
ghost use Rattle.lte_events.specs.Ranges.{StationDoes, IsSetup, IsStationAct};
ghost use Rattle.lte_events.specs.Scenario.{CanHappen};
ghost use Rattle.scenario_file.specs.declared.fields.Field.TheVariants.{Do, From, Bearer as BearerField, Text, Who, N, To, Octets, Caps as CapsField};
ghost use Rattle.scenario_file.specs.Values.{read_in, or_default, caps_in};
ghost use Rattle.scenario_file.specs.Steps.{auth_of, connect_of, start_of, station_act_of, deliver_of, if_station, user_from, user_of, rrc_from, rrc_of, nas_from, nas_event_of, if_at_station, skip_at, skip_of, phone_target, target_at, target_in, if_air, inject_at, inject_of, event_by, fields_of, phone_in, step_of};

use crate::faults::Refusal;
use crate::kept::Step;
use crate::keys::only;
use crate::setup::Start;
use crate::systems::System;
use crate::words::{Act, Actor, NasEnd, RadioEnd};
use crate::{Field, values};
use alg_choice::Caps;
use lte_events::{Address, CoreAct, Event, HoKind, PhoneAct, Setup, StationAct};
use rec_base::{Bearer, ShortText};
use toml::Table;

// Where injected octets go: `to` and `bearer` of a step.
#[derive(Clone, Copy)]
pub(crate) enum Target {
    // The phone, at NAS.
    PhoneNas,
    // The core, at NAS.
    CoreNas,
    // The phone, on a bearer.
    PhoneAir(Bearer),
    // A station, on a bearer.
    StationAir(Bearer),
}

// What a step's table says.
#[tactic(auto, unfolding(crate::specs::Steps::step_of))]
pub(crate) fn step_in(
    table: &Table,
    system: System,
    start: &Start,
    step: &mut Step,
) -> Result<(), Refusal>
    requires setup { IsSetup start.now.setup }
    requires phones { 1 ≤ start.now.phones }
    ensures value { read_in result step.new ≡ step_of system start.now (table_view table.now) }
    ensures can { OnOk result (CanHappen start.now.setup step.new.event) }
    ensures phone { OnOk result (step.new.phone < start.now.phones) }
{
    let act = values::act_at(table, Field::Do)?;
    only(table, fields(act, table), system.more_of_step())?;
    step.phone = phone_in(table, start.phones)?;
    step.event = event_by(act, table, &start.setup)?;
    Ok(())
}

// The phone that a step happens to.
fn phone_in(table: &Table, phones: u16) -> Result<u16, Refusal>
    requires { 1 ≤ phones }
    ensures value { result ≡ phone_in phones (table_view table.now) }
    ensures stands { IfOk result (λ phone. phone < phones) }
{
    match values::found(table, Field::Phone) {
        None => Ok(0),
        Some(_) => Ok(values::number(table, Field::Phone, 0, u32::from(phones) - 1)? as u16),
    }
}

// The fields of a step by its `do`, in the order in which they are read.
fn fields(act: Act, table: &Table) -> &'static [Field]
    ensures { result.now ≡ fields_of act (table_view table.now) }
{
    match act {
        Act::Auth => &[Field::Do, Field::Ksi, Field::Kasme, Field::Caps],
        Act::Smc | Act::Release | Act::Service | Act::Resend | Act::Idle => &[Field::Do],
        Act::Connect => &[Field::Do, Field::Cell],
        Act::X2 | Act::S1 | Act::Intra => &[Field::Do, Field::Station, Field::Cell],
        Act::Command | Act::Cancel | Act::Ask => &[Field::Do, Field::Station],
        Act::Deliver => &[Field::Do, Field::Record],
        Act::User | Act::Rrc => text_fields(values::radio_end_at(table, Field::From)),
        Act::Nas => &[Field::Do, Field::From, Field::Text],
        Act::Skip => skip_fields(values::actor_at(table, Field::Who)),
        Act::Inject => inject_fields(target_in(table)),
    }
}

// What happens in a step, by its `do`.
fn event_by(act: Act, table: &Table, setup: &Setup) -> Result<Event, Refusal>
    requires { IsSetup setup.now }
    ensures value { result ≡ event_by act setup.now (table_view table.now) }
    ensures can { IfOk result (CanHappen setup.now) }
{
    match act {
        Act::Auth => auth(table, setup),
        Act::Smc => Ok(Event::Core(CoreAct::StartSmc)),
        Act::Release => Ok(Event::Core(CoreAct::Release)),
        Act::Service => Ok(Event::Phone(PhoneAct::ServiceRequest)),
        Act::Resend => Ok(Event::Phone(PhoneAct::ResendComplete)),
        Act::Idle => Ok(Event::Phone(PhoneAct::GoIdle)),
        Act::Connect => connect(table, setup),
        Act::X2 => start(table, setup, HoKind::X2),
        Act::S1 => start(table, setup, HoKind::S1),
        Act::Intra => start(table, setup, HoKind::Intra),
        Act::Command => station_act(table, setup, StationAct::Command),
        Act::Cancel => station_act(table, setup, StationAct::Cancel),
        Act::Ask => station_act(table, setup, StationAct::Ask),
        Act::Deliver => deliver(table, setup),
        Act::User => user(table, setup),
        Act::Rrc => rrc(table, setup),
        Act::Nas => nas(table, setup),
        Act::Skip => skip(table, setup),
        Act::Inject => inject(table, setup),
    }
}

#[tactic(auto, unfolding(crate::specs::Steps::auth_of))]
fn auth(table: &Table, setup: &Setup) -> Result<Event, Refusal>
    requires { IsSetup setup.now }
    ensures value { result ≡ auth_of setup.now (table_view table.now) }
    ensures can { IfOk result (CanHappen setup.now) }
{
    let ksi = values::number(table, Field::Ksi, 0, 6)? as u8;
    let kasme = values::key(table, Field::Kasme)?;
    let caps = caps_or(table, setup.caps)?;
    Ok(Event::Auth(ksi, kasme, caps))
}

// Capabilities, or those of the phone where none are given.
fn caps_or(table: &Table, usual: Caps) -> Result<Caps, Refusal>
    requires { IsCaps usual }
    ensures value { result ≡ or_default usual caps_in CapsField (table_view table.now) }
    ensures fits { IfOk result IsCaps }
{
    match values::found(table, Field::Caps) {
        None => Ok(usual),
        Some(_) => values::caps(table, Field::Caps),
    }
}

#[tactic(auto, unfolding(crate::specs::Steps::connect_of))]
fn connect(table: &Table, setup: &Setup) -> Result<Event, Refusal>
    ensures value { result ≡ connect_of (table_view table.now) }
    ensures can { IfOk result (CanHappen setup.now) }
{
    let cell = values::cell(table, Field::Cell)?;
    Ok(Event::Core(CoreAct::Connect(cell)))
}

// A handover of this kind.
#[tactic(auto, unfolding(crate::specs::Steps::start_of))]
fn start(table: &Table, setup: &Setup, kind: HoKind) -> Result<Event, Refusal>
    ensures value { result ≡ start_of kind setup.now (table_view table.now) }
    ensures can { IfOk result (CanHappen setup.now) }
{
    let id = values::station(table, setup)?;
    let cell = values::cell(table, Field::Cell)?;
    Ok(Event::Station(id, StationAct::Start(kind, cell)))
}

// An act of a station with no other field.
#[tactic(auto, unfolding(crate::specs::Steps::station_act_of))]
fn station_act(table: &Table, setup: &Setup, act: StationAct) -> Result<Event, Refusal>
    requires can { StationDoes act }
    requires fits { IsStationAct act }
    ensures value { result ≡ station_act_of act setup.now (table_view table.now) }
    ensures can { IfOk result (CanHappen setup.now) }
{
    let id = values::station(table, setup)?;
    Ok(Event::Station(id, act))
}

#[tactic(auto, unfolding(crate::specs::Steps::deliver_of))]
fn deliver(table: &Table, setup: &Setup) -> Result<Event, Refusal>
    ensures value { result ≡ deliver_of (table_view table.now) }
    ensures can { IfOk result (CanHappen setup.now) }
{
    let record = values::integer(table, Field::Record)?;
    Ok(Event::Deliver(record))
}

#[tactic(auto, unfolding(crate::specs::Steps::user_of))]
fn user(table: &Table, setup: &Setup) -> Result<Event, Refusal>
    ensures value { result ≡ user_of setup.now (table_view table.now) }
    ensures can { IfOk result (CanHappen setup.now) }
{
    match values::radio_end_at(table, Field::From)? {
        RadioEnd::Phone => user_of_phone(table, setup),
        RadioEnd::Station => user_of_station(table, setup),
    }
}

// The fields of a text on a bearer, by who sends it.
fn text_fields(from: Result<RadioEnd, Refusal>) -> &'static [Field]
    ensures { result.now ≡ Do ∷ From ∷ if_station from (BearerField ∷ Text ∷ []) }
{
    match from {
        Ok(RadioEnd::Phone) => &[Field::Do, Field::From, Field::Bearer, Field::Text],
        Ok(RadioEnd::Station) | Err(_) => &[
            Field::Do,
            Field::From,
            Field::Station,
            Field::Bearer,
            Field::Text,
        ],
    }
}

fn user_of_phone(table: &Table, setup: &Setup) -> Result<Event, Refusal>
    ensures value { result ≡ user_from RadioEnd.Phone setup.now (table_view table.now) }
    ensures can { IfOk result (CanHappen setup.now) }
{
    let bearer = values::drb(table, Field::Bearer)?;
    let text = values::octets(table, Field::Text)?;
    Ok(Event::Phone(PhoneAct::SendUser(bearer, text)))
}

fn user_of_station(table: &Table, setup: &Setup) -> Result<Event, Refusal>
    ensures value { result ≡ user_from RadioEnd.Station setup.now (table_view table.now) }
    ensures can { IfOk result (CanHappen setup.now) }
{
    let id = values::station(table, setup)?;
    let bearer = values::drb(table, Field::Bearer)?;
    let text = values::octets(table, Field::Text)?;
    Ok(Event::Station(id, StationAct::SendUser(bearer, text)))
}

#[tactic(auto, unfolding(crate::specs::Steps::rrc_of))]
fn rrc(table: &Table, setup: &Setup) -> Result<Event, Refusal>
    ensures value { result ≡ rrc_of setup.now (table_view table.now) }
    ensures can { IfOk result (CanHappen setup.now) }
{
    match values::radio_end_at(table, Field::From)? {
        RadioEnd::Phone => rrc_of_phone(table, setup),
        RadioEnd::Station => rrc_of_station(table, setup),
    }
}

fn rrc_of_phone(table: &Table, setup: &Setup) -> Result<Event, Refusal>
    ensures value { result ≡ rrc_from RadioEnd.Phone setup.now (table_view table.now) }
    ensures can { IfOk result (CanHappen setup.now) }
{
    let bearer = values::srb(table, Field::Bearer)?;
    let text = values::octets(table, Field::Text)?;
    Ok(Event::Phone(PhoneAct::SendRrc(bearer, text)))
}

fn rrc_of_station(table: &Table, setup: &Setup) -> Result<Event, Refusal>
    ensures value { result ≡ rrc_from RadioEnd.Station setup.now (table_view table.now) }
    ensures can { IfOk result (CanHappen setup.now) }
{
    let id = values::station(table, setup)?;
    let bearer = values::srb(table, Field::Bearer)?;
    let text = values::octets(table, Field::Text)?;
    Ok(Event::Station(id, StationAct::SendRrc(bearer, text)))
}

#[tactic(auto, unfolding(crate::specs::Steps::nas_event_of))]
fn nas(table: &Table, setup: &Setup) -> Result<Event, Refusal>
    ensures value { result ≡ nas_event_of (table_view table.now) }
    ensures can { IfOk result (CanHappen setup.now) }
{
    let from = values::nas_end_at(table, Field::From)?;
    let text: ShortText = values::octets(table, Field::Text)?;
    Ok(match from {
        NasEnd::Phone => Event::Phone(PhoneAct::SendNas(text)),
        NasEnd::Core => Event::Core(CoreAct::SendNas(text)),
    })
}

#[tactic(auto, unfolding(crate::specs::Steps::skip_of))]
fn skip(table: &Table, setup: &Setup) -> Result<Event, Refusal>
    ensures value { result ≡ skip_of setup.now (table_view table.now) }
    ensures can { IfOk result (CanHappen setup.now) }
{
    let who = values::actor_at(table, Field::Who)?;
    skip_at(who, table, setup)
}

// The fields of `skip`, by whose COUNTs are passed over.
fn skip_fields(who: Result<Actor, Refusal>) -> &'static [Field]
    ensures { result.now ≡ Do ∷ Who ∷ if_at_station who (BearerField ∷ N ∷ []) }
{
    match who {
        Ok(Actor::Phone | Actor::Core) => &[Field::Do, Field::Who, Field::Bearer, Field::N],
        Ok(Actor::Station) | Err(_) => &[
            Field::Do,
            Field::Who,
            Field::Station,
            Field::Bearer,
            Field::N,
        ],
    }
}

fn skip_at(who: Actor, table: &Table, setup: &Setup) -> Result<Event, Refusal>
    ensures value { result ≡ skip_at who setup.now (table_view table.now) }
    ensures can { IfOk result (CanHappen setup.now) }
{
    match who {
        Actor::Phone => {
            let path = values::path(table, Field::Bearer)?;
            let n = values::any_number(table, Field::N)?;
            Ok(Event::Phone(PhoneAct::Skip(path, n)))
        }
        Actor::Station => {
            let id = values::station(table, setup)?;
            let bearer = values::bearer(table, Field::Bearer)?;
            let n = values::any_number(table, Field::N)?;
            Ok(Event::Station(id, StationAct::Skip(bearer, n)))
        }
        Actor::Core => {
            values::nas(table, Field::Bearer)?;
            let n = values::any_number(table, Field::N)?;
            Ok(Event::Core(CoreAct::Skip(n)))
        }
    }
}

#[tactic(auto, unfolding(crate::specs::Steps::inject_of))]
fn inject(table: &Table, setup: &Setup) -> Result<Event, Refusal>
    ensures value { result ≡ inject_of setup.now (table_view table.now) }
    ensures can { IfOk result (CanHappen setup.now) }
{
    let place = target_in(table)?;
    inject_at(place, table, setup)
}

// The fields of `inject`, by where the octets go.
fn inject_fields(place: Result<Target, Refusal>) -> &'static [Field]
    ensures { result.now ≡ Do ∷ To ∷ BearerField ∷ if_air place (Octets ∷ []) }
{
    match place {
        Ok(Target::PhoneNas | Target::CoreNas) => {
            &[Field::Do, Field::To, Field::Bearer, Field::Octets]
        }
        Ok(Target::PhoneAir(_) | Target::StationAir(_)) | Err(_) => &[
            Field::Do,
            Field::To,
            Field::Bearer,
            Field::Station,
            Field::Air,
            Field::Octets,
        ],
    }
}

// Where the octets go: `to`, and then `bearer` as `to` takes it.
#[tactic(auto, unfolding(crate::specs::Steps::target_in))]
fn target_in(table: &Table) -> Result<Target, Refusal>
    ensures { result ≡ target_in (table_view table.now) }
{
    let to = values::actor_at(table, Field::To)?;
    target_at(to, table)
}

fn target_at(to: Actor, table: &Table) -> Result<Target, Refusal>
    ensures { result ≡ target_at to (table_view table.now) }
{
    match to {
        Actor::Phone => Ok(phone_target(values::path(table, Field::Bearer)?)),
        Actor::Station => Ok(Target::StationAir(values::bearer(table, Field::Bearer)?)),
        Actor::Core => {
            values::nas(table, Field::Bearer)?;
            Ok(Target::CoreNas)
        }
    }
}

fn phone_target(path: Option<Bearer>) -> Target
    ensures { result ≡ phone_target path }
{
    match path {
        None => Target::PhoneNas,
        Some(bearer) => Target::PhoneAir(bearer),
    }
}

fn inject_at(place: Target, table: &Table, setup: &Setup) -> Result<Event, Refusal>
    ensures value { result ≡ inject_at place setup.now (table_view table.now) }
    ensures can { IfOk result (CanHappen setup.now) }
{
    match place {
        Target::PhoneNas => {
            let octets = values::octets(table, Field::Octets)?;
            Ok(Event::Inject(Address::PhoneNas, octets))
        }
        Target::CoreNas => {
            let octets = values::octets(table, Field::Octets)?;
            Ok(Event::Inject(Address::CoreNas, octets))
        }
        Target::PhoneAir(bearer) => {
            let id = values::station(table, setup)?;
            let air = values::any_number(table, Field::Air)?;
            let octets = values::octets(table, Field::Octets)?;
            Ok(Event::Inject(Address::Phone(id, air, bearer), octets))
        }
        Target::StationAir(bearer) => {
            let id = values::station(table, setup)?;
            let air = values::any_number(table, Field::Air)?;
            let octets = values::octets(table, Field::Octets)?;
            Ok(Event::Inject(Address::StationAir(id, air, bearer), octets))
        }
    }
}
