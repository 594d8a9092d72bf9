use crate::{CoreAct, PhoneAct, StationAct};
use alg_choice::Caps;
use annex_a_keys::Kasme;
use rec_base::{Bearer, Octets};

/// One input of the phone.
#[derive(Drop)]
pub enum PhoneIn {
    /// An authentication: the KSI, 0 to 6, and its KASME.
    Auth(u8, Kasme),
    /// An act of its own.
    Act(PhoneAct),
    /// A NAS message came.
    Nas(Octets),
    /// A PDCP PDU came from a station, 0 to 7, at an air address of four octets there, on a bearer.
    Air(u8, u32, Bearer, Octets),
}

/// One input of a station.
#[derive(Drop)]
pub enum StationIn {
    /// An act of its own.
    Act(StationAct),
    /// A PDCP PDU came at an air address of four octets, on a bearer.
    Air(u32, Bearer, Octets),
    /// A record came on S1.
    S1(Octets),
    /// A record came on X2.
    X2(Octets),
}

/// One input of the core.
#[derive(Drop)]
pub enum CoreIn {
    /// An authentication: the KSI, 0 to 6, its KASME, and the capabilities of the phone.
    Auth(u8, Kasme, Caps),
    /// An act of its own.
    Act(CoreAct),
    /// A NAS message came.
    Nas(Octets),
    /// A record came on S1.
    S1(Octets),
}

/// One input of one actor.
#[derive(Drop)]
pub enum ActorIn {
    /// Of the phone.
    Phone(PhoneIn),
    /// Of a station, 0 to 7.
    Station(u8, StationIn),
    /// Of the core.
    Core(CoreIn),
}

// What the unused places of a bounded list of inputs hold.
impl Default for ActorIn {
    ghost use Rattle.std.specs.Prelude.{◌≡◌};
    ghost use Rattle.lte_events.specs.declared.acts.PhoneAct.TheVariants.{GoIdle};
    ghost use Rattle.lte_events.specs.declared.inputs.PhoneIn.TheVariants.{Act};
    ghost use Rattle.lte_events.specs.declared.inputs.ActorIn.TheVariants.{Phone};

    ghost is_default = { λ v. v ≡ Phone (Act GoIdle) };

    fn default() -> ActorIn {
        ActorIn::Phone(PhoneIn::Act(PhoneAct::GoIdle))
    }
}
