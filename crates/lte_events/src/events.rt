use crate::{Address, CoreAct, PhoneAct, StationAct};
use alg_choice::Caps;
use rec_base::Octets;

/// One event of a system of one phone, its stations and one core.
#[derive(PartialEq, Eq, Drop)]
pub enum Event {
    /// Phone and core authenticate: the KSI, 0 to 6, the 32 octets of KASME, and the capabilities of
    /// the phone that the core learns.
    Auth(u8, [u8; 32], Caps),
    /// The phone acts.
    Phone(PhoneAct),
    /// A station, 0 to 7, acts.
    Station(u8, StationAct),
    /// The core acts.
    Core(CoreAct),
    /// The record of this number arrives: counted from 0, or from the last one back where it is
    /// negative, so that -1 is the last one sent.
    Deliver(i64),
    /// Octets that nobody sent arrive at an address.
    Inject(Address, Octets),
}
