ghost use Rattle.std.specs.Prelude.{◌≡◌};
ghost use Rattle.lte_events.specs.Class.{class_of};

use crate::Class;
use rec_base::Bearer;

/// Where a record goes: an actor, and the interface at which it takes the record.
#[derive(Clone, Copy, PartialEq, Eq)]
pub enum Address {
    /// The phone at an address on the radio interface: the station, 0 to 7, the address there, and
    /// the radio bearer.
    Phone(u8, u32, Bearer),
    /// The phone, at NAS.
    PhoneNas,
    /// The core, at NAS.
    CoreNas,
    /// The core, at S1.
    CoreS1,
    /// A station, 0 to 7, at the radio interface: the phone's address there, and the radio bearer.
    StationAir(u8, u32, Bearer),
    /// A station, 0 to 7, at S1.
    StationS1(u8),
    /// A station, 0 to 7, at X2.
    StationX2(u8),
}

impl Address {
    /// The interface that a record to it is sent on.
    pub fn class(&self) -> Class
        ensures { result ≡ class_of self.now }
    {
        match self {
            Address::PhoneNas | Address::CoreNas => Class::Nas,
            Address::Phone(..) | Address::StationAir(..) => Class::Air,
            Address::CoreS1 | Address::StationS1(_) => Class::S1,
            Address::StationX2(_) => Class::X2,
        }
    }
}
