use role_wire::Frame;
use run_report::Unwritten;

/// Why a scenario was not driven to its end.
#[derive(Drop)]
pub enum DriveFault {
    /// Memory ran out.
    Memory,
    /// A call on the peers failed.
    PeerFault,
    /// A reply differs from the wanted one.
    Differs {
        /// The number of the event, or `None` while a peer was set up.
        step: Option<u32>,
        /// The wanted reply.
        wanted: Frame,
        /// What came of it: its two octets of length where these differ, and else all.
        got: Frame,
    },
    /// The output failed.
    WriteFault,
}

impl From<Unwritten> for DriveFault {
    ghost use Rattle.std.specs.Prelude.{◌≡◌};
    ghost use Rattle.hub_drive.specs.Went.{fault_of};

    ghost from_gives = { λ unwritten fault. fault ≡ fault_of unwritten };

    fn from(unwritten: Unwritten) -> DriveFault {
        match unwritten {
            Unwritten::Memory => DriveFault::Memory,
            Unwritten::WriteFault => DriveFault::WriteFault,
        }
    }
}
