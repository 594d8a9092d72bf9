ghost use Rattle.std.specs.Prelude.{◌≡◌};
ghost use Rattle.lte_sec_c.specs.Status.{of_am, of_nas, of_pdcp, status_of};

use nas_guard::OpenFault;
use pdcp_guard::PdcpFault;
use pdu_guard::AmFault;

// The status of a call that did what it is for.
pub(crate) const DONE: u32 = 0;

// Why a call did nothing.
#[derive(Clone, Copy, Debug)]
pub(crate) enum Fault {
    // What it was given is not in range.
    OutOfRange,
    // No COUNT is left, or the PDU's has too many bits.
    CountSpent,
    // The output has too little room.
    NoRoom,
    // The PDU is shorter than the shortest.
    Short,
    // The first octet of the PDU is none of its kind.
    BadHeader,
    // The MAC differs.
    MacFails {
        count: u32,
        wanted: [u8; 4],
        got: [u8; 4],
    },
    // The PDU's sequence number is not that of the COUNT.
    OtherCount,
    // The HFN of the PDU would be before the first.
    BeforeFirst,
}

impl Fault {
    // Its status.
    pub(crate) fn status(&self) -> u32
        ensures { result ≡ status_of self.now }
    {
        match self {
            Fault::OutOfRange => 1,
            Fault::CountSpent => 2,
            Fault::NoRoom => 3,
            Fault::Short => 4,
            Fault::BadHeader => 5,
            Fault::MacFails { .. } => 6,
            Fault::OtherCount => 7,
            Fault::BeforeFirst => 8,
        }
    }

    // Of a NAS message.
    pub(crate) fn of_nas(fault: OpenFault) -> Fault
        ensures { result ≡ of_nas fault }
    {
        match fault {
            OpenFault::Short => Fault::Short,
            OpenFault::BadHeader(_) => Fault::BadHeader,
            OpenFault::CountSpent => Fault::CountSpent,
            OpenFault::MacFails { count, wanted, got } => Fault::MacFails { count, wanted, got },
        }
    }

    // Of a PDCP PDU.
    pub(crate) fn of_pdcp(fault: PdcpFault) -> Fault
        ensures { result ≡ of_pdcp fault }
    {
        match fault {
            PdcpFault::Short => Fault::Short,
            PdcpFault::BadHeader(_) => Fault::BadHeader,
            PdcpFault::CountSpent => Fault::CountSpent,
            PdcpFault::MacFails { count, wanted, got } => Fault::MacFails { count, wanted, got },
        }
    }

    // Of a PDU on RLC AM.
    pub(crate) fn of_am(fault: AmFault) -> Fault
        ensures { result ≡ of_am fault }
    {
        match fault {
            AmFault::Short => Fault::Short,
            AmFault::BadHeader(_) => Fault::BadHeader,
            AmFault::CountSpent => Fault::CountSpent,
            AmFault::BeforeFirst => Fault::BeforeFirst,
        }
    }
}
