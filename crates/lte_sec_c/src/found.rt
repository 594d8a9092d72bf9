ghost use Rattle.std.specs.Prelude.{◌≡◌};
ghost use Rattle.lte_sec_c.specs.Found.{bit_of, found_at, no_mac};
ghost use Rattle.lte_sec_c.specs.Status.{status_of};

use crate::fault::Fault;

/// What a call tells of an opening.
#[repr(C)]
pub struct Found {
    /// How many octets the text has.
    pub length: usize,
    /// The COUNT, also where the MAC differs.
    pub count: u32,
    /// The security header type of a NAS message, and else 0.
    pub header: u32,
    /// Where the MAC differs, the one computed.
    pub wanted: [u8; 4],
    /// Where the MAC differs, the one received.
    pub got: [u8; 4],
    /// 1 where a MAC was compared, and 0 under EIA0 and on a DRB, where nothing is checked.
    pub checked: u32,
}

impl Found {
    // Tells of a text.
    pub(crate) fn opens(&mut self, header: u32, count: u32, length: usize, checked: bool)
        ensures { self.new ≡ record { length = length; count = count; header = header; wanted = no_mac; got = no_mac; checked = bit_of checked } }
    {
        self.length = length;
        self.count = count;
        self.header = header;
        self.wanted = [0; 4];
        self.got = [0; 4];
        self.checked = if checked { 1 } else { 0 };
    }

    // Tells of a refusal, and answers its status.
    pub(crate) fn refuses(&mut self, fault: Fault) -> u32
        ensures status { result ≡ status_of fault }
        ensures found { self.new ≡ found_at self.old fault }
    {
        if let Fault::MacFails { count, wanted, got } = fault {
            self.length = 0;
            self.count = count;
            self.header = 0;
            self.wanted = wanted;
            self.got = got;
            self.checked = 1;
        }
        fault.status()
    }
}
