// The six radio bearers.
ghost use Rattle.std.specs.Prelude.{◌≡◌, ◌≢◌, ◌<◌, ◌↔◌, IfNone};
ghost use Rattle.rec_base.specs.Bearer.{octet_of, bearer_of, bearer5_of};

/// The radio bearers of a phone: SRB1 and SRB2 for signalling, DRB1 to DRB4 for user data.
#[derive(Clone, Copy, PartialEq, Eq, Debug)]
pub enum Bearer {
    Srb1,
    Srb2,
    Drb1,
    Drb2,
    Drb3,
    Drb4,
}

impl Bearer {
    /// The octet that stands for the bearer in a record: the bearer identity, with the highest bit
    /// set on a DRB.
    pub fn octet(self) -> u8
        ensures { result ≡ octet_of self }
    {
        match self {
            Bearer::Srb1 => 0x01,
            Bearer::Srb2 => 0x02,
            Bearer::Drb1 => 0x81,
            Bearer::Drb2 => 0x82,
            Bearer::Drb3 => 0x83,
            Bearer::Drb4 => 0x84,
        }
    }

    /// The bearer that an octet stands for, or `None` where it stands for none of the six.
    pub fn of_octet(o: u8) -> Option<Bearer>
        ensures value { result ≡ bearer_of o }
        ensures inverse { (b : Bearer) → (result ≡ Some b) ↔ (octet_of b ≡ o) }
        ensures none { IfNone result ((b : Bearer) → octet_of b ≢ o) }
    {
        match o {
            0x01 => Some(Bearer::Srb1),
            0x02 => Some(Bearer::Srb2),
            0x81 => Some(Bearer::Drb1),
            0x82 => Some(Bearer::Drb2),
            0x83 => Some(Bearer::Drb3),
            0x84 => Some(Bearer::Drb4),
            _ => None,
        }
    }

    /// BEARER, of 5 bits: the bearer identity minus 1 (TS 36.323 5.6 and 5.7).
    pub fn bearer5(self) -> u8
        ensures value { result ≡ bearer5_of self }
        ensures fits { result < 32 }
    {
        (self.octet() & 0x7f) - 1
    }
}
