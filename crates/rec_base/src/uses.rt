// The direction of a message, and one use of a key.

/// DIRECTION, of one bit: 0 for uplink, 1 for downlink (TS 33.401 B.1.1 and B.2.1).
#[derive(Clone, Copy, PartialEq, Eq)]
pub enum Dir {
    /// From the phone.
    Up,
    /// To the phone.
    Down,
}

impl Default for Dir {
    ghost use Rattle.std.specs.Prelude.{◌≡◌};
    ghost use Rattle.rec_base.specs.declared.uses.Dir.TheVariants.{Up};

    ghost is_default = { λ v. v ≡ Up };

    fn default() -> Dir {
        Dir::Up
    }
}

/// One use of an algorithm key: what a ciphering or an integrity algorithm takes beside the text
/// (TS 33.401 B.1.1 and B.2.1).
#[derive(Clone, Copy, PartialEq, Eq, Default)]
pub struct Use {
    /// The whole algorithm key, of 32 octets (TS 33.401 A.7).
    pub key: [u8; 32],
    /// COUNT, of 32 bits; a NAS COUNT is padded with eight zero bits in front.
    pub count: u32,
    /// BEARER, of 5 bits; 0 for NAS.
    pub bearer: u8,
    /// DIRECTION.
    pub dir: Dir,
}
