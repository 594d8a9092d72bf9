ghost use Rattle.std.specs.Prelude.{◌≡◌, ◌<◌};
ghost use Rattle.alg_choice.specs.Bits.{has_bit};

use crate::Eea;

/// The security capabilities of a phone: the algorithms that it supports, two octets of TS 24.301
/// 9.9.3.36. In each the algorithm with identity 0 has the highest bit.
#[derive(Clone, Copy, Debug, Default, PartialEq, Eq)]
pub struct Caps {
    /// EEA0 to EEA7.
    pub eea: u8,
    /// EIA0 to EIA7.
    pub eia: u8,
}

impl Caps {
    ghost use Rattle.alg_choice.specs.Caps.{holds_eea, holds_eia2};

    // Whether an encryption algorithm is among them.
    pub(crate) fn holds_eea(&self, eea: Eea) -> bool
        ensures { result ≡ holds_eea self.now eea }
    {
        has_bit(self.eea, eea.identity())
    }

    // Whether 128-EIA2 is among them.
    pub(crate) fn holds_eia2(&self) -> bool
        ensures { result ≡ holds_eia2 self.now }
    {
        has_bit(self.eia, 2)
    }
}

// Whether the bit of an algorithm identity is set.
#[tactic(auto, unfolding(crate::specs::Bits::has_bit))]
fn has_bit(octet: u8, identity: u8) -> bool
    requires { identity < 8 }
    ensures { result ≡ has_bit octet identity }
{
    octet >> (7 - identity) & 1 == 1
}
