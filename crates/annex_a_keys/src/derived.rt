ghost use Rattle.std.specs.Prelude.{◌≡◌};
ghost use Rattle.hmac_kdf.specs.Kdf.{IsKdfInput};

use hmac_kdf::{KdfInput, KdfKey};

/// One derivation of TS 33.401 Annex A: the key that was used, its input, and the 32 octets that
/// came out.
#[derive(Clone, Copy, Default, PartialEq, Eq)]
pub struct Derived {
    /// The 32 octets of KASME, KeNB or NH.
    pub key: [u8; 32],
    /// The input, whose string S is that of TS 33.220 B.2.
    pub input: KdfInput,
    /// The 32 octets derived.
    pub out: [u8; 32],
}

impl Derived {
    ghost use Rattle.annex_a_keys.specs.Derived.{derivation};

    // The derivation from a key and an input.
    pub(crate) fn of(key: &KdfKey, input: KdfInput) -> Derived
        requires { IsKdfInput input }
        ensures value { result ≡ derivation key.now input }
        ensures input { IsKdfInput result.input }
    {
        Derived {
            key: key.octets(),
            input,
            out: key.derive(&input),
        }
    }
}
