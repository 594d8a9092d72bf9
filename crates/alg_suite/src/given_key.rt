ghost use Rattle.std.specs.Prelude.{◌≡◌, drop};

use annex_a_keys::AlgKey;
use std::marker::Model;

/// An algorithm key that the caller gives: 32 octets, of which a 128-bit algorithm takes the last 16 (TS 33.401 A.7). Nothing says that it
/// was derived, as an `AlgKey` was.
#[derive(Clone, Copy)]
pub struct GivenKey {
    octets: [u8; 32],
}

impl Model for GivenKey {
    ghost use Rattle.std.specs.Prelude.{List, ℕ};

    ghost Value = { List ℕ };

    ghost view = { λ k. k.octets };

    ghost inverse = { λ octets. record { octets = octets } };
}

impl From<AlgKey> for GivenKey {
    ghost use Rattle.std.specs.Prelude.{◌≡◌};

    ghost from_gives = { λ key given. given ≡ key };

    fn from(key: AlgKey) -> GivenKey {
        GivenKey::of_octets(key.octets())
    }
}

impl GivenKey {
    /// The key of these octets.
    pub fn of_octets(octets: [u8; 32]) -> GivenKey
        ensures { result ≡ octets }
    {
        GivenKey { octets }
    }

    /// The key of a 128-bit algorithm: the last 16 octets (TS 33.401 A.7).
    pub fn key128(&self) -> [u8; 16]
        ensures { result ≡ drop 16 self.now }
    {
        let (_, last) = self.octets.split_at(16);
        let mut key = [0; 16];
        key.copy_from_slice(last);
        key
    }
}
