// The algorithms of TS 33.401 Annex B under an algorithm key.
ghost use Rattle.std.specs.Prelude.{◌≡◌, ◌<◌};
ghost use Rattle.alg_suite.specs.Suite.{ciphered_by, mac_by};

use crate::{Ciphering, GivenKey, Integrity};
use cmac_eia2::eia2;
use ctr_eea2::eea2;
use eea1::eea1;
use eea3::eea3;
use eia1::eia1;
use eia3::eia3;
use rec_base::Dir;

/// Ciphers a text in place under an encryption algorithm, or deciphers it (TS 33.401 B.1). EEA0 leaves it as it is.
///
/// `bearer` is BEARER, of 5 bits, and the text has any length.
#[tactic(auto, unfolding(crate::specs::Suite::ciphered_by))]
pub fn cipher(eea: Ciphering, key: &GivenKey, count: u32, bearer: u8, dir: Dir, text: &mut [u8])
    requires { bearer < 32 }
    ensures { text.new ≡ ciphered_by eea key.now count bearer dir text.old }
{
    match eea {
        Ciphering::Eea0 => {}
        Ciphering::Eea1 => eea1(&key.key128(), count, bearer, dir, text),
        Ciphering::Eea2 => eea2(&key.key128(), count, bearer, dir, text),
        Ciphering::Eea3 => eea3(&key.key128(), count, bearer, dir, text),
    }
}

/// The MAC of a text under an integrity algorithm, of four octets (TS 33.401 B.2). That of EIA0 is zero (B.0).
///
/// `bearer` is BEARER, of 5 bits, and the text has any length.
#[tactic(auto, unfolding(crate::specs::Suite::mac_by))]
pub fn mac(eia: Integrity, key: &GivenKey, count: u32, bearer: u8, dir: Dir, text: &[u8]) -> [u8; 4]
    requires { bearer < 32 }
    ensures { result ≡ mac_by eia key.now count bearer dir text.now }
{
    match eia {
        Integrity::Eia0 => [0; 4],
        Integrity::Eia1 => eia1(&key.key128(), count, bearer, dir, text),
        Integrity::Eia2 => eia2(&key.key128(), count, bearer, dir, text),
        Integrity::Eia3 => eia3(&key.key128(), count, bearer, dir, text),
    }
}
