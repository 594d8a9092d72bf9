// The algorithms of TS 33.401 Annex B under an algorithm key.
ghost use Rattle.std.specs.Prelude.{◌≡◌, ◌<◌, ◌≤◌, ◌∷◌, length};
ghost use Rattle.nas_guard.specs.Cipher.{ciphered, mac_of};

use aes_core::Aes128;
use alg_choice::Eea;
use annex_a_keys::AlgKey;
use cmac_eia2::{Cmac, eia2};
use ctr_eea2::eea2;
use rec_base::{Dir, header};

/// Ciphers a text in place under an encryption algorithm, or deciphers it (TS 33.401 B.1.1). EEA0
/// leaves it as it is.
///
/// `bearer` is BEARER, of 5 bits, and the text has any length.
#[tactic(auto, unfolding(crate::specs::Cipher::ciphered))]
pub fn cipher(eea: Eea, key: &AlgKey, count: u32, bearer: u8, dir: Dir, text: &mut [u8])
    requires { bearer < 32 }
    ensures { text.new ≡ ciphered eea key.now count bearer dir text.old }
{
    match eea {
        Eea::Eea0 => {}
        Eea::Eea2 => eea2(&key.key128(), count, bearer, dir, text),
    }
}

/// The MAC of a text under 128-EIA2 (TS 33.401 B.2.1), of four octets. `bearer` is BEARER, of 5 bits.
#[tactic(auto, unfolding(crate::specs::Cipher::mac_of))]
pub fn mac(key: &AlgKey, count: u32, bearer: u8, dir: Dir, text: &[u8]) -> [u8; 4]
    requires { bearer < 32 }
    ensures { result ≡ mac_of key.now count bearer dir text.now }
{
    eia2(&key.key128(), count, bearer, dir, text)
}

/// The MAC of an octet and the octets after it, as `mac` of them joined (TS 33.401 B.2.1). `bearer` is
/// BEARER, of 5 bits.
pub fn mac_behind(key: &AlgKey, count: u32, bearer: u8, dir: Dir, first: u8, text: &[u8]) -> [u8; 4]
    requires { bearer < 32 }
    ensures { result ≡ mac_of key.now count bearer dir (first ∷ text.now) }
{
    let mut cmac = Cmac::start(&Aes128::new(&key.key128()));
    cmac.feed(&header(count, bearer, dir));
    cmac.feed(&[first]);
    cmac.feed(text);
    let [a, b, c, d, ..] = cmac.end();
    [a, b, c, d]
}
