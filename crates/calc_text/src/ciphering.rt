// The algorithms of TS 33.401 Annex B under a key of 128 bits.
ghost use Rattle.std.specs.Prelude.{◌≡◌, ◌<◌};
ghost use Rattle.calc_text.specs.Ciphering.{enciphered, mac_under};

use crate::requests::Inputs;
use alg_suite::{Ciphering, Integrity};
use cmac_eia2::eia2;
use ctr_eea2::eea2;
use eea1::eea1;
use eea3::eea3;
use eia1::eia1;
use eia3::eia3;

// Enciphers a text in place, or deciphers it.
pub(crate) fn encipher(eea: Ciphering, inputs: &Inputs, text: &mut [u8])
    requires { inputs.now.bearer < 32 }
    ensures { text.new ≡ enciphered eea inputs.now text.old }
{
    let Inputs {
        key,
        count,
        bearer,
        dir,
    } = *inputs;
    match eea {
        Ciphering::Eea0 => {}
        Ciphering::Eea1 => eea1(&key, count, bearer, dir, text),
        Ciphering::Eea2 => eea2(&key, count, bearer, dir, text),
        Ciphering::Eea3 => eea3(&key, count, bearer, dir, text),
    }
}

// The MAC of a text.
pub(crate) fn mac_under(eia: Integrity, inputs: &Inputs, text: &[u8]) -> [u8; 4]
    requires { inputs.now.bearer < 32 }
    ensures { result ≡ mac_under eia inputs.now text.now }
{
    let Inputs {
        key,
        count,
        bearer,
        dir,
    } = *inputs;
    match eia {
        Integrity::Eia0 => [0; 4],
        Integrity::Eia1 => eia1(&key, count, bearer, dir, text),
        Integrity::Eia2 => eia2(&key, count, bearer, dir, text),
        Integrity::Eia3 => eia3(&key, count, bearer, dir, text),
    }
}
