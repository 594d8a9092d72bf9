//! CMAC with AES (NIST SP 800-38B, RFC 4493), and 128-EIA2, which makes a message authentication code
//! with it (TS 33.401 B.2.3).
#![tactic(auto)]

ghost use Rattle.std.specs.Prelude.{◌≡◌, ◌<◌};
ghost use Rattle.cmac_eia2.specs.Cmac.{cmac_of};
ghost use Rattle.cmac_eia2.specs.Eia2.{eia2_of};

mod blocks;
mod cmac;
mod state;

use aes_core::Aes128;
pub use cmac::Cmac;
use rec_base::{Dir, header};

/// The CMAC of a text of any length, of 16 octets, under the key of `aes` (SP 800-38B, 6.2).
pub fn cmac_of(aes: &Aes128, text: &[u8]) -> [u8; 16]
    ensures { result ≡ cmac_of aes.now text.now }
{
    let mut cmac = Cmac::start(aes);
    cmac.feed(text);
    cmac.end()
}

/// 128-EIA2: the message authentication code of a text of any length, of four octets, which is MAC-I
/// or NAS-MAC (TS 33.401 B.2.3).
///
/// `key` has 16 octets, and `bearer` is BEARER, of 5 bits.
pub fn eia2(key: &[u8; 16], count: u32, bearer: u8, dir: Dir, text: &[u8]) -> [u8; 4]
    requires { bearer < 32 }
    ensures { result ≡ eia2_of key.now count bearer dir text.now }
{
    let mut cmac = Cmac::start(&Aes128::new(key));
    cmac.feed(&header(count, bearer, dir));
    cmac.feed(text);
    let [a, b, c, d, ..] = cmac.end();
    [a, b, c, d]
}
