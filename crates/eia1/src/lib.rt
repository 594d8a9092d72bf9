//! 128-EIA1, which makes a message authentication code with SNOW 3G (TS 33.401 B.2.2, TS 35.215).
#![tactic(auto)]

ghost use Rattle.std.specs.Prelude.{◌≡◌, ◌*◌, ◌+◌, ◌<◌, ◌^◌};
ghost use Rattle.rec_base.specs.Header.{direction_of};
ghost use Rattle.eia1.specs.Eia1.{eia1_iv, eia1_of};

mod evaluation;
mod polynomials;
mod rows;

use evaluation::evaluated;
use polynomials::multiply;
use rec_base::Dir;
use snow3g::Snow3g;

/// 128-EIA1: the message authentication code of a text of any length, of four octets, which is MAC-I or
/// NAS-MAC (TS 33.401 B.2.1 and B.2.2).
///
/// `key` has 16 octets, and `bearer` is BEARER, of 5 bits.
pub fn eia1(key: &[u8; 16], count: u32, bearer: u8, dir: Dir, text: &[u8]) -> [u8; 4]
    requires { bearer < 32 }
    ensures { result ≡ eia1_of key.now count bearer dir text.now }
{
    let z = Snow3g::new(key, eia1_iv(count, bearer, dir)).next_words();
    let value = evaluated(text, two_words(z[0], z[1]));
    let length = (text.len() as u64) << 3;
    let closed = multiply(value ^ length, two_words(z[2], z[3]));
    ((closed >> 32) as u32 ^ z[4]).to_be_bytes()
}

// Two words as one number, the first one highest.
fn two_words(a: u32, b: u32) -> u64
    ensures { result ≡ a * 2 ^ 32 + b }
{
    a as u64 * (1 << 32) + b as u64
}

// IV0 to IV3.
#[tactic(auto, unfolding(crate::specs::Eia1::eia1_iv))]
fn eia1_iv(count: u32, bearer: u8, dir: Dir) -> [u32; 4]
    requires { bearer < 32 }
    ensures { result ≡ eia1_iv count bearer dir }
{
    let fresh = bearer as u32 * (1 << 27);
    let direction = direction(dir);
    [
        fresh ^ (direction << 15),
        count ^ (direction << 31),
        fresh,
        count,
    ]
}

// DIRECTION as a number of one bit.
fn direction(dir: Dir) -> u32
    ensures value { result ≡ direction_of dir }
    ensures fits { result < 2 }
{
    match dir {
        Dir::Up => 0,
        Dir::Down => 1,
    }
}
