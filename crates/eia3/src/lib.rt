//! 128-EIA3, which makes a message authentication code with ZUC (TS 33.401 B.2.4, TS 35.221).
#![tactic(auto)]

ghost use Rattle.std.specs.Prelude.{◌≡◌, ◌*◌, ◌<◌, ◌++◌};
ghost use Rattle.rec_base.specs.Header.{direction_of};
ghost use Rattle.eia3.specs.Eia3.{eia3_iv, eia3_of, with_direction};

mod summing;

use rec_base::{Dir, header};
use summing::{piece_sum, rest_sum};
use zuc::Zuc;

/// 128-EIA3: the message authentication code of a text of any length, of four octets, which is MAC-I or
/// NAS-MAC (TS 33.401 B.2.1 and B.2.4).
///
/// `key` has 16 octets, and `bearer` is BEARER, of 5 bits.
pub fn eia3(key: &[u8; 16], count: u32, bearer: u8, dir: Dir, text: &[u8]) -> [u8; 4]
    requires { bearer < 32 }
    ensures { result ≡ eia3_of key.now count bearer dir text.now }
{
    let mut zuc = Zuc::new(key, &eia3_iv(count, bearer, dir));
    let mut words = zuc.next_words();
    let mut sum = 0;
    let whole = text.len() / 64;
    for number in 0..whole {
        let next = zuc.next_words();
        sum ^= piece_sum(&text[64 * number..64 * number + 64], &words, next[0]);
        words = next;
    }
    let next = zuc.next_words();
    (sum ^ rest_sum(&text[64 * whole..], &words, &next)).to_be_bytes()
}

// The IV.
#[tactic(auto, unfolding(crate::specs::Eia3::eia3_iv))]
fn eia3_iv(count: u32, bearer: u8, dir: Dir) -> [u8; 16]
    requires { bearer < 32 }
    ensures { result ≡ eia3_iv count bearer dir }
{
    let half = header(count, bearer, Dir::Up);
    joined(half, with_direction(half, dir))
}

// The octets with DIRECTION added to the highest bit of the first and of the seventh.
fn with_direction(mut octets: [u8; 8], dir: Dir) -> [u8; 8]
    ensures { result ≡ with_direction (with_direction octets 0 dir) 6 dir }
{
    let bit = direction_bit(dir);
    octets[0] ^= bit;
    octets[6] ^= bit;
    octets
}

// DIRECTION as the highest bit of an octet.
fn direction_bit(dir: Dir) -> u8
    ensures { result ≡ direction_of dir * 128 }
{
    match dir {
        Dir::Up => 0,
        Dir::Down => 0x80,
    }
}

// Two times eight octets.
fn joined(first: [u8; 8], second: [u8; 8]) -> [u8; 16]
    ensures { result ≡ first ++ second }
{
    let [a, b, c, d, e, f, g, h] = first;
    let [i, j, k, l, m, n, o, p] = second;
    [a, b, c, d, e, f, g, h, i, j, k, l, m, n, o, p]
}
