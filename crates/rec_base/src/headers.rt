// What 128-EEA2 and 128-EIA2 put before everything else.
ghost use Rattle.std.specs.Prelude.{◌≡◌, ◌<◌};
ghost use Rattle.rec_base.specs.Header.{direction_of, header_of};

use crate::Dir;

/// The eight octets with which the first counter block of 128-EEA2 and the input of 128-EIA2 begin:
/// COUNT in 32 bits, BEARER in 5, DIRECTION in 1 and 26 zero bits (TS 33.401 B.1.3 and B.2.3).
pub fn header(count: u32, bearer: u8, dir: Dir) -> [u8; 8]
    requires { bearer < 32 }
    ensures { result ≡ header_of count bearer dir }
{
    let [a, b, c, d] = count.to_be_bytes();
    [a, b, c, d, 8 * bearer + 4 * direction(dir), 0, 0, 0]
}

// DIRECTION as a number of one bit.
fn direction(dir: Dir) -> u8
    ensures value { result ≡ direction_of dir }
    ensures fits { result < 2 }
{
    match dir {
        Dir::Up => 0,
        Dir::Down => 1,
    }
}
