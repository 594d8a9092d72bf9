// Products in GF(2^64) (TS 35.215 4.3).
ghost use Rattle.std.specs.Prelude.{◌≡◌, ◌*◌, ◌<◌};
ghost use Rattle.std.specs.Int.{bit_at};
ghost use Rattle.eia1.specs.Polynomial.{multiply, times_x};

// The product with x.
#[inline(always)]
pub(crate) fn times_x(v: u64) -> u64
    ensures { result ≡ times_x v }
{
    (v << 1) ^ ((v >> 63) % 2 * 0x1b)
}

// The product, bit by bit of the second factor.
pub(crate) fn multiply(v: u64, p: u64) -> u64
    ensures { result ≡ multiply v p }
{
    let mut power = v;
    let mut sum = 0;
    for i in 0..64u32 {
        sum ^= times_bit(p, i, power);
        power = times_x(power);
    }
    sum
}

// A number where a bit is 1, and 0 where it is 0.
#[inline(always)]
fn times_bit(p: u64, i: u32, v: u64) -> u64
    requires { i < 64 }
    ensures { result ≡ bit_at p i * v }
{
    if (p >> i) % 2 == 1 { v } else { 0 }
}
